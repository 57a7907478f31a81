//! A script's events, as an array's threads are given them.

ghost use Rattle.std.specs.Prelude.{◌≡◌, [], ◌∷◌, length, replicate, IfErr, IfOk};
ghost use Rattle.std.specs.List.{AllZip};
ghost use Rattle.r6_world.specs.Values.{op_of, buffer_of};
ghost use Rattle.r6_world.specs.PlainArray.{Read as Reads, Write as Writes};
ghost use Rattle.r6_script.specs.declared.run_event.RunEvent.TheVariants.{Attach as Attaches};
ghost use Rattle.r6_offline.specs.Files.{IsSlotOpened};
ghost use Rattle.r6_dev.specs.declared.file.Access.TheVariants.{ReadWrite};
ghost use Rattle.r6_run.specs.Faults.{IsRunningFault};
ghost use Rattle.r6_run.specs.Runs.{IsAsked};

use crate::fault::RunFault;
use r6_dev::{Access, FileDevice};
use r6_engine::{Event, open_slot};
use r6_kernels::Buffer;
use r6_layout::Geometry;
use r6_script::RunEvent;
use r6_world::Op;
use std::alloc::{AllocError, Global};
use std::io::Seek;
use std::os::unix::fs::FileExt;
use std::rt::Files;

// A read, with room for its block.
fn read_of(alloc: Global, len: usize, block: u64) -> Result<Op, AllocError>
    ensures asked { IfOk result (λ op. op_of op ≡ Reads block) }
    ensures room { IfOk result (λ op. length (buffer_of op) ≡ len) }
{
    Ok(Op::Read(block, Buffer::new(alloc, len)?))
}

// A write of a block of one byte.
fn write_of(alloc: Global, len: usize, block: u64, byte: u8) -> Result<Op, AllocError>
    ensures { IfOk result (λ op. op_of op ≡ Writes block (replicate len byte)) }
{
    Ok(Op::Write(block, Buffer::filled(alloc, len, byte)?))
}

// The new device of a slot, at this path. A fault is told as that of an attach.
fn device_of<F: FileExt + Seek + Drop, R: Files<File = F>>(
    files: &R,
    alloc: Global,
    geometry: &Geometry,
    slot: u64,
    path: &str,
) -> Result<Vec<FileDevice<F>>, RunFault>
    ensures parts { IfOk result (λ parts. length parts.items ≡ geometry.now.shards) }
    ensures opened { IfOk result (λ parts. IsSlotOpened geometry.now path.now ReadWrite parts.items) }
    ensures err { IfErr result (IsRunningFault 0 [] (Attaches slot path.entry ∷ [])) }
{
    let slot = slot as usize;
    let parts = open_slot(files, alloc, geometry, slot, path, Access::ReadWrite)?;
    Ok(parts)
}

// An event, with its device opened if it brings one.
fn event_of<F: FileExt + Seek + Drop, R: Files<File = F>>(
    files: &R,
    alloc: Global,
    geometry: &Geometry,
    entry: RunEvent<'_>,
) -> Result<Event<FileDevice<F>>, RunFault>
    ensures ok { IfOk result (IsAsked geometry.now entry.entry) }
    ensures err { IfErr result (IsRunningFault 0 [] (entry.entry ∷ [])) }
{
    match entry {
        RunEvent::Read(block) => Ok(Event::Request(read_of(alloc, geometry.block(), block)?)),
        RunEvent::Write(block, byte) => Ok(Event::Request(write_of(
            alloc,
            geometry.block(),
            block,
            byte,
        )?)),
        RunEvent::Wait => Ok(Event::Wait),
        RunEvent::Fail(slot) => Ok(Event::Fail(slot as usize)),
        RunEvent::Attach(slot, path) => {
            let parts = device_of(files, alloc, geometry, slot, path)?;
            Ok(Event::Attach(slot as usize, parts))
        }
        RunEvent::Replace(slot, path) => {
            let parts = device_of(files, alloc, geometry, slot, path)?;
            Ok(Event::Replace(slot as usize, parts))
        }
        RunEvent::Check => Ok(Event::Check),
        RunEvent::Repair => Ok(Event::Repair),
    }
}

/// The events of a script, in their order. Their new devices are opened, and no file is changed.
pub(crate) fn events_of<F: FileExt + Seek + Drop, R: Files<File = F>>(
    files: &R,
    alloc: Global,
    geometry: &Geometry,
    script: &[RunEvent<'_>],
) -> Result<Vec<Event<FileDevice<F>>>, RunFault>
    ensures ok { IfOk result (λ events. AllZip (IsAsked geometry.now) script.now events.items) }
    ensures err { IfErr result (IsRunningFault 0 [] script.now) }
{
    let mut events = Vec::with_capacity(alloc, script.len())?;
    for entry in script {
        events.push(event_of(files, alloc, geometry, *entry)?)?;
    }
    Ok(events)
}

//! A caller of the engine, complete: an array in memory is served a few events, and what became of it is read.

ghost use Rattle.std.specs.Prelude.{◌≡◌, length, IfOk};
ghost use Rattle.r6_layout.specs.Shape.{IsShape};
ghost use Rattle.r6_engine.specs.feed.Events.{AreWhole};

use r6_core::{Op, Reply};
use r6_dev::MemoryDevice;
use r6_engine::{Config, EngineError, Event, EventReply, Found, Served, serve};
use r6_kernels::Buffer;
use r6_layout::Geometry;
use r6_shard::{Part, Parts};
use std::alloc::{AllocError, Global};
use std::sync::Wait;
use std::thread::Threads;

/// A device of zeros: a part for each shard, with the rows of that shard.
fn device_of(alloc: Global, geometry: &Geometry) -> Result<Vec<MemoryDevice>, AllocError>
    ensures { IfOk result (λ parts. length parts.items ≡ geometry.now.shards) }
{
    let mut parts = Vec::with_capacity(alloc, geometry.shards())?;
    for shard in 0..geometry.shards() {
        let rows = geometry.shard_rows(shard);
        parts.push(MemoryDevice::new(alloc, rows, geometry.block())?)?;
    }
    Ok(parts)
}

/// The array as it begins: for each shard its part of each slot's device.
fn parts_of(alloc: Global, geometry: &Geometry) -> Result<Vec<Parts<MemoryDevice>>, AllocError>
    ensures { IfOk result (λ parts. length parts.items ≡ geometry.now.shards) }
{
    let mut shards = Vec::with_capacity(alloc, geometry.shards())?;
    for shard in 0..geometry.shards() {
        let mut parts = Vec::with_capacity(alloc, geometry.slots())?;
        for slot in 0..geometry.slots() {
            let rows = geometry.shard_rows(shard);
            parts.push(Part {
                slot,
                generation: 0,
                device: MemoryDevice::new(alloc, rows, geometry.block())?,
            })?;
        }
        shards.push(Parts { parts })?;
    }
    Ok(shards)
}

/// Block 0 is written; then slot 1 is lost and gets a new device. Once that is rebuilt all rows are checked, and block 0
/// is read.
fn events_of(alloc: Global, geometry: &Geometry) -> Result<Vec<Event<MemoryDevice>>, AllocError>
    ensures { IfOk result (λ events. AreWhole geometry.now.shards events.items) }
{
    let block = geometry.block();
    let mut events = Vec::with_capacity(alloc, 7)?;
    events.push_reserved(Event::Request(Op::Write(0, Buffer::filled(alloc, block, 0x5a)?)));
    events.push_reserved(Event::Wait);
    events.push_reserved(Event::Fail(1));
    events.push_reserved(Event::Attach(1, device_of(alloc, geometry)?));
    events.push_reserved(Event::Wait);
    events.push_reserved(Event::Check);
    events.push_reserved(Event::Request(Op::Read(0, Buffer::new(alloc, block)?)));
    Ok(events)
}

/// Serves the array its events, with a thread for each shard.
pub(crate) fn serve_array<R: Threads + Wait + Sync>(
    rt: &R,
    alloc: Global,
    geometry: Geometry,
) -> Result<Served<MemoryDevice>, EngineError>
    requires { IsShape geometry }
{
    let config = Config {
        geometry,
        window: 8,
        workers: 1,
        lost: 0,
        stop: None,
    };
    let parts = parts_of(alloc, &geometry)?;
    let events = events_of(alloc, &geometry)?;
    serve(rt, alloc, config, parts, events)
}

/// What a caller may want to know of it.
#[derive(Clone, Copy, PartialEq, Eq, Debug)]
pub(crate) struct Summary {
    /// What the check found.
    pub(crate) found: Option<Found>,
    /// The first byte of the block that was read.
    pub(crate) byte: Option<u8>,
    /// How many requests the shards answered.
    pub(crate) answered: usize,
    /// How many parts of devices came back.
    pub(crate) parts: usize,
    /// Whether slot 1 is in sync at the end.
    pub(crate) is_in_sync: bool,
}

/// Reads the replies, each by the number of its event, the ledgers, the devices and the snapshot.
pub(crate) fn summary_of(served: &Served<MemoryDevice>) -> Summary {
    let found = match served.replies.get(5) {
        Some(EventReply::Counted(found)) => Some(*found),
        _ => None,
    };
    let byte = match served.replies.get(6) {
        Some(EventReply::Replied(Reply::Data(block))) => block.as_slice().first().copied(),
        _ => None,
    };
    let (mut answered, mut parts) = (0_usize, 0_usize);
    for (ledger, shard) in served.ledgers.iter().zip(&served.devices) {
        answered = answered.saturating_add(ledger.entries.len());
        parts = parts
            .saturating_add(shard.parts.len())
            .saturating_add(shard.others.len());
    }
    Summary {
        found,
        byte,
        answered,
        parts,
        is_in_sync: !served.snapshot.slot(1).is_out(),
    }
}

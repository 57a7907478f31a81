//! The files of an array's devices, one for each slot.

ghost use Rattle.std.specs.Prelude.{◌≡◌, ◌+◌, ◌*◌, ◌/◌, ◌%◌, ◌<◌, false, length, map, string_bytes, IfErr, IfOk};
ghost use Rattle.r6_dev.specs.OpenErrors.{IsOpenError};
ghost use Rattle.r6_layout.specs.Shape.{IsShape};
ghost use Rattle.r6_offline.specs.Errors.{IsMakingFault, IsOpeningFault, IsSlotFault};
ghost use Rattle.r6_offline.specs.Files.{AreOpened, IsSlotOpened, opened_part, part_at};
ghost use Rattle.r6_offline.specs.Parts.{AreThoseNotLost, is_lost, parts_of, tells_nothing};

use crate::error::EngineError;
use r6_dev::{Access, DeviceSize, Fault, FileDevice, OpenError};
use r6_layout::Geometry;
use std::alloc::Global;
use std::fs::{OpenFile, OpenOptions};
use std::io::{ErrorKind, Seek};
use std::os::unix::fs::FileExt;
use std::rt::Files;

/// Opens the parts of an array whose devices are files, or block devices of the system: the path of a slot leads to
/// its device, and one without a path has none. Each part serves the rows of its shard. The devices of the slots in `lost` are not opened, and their parts
/// aren't there. No file is changed, nor made.
///
/// # Errors
/// `Device(slot, fault)` for the first slot whose device answers a fault: 3 `Gone` if it is neither a file nor a block
/// device, or can't be opened or measured, 4 `Length` if it hasn't `rows * block` bytes. `NoMemory`.
pub fn open_parts<F: FileExt + Seek + Drop, R: Files<File = F>>(
    files: &R,
    alloc: Global,
    geometry: &Geometry,
    paths: &[String],
    lost: &[u32],
    access: Access,
) -> Result<Vec<Option<FileDevice<F>>>, EngineError>
    ensures parts { IfOk result (λ parts. length parts.items ≡ geometry.now.shards * geometry.now.slots) }
    ensures absent { IfOk result
        (λ parts. AreThoseNotLost geometry.now lost.now (parts_of tells_nothing parts.items)) }
    ensures opened { IfOk result
        (λ parts. AreOpened geometry.now (map string_bytes paths.now) lost.now access parts.items) }
    ensures err { IfErr result (IsOpeningFault geometry.now.slots lost.now) }
{
    let count = part_count(geometry);
    let mut parts = Vec::new(alloc);
    for number in 0..count {
        parts.push(open_numbered(files, alloc, geometry, paths, lost, access, number)?)?;
    }
    Ok(parts)
}

// The number of parts that an array has.
fn part_count(geometry: &Geometry) -> usize
    ensures value { result ≡ geometry.now.shards * geometry.now.slots }
    ensures limits { IsShape geometry.now }
{
    geometry.shards() * geometry.slots()
}

// The shard of the part with this number.
fn shard_of(geometry: &Geometry, number: usize) -> usize
    requires { number < geometry.now.shards * geometry.now.slots }
    ensures within { result < geometry.now.shards }
    ensures value { result ≡ number / geometry.now.slots }
{
    number / geometry.slots()
}

// Opens the part with this number, if its slot isn't lost.
fn open_numbered<F: FileExt + Seek + Drop, R: Files<File = F>>(
    files: &R,
    alloc: Global,
    geometry: &Geometry,
    paths: &[String],
    lost: &[u32],
    access: Access,
    number: usize,
) -> Result<Option<FileDevice<F>>, EngineError>
    requires { number < geometry.now.shards * geometry.now.slots }
    ensures opened { IfOk result (λ part. part ≡ opened_part geometry.now (map string_bytes paths.now) lost.now access
        (number / geometry.now.slots) (number % geometry.now.slots)) }
    ensures has_path { IfOk result (λ _. is_lost lost.now (number % geometry.now.slots) ≡ false
        → number % geometry.now.slots < length paths.now) }
    ensures err { IfErr result (IsOpeningFault geometry.now.slots lost.now) }
{
    let slot = number % geometry.slots();
    if lost.contains(&(slot as u32)) {
        return Ok(None);
    }
    let Some(path) = paths.get(slot) else {
        return Err(EngineError::Device {
            slot,
            fault: Fault::Gone,
        });
    };
    let shard = shard_of(geometry, number);
    match open_shard(files, alloc, geometry, shard, slot, path.as_str(), access) {
        Ok(device) => Ok(Some(device)),
        Err(error) => Err(error),
    }
}

/// Opens the parts of a new device for a slot, one for each shard, from the first on: a file, or a block device of the
/// system, at this path. It isn't changed.
///
/// # Errors
/// `Device(slot, fault)`: 3 `Gone` if it is neither a file nor a block device, or can't be opened or measured,
/// 4 `Length` if it hasn't `rows * block` bytes. `NoMemory`.
pub fn open_slot<F: FileExt + Seek + Drop, R: Files<File = F>>(
    files: &R,
    alloc: Global,
    geometry: &Geometry,
    slot: usize,
    path: &str,
    access: Access,
) -> Result<Vec<FileDevice<F>>, EngineError>
    ensures parts { IfOk result (λ parts. length parts.items ≡ geometry.now.shards) }
    ensures opened { IfOk result (λ parts. IsSlotOpened geometry.now path.now access parts.items) }
    ensures err { IfErr result (IsSlotFault slot) }
{
    let shards = geometry.shards();
    let mut parts = Vec::with_capacity(alloc, shards)?;
    for shard in 0..shards {
        parts.push_reserved(open_shard(files, alloc, geometry, shard, slot, path, access)?);
    }
    Ok(parts)
}

// Opens the part of a shard of a slot's device.
fn open_shard<F: FileExt + Seek + Drop, R: Files<File = F>>(
    files: &R,
    alloc: Global,
    geometry: &Geometry,
    shard: usize,
    slot: usize,
    path: &str,
    access: Access,
) -> Result<FileDevice<F>, EngineError>
    requires { shard < geometry.now.shards }
    ensures made { IfOk result (λ device. device ≡ part_at geometry.now shard path.now access) }
    ensures err { IfErr result (IsSlotFault slot) }
{
    match open_part(files, alloc, geometry, shard, path, access) {
        Ok(device) => Ok(device),
        Err(OpenError::NoMemory) => Err(EngineError::NoMemory),
        Err(OpenError::Device(fault)) => Err(EngineError::Device { slot, fault }),
    }
}

// Opens the part of a shard.
fn open_part<F: FileExt + Seek + Drop, R: Files<File = F>>(
    files: &R,
    alloc: Global,
    geometry: &Geometry,
    shard: usize,
    path: &str,
    access: Access,
) -> Result<FileDevice<F>, OpenError>
    requires { shard < geometry.now.shards }
    ensures made { IfOk result (λ device. device ≡ part_at geometry.now shard path.now access) }
    ensures err { IfErr result IsOpenError }
{
    let size = DeviceSize {
        rows: geometry.rows(),
        block: geometry.block(),
    };
    FileDevice::open(files, alloc, path, access, size, geometry.shard_rows(shard))
}

/// Makes the files of an array's devices, of zeros, `rows * block` bytes each, in the order of the slots. The zeros
/// take no room on a file system that keeps files with holes.
///
/// # Errors
/// `Device(slot, WriteFault)` for the first slot whose file is there already, or can't be made or written. The files
/// that were made before it stay. `NoMemory`.
pub fn create_files<R: Files>(
    files: &R,
    geometry: &Geometry,
    paths: &[String],
) -> Result<(), EngineError>
    ensures { IfErr result (IsMakingFault (length paths.now)) }
{
    let bytes = geometry.rows() * geometry.block() as u64;
    for (slot, path) in paths.iter().enumerate() {
        create_file(files, path.as_str(), bytes, slot)?;
    }
    Ok(())
}

// Makes a file of so many zeros.
fn create_file<R: Files>(files: &R, path: &str, bytes: u64, slot: usize) -> Result<(), EngineError>
    ensures { IfErr result (IsMakingFault (slot + 1)) }
{
    let refused = EngineError::Device {
        slot,
        fault: Fault::WriteFault,
    };
    let mut how = OpenOptions::new();
    how.write(true).create_new(true);
    let file = match how.open(files, path) {
        Ok(file) => file,
        Err(error) if error.kind() == ErrorKind::OutOfMemory => return Err(EngineError::NoMemory),
        Err(_) => return Err(refused),
    };
    match file.set_len(bytes) {
        Ok(()) => Ok(()),
        Err(_) => Err(refused),
    }
}

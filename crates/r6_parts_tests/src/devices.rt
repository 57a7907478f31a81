//! A device in memory, the caller that copies its rows, and one that fails by plan.

use crate::blocks::{grown, is_grown};
use crate::device_caller::copy_rows;
use crate::must::must;
use r6_dev::{BlockDevice, Fault, Faulty, MemoryDevice};
use r6_kernels::Buffer;
use std::alloc::{AllocError, Global};
use std::test::Fail;

const REFUSED: Result<(), Fault> = Err(Fault::Length);

/// Steps of a device of rows 4 to 7, which are zeros until they are written: whether a block is written or else read, its
/// row and its bytes, with which of them it begins then, and what is told.
const STEPS: &[(bool, u64, usize, u8, Result<(), Fault>)] = &[
    (false, 5, 16, 0x00, Ok(())),
    (true, 5, 16, 0x5a, Ok(())),
    (false, 4, 16, 0x00, Ok(())),
    (false, 5, 16, 0x5a, Ok(())),
    (false, 6, 16, 0x00, Ok(())),
    (false, 7, 16, 0x00, Ok(())),
    (false, 3, 16, 0xee, REFUSED),
    (true, 3, 16, 0xee, REFUSED),
    (false, 8, 16, 0xee, REFUSED),
    (true, 8, 16, 0xee, REFUSED),
    (false, 4, 15, 0xee, REFUSED),
    (true, 4, 15, 0xee, REFUSED),
];

const UNREAD: Result<(), Fault> = Err(Fault::ReadFault);

/// The first commands to a device of rows 4 to 7 of which rows 5, 6 and 8 can't be read, command 3 fails and command 9 is
/// the first after its end: whether a block is written or else read, its row, and what is told.
const PLANNED: &[(bool, u64, Result<(), Fault>)] = &[
    (false, 5, UNREAD),
    (false, 4, Ok(())),
    (false, 5, UNREAD),
    (true, 5, Err(Fault::WriteFault)),
    (false, 5, UNREAD),
    (true, 5, Ok(())),
    (false, 5, Ok(())),
    (true, 8, REFUSED),
    (false, 8, UNREAD),
    (false, 6, Err(Fault::Gone)),
];

/// What a device tells of a block that is written or else read.
fn told<D: BlockDevice>(
    device: &mut D,
    is_write: bool,
    row: u64,
    block: &mut Buffer,
) -> Result<(), Fault> {
    if is_write {
        device.write(row, block)
    } else {
        device.read(row, block)
    }
}

/// Whether a step is answered so. A block that is read begins with ee before.
fn is_answered(
    alloc: Global,
    device: &mut MemoryDevice,
    step: &(bool, u64, usize, u8, Result<(), Fault>),
) -> Result<bool, AllocError> {
    let (is_write, row, len, first, wanted) = *step;
    let mut block = grown(alloc, len, if is_write { first } else { 0xee })?;
    Ok(told(device, is_write, row, &mut block) == wanted && is_grown(&block, first))
}

/// Whether row 5 is copied by a copy that ends at the row that the other device lacks.
fn is_copied(alloc: Global, device: &mut MemoryDevice) -> Result<bool, Fail> {
    let mut to = MemoryDevice::new(alloc, 4..7, 16)?;
    let mut block = grown(alloc, 16, 0xee)?;
    Ok(
        copy_rows(device, &mut to, 4..8, &mut block) == Err(Fault::Length)
            && to.read(5, &mut block) == Ok(())
            && is_grown(&block, 0x5a),
    )
}

/// Whether each command is answered as planned.
fn answers_by_plan(alloc: Global) -> Result<bool, Fail> {
    let zeros = MemoryDevice::new(alloc, 4..8, 16)?;
    let mut failing = Vec::new(alloc);
    failing.push(3)?;
    let mut unreadable = Vec::new(alloc);
    for row in [5, 6, 8] {
        unreadable.push(row)?;
    }
    let mut device = Faulty::new(zeros, failing, Some(9), unreadable);
    let mut block = grown(alloc, 16, 0x5a)?;
    for (is_write, row, wanted) in PLANNED {
        if told(&mut device, *is_write, *row, &mut block) != *wanted {
            return Ok(false);
        }
    }
    Ok(device.unreadable.as_slice() == [6, 8].as_slice())
}

#[test]
fn a_row_is_unreadable_until_it_is_written(rt: HostRuntime) -> Result<(), Fail> {
    let is_so = answers_by_plan(rt.alloc())?;
    must(&rt, is_so, "a device that fails by plan", 0, 0);
    Ok(())
}

/// Reads of rows at once, of a device of rows 4 to 7 whose blocks begin with the numbers of their rows: the first row, how
/// many rows, how many bytes, and whether it is done.
const AT_ONCE: &[(u64, usize, usize, bool)] = &[
    (4, 4, 64, true),
    (5, 3, 48, true),
    (7, 1, 16, true),
    (6, 0, 0, true),
    (4, 5, 80, false),
    (3, 2, 32, false),
    (8, 1, 16, false),
    (5, 3, 47, false),
    (5, 2, 48, false),
    (5, usize::MAX, 48, false),
];

/// Whether these are the blocks of rows from one on.
fn are_rows(bytes: &[u8], row: u64) -> bool {
    bytes.iter().enumerate().all(|(place, byte)| place % 16 != 0
        || u64::from(*byte) == row.wrapping_add(place as u64 / 16))
}

#[test]
fn rows_are_read_at_once_or_not_at_all(rt: HostRuntime) -> Result<(), Fail> {
    let mut device = MemoryDevice::new(rt.alloc(), 4..8, 16)?;
    for row in 4..8u8 {
        device.write(u64::from(row), &grown(rt.alloc(), 16, row)?)?;
    }
    for (index, (row, count, len, is_done)) in AT_ONCE.iter().enumerate() {
        let mut bytes = vec![in rt.alloc(); 0u8; *len]?;
        let is_read = device.read_rows(*row, *count, bytes.as_mut_slice());
        let is_so = is_read == *is_done && (!is_read || are_rows(bytes.as_slice(), *row));
        must(&rt, is_so, "rows at once", 0, index);
    }
    Ok(())
}

#[test]
fn blocks_stand_in_their_rows_and_are_copied(rt: HostRuntime) -> Result<(), Fail> {
    let mut device = MemoryDevice::new(rt.alloc(), 4..8, 16)?;
    for (index, step) in STEPS.iter().enumerate() {
        let is_so = is_answered(rt.alloc(), &mut device, step)?;
        must(&rt, is_so, "a step of a device", 0, index);
    }
    let is_so = is_copied(rt.alloc(), &mut device)? && Fault::Length.number() == 4;
    must(&rt, is_so, "a copy", 0, 0);
    Ok(())
}

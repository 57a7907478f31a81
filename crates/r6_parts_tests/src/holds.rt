//! Holds driven over blocks in memory.

use crate::bench::{Ask, Bench, Course, Step, played};
use crate::blocks::is_grown;
use crate::hold_caller::drive;
use crate::must::must;
use crate::{batches, checks, read_errors, rebuilds, second_devices};
use r6_stripe::{Batch, RowTask};
use std::alloc::Global;
use std::process::Abort;
use std::test::Fail;

/// Full rows: data, and P and Q by their definitions, the sum of all Di, and of all x^i Di.
pub(crate) const FOUR: [u8; 4] = [0x01, 0x80, 0x81, 0x1c];

pub(crate) const SIX: [u8; 6] = [0x01, 0x80, 0x81, 0x1c, 0x1c, 0xc2];

pub(crate) const EIGHT: [u8; 8] = [0x01, 0x80, 0x81, 0x1c, 0xff, 0x3e, 0xdd, 0x1a];

/// The same after 5a was written as data block 1.
pub(crate) const FOUR_CHANGED: [u8; 4] = [0x01, 0x5a, 0x5b, 0xb5];

pub(crate) const SIX_CHANGED: [u8; 6] = [0x01, 0x5a, 0x81, 0x1c, 0xc6, 0x6b];

pub(crate) const EIGHT_CHANGED: [u8; 8] = [0x01, 0x5a, 0x81, 0x1c, 0xff, 0x3e, 0x07, 0xb3];

/// The same after 5a was written as data block 0.
pub(crate) const SIX_FIRST: [u8; 6] = [0x5a, 0x80, 0x81, 0x1c, 0x47, 0x99];

/// The row of zeros after 5a was written as its first data block.
pub(crate) const WRITTEN: [u8; 4] = [0x5a, 0x00, 0x5a, 0x5a];

pub(crate) const FIRST: Ask<'static> = Ask::Write(&[(0, 0x5a)]);

pub(crate) const SECOND: Ask<'static> = Ask::Write(&[(1, 0x5a)]);

const COURSES: &[Course<'static>] = &[
    // One read, of the other data block, and three writes, put out together.
    Course {
        name: "a write over zeros reads one block",
        ask: FIRST,
        bytes: &[0; 4],
        in_sync: &[true; 4],
        steps: &[
            Step::Read(1),
            Step::Nothing,
            Step::IsOver(false),
            Step::Answer(1),
            Step::Drive(9, 3),
            Step::IsOver(true),
        ],
        after: &WRITTEN,
        lost: &[],
    },
    Course {
        name: "a read gives the first block",
        ask: Ask::Read(0),
        bytes: &FOUR,
        in_sync: &[true; 4],
        steps: &[Step::Drive(9, 1), Step::IsOver(true), Step::Has(0, 0x01)],
        after: &FOUR,
        lost: &[],
    },
    Course {
        name: "a read gives the second block",
        ask: Ask::Read(1),
        bytes: &FOUR,
        in_sync: &[true; 4],
        steps: &[Step::Drive(9, 1), Step::IsOver(true), Step::Has(1, 0x80)],
        after: &FOUR,
        lost: &[],
    },
    Course {
        name: "eight positions in sync are modified",
        ask: SECOND,
        bytes: &EIGHT,
        in_sync: &[true; 8],
        steps: &[
            Step::Read(1),
            Step::Answer(1),
            Step::Read(6),
            Step::Answer(6),
            Step::Read(7),
            Step::Answer(7),
            Step::Drive(9, 3),
            Step::IsOver(true),
        ],
        after: &EIGHT_CHANGED,
        lost: &[],
    },
    Course {
        name: "six positions in sync are reconstructed",
        ask: SECOND,
        bytes: &SIX,
        in_sync: &[true; 6],
        steps: &[
            Step::Read(0),
            Step::Answer(0),
            Step::Read(2),
            Step::Answer(2),
            Step::Read(3),
            Step::Answer(3),
            Step::Drive(9, 3),
            Step::IsOver(true),
        ],
        after: &SIX_CHANGED,
        lost: &[],
    },
    Course {
        name: "data alone are overwritten",
        ask: SECOND,
        bytes: &SIX,
        in_sync: &[true, true, true, true, false, false],
        steps: &[Step::Drive(9, 1), Step::IsOver(true)],
        after: &SIX_CHANGED,
        lost: &[4, 5],
    },
    Course {
        name: "a modify without P reads two",
        ask: SECOND,
        bytes: &EIGHT,
        in_sync: &[true, true, true, true, true, true, false, true],
        steps: &[
            Step::Read(1),
            Step::Answer(1),
            Step::Read(7),
            Step::Answer(7),
            Step::Drive(9, 2),
            Step::IsOver(true),
        ],
        after: &EIGHT_CHANGED,
        lost: &[6],
    },
    // All three reads are out when the parity is lost. The block and the other parity are written while its buffer is
    // away.
    Course {
        name: "a modify goes on without P, which is lost",
        ask: SECOND,
        bytes: &EIGHT,
        in_sync: &[true; 8],
        steps: &[
            Step::PutOut(3),
            Step::Lose(6),
            Step::Answer(1),
            Step::Answer(7),
            Step::Drive(9, 2),
            Step::IsOver(true),
            Step::IsHome(false),
            Step::Answer(6),
            Step::IsHome(true),
        ],
        after: &EIGHT_CHANGED,
        lost: &[6],
    },
    Course {
        name: "a modify goes on without Q, which is lost",
        ask: SECOND,
        bytes: &EIGHT,
        in_sync: &[true; 8],
        steps: &[
            Step::PutOut(3),
            Step::Lose(7),
            Step::Answer(1),
            Step::Answer(6),
            Step::Drive(9, 2),
            Step::IsOver(true),
            Step::IsHome(false),
            Step::Answer(7),
            Step::IsHome(true),
        ],
        after: &EIGHT_CHANGED,
        lost: &[7],
    },
    // Its block has come before it is lost: two reads and two writes are left.
    Course {
        name: "parities take a block whose device was lost",
        ask: SECOND,
        bytes: &EIGHT,
        in_sync: &[true; 8],
        steps: &[
            Step::Drive(1, 1),
            Step::Lose(1),
            Step::Drive(9, 4),
            Step::IsOver(true),
        ],
        after: &EIGHT_CHANGED,
        lost: &[1],
    },
    // Position 1 is out, and four blocks of data are restored from four other positions.
    Course {
        name: "a read recovers from as many as there are data",
        ask: Ask::Read(1),
        bytes: &[0x01, 0xee, 0x81, 0x1c, 0x1c, 0xc2],
        in_sync: &[true, false, true, true, true, true],
        steps: &[
            Step::Read(0),
            Step::Read(2),
            Step::Read(3),
            Step::Read(4),
            Step::Nothing,
            Step::Answer(0),
            Step::Answer(2),
            Step::Answer(3),
            Step::IsOver(false),
            Step::Answer(4),
            Step::Nothing,
            Step::IsOver(true),
        ],
        after: &SIX,
        lost: &[1],
    },
    // With three out a hold is never over, and writes nothing.
    // Its own device and that of the next block are out: all others are read, and the parities alone are written.
    Course {
        name: "a write recovers from all others where its block and the next one are out",
        ask: FIRST,
        bytes: &SIX,
        in_sync: &[false, false, true, true, true, true],
        steps: &[
            Step::Read(2),
            Step::Read(3),
            Step::Read(4),
            Step::Read(5),
            Step::Nothing,
            Step::Answer(2),
            Step::Answer(3),
            Step::Answer(4),
            Step::Nothing,
            Step::Answer(5),
            Step::Write(4),
            Step::Write(5),
            Step::Nothing,
            Step::Answer(4),
            Step::IsOver(false),
            Step::Answer(5),
            Step::IsOver(true),
        ],
        after: &SIX_FIRST,
        lost: &[0, 1],
    },
    Course {
        name: "a read does not survive three losses",
        ask: Ask::Read(1),
        bytes: &SIX,
        in_sync: &[false, false, true, true, true, false],
        steps: &[Step::Drive(9, 3), Step::IsOver(false)],
        after: &SIX,
        lost: &[],
    },
    Course {
        name: "a write does not survive three losses",
        ask: SECOND,
        bytes: &SIX,
        in_sync: &[false, false, true, true, true, false],
        steps: &[Step::Drive(9, 3), Step::IsOver(false)],
        after: &SIX,
        lost: &[],
    },
    // All three writes are out when the position is lost.
    Course {
        name: "late buffers come home, 0 is lost",
        ask: FIRST,
        bytes: &[0; 4],
        in_sync: &[true; 4],
        steps: &[
            Step::Drive(1, 1),
            Step::PutOut(3),
            Step::Lose(0),
            Step::IsOver(false),
            Step::Answer(0),
            Step::Answer(2),
            Step::Answer(3),
            Step::IsOver(true),
            Step::IsHome(true),
        ],
        after: &WRITTEN,
        lost: &[0],
    },
    Course {
        name: "late buffers come home, 1 is lost",
        ask: FIRST,
        bytes: &[0; 4],
        in_sync: &[true; 4],
        steps: &[
            Step::Drive(1, 1),
            Step::PutOut(3),
            Step::Lose(1),
            Step::IsOver(false),
            Step::Answer(0),
            Step::Answer(2),
            Step::Answer(3),
            Step::IsOver(true),
            Step::IsHome(true),
        ],
        after: &WRITTEN,
        lost: &[1],
    },
    Course {
        name: "late buffers come home, 2 is lost",
        ask: FIRST,
        bytes: &[0; 4],
        in_sync: &[true; 4],
        steps: &[
            Step::Drive(1, 1),
            Step::PutOut(3),
            Step::Lose(2),
            Step::IsOver(false),
            Step::Answer(0),
            Step::Answer(2),
            Step::Answer(3),
            Step::IsOver(true),
            Step::IsHome(true),
        ],
        after: &WRITTEN,
        lost: &[2],
    },
    Course {
        name: "late buffers come home, 3 is lost",
        ask: FIRST,
        bytes: &[0; 4],
        in_sync: &[true; 4],
        steps: &[
            Step::Drive(1, 1),
            Step::PutOut(3),
            Step::Lose(3),
            Step::IsOver(false),
            Step::Answer(0),
            Step::Answer(2),
            Step::Answer(3),
            Step::IsOver(true),
            Step::IsHome(true),
        ],
        after: &WRITTEN,
        lost: &[3],
    },
];

/// Holds have to take these courses.
fn have_to_go<R: Abort>(rt: &R, alloc: Global, courses: &[Course<'_>]) -> Result<(), Fail> {
    for course in courses {
        let steps = played(alloc, course)?;
        must(rt, steps == course.end(), course.name, 0, steps);
    }
    Ok(())
}

#[test]
fn holds_take_their_courses(rt: HostRuntime) -> Result<(), Fail> {
    have_to_go(&rt, rt.alloc(), COURSES)?;
    have_to_go(&rt, rt.alloc(), batches::COURSES)?;
    have_to_go(&rt, rt.alloc(), checks::COURSES)?;
    have_to_go(&rt, rt.alloc(), read_errors::COURSES)?;
    have_to_go(&rt, rt.alloc(), rebuilds::COURSES)?;
    have_to_go(&rt, rt.alloc(), second_devices::COURSES)
}

/// The task of a hold that is over; its frame is given back.
fn end(bench: Bench) -> Option<RowTask> {
    let Bench { mut hold, row, out } = bench;
    drop(row);
    drop(out);
    let task = hold.take_task();
    if !hold.is_home() {
        return None;
    }
    drop(hold.end());
    task
}

/// Whether the last block of a batch is this one, which is taken.
fn is_taken(batch: &mut Batch, index: usize, byte: u8) -> bool {
    let is_there = index < 30 && batch.has(index);
    match batch.take() {
        Some((at, block)) => is_there && at == index && block.len() == 16 && is_grown(&block, byte),
        None => false,
    }
}

/// Whether a batch has these blocks and no other, the last one first.
fn hands_back(batch: &mut Batch, blocks: &[(usize, u8)]) -> bool {
    if batch.len() != blocks.len() || batch.has(2) {
        return false;
    }
    for (index, byte) in blocks.iter().rev() {
        if !is_taken(batch, *index, *byte) {
            return false;
        }
    }
    batch.is_empty() && batch.take().is_none()
}

/// Whether a write of these blocks, which puts out four commands, hands them back.
fn come_back(alloc: Global, blocks: &[(usize, u8)]) -> Result<bool, Fail> {
    let bytes = &[0x77, 0x13, 0x05, 0x99];
    let mut bench = Bench::new(alloc, &Ask::Write(blocks), bytes, &[true; 4])?;
    let commands = bench.drive(9);
    match end(bench) {
        Some(RowTask::Write(mut batch)) => Ok(commands == 4 && hands_back(&mut batch, blocks)),
        _ => Ok(false),
    }
}

#[test]
fn blocks_come_back(rt: HostRuntime) -> Result<(), Fail> {
    let written: &[&[(usize, u8)]] = &[&[(0, 0x5a)], &[(1, 0x80), (0, 0x01)]];
    for (row, blocks) in written.iter().enumerate() {
        let is_so = come_back(rt.alloc(), *blocks)?;
        must(&rt, is_so, "blocks that come back", row, 0);
    }
    Ok(())
}

// Data 01 and 80 have P 81 and Q 1c. Both data blocks are out, and the first is read.
#[test]
fn a_hold_is_driven_to_its_end(rt: HostRuntime) -> Result<(), Fail> {
    let (bytes, in_sync) = ([0xee, 0xee, 0x81, 0x1c], [false, false, true, true]);
    let mut bench = Bench::new(rt.alloc(), &Ask::Read(0), &bytes, &in_sync)?;
    let is_so = drive(&mut bench.hold, &mut bench.row) && bench.has_block(0, 0x01);
    drop(bench);
    must(&rt, is_so, "a hold that is driven", 0, 0);
    Ok(())
}

//! Rows of one chunk, which a check reads from each slot at once where the devices can.

ghost use Rattle.std.specs.Prelude.{◌≡◌, ◌*◌, ◌<◌, length, IfOk};

use crate::blocks::grown;
use crate::must::must;
use r6_dev::{BlockDevice, Fault, MemoryDevice};
use r6_kernels::Buffer;
use r6_layout::{Geometry, GeometryError};
use r6_offline::{ClassCounts, Report, RowFault, Unwatched, WrongRow, check_all, verify};
use r6_recover::RowClass;
use std::alloc::Global;
use std::sync::Wait;
use std::test::Fail;
use std::thread::Threads;

const SLOTS: usize = 4;

/// An array of four slots, of zeros but for some blocks, and what a check has to report of it: how many rows are
/// consistent, and how many have a wrong block of data; the first wrong row, with the index of the block; the fault. And
/// how often it reads of slot 0 rows at once, and single rows.
#[derive(Clone, Copy)]
struct Case<'a> {
    name: &'a str,
    chunk: u64,
    block: usize,
    rows: u64,
    shards: usize,
    /// The rows and slots of the blocks that aren't zeros.
    wrong: &'a [(u64, usize)],
    /// The row and the slot that can't be read.
    worn: Option<(u64, usize)>,
    lost: Option<usize>,
    counts: (u64, u64),
    first: Option<(u64, usize)>,
    fault: Option<(u64, usize)>,
    reads: (u64, u64),
}

/// Two chunks of eight rows.
const ZEROS: Case<'static> = Case {
    name: "chunks are read at once",
    chunk: 8,
    block: 16,
    rows: 16,
    shards: 1,
    wrong: &[],
    worn: None,
    lost: None,
    counts: (16, 0),
    first: None,
    fault: None,
    reads: (2, 0),
};

// The first chunk of each slot but 0 and 3 is of data, the second one of 0 and 1.
const CASES: &[Case<'static>] = &[
    ZEROS,
    Case {
        name: "a wrong block in the middle of a stretch",
        wrong: &[(11, 0)],
        counts: (15, 1),
        first: Some((11, 0)),
        reads: (2, 8),
        ..ZEROS
    },
    Case {
        name: "wrong blocks at the ends of a stretch",
        wrong: &[(0, 1), (7, 2)],
        counts: (14, 2),
        first: Some((0, 0)),
        reads: (2, 8),
        ..ZEROS
    },
    Case {
        name: "wrong blocks in two chunks",
        wrong: &[(7, 2), (8, 1)],
        counts: (14, 2),
        first: Some((7, 1)),
        reads: (2, 16),
        ..ZEROS
    },
    Case {
        name: "a fault in the middle of a stretch",
        worn: Some((11, 2)),
        counts: (11, 0),
        fault: Some((11, 2)),
        reads: (2, 4),
        ..ZEROS
    },
    Case {
        name: "a fault after a wrong block of its stretch",
        wrong: &[(9, 0)],
        worn: Some((11, 1)),
        counts: (10, 1),
        first: Some((9, 0)),
        fault: Some((11, 1)),
        reads: (2, 4),
        ..ZEROS
    },
    Case {
        name: "a fault before a wrong block of its stretch",
        wrong: &[(13, 0)],
        worn: Some((11, 1)),
        counts: (11, 0),
        fault: Some((11, 1)),
        reads: (2, 4),
        ..ZEROS
    },
    Case {
        name: "a fault before a wrong block of its row",
        wrong: &[(11, 1)],
        worn: Some((11, 0)),
        counts: (11, 0),
        fault: Some((11, 0)),
        reads: (2, 4),
        ..ZEROS
    },
    // Slot 0 has Q of the first chunk, so that slot 3 was told to read it before.
    Case {
        name: "a fault in the first of two shards",
        shards: 2,
        wrong: &[(9, 0)],
        worn: Some((6, 3)),
        counts: (6, 0),
        fault: Some((6, 3)),
        reads: (1, 15),
        ..ZEROS
    },
    Case {
        name: "nothing is read of a lost slot's rows",
        lost: Some(3),
        counts: (0, 0),
        reads: (0, 0),
        ..ZEROS
    },
    Case {
        name: "chunks of one block",
        chunk: 1,
        wrong: &[(4, 1)],
        counts: (15, 1),
        first: Some((4, 0)),
        reads: (0, 16),
        ..ZEROS
    },
    // Of each slot 128 KiB are read at once at the most: 33 blocks are two stretches of 16 blocks, and one more.
    Case {
        name: "a last row that is in no stretch",
        chunk: 33,
        block: 4096,
        rows: 33,
        counts: (33, 0),
        reads: (2, 1),
        ..ZEROS
    },
    Case {
        name: "a last row that is in no stretch and wrong",
        chunk: 33,
        block: 4096,
        rows: 33,
        wrong: &[(32, 2)],
        counts: (32, 1),
        first: Some((32, 1)),
        reads: (2, 1),
        ..ZEROS
    },
    Case {
        name: "a last row that is in no stretch and fails",
        chunk: 33,
        block: 4096,
        rows: 33,
        wrong: &[(31, 1)],
        worn: Some((32, 3)),
        counts: (31, 1),
        first: Some((31, 0)),
        fault: Some((32, 3)),
        reads: (2, 17),
        ..ZEROS
    },
];

/// A device of zeros, or of what was written, of which a row can't be read or written. It counts the reads of rows at once, and
/// those of single rows.
#[derive(Drop)]
pub(crate) struct Worn {
    pub(crate) device: MemoryDevice,
    pub(crate) worn: Option<u64>,
    pub(crate) at_once: u64,
    pub(crate) alone: u64,
}

impl BlockDevice for Worn {
    ghost use Rattle.std.specs.Prelude.{None};
    ghost use Rattle.r6_dev.specs.Promises.{no_promise};

    ghost told = { λ _. None };

    ghost promised = { λ _. no_promise };

    fn read(&mut self, row: u64, buffer: &mut Buffer) -> Result<(), Fault> {
        self.alone = self.alone.wrapping_add(1);
        if self.worn == Some(row) {
            return Err(Fault::ReadFault);
        }
        self.device.read(row, buffer)
    }

    fn read_rows(&mut self, row: u64, count: usize, bytes: &mut [u8]) -> bool {
        self.at_once = self.at_once.wrapping_add(1);
        let end = row.saturating_add(count as u64);
        if self.worn.is_some_and(|worn| row <= worn && worn < end) {
            return false;
        }
        self.device.read_rows(row, count, bytes)
    }

    fn write(&mut self, row: u64, buffer: &Buffer) -> Result<(), Fault> {
        if self.worn == Some(row) {
            return Err(Fault::WriteFault);
        }
        self.device.write(row, buffer)
    }
}

fn shape(case: &Case<'_>) -> Result<Geometry, GeometryError> {
    Geometry::new(SLOTS, case.chunk, case.block, case.rows, case.shards)
}

/// The part of a shard and a slot.
fn part(
    alloc: Global,
    geometry: &Geometry,
    case: &Case<'_>,
    shard: usize,
    slot: usize,
) -> Result<Worn, Fail>
    requires { shard < geometry.now.shards }
{
    let rows = geometry.shard_rows(shard);
    let mut device = MemoryDevice::new(alloc, rows.start..rows.end, geometry.block())?;
    for (row, of) in case.wrong {
        if *of == slot && rows.start <= *row && *row < rows.end {
            device.write(*row, &grown(alloc, geometry.block(), 1)?)?;
        }
    }
    let worn = match case.worn {
        Some((row, of)) if of == slot => Some(row),
        _ => None,
    };
    Ok(Worn {
        device,
        worn,
        at_once: 0,
        alone: 0,
    })
}

/// All parts, by shard and slot.
fn parts_of(alloc: Global, geometry: &Geometry, case: &Case<'_>) -> Result<Vec<Option<Worn>>, Fail>
    ensures { IfOk result (λ parts. length parts.items ≡ geometry.now.shards * geometry.now.slots) }
{
    let count = geometry.shards() * geometry.slots();
    let mut parts = Vec::new(alloc);
    for number in 0..count {
        let (shard, slot) = (number / geometry.slots(), number % geometry.slots());
        let part = if case.lost == Some(slot) {
            None
        } else {
            Some(part(alloc, geometry, case, shard, slot)?)
        };
        parts.push(part)?;
    }
    Ok(parts)
}

fn wanted(case: &Case<'_>) -> Report {
    let skipped = if case.lost.is_some() { case.rows } else { 0 };
    Report {
        counts: ClassCounts {
            consistent: case.counts.0,
            wrong_p: 0,
            wrong_q: 0,
            wrong_data: case.counts.1,
            many: 0,
            skipped,
        },
        first_wrong: match case.first {
            Some((row, index)) => Some(WrongRow {
                row,
                class: RowClass::WrongData(index),
            }),
            None => None,
        },
        fault: match case.fault {
            Some((row, slot)) => Some(RowFault {
                row,
                slot,
                fault: Fault::ReadFault,
            }),
            None => None,
        },
    }
}

/// How often rows of slot 0 were read at once, and single ones.
pub(crate) fn reads(geometry: &Geometry, parts: &[Option<Worn>]) -> (u64, u64) {
    let (mut at_once, mut alone) = (0u64, 0u64);
    for (number, part) in parts.iter().enumerate() {
        if number % geometry.slots() == 0 {
            if let Some(part) = part {
                at_once = at_once.wrapping_add(part.at_once);
                alone = alone.wrapping_add(part.alone);
            }
        }
    }
    (at_once, alone)
}

/// What a check reports, and what it reads of slot 0.
fn checked<R: Threads + Wait + Sync>(
    rt: &R,
    alloc: Global,
    case: &Case<'_>,
) -> Result<(Report, (u64, u64)), Fail> {
    let geometry = shape(case)?;
    let mut parts = parts_of(alloc, &geometry, case)?;
    let report = check_all(rt, alloc, &geometry, parts.as_mut_slice())?;
    Ok((report, reads(&geometry, parts.as_slice())))
}

/// What one thread reports that reads all rows one by one.
fn verified<R: Threads + Sync>(rt: &R, alloc: Global, case: &Case<'_>) -> Result<Report, Fail> {
    let geometry = shape(case)?;
    let mut parts = parts_of(alloc, &geometry, case)?;
    Ok(verify(rt, alloc, &geometry, parts.as_mut_slice(), &mut Unwatched)?)
}

#[test]
fn rows_read_at_once_are_reported_as_if_they_were_read_one_by_one(
    rt: HostRuntime,
) -> Result<(), Fail> {
    for (index, case) in CASES.iter().enumerate() {
        let (report, reads) = checked(&rt, rt.alloc(), case)?;
        let is_so = report == wanted(case) && verified(&rt, rt.alloc(), case)? == report;
        must(&rt, is_so, case.name, index, 0);
        let (at_once, alone) = reads;
        must(
            &rt,
            reads == case.reads,
            case.name,
            at_once as usize,
            alone as usize,
        );
    }
    Ok(())
}

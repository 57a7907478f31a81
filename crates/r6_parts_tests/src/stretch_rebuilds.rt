//! A lost slot, rebuilt where the rows of a chunk are read from each other slot at once.

ghost use Rattle.std.specs.Prelude.{◌≡◌, ◌*◌, ◌<◌, length, IfOk};

use crate::blocks::{grown, is_grown};
use crate::must::must;
use crate::stretches::{Worn, reads};
use r6_dev::{BlockDevice, Fault, MemoryDevice};
use r6_kernels::Buffer;
use r6_layout::{Geometry, GeometryError};
use r6_offline::{Rebuilt, RowFault, is_absent, rebuild_all};
use std::alloc::Global;
use std::ops::Range;
use std::test::Fail;

const SLOTS: usize = 4;

/// Slot 1 of an array of four slots, each row of which has other blocks, rebuilt onto new parts: how many rows are
/// rebuilt, and the slot whose part fails then; and how often slot 0 is read, of rows at once and of single ones.
#[derive(Clone, Copy)]
struct Case<'a> {
    name: &'a str,
    chunk: u64,
    block: usize,
    rows: u64,
    shards: usize,
    /// The slots that are lost.
    lost: &'a [usize],
    /// The row and the slot that can't be read or written.
    worn: Option<(u64, usize)>,
    rebuilt: u64,
    fault: Option<(usize, Fault)>,
    reads: (u64, u64),
}

/// Four chunks of eight rows, in which slot 1 has the data blocks 0 and 1, P and Q.
const WHOLE: Case<'static> = Case {
    name: "chunks are read at once",
    chunk: 8,
    block: 16,
    rows: 32,
    shards: 1,
    lost: &[1],
    worn: None,
    rebuilt: 32,
    fault: None,
    reads: (4, 0),
};

// In the second chunk slots 0 to 3 have the data blocks 0 and 1, P and Q, in which order they are read.
const CASES: &[Case<'static>] = &[
    WHOLE,
    Case {
        name: "chunks of four shards",
        shards: 4,
        ..WHOLE
    },
    Case {
        name: "slot 2 is lost too",
        lost: &[1, 2],
        ..WHOLE
    },
    Case {
        name: "slot 3 is lost too",
        shards: 2,
        lost: &[3, 1],
        ..WHOLE
    },
    Case {
        name: "three slots are lost",
        lost: &[1, 2, 3],
        rebuilt: 0,
        fault: Some((1, Fault::Gone)),
        reads: (1, 1),
        ..WHOLE
    },
    Case {
        name: "another slot fails in the middle of a stretch",
        worn: Some((11, 2)),
        rebuilt: 11,
        fault: Some((2, Fault::ReadFault)),
        reads: (2, 4),
        ..WHOLE
    },
    Case {
        name: "another slot fails at the end of a stretch",
        shards: 2,
        worn: Some((15, 3)),
        rebuilt: 15,
        fault: Some((3, Fault::ReadFault)),
        reads: (2, 8),
        ..WHOLE
    },
    Case {
        name: "the target fails at the beginning of a stretch",
        worn: Some((16, 1)),
        rebuilt: 16,
        fault: Some((1, Fault::WriteFault)),
        reads: (3, 0),
        ..WHOLE
    },
    Case {
        name: "the target fails in the middle of a stretch",
        worn: Some((11, 1)),
        rebuilt: 11,
        fault: Some((1, Fault::WriteFault)),
        reads: (2, 0),
        ..WHOLE
    },
    Case {
        name: "chunks of one block",
        chunk: 1,
        reads: (0, 32),
        ..WHOLE
    },
    // Of each slot 128 KiB are read at once at the most: 33 blocks are two stretches of 16 blocks, and one more.
    Case {
        name: "last rows that are in no stretch",
        chunk: 33,
        block: 4096,
        rows: 66,
        rebuilt: 66,
        reads: (4, 2),
        ..WHOLE
    },
];

/// The first byte of a row's block: in rows of an even number the data block 1 is of zeros, so that P and Q are the data
/// block 0; in the others block 0 is, so that P is block 1, and Q is x times that.
fn byte_at(row: u64, position: usize) -> u8 {
    let byte = (row % 100 + 1) as u8;
    match (row % 2, position) {
        (0, 1) => 0,
        (1, 0) => 0,
        (1, 3) => byte.wrapping_mul(2),
        _ => byte,
    }
}

fn shape(case: &Case<'_>) -> Result<Geometry, GeometryError> {
    Geometry::new(SLOTS, case.chunk, case.block, case.rows, case.shards)
}

/// Writes the blocks of a slot that stand in these rows.
fn fill(
    alloc: Global,
    geometry: &Geometry,
    device: &mut MemoryDevice,
    rows: &Range<u64>,
    slot: usize,
) -> Result<(), Fail> {
    if slot >= geometry.slots() {
        return Ok(());
    }
    for row in 0..geometry.rows() {
        if rows.start <= row && row < rows.end {
            let byte = byte_at(row, geometry.position_at(row, slot));
            device.write(row, &grown(alloc, geometry.block(), byte)?)?;
        }
    }
    Ok(())
}

/// A new part of a shard and a slot, of zeros.
fn part(
    alloc: Global,
    geometry: &Geometry,
    case: &Case<'_>,
    shard: usize,
    slot: usize,
) -> Result<Worn, Fail>
    requires { shard < geometry.now.shards }
{
    let rows = geometry.shard_rows(shard);
    let worn = match case.worn {
        Some((row, of)) if of == slot => Some(row),
        _ => None,
    };
    Ok(Worn {
        device: MemoryDevice::new(alloc, rows.start..rows.end, geometry.block())?,
        worn,
        at_once: 0,
        alone: 0,
    })
}

/// All parts, by shard and slot.
fn parts_of(alloc: Global, geometry: &Geometry, case: &Case<'_>) -> Result<Vec<Option<Worn>>, Fail>
    ensures { IfOk result (λ parts. length parts.items ≡ geometry.now.shards * geometry.now.slots) }
{
    let count = geometry.shards() * geometry.slots();
    let mut parts = Vec::new(alloc);
    for number in 0..count {
        let (shard, slot) = (number / geometry.slots(), number % geometry.slots());
        let part = if case.lost.contains(&slot) {
            None
        } else {
            let mut part = part(alloc, geometry, case, shard, slot)?;
            fill(
                alloc,
                geometry,
                &mut part.device,
                &geometry.shard_rows(shard),
                slot,
            )?;
            Some(part)
        };
        parts.push(part)?;
    }
    Ok(parts)
}

/// New parts for slot 1.
fn targets(alloc: Global, geometry: &Geometry, case: &Case<'_>) -> Result<Vec<Worn>, Fail>
    ensures { IfOk result (λ targets. length targets.items ≡ geometry.now.shards) }
{
    let mut targets = Vec::new(alloc);
    for shard in 0..geometry.shards() {
        targets.push(part(alloc, geometry, case, shard, 1)?)?;
    }
    Ok(targets)
}

/// Whether slot 1 has its blocks in the rows before this one, and zeros from it on. A failed part's device is looked at
/// behind its plan.
fn has_rows_before(
    geometry: &Geometry,
    targets: &mut [Worn],
    end: u64,
    block: &mut Buffer,
) -> bool {
    if geometry.slots() < 2 {
        return false;
    }
    for row in 0..geometry.rows() {
        let Some(part) = targets.get_mut(geometry.shard_of(row)) else {
            return false;
        };
        let byte = if row < end {
            byte_at(row, geometry.position_at(row, 1))
        } else {
            0
        };
        if part.device.read(row, block) != Ok(()) || !is_grown(block, byte) {
            return false;
        }
    }
    true
}

fn wanted(case: &Case<'_>) -> Rebuilt {
    let row = case.rebuilt;
    Rebuilt {
        rows: row,
        fault: match case.fault {
            Some((slot, fault)) => Some(RowFault { row, slot, fault }),
            None => None,
        },
    }
}

/// Rebuilds slot 1 of these parts, which has none.
fn rebuilt(
    alloc: Global,
    geometry: &Geometry,
    parts: &mut [Option<Worn>],
    targets: &mut [Worn],
) -> Result<Rebuilt, Fail>
    requires parts { length parts.old ≡ geometry.now.shards * geometry.now.slots }
    requires targets { length targets.old ≡ geometry.now.shards }
{
    if geometry.slots() < 2 || !is_absent(geometry, parts, 1) {
        return Err("a part of slot 1 is there".into());
    }
    Ok(rebuild_all(alloc, geometry, parts, 1, targets)?)
}

/// Whether a rebuild ends so, and how it reads slot 0.
fn ends_so(alloc: Global, case: &Case<'_>) -> Result<(bool, (u64, u64)), Fail> {
    let geometry = shape(case)?;
    let mut block = Buffer::new(alloc, geometry.block())?;
    let mut parts = parts_of(alloc, &geometry, case)?;
    let mut targets = targets(alloc, &geometry, case)?;
    let done = rebuilt(
        alloc,
        &geometry,
        parts.as_mut_slice(),
        targets.as_mut_slice(),
    )?;
    let is_so = done == wanted(case)
        && has_rows_before(&geometry, targets.as_mut_slice(), case.rebuilt, &mut block);
    Ok((is_so, reads(&geometry, parts.as_slice())))
}

#[test]
fn rows_read_at_once_are_rebuilt_as_if_they_were_read_one_by_one(
    rt: HostRuntime,
) -> Result<(), Fail> {
    for (index, case) in CASES.iter().enumerate() {
        let (is_so, reads) = ends_so(rt.alloc(), case)?;
        must(&rt, is_so, case.name, index, 0);
        let (at_once, alone) = reads;
        must(
            &rt,
            reads == case.reads,
            case.name,
            at_once as usize,
            alone as usize,
        );
    }
    Ok(())
}

//! A lost slot, rebuilt.

ghost use Rattle.std.specs.Prelude.{◌≡◌, ◌*◌, length, IfOk};

use crate::array::{Array, BLOCK, Broken, Filled, Part, ROWS, SLOTS};
use crate::blocks::is_grown;
use crate::must::must;
use r6_dev::{BlockDevice, Fault};
use r6_kernels::Buffer;
use r6_layout::Geometry;
use r6_offline::{Rebuilt, RowFault, is_absent, rebuild_all};
use std::alloc::Global;
use std::test::Fail;

/// New parts for a slot, of this array.
fn targets(
    alloc: Global,
    array: &Array<'_>,
    geometry: &Geometry,
    slot: usize,
) -> Result<Vec<Part>, Fail>
    ensures { IfOk result (λ targets. length targets.items ≡ geometry.now.shards) }
{
    let mut targets = Vec::new(alloc);
    for shard in 0..geometry.shards() {
        targets.push(array.part(alloc, geometry, shard, slot)?)?;
    }
    Ok(targets)
}

/// Slot 1 of an array of each of these numbers of shards, rebuilt onto new parts, which fail where the array's do: how
/// many rows are rebuilt, and the fault. Slot 1 has 5a in the rows before `end` then, and zeros from it on.
#[derive(Clone, Copy)]
struct Case<'a> {
    name: &'a str,
    shards: &'a [usize],
    filled: &'a [Filled],
    lost: &'a [usize],
    broken: &'a [Broken],
    rows: u64,
    fault: Option<(usize, Fault)>,
    end: u64,
}

/// Whether a row of a part begins with this byte.
fn has_row(part: &mut Part, row: u64, block: &mut Buffer, byte: u8) -> bool {
    part.device.read(row, block) == Ok(()) && is_grown(block, byte)
}

/// Whether slot 1 has 5a in the rows before this one, and zeros from it on. A failed part's device is looked at behind
/// its plan.
fn has_rows_before(
    geometry: &Geometry,
    targets: &mut [Part],
    end: u64,
    block: &mut Buffer,
) -> bool {
    for row in 0..ROWS.min(geometry.rows()) {
        let Some(part) = targets.get_mut(geometry.shard_of(row)) else {
            return false;
        };
        let byte = if row < end { 0x5a } else { 0 };
        if !has_row(part, row, block, byte) {
            return false;
        }
    }
    true
}

/// Rebuilds slot 1 of these parts, which has none.
fn rebuilt(
    alloc: Global,
    geometry: &Geometry,
    parts: &mut [Option<Part>],
    targets: &mut [Part],
) -> Result<Rebuilt, Fail>
    requires parts { length parts.old ≡ geometry.now.shards * geometry.now.slots }
    requires targets { length targets.old ≡ geometry.now.shards }
{
    if geometry.slots() < 2 || !is_absent(geometry, parts, 1) {
        return Err("a part of slot 1 is there".into());
    }
    Ok(rebuild_all(alloc, geometry, parts, 1, targets)?)
}

/// Whether a rebuild of this array ends so.
fn ends_so(alloc: Global, array: &Array<'_>, case: &Case<'_>) -> Result<bool, Fail> {
    let geometry = array.geometry()?;
    let mut block = Buffer::new(alloc, BLOCK)?;
    let mut parts = array.parts(alloc, &geometry)?;
    let mut targets = targets(alloc, array, &geometry, 1)?;
    let done = rebuilt(
        alloc,
        &geometry,
        parts.as_mut_slice(),
        targets.as_mut_slice(),
    )?;
    Ok(
        done == wanted(case)
            && has_rows_before(&geometry, targets.as_mut_slice(), case.end, &mut block),
    )
}

fn wanted(case: &Case<'_>) -> Rebuilt {
    let row = case.rows;
    Rebuilt {
        rows: row,
        fault: match case.fault {
            Some((slot, fault)) => Some(RowFault { row, slot, fault }),
            None => None,
        },
    }
}

/// The first number of shards with which a rebuild doesn't end so, or 0.
fn failed(alloc: Global, case: &Case<'_>) -> Result<usize, Fail> {
    for shards in case.shards {
        let array = Array {
            shards: *shards,
            filled: case.filled,
            lost: case.lost,
            broken: case.broken,
        };
        if !ends_so(alloc, &array, case)? {
            return Ok(*shards);
        }
    }
    Ok(0)
}

// Rows 0 to 3 have in slot 1 the data blocks 0 and 1, P and Q, each of 5a. The other block of data is zeros in rows 0
// and 1; where it is 5a, in rows 2 and 3, P and Q are 5a too, as it is block 0 there.
const BLOCKS_OF_5A: &[Filled] = &[
    (0, 3, 0x5a),
    (0, 0, 0x5a),
    (1, 2, 0x5a),
    (1, 3, 0xb4),
    (2, 3, 0x5a),
    (2, 2, 0x5a),
    (3, 2, 0x5a),
    (3, 0, 0x5a),
];

const CASES: &[Case<'static>] = &[
    Case {
        name: "each row gets its block",
        shards: &[1, 2, 3],
        filled: BLOCKS_OF_5A,
        lost: &[1],
        broken: &[],
        rows: ROWS,
        fault: None,
        end: ROWS,
    },
    Case {
        name: "each row gets its block beside slot 2",
        shards: &[1, 2, 3],
        filled: BLOCKS_OF_5A,
        lost: &[1, 2],
        broken: &[],
        rows: ROWS,
        fault: None,
        end: ROWS,
    },
    Case {
        name: "each row gets its block beside slot 3",
        shards: &[1, 2, 3],
        filled: BLOCKS_OF_5A,
        lost: &[1, 3],
        broken: &[],
        rows: ROWS,
        fault: None,
        end: ROWS,
    },
    // Four shards have a row each.
    Case {
        name: "rows stay where a target fails at 0",
        shards: &[1, 2, 4],
        filled: BLOCKS_OF_5A,
        lost: &[1],
        broken: &[Broken {
            slot: 1,
            row: 0,
            is_gone: true,
        }],
        rows: 0,
        fault: Some((1, Fault::Gone)),
        end: 0,
    },
    Case {
        name: "rows stay where a target fails at 1",
        shards: &[1, 2, 4],
        filled: BLOCKS_OF_5A,
        lost: &[1],
        broken: &[Broken {
            slot: 1,
            row: 1,
            is_gone: true,
        }],
        rows: 1,
        fault: Some((1, Fault::Gone)),
        end: 1,
    },
    Case {
        name: "rows stay where a target fails at 2",
        shards: &[1, 2, 4],
        filled: BLOCKS_OF_5A,
        lost: &[1],
        broken: &[Broken {
            slot: 1,
            row: 2,
            is_gone: true,
        }],
        rows: 2,
        fault: Some((1, Fault::Gone)),
        end: 2,
    },
    Case {
        name: "rows stay where a target fails at 3",
        shards: &[1, 2, 4],
        filled: BLOCKS_OF_5A,
        lost: &[1],
        broken: &[Broken {
            slot: 1,
            row: 3,
            is_gone: true,
        }],
        rows: 3,
        fault: Some((1, Fault::Gone)),
        end: 3,
    },
    Case {
        name: "a slot of zeros",
        shards: &[1, 2, 4],
        filled: &[],
        lost: &[1],
        broken: &[],
        rows: ROWS,
        fault: None,
        end: 0,
    },
    Case {
        name: "three slots are lost",
        shards: &[1],
        filled: &[],
        lost: &[0, 1, 2],
        broken: &[],
        rows: 0,
        fault: Some((1, Fault::Gone)),
        end: 0,
    },
];

#[test]
fn rows_are_rebuilt_up_to_the_first_fault(rt: HostRuntime) -> Result<(), Fail> {
    for case in CASES {
        let shards = failed(rt.alloc(), case)?;
        must(&rt, shards == 0, case.name, shards, 0);
    }
    Ok(())
}

#[test]
fn a_fault_at_any_command_ends_the_rebuild_at_its_row(rt: HostRuntime) -> Result<(), Fail> {
    for slot in 0..SLOTS {
        for row in 0..ROWS {
            for is_gone in &[false, true] {
                let fault = match (*is_gone, slot) {
                    (true, _) => Fault::Gone,
                    (false, 1) => Fault::WriteFault,
                    (false, _) => Fault::ReadFault,
                };
                let case = Case {
                    name: "a fault",
                    shards: &[2],
                    filled: &[],
                    lost: &[1],
                    broken: &[Broken {
                        slot,
                        row,
                        is_gone: *is_gone,
                    }],
                    rows: row,
                    fault: Some((slot, fault)),
                    end: 0,
                };
                let shards = failed(rt.alloc(), &case)?;
                must(&rt, shards == 0, "a fault at slot, row", slot, row as usize);
            }
        }
    }
    Ok(())
}

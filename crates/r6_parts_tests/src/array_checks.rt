//! Every row of an array, classified.

use crate::array::{Array, Broken, Filled, Part, ROWS, SLOTS};
use crate::must::must;
use r6_dev::Fault;
use r6_layout::Geometry;
use r6_offline::{ClassCounts, Report, RowFault, Unwatched, Watch, WrongRow, check_all, verify};
use r6_recover::RowClass;
use r6_verify::{verify_shards, verify_watched, with_shards};
use std::alloc::Global;
use std::sync::Wait;
use std::sync::atomic::{AtomicU64, Ordering};
use std::test::Fail;
use std::thread::Threads;

/// An array of each of these numbers of shards, and what each check has to report of it: rows that are consistent, with
/// a wrong P, Q or block of data, with more, and skipped; the first wrong row; the fault. Where numbers are told, the
/// part of each slot awaits the command of this number then.
#[derive(Clone, Copy)]
struct Case<'a> {
    name: &'a str,
    shards: &'a [usize],
    filled: &'a [Filled],
    lost: &'a [usize],
    broken: &'a [Broken],
    counts: [u64; 6],
    first: Option<(u64, RowClass)>,
    fault: Option<(u64, usize, Fault)>,
    next: &'a [u64],
}

const CASES: &[Case<'static>] = &[
    Case {
        name: "zeros",
        shards: &[1, 2, 3, 4],
        filled: &[],
        lost: &[],
        broken: &[],
        counts: [4, 0, 0, 0, 0, 0],
        first: None,
        fault: None,
        next: &[],
    },
    // Row 0 has Q in slot 0, its data in slots 1 and 2 and P in slot 3; each further row begins one slot to the left.
    Case {
        name: "block 0 of row 0 is wrong",
        shards: &[1, 2, 4],
        filled: &[(0, 1, 1)],
        lost: &[],
        broken: &[],
        counts: [3, 0, 0, 1, 0, 0],
        first: Some((0, RowClass::WrongData(0))),
        fault: None,
        next: &[],
    },
    Case {
        name: "block 1 of row 0 is wrong",
        shards: &[1, 2, 4],
        filled: &[(0, 2, 1)],
        lost: &[],
        broken: &[],
        counts: [3, 0, 0, 1, 0, 0],
        first: Some((0, RowClass::WrongData(1))),
        fault: None,
        next: &[],
    },
    Case {
        name: "P of row 1 is wrong",
        shards: &[1, 2, 4],
        filled: &[(1, 2, 1)],
        lost: &[],
        broken: &[],
        counts: [3, 1, 0, 0, 0, 0],
        first: Some((1, RowClass::WrongP)),
        fault: None,
        next: &[],
    },
    Case {
        name: "Q of row 2 is wrong",
        shards: &[1, 2, 4],
        filled: &[(2, 2, 1)],
        lost: &[],
        broken: &[],
        counts: [3, 0, 1, 0, 0, 0],
        first: Some((2, RowClass::WrongQ)),
        fault: None,
        next: &[],
    },
    Case {
        name: "block 1 of row 3 is wrong",
        shards: &[1, 2, 4],
        filled: &[(3, 3, 1)],
        lost: &[],
        broken: &[],
        counts: [3, 0, 0, 1, 0, 0],
        first: Some((3, RowClass::WrongData(1))),
        fault: None,
        next: &[],
    },
    // Both data blocks of row 1 are wrong, then P of row 2 and Q of row 3. Of row 1 P misses 03, Q 01 + 02 * 02 = 05.
    Case {
        name: "each row is counted by its class",
        shards: &[1, 3],
        filled: &[(1, 0, 1), (1, 1, 2), (2, 1, 7), (3, 1, 7)],
        lost: &[],
        broken: &[],
        counts: [1, 1, 1, 0, 1, 0],
        first: Some((1, RowClass::Many)),
        fault: None,
        next: &[],
    },
    Case {
        name: "slot 0 is lost",
        shards: &[2],
        filled: &[],
        lost: &[0],
        broken: &[],
        counts: [0, 0, 0, 0, 0, 4],
        first: None,
        fault: None,
        next: &[],
    },
    Case {
        name: "slot 2 is lost",
        shards: &[2],
        filled: &[],
        lost: &[2],
        broken: &[],
        counts: [0, 0, 0, 0, 0, 4],
        first: None,
        fault: None,
        next: &[],
    },
    Case {
        name: "slots 1 and 3 are lost",
        shards: &[2],
        filled: &[],
        lost: &[1, 3],
        broken: &[],
        counts: [0, 0, 0, 0, 0, 4],
        first: None,
        fault: None,
        next: &[],
    },
    // Shard 0 has rows 0 and 1. Behind its fault nothing of shard 1 is told: not a wrong block in row 3, nor another fault.
    Case {
        name: "another fault behind one of shard 0",
        shards: &[2],
        filled: &[(3, 0, 1)],
        lost: &[],
        broken: &[
            Broken {
                slot: 1,
                row: 1,
                is_gone: false,
            },
            Broken {
                slot: 0,
                row: 2,
                is_gone: false,
            },
        ],
        counts: [1, 0, 0, 0, 0, 0],
        first: None,
        fault: Some((1, 1, Fault::ReadFault)),
        next: &[],
    },
    Case {
        name: "a wrong block behind a fault of shard 0",
        shards: &[2],
        filled: &[(3, 0, 1)],
        lost: &[],
        broken: &[Broken {
            slot: 1,
            row: 1,
            is_gone: false,
        }],
        counts: [1, 0, 0, 0, 0, 0],
        first: None,
        fault: Some((1, 1, Fault::ReadFault)),
        next: &[],
    },
    // Of two that fail in one row the lower slot is named, and those behind it aren't told to read that row.
    Case {
        name: "slots 0 and 1 fail in row 2",
        shards: &[1],
        filled: &[],
        lost: &[],
        broken: &[
            Broken {
                slot: 1,
                row: 2,
                is_gone: false,
            },
            Broken {
                slot: 0,
                row: 2,
                is_gone: false,
            },
        ],
        counts: [2, 0, 0, 0, 0, 0],
        first: None,
        fault: Some((2, 0, Fault::ReadFault)),
        next: &[3, 2, 2, 2],
    },
    Case {
        name: "slots 0 and 3 fail in row 2",
        shards: &[1],
        filled: &[],
        lost: &[],
        broken: &[
            Broken {
                slot: 3,
                row: 2,
                is_gone: false,
            },
            Broken {
                slot: 0,
                row: 2,
                is_gone: false,
            },
        ],
        counts: [2, 0, 0, 0, 0, 0],
        first: None,
        fault: Some((2, 0, Fault::ReadFault)),
        next: &[3, 2, 2, 2],
    },
    Case {
        name: "slots 1 and 2 fail in row 2",
        shards: &[1],
        filled: &[],
        lost: &[],
        broken: &[
            Broken {
                slot: 2,
                row: 2,
                is_gone: false,
            },
            Broken {
                slot: 1,
                row: 2,
                is_gone: false,
            },
        ],
        counts: [2, 0, 0, 0, 0, 0],
        first: None,
        fault: Some((2, 1, Fault::ReadFault)),
        next: &[3, 3, 2, 2],
    },
    Case {
        name: "slots 2 and 3 fail in row 2",
        shards: &[1],
        filled: &[],
        lost: &[],
        broken: &[
            Broken {
                slot: 3,
                row: 2,
                is_gone: false,
            },
            Broken {
                slot: 2,
                row: 2,
                is_gone: false,
            },
        ],
        counts: [2, 0, 0, 0, 0, 0],
        first: None,
        fault: Some((2, 2, Fault::ReadFault)),
        next: &[3, 3, 3, 2],
    },
];

fn wanted(case: &Case<'_>) -> Report {
    let [consistent, wrong_p, wrong_q, wrong_data, many, skipped] = case.counts;
    Report {
        counts: ClassCounts {
            consistent,
            wrong_p,
            wrong_q,
            wrong_data,
            many,
            skipped,
        },
        first_wrong: match case.first {
            Some((row, class)) => Some(WrongRow { row, class }),
            None => None,
        },
        fault: match case.fault {
            Some((row, slot, fault)) => Some(RowFault { row, slot, fault }),
            None => None,
        },
    }
}

/// Whether the parts that a table has numbers for await these commands.
fn await_commands(parts: &[Option<Part>], next: &[u64]) -> bool {
    for (slot, number) in next.iter().enumerate() {
        if slot >= parts.len() || !matches!(&parts[slot], Some(part) if part.next == *number) {
            return false;
        }
    }
    true
}

/// Whether a check of an array reports so.
fn is_checked<R: Threads + Wait + Sync>(
    rt: &R,
    alloc: Global,
    array: &Array<'_>,
    case: &Case<'_>,
) -> Result<bool, Fail> {
    let geometry = array.geometry()?;
    let mut parts = array.parts(alloc, &geometry)?;
    let report = check_all(rt, alloc, &geometry, parts.as_mut_slice())?;
    Ok(report == wanted(case) && await_commands(parts.as_slice(), case.next))
}

fn verified<R: Threads + Sync, W: Watch>(
    rt: &R,
    alloc: Global,
    array: &Array<'_>,
    watch: &mut W,
) -> Result<Report, Fail> {
    let geometry = array.geometry()?;
    let mut parts = array.parts(alloc, &geometry)?;
    Ok(verify(rt, alloc, &geometry, parts.as_mut_slice(), watch)?)
}

fn checked_by_all<R: Threads + Wait + Sync>(
    rt: &R,
    alloc: Global,
    array: &Array<'_>,
) -> Result<Report, Fail> {
    let geometry = array.geometry()?;
    let mut parts = array.parts(alloc, &geometry)?;
    Ok(verify_shards(rt, alloc, &geometry, parts.as_mut_slice())?)
}

/// The first number of shards with which a pass doesn't report so, or 0.
fn failed<R: Threads + Wait + Sync>(rt: &R, alloc: Global, case: &Case<'_>) -> Result<usize, Fail> {
    for shards in case.shards {
        let array = Array {
            shards: *shards,
            filled: case.filled,
            lost: case.lost,
            broken: case.broken,
        };
        if !is_checked(rt, alloc, &array, case)?
            || verified(rt, alloc, &array, &mut Unwatched)? != wanted(case)
            || checked_by_all(rt, alloc, &array)? != wanted(case)
        {
            return Ok(*shards);
        }
    }
    Ok(0)
}

#[test]
fn rows_are_reported_by_their_classes_up_to_the_first_fault(rt: HostRuntime) -> Result<(), Fail> {
    for case in CASES {
        let shards = failed(&rt, rt.alloc(), case)?;
        must(&rt, shards == 0, case.name, shards, 0);
    }
    Ok(())
}

// Each device is read once a row, so the command of a row is the one with its number within the shard.
#[test]
fn a_fault_at_any_command_ends_the_check_at_its_row(rt: HostRuntime) -> Result<(), Fail> {
    for (is_gone, fault) in &[(false, Fault::ReadFault), (true, Fault::Gone)] {
        for slot in 0..SLOTS {
            for row in 0..ROWS {
                let case = Case {
                    name: "a fault",
                    shards: &[2],
                    filled: &[],
                    lost: &[],
                    broken: &[Broken {
                        slot,
                        row,
                        is_gone: *is_gone,
                    }],
                    counts: [row, 0, 0, 0, 0, 0],
                    first: None,
                    fault: Some((row, slot, *fault)),
                    next: &[],
                };
                let shards = failed(&rt, rt.alloc(), &case)?;
                must(&rt, shards == 0, "a fault at slot, row", slot, row as usize);
            }
        }
    }
    Ok(())
}

/// Counts what it hears.
#[derive(Drop)]
struct Heard {
    passed: u64,
    ended: u64,
}

impl Watch for Heard {
    fn passed(&mut self, _rows: u64, _of: u64) {
        self.passed = self.passed.wrapping_add(1);
    }

    fn ended(&mut self) {
        self.ended = self.ended.wrapping_add(1);
    }
}

const ZEROS: Array<'static> = Array {
    shards: 1,
    filled: &[],
    lost: &[],
    broken: &[],
};

#[test]
fn a_watch_hears_of_a_pass_and_of_its_end(rt: HostRuntime) -> Result<(), Fail> {
    let mut heard = Heard {
        passed: 0,
        ended: 0,
    };
    verified(&rt, rt.alloc(), &ZEROS, &mut heard)?;
    must(&rt, heard.passed == 1 && heard.ended == 1, "a watch", 0, 0);
    Ok(())
}

/// Counts what threads tell it.
#[derive(Drop)]
struct Tally {
    passed: AtomicU64,
    ended: AtomicU64,
}

#[derive(Drop)]
struct Tallied<'a> {
    tally: &'a Tally,
}

impl Watch for Tallied<'_> {
    fn passed(&mut self, _rows: u64, _of: u64) {
        self.tally.passed.fetch_add(1, Ordering::SeqCst);
    }

    fn ended(&mut self) {
        self.tally.ended.fetch_add(1, Ordering::SeqCst);
    }
}

#[test]
fn a_watch_hears_of_all_threads_once_and_of_their_end(rt: HostRuntime) -> Result<(), Fail> {
    let tally = Tally {
        passed: AtomicU64::new(0),
        ended: AtomicU64::new(0),
    };
    let geometry = with_shards(&ZEROS.geometry()?, 3);
    let parts = ZEROS.parts(rt.alloc(), &geometry)?;
    let report = verify_watched(&rt, rt.alloc(), &geometry, parts, Tallied { tally: &tally })?;
    let passed = tally.passed.load(Ordering::SeqCst);
    let ended = tally.ended.load(Ordering::SeqCst);
    must(
        &rt,
        report.counts.consistent == ROWS && passed == 1 && ended == 1,
        "a watch of threads",
        passed as usize,
        ended as usize,
    );
    Ok(())
}

/// How many rows an array has, in chunks of two, how many shards it is to have, and how many it gets.
const SHARDS: &[(u64, usize, usize)] = &[
    (2, 0, 1),
    (2, 4, 1),
    (8, 3, 3),
    (8, 5, 4),
    (64, 16, 16),
    (64, 17, 16),
    (64, 0, 1),
];

#[test]
fn an_array_gets_the_nearest_number_of_shards_that_it_may_have(
    rt: HostRuntime,
) -> Result<(), Fail> {
    for (rows, wanted, given) in SHARDS {
        let geometry = Geometry::new(SLOTS, 2, 16, *rows, 1)?;
        let shared = with_shards(&geometry, *wanted);
        let is_so = shared.shards() == *given && shared.rows() == *rows;
        must(&rt, is_so, "shards", *wanted, shared.shards());
    }
    Ok(())
}

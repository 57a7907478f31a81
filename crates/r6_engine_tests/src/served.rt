//! Arrays that are served. Block 0 stands in slot 1, in row 0.

use crate::answers::Answer;
use crate::array::{Held, find};
use crate::blocks::{SLOTS, filled};
use crate::serve_bench::{Crowd, check_steps, play};
use crate::steps::{Ask, Step};
use r6_dev::MemoryDevice;
use r6_engine::Served;
use r6_health::{Answer as Told, Refusal, Snapshot};
use std::alloc::Global;
use std::process::Abort;
use std::sync::Wait;
use std::thread::Threads;

// How many shards the arrays have.
const SHARDS: &[usize] = &[1, 2, 4];

// How many io workers each shard has.
const WORKERS: &[usize] = &[1, 2, 8];

/// How an array ends.
#[derive(Clone, Copy)]
enum End {
    /// No slot is out.
    Whole,
    /// Slot 1 is lost, and the array hasn't failed.
    WithoutSlot1,
    Failed,
    /// No slot is out, no event had an answer, and there are four shards.
    Unasked,
}

/// Arrays with each of these numbers of shards are served: of zeros, but for byte 0 of slot 1 if they are spoiled.
struct Array<'a> {
    name: &'a str,
    shards: &'a [usize],
    is_spoiled: bool,
    steps: &'a [Step],
    end: End,
}

const WAIT: Step = (Ask::Wait, Answer::Nothing);

// Rows that are all consistent.
const CONSISTENT: Answer = Answer::Rows([4, 0, 0, 0, 0, 0, 0]);

const SLOT_1_LOST: Step = (Ask::Fail(1), Answer::Failed(Ok(Told::Degraded)));

const ARRAYS: &[Array<'static>] = &[
    Array {
        name: "a block is read after its slot is lost",
        shards: SHARDS,
        is_spoiled: false,
        steps: &[
            (Ask::Write(0, 0x5a), Answer::Done),
            WAIT,
            (Ask::Read(0), Answer::Data(0x5a)),
            WAIT,
            SLOT_1_LOST,
            WAIT,
            (Ask::Read(0), Answer::Data(0x5a)),
            WAIT,
            (Ask::Check, Answer::Rows([0, 0, 0, 0, 0, 4, 0])),
        ],
        end: End::WithoutSlot1,
    },
    Array {
        name: "a wrong block is found and repaired",
        shards: SHARDS,
        is_spoiled: true,
        steps: &[
            (Ask::Check, Answer::Rows([3, 0, 0, 1, 0, 0, 0])),
            (Ask::Repair, Answer::Rows([3, 0, 0, 1, 0, 0, 1])),
            (Ask::Check, CONSISTENT),
        ],
        end: End::Whole,
    },
    Array {
        name: "a third loss fails the array",
        shards: &[2],
        is_spoiled: false,
        steps: &[
            (Ask::Write(0, 0x5a), Answer::Done),
            (Ask::Read(8), Answer::Refused(1)),
            WAIT,
            (Ask::Fail(0), Answer::Failed(Ok(Told::Degraded))),
            SLOT_1_LOST,
            (Ask::Fail(2), Answer::Failed(Ok(Told::Failed))),
            (Ask::Read(0), Answer::ArrayFailed),
            (Ask::Write(4, 1), Answer::ArrayFailed),
            (Ask::Fail(3), Answer::Failed(Err(Refusal::ArrayFailed))),
            (Ask::Check, Answer::Rows([0, 0, 0, 0, 0, 4, 0])),
        ],
        end: End::Failed,
    },
    Array {
        name: "no event is served",
        shards: &[4],
        is_spoiled: false,
        steps: &[],
        end: End::Unasked,
    },
    // A second replacement is refused while the first one is under way.
    Array {
        name: "a wait waits for a replacement",
        shards: SHARDS,
        is_spoiled: false,
        steps: &[
            (Ask::Write(0, 0x5a), Answer::Done),
            (Ask::Replace(1, 0x22), Answer::Replaced(Ok(1))),
            WAIT,
            (Ask::Replace(2, 0x33), Answer::Replaced(Ok(2))),
            WAIT,
            (Ask::Read(0), Answer::Data(0x5a)),
        ],
        end: End::Whole,
    },
    // More than a list has room for.
    Array {
        name: "many requests are served",
        shards: &[2],
        is_spoiled: false,
        steps: &[(Ask::Read(5), Answer::Data(0)); 600],
        end: End::Whole,
    },
];

// Whether no slot is out.
fn is_whole(snapshot: &Snapshot) -> bool {
    (0..SLOTS).all(|slot| !snapshot.slot(slot).is_out())
}

fn has_ended(served: &Served<MemoryDevice>, end: End) -> bool {
    let snapshot = &served.snapshot;
    match end {
        End::Whole => is_whole(snapshot),
        End::WithoutSlot1 => snapshot.slot(1).is_lost() && !snapshot.failed(),
        End::Failed => snapshot.failed(),
        End::Unasked => {
            is_whole(snapshot) && served.replies.is_empty() && served.ledgers.len() == 4
        }
    }
}

fn check_array<R: Abort>(rt: &R, array: &Array<'_>, served: &Served<MemoryDevice>) {
    check_steps(rt, array.name, served, array.steps);
    assert!(rt; has_ended(served, array.end), "{}", array.name);
}

// An array is served by shards with one worker each, with two, and with eight.
fn play_with_all<R: Threads + Wait + Abort + Sync>(
    rt: &R,
    alloc: Global,
    array: &Array<'_>,
    shards: usize,
) {
    for workers in WORKERS {
        let crowd = Crowd {
            shards,
            workers: *workers,
        };
        let served = play(rt, alloc, crowd, array.is_spoiled, array.steps);
        check_array(rt, array, &served);
        drop(served);
    }
}

#[test]
fn arrays_are_served(rt: HostRuntime) {
    for array in ARRAYS {
        for shards in array.shards {
            play_with_all(&rt, rt.alloc(), array, *shards);
        }
    }
}

const REBUILT: &Array<'static> = &Array {
    name: "a new device is rebuilt",
    shards: SHARDS,
    is_spoiled: false,
    steps: &[
        (Ask::Write(0, 0x5a), Answer::Done),
        (Ask::Write(3, 0xa5), Answer::Done),
        (
            Ask::Attach(1, 0x11),
            Answer::Attached(Err(Refusal::NotLost)),
        ),
        SLOT_1_LOST,
        (Ask::Attach(1, 0x22), Answer::Attached(Ok(1))),
        (Ask::Write(4, 0x77), Answer::Done),
        (Ask::Write(7, 0x81), Answer::Done),
        WAIT,
        (Ask::Read(0), Answer::Data(0x5a)),
        (Ask::Read(3), Answer::Data(0xa5)),
        (Ask::Check, CONSISTENT),
    ],
    end: End::Whole,
};

// Slot 1 is in service throughout.
const REPLACED: &Array<'static> = &Array {
    name: "a device is replaced",
    shards: SHARDS,
    is_spoiled: false,
    steps: &[
        (Ask::Write(0, 0x5a), Answer::Done),
        (Ask::Write(3, 0xa5), Answer::Done),
        (
            Ask::Attach(1, 0x11),
            Answer::Attached(Err(Refusal::NotLost)),
        ),
        (Ask::Replace(1, 0x22), Answer::Replaced(Ok(1))),
        (Ask::Write(4, 0x77), Answer::Done),
        (Ask::Write(7, 0x81), Answer::Done),
        WAIT,
        (Ask::Read(0), Answer::Data(0x5a)),
        (Ask::Read(3), Answer::Data(0xa5)),
        (Ask::Check, CONSISTENT),
    ],
    end: End::Whole,
};

// By row and slot, of the layout: Q data data P, data data P Q, data P Q data, P Q data data.
const HELD: Held = Held {
    generations: [0, 1, 0, 0],
    rows: [
        [0x5a, 0x5a, 0x00, 0x5a],
        [0x00, 0xa5, 0xa5, 0x57],
        [0x00, 0x77, 0x77, 0x77],
        [0x81, 0x1f, 0x00, 0x81],
    ],
};

// All blocks stand where they are to stand, and the device came back that had 0x11 throughout.
fn check_rebuilt<R: Threads + Wait + Abort + Sync>(
    rt: &R,
    alloc: Global,
    array: &Array<'_>,
    shards: usize,
) {
    let mut room = filled(rt, alloc, 0);
    for workers in WORKERS {
        let crowd = Crowd {
            shards,
            workers: *workers,
        };
        let served = play(rt, alloc, crowd, false, array.steps);
        check_array(rt, array, &served);
        let found = find(served.devices, &mut room, &HELD, 0x11);
        assert!(rt;
            (found.right, found.back) == (16, 4),
            "{}, {shards} shards, {workers} workers",
            array.name
        );
    }
}

#[test]
fn a_new_device_is_rebuilt(rt: HostRuntime) {
    for shards in REBUILT.shards {
        check_rebuilt(&rt, rt.alloc(), REBUILT, *shards);
    }
}

#[test]
fn a_device_is_replaced(rt: HostRuntime) {
    for shards in REPLACED.shards {
        check_rebuilt(&rt, rt.alloc(), REPLACED, *shards);
    }
}

//! A worker stops, and answers from then on that its devices are gone. The array has one shard; block 0 stands in slot 1,
//! in row 0.

use crate::answers::Answer;
use crate::array::parts_of;
use crate::blocks::{SLOTS, geometry_of};
use crate::steps::{Ask, Step, events_of};
use r6_core::{Refusal, Reply};
use r6_dev::MemoryDevice;
use r6_engine::{Config, EventReply, Served, Stop, serve};
use r6_kernels::Buffer;
use std::alloc::Global;
use std::process::Abort;
use std::sync::Wait;
use std::thread::Threads;

// How many workers there are, after how many commands which of them stops, and which slots are lost at the end.
struct Case<'a> {
    workers: usize,
    worker: usize,
    commands: u64,
    lost: &'a [usize],
}

// A write of block 0 reads slot 2, and then writes slots 1, 3 and 0.
const STEPS: &[Step] = &[
    (Ask::Write(0, 0x5a), Answer::Done),
    (Ask::Wait, Answer::Nothing),
    (Ask::Read(0), Answer::Data(0x5a)),
];

const CASES: &[Case<'static>] = &[
    Case {
        workers: 2,
        worker: 0,
        commands: 0,
        lost: &[0, 2],
    },
    Case {
        workers: 2,
        worker: 1,
        commands: 1,
        lost: &[1, 3],
    },
    Case {
        workers: 4,
        worker: 2,
        commands: 0,
        lost: &[2],
    },
];

fn serve_with<R: Threads + Wait + Abort + Sync>(
    rt: &R,
    alloc: Global,
    workers: usize,
    stop: Stop,
) -> Served<MemoryDevice> {
    let geometry = geometry_of(rt, 1);
    assert!(rt; 1 <= workers && workers <= 8);
    let config = Config {
        geometry,
        window: 1,
        workers,
        lost: 0,
        stop: Some(stop),
    };
    let parts = parts_of(rt, alloc, &geometry, false);
    let events = events_of(rt, alloc, &geometry, STEPS);
    serve(rt, alloc, config, parts, events).expect(rt, "an array that is served")
}

fn is_filled(block: &Buffer) -> bool {
    block.as_slice().iter().all(|byte| *byte == 0x5a)
}

fn has_read(reply: Option<&EventReply>) -> bool {
    match reply {
        Some(EventReply::Replied(Reply::Data(block))) => is_filled(block),
        _ => false,
    }
}

fn check_case<R: Threads + Wait + Abort + Sync>(rt: &R, alloc: Global, case: &Case<'_>) {
    let stop = Stop {
        shard: 0,
        worker: case.worker,
        commands: case.commands,
    };
    let served = serve_with(rt, alloc, case.workers, stop);
    assert!(rt;
        matches!(
            served.replies.get(0),
            Some(EventReply::Replied(Reply::Done(_)))
        )
    );
    assert!(rt; has_read(served.replies.get(2)));
    assert!(rt; !served.snapshot.failed());
    for slot in 0..SLOTS {
        assert!(rt; served.snapshot.slot(slot).is_lost() == case.lost.contains(&slot));
    }
}

#[test]
fn the_slots_of_a_worker_that_stops_are_lost(rt: HostRuntime) {
    for case in CASES {
        check_case(&rt, rt.alloc(), case);
    }
}

#[test]
fn the_array_fails_where_its_only_worker_stops(rt: HostRuntime) {
    let stop = Stop {
        shard: 0,
        worker: 0,
        commands: 0,
    };
    let served = serve_with(&rt, rt.alloc(), 1, stop);
    assert!(rt;
        matches!(
            served.replies.get(0),
            Some(EventReply::Replied(Reply::ArrayFailed(_)))
        )
    );
    assert!(rt;
        matches!(
            served.replies.get(2),
            Some(EventReply::Refused(Refusal::ArrayFailed))
        )
    );
    assert!(rt; served.snapshot.failed());
}

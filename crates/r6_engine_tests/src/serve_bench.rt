//! An array of zeros is served, and what its events were answered.

use crate::answers::{Answer, answer_of, check};
use crate::array::parts_of;
use crate::blocks::geometry_of;
use crate::steps::{Step, events_of};
use r6_core::Refusal;
use r6_dev::MemoryDevice;
use r6_engine::{Config, EventReply, Found, Served, serve};
use std::alloc::Global;
use std::process::Abort;
use std::sync::Wait;
use std::thread::Threads;

/// How many threads serve an array.
#[derive(Clone, Copy)]
pub(crate) struct Crowd {
    pub(crate) shards: usize,
    /// Of each shard, 1 to 8.
    pub(crate) workers: usize,
}

/// An array is served by so many: of zeros, but for byte 0 of slot 1 if it is spoiled.
pub(crate) fn play<R: Threads + Wait + Abort + Sync>(
    rt: &R,
    alloc: Global,
    crowd: Crowd,
    is_spoiled: bool,
    steps: &[Step],
) -> Served<MemoryDevice> {
    let Crowd { shards, workers } = crowd;
    let geometry = geometry_of(rt, shards);
    assert!(rt; 1 <= workers && workers <= 8);
    let config = Config {
        geometry,
        window: 1,
        workers,
        lost: 0,
        stop: None,
    };
    let parts = parts_of(rt, alloc, &geometry, is_spoiled);
    let events = events_of(rt, alloc, &geometry, steps);
    serve(rt, alloc, config, parts, events).expect(rt, "an array that is served")
}

// The rows that were found, in the order of [`Answer::Rows`].
fn rows_of(found: &Found) -> [u64; 7] {
    [
        found.consistent,
        found.wrong_p,
        found.wrong_q,
        found.wrong_data,
        found.many,
        found.skipped,
        found.repaired,
    ]
}

// What an event was answered. A request may be refused or answered so where the array has failed.
fn answer_to<D>(served: &Served<D>, event: usize) -> Answer {
    match served.replies.get(event) {
        None | Some(EventReply::Waited) => Answer::Nothing,
        Some(EventReply::Replied(reply)) => answer_of(reply),
        Some(EventReply::Refused(Refusal::ArrayFailed)) => Answer::ArrayFailed,
        Some(EventReply::Refused(refusal)) => Answer::Refused(refusal.number()),
        Some(EventReply::Failed(answer)) => Answer::Failed(*answer),
        Some(EventReply::Attached(answer)) => Answer::Attached(*answer),
        Some(EventReply::Replaced(answer)) => Answer::Replaced(*answer),
        Some(EventReply::Counted(found)) => Answer::Rows(rows_of(found)),
    }
}

/// Asserts that an event was answered so.
pub(crate) fn check_answer<D, R: Abort>(
    rt: &R,
    name: &str,
    served: &Served<D>,
    event: usize,
    wanted: &Answer,
) {
    check(rt, name, event as u64, &answer_to(served, event), wanted);
}

/// Asserts that each event was answered as its step says.
pub(crate) fn check_steps<R: Abort>(
    rt: &R,
    name: &str,
    served: &Served<MemoryDevice>,
    steps: &[Step],
) {
    assert!(rt; served.replies.len() == steps.len(), "{name}");
    for (event, (_, wanted)) in steps.iter().enumerate() {
        check_answer(rt, name, served, event, wanted);
    }
}

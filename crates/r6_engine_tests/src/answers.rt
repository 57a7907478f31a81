//! What the events of a test are answered.

use r6_core::{Refusal, Reply};
use r6_health::{Answer as Told, Refusal as Declined};
use r6_kernels::Buffer;
use r6_shard::Entry;
use std::process::Abort;

/// What an event is answered.
#[derive(Clone, Copy, PartialEq)]
pub(crate) enum Answer {
    /// A read: a block with this byte throughout.
    Data(u8),
    /// A read: a block with several bytes.
    Mixed,
    Done,
    /// That the array has failed.
    ArrayFailed,
    /// Refused, by this number.
    Refused(u8),
    /// A loss, by the register.
    Failed(Result<Told, Declined>),
    /// A new device, by the register.
    Attached(Result<u32, Declined>),
    /// A new device in place of another, by the register.
    Replaced(Result<u32, Declined>),
    /// A check or repair: the rows that are consistent, have a wrong P, Q or block of data, or many, were skipped, and
    /// were repaired.
    Rows([u64; 7]),
    /// It was not.
    Nothing,
}

fn read_of(block: &Buffer) -> Answer {
    let bytes = block.as_slice();
    match bytes.first() {
        Some(byte) if bytes.iter().all(|other| *other == *byte) => Answer::Data(*byte),
        _ => Answer::Mixed,
    }
}

/// What a shard answered to a request that it had accepted.
pub(crate) fn answer_of(reply: &Reply) -> Answer {
    match reply {
        Reply::Data(block) => read_of(block),
        Reply::Done(_) => Answer::Done,
        Reply::ArrayFailed(_) => Answer::ArrayFailed,
    }
}

/// What a shard answered to an event, by its ledger and its refusals.
pub(crate) fn answer_in(entries: &[Entry], refused: &[(u64, Refusal)], event: u64) -> Answer {
    if let Some((_, refusal)) = refused.iter().find(|(refused, _)| *refused == event) {
        return Answer::Refused(refusal.number());
    }
    match entries.iter().find(|entry| entry.event == event) {
        Some(entry) => answer_of(&entry.reply),
        None => Answer::Nothing,
    }
}

/// Asserts that an event of the course of this name was answered so.
pub(crate) fn check<R: Abort>(rt: &R, name: &str, event: u64, found: &Answer, wanted: &Answer) {
    assert!(rt; found == wanted, "event {event} of {name}");
}

/// Asserts that a shard answered so to the events from 0 on, and to no others.
pub(crate) fn check_all<R: Abort>(
    rt: &R,
    name: &str,
    entries: &[Entry],
    refused: &[(u64, Refusal)],
    wanted: &[Answer],
) {
    let mut answered: usize = 0;
    for (event, answer) in wanted.iter().enumerate() {
        check(
            rt,
            name,
            event as u64,
            &answer_in(entries, refused, event as u64),
            answer,
        );
        if *answer != Answer::Nothing {
            answered = answered.wrapping_add(1);
        }
    }
    assert!(rt;
        entries.len().saturating_add(refused.len()) == answered,
        "{name}"
    );
}

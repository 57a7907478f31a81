//! What the events are answered that no shard answers.

use crate::lists::Bringing;
use r6_health::{Answer, Refusal};

/// What an event is answered that no shard answers.
#[derive(Clone, Copy)]
pub enum AnsweredHere {
    /// The request is for no block of the array.
    OutOfRange,
    /// The slot was to be lost: what the register answered.
    Failed(usize, Result<Answer, Refusal>),
    /// The slot was to get a new device: its generation, or why not.
    Brought(Bringing, usize, Result<u32, Refusal>),
}

/// What an event was answered.
#[derive(Clone, Copy)]
pub struct EventAnswer {
    /// The number of the event.
    pub event: u64,
    pub outcome: AnsweredHere,
}

//! What an event was answered.

ghost use Rattle.std.specs.Prelude.{◌≡◌};
ghost use Rattle.r6_engine.specs.Replies.{known_with, reply_of_answer};

use crate::feed::AnsweredHere;
use crate::found::Found;
use crate::lists::Bringing;
use r6_core::{Refusal, Reply};
use r6_health::{Answer, Refusal as RegisterRefusal};
use std::mem;

/// What an event was answered.
#[derive(Drop)]
pub enum EventReply {
    /// Nothing: it is a wait.
    Waited,
    /// The request was answered by the shard of its block.
    Replied(Reply),
    /// The request was refused.
    Refused(Refusal),
    /// The slot was to be lost: what the register answered.
    Failed(Result<Answer, RegisterRefusal>),
    /// The slot was to get a new device: its generation, or why not.
    Attached(Result<u32, RegisterRefusal>),
    /// The slot was to get a new device in place of its own: the generation of that one, or why not.
    Replaced(Result<u32, RegisterRefusal>),
    /// Every row was checked or repaired: what was found.
    Counted(Found),
}

impl EventReply {
    // That of an event which no shard answers.
    pub(crate) fn of_answer(outcome: AnsweredHere) -> EventReply
        ensures { result ≡ reply_of_answer outcome }
    {
        match outcome {
            AnsweredHere::OutOfRange => EventReply::Refused(Refusal::NoSuchBlock),
            AnsweredHere::Failed(_, answer) => EventReply::Failed(answer),
            AnsweredHere::Brought(Bringing::Attach, _, answer) => EventReply::Attached(answer),
            AnsweredHere::Brought(Bringing::Replace, _, answer) => EventReply::Replaced(answer),
        }
    }

    // What is known once this was said too.
    fn with(self, said: EventReply) -> EventReply
        ensures { result ≡ known_with self said }
    {
        match (self, said) {
            (EventReply::Waited, said) => said,
            (EventReply::Counted(one), EventReply::Counted(other)) => {
                EventReply::Counted(one.with(&other))
            }
            (known, _) => known,
        }
    }

    // This was said too.
    pub(crate) fn add(&mut self, said: EventReply)
        ensures { self.new ≡ known_with self.old said }
    {
        let known = mem::replace(self, EventReply::Waited);
        *self = known.with(said);
    }
}

//! What each event was answered, by its number.

ghost use Rattle.std.specs.Prelude.{◌≡◌, ◌++◌, ◌≤◌, [], length, map, replicate, vec_capacity, IfOk};
ghost use Rattle.r6_engine.specs.declared.reply.EventReply.TheVariants.{Waited};
ghost use Rattle.r6_engine.specs.Replies.{ledger_entries, said_of_answer, said_of_entry, said_of_scrub, said_of_refusal, with_all, with_one};

use crate::feed::EventAnswer;
use crate::found::Found;
use crate::ledger::LedgerEntry;
use crate::reply::EventReply;
use crate::runner::ScrubDone;
use r6_core::Refusal;
use r6_shard::Entry;
use std::alloc::{AllocError, Global};

/// What each event was answered, by its number. What is said of an event that isn't there is passed over.
#[derive(Drop)]
pub(crate) struct Replies {
    pub(crate) replies: Vec<EventReply>,
}

impl Replies {
    // Of so many events nothing was said. No other call takes memory.
    pub(crate) fn new(alloc: Global, events: usize) -> Result<Replies, AllocError>
        ensures { IfOk result (λ table. table.replies.items ≡ replicate events Waited) }
    {
        let mut replies = Vec::with_capacity(alloc, events)?;
        for _ in 0..events {
            replies.push_reserved(EventReply::Waited);
        }
        Ok(Replies { replies })
    }

    // This was said of an event.
    fn add(&mut self, event: u64, said: EventReply)
        ensures { self.new.replies.items ≡ with_one self.old.replies.items (event, said) }
    {
        let place = event as usize;
        if place < self.replies.len() {
            self.replies[place].add(said);
        }
    }

    // What was answered by a shard. Its ledger, for which there is room, has the entries in the same order.
    pub(crate) fn add_entries(&mut self, entries: Vec<Entry>, ledger: &mut Vec<LedgerEntry>)
        requires room { length entries.items ≤ vec_capacity ledger.old }
        requires empty { ledger.old.items ≡ [] }
        ensures said { self.new.replies.items
            ≡ with_all self.old.replies.items (map said_of_entry entries.items) }
        ensures ledger { ledger.new.items ≡ ledger_entries entries.items }
    {
        for entry in entries {
            ledger.push_reserved(LedgerEntry {
                event: entry.event,
                id: entry.id,
                block: entry.block,
            });
            self.add(entry.event, EventReply::Replied(entry.reply));
        }
    }

    // What was refused by a shard.
    pub(crate) fn add_refused(&mut self, refused: &[(u64, Refusal)])
        ensures { self.new.replies.items ≡ with_all self.old.replies.items (map said_of_refusal refused.now) }
    {
        for (event, refusal) in refused {
            self.add(*event, EventReply::Refused(*refusal));
        }
    }

    // What checks and repairs found in a shard.
    pub(crate) fn add_scrubs(&mut self, scrubs: &[ScrubDone])
        ensures { self.new.replies.items
            ≡ with_all self.old.replies.items (map said_of_scrub scrubs.now) }
    {
        for scrub in scrubs {
            let found = Found::of_scrub(scrub);
            self.add(scrub.event, EventReply::Counted(found));
        }
    }

    // What was said of the events that no shard answers.
    pub(crate) fn add_answers(&mut self, answers: &[EventAnswer])
        ensures { self.new.replies.items ≡ with_all self.old.replies.items (map said_of_answer answers.now) }
    {
        for answer in answers {
            self.add(answer.event, EventReply::of_answer(answer.outcome));
        }
    }
}

//! What is due is gathered, and handed in together.

ghost use Rattle.std.specs.Prelude.{◌≡◌, ◌+◌, ◌≤◌, ◌<◌, ◌⊎◌, ◌++◌, ◌∷◌, [], IfOk, MatchOption, length, vec_capacity};
ghost use Rattle.std.specs.VecDeque.{deque_capacity};
ghost use Rattle.r6_core.specs.Refusals.{most_unanswered};
ghost use Rattle.r6_engine.specs.runner.Together.{HandsOver, IsOtherNext, all_due};

use crate::runner::due::Due;
use crate::runner::gathered::Gathered;
use r6_core::{MOST_UNANSWERED, Op, Refusal};
use r6_shard::{Performs, Shard};
use std::alloc::{AllocError, Global};
use std::collections::VecDeque;

impl Gathered {
    /// None, with room for as many as a shard may have open.
    pub(crate) fn new(alloc: Global) -> Result<Gathered, AllocError>
        ensures { IfOk result (λ gathered. gathered.ops.items ≡ []) }
    {
        Ok(Gathered {
            ops: VecDeque::with_capacity(alloc, MOST_UNANSWERED)?,
            events: VecDeque::with_capacity(alloc, MOST_UNANSWERED)?,
        })
    }

    /// Takes requests that come after so many waits from the front of what is due: as many as may be taken, or all up
    /// to anything else.
    pub(crate) fn gather(&mut self, due: &mut VecDeque<Due>, waits: u64, most: usize)
        requires none { self.old.ops.items ≡ [] }
        requires few { most ≤ most_unanswered }
        ensures taken { due.old.items ≡ all_due waits self.new.events.items self.new.ops.items ++ due.new.items }
        ensures few { length self.new.ops.items ≤ most }
        ensures all { (length self.new.ops.items ≡ most) ⊎ IsOtherNext waits due.new.items }
        ensures room { deque_capacity due.new ≡ deque_capacity due.old }
    {
        while self.ops.len() < most {
            let Some(next) = due.pop_front() else {
                return;
            };
            match next.into_request(waits) {
                Ok((event, op)) => {
                    self.ops.push_back_reserved(op);
                    self.events.push_back_reserved(event);
                }
                Err(next) => {
                    due.push_front_reserved(next);
                    return;
                }
            }
        }
    }

    /// A request more, the first.
    pub(crate) fn put_first(&mut self, event: u64, op: Op)
        requires { length self.old.ops.items < most_unanswered }
        ensures ops { self.new.ops.items ≡ op ∷ self.old.ops.items }
        ensures events { self.new.events.items ≡ event ∷ self.old.events.items }
    {
        self.ops.push_front_reserved(op);
        self.events.push_front_reserved(event);
    }

    // The first one leaves; the number of its event.
    fn pop_first(&mut self) -> Option<u64>
        ensures first { MatchOption result (self.old.ops.items ≡ [])
            (λ event. (op : _) × (self.old.ops.items ≡ op ∷ self.new.ops.items)
            × (self.old.events.items ≡ event ∷ self.new.events.items)) }
    {
        self.ops.pop_front()?;
        self.events.pop_front()
    }

    /// Hands them in, and none is left. Those that are refused stand among the others with their events, each with the
    /// reason.
    pub(crate) fn hand_over<P: Performs + Drop>(
        &mut self,
        shard: &mut Shard<P>,
        refused: &mut Vec<(u64, Refusal)>,
    )
        requires few { shard.old.core.unanswered + length self.old.ops.items ≤ most_unanswered }
        requires room { length shard.old.asked.items + length self.old.ops.items ≤ shard.old.room }
        requires refused_room { length refused.old.items + length self.old.ops.items ≤ vec_capacity refused.old }
        ensures none { self.new.ops.items ≡ [] }
        ensures handed { HandsOver self.old.events.items self.old.ops.items shard.old refused.old.items
            shard.new refused.new.items }
        ensures refused_room { vec_capacity refused.new ≡ vec_capacity refused.old }
    {
        while !self.ops.is_empty() {
            let submitted = shard.submit_all(&mut self.ops, &mut self.events);
            let Some(refusal) = submitted.refusal else {
                return;
            };
            let Some(event) = self.pop_first() else {
                unreachable!()
            };
            refused.push_reserved((event, refusal));
        }
    }
}

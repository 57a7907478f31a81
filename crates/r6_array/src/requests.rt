//! Requests that are to be handed in together.

ghost use Rattle.std.specs.Prelude.{◌≡◌, ◌==◌, ◌∷◌, ◌++◌, [], length, IfOk, IfErr, MatchOption};
ghost use Rattle.r6_core.specs.Refusals.{most_unanswered};
ghost use Rattle.r6_array.specs.Requests.{IsFirstBlock};

use r6_core::{MOST_UNANSWERED, Op};
use std::alloc::{AllocError, Global};
use std::collections::VecDeque;
use std::marker::Model;

/// Requests that are to be handed in together, each with its name: `Array::submit_all` and `Shard::submit_all` take them
/// from the front.
///
/// There is room for 256, as many as a shard takes before their replies are taken. No call but [`RequestList::new`]
/// takes memory.
#[derive(Drop)]
pub struct RequestList {
    pub(crate) ops: VecDeque<Op>,
    /// In the same order.
    pub(crate) names: VecDeque<u64>,
}

impl Model for RequestList {
    ghost use Rattle.std.specs.Prelude.{◌≡◌, List, length};
    ghost use Rattle.std.specs.List.{zip};
    ghost use Rattle.std.specs.VecDeque.{deque_capacity};
    ghost use Rattle.r6_core.specs.Refusals.{most_unanswered};
    ghost use Rattle.r6_array.specs.Requests.{Named};

    ghost Value = { List Named };

    ghost view = { λ list. zip list.ops.items list.names.items };

    ghost invariant = { λ list. (length list.names.items ≡ length list.ops.items)
        × (deque_capacity list.ops ≡ most_unanswered) × (deque_capacity list.names ≡ most_unanswered) };
}

impl RequestList {
    /// An empty list, with all its room.
    ///
    /// # Errors
    /// `AllocError` where there is no memory for it.
    pub fn new(alloc: Global) -> Result<RequestList, AllocError>
        ensures { IfOk result (λ list. list ≡ []) }
    {
        Ok(RequestList {
            ops: VecDeque::with_capacity(alloc, MOST_UNANSWERED)?,
            names: VecDeque::with_capacity(alloc, MOST_UNANSWERED)?,
        })
    }

    /// How many requests are in it.
    pub fn len(&self) -> usize
        ensures { result ≡ length self.now }
    {
        self.ops.len()
    }

    /// Whether no request is in it.
    pub fn is_empty(&self) -> bool
        ensures { result ≡ (length self.now == 0) }
    {
        self.ops.is_empty()
    }

    /// Puts a request at the end, under a name by which its caller knows it.
    ///
    /// # Errors
    /// The request comes back where 256 are in the list. Nothing changes.
    pub fn push(&mut self, op: Op, name: u64) -> Result<(), Op>
        ensures pushed { IfOk result (λ _. self.new ≡ self.old ++ (op, name) ∷ []) }
        ensures full { IfErr result (λ back.
            (length self.old ≡ most_unanswered) × (back ≡ op) × (self.new ≡ self.old)) }
    {
        if self.ops.len() >= MOST_UNANSWERED {
            return Err(op);
        }
        self.ops.push_back_reserved(op);
        self.names.push_back_reserved(name);
        Ok(())
    }

    /// Takes the first request out, with its name.
    pub fn pop(&mut self) -> Option<(Op, u64)>
        ensures { MatchOption result
            ((self.old ≡ []) × (self.new ≡ []))
            (λ first. self.old ≡ first ∷ self.new) }
    {
        let op = self.ops.pop_front()?;
        let Some(name) = self.names.pop_front() else {
            unreachable!()
        };
        Some((op, name))
    }

    /// The block of the first request.
    pub(crate) fn first_block(&self) -> Option<u64>
        ensures { MatchOption result (self.now ≡ []) (IsFirstBlock self.now) }
    {
        Some(self.ops.front()?.block())
    }
}

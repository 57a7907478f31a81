//! Requests are handed in together.

ghost use Rattle.std.specs.Prelude.{◌≡◌, ℕ, length};
ghost use Rattle.r6_kernels.specs.Blocks.{IsBlock};
ghost use Rattle.std.specs.VecDeque.{deque_capacity};
ghost use Rattle.r6_world.specs.Values.{buffer_of};
ghost use Rattle.r6_core.specs.Shards.{core_of, core_with};
ghost use Rattle.r6_core.specs.Refusals.{HasSubmitFault, HasNone, submit_faults};
ghost use Rattle.r6_core.specs.Inside.{IsCore, IsSettled};
ghost use Rattle.r6_core.specs.Together.{HaveEntered, IsFirstRefused, IsRight, SubmitsAll, one_more};

use crate::queued::{Queued, wait};
use crate::refusal::Refusal;
use crate::scan::ANYTHING;
use crate::state::State;
use r6_world::{Op, OpId};
use std::collections::VecDeque;

/// What became of requests that were handed in together.
#[derive(Clone, Copy, PartialEq, Eq, Debug)]
pub struct Submitted {
    /// The number of the first that was accepted; the others have the next ones, in their order.
    pub first: OpId,
    /// How many were accepted.
    pub count: usize,
    /// Why the next one is refused; `None` if all were accepted.
    pub refusal: Option<Refusal>,
}

impl State {
    /// Takes requests from the front of the list until one is refused, and then starts what can start.
    pub(crate) fn submit_all(&mut self, ops: &mut VecDeque<Op>) -> Submitted
        requires { IsCore self.old }
        ensures core { IsCore self.new }
        ensures submits { (window : ℕ)
            → SubmitsAll (core_with window self.old) ops.old.items ops.new.items result (core_with window self.new) }
        ensures room { deque_capacity ops.new ≡ deque_capacity ops.old }
    {
        let first = OpId(self.accepted);
        let before = ops.len();
        let refusal = self.enter_all(ops);
        let count = before - ops.len();
        if count > 0 {
            self.start_newest();
        }
        Submitted {
            first,
            count,
            refusal,
        }
    }

    // Takes requests from the front of the list until one is refused; none starts.
    fn enter_all(&mut self, ops: &mut VecDeque<Op>) -> Option<Refusal>
        requires { IsSettled self.old }
        ensures entered { HaveEntered self.old ops.old.items ops.new.items self.new }
        ensures refused { IsFirstRefused self.new ops.new.items result }
        ensures room { deque_capacity ops.new ≡ deque_capacity ops.old }
    {
        while let Some(op) = ops.pop_front() {
            if let Err(refusal) = self.admit(&op) {
                ops.push_front_reserved(op);
                return Some(refusal);
            }
            op.buffer().assure_bytes();
            self.enter(op);
        }
        None
    }

    // Takes the request, which waits behind all others.
    fn enter(&mut self, op: Op)
        requires settled { IsSettled self.old }
        requires right { IsRight self.old op }
        ensures { self.new ≡ one_more self.old op }
    {
        let queued = Queued {
            id: self.accepted,
            op,
            erred: false,
        };
        self.accepted += 1;
        self.unanswered += 1;
        wait(&mut self.waiting, ANYTHING, queued);
    }
}

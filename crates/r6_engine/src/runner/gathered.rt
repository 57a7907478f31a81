//! Requests that are to be handed in together.

ghost use Rattle.std.specs.Prelude.{◌≡◌, ◌≤◌, length};
ghost use Rattle.std.specs.VecDeque.{deque_capacity};
ghost use Rattle.r6_core.specs.Refusals.{most_unanswered};

use r6_core::Op;
use std::collections::VecDeque;

/// Requests that are to be handed in together, from the first to the last.
#[derive(Drop)]
pub struct Gathered {
    pub ops: VecDeque<Op>,
    /// The numbers of their events.
    pub events: VecDeque<u64>,
    pub ghost numbered: { length ops.items ≡ length events.items },
    pub ghost ops_room: { most_unanswered ≤ deque_capacity ops },
    pub ghost events_room: { most_unanswered ≤ deque_capacity events },
}

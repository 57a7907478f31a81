//! A shard with what its thread was handed.

ghost use Rattle.std.specs.Prelude.{◌≡◌, ◌+◌, ◌≤◌, [], length, vec_capacity};
ghost use Rattle.std.specs.VecDeque.{deque_capacity};
ghost use Rattle.r6_engine.specs.runner.Skipping.{SkipNone};
ghost use Rattle.r6_engine.specs.runner.Tasks.{count_of};

use crate::runner::due::Due;
use crate::runner::gathered::Gathered;
use crate::runner::scrub::{ScrubDone, ScrubUnderWay};
use r6_core::Refusal;
use r6_shard::{Part, Performs, Shard};
use std::collections::VecDeque;

/// A part of a device that came by the list.
#[derive(Clone, Copy)]
pub struct Handed {
    /// The number of its event.
    pub event: u64,
    pub slot: usize,
    pub generation: u32,
    /// Whether it was taken in. If not, it stands among the others, as does a part whose place another took.
    pub taken: bool,
}

/// A shard with what its thread took from its list.
///
/// All room is made before the first command.
#[derive(Drop)]
pub struct Runner<P: Performs, D> {
    pub shard: Shard<P>,
    /// What was taken from the list and not begun, from the oldest to the newest.
    pub due: VecDeque<Due>,
    /// The requests that are being begun. Between calls there are none.
    pub gathered: Gathered,
    /// The events whose requests were refused, and why.
    pub refused: Vec<(u64, Refusal)>,
    /// The check or repair that is under way.
    pub scrub: Option<ScrubUnderWay>,
    /// Those that are over.
    pub scrubs_done: Vec<ScrubDone>,
    /// The parts that came by the list.
    pub handed: Vec<Handed>,
    /// Parts that aren't the shard's, or no longer.
    pub others: Vec<Part<D>>,
    /// How many waits stand before the request that was accepted last.
    pub waits: u64,
    /// How many rows a check or repair passes over.
    pub rows: u64,
    /// As many tasks may be taken.
    pub room: usize,
    /// As many parts of new devices may come.
    pub attaches: usize,
    pub ghost unskipped: { SkipNone shard.named shard.saw_out scrubs_done.items },
    pub ghost none_gathered: { gathered.ops.items ≡ [] },
    ghost within: { count_of refused.items shard.asked.items scrub scrubs_done.items handed.items due.items ≤ room },
    ghost others_within: { length others.items ≤ length handed.items },
    ghost shard_room: { room ≤ shard.room },
    ghost due_room: { room ≤ deque_capacity due },
    ghost refused_room: { room ≤ vec_capacity refused },
    ghost scrubs_room: { room ≤ vec_capacity scrubs_done },
    ghost handed_room: { attaches ≤ vec_capacity handed },
    ghost others_room: { attaches ≤ vec_capacity others },
    ghost parts_room: { length (P.performer shard.parts).labels + attaches
        ≤ (P.performer shard.parts).part_room + length handed.items },
}

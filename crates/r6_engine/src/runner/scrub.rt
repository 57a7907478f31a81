//! Checks and repairs of every row.

ghost use Rattle.std.specs.Prelude.{◌≡◌, ◌-◌, ◌⊎◌, ◌↔◌, IsTrue, true};
ghost use Rattle.r6_engine.specs.runner.Classes.{classed_in};

use r6_core::{Counts, Task};

/// A check or repair of every row that is under way.
#[derive(Clone, Copy)]
pub struct ScrubUnderWay {
    /// The number of its event.
    pub event: u64,
    pub task: Task,
    /// Rows that were neither taken up nor passed over so far.
    pub left: u64,
    /// No more is taken up: the array has failed, or no number is left.
    pub given_up: bool,
    /// The shard's counts when it began.
    pub before: Counts,
}

/// A check or repair of every row that is over.
#[derive(Clone, Copy)]
pub struct ScrubDone {
    /// The number of its event.
    pub event: u64,
    pub task: Task,
    /// Rows that were neither taken up nor passed over, since it was given up.
    pub left_out: u64,
    /// Rows that were not classed: those that were left out, those that the core skipped, and those that it gave up.
    pub skipped: u64,
    /// The shard's counts when it began.
    pub before: Counts,
    /// The shard's counts when it was over.
    pub after: Counts,
}

// So many rows, less those that were counted.
fn less(rows: u64, before: u64, after: u64) -> u64
    ensures { result ≡ rows - (after - before) }
{
    rows.saturating_sub(after.saturating_sub(before))
}

// Of so many rows those that were not classed.
fn unclassed(rows: u64, before: Counts, after: Counts) -> u64
    ensures { result ≡ rows - classed_in before after }
{
    let rows = less(rows, before.consistent, after.consistent);
    let rows = less(rows, before.wrong_p, after.wrong_p);
    let rows = less(rows, before.wrong_q, after.wrong_q);
    let rows = less(rows, before.wrong_data, after.wrong_data);
    less(rows, before.many, after.many)
}

impl ScrubUnderWay {
    // Whether no row is left, or none is taken up any more.
    pub(crate) fn is_over(&self) -> bool
        ensures { IsTrue result ↔ ((self.now.left ≡ 0) ⊎ (self.now.given_up ≡ true)) }
    {
        self.left == 0 || self.given_up
    }

    // Of so many rows of the shard those are skipped that were not classed.
    pub(crate) fn over(self, rows: u64, after: Counts) -> ScrubDone
        ensures { result ≡ record {
          event = self.event;
          task = self.task;
          left_out = self.left;
          skipped = rows - classed_in self.before after;
          before = self.before;
          after = after;
        } }
    {
        ScrubDone {
            event: self.event,
            task: self.task,
            left_out: self.left,
            skipped: unclassed(rows, self.before, after),
            before: self.before,
            after,
        }
    }
}

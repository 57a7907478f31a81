//! What checks and repairs found.

ghost use Rattle.std.specs.Prelude.{◌≡◌};
ghost use Rattle.r6_engine.specs.Found.{found_by, found_in};

use crate::runner::ScrubDone;

/// How many rows of each class a check or repair found, how many it skipped, and how many wrong ones it repaired.
///
/// A row that was not read whole is skipped: one with a slot that isn't in sync, one that lost a slot while it was
/// read, and one that a shard has not come to when it sees that the array has failed.
#[derive(Clone, Copy, PartialEq, Eq, Debug)]
pub struct Found {
    pub consistent: u64,
    pub wrong_p: u64,
    pub wrong_q: u64,
    pub wrong_data: u64,
    pub many: u64,
    pub skipped: u64,
    pub repaired: u64,
}

impl Found {
    // In a shard, by one check or repair.
    pub(crate) fn of_scrub(scrub: &ScrubDone) -> Found
        ensures { result ≡ found_in scrub.now }
    {
        let (before, after) = (&scrub.before, &scrub.after);
        Found {
            consistent: after.consistent.saturating_sub(before.consistent),
            wrong_p: after.wrong_p.saturating_sub(before.wrong_p),
            wrong_q: after.wrong_q.saturating_sub(before.wrong_q),
            wrong_data: after.wrong_data.saturating_sub(before.wrong_data),
            many: after.many.saturating_sub(before.many),
            skipped: scrub.skipped,
            repaired: after.repaired.saturating_sub(before.repaired),
        }
    }

    // With what another shard found.
    pub(crate) fn with(&self, other: &Found) -> Found
        ensures { result ≡ found_by self.now other.now }
    {
        Found {
            consistent: self.consistent.saturating_add(other.consistent),
            wrong_p: self.wrong_p.saturating_add(other.wrong_p),
            wrong_q: self.wrong_q.saturating_add(other.wrong_q),
            wrong_data: self.wrong_data.saturating_add(other.wrong_data),
            many: self.many.saturating_add(other.many),
            skipped: self.skipped.saturating_add(other.skipped),
            repaired: self.repaired.saturating_add(other.repaired),
        }
    }
}

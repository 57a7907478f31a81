//! What checks, repairs and rebuilds have found and done.

ghost use Rattle.std.specs.Prelude.{◌≡◌, ◌<◌, ◌^◌};
ghost use Rattle.r6_world.specs.Changes.{counted};
ghost use Rattle.r6_world.specs.Tasks.{Classed};
ghost use Rattle.r6_frames.specs.Views.{scrub_task};
ghost use Rattle.r6_core.specs.Shards.{counts_of};
ghost use Rattle.r6_core.specs.Inside.{rows_counted, none_counted};

use r6_frames::Scrub;
use r6_recover::RowClass;

/// Rows, by what checks, repairs and rebuilds have found and done since the core was made.
#[derive(Clone, Copy, PartialEq, Eq, Debug)]
pub struct Counts {
    pub consistent: u64,
    pub wrong_p: u64,
    pub wrong_q: u64,
    pub wrong_data: u64,
    pub many: u64,
    /// Rows passed over, since a slot was out, and those of which a slot was lost while they were read.
    pub skipped: u64,
    /// Rows that a repair found wrong.
    pub repaired: u64,
    pub rebuilt: u64,
}

impl Counts {
    /// No row.
    pub(crate) fn none() -> Counts
        ensures { result ≡ none_counted }
    {
        Counts {
            consistent: 0,
            wrong_p: 0,
            wrong_q: 0,
            wrong_data: 0,
            many: 0,
            skipped: 0,
            repaired: 0,
            rebuilt: 0,
        }
    }

    /// One row more of the class, which a check or repair has found.
    pub(crate) fn add(&mut self, scrub: Scrub, class: RowClass)
        requires { rows_counted self.old < 2 ^ 63 }
        ensures { counts_of self.new ≡ counted (counts_of self.old) (scrub_task scrub) (Classed class) }
    {
        match class {
            RowClass::Consistent => self.consistent += 1,
            RowClass::WrongP => self.wrong_p += 1,
            RowClass::WrongQ => self.wrong_q += 1,
            RowClass::WrongData(_) => self.wrong_data += 1,
            RowClass::Many => self.many += 1,
        }
        match (scrub, class) {
            (Scrub::Check, _) | (Scrub::Repair, RowClass::Consistent) => {}
            (Scrub::Repair, _) => self.repaired += 1,
        }
    }
}

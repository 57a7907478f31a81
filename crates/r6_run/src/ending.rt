//! How a run ends.

ghost use Rattle.std.specs.Prelude.{◌≡◌};
ghost use Rattle.r6_run.specs.Ends.{ending_of};

use r6_health::Snapshot;

/// How a run ends.
#[derive(Clone, Copy, PartialEq, Eq, Debug)]
pub enum Ending {
    /// The array has not failed.
    InService,
    /// Three slots were out at one time.
    Failed,
}

impl Ending {
    // By what the register holds at last.
    pub(crate) fn of(snapshot: &Snapshot) -> Ending
        ensures { result ≡ ending_of snapshot.now }
    {
        if snapshot.failed() {
            Ending::Failed
        } else {
            Ending::InService
        }
    }
}

//! How a command ends that met no fault.

ghost use Rattle.std.specs.Prelude.{◌≡◌};
ghost use Rattle.r6_execute.specs.Status.{ending_of_report, status_of_ending};

use r6_engine::Report;
use r6_run::Ending as RunEnding;
use r6_simulate::Ending as SimulationEnding;

/// How a command ends that met no fault.
#[derive(Clone, Copy)]
pub enum Ending {
    /// All is well.
    Good,
    /// The array has failed.
    Failed,
    /// A row isn't consistent.
    Wrong,
}

impl Ending {
    /// The status with which the program ends.
    pub fn status(self) -> u8
        ensures { result ≡ status_of_ending self }
    {
        match self {
            Ending::Good => 0,
            Ending::Failed | Ending::Wrong => 1,
        }
    }

    /// That of a check that met no fault.
    pub(crate) fn of_report(report: &Report) -> Ending
        ensures { result ≡ ending_of_report report.now }
    {
        match report.first_wrong {
            None => Ending::Good,
            Some(_) => Ending::Wrong,
        }
    }
}

impl From<SimulationEnding> for Ending {
    ghost use Rattle.r6_execute.specs.Status.{ending_of};

    ghost from_gives = { λ simulation ending. ending ≡ ending_of simulation };

    fn from(ending: SimulationEnding) -> Ending {
        match ending {
            SimulationEnding::InService => Ending::Good,
            SimulationEnding::Failed => Ending::Failed,
        }
    }
}

impl From<RunEnding> for Ending {
    ghost use Rattle.r6_execute.specs.Status.{ending_of_run};

    ghost from_gives = { λ run ending. ending ≡ ending_of_run run };

    fn from(ending: RunEnding) -> Ending {
        match ending {
            RunEnding::InService => Ending::Good,
            RunEnding::Failed => Ending::Failed,
        }
    }
}

//! The rule by which a thread sleeps: no more sleeps end than wakes were given.

use crossbeam_utils::rule::{Outcome, Protocol};

/// Wakes that were given to a thread, and sleeps of it that ended. No value of it is made.
pub struct Tally {
    pub given: u64,
    pub taken: u64,
}

/// No more sleeps of a thread end than wakes were given to it.
pub struct Balanced;

impl Protocol<bool, Tally> for Balanced {
    ghost use Rattle.r6_idle.specs.Tallies.{IsBalanced, nothing};

    ghost holds = { IsBalanced };

    ghost first = { nothing };
}

// A wake is given.
pub(crate) struct Given;

impl Outcome<bool, Tally> for Given {
    ghost use Rattle.std.specs.Prelude.{◌≡◌};
    ghost use Rattle.r6_idle.specs.Tallies.{having_given};

    ghost then = { λ v _ _ w. w ≡ having_given v };
}

// A wake is taken, and a sleep ends.
pub(crate) struct Taken;

impl Outcome<bool, Tally> for Taken {
    ghost use Rattle.std.specs.Prelude.{◌≡◌};
    ghost use Rattle.r6_idle.specs.Tallies.{having_taken};

    ghost then = { λ v _ _ w. w ≡ having_taken v };
}

//! Read errors: the first one of a block loses no slot. A direct read is made once more, by a hold; and a hold computes
//! the block, writes it to its slot, and reads it again there.
//!
//! In rows 0 to 3 of the array the slots have, in order: Q, D0, D1, P; D0, D1, P, Q; D1, P, Q, D0; P, Q, D0, D1.

mod fixes;
mod losses;
mod tasks;
mod waits;

use crate::bench::{Course, Told};
use r6_core::Counts;
use r6_health::Answer as RegisterAnswer;

pub(crate) const DEGRADED: Told = Ok(RegisterAnswer::Degraded);

pub(crate) const FAILED: Told = Ok(RegisterAnswer::Failed);

pub(crate) const NONE: Counts = Counts {
    consistent: 0,
    wrong_p: 0,
    wrong_q: 0,
    wrong_data: 0,
    many: 0,
    skipped: 0,
    repaired: 0,
    rebuilt: 0,
};

pub(crate) const SKIPPED: Counts = Counts { skipped: 1, ..NONE };

pub(crate) const REBUILT: Counts = Counts { rebuilt: 1, ..NONE };

pub(crate) fn fix_courses() -> &'static [Course<'static>] {
    fixes::FIXES
}

pub(crate) fn loss_courses() -> &'static [Course<'static>] {
    losses::LOSSES
}

pub(crate) fn wait_courses() -> &'static [Course<'static>] {
    waits::WAITS
}

pub(crate) fn task_courses() -> &'static [Course<'static>] {
    tasks::TASKS
}

//! Slots whose device is replaced in service: the new device gets each row's block from the old one, both are written
//! where the row is on both, and either of them may fail.
//!
//! In rows 0 to 3 of the array the slots have, in order: Q, D0, D1, P; D0, D1, P, Q; D1, P, Q, D0; P, Q, D0, D1. A new
//! device has other bytes throughout. The slot that is replaced is slot 1, but where a course says else.

mod copies;
mod looks;
mod losses;
mod read_errors;
mod writes;

use crate::bench::{Answer, Course};
use r6_health::{Answer as RegisterAnswer, Refusal as RegisterRefusal};

pub(crate) const DEGRADED: Answer = Answer::Says(Ok(RegisterAnswer::Degraded));

pub(crate) const FAILED: Answer = Answer::Says(Ok(RegisterAnswer::Failed));

pub(crate) const FIRST: Answer = Answer::Says(Ok(RegisterAnswer::Generation(1)));

pub(crate) const SECOND: Answer = Answer::Says(Ok(RegisterAnswer::Generation(2)));

pub(crate) const COMPLETE: Answer = Answer::Says(Ok(RegisterAnswer::Complete));

pub(crate) const KEPT: Answer = Answer::Says(Ok(RegisterAnswer::Kept));

pub(crate) const STALE: Answer = Answer::Says(Err(RegisterRefusal::Stale));

pub(crate) const NOT_IN_SYNC: Answer = Answer::Says(Err(RegisterRefusal::NotInSync));

pub(crate) const BUSY: Answer = Answer::Says(Err(RegisterRefusal::ReplacementBusy));

pub(crate) fn copy_courses() -> &'static [Course<'static>] {
    copies::COPIES
}

pub(crate) fn write_courses() -> &'static [Course<'static>] {
    writes::WRITES
}

pub(crate) fn loss_courses() -> &'static [Course<'static>] {
    losses::LOSSES
}

pub(crate) fn look_courses() -> &'static [Course<'static>] {
    looks::LOOKS
}

pub(crate) fn read_error_courses() -> &'static [Course<'static>] {
    read_errors::READ_ERRORS
}

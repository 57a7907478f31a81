//! A thread that looks for work, and sleeps where it finds none.

ghost use Rattle.std.specs.Prelude.{◌≡◌};
ghost use Rattle.std.specs.Arc.{arc_value};
ghost use Rattle.atomic_table.specs.Seated.{table_id_coded};
ghost use base.Stored.{Coded-set};

use crate::tally::{Balanced, Tally};
use crate::waker::Waker;
use crossbeam_utils::sync::parker::{Pass, RuledParker};

mod calls;

/// So many looks in vain, one after the other, before a thread sleeps.
pub const LOOKS: u32 = 64;

/// What a thread did after a look in vain.
#[derive(Clone, Copy, PartialEq, Eq, Debug, Drop)]
pub enum Pause {
    /// It let other threads go on.
    Yielded,
    /// It slept, and was woken.
    Slept,
}

/// What a thread keeps of its looks in vain, and what it sleeps on. One thread at a time has it.
#[derive(Drop)]
pub struct Idle {
    parker: RuledParker<Tally, Balanced>,
    pass: Pass<Tally>,
    waker: Waker,
    looks: u32,
    ghost own: { pass.table_id ≡ (arc_value parker.unparker.state).shared.table_id } by { Coded-set table_id_coded _ _ },
    ghost woken: { (arc_value waker.unparker.state).shared.table_id ≡ (arc_value parker.unparker.state).shared.table_id } by { Coded-set table_id_coded _ _ },
}

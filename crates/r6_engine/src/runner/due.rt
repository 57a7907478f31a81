//! What a thread took from its list and has still to begin.

ghost use Rattle.std.specs.Prelude.{◌≡◌, IfErr, IfOk};
ghost use Rattle.r6_engine.specs.declared.runner.due.Duty.TheVariants.{Serve};
ghost use Rattle.r6_engine.specs.runner.Together.{IsOther};

use r6_core::Op;

/// What is to be done.
#[derive(Drop)]
pub enum Duty {
    /// A request is to be handed in.
    Serve(Op),
    /// Every row is to be checked.
    Check,
    /// Every row is to be repaired.
    Repair,
}

/// A shard's part of an event that it has still to begin.
#[derive(Drop)]
pub struct Due {
    /// The event's number.
    pub event: u64,
    /// How many waits stand before the event: waits, checks and repairs.
    pub waits: u64,
    pub duty: Duty,
}

impl Due {
    /// The number of its event and its request, if it is one after so many waits.
    ///
    /// # Errors
    /// It comes back if it is anything else.
    pub(crate) fn into_request(self, waits: u64) -> Result<(u64, Op), Due>
        ensures request { IfOk result (λ r. self ≡ record { event = r.0; waits = waits; duty = Serve r.1 }) }
        ensures other { IfErr result (λ back. (back ≡ self) × IsOther waits self) }
    {
        let Due {
            event,
            waits: own,
            duty,
        } = self;
        match duty {
            Duty::Serve(op) if own == waits => Ok((event, op)),
            duty => Err(Due {
                event,
                waits: own,
                duty,
            }),
        }
    }
}

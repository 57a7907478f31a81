//! The threads are started.

ghost use Rattle.std.specs.Prelude.{◌≡◌, IfErr, IfOk, false};
ghost use Rattle.r6_threads.specs.Works.{HasEnded};

use crate::ended::{Ended, Promised};
use crate::gate::{Gate, await_decision, decide};
use crate::work::Work;
use std::snapshot::Snapshot;
use std::sync::Wait;
use std::thread::{PromisedHandle, Scope, SpawnError};

// Does the work, if it is decided that the threads begin.
fn run_one<'g, S, W: Work<S>, R: Wait>(
    rt: &R,
    gate: &'g Gate,
    station: &S,
    mut work: W,
) -> Ended<'g, W>
    requires { W.ready station.now work }
    ensures decision { result.decision.of ≡ gate.now.id }
    ensures ended { HasEnded (W.done station.now) result.decision.value work result.work }
{
    let decision = await_decision(rt, gate);
    if *gate.value(&decision) {
        work.run(rt, station);
    }
    Ended { decision, work }
}

// Starts the thread of a piece of work, which waits until it is decided whether it begins. If it can't be made, it is
// decided that none begins, and the work comes back.
pub(crate) fn start<'s, E, S: Sync + 's, W: Work<S> + Send + 's, R: Wait + Sync + 's>(
    scope: &Scope<'s, E>,
    rt: &'s R,
    gate: &'s Gate,
    station: &'s S,
    work: W,
) -> Result<PromisedHandle<Ended<'s, W>, Promised<'s, S, W>>, Ended<'s, W>>
    requires { W.ready station.now work }
    ensures gate { IfOk result (λ handle. handle.promise.gate.now ≡ gate.now) }
    ensures station { IfOk result (λ handle. handle.promise.station.now ≡ station.now) }
    ensures work { IfOk result (λ handle. handle.promise.work.value ≡ work) }
    ensures decision { IfErr result (λ ended. (ended.decision.of ≡ gate.now.id) × (ended.decision.value ≡ false)) }
    ensures back { IfErr result (λ ended. ended.work ≡ work) }
{
    let promise = Promised {
        gate,
        station,
        work: Snapshot::of(&work),
    };
    let child = scope.spawn_with(
        promise,
        move || -> Ended<'_, W>
            requires { W.ready station.now work }
            ensures decision { result.decision.of ≡ gate.entry.now.id }
            ensures ended { HasEnded (W.done station.entry.now) result.decision.value work result.work }
        { run_one(rt, gate, station, work) },
    );
    match child {
        Ok(handle) => Ok(handle),
        Err(refused) => {
            let decision = decide(rt, gate, false);
            let ended = (refused.value)();
            decision.agrees(&ended.decision);
            Err(ended)
        }
    }
}

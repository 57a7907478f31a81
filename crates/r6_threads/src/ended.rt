//! What a thread promises.

ghost use Rattle.std.specs.Prelude.{◌≡◌};
ghost use Rattle.r6_threads.specs.Works.{HasEnded};

use crate::gate::Gate;
use crate::work::Work;
use std::snapshot::Snapshot;
use std::sync::OnceToken;
use std::thread::Promise;

/// A thread that ended: what was decided, and its work.
#[derive(Drop)]
pub(crate) struct Ended<'g, W> {
    pub(crate) decision: OnceToken<'g, bool>,
    pub(crate) work: W,
}

/// The work is done, or as it was, as it is decided.
#[derive(Drop)]
pub(crate) struct Promised<'g, S, W> {
    pub(crate) gate: &'g Gate,
    pub(crate) station: &'g S,
    pub(crate) work: Snapshot<W>,
}

impl<'g, S, W: Work<S>> Promise<Ended<'g, W>> for Promised<'g, S, W> {
    ghost kept_by = { λ p e. (e.decision.of ≡ p.gate.now.id)
        × HasEnded (W.done p.station.now) e.decision.value p.work.value e.work };
}

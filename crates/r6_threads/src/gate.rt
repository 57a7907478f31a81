//! All threads wait until it is decided whether they begin.

ghost use Rattle.std.specs.Prelude.{◌≡◌};

use std::sync::{OnceLock, OnceToken, Wait};

/// Where it is decided, once, whether the threads begin.
pub(crate) type Gate = OnceLock<bool>;

// Waits until it is decided.
pub(crate) fn await_decision<'g, R: Wait>(rt: &R, gate: &'g Gate) -> OnceToken<'g, bool>
    ensures { result.of ≡ gate.now.id }
{
    for _ in rt.forever() {
        gate.wait(rt);
        if let Some(token) = gate.witness() {
            return token;
        }
    }
    unreachable!()
}

// Decides. No other thread does, and behind another decision this one would wait for good.
pub(crate) fn decide<'g, R: Wait>(rt: &R, gate: &'g Gate, begins: bool) -> OnceToken<'g, bool>
    ensures of { result.of ≡ gate.now.id }
    ensures value { result.value ≡ begins }
{
    if let Ok(token) = gate.set(rt, begins) {
        return token;
    }
    for _ in rt.forever() {}
    unreachable!()
}

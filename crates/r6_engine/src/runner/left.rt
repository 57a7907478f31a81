//! What is left to do after a round of a shard.

ghost use Rattle.std.specs.Prelude.{◌≡◌, ◌↔◌, ◌⊎◌, IsTrue, true, false};
ghost use Rattle.r6_engine.specs.declared.runner.left.Left.TheVariants.{Nothing, More};

use r6_idle::Idle;
use std::sync::Wait;

/// What is left to do after a round of a shard, or of several.
#[derive(Clone, Copy)]
pub enum Left {
    /// Nothing of what was taken.
    Nothing,
    /// What waits for completions, or for what other threads do.
    Waiting,
    /// More at once: a row was taken up that is to be rebuilt.
    More,
}

impl Left {
    // What is left where a shard rests, or has more to do at once, or neither.
    pub(crate) fn of(rests: bool, more: bool) -> Left
        ensures nothing { (result ≡ Nothing) ↔ (rests ≡ true) }
        ensures more { (result ≡ More) ↔ ((rests ≡ false) × (more ≡ true)) }
    {
        match (rests, more) {
            (true, _) => Left::Nothing,
            (false, true) => Left::More,
            (false, false) => Left::Waiting,
        }
    }

    /// Whether nothing is left.
    pub fn is_nothing(self) -> bool
        ensures { IsTrue result ↔ (self ≡ Nothing) }
    {
        match self {
            Left::Nothing => true,
            Left::Waiting | Left::More => false,
        }
    }

    /// What is left of both.
    pub fn and(self, other: Left) -> Left
        ensures nothing { (result ≡ Nothing) ↔ ((self ≡ Nothing) × (other ≡ Nothing)) }
        ensures more { (result ≡ More) ↔ ((self ≡ More) ⊎ (other ≡ More)) }
    {
        match (self, other) {
            (Left::Nothing, left) | (left, Left::Nothing) => left,
            (Left::More, _) | (_, Left::More) => Left::More,
            (Left::Waiting, Left::Waiting) => Left::Waiting,
        }
    }

    /// Before the next round: a thread that has more to do at once goes on. Any other counts the round as a look in vain,
    /// whatever it did, as [`Idle::wait`] does: it lets others go on, or sleeps unless it was woken since the last sleep.
    pub fn pause<R: Wait>(self, rt: &R, idle: &mut Idle) {
        match self {
            Left::More => idle.found(),
            Left::Nothing | Left::Waiting => {
                idle.wait(rt);
            }
        }
    }
}

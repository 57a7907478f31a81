//! What a thread does.

use std::sync::Wait;

/// Work for a thread of its own, at a station that all threads share.
pub trait Work<S>: Drop {
    /// What it asks of the station before it begins.
    ghost ready: { S → Self → Type 0 };

    /// What it has done, as it stood before and as it stands then.
    ghost done: { S → Self → Self → Type 0 };

    /// Does the work.
    fn run<R: Wait>(&mut self, rt: &R, station: &S)
        requires { ready station.now self.old }
        ensures { done station.now self.old self.new };
}

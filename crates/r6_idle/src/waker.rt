//! Who wakes a thread.

ghost use Rattle.std.specs.Prelude.{◌≡◌};
ghost use Rattle.r6_idle.specs.Wakers.{IsWakeBy, parker_of};

use crate::tally::{Balanced, Given, Tally};
use crossbeam_utils::sync::parker::{Pass, RuledUnparker};
use std::alloc::AllocError;

/// That a thread was woken once. It has no bytes.
pub type Wake = Pass<Tally>;

/// Wakes one thread. Any number of threads share it, by reference or by clones, which take no memory.
#[derive(Drop)]
pub struct Waker {
    pub(crate) unparker: RuledUnparker<Tally, Balanced>,
}

impl Waker {
    /// Wakes the thread; if it does not sleep, its next sleep ends at once. Call it after what the thread is to find is
    /// there.
    pub fn wake(&self) -> Wake
        ensures { IsWakeBy self.now result }
    {
        let mut wake = self.unparker.pass();
        self.unparker.unpark_as::<Given>(&mut wake);
        wake
    }
}

impl Clone for Waker {
    ghost is_clone = { λ waker other. parker_of other ≡ parker_of waker };

    fn clone(&self) -> Result<Waker, AllocError> {
        Ok(Waker {
            unparker: self.unparker.clone()?,
        })
    }
}

//! The calls of a thread that looks for work.

ghost use Rattle.std.specs.Prelude.{◌≡◌, ◌+◌, ◌<◌, ◌≤◌, IfOk};
ghost use Rattle.r6_idle.specs.Idles.{IsNew, IsWakerOf, HasYielded, HasSlept, HasFound, looks_of};

use super::{Idle, LOOKS, Pause};
use crate::tally::{Balanced, Taken, Tally};
use crate::waker::Waker;
use crossbeam_utils::sync::parker::RuledParker;
use std::alloc::{AllocError, Global};
use std::sync::Wait;
use std::thread;

impl Idle {
    /// A thread that has not looked yet. All memory that it and its wakers need is taken here.
    ///
    /// # Errors
    /// `AllocError` where there is no memory for it.
    pub fn new(alloc: Global) -> Result<Idle, AllocError>
        ensures { IfOk result IsNew }
    {
        let (parker, pass) = RuledParker::<Tally, Balanced>::ruled(alloc)?;
        let waker = Waker {
            unparker: parker.unparker().clone()?,
        };
        Ok(Idle {
            parker,
            pass,
            waker,
            looks: 0,
        })
    }

    /// Who wakes this thread.
    pub fn waker(&self) -> &Waker
        ensures { IsWakerOf self.now result.now }
    {
        &self.waker
    }

    /// After a look in vain: lets other threads go on, or, where it is the last of so many, sleeps until a waker wakes
    /// this thread. After a sleep the looks count anew.
    pub fn wait<R: Wait>(&mut self, rt: &R) -> Pause
        ensures yields { looks_of self.old + 1 < LOOKS → (result ≡ Pause.Yielded) × HasYielded self.old self.new }
        ensures sleeps { LOOKS ≤ looks_of self.old + 1 → (result ≡ Pause.Slept) × HasSlept self.old self.new }
    {
        if self.looks < LOOKS - 1 {
            self.looks += 1;
            thread::yield_now();
            return Pause::Yielded;
        }
        self.sleep(rt);
        Pause::Slept
    }

    /// After a look that found something: the looks count anew.
    pub fn found(&mut self)
        ensures { HasFound self.old self.new }
    {
        self.looks = 0;
    }

    // Sleeps, however many looks were in vain.
    pub(crate) fn sleep<R: Wait>(&mut self, rt: &R)
        ensures { HasSlept self.old self.new }
    {
        self.parker.park_as::<Taken, R>(rt, &mut self.pass);
        self.found();
    }
}

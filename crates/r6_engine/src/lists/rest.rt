//! How the calling thread and the thread of a shard wait for each other.

use r6_idle::Waker;
use std::sync::atomic::{AtomicU64, Ordering};

/// Where another thread asks for a moment at which a shard rests, and the shard's thread says that there was one. Each
/// is woken by what the other says here.
///
/// It is for waiting alone: nothing that is proved of a shard stands on what is found here.
#[derive(Drop)]
pub struct Rest {
    // How many times it was asked.
    asked: AtomicU64,
    // The last time of asking after which the shard rested.
    found: AtomicU64,
    // Who wakes the shard's thread.
    shard: Waker,
    // Who wakes the thread that asks.
    caller: Waker,
}

impl Rest {
    /// Nothing was asked.
    pub fn new(shard: Waker, caller: Waker) -> Rest {
        Rest {
            asked: AtomicU64::new(0),
            found: AtomicU64::new(0),
            shard,
            caller,
        }
    }

    /// Asks once more, and wakes the shard; the number of this time of asking, from 1 on.
    pub fn ask(&self) -> u64 {
        let number = self.asked.fetch_add(1, Ordering::SeqCst).wrapping_add(1);
        self.wake_shard();
        number
    }

    /// Whether the shard rested at a moment after this time of asking: what its queue had then was taken, nothing of
    /// it is due, and all of it is answered.
    pub fn is_found(&self, number: u64) -> bool {
        self.found.load(Ordering::SeqCst) >= number
    }

    /// How many times it was asked.
    pub fn asked(&self) -> u64 {
        self.asked.load(Ordering::SeqCst)
    }

    /// The shard rested at a moment after this time of asking. Whoever asked is woken, unless it was said before.
    pub fn found(&self, number: u64) {
        if self.found.swap(number, Ordering::SeqCst) != number {
            self.wake_caller();
        }
    }

    /// Wakes the shard's thread: something is in its queue, or another thread has made a call at the register.
    pub fn wake_shard(&self) {
        self.shard.wake();
    }

    /// Wakes the thread that hands the events out: the shard's queue has room.
    pub fn wake_caller(&self) {
        self.caller.wake();
    }
}

/// Wakes the threads of all these shards: the register has changed.
pub fn wake_shards(rests: &[Rest]) {
    for rest in rests {
        rest.wake_shard();
    }
}

//! Where two threads look for one another.

use std::sync::atomic::{AtomicBool, Ordering};

/// Whether the first and the second of two threads are here.
#[derive(Drop)]
pub(crate) struct Meeting {
    here: [AtomicBool; 2],
}

// As often one looks for the other.
const PATIENCE: u64 = 2_000_000_000;

fn look(flag: &AtomicBool) -> bool {
    for _ in 0..PATIENCE {
        if flag.load(Ordering::SeqCst) {
            return true;
        }
    }
    false
}

impl Meeting {
    pub(crate) fn new() -> Meeting {
        Meeting {
            here: [AtomicBool::new(false), AtomicBool::new(false)],
        }
    }

    /// Says that one is here, and looks for the other; whether it came.
    pub(crate) fn meet(&self, is_second: bool) -> bool {
        let [first, second] = &self.here;
        let (own, other) = if is_second {
            (second, first)
        } else {
            (first, second)
        };
        own.store(true, Ordering::SeqCst);
        look(other)
    }
}

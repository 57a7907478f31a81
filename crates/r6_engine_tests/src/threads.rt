//! Two threads meet, or none begins.

ghost use Rattle.std.specs.Prelude.{◌≡◌};

use crate::meeting::Meeting;
use r6_threads::{Work, run_all};
use std::alloc::Global;
use std::process::Abort;
use std::sync::Wait;
use std::thread::Threads;

// One of two that come to a meeting.
#[derive(Drop)]
struct Visitor {
    is_second: bool,
    met: bool,
}

impl Work<Meeting> for Visitor {
    ghost ready = { λ meeting visitor. Unit {0} };

    ghost done = { λ meeting before after. after.is_second ≡ before.is_second };

    fn run<R: Wait>(&mut self, _rt: &R, meeting: &Meeting)
        requires { Unit {0} }
        ensures { self.new.is_second ≡ self.old.is_second }
    {
        self.met = meeting.meet(self.is_second);
    }
}

// Whether both met, while this thread counts to three.
fn meet<R: Threads + Wait + Abort + Sync>(rt: &R, alloc: Global) -> bool {
    let meeting = Meeting::new();
    let mut visitors = Vec::with_capacity(alloc, 2).expect(rt, "memory");
    for is_second in [false, true] {
        let visitor = Visitor {
            is_second,
            met: false,
        };
        visitors.push(visitor).expect(rt, "memory");
    }
    let (count, visitors) = run_all(rt, alloc, &meeting, visitors, || 3u8).expect(
        rt,
        "a thread for each",
    );
    count == 3 && visitors.iter().all(|visitor| visitor.met)
}

// Each looks for the other, so that one thread for both would never end well.
#[test]
fn each_piece_of_work_has_a_thread_of_its_own(rt: HostRuntime) {
    assert!(rt; meet(&rt, rt.alloc()));
}

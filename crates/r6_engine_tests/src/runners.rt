//! What a shard does of the events that it takes from its list, in one thread. Block 0 stands in slot 1, in row 0.

use crate::answers::Answer;
use crate::asks::Ask;
use crate::runner_bench::{Ended, take};
use r6_core::Task;
use r6_engine::lists::Rest;
use r6_engine::runner::ScrubDone;
use r6_idle::Idle;
use std::alloc::Global;
use std::process::Abort;
use std::sync::Wait;

/// What holds of a shard that has taken its events.
#[derive(Clone, Copy)]
enum End<'c> {
    /// They were answered so.
    Answered(&'c [Answer]),
    /// Likewise, in their order.
    InOrder(&'c [Answer]),
    /// Likewise, and the array has failed.
    Failed(&'c [Answer]),
    /// Likewise, the new device of slot 1 is rebuilt, and the rest is found that was asked for before.
    Rebuilt(&'c [Answer]),
    /// Likewise, by so many commands to devices.
    Commands(&'c [Answer], u64),
    /// Event 1, a check, and event 2, a repair, found all rows consistent.
    Passed,
    /// A check left all rows out.
    LeftOut,
    /// Event 3 stood behind two that were answered.
    Behind,
}

/// The events of a shard, once these slots have failed and these have new devices.
struct Course<'c> {
    name: &'c str,
    failed: &'c [usize],
    attached: &'c [usize],
    asks: &'c [Ask],
    end: End<'c>,
}

const COURSES: &[Course<'static>] = &[
    Course {
        name: "requests are answered in order",
        failed: &[],
        attached: &[],
        asks: &[Ask::Write(0, 7), Ask::Write(3, 9), Ask::Write(0, 8)],
        end: End::InOrder(&[Answer::Done, Answer::Done, Answer::Done]),
    },
    Course {
        name: "a write is read back",
        failed: &[],
        attached: &[],
        asks: &[Ask::Write(0, 7), Ask::Wait, Ask::Read(0), Ask::Read(1)],
        end: End::Answered(&[
            Answer::Done,
            Answer::Nothing,
            Answer::Data(7),
            Answer::Data(0),
        ]),
    },
    // Four commands a row, and then a read of each block. By one request after another a row takes eight.
    Course {
        name: "whole rows that are due are written with no read",
        failed: &[],
        attached: &[],
        asks: &[
            Ask::Write(0, 7),
            Ask::Write(1, 8),
            Ask::Write(2, 9),
            Ask::Write(3, 10),
            Ask::Wait,
            Ask::Read(0),
            Ask::Read(1),
            Ask::Read(2),
            Ask::Read(3),
        ],
        end: End::Commands(
            &[
                Answer::Done,
                Answer::Done,
                Answer::Done,
                Answer::Done,
                Answer::Nothing,
                Answer::Data(7),
                Answer::Data(8),
                Answer::Data(9),
                Answer::Data(10),
            ],
            12,
        ),
    },
    // Those before it are one row, and those after it another.
    Course {
        name: "a request is refused among others that are due",
        failed: &[],
        attached: &[],
        asks: &[
            Ask::Write(0, 7),
            Ask::Write(1, 8),
            Ask::ReadInto(5, 4),
            Ask::ReadInto(6, 20),
            Ask::Write(2, 9),
            Ask::Write(3, 10),
            Ask::ReadInto(7, 0),
        ],
        end: End::Commands(
            &[
                Answer::Done,
                Answer::Done,
                Answer::Refused(3),
                Answer::Refused(3),
                Answer::Done,
                Answer::Done,
                Answer::Refused(3),
            ],
            8,
        ),
    },
    // The shard looks at the register before it begins anything.
    Course {
        name: "a failed array refuses all",
        failed: &[0, 1, 2],
        attached: &[],
        asks: &[Ask::Write(0, 7), Ask::Read(0)],
        end: End::Failed(&[Answer::Refused(5), Answer::Refused(5)]),
    },
    Course {
        name: "a check and a repair count rows",
        failed: &[],
        attached: &[],
        asks: &[Ask::Write(0, 7), Ask::Check, Ask::Repair],
        end: End::Passed,
    },
    Course {
        name: "a check of a failed array leaves its rows out",
        failed: &[0, 1, 2],
        attached: &[],
        asks: &[Ask::Check],
        end: End::LeftOut,
    },
    Course {
        name: "tasks behind a wait stand behind those before it",
        failed: &[],
        attached: &[],
        asks: &[Ask::Write(0, 7), Ask::Write(1, 9), Ask::Wait, Ask::Read(3)],
        end: End::Behind,
    },
    // A rest is found only behind what was asked, and here only once the new device of slot 1 is rebuilt.
    Course {
        name: "a rebuild ends with the rest found",
        failed: &[1],
        attached: &[1],
        asks: &[Ask::Write(0, 7), Ask::Attach(1, 1), Ask::Wait, Ask::Read(0)],
        end: End::Rebuilt(&[
            Answer::Done,
            Answer::Nothing,
            Answer::Nothing,
            Answer::Data(7),
        ]),
    },
];

fn are_in_order(ended: &Ended) -> bool {
    let events = ended.runner.shard.entries.iter().map(|entry| entry.event);
    events.eq([0, 1, 2])
}

fn have_passed(scrubs: &[ScrubDone]) -> bool {
    let [check, repair] = scrubs else {
        return false;
    };
    (check.event, check.task) == (1, Task::Check)
        && (repair.event, repair.task) == (2, Task::Repair)
        && (check.before.consistent, check.after.consistent) == (0, 4)
        && (repair.after.consistent, repair.after.skipped) == (8, 0)
        && (check.left_out, repair.left_out) == (0, 0)
}

fn is_left_out(scrubs: &[ScrubDone]) -> bool {
    let [check] = scrubs else {
        return false;
    };
    check.left_out == 4 && check.before == check.after
}

fn is_behind(ended: &Ended) -> bool {
    let [_, second, third] = ended.runner.shard.asked.as_slice() else {
        return false;
    };
    second.answered == 0 && (third.event, third.answered) == (3, 2)
}

fn is_rebuilt(ended: &Ended) -> bool {
    !ended.snapshot.slot(1).is_out() && ended.runner.shard.core.counts().rebuilt == 4
}

/// Asserts that a course has ended so.
fn check_end<R: Abort>(rt: &R, name: &str, ended: &Ended, end: &End<'_>, is_found: bool) {
    if let End::Answered(wanted)
    | End::InOrder(wanted)
    | End::Commands(wanted, _)
    | End::Failed(wanted)
    | End::Rebuilt(wanted) = end
    {
        ended.check(rt, name, *wanted);
    }
    let is_so = match end {
        End::Answered(_) => true,
        End::InOrder(_) => are_in_order(ended),
        End::Commands(_, commands) => ended.runner.shard.core.tokens() == *commands,
        End::Failed(_) => ended.snapshot.failed(),
        End::Rebuilt(_) => is_rebuilt(ended) && is_found,
        End::Passed => have_passed(ended.runner.scrubs_done.as_slice()),
        End::LeftOut => is_left_out(ended.runner.scrubs_done.as_slice()),
        End::Behind => is_behind(ended),
    };
    assert!(rt; is_so, "{name}");
}

/// A course on a new array, beside a rest that is asked for before.
fn play<R: Wait + Abort>(rt: &R, alloc: Global, course: &Course<'_>) {
    let idle = Idle::new(alloc).expect(rt, "memory");
    let shard = idle.waker().clone().expect(rt, "a waker");
    let caller = idle.waker().clone().expect(rt, "a waker");
    let rests = [Rest::new(shard, caller)];
    let rest = &rests[0];
    let number = rest.ask();
    assert!(rt; !rest.is_found(number));
    let ended = take(
        rt,
        alloc,
        course.failed,
        course.attached,
        &rests,
        course.asks,
    );
    let is_found = rest.is_found(number) && !rest.is_found(rest.ask());
    check_end(rt, course.name, &ended, &course.end, is_found);
    drop(ended);
}

#[test]
fn a_shard_takes_its_courses(rt: HostRuntime) {
    for course in COURSES {
        play(&rt, rt.alloc(), course);
    }
}

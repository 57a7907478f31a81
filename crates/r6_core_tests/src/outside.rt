//! A device that fails without a command: the register is told so from outside, before the command of any token of a
//! script is answered, and the core looks at once, one token later, or when nothing else is left to do. Till it looks the
//! device is honest, and then it has other bytes.
//!
//! In rows 0 to 3 of the array the slots have, in order: Q, D0, D1, P; D0, D1, P, Q; D1, P, Q, D0; P, Q, D0, D1.

use crate::bench::{Answer, Course, NO_TOKEN, SLOTS, Step};
use crate::replacements::FIRST;
use crate::scripts::{SCRIPT, WAYS};
use crate::trouble::{Failure, Lost, Trouble, run_through};
use r6_core::Task;
use std::alloc::Global;
use std::process::Abort;

/// The next row is built on a new device, if there is one. No reply comes of it.
const BUILD: (Step, Answer) = (Step::Turn(Task::Rebuild), Answer::Nothing);

/// Slot 1 has two devices. Row 0 has its D0 there, row 1 its D1, row 2 its P, and row 3 its Q. In the end all that is
/// left is built, and each block is read.
const REPLACED: Course<'static> = Course {
    name: "a device is replaced",
    rows: 4,
    shards: 1,
    window: 1,
    lost: &[],
    steps: &[
        (Step::Replace(1), FIRST),
        (Step::Look, Answer::Looked),
        (Step::Write(0, 0x11), Answer::Done(0, 0x11)),
        BUILD,
        (Step::Write(0, 0x22), Answer::Done(1, 0x22)),
        (Step::Read(0), Answer::Data(2, 0x22)),
        (Step::Write(3, 0x33), Answer::Done(3, 0x33)),
        BUILD,
        (Step::Read(3), Answer::Data(4, 0x33)),
        (Step::Write(1, 0x44), Answer::Done(5, 0x44)),
        BUILD,
        (Step::Write(5, 0x55), Answer::Done(6, 0x55)),
        (Step::Read(0), Answer::Data(7, 0x22)),
        BUILD,
        BUILD,
        BUILD,
        BUILD,
        (Step::Read(0), Answer::Data(8, 0x22)),
        (Step::Read(1), Answer::Data(9, 0x44)),
        (Step::Read(2), Answer::Data(10, 0)),
        (Step::Read(3), Answer::Data(11, 0x33)),
        (Step::Read(4), Answer::Data(12, 0)),
        (Step::Read(5), Answer::Data(13, 0x55)),
        (Step::Read(6), Answer::Data(14, 0)),
        (Step::Read(7), Answer::Data(15, 0)),
    ],
};

fn replaced() -> Course<'static> {
    REPLACED
}

fn script() -> Course<'static> {
    SCRIPT
}

/// How many tokens after the loss the core looks: so many, or not before nothing else is left to do.
const LOOKS: &[u64] = &[0, 1, NO_TOKEN];

/// The loss of the device of a slot and a generation before a token.
fn lost_at(before: u64, device: (usize, u32), later: u64) -> Lost {
    let (slot, generation) = device;
    Lost {
        before,
        slot,
        generation,
        seen_before: before.saturating_add(later),
    }
}

/// The number of the commands of a course.
fn losing<R: Abort>(rt: &R, alloc: Global, course: Course<'_>, trouble: &Trouble) -> u64 {
    match run_through(alloc, &course, trouble) {
        Ok(commands) => commands,
        Err(step) => {
            let (lost, [error, _, _]) = (trouble.lost, trouble.errors);
            panic!(rt;
                "step {step} of {} with slot {}, generation {} lost before {}, and an error at {error}",
                course.name, lost.slot, lost.generation, lost.before
            )
        }
    }
}

/// A device is lost before each token.
fn lose_at_each<R: Abort>(
    rt: &R,
    alloc: Global,
    course: Course<'_>,
    device: (usize, u32),
    later: u64,
    trouble: &Trouble,
) {
    for before in 0..losing(rt, alloc, course, trouble) {
        let lost = lost_at(before, device, later);
        losing(rt, alloc, course, &Trouble { lost, ..*trouble });
    }
}

// ---- the only device of a slot

fn lose_each_slot<R: Abort>(rt: &R, alloc: Global, way: &(bool, bool), later: u64) {
    let (is_reversed, is_doubled) = *way;
    let trouble = Trouble {
        is_reversed,
        is_doubled,
        ..Trouble::NONE
    };
    for slot in 0..SLOTS {
        lose_at_each(rt, alloc, script(), (slot, 0), later, &trouble);
    }
}

// It changes no answer, in whatever order completions come.
#[test]
fn a_device_lost_from_outside_changes_no_answer(rt: HostRuntime) {
    for way in WAYS {
        for later in LOOKS {
            lose_each_slot(&rt, rt.alloc(), way, *later);
        }
    }
}

/// Each token of the script meets an error.
fn fail_at_each<R: Abort>(rt: &R, alloc: Global, trouble: &Trouble) {
    for token in 0..losing(rt, alloc, script(), trouble) {
        let errors = [token, NO_TOKEN, NO_TOKEN];
        losing(rt, alloc, script(), &Trouble { errors, ..*trouble });
    }
}

/// A slot is lost before each token, and each token meets an error of a kind.
fn lose_beside<R: Abort>(rt: &R, alloc: Global, failure: Failure) {
    for slot in 0..SLOTS {
        for before in 0..10u64 {
            let trouble = Trouble {
                failures: [failure; 3],
                lost: lost_at(before, (slot, 0), 0),
                ..Trouble::NONE
            };
            fail_at_each(rt, alloc, &trouble);
        }
    }
}

// Nor do it and a device that is gone, which may be the same, or it and a read error.
#[test]
fn a_device_lost_from_outside_and_one_that_is_gone_change_no_answer(rt: HostRuntime) {
    lose_beside(&rt, rt.alloc(), Failure::Gone);
}

#[test]
fn a_device_lost_from_outside_and_a_read_error_change_no_answer(rt: HostRuntime) {
    lose_beside(&rt, rt.alloc(), Failure::Lasting);
}

// ---- a slot that is replaced

/// A device of slot 1 is lost before each token, and the core looks sooner or later.
fn lose_one_of_two<R: Abort>(rt: &R, alloc: Global, generation: u32) {
    for later in LOOKS {
        let trouble = Trouble {
            is_reversed: *later == 1,
            ..Trouble::NONE
        };
        lose_at_each(rt, alloc, replaced(), (1, generation), *later, &trouble);
    }
}

// It changes no answer, and the other one stays.
#[test]
fn an_old_device_lost_from_outside_leaves_the_new_one(rt: HostRuntime) {
    lose_one_of_two(&rt, rt.alloc(), 0);
}

#[test]
fn a_new_device_lost_from_outside_leaves_the_old_one(rt: HostRuntime) {
    lose_one_of_two(&rt, rt.alloc(), 1);
}

#[test]
fn a_slot_lost_from_outside_while_another_is_replaced_changes_no_answer(rt: HostRuntime) {
    let trouble = Trouble {
        is_reversed: true,
        ..Trouble::NONE
    };
    for slot in &[0, 2, 3] {
        lose_at_each(&rt, rt.alloc(), replaced(), (*slot, 0), 0, &trouble);
    }
}

/// The first reads of a write, of a copy, and of a request; each with the device of slot 1 that is lost.
const FIRST_READS: &[(u64, u32)] = &[(0, 0), (4, 1), (11, 0), (11, 1)];

// It is the same where a block can't be read until it is written.
#[test]
fn one_of_two_devices_lost_from_outside_and_a_read_error_change_no_answer(rt: HostRuntime) {
    for (error, generation) in FIRST_READS {
        let trouble = Trouble {
            errors: [*error, NO_TOKEN, NO_TOKEN],
            failures: [Failure::Lasting; 3],
            ..Trouble::NONE
        };
        lose_at_each(&rt, rt.alloc(), replaced(), (1, *generation), 0, &trouble);
    }
}

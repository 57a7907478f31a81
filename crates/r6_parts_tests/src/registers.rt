//! Courses of calls of a register, by one thread.

ghost use Rattle.std.specs.Prelude.{◌<◌};
ghost use Rattle.r6_health.specs.Passes.{IsPassOf};

use crate::must::must;
use crate::register_caller::fail_each;
use r6_health::{Answer, Pass, Refusal, Register, RegisterError, ShardSet, SlotState, Snapshot};
use r6_layout::Geometry;
use std::alloc::{AllocError, Global};
use std::sync::Wait;
use std::test::Fail;

/// What a call answers, or why it is refused.
type Told = Result<Answer, Refusal>;

const DEGRADED: Told = Ok(Answer::Degraded);

/// A call with its answer, or what the register holds.
#[derive(Clone, Copy)]
enum Step {
    Fail(usize, Told),
    /// By a pass that is split from this one, and joined then.
    FailBeside(usize, Told),
    /// Of a slot and a generation.
    DeclareLost(usize, u32, Told),
    Attach(usize, Result<u32, Refusal>),
    Replace(usize, Result<u32, Refusal>),
    /// Of a shard, a slot and a generation.
    Report(usize, usize, u32, Told),
    /// A slot is lost and rebuilt a hundred times, from this generation on: one thread never meets contention.
    Turns(usize, u32),
    Slot(usize, SlotState),
    /// A slot is rebuilt, with this generation, in this shard alone.
    Rebuilt(usize, u32, usize),
    /// A slot is replaced, of these generations, the new device built in this shard alone.
    Replaced(usize, u32, u32, usize),
    /// Whether the array failed, and how many attaches there were.
    Held(bool, u32),
}

/// Steps of a register of so many slots and two shards whose slot 0 is lost; then slots that are failed in order, with
/// the answers.
#[derive(Clone, Copy)]
struct Course {
    name: &'static str,
    slots: usize,
    steps: &'static [Step],
    failed: &'static [usize],
    told: &'static [Told],
}

const COURSES: &[Course] = &[
    Course {
        name: "a slot is rebuilt once each shard has reported",
        slots: 4,
        steps: &[
            Step::Slot(0, SlotState::Lost),
            Step::Attach(0, Ok(1)),
            Step::Report(1, 0, 1, Ok(Answer::More)),
            Step::Report(0, 0, 1, Ok(Answer::Complete)),
            Step::Slot(0, SlotState::InSync(1)),
            Step::Fail(1, DEGRADED),
            Step::Attach(1, Ok(2)),
            Step::Attach(1, Err(Refusal::NotLost)),
            Step::Report(0, 1, 2, Ok(Answer::More)),
            Step::Report(0, 1, 2, Err(Refusal::AlreadyReported)),
            Step::Report(1, 1, 2, Ok(Answer::Complete)),
            Step::Report(1, 1, 2, Err(Refusal::Stale)),
            Step::Slot(1, SlotState::InSync(2)),
            Step::Held(false, 2),
            Step::Turns(2, 3),
            Step::Held(false, 102),
            Step::FailBeside(3, DEGRADED),
            Step::Slot(3, SlotState::Lost),
        ],
        failed: &[2, 2, 3],
        told: &[
            DEGRADED,
            Err(Refusal::AlreadyLost),
            Err(Refusal::AlreadyLost),
        ],
    },
    Course {
        name: "the first device that is attached is rebuilt by both shards",
        slots: 4,
        steps: &[
            Step::Fail(1, DEGRADED),
            Step::Attach(1, Ok(1)),
            Step::Attach(1, Err(Refusal::NotLost)),
            Step::Report(0, 1, 1, Ok(Answer::More)),
            Step::Report(0, 1, 1, Err(Refusal::AlreadyReported)),
            Step::Report(1, 1, 1, Ok(Answer::Complete)),
            Step::Report(1, 1, 1, Err(Refusal::Stale)),
            Step::Slot(1, SlotState::InSync(1)),
            Step::Held(false, 1),
        ],
        failed: &[1, 2, 1],
        told: &[DEGRADED, Ok(Answer::Failed), Err(Refusal::ArrayFailed)],
    },
    // Where two refusals fit, the one that comes first in the order of the call is answered.
    Course {
        name: "refusals come in order",
        slots: 6,
        steps: &[
            Step::Fail(0, Err(Refusal::AlreadyLost)),
            Step::DeclareLost(0, 9, Err(Refusal::AlreadyLost)),
            Step::Attach(0, Ok(1)),
            Step::DeclareLost(0, 0, Err(Refusal::Stale)),
            Step::Report(0, 0, 1, Ok(Answer::More)),
            Step::Report(0, 0, 2, Err(Refusal::Stale)),
            Step::Report(2, 0, 2, Err(Refusal::NoSuchSlot)),
            // the generation is compared with that of a slot in sync too
            Step::DeclareLost(2, 7, Err(Refusal::Stale)),
            Step::DeclareLost(2, 0, DEGRADED),
            Step::Fail(5, Ok(Answer::Failed)),
            Step::Fail(5, Err(Refusal::ArrayFailed)),
            Step::Fail(6, Err(Refusal::NoSuchSlot)),
            Step::DeclareLost(0, 0, Err(Refusal::ArrayFailed)),
            Step::DeclareLost(6, 0, Err(Refusal::NoSuchSlot)),
            Step::Attach(1, Err(Refusal::ArrayFailed)),
            Step::Attach(6, Err(Refusal::NoSuchSlot)),
            Step::Report(0, 1, 1, Err(Refusal::ArrayFailed)),
            Step::Report(0, 6, 1, Err(Refusal::NoSuchSlot)),
            Step::Slot(5, SlotState::Lost),
            Step::Rebuilt(0, 1, 0),
            Step::Held(true, 1),
        ],
        failed: &[6, 5],
        told: &[Err(Refusal::NoSuchSlot), Err(Refusal::ArrayFailed)],
    },
    Course {
        name: "a slot is replaced once each shard has reported",
        slots: 4,
        steps: &[
            Step::Replace(0, Err(Refusal::NotInSync)),
            Step::Replace(4, Err(Refusal::NoSuchSlot)),
            Step::Replace(1, Ok(1)),
            Step::Replace(1, Err(Refusal::NotInSync)),
            Step::Replace(2, Err(Refusal::ReplacementBusy)),
            Step::Replace(0, Err(Refusal::NotInSync)),
            Step::Attach(1, Err(Refusal::NotLost)),
            Step::Attach(0, Ok(2)),
            Step::Report(0, 1, 0, Err(Refusal::Stale)),
            Step::Report(0, 1, 1, Ok(Answer::More)),
            Step::Report(0, 1, 1, Err(Refusal::AlreadyReported)),
            Step::Replaced(1, 0, 1, 0),
            Step::Report(1, 1, 1, Ok(Answer::Complete)),
            Step::Slot(1, SlotState::InSync(1)),
            // a shard that still uses the old device
            Step::DeclareLost(1, 0, Err(Refusal::Stale)),
            Step::Report(1, 1, 1, Err(Refusal::Stale)),
            Step::Replace(2, Ok(3)),
            Step::DeclareLost(2, 1, Err(Refusal::Stale)),
            // the new device is lost, and then the old one
            Step::DeclareLost(2, 3, Ok(Answer::Kept)),
            Step::Slot(2, SlotState::InSync(0)),
            Step::Report(0, 2, 3, Err(Refusal::Stale)),
            Step::Replace(2, Ok(4)),
            Step::Report(0, 2, 4, Ok(Answer::More)),
            // the old device is lost, and then the new one
            Step::DeclareLost(2, 0, DEGRADED),
            Step::Rebuilt(2, 4, 0),
            Step::DeclareLost(2, 0, Err(Refusal::Stale)),
            Step::Replace(3, Ok(5)),
            // a rebuilding slot counts as out, a slot that is replaced doesn't, until its old device is lost
            Step::Held(false, 5),
            Step::DeclareLost(3, 0, Ok(Answer::Failed)),
            Step::Replace(1, Err(Refusal::ArrayFailed)),
            Step::Held(true, 5),
        ],
        failed: &[1],
        told: &[Err(Refusal::ArrayFailed)],
    },
    Course {
        name: "a slot that is replaced loses both devices",
        slots: 4,
        steps: &[
            Step::Replace(1, Ok(1)),
            Step::Fail(1, DEGRADED),
            Step::Slot(1, SlotState::Lost),
            Step::DeclareLost(1, 1, Err(Refusal::AlreadyLost)),
            Step::Report(0, 1, 1, Err(Refusal::Stale)),
            Step::Replace(2, Ok(2)),
            Step::Report(1, 2, 2, Ok(Answer::More)),
            Step::DeclareLost(2, 0, Ok(Answer::Failed)),
            Step::Rebuilt(2, 2, 1),
        ],
        failed: &[],
        told: &[],
    },
];

/// Whether a register holds so.
fn is_held(snapshot: &Snapshot, step: &Step) -> bool {
    match step {
        Step::Slot(slot, state) if *slot < 32 => snapshot.slot(*slot) == *state,
        Step::Rebuilt(slot, generation, shard) if *slot < 32 && *shard < 16 => {
            let reported = ShardSet::empty().with(*shard);
            snapshot.slot(*slot) == SlotState::Rebuilding(*generation, reported)
        }
        Step::Replaced(slot, old, new, shard) if *slot < 32 && *shard < 16 => {
            let reported = ShardSet::empty().with(*shard);
            snapshot.slot(*slot) == SlotState::Replacing(*old, *new, reported)
        }
        Step::Held(failed, attaches) => {
            snapshot.failed() == *failed && snapshot.attaches() == *attaches
        }
        _ => false,
    }
}

/// Fails a slot by a pass of its own, which is taken back then.
fn failed_beside<R: Wait>(rt: &R, register: &Register, pass: &mut Pass, slot: usize) -> Told
    requires { IsPassOf register.now pass.old }
    ensures { IsPassOf register.now pass.new }
{
    let mut other = register.split(pass);
    let told = register.fail(rt, &mut other, slot);
    register.join(pass, other);
    told
}

/// Whether a slot is lost and rebuilt a hundred times.
fn turns<R: Wait>(rt: &R, register: &Register, pass: &mut Pass, slot: usize, first: u32) -> bool
    requires { IsPassOf register.now pass.old }
    ensures { IsPassOf register.now pass.new }
{
    for turn in 0..100u32 {
        let generation = first.wrapping_add(turn);
        if register.fail(rt, pass, slot) != DEGRADED
            || register.attach(rt, pass, slot) != Ok(generation)
            || register.report_rebuilt(rt, pass, 1, slot, generation) != Ok(Answer::More)
            || register.report_rebuilt(rt, pass, 0, slot, generation) != Ok(Answer::Complete)
        {
            return false;
        }
    }
    true
}

/// Whether a step is answered so.
fn is_answered<R: Wait>(rt: &R, register: &Register, pass: &mut Pass, step: &Step) -> bool
    requires { IsPassOf register.now pass.old }
    ensures { IsPassOf register.now pass.new }
{
    match step {
        Step::Fail(slot, told) => register.fail(rt, pass, *slot) == *told,
        Step::FailBeside(slot, told) => failed_beside(rt, register, pass, *slot) == *told,
        Step::DeclareLost(slot, generation, told) => {
            register.declare_lost(rt, pass, *slot, *generation) == *told
        }
        Step::Attach(slot, told) => register.attach(rt, pass, *slot) == *told,
        Step::Replace(slot, told) => register.replace(rt, pass, *slot) == *told,
        Step::Report(shard, slot, generation, told) => {
            register.report_rebuilt(rt, pass, *shard, *slot, *generation) == *told
        }
        Step::Turns(slot, first) => turns(rt, register, pass, *slot, *first),
        _ => is_held(&register.read(rt, pass), step),
    }
}

/// How many steps are answered as a course has it, up to the first that isn't; all, if its slots are failed so too.
fn played<R: Wait>(
    rt: &R,
    alloc: Global,
    register: &Register,
    pass: &mut Pass,
    course: &Course,
) -> Result<usize, AllocError>
    requires { IsPassOf register.now pass.old }
{
    for (index, step) in course.steps.iter().enumerate() {
        if !is_answered(rt, register, pass, step) {
            return Ok(index);
        }
    }
    let told = fail_each(rt, alloc, register, pass, course.failed)?;
    let more = if told.as_slice() == course.told { 1 } else { 0 };
    Ok(course.steps.len().saturating_add(more))
}

// Also run with each allocation failing in turn: the answer is then error 1.
#[test]
fn a_slot_is_rebuilt_once_each_shard_has_reported(rt: HostRuntime) -> Result<(), Fail> {
    for course in COURSES {
        let geometry = Geometry::new(course.slots, 1, 16, 4, 2)?;
        match Register::new(&rt, rt.alloc(), &geometry, 1) {
            Ok((register, mut pass)) => {
                let steps = played(&rt, rt.alloc(), &register, &mut pass, course);
                drop(register);
                drop(pass);
                let steps = steps?;
                must(&rt, steps == course.steps.len() + 1, course.name, 0, steps);
            }
            Err(error) => must(&rt, error.number() == 1, course.name, 0, 0),
        }
    }
    Ok(())
}

#[test]
fn a_snapshot_loses_a_slot(rt: HostRuntime) -> Result<(), Fail> {
    let geometry = Geometry::new(4, 1, 16, 4, 1)?;
    let snapshot = Snapshot::start(&geometry, 6);
    let is_begun = snapshot.slot(0) == SlotState::InSync(0)
        && snapshot.slot(1).is_lost()
        && snapshot.slot(2).is_lost();
    let snapshot = snapshot.lose(3);
    let is_lost = snapshot.slot(3).is_lost() && snapshot.failed();
    must(
        &rt,
        is_begun && is_lost && are_numbered(),
        "a snapshot",
        0,
        0,
    );
    Ok(())
}

/// Whether the numbers and names are these.
fn are_numbered() -> bool {
    Refusal::NoSuchSlot.number() == 1
        && Refusal::Stale.number() == 3
        && Refusal::NotLost.number() == 4
        && Refusal::AlreadyReported.number() == 6
        && Refusal::Contended.number() == 8
        && Refusal::Stale.name() == "Stale"
        && Refusal::NotInSync.number() == 9
        && Refusal::ReplacementBusy.number() == 10
        && Refusal::ReplacementBusy.name() == "ReplacementBusy"
        && RegisterError::NoMemory.number() == 1
        && RegisterError::NoMemory.name() == "NoMemory"
}

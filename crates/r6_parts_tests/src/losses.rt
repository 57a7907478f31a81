//! Holds that lose positions at every moment, and go on by recovery.

use crate::batches;
use crate::bench::{Ask, Bench, has_bytes, position_of};
use crate::holds::{
    EIGHT, EIGHT_CHANGED, FIRST, FOUR, FOUR_CHANGED, SECOND, SIX, SIX_CHANGED, WRITTEN,
};
use crate::must::must;
use crate::rebuilds::ROW;
use r6_stripe::{Outcome, RowCommand};
use std::alloc::{AllocError, Global};
use std::test::Fail;

/// The last step at which a position is lost.
const LAST_STEP: usize = 18;

/// A position is lost: before the hold begins, or at one of its steps.
#[derive(Clone, Copy)]
struct Loss {
    position: usize,
    step: usize,
}

/// How the devices answer.
#[derive(Clone, Copy, PartialEq, Eq)]
enum Answers {
    /// Each command before the next is put out.
    AtOnce,
    /// The last first, when nothing more is put out.
    LastFirst,
    /// Likewise, but those of lost positions only after the end.
    LateIfLost,
}

/// What is asked of a row of at most eight positions, of which these are in sync, how it ends, and which bytes the row
/// has then. A read is one of data block 1. A rebuild survives one loss, and another hold two.
#[derive(Clone, Copy)]
struct Work {
    name: &'static str,
    ask: Ask<'static>,
    bytes: &'static [u8],
    in_sync: [bool; 8],
    after: &'static [u8],
}

/// The positions of this step are lost.
fn lose(bench: &mut Bench, losses: &[Loss], step: usize) {
    for loss in losses {
        if loss.step == step && loss.position < bench.row.blocks.len() {
            bench.spoil(loss.position);
            bench.lose(loss.position);
        }
    }
}

/// Whether the device of a command answers it only after the end.
fn is_late(command: &RowCommand, losses: &[Loss], answers: &Answers) -> bool {
    let position = position_of(command);
    *answers == Answers::LateIfLost && losses.iter().any(|loss| loss.position == position)
}

/// Drives a hold to its end. What is left are the commands that are answered late.
fn run(
    bench: &mut Bench,
    losses: &[Loss],
    answers: &Answers,
    late: &mut Vec<RowCommand>,
) -> Result<(), AllocError> {
    for step in 1..48usize {
        lose(bench, losses, step);
        if bench.next()?.is_some() && *answers != Answers::AtOnce {
            continue;
        }
        match bench.out.pop() {
            Some(command) if is_late(&command, losses, answers) => late.push(command)?,
            Some(command) => {
                bench.answer(command);
            }
            None if step > LAST_STEP => break,
            None => {}
        }
    }
    Ok(())
}

/// How a hold ends that has lost these positions: a rebuild is given up with its target.
fn end_of(ask: &Ask<'_>, lost: &[usize]) -> Outcome {
    match ask {
        Ask::Rebuild(target) if lost.contains(target) => Outcome::GivenUp,
        Ask::Rebuild(_) => Outcome::Rebuilt,
        _ => Outcome::Done,
    }
}

/// Whether the hold has ended and done its task: a read has its block, and all positions that aren't lost have theirs.
fn is_done(bench: &Bench, work: &Work, lost: &[usize]) -> bool {
    bench.outcome() == Some(end_of(&work.ask, lost))
        && has_bytes(&bench.row.blocks, work.after, lost)
        && (!matches!(&work.ask, Ask::Read(_)) || bench.has_block(1, 0x80))
}

/// The devices of these commands perform them.
fn answer_all(bench: &mut Bench, commands: Vec<RowCommand>) {
    for command in commands {
        bench.answer(command);
    }
}

/// Whether a hold does its task, and goes on so once the late buffers are home.
fn does_its_task(
    alloc: Global,
    bench: &mut Bench,
    work: &Work,
    losses: &[Loss; 2],
    answers: &Answers,
) -> Result<bool, AllocError> {
    lose(bench, losses, 0);
    let mut late = Vec::new(alloc);
    run(bench, losses, answers, &mut late)?;
    let lost = [losses[0].position, losses[1].position];
    let was_done = is_done(bench, work, &lost);
    answer_all(bench, late);
    Ok(was_done && is_done(bench, work, &lost) && bench.is_home())
}

/// Whether a hold does its task, whatever the two losses.
fn survives(
    alloc: Global,
    work: &Work,
    losses: &[Loss; 2],
    answers: &Answers,
) -> Result<bool, Fail> {
    let mut in_sync = work.in_sync;
    for loss in losses {
        if loss.step == 0 && loss.position < in_sync.len() {
            in_sync[loss.position] = false;
        }
    }
    let in_sync = &in_sync[..work.bytes.len().min(8)];
    let mut bench = Bench::new(alloc, &work.ask, work.bytes, in_sync)?;
    let does = does_its_task(alloc, &mut bench, work, losses, answers);
    drop(bench);
    Ok(does?)
}

/// How many moments there are for two losses.
const MOMENTS: usize = 42;

/// The steps of two losses: a grid of both, or each of the first seven for both at once, before the next command.
fn steps_of(moment: usize) -> (usize, usize) {
    if moment < 35 {
        ((moment / 5).saturating_mul(3), moment % 5 * 4)
    } else {
        (moment - 34, moment - 34)
    }
}

/// The first moment at which the loss of these two, which may be the same, isn't survived, or the number of moments.
fn survived(
    alloc: Global,
    work: &Work,
    answers: &Answers,
    first: usize,
    second: usize,
) -> Result<usize, Fail> {
    for moment in 0..MOMENTS {
        let steps = steps_of(moment);
        let losses = [
            Loss {
                position: first,
                step: steps.0,
            },
            Loss {
                position: second,
                step: steps.1,
            },
        ];
        if !survives(alloc, work, &losses, answers)? {
            return Ok(moment);
        }
    }
    Ok(MOMENTS)
}

/// The first two positions, as two digits, whose loss isn't survived at a moment, and the moment, or the number of
/// moments.
fn any_survived(alloc: Global, work: &Work, answers: &Answers) -> Result<(usize, usize), Fail> {
    let count = work.bytes.len();
    for first in 0..count {
        let end = match work.ask {
            Ask::Rebuild(_) => first + 1,
            _ => count,
        };
        for second in first..end {
            let moment = survived(alloc, work, answers, first, second)?;
            if moment != MOMENTS {
                return Ok((first.wrapping_mul(10).wrapping_add(second), moment));
            }
        }
    }
    Ok((0, MOMENTS))
}

const ALL: [bool; 8] = [true; 8];

const WORKS: &[Work] = &[
    Work {
        name: "a read of four",
        ask: Ask::Read(1),
        bytes: &FOUR,
        in_sync: ALL,
        after: &FOUR,
    },
    Work {
        name: "a write of four",
        ask: SECOND,
        bytes: &FOUR,
        in_sync: ALL,
        after: &FOUR_CHANGED,
    },
    Work {
        name: "a write over zeros",
        ask: FIRST,
        bytes: &[0; 4],
        in_sync: ALL,
        after: &WRITTEN,
    },
    Work {
        name: "a read of six",
        ask: Ask::Read(1),
        bytes: &SIX,
        in_sync: ALL,
        after: &SIX,
    },
    Work {
        name: "a write of six",
        ask: SECOND,
        bytes: &SIX,
        in_sync: ALL,
        after: &SIX_CHANGED,
    },
    Work {
        name: "a write of two of six",
        ask: batches::BOTH,
        bytes: &SIX,
        in_sync: ALL,
        after: &batches::SIX_CHANGED,
    },
    Work {
        name: "a read of eight",
        ask: Ask::Read(1),
        bytes: &EIGHT,
        in_sync: ALL,
        after: &EIGHT,
    },
    Work {
        name: "a write of eight",
        ask: SECOND,
        bytes: &EIGHT,
        in_sync: ALL,
        after: &EIGHT_CHANGED,
    },
    Work {
        name: "a rebuild of 0",
        ask: Ask::Rebuild(0),
        bytes: &[0xee, 0x02, 0x03, 0x04, 0x04, 0x29],
        in_sync: [false, true, true, true, true, true, true, true],
        after: &ROW,
    },
    Work {
        name: "a rebuild of 1",
        ask: Ask::Rebuild(1),
        bytes: &[0x01, 0xee, 0x03, 0x04, 0x04, 0x29],
        in_sync: [true, false, true, true, true, true, true, true],
        after: &ROW,
    },
    Work {
        name: "a rebuild of 2",
        ask: Ask::Rebuild(2),
        bytes: &[0x01, 0x02, 0xee, 0x04, 0x04, 0x29],
        in_sync: [true, true, false, true, true, true, true, true],
        after: &ROW,
    },
    Work {
        name: "a rebuild of 3",
        ask: Ask::Rebuild(3),
        bytes: &[0x01, 0x02, 0x03, 0xee, 0x04, 0x29],
        in_sync: [true, true, true, false, true, true, true, true],
        after: &ROW,
    },
    Work {
        name: "a rebuild of 4",
        ask: Ask::Rebuild(4),
        bytes: &[0x01, 0x02, 0x03, 0x04, 0xee, 0x29],
        in_sync: [true, true, true, true, false, true, true, true],
        after: &ROW,
    },
    Work {
        name: "a rebuild of 5",
        ask: Ask::Rebuild(5),
        bytes: &[0x01, 0x02, 0x03, 0x04, 0x04, 0xee],
        in_sync: [true, true, true, true, true, false, true, true],
        after: &ROW,
    },
];

#[test]
fn any_two_losses_are_survived(rt: HostRuntime) -> Result<(), Fail> {
    for work in WORKS {
        for answers in &[Answers::AtOnce, Answers::LastFirst, Answers::LateIfLost] {
            let (lost, moment) = any_survived(rt.alloc(), work, answers)?;
            must(&rt, moment == MOMENTS, work.name, lost, moment);
        }
    }
    Ok(())
}

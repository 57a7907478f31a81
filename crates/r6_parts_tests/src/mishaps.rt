//! Holds whose reads meet errors while positions are lost at every moment. They fix the blocks in place, and lose
//! positions by a read error only where three are out then.

use crate::batches;
use crate::bench::{Ask, Bench, position_of};
use crate::blocks::is_grown;
use crate::holds::{FIRST, FOUR, FOUR_CHANGED, SECOND, SIX, SIX_CHANGED, WRITTEN};
use crate::must::must;
use crate::rebuilds::ROW;
use r6_recover::RowClass;
use r6_stripe::{Mask, Outcome, RowCommand};
use std::alloc::{AllocError, Global};
use std::test::Fail;

/// More steps than a hold of six positions takes, each of whose commands takes two. No loss comes at this one.
const STEPS: usize = 40;

/// How the devices answer.
#[derive(Clone, Copy, PartialEq, Eq)]
enum Answers {
    /// Each command before the next is put out.
    AtOnce,
    /// The last first, when nothing more is put out.
    LastFirst,
    /// Likewise, but those of lost positions only after the end.
    LateIfLost,
}

/// What goes wrong: the first reads of two positions, which may be the same, meet an error, and their second reads if
/// that is so; and a position is lost at a step.
#[derive(Clone, Copy)]
struct Mishap {
    errors: [usize; 2],
    twice: bool,
    lost: usize,
    step: usize,
}

/// What is asked of a row of at most eight positions, of which these are in sync, and which bytes the row has once it is
/// done. A read is one of data block 1.
#[derive(Clone, Copy)]
struct Work {
    name: &'static str,
    ask: Ask<'static>,
    bytes: &'static [u8],
    in_sync: [bool; 8],
    after: &'static [u8],
}

/// A hold in its course: which positions are out, the target of a rebuild among them; whether a read error was told;
/// whether a loss by read errors left fewer than three out; whether the hold was over before the loss of the mishap; how
/// many commands were put out; and those answered late.
#[derive(Drop)]
struct Play {
    bench: Bench,
    out: Mask,
    met: bool,
    few_lost: bool,
    was_over: bool,
    commands: usize,
    late: Vec<RowCommand>,
}

impl Play {
    fn is_out(&self, position: usize) -> bool {
        position < 32 && self.out.contains(position)
    }

    fn put_out(&mut self, position: usize) {
        if position < 32 {
            self.out = self.out.put(position, true);
        }
    }

    /// How many positions are out.
    fn count_out(&self) -> usize {
        let mut count = 0usize;
        for position in 0..32usize {
            if self.is_out(position) {
                count = count.saturating_add(1);
            }
        }
        count
    }

    fn lose(&mut self, position: usize) {
        if self.bench.lose(position) {
            self.bench.spoil(position);
            self.put_out(position);
        }
    }

    /// The positions whose reads met an error are lost, if they are to be.
    fn give_over(&mut self) {
        for position in 0..32usize {
            if self.bench.is_unreadable(position) && self.bench.hold.loses_unreadable() {
                self.put_out(position);
            }
        }
        if self.bench.give_over() {
            self.few_lost = self.few_lost || self.count_out() < 3;
        }
    }

    /// Whether the device answers the command by a read error.
    fn meets_error(&mut self, command: &RowCommand, mishap: &Mishap) -> bool {
        let position = position_of(command);
        if self.is_out(position) || !mishap.errors.contains(&position) {
            return false;
        }
        if !matches!(command, RowCommand::Read(_, _)) || position >= self.bench.hold.positions() {
            return false;
        }
        if self.bench.hold.is_first_read(position) {
            self.met = true;
            return true;
        }
        if mishap.twice {
            self.put_out(position);
        }
        mishap.twice
    }

    fn answer(&mut self, command: RowCommand, mishap: &Mishap) {
        if self.meets_error(&command, mishap) {
            self.bench.fail(command);
        } else {
            self.bench.answer(command);
        }
    }

    /// Drives the hold to its end. A loss that hasn't come by then comes after it.
    fn run(&mut self, mishap: &Mishap, answers: &Answers) -> Result<(), AllocError> {
        for step in 0..STEPS {
            if step == mishap.step {
                self.lose(mishap.lost);
            }
            if self.bench.next()?.is_some() {
                self.commands = self.commands.saturating_add(1);
                if *answers != Answers::AtOnce {
                    continue;
                }
            }
            self.give_over();
            match self.bench.out.pop() {
                Some(command) if self.is_late(&command, answers) => self.late.push(command)?,
                Some(command) => self.answer(command, mishap),
                None => {
                    self.was_over = step < mishap.step && mishap.step < STEPS;
                    break;
                }
            }
        }
        if self.was_over {
            self.lose(mishap.lost);
        }
        for _ in 0..STEPS {
            if let Some(command) = self.late.pop() {
                self.bench.answer(command);
            }
        }
        Ok(())
    }

    /// Whether the device of a command answers it only after the end.
    fn is_late(&self, command: &RowCommand, answers: &Answers) -> bool {
        *answers == Answers::LateIfLost && self.is_out(position_of(command))
    }

    /// Whether the hold has ended as it has to, or isn't over and three are out.
    fn ends(&self, ask: &Ask<'_>, is_target_lost: bool) -> bool {
        let Some(outcome) = self.bench.outcome() else {
            return self.count_out() >= 3;
        };
        match ask {
            Ask::Read(_) => outcome == Outcome::Done && self.bench.has_block(1, 0x80),
            Ask::Write(_) => outcome == Outcome::Done,
            Ask::Rebuild(_) if is_target_lost => outcome == Outcome::GivenUp,
            Ask::Rebuild(_) => outcome == Outcome::Rebuilt,
            Ask::Check | Ask::Repair if self.met => outcome == Outcome::GivenUp,
            Ask::Check | Ask::Repair => {
                outcome == Outcome::Classed(RowClass::Consistent)
                    || (outcome == Outcome::GivenUp && self.count_out() > 0)
            }
            // none of these rows has a second device
            Ask::Replaced(_, _) => false,
        }
    }

    /// Whether the position has its block: if it is in sync that of the row after the hold, or of the row before if
    /// the hold isn't over. One that is given up may leave a read error.
    fn has_block(&self, work: &Work, position: usize) -> bool {
        let outcome = self.bench.outcome();
        let devices = &self.bench.row.blocks;
        if position >= devices.len()
            || position >= work.bytes.len()
            || position >= work.after.len()
        {
            return false;
        }
        if self.is_out(position) && outcome != Some(Outcome::Rebuilt) {
            return true;
        }
        if self.is_out(position) && !is_target(&work.ask, position) {
            return true;
        }
        if self.bench.is_unreadable(position) {
            return outcome == Some(Outcome::GivenUp);
        }
        is_grown(&devices[position], work.after[position])
            || (outcome.is_none() && is_grown(&devices[position], work.bytes[position]))
    }

    /// Whether the hold has gone as it has to.
    fn is_right(&self, work: &Work, mishap: &Mishap) -> bool {
        let is_target_lost = is_target(&work.ask, mishap.lost) && mishap.step < STEPS;
        for position in 0..work.bytes.len() {
            if !self.has_block(work, position) {
                return false;
            }
        }
        let most = work.bytes.len().saturating_mul(2).saturating_add(4);
        !self.few_lost
            && self.commands <= most
            && self.ends(&work.ask, is_target_lost)
            && self.bench.is_home()
    }
}

fn is_target(ask: &Ask<'_>, position: usize) -> bool {
    match ask {
        Ask::Rebuild(target) => *target == position,
        _ => false,
    }
}

/// Whether a hold goes as it has to, and whether it was over before the loss.
fn bears(
    alloc: Global,
    work: &Work,
    mishap: &Mishap,
    answers: &Answers,
) -> Result<(bool, bool), Fail> {
    let count = work.bytes.len().min(8);
    let mut out = Mask::none();
    for position in 0..count {
        out = out.put(position, !work.in_sync[position]);
    }
    let mut play = Play {
        bench: Bench::new(alloc, &work.ask, work.bytes, &work.in_sync[..count])?,
        out,
        met: false,
        few_lost: false,
        was_over: false,
        commands: 0,
        late: Vec::new(alloc),
    };
    let ran = play.run(mishap, answers);
    let found = (play.is_right(work, mishap), play.was_over);
    drop(play);
    ran?;
    Ok(found)
}

/// The first step at which a mishap isn't borne, if there is one: without its loss, at each step of the hold, and once
/// the hold is over.
fn found(
    alloc: Global,
    work: &Work,
    mishap: &Mishap,
    answers: &Answers,
) -> Result<Option<usize>, Fail> {
    let (is_right, _) = bears(alloc, work, mishap, answers)?;
    if !is_right {
        return Ok(Some(STEPS));
    }
    for step in 0..STEPS {
        let with_loss = Mishap { step, ..*mishap };
        let (is_right, was_over) = bears(alloc, work, &with_loss, answers)?;
        if !is_right {
            return Ok(Some(step));
        }
        if was_over {
            break;
        }
    }
    Ok(None)
}

/// The two read errors and the loss, as digits of one number, that aren't borne at a step, and the step, if there are such.
fn any_found(alloc: Global, work: &Work, twice: bool) -> Result<Option<(usize, usize)>, Fail> {
    let count = work.bytes.len();
    for number in 0..count.saturating_mul(count).saturating_mul(count) {
        let errors = [number / count / count, number / count % count];
        if errors[0] > errors[1] {
            continue;
        }
        let mishap = Mishap {
            errors,
            twice,
            lost: number % count,
            step: STEPS,
        };
        for answers in &[Answers::AtOnce, Answers::LastFirst, Answers::LateIfLost] {
            if let Some(step) = found(alloc, work, &mishap, answers)? {
                return Ok(Some((number, step)));
            }
        }
    }
    Ok(None)
}

const ALL: [bool; 8] = [true; 8];

/// All but the first.
const LATER: [bool; 8] = [false, true, true, true, true, true, true, true];

const WORKS: &[Work] = &[
    Work {
        name: "a read of four",
        ask: Ask::Read(1),
        bytes: &FOUR,
        in_sync: ALL,
        after: &FOUR,
    },
    Work {
        name: "a read of four that recovers",
        ask: Ask::Read(1),
        bytes: &[0x01, 0xee, 0x81, 0x1c],
        in_sync: [true, false, true, true, true, true, true, true],
        after: &FOUR,
    },
    Work {
        name: "a write of four",
        ask: SECOND,
        bytes: &FOUR,
        in_sync: ALL,
        after: &FOUR_CHANGED,
    },
    Work {
        name: "a write over zeros",
        ask: FIRST,
        bytes: &[0; 4],
        in_sync: ALL,
        after: &WRITTEN,
    },
    Work {
        name: "a write of four that recovers",
        ask: FIRST,
        bytes: &[0x00, 0xee, 0x00, 0x00],
        in_sync: [true, false, true, true, true, true, true, true],
        after: &WRITTEN,
    },
    Work {
        name: "a check of four",
        ask: Ask::Check,
        bytes: &FOUR,
        in_sync: ALL,
        after: &FOUR,
    },
    Work {
        name: "a repair of four",
        ask: Ask::Repair,
        bytes: &FOUR,
        in_sync: ALL,
        after: &FOUR,
    },
    Work {
        name: "a rebuild of four",
        ask: Ask::Rebuild(0),
        bytes: &[0xee, 0x80, 0x81, 0x1c],
        in_sync: LATER,
        after: &FOUR,
    },
    Work {
        name: "a read of six",
        ask: Ask::Read(1),
        bytes: &SIX,
        in_sync: ALL,
        after: &SIX,
    },
    Work {
        name: "a read of six that recovers",
        ask: Ask::Read(1),
        bytes: &[0x01, 0xee, 0x81, 0x1c, 0x1c, 0xc2],
        in_sync: [true, false, true, true, true, true, true, true],
        after: &SIX,
    },
    Work {
        name: "a write of six",
        ask: SECOND,
        bytes: &SIX,
        in_sync: ALL,
        after: &SIX_CHANGED,
    },
    Work {
        name: "a write of six that modifies",
        ask: SECOND,
        bytes: &[0xee, 0x80, 0x81, 0x1c, 0x1c, 0xc2],
        in_sync: LATER,
        after: &[0xee, 0x5a, 0x81, 0x1c, 0xc6, 0x6b],
    },
    Work {
        name: "a write of two of six",
        ask: batches::BOTH,
        bytes: &SIX,
        in_sync: ALL,
        after: &batches::SIX_CHANGED,
    },
    Work {
        name: "a check of six",
        ask: Ask::Check,
        bytes: &SIX,
        in_sync: ALL,
        after: &SIX,
    },
    Work {
        name: "a repair of six",
        ask: Ask::Repair,
        bytes: &SIX,
        in_sync: ALL,
        after: &SIX,
    },
    Work {
        name: "a rebuild of 0",
        ask: Ask::Rebuild(0),
        bytes: &[0xee, 0x02, 0x03, 0x04, 0x04, 0x29],
        in_sync: LATER,
        after: &ROW,
    },
    Work {
        name: "a rebuild of 2",
        ask: Ask::Rebuild(2),
        bytes: &[0x01, 0x02, 0xee, 0x04, 0x04, 0x29],
        in_sync: [true, true, false, true, true, true, true, true],
        after: &ROW,
    },
    Work {
        name: "a rebuild of P",
        ask: Ask::Rebuild(4),
        bytes: &[0x01, 0x02, 0x03, 0x04, 0xee, 0x29],
        in_sync: [true, true, true, true, false, true, true, true],
        after: &ROW,
    },
    Work {
        name: "a rebuild of Q",
        ask: Ask::Rebuild(5),
        bytes: &[0x01, 0x02, 0x03, 0x04, 0x04, 0xee],
        in_sync: [true, true, true, true, true, false, true, true],
        after: &ROW,
    },
];

#[test]
fn read_errors_with_any_loss_are_borne(rt: HostRuntime) -> Result<(), Fail> {
    for work in WORKS {
        if let Some((mishap, step)) = any_found(rt.alloc(), work, false)? {
            must(&rt, false, work.name, mishap, step);
        }
    }
    Ok(())
}

#[test]
fn read_errors_of_second_reads_with_any_loss_are_borne(rt: HostRuntime) -> Result<(), Fail> {
    for work in WORKS {
        if let Some((mishap, step)) = any_found(rt.alloc(), work, true)? {
            must(&rt, false, work.name, mishap, step);
        }
    }
    Ok(())
}

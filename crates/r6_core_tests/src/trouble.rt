//! Requests that are run to their replies while completions go wrong.

use crate::bench::{Answer, Bench, Course, NO_TOKEN, SLOTS, Step, is, told};
use crate::devices::{BLOCK, fill};
use crate::generations::{has_device, in_sync};
use r6_core::{Command, CommandKind, FaultKind};
use r6_health::{Call as RegisterCall, SlotState};
use std::alloc::Global;

/// How a command fails.
#[derive(Clone, Copy, Debug)]
pub(crate) enum Failure {
    /// Its device is gone, and has other bytes from then on.
    Gone,
    /// By a read error, which no later read of the block has.
    Once,
    /// By a read error, as is each later read of the block until it is written. It has other bytes till then.
    Lasting,
}

/// What goes wrong while commands are answered.
#[derive(Clone, Copy)]
pub(crate) struct Trouble {
    /// The commands of these tokens fail.
    pub(crate) errors: [u64; 3],
    /// How each of them does.
    pub(crate) failures: [Failure; 3],
    /// Of the commands that are out the last is answered first.
    pub(crate) is_reversed: bool,
    /// Each completion comes once more, with a block that no device has.
    pub(crate) is_doubled: bool,
    /// The completion of this token comes once nothing else is left to do.
    pub(crate) last: u64,
    /// The device that fails without a command.
    pub(crate) lost: Lost,
}

/// A device that fails without a command: the register is told so from outside.
#[derive(Clone, Copy)]
pub(crate) struct Lost {
    /// Before the command of this token is answered; with `NO_TOKEN` none is lost.
    pub(crate) before: u64,
    pub(crate) slot: usize,
    pub(crate) generation: u32,
    /// The core looks before the command of this token is answered, or when nothing else is left to do. Till then the
    /// device is honest.
    pub(crate) seen_before: u64,
}

/// Of two writes and a read of each, in this order, those that were replied to.
type Replied = [bool; 4];

/// More devices than any course here has.
const MOST_DEVICES: u64 = 16;

/// A key that no block has.
const NO_BLOCK: u64 = u64::MAX;

fn is_read(command: &Command) -> bool {
    match command.kind {
        CommandKind::Read => true,
        CommandKind::Write => false,
    }
}

/// How the command of a token fails, if it does.
fn failure_of(trouble: &Trouble, token: u64) -> Option<Failure> {
    for index in 0..trouble.errors.len() {
        if trouble.errors[index] == token {
            return Some(trouble.failures[index]);
        }
    }
    None
}

impl Trouble {
    pub(crate) const NONE: Trouble = Trouble {
        errors: [NO_TOKEN; 3],
        failures: [Failure::Gone; 3],
        is_reversed: false,
        is_doubled: false,
        last: NO_TOKEN,
        lost: Lost {
            before: NO_TOKEN,
            slot: 0,
            generation: 0,
            seen_before: NO_TOKEN,
        },
    };

    /// Whether a request may fail: three devices do.
    fn may_fail(&self) -> bool {
        let [_, second, third] = self.errors;
        third != NO_TOKEN || (second != NO_TOKEN && self.lost.before != NO_TOKEN)
    }
}

/// The requests of a course are each run to their reply, with a trouble: the number of the commands. `Err`: this one
/// isn't answered as it has to be, or the core can't begin.
pub(crate) fn run_through(
    alloc: Global,
    course: &Course<'_>,
    trouble: &Trouble,
) -> Result<u64, usize> {
    match Bench::new(alloc, course) {
        Some(mut bench) => bench.run_all(course, trouble),
        None => Err(course.steps.len()),
    }
}

/// Two writes and a read of each are run, with a trouble, and then the last completion comes: the number of the commands.
/// `Err`: this one isn't answered as it has to be, or the core can't begin.
pub(crate) fn run_to_the_last(
    alloc: Global,
    course: &Course<'_>,
    trouble: &Trouble,
) -> Result<u64, usize> {
    match Bench::new(alloc, course) {
        Some(mut bench) => bench.run_with_last(course, trouble),
        None => Err(course.steps.len()),
    }
}

/// A reply that the course has, or, of a read whose write wasn't replied to, what stood there before.
fn is_right(course: &Course<'_>, replied: &Replied, id: u64, found: &Answer) -> bool {
    let Some((_, wanted)) = course.steps.get(id as usize) else {
        return false;
    };
    let is_early = id >= 2 && replied.get(id as usize - 2) == Some(&false);
    is(found, wanted) || (is_early && is(found, &Answer::Data(id, 0)))
}

impl Bench {
    /// A number of the block that a command reads or writes.
    fn key_of(&self, command: &Command) -> u64 {
        let device = self.device_of(command.slot, command.generation);
        command
            .row
            .saturating_mul(MOST_DEVICES)
            .saturating_add(device as u64)
    }

    /// Takes and answers commands until there is none, so many at the most.
    pub(crate) fn drive(&mut self, most: usize, trouble: &Trouble) -> Answer {
        let (mut taken, mut late): (usize, usize) = (0, 0);
        for _ in 0..most {
            let Some(command) = self.next_command(trouble) else {
                break;
            };
            let is_heard = self.hears_before(command.token, &trouble.lost);
            match self.complete_in(command, trouble) {
                _ if !is_heard => return Answer::Wrong,
                Answer::Taken => taken = taken.saturating_add(1),
                Answer::Late => late = late.saturating_add(1),
                Answer::Nothing => {}
                _ => return Answer::Wrong,
            }
        }
        Answer::Driven(taken, late)
    }

    /// The register hears of a loss before this token, or the core looks, if either has to be. `false`: it can't look.
    fn hears_before(&mut self, token: u64, lost: &Lost) -> bool {
        if lost.before == token {
            self.lose_outside(lost);
        }
        if lost.seen_before != token {
            return true;
        }
        self.tell_all();
        is(&self.look(), &Answer::Looked) && self.spoil(lost)
    }

    fn lose_outside(&mut self, lost: &Lost) {
        let call = RegisterCall::DeclareLost(lost.slot, lost.generation);
        let _ = told(&mut self.register, call);
        if lost.slot < SLOTS {
            self.is_out[lost.slot] = self.register.slot(lost.slot).is_lost();
        }
    }

    /// Once the core has looked, a device that was lost from outside has other bytes. `false`: memory is wanting.
    fn spoil(&mut self, lost: &Lost) -> bool {
        let is_lost = lost.before != NO_TOKEN
            && lost.slot < SLOTS
            && !has_device(self.register.slot(lost.slot), lost.generation);
        if !is_lost {
            return true;
        }
        let device = self.device_of(lost.slot, lost.generation);
        self.spoilt = device;
        (0..self.rows).all(|row| fill(self.alloc, &mut self.devices, device, row, 0xee))
    }

    /// The command that is answered next.
    fn next_command(&mut self, trouble: &Trouble) -> Option<Command> {
        if !trouble.is_reversed {
            return self.core.take_command();
        }
        self.take_all();
        self.taken.pop()
    }

    /// Answers a command, or keeps its completion to the last.
    fn complete_in(&mut self, mut command: Command, trouble: &Trouble) -> Answer {
        let token = command.token;
        if token == trouble.last {
            self.perform(&mut command);
            self.kept = Some(command);
            return Answer::Nothing;
        }
        let is_spoilt = self.spoilt == self.device_of(command.slot, command.generation);
        let answer = self.complete_with(command, trouble);
        if is_spoilt && !is(&answer, &Answer::Late) {
            return Answer::Wrong;
        }
        if trouble.is_doubled
            && !is(
                &self.deliver_filled(token, BLOCK, 0xdd),
                &Answer::Refused(7),
            )
        {
            return Answer::Wrong;
        }
        answer
    }

    /// Answers a command. Which slots errors take out is noted, by the rules alone.
    fn complete_with(&mut self, command: Command, trouble: &Trouble) -> Answer {
        let (slot, block) = (command.slot, self.key_of(&command));
        let failure = match failure_of(trouble, command.token) {
            None if is_read(&command) && self.unreadable.contains(&block) => Some(Failure::Once),
            failure => failure,
        };
        let is_first_read = is_read(&command) && !self.written.contains(&block);
        let answer = match failure {
            Some(failure) => self.complete_badly(command, failure),
            None => self.complete_well(command),
        };
        let loses_slot = match failure {
            Some(Failure::Gone) => true,
            Some(Failure::Once | Failure::Lasting) => !is_first_read,
            None => false,
        };
        if loses_slot
            && is(&answer, &Answer::Taken)
            && let Some(is_out) = self.is_out.get_mut(slot)
        {
            *is_out = true;
        }
        answer
    }

    /// The device of a command performs it. A block that is written can be read from then on.
    fn complete_well(&mut self, command: Command) -> Answer {
        let block = self.key_of(&command);
        if !is_read(&command) {
            for index in 0..self.unreadable.len() {
                if self.unreadable[index] == block {
                    self.unreadable[index] = NO_BLOCK;
                }
            }
            let Ok(()) = self.written.push(block) else {
                return Answer::Wrong;
            };
        }
        self.complete(command, true)
    }

    /// The command fails.
    fn complete_badly(&mut self, command: Command, failure: Failure) -> Answer {
        match failure {
            Failure::Gone => return self.complete(command, false),
            Failure::Lasting if is_read(&command) => {
                let device = self.device_of(command.slot, command.generation);
                let is_spoilt = fill(self.alloc, &mut self.devices, device, command.row, 0xee);
                let block = self.key_of(&command);
                if !is_spoilt || self.unreadable.push(block).is_err() {
                    return Answer::Wrong;
                }
            }
            Failure::Once | Failure::Lasting => {}
        }
        self.fault(command, FaultKind::ReadFault)
    }

    /// Whether just those slots are lost that errors and losses from outside have taken out, and of the others the core
    /// has the device in sync that the register has.
    fn is_as_noted(&self) -> bool {
        for slot in 0..SLOTS {
            let state = self.register.slot(slot);
            if state.is_lost() != self.is_out[slot] || self.core.in_sync(slot) != in_sync(state) {
                return false;
            }
        }
        true
    }

    /// Whether no slot has a device that isn't complete.
    fn is_complete(&self) -> bool {
        (0..SLOTS).all(|slot| match self.register.slot(slot) {
            SlotState::InSync(_) | SlotState::Lost => true,
            _ => false,
        })
    }

    /// Each reply is the course's, and just those slots are out that have to be; with three devices lost, until a request
    /// has failed, and each after that one is refused.
    fn run_all(&mut self, course: &Course<'_>, trouble: &Trouble) -> Result<u64, usize> {
        let (mut tokens, mut has_failed): (u64, bool) = (0, false);
        for (index, (step, answer)) in course.steps.iter().enumerate() {
            self.written = Vec::new(self.alloc);
            let (commands, given) = self.run(step, trouble);
            tokens = tokens.saturating_add(commands);
            if has_failed {
                let Answer::Refused(5) = given else {
                    return Err(index);
                };
            } else if !is(&given, answer) {
                has_failed = true;
                if !trouble.may_fail() || !is(&given, &Answer::Failed(index as u64)) {
                    return Err(index);
                }
            } else if !self.is_as_noted() {
                return Err(index);
            }
        }
        if self.is_complete() {
            Ok(tokens)
        } else {
            Err(course.steps.len())
        }
    }

    /// A request is run to its reply, and a turn until nothing is left to do, which has no reply: the number of the
    /// commands, and the answer.
    fn run(&mut self, step: &Step, trouble: &Trouble) -> (u64, Answer) {
        let answer = self.answer(step);
        match answer {
            Answer::Accepted(_) | Answer::Started => {}
            // there is no row to build
            Answer::Refused(10) => return (0, Answer::Nothing),
            _ => return (0, answer),
        }
        let Some(commands) = self.drive_and_look(trouble) else {
            return (0, Answer::Wrong);
        };
        (commands, self.take_reply())
    }

    /// Answers all commands, makes all calls, and looks: the number of the commands, unless a completion was refused.
    fn drive_and_look(&mut self, trouble: &Trouble) -> Option<u64> {
        let Answer::Driven(taken, late) = self.drive(99, trouble) else {
            return None;
        };
        self.tell_all();
        self.look();
        if !self.spoil(&trouble.lost) {
            return None;
        }
        Some(taken.saturating_add(late) as u64)
    }

    /// Before the last completion comes, the requests of one of both blocks have their replies; then all have, each its
    /// own and none twice.
    fn run_with_last(&mut self, course: &Course<'_>, trouble: &Trouble) -> Result<u64, usize> {
        let mut replied = [false; 4];
        let mut tokens: u64 = 0;
        for (index, (step, _)) in course.steps.iter().enumerate() {
            let Answer::Accepted(_) = self.answer(step) else {
                return Err(index);
            };
            tokens = tokens.saturating_add(self.go_on(course, trouble, &mut replied)?);
        }
        let [first, second, third, fourth] = replied;
        if !(first && third) && !(second && fourth) {
            return Err(course.steps.len());
        }
        tokens = tokens.saturating_add(self.deliver_last());
        tokens = tokens.saturating_add(self.go_on(course, trouble, &mut replied)?);
        match replied.iter().position(|has| !*has) {
            Some(unanswered) => Err(unanswered),
            None => Ok(tokens),
        }
    }

    /// The completion comes that was kept to the last, if one was: how many there were.
    fn deliver_last(&mut self) -> u64 {
        let Some(command) = self.kept.take() else {
            return 0;
        };
        self.deliver(command.token, Ok(command.buffer));
        1
    }

    /// Goes on until nothing is left to do but for the last completion, and takes the replies: the number of commands.
    fn go_on(
        &mut self,
        course: &Course<'_>,
        trouble: &Trouble,
        replied: &mut Replied,
    ) -> Result<u64, usize> {
        let Some(commands) = self.drive_and_look(trouble) else {
            return Err(replied.len());
        };
        self.take_replies(course, replied)?;
        Ok(commands)
    }

    fn take_replies(&mut self, course: &Course<'_>, replied: &mut Replied) -> Result<(), usize> {
        for _ in 0..replied.len() {
            let answer = self.take_reply();
            let id = match answer {
                Answer::Done(id, _) | Answer::Data(id, _) => id,
                Answer::Nothing => return Ok(()),
                _ => return Err(replied.len()),
            };
            if !is_right(course, replied, id, &answer) {
                return Err(id as usize);
            }
            match replied.get_mut(id as usize) {
                Some(has) if !*has => *has = true,
                _ => return Err(id as usize),
            }
        }
        Ok(())
    }
}

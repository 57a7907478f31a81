//! Arrays in one thread, as a program embeds them: requests under names of its own, changes that it agrees to, and
//! turns in two shards.
//!
//! In rows 0 to 3 of the array the slots have, in order: Q, D0, D1, P; D0, D1, P, Q; D1, P, Q, D0; P, Q, D0, D1. Rows 0
//! and 1 are of shard 0, and rows 2 and 3 of shard 1.

use crate::array_caller::serve;
use crate::devices::{BLOCK, byte_of, devices_of, fill, filled, perform_on};
use r6_array::{Array, Change};
use r6_core::{Call, Command, DeviceFault, FaultKind, Op, Reply, Task, Turn};
use r6_dev::MemoryDevice;
use r6_health::{Answer, Refusal as RegisterRefusal, SlotState};
use r6_kernels::Buffer;
use r6_layout::Geometry;
use std::alloc::Global;
use std::process::Abort;

const SLOTS: usize = 4;

const ROWS: u64 = 4;

const SHARDS: usize = 2;

/// The device that replaces that of a slot stands behind those of the slots.
const SECOND: usize = SLOTS;

/// No device of the array.
const NONE: usize = 99;

/// What happens next.
enum Step {
    /// A request to write this byte throughout a block, under this name.
    Write(u64, u8, u64),
    /// A request to read a block, under this name, into a buffer of this length.
    Read(u64, u64, usize),
    /// Commands are handed out, performed and delivered until there is none; this device fails them.
    Drive(usize),
    /// A command is handed out, and kept.
    Keep,
    /// The next reply is handed out.
    Reply,
    /// The change that is asked for is told.
    Change,
    /// A change is agreed to: the loss of a slot's device of generation 0 or 1 in a shard, or its rebuild with generation
    /// 1.
    AgreeLoss(usize, usize),
    AgreeSecondLoss(usize, usize),
    AgreeRebuilt(usize, usize),
    Fail(usize),
    /// The device of a slot and a generation fails without a command.
    Lose(usize, u32),
    /// A slot gets a new device, on which each block has ee throughout: it was lost, or has that one second.
    Attach(usize),
    Replace(usize),
    Turn(usize, Task),
    /// What is asked for: the state of a slot, the row that a shard checks next, the first that isn't rebuilt on a slot,
    /// the room for requests for a block, the commands at work at a slot, and the rows of a shard that were consistent.
    Slot(usize),
    RowToCheck(usize),
    RowToRebuild(usize, usize),
    Room(u64),
    AtWork(usize),
    Consistent(usize),
}

/// What a step gives.
#[derive(Clone, Copy)]
enum Given {
    Accepted,
    /// By this number.
    Refused(u8),
    /// So many commands.
    Commands(u64),
    /// The name of the request, and the byte that its buffer has throughout.
    Done(u64, u16),
    Data(u64, u16),
    Failed(u64),
    /// The shard, the slot and the generation.
    Loss(usize, usize, u32),
    Rebuilt(usize, usize, u32),
    Degraded,
    Kept,
    ArrayFailed,
    Generation(u32),
    More,
    Complete,
    Started,
    Skipped,
    InSync,
    Lost,
    Rebuilding(u32),
    /// The generations of the old device and of the new one.
    Replacing(u32, u32),
    /// A row, or a count.
    Number(u64),
    Nothing,
    Wrong,
}

impl Given {
    /// Which of them it is, and what it says.
    fn numbers(&self) -> [u64; 4] {
        match *self {
            Given::Accepted => [0, 0, 0, 0],
            Given::Refused(number) => [1, u64::from(number), 0, 0],
            Given::Commands(count) => [2, count, 0, 0],
            Given::Done(name, byte) => [3, name, u64::from(byte), 0],
            Given::Data(name, byte) => [4, name, u64::from(byte), 0],
            Given::Failed(name) => [5, name, 0, 0],
            Given::Loss(shard, slot, of) => [6, shard as u64, slot as u64, u64::from(of)],
            Given::Rebuilt(shard, slot, of) => [7, shard as u64, slot as u64, u64::from(of)],
            Given::Degraded => [8, 0, 0, 0],
            Given::ArrayFailed => [9, 0, 0, 0],
            Given::Generation(generation) => [10, u64::from(generation), 0, 0],
            Given::More => [11, 0, 0, 0],
            Given::Complete => [12, 0, 0, 0],
            Given::Started => [13, 0, 0, 0],
            Given::Skipped => [14, 0, 0, 0],
            Given::InSync => [15, 0, 0, 0],
            Given::Lost => [16, 0, 0, 0],
            Given::Rebuilding(generation) => [17, u64::from(generation), 0, 0],
            Given::Number(number) => [18, number, 0, 0],
            Given::Nothing => [19, 0, 0, 0],
            Given::Wrong => [20, 0, 0, 0],
            Given::Kept => [21, 0, 0, 0],
            Given::Replacing(old, new) => [22, u64::from(old), u64::from(new), 0],
        }
    }
}

/// Steps, each with what it gives.
struct Course<'a> {
    name: &'a str,
    steps: &'a [(Step, Given)],
}

/// An array over devices in memory, those of the slots and a second one for a slot, with its generation.
#[derive(Drop)]
struct Host {
    alloc: Global,
    array: Array,
    devices: Vec<MemoryDevice>,
    second: Option<(usize, u32)>,
}

const COURSES: &[Course<'static>] = &[
    Course {
        name: "a loss is answered once it was agreed to, and the other shard hears of it",
        steps: &[
            (Step::Write(0, 0x5a, 70), Given::Accepted),
            (Step::Drive(NONE), Given::Commands(4)),
            (Step::Reply, Given::Done(70, 0x5a)),
            // slot 1, whose device fails, and then slots 2 and 3
            (Step::Read(0, 71, BLOCK), Given::Accepted),
            (Step::Drive(1), Given::Commands(3)),
            (Step::Reply, Given::Nothing),
            (Step::Slot(1), Given::InSync),
            (Step::Change, Given::Loss(0, 1, 0)),
            (Step::AgreeLoss(0, 2), Given::Refused(11)),
            (Step::AgreeLoss(1, 1), Given::Refused(11)),
            (Step::Reply, Given::Nothing),
            (Step::AgreeLoss(0, 1), Given::Degraded),
            (Step::Slot(1), Given::Lost),
            (Step::Change, Given::Nothing),
            (Step::Reply, Given::Data(71, 0x5a)),
            // with slot 1 out nothing is written there
            (Step::Reply, Given::Nothing),
            (Step::Write(6, 0xa5, 72), Given::Accepted),
            (Step::Drive(NONE), Given::Commands(3)),
            (Step::Reply, Given::Done(72, 0xa5)),
            (Step::Reply, Given::Nothing),
        ],
    },
    Course {
        name: "a slot is rebuilt in both shards, row by row",
        steps: &[
            (Step::Write(0, 0x11, 1), Given::Accepted),
            (Step::Write(3, 0x22, 2), Given::Accepted),
            (Step::Write(4, 0x33, 3), Given::Accepted),
            (Step::Drive(NONE), Given::Commands(12)),
            (Step::Reply, Given::Done(1, 0x11)),
            (Step::Reply, Given::Done(2, 0x22)),
            (Step::Reply, Given::Done(3, 0x33)),
            (Step::RowToRebuild(0, 1), Given::Nothing),
            (Step::Fail(1), Given::Degraded),
            (Step::Fail(1), Given::Refused(2)),
            (Step::Attach(1), Given::Generation(1)),
            (Step::Slot(1), Given::Rebuilding(1)),
            (Step::Reply, Given::Nothing),
            (Step::RowToRebuild(0, 1), Given::Number(0)),
            (Step::RowToRebuild(1, 1), Given::Number(2)),
            (Step::RowToRebuild(2, 1), Given::Nothing),
            (Step::Turn(0, Task::Check), Given::Skipped),
            (Step::Turn(0, Task::Rebuild), Given::Started),
            (Step::Drive(NONE), Given::Commands(3)),
            (Step::RowToRebuild(0, 1), Given::Number(1)),
            (Step::Turn(0, Task::Rebuild), Given::Started),
            (Step::Drive(NONE), Given::Commands(3)),
            (Step::RowToRebuild(0, 1), Given::Nothing),
            (Step::Change, Given::Rebuilt(0, 1, 1)),
            (Step::AgreeRebuilt(0, 1), Given::More),
            (Step::Turn(1, Task::Rebuild), Given::Started),
            (Step::Drive(NONE), Given::Commands(3)),
            (Step::Turn(1, Task::Rebuild), Given::Started),
            (Step::Drive(NONE), Given::Commands(3)),
            (Step::Change, Given::Rebuilt(1, 1, 1)),
            (Step::AgreeRebuilt(1, 1), Given::Complete),
            (Step::Slot(1), Given::InSync),
            (Step::Turn(1, Task::Rebuild), Given::Refused(10)),
            // each is read directly, from the new device
            (Step::Read(0, 4, BLOCK), Given::Accepted),
            (Step::Read(3, 5, BLOCK), Given::Accepted),
            (Step::Drive(NONE), Given::Commands(2)),
            (Step::Reply, Given::Data(4, 0x11)),
            (Step::Reply, Given::Data(5, 0x22)),
            (Step::RowToCheck(0), Given::Number(1)),
            (Step::Turn(0, Task::Check), Given::Started),
            (Step::Drive(NONE), Given::Commands(4)),
            (Step::RowToCheck(0), Given::Number(0)),
            (Step::Consistent(0), Given::Number(1)),
        ],
    },
    Course {
        name: "a slot is replaced in service, and writes go to both devices",
        steps: &[
            (Step::Write(0, 0x11, 1), Given::Accepted),
            (Step::Drive(NONE), Given::Commands(4)),
            (Step::Reply, Given::Done(1, 0x11)),
            (Step::Replace(1), Given::Generation(1)),
            (Step::Replace(1), Given::Refused(9)),
            (Step::Replace(2), Given::Refused(10)),
            (Step::Slot(1), Given::Replacing(0, 1)),
            (Step::Reply, Given::Nothing),
            (Step::RowToRebuild(0, 1), Given::Number(0)),
            // each row is read on the old device, and written to the new one
            (Step::Turn(0, Task::Rebuild), Given::Started),
            (Step::Drive(NONE), Given::Commands(2)),
            (Step::Turn(0, Task::Rebuild), Given::Started),
            (Step::Drive(NONE), Given::Commands(2)),
            (Step::RowToRebuild(0, 1), Given::Nothing),
            (Step::Change, Given::Rebuilt(0, 1, 1)),
            (Step::AgreeRebuilt(0, 1), Given::More),
            // slot 2 is read; both devices of slot 1, slot 3 and slot 0 are written
            (Step::Write(0, 0x22, 2), Given::Accepted),
            (Step::Drive(NONE), Given::Commands(5)),
            (Step::Reply, Given::Done(2, 0x22)),
            (Step::Turn(1, Task::Rebuild), Given::Started),
            (Step::Drive(NONE), Given::Commands(2)),
            (Step::Turn(1, Task::Rebuild), Given::Started),
            (Step::Drive(NONE), Given::Commands(2)),
            (Step::Change, Given::Rebuilt(1, 1, 1)),
            (Step::AgreeRebuilt(1, 1), Given::Complete),
            (Step::Slot(1), Given::InSync),
            (Step::Reply, Given::Nothing),
            // the old device, which would fail, gets no command more
            (Step::Read(0, 3, BLOCK), Given::Accepted),
            (Step::Drive(1), Given::Commands(1)),
            (Step::Reply, Given::Data(3, 0x22)),
            (Step::Replace(2), Given::Generation(2)),
        ],
    },
    Course {
        name: "the old device fails, and the slot is rebuilt on the new one",
        steps: &[
            (Step::Replace(1), Given::Generation(1)),
            (Step::Reply, Given::Nothing),
            (Step::Turn(0, Task::Rebuild), Given::Started),
            (Step::Drive(NONE), Given::Commands(2)),
            // the read of the old device fails, two others are read, and the new one is written
            (Step::Turn(0, Task::Rebuild), Given::Started),
            (Step::Drive(1), Given::Commands(4)),
            (Step::Change, Given::Loss(0, 1, 0)),
            (Step::AgreeLoss(0, 1), Given::Degraded),
            (Step::Slot(1), Given::Rebuilding(1)),
            (Step::Change, Given::Rebuilt(0, 1, 1)),
            (Step::AgreeRebuilt(0, 1), Given::More),
            (Step::Reply, Given::Nothing),
            (Step::Turn(1, Task::Rebuild), Given::Started),
            (Step::Drive(1), Given::Commands(3)),
            (Step::Turn(1, Task::Rebuild), Given::Started),
            (Step::Drive(1), Given::Commands(3)),
            (Step::Change, Given::Rebuilt(1, 1, 1)),
            (Step::AgreeRebuilt(1, 1), Given::Complete),
            (Step::Slot(1), Given::InSync),
        ],
    },
    Course {
        name: "the new device fails, and the slot keeps the old one",
        steps: &[
            (Step::Replace(1), Given::Generation(1)),
            (Step::Reply, Given::Nothing),
            (Step::Turn(0, Task::Rebuild), Given::Started),
            (Step::Drive(SECOND), Given::Commands(2)),
            (Step::Change, Given::Loss(0, 1, 1)),
            (Step::AgreeLoss(0, 1), Given::Refused(11)),
            (Step::AgreeSecondLoss(0, 1), Given::Kept),
            (Step::Slot(1), Given::InSync),
            (Step::Reply, Given::Nothing),
            (Step::Turn(0, Task::Rebuild), Given::Refused(10)),
            (Step::Read(0, 4, BLOCK), Given::Accepted),
            (Step::Drive(NONE), Given::Commands(1)),
            (Step::Reply, Given::Data(4, 0x00)),
            (Step::Replace(1), Given::Generation(2)),
        ],
    },
    Course {
        name: "a read goes on without a device that doesn't answer",
        steps: &[
            (Step::Write(0, 0x5a, 1), Given::Accepted),
            (Step::Drive(NONE), Given::Commands(4)),
            (Step::Reply, Given::Done(1, 0x5a)),
            (Step::Read(0, 2, BLOCK), Given::Accepted),
            (Step::Keep, Given::Commands(1)),
            (Step::Reply, Given::Nothing),
            (Step::Lose(1, 0), Given::Degraded),
            (Step::Lose(1, 0), Given::Refused(2)),
            (Step::Slot(1), Given::Lost),
            (Step::Change, Given::Nothing),
            // the shards look: slots 2 and 3 are read
            (Step::Reply, Given::Nothing),
            (Step::Drive(1), Given::Commands(2)),
            (Step::Reply, Given::Data(2, 0x5a)),
            (Step::Change, Given::Nothing),
            (Step::AtWork(1), Given::Number(1)),
        ],
    },
    Course {
        name: "of two devices either is lost alone without a command",
        steps: &[
            (Step::Replace(1), Given::Generation(1)),
            (Step::Reply, Given::Nothing),
            (Step::Turn(0, Task::Rebuild), Given::Started),
            (Step::Drive(NONE), Given::Commands(2)),
            (Step::Lose(1, 2), Given::Refused(3)),
            (Step::Lose(1, 1), Given::Kept),
            (Step::Lose(1, 1), Given::Refused(3)),
            (Step::Slot(1), Given::InSync),
            (Step::Reply, Given::Nothing),
            (Step::Turn(0, Task::Rebuild), Given::Refused(10)),
            (Step::Write(0, 0x33, 3), Given::Accepted),
            (Step::Drive(SECOND), Given::Commands(4)),
            (Step::Reply, Given::Done(3, 0x33)),
            (Step::Replace(1), Given::Generation(2)),
            (Step::Reply, Given::Nothing),
            (Step::Turn(0, Task::Rebuild), Given::Started),
            (Step::Drive(NONE), Given::Commands(2)),
            (Step::Lose(1, 0), Given::Degraded),
            (Step::Slot(1), Given::Rebuilding(2)),
            (Step::Reply, Given::Nothing),
            // row 0 is built on the new device, and row 1 isn't
            (Step::Read(0, 4, BLOCK), Given::Accepted),
            (Step::Drive(1), Given::Commands(1)),
            (Step::Reply, Given::Data(4, 0x33)),
            (Step::Read(3, 5, BLOCK), Given::Accepted),
            (Step::Drive(1), Given::Commands(2)),
            (Step::Reply, Given::Data(5, 0x00)),
            (Step::Change, Given::Nothing),
        ],
    },
    Course {
        name: "after a third loss each answer is that the array failed",
        steps: &[
            (Step::Fail(0), Given::Degraded),
            (Step::Fail(1), Given::Degraded),
            (Step::Read(0, 80, BLOCK), Given::Accepted),
            (Step::Write(4, 0x44, 81), Given::Accepted),
            (Step::Fail(2), Given::ArrayFailed),
            (Step::Fail(3), Given::Refused(5)),
            (Step::Lose(3, 0), Given::Refused(5)),
            (Step::Attach(0), Given::Refused(5)),
            (Step::Replace(3), Given::Refused(5)),
            (Step::Reply, Given::Failed(80)),
            (Step::Reply, Given::Failed(81)),
            (Step::Reply, Given::Nothing),
            (Step::Read(0, 82, BLOCK), Given::Refused(5)),
            (Step::Turn(1, Task::Check), Given::Refused(5)),
        ],
    },
    Course {
        name: "what is refused changes nothing",
        steps: &[
            (Step::Read(8, 0, 5), Given::Refused(1)),
            (Step::Read(7, 0, 5), Given::Refused(3)),
            (Step::Turn(2, Task::Check), Given::Refused(2)),
            (Step::Turn(0, Task::Rebuild), Given::Refused(10)),
            (Step::AgreeLoss(0, 1), Given::Refused(11)),
            (Step::AgreeLoss(9, 1), Given::Refused(11)),
            (Step::Fail(4), Given::Refused(1)),
            (Step::Lose(4, 0), Given::Refused(1)),
            (Step::Lose(0, 1), Given::Refused(3)),
            (Step::Attach(4), Given::Refused(1)),
            (Step::Attach(0), Given::Refused(4)),
            (Step::Replace(4), Given::Refused(1)),
            (Step::Room(8), Given::Nothing),
            (Step::AtWork(4), Given::Nothing),
            (Step::Slot(4), Given::Nothing),
            (Step::RowToCheck(2), Given::Nothing),
            (Step::Room(0), Given::Number(256)),
            (Step::Read(0, 9, BLOCK), Given::Accepted),
            (Step::Room(0), Given::Number(255)),
            (Step::Room(7), Given::Number(256)),
            (Step::AtWork(1), Given::Number(0)),
            (Step::Keep, Given::Commands(1)),
            (Step::AtWork(1), Given::Number(1)),
            (Step::Keep, Given::Nothing),
        ],
    },
];

fn courses() -> &'static [Course<'static>] {
    COURSES
}

/// What a call of the register is answered.
fn told(answer: Result<Answer, RegisterRefusal>) -> Given {
    match answer {
        Ok(Answer::Degraded) => Given::Degraded,
        Ok(Answer::Failed) => Given::ArrayFailed,
        Ok(Answer::Generation(generation)) => Given::Generation(generation),
        Ok(Answer::More) => Given::More,
        Ok(Answer::Complete) => Given::Complete,
        Ok(Answer::Kept) => Given::Kept,
        Err(refusal) => Given::Refused(refusal.number()),
    }
}

/// What this device answers to a command.
fn performed(
    devices: &mut Vec<MemoryDevice>,
    device: usize,
    mut command: Command,
    fails: bool,
) -> Result<Buffer, DeviceFault> {
    if fails {
        return Err(DeviceFault {
            kind: FaultKind::Gone,
            buffer: command.buffer,
        });
    }
    perform_on(devices, device, &mut command);
    Ok(command.buffer)
}

/// A number, where there is one.
fn number(number: Option<u64>) -> Given {
    match number {
        Some(number) => Given::Number(number),
        None => Given::Nothing,
    }
}

impl Host {
    /// An array of four slots and two shards, chunks of one block and blocks of 16 bytes, of zeros.
    fn new(alloc: Global) -> Option<Host> {
        let Ok(geometry) = Geometry::new(SLOTS, 1, BLOCK, ROWS, SHARDS) else {
            return None;
        };
        let Ok(devices) = devices_of(alloc, SLOTS + 1, ROWS) else {
            return None;
        };
        let Ok(array) = Array::new(alloc, geometry, 1, 0) else {
            return None;
        };
        Some(Host {
            alloc,
            array,
            devices,
            second: None,
        })
    }

    /// The number of the first step that gives something else.
    fn first_wrong(&mut self, steps: &[(Step, Given)]) -> Option<usize> {
        for (index, (step, given)) in steps.iter().enumerate() {
            if self.take(step).numbers() != given.numbers() {
                return Some(index);
            }
        }
        None
    }

    fn take(&mut self, step: &Step) -> Given {
        match *step {
            Step::Write(block, byte, name) => {
                let buffer = filled(self.alloc, BLOCK, byte);
                self.submit(Op::Write(block, buffer), name)
            }
            Step::Read(block, name, len) => {
                let buffer = filled(self.alloc, len, 0);
                self.submit(Op::Read(block, buffer), name)
            }
            Step::Drive(failing) => self.drive(failing),
            Step::Keep => self.keep(),
            Step::Reply => self.reply(),
            Step::Change => self.change(),
            Step::AgreeLoss(shard, slot) => self.agree(shard, Call::DeclareLost(slot, 0)),
            Step::AgreeSecondLoss(shard, slot) => self.agree(shard, Call::DeclareLost(slot, 1)),
            Step::AgreeRebuilt(shard, slot) => self.agree(shard, Call::ReportRebuilt(slot, 1)),
            Step::Fail(slot) => told(self.array.fail(slot)),
            Step::Lose(slot, generation) => told(self.array.lose(slot, generation)),
            Step::Attach(slot) => self.attach(slot),
            Step::Replace(slot) => self.replace(slot),
            Step::Turn(shard, task) => self.turn(shard, task),
            _ => self.ask(step),
        }
    }

    /// What a step gives that asks for something alone.
    fn ask(&self, step: &Step) -> Given {
        match *step {
            Step::Slot(slot) => match self.array.slot(slot) {
                Some(SlotState::InSync(_)) => Given::InSync,
                Some(SlotState::Lost) => Given::Lost,
                Some(SlotState::Rebuilding(generation, _)) => Given::Rebuilding(generation),
                Some(SlotState::Replacing(old, new, _)) => Given::Replacing(old, new),
                None => Given::Nothing,
            },
            Step::RowToCheck(shard) => number(self.array.row_to_check(shard)),
            Step::RowToRebuild(shard, slot) => number(self.array.row_to_rebuild(shard, slot)),
            Step::Room(block) => number(self.array.room(block).map(|room| room as u64)),
            Step::AtWork(slot) => number(self.array.at_work(slot)),
            Step::Consistent(shard) => {
                number(self.array.counts(shard).map(|counts| counts.consistent))
            }
            _ => Given::Wrong,
        }
    }

    fn submit(&mut self, op: Op, name: u64) -> Given {
        match self.array.submit(op, name) {
            Ok(()) => Given::Accepted,
            Err(refused) => Given::Refused(refused.refusal.number()),
        }
    }

    /// The device of a command.
    fn device_of(&self, command: &Command) -> usize {
        if self.second == Some((command.slot, command.generation)) {
            SECOND
        } else {
            command.slot
        }
    }

    fn drive(&mut self, failing: usize) -> Given {
        for count in 0..99 {
            let Some((ticket, command)) = self.array.next_command() else {
                return Given::Commands(count);
            };
            let device = self.device_of(&command);
            let completion = performed(&mut self.devices, device, command, device == failing);
            let Ok(_) = self.array.deliver(ticket, completion) else {
                return Given::Wrong;
            };
        }
        Given::Wrong
    }

    fn keep(&mut self) -> Given {
        match self.array.next_command() {
            Some(_) => Given::Commands(1),
            None => Given::Nothing,
        }
    }

    fn reply(&mut self) -> Given {
        match self.array.next_reply() {
            Some((name, Reply::Done(block))) => Given::Done(name, byte_of(&block)),
            Some((name, Reply::Data(block))) => Given::Data(name, byte_of(&block)),
            Some((name, Reply::ArrayFailed(_))) => Given::Failed(name),
            None => Given::Nothing,
        }
    }

    fn change(&self) -> Given {
        let Some(Change { shard, call }) = self.array.next_change() else {
            return Given::Nothing;
        };
        match call {
            Call::DeclareLost(slot, generation) => Given::Loss(shard, slot, generation),
            Call::ReportRebuilt(slot, generation) => Given::Rebuilt(shard, slot, generation),
        }
    }

    fn agree(&mut self, shard: usize, call: Call) -> Given {
        match self.array.agree(Change { shard, call }) {
            Ok(answer) => told(answer),
            Err(refusal) => Given::Refused(refusal.number()),
        }
    }

    fn attach(&mut self, slot: usize) -> Given {
        for row in 0..ROWS {
            fill(self.alloc, &mut self.devices, slot, row, 0xee);
        }
        told(self.array.attach(slot))
    }

    fn replace(&mut self, slot: usize) -> Given {
        for row in 0..ROWS {
            fill(self.alloc, &mut self.devices, SECOND, row, 0xee);
        }
        let given = told(self.array.replace(slot));
        if let Given::Generation(generation) = given {
            self.second = Some((slot, generation));
        }
        given
    }

    fn turn(&mut self, shard: usize, task: Task) -> Given {
        match self.array.turn(shard, task) {
            Ok(Turn::Started) => Given::Started,
            Ok(Turn::Skipped) => Given::Skipped,
            Err(refusal) => Given::Refused(refusal.number()),
        }
    }
}

/// The number of the first step of a course that gives something else, or of none if the array can't begin.
fn wrong_step(alloc: Global, course: &Course<'_>) -> Option<usize> {
    match Host::new(alloc) {
        Some(mut host) => host.first_wrong(course.steps),
        None => Some(course.steps.len()),
    }
}

fn play_all<R: Abort>(rt: &R, alloc: Global) {
    for course in courses() {
        if let Some(step) = wrong_step(alloc, course) {
            panic!(rt; "step {step} of {}", course.name);
        }
    }
}

// Block 0 is written and read back through the loss of its device: what the read gives, and how many changes there were.
fn served(host: &mut Host, journal: &mut Vec<Change>) -> Option<(u64, u16, usize)> {
    let alloc = host.alloc;
    let written = Op::Write(0, filled(alloc, BLOCK, 0x5a));
    serve(&mut host.array, &mut host.devices, journal, written, 1)?;
    host.array
        .submit(Op::Read(0, filled(alloc, BLOCK, 0)), 2)
        .ok()?;
    let Given::Commands(_) = host.drive(1) else {
        return None;
    };
    let again = Op::Read(1, filled(alloc, BLOCK, 0));
    match serve(&mut host.array, &mut host.devices, journal, again, 3)? {
        (name, Reply::Data(block)) => Some((name, byte_of(&block), journal.len())),
        _ => None,
    }
}

// The read of block 0 is answered first, once its slot was declared lost.
fn serves(alloc: Global) -> bool {
    let mut journal = Vec::new(alloc);
    match Host::new(alloc) {
        Some(mut host) => served(&mut host, &mut journal) == Some((2, 0x5a, 1)),
        None => false,
    }
}

#[test]
fn a_caller_is_served(rt: HostRuntime) {
    assert!(rt; serves(rt.alloc()));
}

#[test]
fn arrays_take_their_courses(rt: HostRuntime) {
    play_all(&rt, rt.alloc());
}

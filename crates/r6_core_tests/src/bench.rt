//! A core over devices in memory, which does one step at a time.

use crate::devices::{BLOCK, byte_of, devices_of, fail, fill, filled, garble, stored};
use crate::generations::{Added, asked_for, told_numbers};
use crate::trouble::Trouble;
use r6_core::{
    Call, Command, Core, Counts, DeviceFault, FaultKind, Op, OpId, Receipt, Refused, Reply,
    Submitted, Task, Turn,
};
use r6_dev::MemoryDevice;
use r6_health::{
    Answer as RegisterAnswer, Call as RegisterCall, Refusal as RegisterRefusal, Snapshot,
};
use r6_kernels::Buffer;
use r6_layout::Geometry;
use std::alloc::Global;
use std::collections::VecDeque;
use std::process::Abort;

/// Four slots, which each array here has.
pub(crate) const SLOTS: usize = 4;

/// A token that no command has here.
pub(crate) const NO_TOKEN: u64 = 999;

/// The number of no device.
const NO_DEVICE: usize = usize::MAX;

/// What the register says of a call.
pub(crate) type Told = Result<RegisterAnswer, RegisterRefusal>;

/// What happens next.
pub(crate) enum Step {
    /// A request to write this byte throughout a block.
    Write(u64, u8),
    /// A request to read a block.
    Read(u64),
    /// Requests that are to have the numbers from the first to before the second.
    Submit(Requests, u64, u64),
    /// Requests that are handed in together: of each the block, and the byte to write throughout it, or none to read.
    Together(&'static [(u64, Option<u8>)]),
    /// The same, into a buffer of this length.
    ReadInto(u64, usize),
    /// The next command is taken.
    Take,
    /// All commands are taken.
    TakeAll,
    /// The device of a command that was taken performs it, and its completion is delivered.
    Do(u64),
    /// The device of a command that was taken answers an error, and has other bytes from then on.
    Fail(u64),
    /// The device of a command that was taken answers a read error, and keeps its blocks.
    ReadError(u64),
    /// Likewise, a fault of this kind.
    Fault(u64, FaultKind),
    /// Read errors of the tokens from the first to before the second, in steps of the third.
    ReadErrors(u64, u64, u64),
    /// The devices perform all commands that were taken, and their completions are delivered.
    DoTaken,
    /// A completion of this token, with a buffer of this length and byte that no device filled.
    Deliver(u64, usize, u8),
    /// Completions of the tokens from the first to before the second, of zeros; they are to be late.
    DeliverLate(u64, u64),
    /// Commands are taken, performed and delivered one by one, so many at the most.
    Drive(usize),
    /// The next call is taken.
    TakeCall,
    /// The core hears that the loss of a slot of generation 0 was answered so.
    Tell(usize, Told),
    /// The calls of the core are made at the register.
    TellAll,
    /// The register hears that a slot is lost.
    Lose(usize),
    /// The register hears that a slot has a new device.
    Attach(usize),
    /// The core looks at the register.
    Look,
    /// The next reply is taken.
    Reply,
    /// The generation of a slot is asked for.
    InSync(usize),
    /// A task has its turn.
    Turn(Task),
    /// Likewise, and its commands are taken, performed and delivered.
    Pass(Task),
    /// The counts have to be these.
    Counts(Counts),
    /// The block of a device in a row has this byte throughout from now on; nobody tells the core.
    Spoil(usize, u64, u8),
    /// The block of a device in a row is asked for.
    Stored(usize, u64),
    /// The next command is taken, and told with its kind and the generation of its device.
    Next,
    /// The register hears that the device of a slot is to be replaced. The new one has other bytes throughout.
    Replace(usize),
    /// Another shard declares at the register that the device of a slot and a generation is lost.
    Declare(usize, u32),
    /// The call that was taken last is made at the register, and the core hears the answer.
    TellTaken,
    /// The block of the device of a slot and a generation in a row is asked for.
    StoredOn(usize, u32, u64),
}

/// What many requests ask for, one after another.
pub(crate) enum Requests {
    /// To write 5a throughout the first block of each row, from this row on.
    WriteRows(u64),
    /// By turns to write 11 throughout the second block of every fourth row, and 22 throughout the first block of the
    /// row behind it.
    WritePairs,
    /// To read this block.
    Read(u64),
    /// To read the first eight blocks, again and again.
    ReadEight,
}

/// What a step answers.
#[derive(Clone, Copy)]
pub(crate) enum Answer {
    /// The number of the request.
    Accepted(u64),
    /// All of the requests have their numbers.
    AllAccepted,
    /// The number of the first, how many were accepted, the number of the refusal or 0, and how many are left.
    Together(u64, usize, u8, usize),
    /// By this number, with what was handed in.
    Refused(u8),
    /// The token, the slot and the row.
    Command(u64, usize, u64),
    /// The token, the slot, the generation and the row of a read.
    Read(u64, usize, u32, u64),
    /// Likewise, of a write.
    Write(u64, usize, u32, u64),
    /// So many commands.
    Commands(usize),
    Taken,
    Late,
    /// All of the completions.
    AllTaken,
    AllLate,
    /// So many completions were taken, and so many came late.
    Driven(usize, usize),
    /// The slot and the generation whose loss is to be declared.
    Loss(usize, u32),
    /// The slot and the generation that are to be reported as rebuilt.
    Rebuilt(usize, u32),
    Heard,
    /// So many calls, and whether the array has failed.
    Told(usize, bool),
    /// What the register says.
    Says(Told),
    Lost,
    Looked,
    /// The number of the request, and the byte that its buffer has throughout.
    Done(u64, u16),
    Data(u64, u16),
    /// The array has failed: the number of the request.
    Failed(u64),
    /// That of a slot in sync, or of a new device.
    Generation(Option<u32>),
    Started,
    Skipped,
    Counted,
    Spoilt,
    /// The byte that the block has throughout.
    Stored(u16),
    Nothing,
    /// Nothing that a core may answer.
    Wrong,
}

/// An array with so many rows and shards, of whose rows so many may be rebuilt at one time, and at whose start these
/// slots are lost; and the steps that it has to take, each with its answer.
#[derive(Clone, Copy)]
pub(crate) struct Course<'a> {
    pub(crate) name: &'a str,
    pub(crate) rows: u64,
    pub(crate) shards: usize,
    pub(crate) window: usize,
    pub(crate) lost: &'a [usize],
    pub(crate) steps: &'a [(Step, Answer)],
}

/// The core of shard 0 over devices in memory, beside what the register holds.
#[derive(Drop)]
pub(crate) struct Bench {
    pub(crate) alloc: Global,
    pub(crate) core: Core,
    pub(crate) devices: Vec<MemoryDevice>,
    /// Those that came to replace others. Their devices stand behind those of the slots.
    pub(crate) added: Vec<Added>,
    pub(crate) rows: u64,
    pub(crate) register: Snapshot,
    pub(crate) taken: Vec<Command>,
    /// The call that was taken last.
    pub(crate) call: Option<Call>,
    /// A command that was performed, and of which the core hears last.
    pub(crate) kept: Option<Command>,
    /// The blocks that can't be read until they are written, and those that were written for the present request.
    pub(crate) unreadable: Vec<u64>,
    pub(crate) written: Vec<u64>,
    /// The slots that errors and losses from outside have taken out, by the rules.
    pub(crate) is_out: [bool; SLOTS],
    /// The number of the device that was lost from outside, once the core has looked; before that, of none.
    pub(crate) spoilt: usize,
}

impl Answer {
    /// Which of them it is, and what it says. A derived comparison would have a case for each two of them.
    fn numbers(&self) -> [u64; 5] {
        match *self {
            Answer::Accepted(id) => [0, id, 0, 0, 0],
            Answer::AllAccepted => [1, 0, 0, 0, 0],
            Answer::Refused(number) => [2, u64::from(number), 0, 0, 0],
            Answer::Command(token, slot, row) => [3, token, slot as u64, row, 0],
            Answer::Commands(count) => [4, count as u64, 0, 0, 0],
            Answer::Taken => [5, 0, 0, 0, 0],
            Answer::Late => [6, 0, 0, 0, 0],
            Answer::AllLate => [7, 0, 0, 0, 0],
            Answer::Driven(taken, late) => [8, taken as u64, late as u64, 0, 0],
            Answer::Loss(slot, generation) => [9, slot as u64, u64::from(generation), 0, 0],
            Answer::Rebuilt(slot, generation) => [10, slot as u64, u64::from(generation), 0, 0],
            Answer::Heard => [11, 0, 0, 0, 0],
            Answer::Told(count, has_failed) => [12, count as u64, u64::from(has_failed), 0, 0],
            Answer::Lost => [13, 0, 0, 0, 0],
            Answer::Looked => [14, 0, 0, 0, 0],
            Answer::Done(id, byte) => [15, id, u64::from(byte), 0, 0],
            Answer::Data(id, byte) => [16, id, u64::from(byte), 0, 0],
            Answer::Failed(id) => [17, id, 0, 0, 0],
            Answer::Generation(None) => [18, 0, 0, 0, 0],
            Answer::Generation(Some(generation)) => [19, u64::from(generation), 0, 0, 0],
            Answer::Started => [20, 0, 0, 0, 0],
            Answer::Skipped => [21, 0, 0, 0, 0],
            Answer::Counted => [22, 0, 0, 0, 0],
            Answer::Spoilt => [23, 0, 0, 0, 0],
            Answer::Stored(byte) => [24, u64::from(byte), 0, 0, 0],
            Answer::Nothing => [25, 0, 0, 0, 0],
            Answer::Wrong => [26, 0, 0, 0, 0],
            Answer::AllTaken => [27, 0, 0, 0, 0],
            Answer::Read(token, slot, generation, row) => at(28, token, slot, generation, row),
            Answer::Write(token, slot, generation, row) => at(29, token, slot, generation, row),
            Answer::Says(told) => told_numbers(told),
            Answer::Together(first, count, refusal, left) => {
                [37, first, count as u64, u64::from(refusal), left as u64]
            }
        }
    }
}

fn at(kind: u64, token: u64, slot: usize, generation: u32, row: u64) -> [u64; 5] {
    [kind, token, slot as u64, u64::from(generation), row]
}

/// Whether an answer is this one.
pub(crate) fn is(found: &Answer, wanted: &Answer) -> bool {
    found.numbers() == wanted.numbers()
}

/// The block of the request that comes so many behind the first, and the byte that it writes there.
fn request_at(requests: &Requests, index: u64) -> (u64, Option<u8>) {
    match requests {
        Requests::WriteRows(row) => (row.saturating_add(index).saturating_mul(2), Some(0x5a)),
        Requests::WritePairs => {
            let row_pair = (index / 2).saturating_mul(8);
            let byte = if index % 2 == 0 { 0x11 } else { 0x22 };
            (row_pair.saturating_add(index % 2 + 1), Some(byte))
        }
        Requests::Read(block) => (*block, None),
        Requests::ReadEight => (index % 8, None),
    }
}

/// What a register answers to a call.
pub(crate) fn told(register: &mut Snapshot, call: RegisterCall) -> Told {
    let (answer, next) = register.apply(SLOTS, 1, call)?;
    *register = next;
    Ok(answer)
}

/// A slot is lost that isn't lost yet.
fn lose(register: &mut Snapshot, slot: usize) -> Answer {
    if slot >= SLOTS || register.slot(slot).is_lost() || register.failed() {
        return Answer::Wrong;
    }
    *register = register.lose(slot);
    Answer::Lost
}

fn attach(register: &mut Snapshot, slot: usize) -> Answer {
    match told(register, RegisterCall::Attach(slot)) {
        Ok(RegisterAnswer::Generation(generation)) => Answer::Generation(Some(generation)),
        _ => Answer::Wrong,
    }
}

/// The register of an array of four slots at whose start these slots are lost.
fn register_without(geometry: &Geometry, lost: &[usize]) -> Snapshot {
    let mut register = Snapshot::start(geometry, 0);
    for slot in lost {
        lose(&mut register, *slot);
    }
    register
}

/// A core takes each course of these tables from its beginning on.
pub(crate) fn play_all<R: Abort>(rt: &R, alloc: Global, tables: &[&[Course<'_>]]) {
    for courses in tables {
        for course in *courses {
            if let Err(step) = play(alloc, course) {
                panic!(rt; "step {step} of {}", course.name);
            }
        }
    }
}

/// A core takes the steps of a course: their number. `Err`: this step isn't answered as it has to be, or the core can't
/// begin.
fn play(alloc: Global, course: &Course<'_>) -> Result<u64, usize> {
    match Bench::new(alloc, course) {
        Some(mut bench) => bench.take_steps(course.steps),
        None => Err(course.steps.len()),
    }
}

impl Bench {
    /// An array of four slots, chunks of one block and blocks of 16 bytes, as the course has it. Of the values that
    /// have to be dropped the core is made last, so that nothing ends early beside it.
    pub(crate) fn new(alloc: Global, course: &Course<'_>) -> Option<Bench> {
        let Ok(geometry) = Geometry::new(SLOTS, 1, BLOCK, course.rows, course.shards) else {
            return None;
        };
        let register = register_without(&geometry, course.lost);
        let window = course.window;
        let may_be = window > 0 && window <= 8 && geometry.shards() > 0;
        if !may_be || register.failed() || register.attaches() > 0 {
            return None;
        }
        let Ok(devices) = devices_of(alloc, SLOTS, course.rows) else {
            return None;
        };
        let Ok(core) = Core::new(alloc, geometry, 0, window, &register) else {
            return None;
        };
        Some(Bench {
            alloc,
            core,
            devices,
            added: Vec::new(alloc),
            rows: course.rows,
            register,
            taken: Vec::new(alloc),
            call: None,
            kept: None,
            unreadable: Vec::new(alloc),
            written: Vec::new(alloc),
            is_out: [false; SLOTS],
            spoilt: NO_DEVICE,
        })
    }

    pub(crate) fn take_steps(&mut self, steps: &[(Step, Answer)]) -> Result<u64, usize> {
        for (index, (step, answer)) in steps.iter().enumerate() {
            if !is(&self.answer(step), answer) {
                return Err(index);
            }
        }
        Ok(steps.len() as u64)
    }

    /// What a step answers. Where memory is wanting, that is wrong.
    pub(crate) fn answer(&mut self, step: &Step) -> Answer {
        match step {
            Step::Write(block, byte) => self.request(*block, BLOCK, Some(*byte)),
            Step::Read(block) => self.request(*block, BLOCK, None),
            Step::ReadInto(block, len) => self.request(*block, *len, None),
            Step::Submit(requests, first, end) => self.request_all(requests, *first, *end),
            Step::Together(requests) => self.together(requests),
            Step::Take => self.take(),
            Step::TakeAll => self.take_all(),
            Step::Do(token) => self.answer_taken(*token, true),
            Step::Fail(token) => self.answer_taken(*token, false),
            Step::ReadError(token) => self.fault_taken(*token, FaultKind::ReadFault),
            Step::Fault(token, kind) => self.fault_taken(*token, *kind),
            Step::ReadErrors(first, end, step) => self.err_at(*first, *end, *step),
            Step::DoTaken => self.do_taken(),
            Step::Deliver(token, len, byte) => self.deliver_filled(*token, *len, *byte),
            Step::DeliverLate(first, end) => self.deliver_late(*first, *end),
            Step::Drive(most) => self.drive(*most, &Trouble::NONE),
            Step::Reply => self.take_reply(),
            step => self.answer_beside(step),
        }
    }

    /// What a step answers that makes no request and no completion.
    fn answer_beside(&mut self, step: &Step) -> Answer {
        match step {
            Step::TakeCall => self.take_call(),
            Step::Tell(slot, told) => self.tell(Call::DeclareLost(*slot, 0), *told),
            Step::TellAll => self.tell_all(),
            Step::Lose(slot) => lose(&mut self.register, *slot),
            Step::Attach(slot) => attach(&mut self.register, *slot),
            Step::Look => self.look(),
            Step::InSync(slot) => Answer::Generation(self.core.in_sync(*slot)),
            Step::Turn(task) => self.turn(*task),
            Step::Pass(task) => match self.turn(*task) {
                Answer::Started => self.drive(9, &Trouble::NONE),
                answer => answer,
            },
            Step::Counts(wanted) => {
                if self.core.counts() == *wanted {
                    Answer::Counted
                } else {
                    Answer::Wrong
                }
            }
            Step::Spoil(slot, row, byte) => {
                if fill(self.alloc, &mut self.devices, *slot, *row, *byte) {
                    Answer::Spoilt
                } else {
                    Answer::Wrong
                }
            }
            Step::Stored(slot, row) => {
                match stored(self.alloc, &mut self.devices, *slot, *row) {
                    Some(byte) => Answer::Stored(byte),
                    None => Answer::Wrong,
                }
            }
            step => self.answer_of_devices(step),
        }
    }

    /// A request to write this byte throughout a block; or to read it, into a buffer of this length. One that is
    /// refused comes back with its block and its buffer.
    fn request(&mut self, block: u64, len: usize, byte: Option<u8>) -> Answer {
        let op = match byte {
            Some(byte) => Op::Write(block, filled(self.alloc, len, byte)),
            None => Op::Read(block, filled(self.alloc, len, 0)),
        };
        match self.core.submit(op) {
            Ok(OpId(id)) => Answer::Accepted(id),
            Err(Refused { refusal, back }) => {
                if back.block() == block && back.buffer().len() == len {
                    Answer::Refused(refusal.number())
                } else {
                    Answer::Wrong
                }
            }
        }
    }

    fn request_all(&mut self, requests: &Requests, first: u64, end: u64) -> Answer {
        for id in first..end {
            let (block, byte) = request_at(requests, id - first);
            if !is(&self.request(block, BLOCK, byte), &Answer::Accepted(id)) {
                return Answer::Wrong;
            }
        }
        Answer::AllAccepted
    }

    fn together(&mut self, requests: &[(u64, Option<u8>)]) -> Answer {
        let mut ops = VecDeque::new(self.alloc);
        for (block, byte) in requests {
            let op = match byte {
                Some(byte) => Op::Write(*block, filled(self.alloc, BLOCK, *byte)),
                None => Op::Read(*block, filled(self.alloc, BLOCK, 0)),
            };
            if ops.push_back(op).is_err() {
                return Answer::Wrong;
            }
        }
        let Submitted {
            first,
            count,
            refusal,
        } = self.core.submit_all(&mut ops);
        let number = match refusal {
            Some(refusal) => refusal.number(),
            None => 0,
        };
        Answer::Together(first.0, count, number, ops.len())
    }

    fn take(&mut self) -> Answer {
        let Some(command) = self.core.take_command() else {
            return Answer::Nothing;
        };
        let answer = Answer::Command(command.token, command.slot, command.row);
        match self.taken.push(command) {
            Ok(()) => answer,
            Err(_) => Answer::Wrong,
        }
    }

    pub(crate) fn take_all(&mut self) -> Answer {
        for count in 0..usize::MAX {
            match self.take() {
                Answer::Command(_, _, _) => {}
                Answer::Nothing => return Answer::Commands(count),
                _ => break,
            }
        }
        Answer::Wrong
    }

    /// The command of this token, which was taken and is answered now.
    fn taken_with(&mut self, token: u64) -> Option<Command> {
        for index in 0..self.taken.len() {
            if self.taken[index].token == token {
                return Some(self.taken.swap_remove(index));
            }
        }
        None
    }

    /// The device of a command that was taken answers it.
    fn answer_taken(&mut self, token: u64, is_good: bool) -> Answer {
        match self.taken_with(token) {
            Some(command) => self.complete(command, is_good),
            None => Answer::Nothing,
        }
    }

    /// The device of a command that was taken answers a fault.
    fn fault_taken(&mut self, token: u64, kind: FaultKind) -> Answer {
        match self.taken_with(token) {
            Some(command) => self.fault(command, kind),
            None => Answer::Nothing,
        }
    }

    fn err_at(&mut self, first: u64, end: u64, step: u64) -> Answer {
        for token in first..end {
            if step > 0 && (token - first) % step == 0 {
                let Answer::Taken = self.fault_taken(token, FaultKind::ReadFault) else {
                    return Answer::Wrong;
                };
            }
        }
        Answer::AllTaken
    }

    fn do_taken(&mut self) -> Answer {
        let all = self.taken.len();
        for _ in 0..all {
            let Some(command) = self.taken.pop() else {
                return Answer::Wrong;
            };
            let Answer::Taken = self.complete(command, true) else {
                return Answer::Wrong;
            };
        }
        Answer::Driven(all, 0)
    }

    /// The device of a command answers a fault and keeps its blocks, and the command's buffer has other bytes.
    pub(crate) fn fault(&mut self, mut command: Command, kind: FaultKind) -> Answer {
        garble(&mut command);
        let buffer = command.buffer;
        self.deliver(command.token, Err(DeviceFault { kind, buffer }))
    }

    /// The device of a command performs it, or answers an error, and its completion is delivered.
    pub(crate) fn complete(&mut self, mut command: Command, is_good: bool) -> Answer {
        let kind = FaultKind::Gone;
        if is_good {
            self.perform(&mut command);
            self.deliver(command.token, Ok(command.buffer))
        } else {
            let device = self.device_of(command.slot, command.generation);
            fail(&mut self.devices, device, self.rows, &mut command);
            let buffer = command.buffer;
            self.deliver(command.token, Err(DeviceFault { kind, buffer }))
        }
    }

    pub(crate) fn deliver(
        &mut self,
        token: u64,
        completion: Result<Buffer, DeviceFault>,
    ) -> Answer {
        match self.core.deliver(token, completion) {
            Ok(Receipt::Taken) => Answer::Taken,
            Ok(Receipt::Late) => Answer::Late,
            Err(refused) => Answer::Refused(refused.refusal.number()),
        }
    }

    pub(crate) fn deliver_filled(&mut self, token: u64, len: usize, byte: u8) -> Answer {
        let block = filled(self.alloc, len, byte);
        self.deliver(token, Ok(block))
    }

    fn deliver_late(&mut self, first: u64, end: u64) -> Answer {
        for token in first..end {
            let Answer::Late = self.deliver_filled(token, BLOCK, 0) else {
                return Answer::Wrong;
            };
        }
        Answer::AllLate
    }

    fn take_call(&mut self) -> Answer {
        self.call = self.core.take_call();
        match self.call {
            Some(Call::DeclareLost(slot, generation)) => Answer::Loss(slot, generation),
            Some(Call::ReportRebuilt(slot, generation)) => Answer::Rebuilt(slot, generation),
            None => Answer::Nothing,
        }
    }

    pub(crate) fn tell(&mut self, call: Call, told: Told) -> Answer {
        match self.core.told(call, told) {
            Ok(()) => Answer::Heard,
            Err(refusal) => Answer::Refused(refusal.number()),
        }
    }

    pub(crate) fn tell_all(&mut self) -> Answer {
        for count in 0..SLOTS {
            let Some(call) = self.core.take_call() else {
                return Answer::Told(count, self.register.failed());
            };
            let told = told(&mut self.register, asked_for(call));
            self.tell(call, told);
        }
        Answer::Wrong
    }

    pub(crate) fn look(&mut self) -> Answer {
        match self.core.look(&self.register) {
            Ok(()) => Answer::Looked,
            Err(refusal) => Answer::Refused(refusal.number()),
        }
    }

    fn turn(&mut self, task: Task) -> Answer {
        match self.core.turn(task) {
            Ok(Turn::Started) => Answer::Started,
            Ok(Turn::Skipped) => Answer::Skipped,
            Err(refusal) => Answer::Refused(refusal.number()),
        }
    }

    pub(crate) fn take_reply(&mut self) -> Answer {
        let Some((OpId(id), reply)) = self.core.take_reply() else {
            return Answer::Nothing;
        };
        match reply {
            Reply::Done(buffer) => Answer::Done(id, byte_of(&buffer)),
            Reply::Data(buffer) => Answer::Data(id, byte_of(&buffer)),
            Reply::ArrayFailed(_) => Answer::Failed(id),
        }
    }
}

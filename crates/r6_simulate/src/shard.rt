//! A shard of an array in memory: its core, and what events do there.

ghost use Rattle.std.specs.Prelude.{◌≡◌, IfErr, IfOk, OnOk, string_bytes};
ghost use Rattle.r6_simulate.specs.AtShards.{in_flight_of, fault_of, Submits, Delivers, TakesBack, Performs, AnswersWith, AnswersGood, Does, is_unperformed, Tells, Looks, core_task, TakesTurn, Makes, PutsReplies, PutsCommands, Reports};
ghost use Rattle.r6_simulate.specs.declared.fault.SimulationFault.TheVariants.{Memory};

use crate::devices::{Blocks, Devices};
use crate::fault::SimulationFault;
use crate::lines::{EventOutcome, Made, write_command, write_reply};
use crate::register::OwnRegister;
use indexmap::IndexMap;
use r6_core::{Command, CommandKind, Core, DeviceFault, FaultKind, Op, Task as CoreTask};
use r6_health::Answered;
use r6_kernels::Buffer;
use r6_script::{Call, Completion, Task};
use std::fmt::Write as _;
use std::sync::Wait;

/// A command that was taken and isn't answered, and whether its device performed it.
#[derive(Drop)]
pub struct InFlight {
    pub command: Command,
    pub performed: bool,
}

/// A core, with its commands that were taken and aren't answered, by token.
#[derive(Drop)]
pub struct Shard {
    pub number: usize,
    pub core: Core,
    pub in_flight: IndexMap<u64, InFlight>,
}

impl Shard {
    /// Submits a request.
    pub fn submit(&mut self, op: Op) -> EventOutcome
        ensures { Submits op self.old result self.new }
    {
        match self.core.submit(op) {
            Ok(id) => EventOutcome::Accepted(self.number, id),
            Err(refused) => EventOutcome::Refused(refused.refusal),
        }
    }

    // Delivers a completion.
    fn deliver(&mut self, token: u64, completion: Result<Buffer, DeviceFault>) -> EventOutcome
        ensures { Delivers token completion self.old result self.new }
    {
        match self.core.deliver(token, completion) {
            Ok(receipt) => EventOutcome::Received(receipt),
            Err(refused) => EventOutcome::Refused(refused.refusal),
        }
    }

    /// The device of a command in flight performs it, once, if there is one that serves it.
    pub fn perform(&mut self, devices: &mut Devices, token: u64) -> EventOutcome
        ensures { Performs token self.old devices.old result self.new devices.new }
    {
        let Some(in_flight) = self.in_flight.get_mut(&token) else {
            return EventOutcome::NoSuchCommand;
        };
        if in_flight.performed {
            return EventOutcome::PerformedAlready;
        }
        in_flight.performed = devices.perform(&mut in_flight.command);
        if in_flight.performed {
            EventOutcome::Performed
        } else {
            EventOutcome::NotPerformed
        }
    }

    // Whether the command of this token is in flight, and its device has yet to perform it.
    fn is_unperformed(&self, token: u64) -> bool
        ensures { result ≡ is_unperformed (in_flight_of self.now token) }
    {
        match self.in_flight.get(&token) {
            Some(in_flight) => !in_flight.performed,
            None => false,
        }
    }

    // The buffer of a command, which is in flight no more, and how its device fails; of one that isn't in flight a
    // block of zeros, so that its refusal shows.
    fn take_back_or_zeros(
        &mut self,
        blocks: &Blocks,
        token: u64,
    ) -> Result<DeviceFault, SimulationFault>
        ensures back { IfOk result (λ fault. TakesBack blocks.now token self.old fault self.new) }
        ensures refused { IfErr result (λ fault. fault ≡ Memory) }
    {
        let Some(InFlight { command, .. }) = self.in_flight.swap_remove(&token) else {
            return Ok(DeviceFault {
                kind: FaultKind::ReadFault,
                buffer: blocks.of(0)?,
            });
        };
        Ok(DeviceFault {
            kind: fault_of(command.kind),
            buffer: command.buffer,
        })
    }

    /// Delivers the completion of a command: a good one if it was performed, a fault in any case.
    pub fn answer(
        &mut self,
        blocks: &Blocks,
        token: u64,
        completion: Completion,
    ) -> Result<EventOutcome, SimulationFault>
        ensures outcome { IfOk result (λ outcome. AnswersWith blocks.now token completion self.old outcome self.new) }
        ensures refused { IfErr result (λ fault. fault ≡ Memory) }
    {
        match completion {
            Completion::Good => self.answer_good(blocks, token),
            Completion::Error => {
                let fault = self.take_back_or_zeros(blocks, token)?;
                Ok(self.deliver(token, Err(fault)))
            }
            Completion::Gone => {
                let fault = self.take_back_or_zeros(blocks, token)?;
                Ok(self.deliver(
                    token,
                    Err(DeviceFault {
                        kind: FaultKind::Gone,
                        buffer: fault.buffer,
                    }),
                ))
            }
        }
    }

    // Delivers the good completion of a command.
    fn answer_good(&mut self, blocks: &Blocks, token: u64) -> Result<EventOutcome, SimulationFault>
        ensures outcome { IfOk result (λ outcome. AnswersGood blocks.now token self.old outcome self.new) }
        ensures refused { IfErr result (λ fault. fault ≡ Memory) }
    {
        if self.is_unperformed(token) {
            return Ok(EventOutcome::NotPerformed);
        }
        let fault = self.take_back_or_zeros(blocks, token)?;
        Ok(self.deliver(token, Ok(fault.buffer)))
    }

    /// The device of a command performs it, and then its good completion is delivered.
    pub fn perform_and_answer(
        &mut self,
        devices: &mut Devices,
        blocks: &Blocks,
        token: u64,
    ) -> Result<EventOutcome, SimulationFault>
        ensures outcome { IfOk result (λ outcome. Does blocks.now token self.old devices.old outcome self.new devices.new) }
        ensures refused { IfErr result (λ fault. fault ≡ Memory) }
    {
        match self.perform(devices, token) {
            EventOutcome::Performed => self.answer_good(blocks, token),
            other => Ok(other),
        }
    }

    /// Makes the shard's next call at the register, and tells the shard the answer.
    pub fn tell<R: Wait>(&mut self, rt: &R, register: &mut OwnRegister) -> EventOutcome
        ensures { Tells self.old register.old result self.new register.new }
    {
        let Some(call) = self.core.take_call() else {
            return EventOutcome::Nothing;
        };
        let answer = register.make(rt, self.number, call);
        match self.core.told(call, answer) {
            Ok(()) => EventOutcome::Told(Made(call), Answered(answer)),
            Err(refusal) => EventOutcome::Refused(refusal),
        }
    }

    /// Hands the register as it is to the shard.
    pub fn look<R: Wait>(&mut self, rt: &R, register: &mut OwnRegister) -> EventOutcome
        ensures { Looks self.old register.old result self.new register.new }
    {
        let snapshot = register.read(rt);
        match self.core.look(&snapshot) {
            Ok(()) => EventOutcome::Looked,
            Err(refusal) => EventOutcome::Refused(refusal),
        }
    }

    /// The shard has a turn of this task.
    pub fn turn(&mut self, task: Task) -> EventOutcome
        ensures { TakesTurn task self.old result self.new }
    {
        match self.core.turn(core_task(task)) {
            Ok(turn) => EventOutcome::Turned(turn),
            Err(refusal) => EventOutcome::Refused(refusal),
        }
    }

    /// Does at the shard what a call of the script says.
    pub fn make<R: Wait>(
        &mut self,
        rt: &R,
        call: Call,
        register: &mut OwnRegister,
        devices: &mut Devices,
        blocks: &Blocks,
    ) -> Result<EventOutcome, SimulationFault>
        ensures outcome { IfOk result
            (λ outcome.
            Makes call blocks.now self.old register.old devices.old outcome self.new register.new devices.new) }
        ensures refused { IfErr result (λ fault. fault ≡ Memory) }
    {
        match call {
            Call::Perform(token) => Ok(self.perform(devices, token)),
            Call::Answer(token, completion) => self.answer(blocks, token, completion),
            Call::Do(token) => self.perform_and_answer(devices, blocks, token),
            Call::Tell => Ok(self.tell(rt, register)),
            Call::Look => Ok(self.look(rt, register)),
            Call::Turn(task) => Ok(self.turn(task)),
        }
    }

    // Writes the replies that the shard puts out.
    fn put_out_replies(&mut self, line: &mut String) -> Result<(), SimulationFault>
        ensures { OnOk result (PutsReplies self.old (string_bytes line.old) self.new (string_bytes line.new)) }
    {
        while let Some((id, reply)) = self.core.take_reply() {
            write_reply(line, self.number, id, &reply)?;
        }
        Ok(())
    }

    // Writes the commands that the shard puts out, and keeps them.
    fn put_out_commands(&mut self, line: &mut String) -> Result<(), SimulationFault>
        ensures { OnOk result (PutsCommands self.old (string_bytes line.old) self.new (string_bytes line.new)) }
    {
        while let Some(command) = self.core.take_command() {
            write_command(line, self.number, &command)?;
            let token = command.token;
            self.in_flight.insert(
                token,
                InFlight {
                    command,
                    performed: false,
                },
            )?;
        }
        Ok(())
    }

    /// Writes what became of an event, and then what the shard puts out, replies first.
    pub fn report(
        &mut self,
        outcome: EventOutcome,
        line: &mut String,
    ) -> Result<(), SimulationFault>
        ensures { OnOk result (Reports outcome self.old (string_bytes line.old) self.new (string_bytes line.new)) }
    {
        write!(line, "{outcome}")?;
        self.put_out_replies(line)?;
        self.put_out_commands(line)
    }
}

// What the core is asked to do with its next row.
fn core_task(task: Task) -> CoreTask
    ensures { result ≡ core_task task }
{
    match task {
        Task::Rebuild => CoreTask::Rebuild,
        Task::Check => CoreTask::Check,
        Task::Repair => CoreTask::Repair,
    }
}

// How the device of a command of this kind fails.
fn fault_of(kind: CommandKind) -> FaultKind
    ensures { result ≡ fault_of kind }
{
    match kind {
        CommandKind::Read => FaultKind::ReadFault,
        CommandKind::Write => FaultKind::WriteFault,
    }
}

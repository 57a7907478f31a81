//! Devices by their generations, of which a slot that is being replaced has two, and what the register says of them.

use crate::bench::{Answer, Bench, SLOTS, Step, Told, told};
use crate::devices::{BLOCK, fill, perform_on, stored};
use r6_core::{Call, Command, CommandKind};
use r6_dev::MemoryDevice;
use r6_health::{Answer as RegisterAnswer, Call as RegisterCall, SlotState};

/// What a new device has throughout.
const OTHER: u8 = 0xff;

/// A device that came to replace another one.
#[derive(Clone, Copy)]
pub(crate) struct Added {
    slot: usize,
    generation: u32,
}

/// Which answer or refusal of the register it is, and the generation or the number of it.
pub(crate) fn told_numbers(told: Told) -> [u64; 5] {
    match told {
        Ok(RegisterAnswer::Degraded) => [30, 0, 0, 0, 0],
        Ok(RegisterAnswer::Failed) => [31, 0, 0, 0, 0],
        Ok(RegisterAnswer::Generation(generation)) => [32, u64::from(generation), 0, 0, 0],
        Ok(RegisterAnswer::More) => [33, 0, 0, 0, 0],
        Ok(RegisterAnswer::Complete) => [34, 0, 0, 0, 0],
        Ok(RegisterAnswer::Kept) => [35, 0, 0, 0, 0],
        Err(refusal) => [36, u64::from(refusal.number()), 0, 0, 0],
    }
}

/// The call at the register that a core asks for, of shard 0.
pub(crate) fn asked_for(call: Call) -> RegisterCall {
    match call {
        Call::DeclareLost(slot, generation) => RegisterCall::DeclareLost(slot, generation),
        Call::ReportRebuilt(slot, generation) => RegisterCall::ReportRebuilt(0, slot, generation),
    }
}

/// Whether a slot has a device of this generation.
pub(crate) fn has_device(slot: SlotState, generation: u32) -> bool {
    match slot {
        SlotState::InSync(only) => only == generation,
        SlotState::Lost => false,
        SlotState::Rebuilding(new, _) => new == generation,
        SlotState::Replacing(old, new, _) => old == generation || new == generation,
    }
}

/// The generation of the device of a slot that has all blocks, if it has one.
pub(crate) fn in_sync(slot: SlotState) -> Option<u32> {
    match slot {
        SlotState::InSync(generation) => Some(generation),
        SlotState::Replacing(old, _, _) => Some(old),
        SlotState::Lost | SlotState::Rebuilding(_, _) => None,
    }
}

impl Bench {
    /// What a step answers that is of devices by their generations.
    pub(crate) fn answer_of_devices(&mut self, step: &Step) -> Answer {
        match step {
            Step::Next => self.take_next(),
            Step::Replace(slot) => self.replace(*slot),
            Step::Declare(slot, generation) => Answer::Says(told(
                &mut self.register,
                RegisterCall::DeclareLost(*slot, *generation),
            )),
            Step::TellTaken => self.tell_taken(),
            Step::StoredOn(slot, generation, row) => {
                let device = self.device_of(*slot, *generation);
                match stored(self.alloc, &mut self.devices, device, *row) {
                    Some(byte) => Answer::Stored(byte),
                    None => Answer::Wrong,
                }
            }
            _ => Answer::Wrong,
        }
    }

    /// The number of the device of a slot and a generation.
    pub(crate) fn device_of(&self, slot: usize, generation: u32) -> usize {
        for (index, added) in self.added.iter().enumerate() {
            if added.slot == slot && added.generation == generation {
                return SLOTS.saturating_add(index);
            }
        }
        slot
    }

    /// The device of a command performs it.
    pub(crate) fn perform(&mut self, command: &mut Command) {
        let device = self.device_of(command.slot, command.generation);
        perform_on(&mut self.devices, device, command);
    }

    fn take_next(&mut self) -> Answer {
        let Some(command) = self.core.take_command() else {
            return Answer::Nothing;
        };
        let (token, slot, generation) = (command.token, command.slot, command.generation);
        let answer = match command.kind {
            CommandKind::Read => Answer::Read(token, slot, generation, command.row),
            CommandKind::Write => Answer::Write(token, slot, generation, command.row),
        };
        match self.taken.push(command) {
            Ok(()) => answer,
            Err(_) => Answer::Wrong,
        }
    }

    fn replace(&mut self, slot: usize) -> Answer {
        let told = told(&mut self.register, RegisterCall::Replace(slot));
        match told {
            Ok(RegisterAnswer::Generation(generation)) if !self.add(slot, generation) =>
                Answer::Wrong,
            told => Answer::Says(told),
        }
    }

    /// A new device comes. `false`: memory is wanting.
    fn add(&mut self, slot: usize, generation: u32) -> bool {
        let Ok(device) = MemoryDevice::new(self.alloc, 0..self.rows, BLOCK) else {
            return false;
        };
        let place = self.devices.len();
        if self.devices.push(device).is_err()
            || self.added.push(Added { slot, generation }).is_err()
        {
            return false;
        }
        (0..self.rows).all(|row| fill(self.alloc, &mut self.devices, place, row, OTHER))
    }

    fn tell_taken(&mut self) -> Answer {
        let Some(call) = self.call else {
            return Answer::Wrong;
        };
        let told = told(&mut self.register, asked_for(call));
        match self.tell(call, told) {
            Answer::Heard => Answer::Says(told),
            _ => Answer::Wrong,
        }
    }
}

//! The devices of an array in memory.

ghost use Rattle.std.specs.Prelude.{◌≡◌, ◌<◌, replicate, IfErr, IfOk, OnOk};
ghost use Rattle.r6_simulate.specs.Devices.{Adds, AddsAs, AreFirst, device_of, place_of, MayPerform, MayPerformOn};
ghost use Rattle.r6_simulate.specs.declared.fault.SimulationFault.TheVariants.{Memory};

use crate::fault::SimulationFault;
use r6_core::{Command, CommandKind};
use r6_dev::{BlockDevice, MemoryDevice};
use r6_health::Refusal;
use r6_kernels::Buffer;
use r6_layout::Geometry;
use std::alloc::{AllocError, Global};

/// Makes the blocks of an array.
#[derive(Clone, Copy)]
pub struct Blocks {
    pub alloc: Global,
    /// The bytes of a block.
    pub len: usize,
}

impl Blocks {
    /// A block of which every byte is this one.
    pub fn of(&self, byte: u8) -> Result<Buffer, AllocError>
        ensures { IfOk result (λ block. block ≡ replicate self.now.len byte) }
    {
        Buffer::filled(self.alloc, self.len, byte)
    }
}

/// A device that stands in a slot, or stood there.
#[derive(Drop)]
pub struct Attached {
    pub slot: usize,
    pub generation: u32,
    pub device: MemoryDevice,
}

/// The devices of an array in the order in which they came. One that another has replaced stays, since late commands
/// still reach it.
#[derive(Drop)]
pub struct Devices {
    pub blocks: Blocks,
    pub rows: u64,
    pub attached: Vec<Attached>,
}

// A device performs a command. False: it doesn't serve it, and nothing changes.
fn perform_on(device: &mut MemoryDevice, command: &mut Command) -> bool
    ensures { MayPerformOn result device.old command.old device.new command.new }
{
    match command.kind {
        CommandKind::Read => device.read(command.row, &mut command.buffer).is_ok(),
        CommandKind::Write => device.write(command.row, &command.buffer).is_ok(),
    }
}

impl Devices {
    /// In every slot a device of zeros, of generation 0.
    pub fn new(blocks: Blocks, geometry: &Geometry) -> Result<Devices, SimulationFault>
        requires { blocks.len ≡ geometry.now.block }
        ensures first { IfOk result (AreFirst geometry.now) }
        ensures refused { IfErr result (λ fault. fault ≡ Memory) }
    {
        let mut devices = Devices {
            blocks,
            rows: geometry.rows(),
            attached: Vec::new(blocks.alloc),
        };
        for slot in 0..geometry.slots() {
            devices.add(slot, 0, 0)?;
        }
        Ok(devices)
    }

    // A device of which every byte is this one stands in the slot, with this generation.
    fn add(&mut self, slot: usize, generation: u32, byte: u8) -> Result<(), SimulationFault>
        ensures added { OnOk result (Adds slot generation byte self.old self.new) }
        ensures refused { IfErr result (λ fault. fault ≡ Memory) }
    {
        let device = self.device_of(byte)?;
        self.attached.push(Attached {
            slot,
            generation,
            device,
        })?;
        Ok(())
    }

    /// A device of which every byte is this one stands in the slot, if the register has answered a generation for it.
    pub fn attach(
        &mut self,
        slot: usize,
        answer: Result<u32, Refusal>,
        byte: u8,
    ) -> Result<(), SimulationFault>
        ensures added { OnOk result (AddsAs slot answer byte self.old self.new) }
        ensures refused { IfErr result (λ fault. fault ≡ Memory) }
    {
        match answer {
            Ok(generation) => self.add(slot, generation, byte),
            Err(_) => Ok(()),
        }
    }

    // A device of which every byte is this one.
    fn device_of(&self, byte: u8) -> Result<MemoryDevice, AllocError>
        ensures { IfOk result (λ device. device ≡ device_of self.now.rows self.now.blocks.len byte) }
    {
        let mut device = MemoryDevice::new(self.blocks.alloc, 0..self.rows, self.blocks.len)?;
        let block = self.blocks.of(byte)?;
        for row in 0..self.rows {
            device.write(row, &block).unwrap();
        }
        Ok(device)
    }

    // Where the device stands that a slot has or had with this generation.
    fn place_of(&self, slot: usize, generation: u32) -> Option<usize>
        ensures { result ≡ place_of slot generation self.now.attached.items }
    {
        self.attached.iter().position(|attached| attached.slot == slot
            && attached.generation == generation)
    }

    /// The device that a command names performs it. False: it has no device that serves it, and nothing changes.
    pub fn perform(&mut self, command: &mut Command) -> bool
        ensures { MayPerform result self.old command.old self.new command.new }
    {
        let Some(place) = self.place_of(command.slot, command.generation) else {
            return false;
        };
        perform_on(&mut self.attached[place].device, command)
    }
}

//! The caller that the page on calling an array shows.

use r6_array::{Array, Change};
use r6_core::{Command, CommandKind, DeviceFault, FaultKind, Op, Reply};
use r6_dev::{BlockDevice, Fault, MemoryDevice};
use r6_kernels::Buffer;

/// The device of a command performs it.
fn perform(devices: &mut Vec<MemoryDevice>, command: Command) -> Result<Buffer, DeviceFault> {
    let mut buffer = command.buffer;
    let done = match (devices.get_mut(command.slot), command.kind) {
        (Some(device), CommandKind::Read) => device.read(command.row, &mut buffer),
        (Some(device), CommandKind::Write) => device.write(command.row, &buffer),
        (None, _) => Err(Fault::Gone),
    };
    let kind = FaultKind::Gone;
    match done {
        Ok(()) => Ok(buffer),
        Err(_) => Err(DeviceFault { kind, buffer }),
    }
}

/// All commands are performed, also those that a lost device makes needed.
fn drive(array: &mut Array, devices: &mut Vec<MemoryDevice>) {
    for _ in 0..u64::MAX {
        let Some((ticket, command)) = array.next_command() else {
            return;
        };
        let completion = perform(devices, command);
        let _ = array.deliver(ticket, completion);
    }
}

/// Each change that is asked for is written down, and then agreed to.
fn agree(array: &mut Array, journal: &mut Vec<Change>) {
    for _ in 0..u64::MAX {
        let Some(change) = array.next_change() else {
            return;
        };
        let Ok(()) = journal.push(change) else {
            return;
        };
        let _ = array.agree(change);
    }
}

/// Serves one request to its reply, under a name. `None`: it was refused, or a change couldn't be written down.
pub(crate) fn serve(
    array: &mut Array,
    devices: &mut Vec<MemoryDevice>,
    journal: &mut Vec<Change>,
    op: Op,
    name: u64,
) -> Option<(u64, Reply)> {
    array.submit(op, name).ok()?;
    drive(array, devices);
    agree(array, journal);
    array.next_reply()
}

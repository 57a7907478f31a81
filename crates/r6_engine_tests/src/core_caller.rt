//! A caller of the core, complete: a request is served to its reply.

ghost use Rattle.r6_health.specs.Passes.{IsPassOf};

use r6_core::{Call, Command, CommandKind, Core, DeviceFault, FaultKind, Op, OpId, Reply};
use r6_dev::{BlockDevice, Fault, MemoryDevice};
use r6_health::{Pass, Register};
use r6_kernels::Buffer;
use std::sync::Wait;

/// The device of a command performs it: its token, and its completion.
fn perform(
    devices: &mut Vec<MemoryDevice>,
    command: Command,
) -> (u64, Result<Buffer, DeviceFault>) {
    let mut buffer = command.buffer;
    let done = match (devices.get_mut(command.slot), command.kind) {
        (Some(device), CommandKind::Read) => device.read(command.row, &mut buffer),
        (Some(device), CommandKind::Write) => device.write(command.row, &buffer),
        (None, _) => Err(Fault::Gone),
    };
    let kind = FaultKind::Gone;
    match done {
        Ok(()) => (command.token, Ok(buffer)),
        Err(_) => (command.token, Err(DeviceFault { kind, buffer })),
    }
}

/// All commands are performed, also those that a lost device makes needed.
fn drive(core: &mut Core, devices: &mut Vec<MemoryDevice>) {
    for _ in 0..u64::MAX {
        let Some(command) = core.take_command() else {
            return;
        };
        let (token, completion) = perform(devices, command);
        let _ = core.deliver(token, completion);
    }
}

/// All calls of the core of shard 0 are made at the register.
fn tell<R: Wait>(rt: &R, core: &mut Core, register: &Register, pass: &mut Pass)
    requires { IsPassOf register.now pass.old }
    ensures { IsPassOf register.now pass.new }
{
    for _ in 0..u64::MAX {
        let Some(call) = core.take_call() else {
            return;
        };
        let answer = match call {
            Call::DeclareLost(slot, generation) => {
                register.declare_lost(rt, pass, slot, generation)
            }
            Call::ReportRebuilt(slot, generation) => {
                register.report_rebuilt(rt, pass, 0, slot, generation)
            }
        };
        let _ = core.told(call, answer);
    }
}

/// Serves one request to its reply. `None`: it was refused, or the register knows more than the core.
pub(crate) fn serve<R: Wait>(
    rt: &R,
    core: &mut Core,
    devices: &mut Vec<MemoryDevice>,
    register: &Register,
    pass: &mut Pass,
    op: Op,
) -> Option<(OpId, Reply)>
    requires { IsPassOf register.now pass.old }
    ensures { IsPassOf register.now pass.new }
{
    core.submit(op).ok()?;
    drive(core, devices);
    tell(rt, core, register, pass);
    core.look(&register.read(rt, pass)).ok()?;
    core.take_reply()
}

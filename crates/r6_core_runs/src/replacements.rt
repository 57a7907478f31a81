//! Runs of a core one of whose devices is replaced in service, as its caller's calls make them.

ghost use Rattle.std.specs.Prelude.{◌≡◌, IfSome};
ghost use Rattle.r6_health.specs.Registers.{after};
ghost use Rattle.r6_world.specs.PlainArray.{Write, Done};
ghost use Rattle.r6_world.specs.Registers.{Kept};
ghost use Rattle.r6_world.specs.ShardStates.{LossOf};
ghost use Rattle.r6_world.specs.Steps.{Submit, Take_reply};
ghost use Rattle.r6_core_runs.specs.Losses.{Tells};
ghost use Rattle.r6_core_runs.specs.Replacements.{FailsWrite, LooksBeside, CopiesRow, RestoresRow, LosesNew, ReadsNew, ReadsOld, WritesBoth, SeesDone, RunsThroughReplacement, RunsThroughLossOfOld, RunsThroughLossOfNew, RunsThroughWriteToBoth};
ghost use Rattle.r6_core.specs.Shards.{Step};

use crate::losses::{
    answer_read, complete, declare_loss, fail_read, one_core, submit_read, take_block,
};
use crate::rebuilds::{LostRow, confirm_write, read_back, report, take_up};
use r6_core::{Call, CommandKind, Core, DeviceFault, FaultKind, Op, OpId, Reply};
use r6_health::{Answer, Call as RegisterCall, Snapshot};
use r6_kernels::Buffer;
use std::alloc::Global;

/// The blocks of a row of four slots, one of whose data blocks is written anew.
#[derive(Drop)]
pub struct WrittenRow {
    /// The other data block.
    pub other: Buffer,
    /// The new block.
    pub new_data: Buffer,
    /// P of both.
    pub p: Buffer,
    /// Q of both.
    pub q: Buffer,
}

/// Replaces the device of slot 1 of the smallest array, and answers the core with block 0, read from the new device: a
/// core is made, the device is replaced at the register, and the core looks; it takes up its row, reads this block from
/// the old device and writes it to the new one; its report completes the replacement, and after a look the core is
/// handed a read of block 0, which goes to the new device. `None` where memory is refused, a buffer isn't of 16 bytes,
/// or a call answers anything else than this run has.
///
/// The contract carries the run (`run`): whatever array has this block on slot 1, the calls are a run of the core
/// with its devices and its register, such as the laws of [`array_law`](r6_core::array_law) speak of.
pub fn replace_in_service(alloc: Global, room: Buffer, block: Buffer) -> Option<(Core, Buffer)>
    ensures run { IfSome result (λ r. RunsThroughReplacement block r.1 r.0) }
{
    let copy = copy_of(alloc, &block)?;
    let (mut core, register) = one_core(alloc)?;
    let replacing = look_beside(&mut core, &register)?;
    copy_row(&mut core, block, &copy)?;
    report(&mut core, Answer::Complete)?;
    let replaced = after(&replacing, RegisterCall::ReportRebuilt(0, 1, 1))?;
    let back = read_new(&mut core, &replaced, room, copy)?;
    Some((core, back))
}

/// Replaces the device of slot 1 as [`replace_in_service`] does, but the old device fails as the row is read from it,
/// and answers the core with block 0: the block is computed from the other data block and P and written to the new
/// device, the loss of the old one is declared and the row reported; after a look the core is handed a read of block 0,
/// which goes to the new device. `None` as there, and where the block that is written isn't the one that was lost.
///
/// The contract carries the run (`run`): whatever array has these two blocks on slots 2 and 3, the calls are such a run.
pub fn replace_through_a_loss(
    alloc: Global,
    room: Buffer,
    blocks: LostRow,
) -> Option<(Core, Buffer)>
    ensures run { IfSome result (λ r. RunsThroughLossOfOld blocks r.1 r.0) }
{
    let (mut core, register) = one_core(alloc)?;
    let replacing = look_beside(&mut core, &register)?;
    restore_row(&mut core, blocks.other, blocks.parity, &blocks.lost)?;
    declare_loss(&mut core, 1, Answer::Degraded)?;
    report(&mut core, Answer::Complete)?;
    let lost = after(&replacing, RegisterCall::DeclareLost(1, 0))?;
    let rebuilt = after(&lost, RegisterCall::ReportRebuilt(0, 1, 1))?;
    let back = read_new(&mut core, &rebuilt, room, blocks.lost)?;
    Some((core, back))
}

/// Begins to replace the device of slot 1 as [`replace_in_service`] does, but the new device fails as the row is
/// written to it, and answers the core with block 0: the loss of the new device is declared, and the old one is kept;
/// after a look the core is handed a read of block 0, which goes to the old device. `None` as there, and where the
/// block that is written isn't this one.
///
/// The contract carries the run (`run`): whatever array has this block on slot 1, the calls are such a run.
pub fn replace_in_vain(alloc: Global, room: Buffer, block: Buffer) -> Option<(Core, Buffer)>
    ensures run { IfSome result (λ r. RunsThroughLossOfNew block r.1 r.0) }
{
    let again = copy_of(alloc, &block)?;
    let (mut core, register) = one_core(alloc)?;
    let replacing = look_beside(&mut core, &register)?;
    lose_new(&mut core, block, &again)?;
    let kept = after(&replacing, RegisterCall::DeclareLost(1, 1))?;
    let back = read_old(&mut core, &kept, room, again)?;
    Some((core, back))
}

/// Replaces the device of slot 1 as [`replace_in_service`] does, but before the core has looked again it is handed a
/// write of block 0, and answers the core with the buffer of that: the other data block is read, and the new block
/// written to the old device and to the new one, and P and Q to theirs; after a look the write is done. `None` as
/// there, and where a block that is written isn't that of this row.
///
/// The contract carries the run (`run`): whatever array has this block on slot 1 and the other one on slot 2, the calls
/// are such a run.
pub fn write_to_both(alloc: Global, block: Buffer, row: WrittenRow) -> Option<(Core, Buffer)>
    ensures run { IfSome result (λ r. RunsThroughWriteToBoth block row r.0) }
{
    let copy = copy_of(alloc, &block)?;
    let new_data = copy_of(alloc, &row.new_data)?;
    let (mut core, register) = one_core(alloc)?;
    let replacing = look_beside(&mut core, &register)?;
    copy_row(&mut core, block, &copy)?;
    report(&mut core, Answer::Complete)?;
    let replaced = after(&replacing, RegisterCall::ReportRebuilt(0, 1, 1))?;
    write_both(&mut core, new_data, row)?;
    let back = see_done(&mut core, &replaced)?;
    Some((core, back))
}

// The same block, in a buffer of its own.
pub(crate) fn copy_of(alloc: Global, block: &Buffer) -> Option<Buffer>
    ensures { IfSome result (λ copy. copy ≡ block.now) }
{
    let mut copy = Buffer::new(alloc, block.len()).ok()?;
    copy.copy_from(block);
    Some(copy)
}

// The register of one shard after this call, which isn't refused.
pub(crate) fn after(register: &Snapshot, call: RegisterCall) -> Option<Snapshot>
    ensures { IfSome result (λ next. next ≡ after 1 register.now call) }
{
    let (_, next) = register.apply(4, 1, call).ok()?;
    Some(next)
}

// The device of slot 1 is replaced at the register, and the core looks at it.
pub(crate) fn look_beside(core: &mut Core, register: &Snapshot) -> Option<Snapshot>
    ensures { IfSome result (λ replacing. LooksBeside register.now replacing core.old core.new) }
{
    let replacing = after(register, RegisterCall::Replace(1))?;
    core.look(&replacing).ok()?;
    Some(replacing)
}

// The core takes up its row, reads this block from the old device and writes this one to the new one.
pub(crate) fn copy_row(core: &mut Core, block: Buffer, copy: &Buffer) -> Option<()>
    ensures { IfSome result (λ _. CopiesRow block copy.now core.old core.new) }
{
    take_up(core)?;
    answer_read(core, 1, 0, 0, block)?;
    confirm_write(core, 1, 1, 0, copy)
}

// The core takes up its row, but the old device is gone: it reads the others, and writes this block to the new device.
fn restore_row(core: &mut Core, other: Buffer, parity: Buffer, lost: &Buffer) -> Option<()>
    ensures { IfSome result (λ _. RestoresRow other parity lost.now core.old core.new) }
{
    take_up(core)?;
    fail_read(core, 1, FaultKind::Gone)?;
    answer_read(core, 2, 0, 0, other)?;
    answer_read(core, 3, 0, 0, parity)?;
    confirm_write(core, 1, 1, 0, lost)
}

// The core takes up its row and reads this block from the old device, but this one can't be written to the new one: its
// loss is declared, and the old one is kept.
fn lose_new(core: &mut Core, block: Buffer, copy: &Buffer) -> Option<()>
    ensures { IfSome result (λ _. LosesNew block copy.now core.old core.new) }
{
    take_up(core)?;
    answer_read(core, 1, 0, 0, block)?;
    fail_write(core, 1, 1, 0, copy)?;
    keep_old(core)
}

// The next command is the write of this block to this slot in this row, on the device of this generation, which answers
// by a fault.
fn fail_write(core: &mut Core, slot: usize, generation: u32, row: u64, block: &Buffer) -> Option<()>
    ensures { IfSome result (λ _. FailsWrite slot generation row block.now core.old core.new) }
{
    let command = core.take_command()?;
    if command.slot != slot || command.generation != generation || command.row != row {
        return None;
    }
    match command.kind {
        CommandKind::Write => {}
        CommandKind::Read => return None,
    }
    if command.buffer.as_slice() != block.as_slice() {
        return None;
    }
    let fault = DeviceFault {
        kind: FaultKind::WriteFault,
        buffer: command.buffer,
    };
    complete(core, command.token, Err(fault))
}

// The next call declares the loss of the new device, and is answered that the old one is kept.
fn keep_old(core: &mut Core) -> Option<()>
    ensures { IfSome result (λ _. Tells (LossOf 1 1) Kept core.old core.new) }
{
    match core.take_call()? {
        Call::DeclareLost(1, 1) => {}
        _ => return None,
    }
    core.told(Call::DeclareLost(1, 1), Ok(Answer::Kept)).ok()?;
    Some(())
}

// The core looks and is handed its first request, the read of block 0, which the new device answers with this block.
fn read_new(core: &mut Core, register: &Snapshot, room: Buffer, block: Buffer) -> Option<Buffer>
    ensures { IfSome result (λ back. ReadsNew register.now block back core.old core.new) }
{
    core.look(register).ok()?;
    read_back(core, register, room, block)
}

// Likewise, which the old device answers.
fn read_old(core: &mut Core, register: &Snapshot, room: Buffer, block: Buffer) -> Option<Buffer>
    ensures { IfSome result (λ back. ReadsOld register.now block back core.old core.new) }
{
    core.look(register).ok()?;
    submit_read(core, 0, room)?;
    answer_read(core, 1, 0, 0, block)?;
    core.look(register).ok()?;
    take_block(core)
}

// The core is handed a write of block 0, its first request, reads the other data block, and writes the new block to the
// old device and to the new one, and P and Q.
fn write_both(core: &mut Core, new_data: Buffer, row: WrittenRow) -> Option<()>
    ensures { IfSome result (λ _. WritesBoth new_data row core.old core.new) }
{
    submit_write(core, new_data)?;
    answer_read(core, 2, 0, 0, row.other)?;
    confirm_write(core, 1, 0, 0, &row.new_data)?;
    confirm_write(core, 1, 1, 0, &row.new_data)?;
    confirm_write(core, 3, 0, 0, &row.p)?;
    confirm_write(core, 0, 0, 0, &row.q)
}

fn submit_write(core: &mut Core, new_data: Buffer) -> Option<()>
    ensures { IfSome result (λ _. Step core.old (Submit (Write 0 new_data) 0) core.new) }
{
    match core.submit(Op::Write(0, new_data)) {
        Ok(OpId(0)) => Some(()),
        _ => None,
    }
}

// The core looks, and its write is done.
fn see_done(core: &mut Core, register: &Snapshot) -> Option<Buffer>
    ensures { IfSome result (λ _. SeesDone register.now core.old core.new) }
{
    core.look(register).ok()?;
    take_done(core)
}

fn take_done(core: &mut Core) -> Option<Buffer>
    ensures { IfSome result (λ _. Step core.old (Take_reply 0 Done) core.new) }
{
    match core.take_reply()? {
        (OpId(0), Reply::Done(back)) => Some(back),
        _ => None,
    }
}

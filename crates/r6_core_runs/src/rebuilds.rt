//! A run of cores that rebuild, as their callers' calls make it.

ghost use Rattle.std.specs.Prelude.{◌≡◌, IfSome};
ghost use Rattle.r6_health.specs.Registers.{after};
ghost use Rattle.r6_world.specs.ShardStates.{RebuildOf};
ghost use Rattle.r6_core_runs.specs.Losses.{Writes, Tells};
ghost use Rattle.r6_core_runs.specs.Rebuilds.{TakesUp, RebuildsRow, BothLook, Replaces, RebuildsBoth, ReadsBack, RebuildsAndReads, RunsThroughRebuild};

use crate::losses::{answer_read, complete, submit_read, take_block, two_cores};
use r6_core::{Call, CommandKind, Core, Task, Turn};
use r6_health::{Answer, Call as RegisterCall, Snapshot};
use r6_kernels::Buffer;
use std::alloc::Global;

/// The blocks of a row of four slots, one of whose data blocks is lost: its slot has failed, or can't give it.
#[derive(Drop)]
pub struct LostRow {
    /// The other data block.
    pub other: Buffer,
    /// P.
    pub parity: Buffer,
    /// The data block that is lost.
    pub lost: Buffer,
}

/// Rebuilds slot 1 of the smallest array of two shards, and answers both cores with block 0, read from the new device:
/// two cores are made; slot 1 is failed and a new device attached, and both look at the register each time; each core
/// takes its row up, reads the other data block and P, and writes the block that was lost to the new device; their
/// reports complete the rebuild, and after a look the first core is handed a read of block 0, which goes to the
/// rebuilt slot. `None` where memory is refused, a buffer isn't of 16 bytes, a restored block isn't the one that was
/// lost, or a call answers anything else than this run has.
///
/// The contract carries the run (`run`): whatever array has these data blocks and parities on the slots 2 and 3 of row
/// 0 and 0 and 2 of row 1, the calls are a run of both cores with their devices and the one register, such as the
/// laws of [`array_law`](r6_core::array_law) speak of.
pub fn rebuild_in_two_shards(
    alloc: Global,
    here: LostRow,
    there: LostRow,
    room: Buffer,
) -> Option<(Core, Core, Buffer)>
    ensures run { IfSome result (λ r. RunsThroughRebuild here there r.2 r.0 r.1) }
{
    let (mut first, mut second, register) = two_cores(alloc)?;
    let block = rebuild(&mut first, &mut second, &register, here, there, room)?;
    Some((first, second, block))
}

// The slot is replaced, both cores rebuild their rows, and the first reads block 0.
fn rebuild(
    first: &mut Core,
    second: &mut Core,
    register: &Snapshot,
    here: LostRow,
    there: LostRow,
    room: Buffer,
) -> Option<Buffer>
    ensures { IfSome result (λ block.
        RebuildsAndReads register.now here there block first.old second.old first.new second.new) }
{
    let attached = replace(first, second, register)?;
    let (rebuilt, restored) = rebuild_both(first, second, &attached, here, there)?;
    read_back(first, &rebuilt, room, restored)
}

// Slot 1 is failed at the register and a new device attached, and both cores look at it each time.
fn replace(first: &mut Core, second: &mut Core, register: &Snapshot) -> Option<Snapshot>
    ensures { IfSome result (λ attached. Replaces register.now attached first.old second.old first.new second.new) }
{
    let lost = after(register, RegisterCall::Fail(1))?;
    look_both(first, second, &lost)?;
    let attached = after(&lost, RegisterCall::Attach(1))?;
    look_both(first, second, &attached)?;
    Some(attached)
}

// Each core rebuilds its row and reports it, and both look at the register. The block that the first restored is
// answered.
fn rebuild_both(
    first: &mut Core,
    second: &mut Core,
    attached: &Snapshot,
    here: LostRow,
    there: LostRow,
) -> Option<(Snapshot, Buffer)>
    ensures restored { IfSome result (λ r. r.1 ≡ here.lost) }
    ensures rebuilt { IfSome result (λ r.
        RebuildsBoth attached.now here there r.0 first.old second.old first.new second.new) }
{
    let restored = rebuild_row(first, 2, 3, 0, here, Answer::More)?;
    rebuild_row(second, 0, 2, 1, there, Answer::Complete)?;
    let half = after(attached, RegisterCall::ReportRebuilt(0, 1, 1))?;
    let rebuilt = after(&half, RegisterCall::ReportRebuilt(1, 1, 1))?;
    look_both(first, second, &rebuilt)?;
    Some((rebuilt, restored))
}

// The core is handed its first request, the read of block 0, which the new device answers with this block.
pub(crate) fn read_back(
    core: &mut Core,
    register: &Snapshot,
    room: Buffer,
    restored: Buffer,
) -> Option<Buffer>
    ensures { IfSome result (λ block. ReadsBack register.now restored block core.old core.new) }
{
    submit_read(core, 0, room)?;
    answer_read(core, 1, 1, 0, restored)?;
    core.look(register).ok()?;
    take_block(core)
}

fn look_both(first: &mut Core, second: &mut Core, register: &Snapshot) -> Option<()>
    ensures { IfSome result (λ _. BothLook register.now first.old second.old first.new second.new) }
{
    first.look(register).ok()?;
    second.look(register).ok()?;
    Some(())
}

// The register of two shards after this call, which isn't refused.
fn after(register: &Snapshot, call: RegisterCall) -> Option<Snapshot>
    ensures { IfSome result (λ next. next ≡ after 2 register.now call) }
{
    let (_, next) = register.apply(4, 2, call).ok()?;
    Some(next)
}

// The core takes up its row of the new device on slot 1, restores the block from these two slots' blocks, and reports
// it.
fn rebuild_row(
    core: &mut Core,
    one: usize,
    another: usize,
    row: u64,
    blocks: LostRow,
    answer: Answer,
) -> Option<Buffer>
    ensures restored { IfSome result (λ block. block ≡ blocks.lost) }
    ensures rebuilt { IfSome result (λ _. RebuildsRow one another row blocks answer core.old core.new) }
{
    take_up(core)?;
    answer_read(core, one, 0, row, blocks.other)?;
    answer_read(core, another, 0, row, blocks.parity)?;
    confirm_write(core, 1, 1, row, &blocks.lost)?;
    report(core, answer)?;
    Some(blocks.lost)
}

pub(crate) fn take_up(core: &mut Core) -> Option<()>
    ensures { IfSome result (λ _. TakesUp core.old core.new) }
{
    match core.turn(Task::Rebuild).ok()? {
        Turn::Started => Some(()),
        Turn::Skipped => None,
    }
}

// The next command is the write of this block to this slot in this row, on the device of this generation, and is
// confirmed.
pub(crate) fn confirm_write(
    core: &mut Core,
    slot: usize,
    generation: u32,
    row: u64,
    block: &Buffer,
) -> Option<()>
    ensures { IfSome result (λ _. Writes slot generation row block.now core.old core.new) }
{
    let command = core.take_command()?;
    if command.slot != slot || command.generation != generation || command.row != row {
        return None;
    }
    match command.kind {
        CommandKind::Write => {}
        CommandKind::Read => return None,
    }
    if command.buffer.as_slice() != block.as_slice() {
        return None;
    }
    complete(core, command.token, Ok(command.buffer))
}

pub(crate) fn report(core: &mut Core, answer: Answer) -> Option<()>
    ensures { IfSome result (λ _. Tells (RebuildOf 1 1) answer core.old core.new) }
{
    match core.take_call()? {
        Call::ReportRebuilt(1, 1) => {}
        _ => return None,
    }
    core.told(Call::ReportRebuilt(1, 1), Ok(answer)).ok()?;
    Some(())
}

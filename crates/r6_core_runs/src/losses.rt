//! Runs of cores through the loss of a device, as their callers' calls make them.

ghost use Rattle.std.specs.Prelude.{IfSome, Result};
ghost use Rattle.r6_world.specs.PlainArray.{Read, Data};
ghost use Rattle.r6_world.specs.ShardStates.{LossOf};
ghost use Rattle.r6_world.specs.Steps.{Submit, Deliver, Taken, Take_reply};
ghost use Rattle.r6_world.specs.Values.{completion_of, error_of};
ghost use Rattle.r6_core_runs.specs.Losses.{TakesRead, AnswersRead, Reads, Tells, FindsLoss, Restores, ReadsAround, IsOneMade, AreBothMade, RunsThroughLoss, RunsBesideLoss};
ghost use Rattle.r6_core.specs.Shards.{Step};

use r6_core::{Call, Command, CommandKind, Core, DeviceFault, FaultKind, Op, OpId, Receipt, Reply};
use r6_health::{Answer, Snapshot};
use r6_kernels::Buffer;
use r6_layout::Geometry;
use std::alloc::Global;

/// Reads block 0 of the smallest array through the loss of its device, and answers the core with the block: a core is
/// made, the read submitted, its command answered by an error and the loss declared; then the other data block and P
/// are read, the core looks at the register, and its reply is taken. `None` where memory is refused, a buffer isn't of
/// 16 bytes, or a call answers anything else than this run has.
///
/// The contract carries the run (`run`): whatever array has these two blocks on slots 2 and 3, the calls are a run of
/// the core with its devices and its register, such as the laws of [`array_law`](r6_core::array_law) speak of.
pub fn read_through_a_loss(
    alloc: Global,
    room: Buffer,
    other: Buffer,
    parity: Buffer,
) -> Option<(Core, Buffer)>
    ensures run { IfSome result (λ r. RunsThroughLoss other parity r.1 r.0) }
{
    let (mut core, register) = one_core(alloc)?;
    find_loss(&mut core, room)?;
    let block = restore(&mut core, 2, 3, 0, &register.lose(1), other, parity)?;
    Some((core, block))
}

/// Reads block 3 of the smallest array of two shards, whose device was lost by the other shard, and answers both cores
/// with the block: the core of shard 0 is handed a read of block 0, whose command is answered by an error, and
/// declares the loss at the register; the core of shard 1 sees it at a look, reads the other data block of its row and
/// P, and after another look its reply is taken. `None` as of [`read_through_a_loss`].
///
/// The contract carries the run (`run`): whatever array has these two blocks on slots 0 and 2 of row 1, the calls are
/// a run of both cores with their devices and the one register, such as the laws of [`array_law`](r6_core::array_law)
/// speak of.
pub fn read_beside_a_loss(
    alloc: Global,
    lost: Buffer,
    room: Buffer,
    other: Buffer,
    parity: Buffer,
) -> Option<(Core, Core, Buffer)>
    ensures run { IfSome result (λ r. RunsBesideLoss other parity r.2 r.0 r.1) }
{
    let (mut first, mut second, register) = two_cores(alloc)?;
    find_loss(&mut first, lost)?;
    let block = read_around(&mut second, &register.lose(1), room, other, parity)?;
    Some((first, second, block))
}

// The core of the smallest array, and the register that it was made at.
pub(crate) fn one_core(alloc: Global) -> Option<(Core, Snapshot)>
    ensures { IfSome result (λ r. IsOneMade r.1 r.0) }
{
    let geometry = Geometry::new(4, 1, 16, 1, 1).ok()?;
    let register = Snapshot::start(&geometry, 0);
    let core = Core::new(alloc, geometry, 0, 1, &register).ok()?;
    Some((core, register))
}

// The cores of the smallest array of two shards, and the register that they were made at.
pub(crate) fn two_cores(alloc: Global) -> Option<(Core, Core, Snapshot)>
    ensures { IfSome result (λ r. AreBothMade r.2 r.0 r.1) }
{
    let geometry = Geometry::new(4, 1, 16, 2, 2).ok()?;
    let register = Snapshot::start(&geometry, 0);
    let first = Core::new(alloc, geometry, 0, 1, &register).ok()?;
    let second = Core::new(alloc, geometry, 1, 1, &register).ok()?;
    Some((first, second, register))
}

// The core is handed a read of block 0, whose command is answered by an error, and the loss is declared.
fn find_loss(core: &mut Core, room: Buffer) -> Option<()>
    ensures { IfSome result (λ _. FindsLoss core.old core.new) }
{
    submit_read(core, 0, room)?;
    fail_read(core, 1, FaultKind::Gone)?;
    declare_loss(core, 1, Answer::Degraded)
}

// The core sees the loss, and reads block 3 by the two others of its row.
fn read_around(
    core: &mut Core,
    register: &Snapshot,
    room: Buffer,
    other: Buffer,
    parity: Buffer,
) -> Option<Buffer>
    ensures { IfSome result (λ block. ReadsAround register.now other parity block core.old core.new) }
{
    core.look(register).ok()?;
    submit_read(core, 3, room)?;
    restore(core, 0, 2, 1, register, other, parity)
}

// The core restores a block of this row from those of two slots, which are answered with these, and its reply is taken
// after a look.
fn restore(
    core: &mut Core,
    one: usize,
    another: usize,
    row: u64,
    register: &Snapshot,
    other: Buffer,
    parity: Buffer,
) -> Option<Buffer>
    ensures { IfSome result (λ block.
        Restores one another row register.now other parity block core.old core.new) }
{
    answer_read(core, one, 0, row, other)?;
    answer_read(core, another, 0, row, parity)?;
    core.look(register).ok()?;
    take_block(core)
}

// The core's first request is the read of this block.
pub(crate) fn submit_read(core: &mut Core, block: u64, room: Buffer) -> Option<()>
    ensures { IfSome result (λ _. Step core.old (Submit (Read block) 0) core.new) }
{
    match core.submit(Op::Read(block, room)) {
        Ok(OpId(0)) => Some(()),
        _ => None,
    }
}

// The next command is the read of this slot in row 0, and its device answers by this fault.
pub(crate) fn fail_read(core: &mut Core, slot: usize, kind: FaultKind) -> Option<()>
    ensures { IfSome result (λ _. AnswersRead slot 0 0 (error_of kind) core.old core.new) }
{
    let command = take_read(core, slot, 0, 0)?;
    let fault = DeviceFault {
        kind,
        buffer: command.buffer,
    };
    complete(core, command.token, Err(fault))
}

// The next command is the read of this slot in this row, from the device of this generation, and is answered with this
// block.
pub(crate) fn answer_read(
    core: &mut Core,
    slot: usize,
    generation: u32,
    row: u64,
    block: Buffer,
) -> Option<()>
    ensures { IfSome result (λ _. Reads slot generation row block core.old core.new) }
{
    let command = take_read(core, slot, generation, row)?;
    complete(core, command.token, Ok(block))
}

// The next command, which is the read of this slot in this row, from the device of this generation.
fn take_read(core: &mut Core, slot: usize, generation: u32, row: u64) -> Option<Command>
    ensures { IfSome result (λ c. TakesRead slot generation row c.token core.old core.new) }
{
    let command = core.take_command()?;
    if command.slot != slot || command.generation != generation || command.row != row {
        return None;
    }
    match command.kind {
        CommandKind::Read => Some(command),
        CommandKind::Write => None,
    }
}

// The completion isn't late.
pub(crate) fn complete(
    core: &mut Core,
    token: u64,
    completion: Result<Buffer, DeviceFault>,
) -> Option<()>
    ensures { IfSome result (λ _. Step core.old (Deliver token (completion_of completion) Taken) core.new) }
{
    match core.deliver(token, completion).ok()? {
        Receipt::Taken => Some(()),
        Receipt::Late => None,
    }
}

// The next call declares the loss of the first device of this slot, and has this answer.
pub(crate) fn declare_loss(core: &mut Core, slot: usize, answer: Answer) -> Option<()>
    ensures { IfSome result (λ _. Tells (LossOf slot 0) answer core.old core.new) }
{
    match core.take_call()? {
        Call::DeclareLost(lost, 0) if lost == slot => {}
        _ => return None,
    }
    core.told(Call::DeclareLost(slot, 0), Ok(answer)).ok()?;
    Some(())
}

pub(crate) fn take_block(core: &mut Core) -> Option<Buffer>
    ensures { IfSome result (λ block. Step core.old (Take_reply 0 (Data block)) core.new) }
{
    match core.take_reply()? {
        (OpId(0), Reply::Data(block)) => Some(block),
        _ => None,
    }
}

//! Runs of a core through read errors, as its caller's calls make them.

ghost use Rattle.std.specs.Prelude.{IfSome};
ghost use Rattle.r6_world.specs.PlainArray.{ArrayFailed};
ghost use Rattle.r6_world.specs.Steps.{Take_reply};
ghost use Rattle.r6_core_runs.specs.Fixes.{MeetsErrors, PutsFix, ReadsFixed, LosesFixed, MeetsFailure, DeclaresThree, IsFailedBy, RunsThroughFix, RunsThroughFailedFix, RunsIntoFailure};
ghost use Rattle.r6_core.specs.Shards.{Step};

use crate::losses::{answer_read, declare_loss, fail_read, one_core, submit_read, take_block};
use crate::rebuilds::{LostRow, confirm_write};
use r6_core::{Core, FaultKind, OpId, Reply};
use r6_health::{Answer, Snapshot};
use r6_kernels::Buffer;
use std::alloc::Global;

/// Reads block 0 of the smallest array, which its device can't give, and answers the core with the block: a core is
/// made and the read submitted; its command is answered by a read error, and so is the first read of its hold; the
/// other data block and P are read, the block that is computed of them is written to its slot, and read there again;
/// then the core looks at the register, and its reply is taken. Slot 1 is in sync as before. `None` as of
/// [`read_through_a_loss`](crate::read_through_a_loss), and where the block that is written isn't the one that was
/// lost.
///
/// The contract carries the run (`run`): whatever array has these two blocks on slots 2 and 3, the calls are a run of
/// the core with its devices and its register, such as the laws of [`array_law`](r6_core::array_law) speak of. It
/// makes no call at the register.
pub fn read_through_a_fix(alloc: Global, room: Buffer, blocks: LostRow) -> Option<(Core, Buffer)>
    ensures run { IfSome result (λ r. RunsThroughFix blocks r.1 r.0) }
{
    let (mut core, register) = one_core(alloc)?;
    meet_errors(&mut core, room)?;
    put_fix(&mut core, blocks.other, blocks.parity, &blocks.lost)?;
    let block = read_fixed(&mut core, &register, blocks.lost)?;
    match core.in_sync(1) {
        Some(0) => Some((core, block)),
        _ => None,
    }
}

/// Reads block 0 as [`read_through_a_fix`] does, but its device can't give the block that was written either, and
/// answers the core with the block: the read of it is answered by a read error too, and the loss of the slot is
/// declared; then the core looks at the register, and its reply is taken, the block that was computed.
///
/// The contract carries the run (`run`), as there.
pub fn read_through_a_failed_fix(
    alloc: Global,
    room: Buffer,
    blocks: LostRow,
) -> Option<(Core, Buffer)>
    ensures run { IfSome result (λ r. RunsThroughFailedFix blocks r.1 r.0) }
{
    let (mut core, register) = one_core(alloc)?;
    meet_errors(&mut core, room)?;
    put_fix(&mut core, blocks.other, blocks.parity, &blocks.lost)?;
    let block = lose_fixed(&mut core, &register.lose(1))?;
    Some((core, block))
}

/// Reads block 0 of the smallest array, of whose row two blocks can't be read and a slot is lost, and answers the core
/// with the buffer of the reply: a core is made and the read submitted; its command is answered by a read error, and so
/// are the first read of its hold and that of the other data block; the device of P is gone, and with it too few blocks
/// can become known. The core loses the two slots of the read errors, in the order of the row, and its caller declares
/// all three losses, with which the array has failed; then the core looks at the register, and its reply is taken.
/// `None` as of [`read_through_a_loss`](crate::read_through_a_loss).
///
/// The contract carries the run (`run`): whatever the array is, the calls are a run of the core with its devices and
/// its register, such as the laws of [`array_law`](r6_core::array_law) speak of.
pub fn read_into_a_failure(alloc: Global, room: Buffer) -> Option<(Core, Buffer)>
    ensures run { IfSome result (λ r. RunsIntoFailure r.0) }
{
    let (mut core, register) = one_core(alloc)?;
    meet_errors(&mut core, room)?;
    meet_failure(&mut core)?;
    declare_three(&mut core)?;
    let failed = register.lose(3).lose(1).lose(2);
    let back = see_failure(&mut core, &failed)?;
    Some((core, back))
}

// The core is handed a read of block 0, whose device answers by read errors, directly and in its hold.
pub(crate) fn meet_errors(core: &mut Core, room: Buffer) -> Option<()>
    ensures { IfSome result (λ _. MeetsErrors core.old core.new) }
{
    submit_read(core, 0, room)?;
    fail_read(core, 1, FaultKind::ReadFault)?;
    fail_read(core, 1, FaultKind::ReadFault)
}

// The core reads the others and puts out the block's fix, which is confirmed.
fn put_fix(core: &mut Core, other: Buffer, parity: Buffer, lost: &Buffer) -> Option<()>
    ensures { IfSome result (λ _. PutsFix other parity lost.now core.old core.new) }
{
    answer_read(core, 2, 0, 0, other)?;
    answer_read(core, 3, 0, 0, parity)?;
    confirm_write(core, 1, 0, 0, lost)
}

// The core reads the block again, which is there, and its reply is taken after a look.
fn read_fixed(core: &mut Core, register: &Snapshot, lost: Buffer) -> Option<Buffer>
    ensures { IfSome result (λ block. ReadsFixed register.now lost block core.old core.new) }
{
    answer_read(core, 1, 0, 0, lost)?;
    core.look(register).ok()?;
    take_block(core)
}

// The core reads the block again, which isn't there: the loss is declared, and its reply is taken after a look.
fn lose_fixed(core: &mut Core, register: &Snapshot) -> Option<Buffer>
    ensures { IfSome result (λ block. LosesFixed register.now block core.old core.new) }
{
    fail_read(core, 1, FaultKind::ReadFault)?;
    declare_loss(core, 1, Answer::Degraded)?;
    core.look(register).ok()?;
    take_block(core)
}

// The core reads the others, of which one answers by a read error, and the device of P is gone.
fn meet_failure(core: &mut Core) -> Option<()>
    ensures { IfSome result (λ _. MeetsFailure core.old core.new) }
{
    fail_read(core, 2, FaultKind::ReadFault)?;
    fail_read(core, 3, FaultKind::Gone)
}

// The loss of P is declared, and those of the two data blocks.
fn declare_three(core: &mut Core) -> Option<()>
    ensures { IfSome result (λ _. DeclaresThree core.old core.new) }
{
    declare_loss(core, 3, Answer::Degraded)?;
    declare_loss(core, 1, Answer::Degraded)?;
    declare_loss(core, 2, Answer::Failed)
}

// The core sees the failure, with which it answers its request.
fn see_failure(core: &mut Core, failed: &Snapshot) -> Option<Buffer>
    ensures { IfSome result (λ _. IsFailedBy failed.now core.old core.new) }
{
    core.look(failed).ok()?;
    take_failure(core)
}

fn take_failure(core: &mut Core) -> Option<Buffer>
    ensures { IfSome result (λ _. Step core.old (Take_reply 0 ArrayFailed) core.new) }
{
    match core.take_reply()? {
        (OpId(0), Reply::ArrayFailed(back)) => Some(back),
        _ => None,
    }
}

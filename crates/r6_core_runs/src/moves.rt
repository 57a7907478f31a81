//! The run of a core that reads a block from the new device of a slot, since its old one can't give it.

ghost use Rattle.std.specs.Prelude.{◌≡◌, IfSome, Err};
ghost use Rattle.r6_world.specs.Registers.{Stale};
ghost use Rattle.r6_world.specs.ShardStates.{LossOf};
ghost use Rattle.r6_core_runs.specs.Losses.{IsTold};
ghost use Rattle.r6_core_runs.specs.Moves.{ReadsMoved, DeclaresMoved, SeesBlock, RunsThroughMove};

use crate::fixes::meet_errors;
use crate::losses::{answer_read, declare_loss, fail_read, one_core, take_block};
use crate::rebuilds::report;
use crate::replacements::{after, copy_of, copy_row, look_beside};
use r6_core::{Call, Core, FaultKind};
use r6_health::{Answer, Call as RegisterCall, Refusal as RegisterRefusal, Snapshot};
use r6_kernels::Buffer;
use std::alloc::Global;

/// Reads block 0 of the smallest array while slot 1 has two devices in sync, and answers the core with the block: the
/// device of slot 1 is replaced and its row copied and reported, and before the core has looked again it is handed the
/// read. The old device can't give the block, and the devices of the other data block and of P are gone, so that with Q
/// alone too few blocks are left to compute it from. The core loses the old device alone, and reads the block from the
/// new one. Its caller declares the three losses; the register has the old device no more and refuses the third, as
/// `Stale`. After a look the reply is taken. `None` as of [`read_through_a_loss`](crate::read_through_a_loss).
///
/// The contract carries the run (`run`): whatever array has these blocks on slots 1 and 0, the calls are a run of the
/// core with its devices and its register, such as the laws of [`array_law`](r6_core::array_law) speak of.
pub fn read_through_a_move(
    alloc: Global,
    room: Buffer,
    block: Buffer,
    q: Buffer,
) -> Option<(Core, Buffer)>
    ensures run { IfSome result (λ r. RunsThroughMove block q r.1 r.0) }
{
    let copy = copy_of(alloc, &block)?;
    let again = copy_of(alloc, &block)?;
    let (mut core, register) = one_core(alloc)?;
    let replacing = look_beside(&mut core, &register)?;
    copy_row(&mut core, block, &copy)?;
    report(&mut core, Answer::Complete)?;
    let replaced = after(&replacing, RegisterCall::ReportRebuilt(0, 1, 1))?;
    meet_errors(&mut core, room)?;
    read_moved(&mut core, q, again)?;
    declare_moved(&mut core)?;
    let one_lost = after(&replaced, RegisterCall::DeclareLost(2, 0))?;
    let two_lost = after(&one_lost, RegisterCall::DeclareLost(3, 0))?;
    let back = see_block(&mut core, &two_lost)?;
    Some((core, back))
}

// The devices of the other data block and of P are gone; the core reads Q, and the block from the new device.
fn read_moved(core: &mut Core, q: Buffer, block: Buffer) -> Option<()>
    ensures { IfSome result (λ _. ReadsMoved q block core.old core.new) }
{
    fail_read(core, 2, FaultKind::Gone)?;
    fail_read(core, 3, FaultKind::Gone)?;
    answer_read(core, 0, 0, 0, q)?;
    answer_read(core, 1, 1, 0, block)
}

// The losses of both are declared, and then that of the old device.
fn declare_moved(core: &mut Core) -> Option<()>
    ensures { IfSome result (λ _. DeclaresMoved core.old core.new) }
{
    declare_loss(core, 2, Answer::Degraded)?;
    declare_loss(core, 3, Answer::Degraded)?;
    declare_old(core)
}

// The next call declares the loss of the old device, which the register has no more.
fn declare_old(core: &mut Core) -> Option<()>
    ensures { IfSome result (λ _. IsTold (LossOf 1 0) (Err Stale) core.old core.new) }
{
    match core.take_call()? {
        Call::DeclareLost(1, 0) => {}
        _ => return None,
    }
    let refused = Err(RegisterRefusal::Stale);
    core.told(Call::DeclareLost(1, 0), refused).ok()?;
    Some(())
}

// The core looks, and its read is answered.
fn see_block(core: &mut Core, register: &Snapshot) -> Option<Buffer>
    ensures { IfSome result (λ back. SeesBlock register.now back core.old core.new) }
{
    core.look(register).ok()?;
    take_block(core)
}

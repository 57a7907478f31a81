//! What the library's numbers mean.

ghost use Rattle.std.specs.Prelude.{◌≡◌, ◌≤◌, ◌+◌, ℕ};
ghost use Rattle.r6_core.specs.Refusals.{number_of};
ghost use Rattle.r6_health.specs.Refusals.{refusal_number};
ghost use Rattle.r6_core.specs.Shards.{counts_of};
ghost use Rattle.r6_array_c.specs.Numbers as specs;

use r6_core::{Call, Counts, FaultKind, Refusal, Task};
use r6_health::{Answer, Refusal as RegisterRefusal, SlotState};

/// All buffers for requests are in use, as the core's refusal.
pub(crate) const BUSY: u32 = 4;

/// An order has nothing to deliver, as the core's refusal of a token.
pub(crate) const UNKNOWN: u32 = 7;

/// There is no such shard, slot, task or call.
pub(crate) const NO_SUCH: u32 = 90;

/// There is nothing to hand out.
pub(crate) const NONE: u32 = 91;

/// The order has a command that isn't delivered.
pub(crate) const IN_USE: u32 = 92;

/// The number of a refusal of the core.
pub(crate) fn of_refusal(refusal: Refusal) -> u32
    ensures number { result ≡ number_of refusal }
    ensures bounds { (1 ≤ result) × (result ≤ 12) }
{
    u32::from(refusal.number())
}

/// A refusal of the register, as 100 and its number.
pub(crate) fn of_register(refusal: RegisterRefusal) -> u32
    ensures { result ≡ 100 + refusal_number refusal }
{
    100 + u32::from(refusal.number())
}

/// The generation that a new device was given, and 0 of any other answer.
pub(crate) fn of_answer(answer: Answer) -> u64
    ensures { (generation : ℕ) → answer ≡ Answer.Generation generation → result ≡ generation }
{
    match answer {
        Answer::Generation(generation) => u64::from(generation),
        Answer::Degraded | Answer::Failed | Answer::More | Answer::Complete | Answer::Kept => 0,
    }
}

/// Of the loss of a device: 1 if the slot's other one has it in sync, and else 0.
pub(crate) fn of_loss(answer: Answer) -> u64
    ensures { result ≡ specs.kept_number answer }
{
    match answer {
        Answer::Kept => 1,
        Answer::Degraded
        | Answer::Failed
        | Answer::Generation(_)
        | Answer::More
        | Answer::Complete => 0,
    }
}

/// A change: 0 a slot is lost, or 1 a shard has rebuilt its rows of it; the slot, and its generation.
pub(crate) fn of_call(call: Call) -> (u32, usize, u32)
    ensures kind { result.0 ≡ (specs.call_numbers call).0 }
    ensures slot { result.1 ≡ (specs.call_numbers call).1 }
    ensures generation { result.2 ≡ (specs.call_numbers call).2 }
{
    match call {
        Call::DeclareLost(slot, generation) => (0, slot, generation),
        Call::ReportRebuilt(slot, generation) => (1, slot, generation),
    }
}

/// The state of a slot: 0 in sync, also while it is being replaced, 1 lost, 2 rebuilding with this generation.
pub(crate) fn of_state(state: SlotState) -> (u32, u32)
    ensures number { result.0 ≡ specs.state_number state }
    ensures generation { result.1 ≡ specs.state_generation state }
{
    match state {
        SlotState::InSync(_) | SlotState::Replacing(_, _, _) => (0, 0),
        SlotState::Lost => (1, 0),
        SlotState::Rebuilding(generation, _) => (2, generation),
    }
}

/// How a device failed: 0 not at all, 1 to 3 a read fault, a write fault, gone; and any other number as a length that
/// doesn't fit.
pub(crate) fn fault_of(number: u32) -> Option<FaultKind>
    ensures { result ≡ specs.fault_of number }
{
    match number {
        0 => None,
        1 => Some(FaultKind::ReadFault),
        2 => Some(FaultKind::WriteFault),
        3 => Some(FaultKind::Gone),
        _ => Some(FaultKind::Length),
    }
}

/// A task: 0 rebuild, 1 check, 2 repair.
pub(crate) fn task_of(number: u32) -> Option<Task>
    ensures { result ≡ specs.task_of number }
{
    match number {
        0 => Some(Task::Rebuild),
        1 => Some(Task::Check),
        2 => Some(Task::Repair),
        _ => None,
    }
}

/// One of a shard's counts, in the order of their names in the core.
pub(crate) fn count_of(counts: &Counts, number: u32) -> Option<u64>
    ensures { result ≡ specs.count_told (counts_of counts.now) number }
{
    match number {
        0 => Some(counts.consistent),
        1 => Some(counts.wrong_p),
        2 => Some(counts.wrong_q),
        3 => Some(counts.wrong_data),
        4 => Some(counts.many),
        5 => Some(counts.skipped),
        6 => Some(counts.repaired),
        7 => Some(counts.rebuilt),
        _ => None,
    }
}

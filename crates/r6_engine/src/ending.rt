//! Once the threads have ended the shards go on in this one, until each has seen all that became of the array.

ghost use Rattle.std.specs.Prelude.{◌≡◌, ℕ, ◌<◌, ◌≤◌, All, map, true, false};
ghost use Rattle.std.specs.List.{AllZip};
ghost use Rattle.r6_health.specs.Histories.{IsLegal, held};
ghost use Rattle.r6_health.specs.Passes.{IsPassOf, view_of};
ghost use Rattle.r6_engine.specs.declared.runner.left.Left.TheVariants.{Nothing};
ghost use Rattle.r6_engine.specs.runner.Going.{TakesNoMore};
ghost use Rattle.r6_engine.specs.runner.Runners.{IsOver};
ghost use Rattle.r6_engine.specs.Ending.{HasInSync, HaveInSync, HaveTokens, IsKept, IsRebuilt, NoneIsBuilt, current_of, tokens_of};
ghost use Rattle.r6_shard.specs.New.{IsNew};
ghost use Rattle.r6_engine.specs.Passes.{HasItsCalls, IsHeard, IsKnownTo, IsSeen, KnowAll, TakesBack};
ghost use Rattle.r6_engine.specs.runner.Learning.{KeepsAllElse};

use crate::runner::{Left, Runner};
use r6_core::Core;
use r6_dev::BlockDevice;
use r6_health::{Pass, Register, SlotState, Snapshot};
use r6_idle::Idle;
use r6_layout::MOST_SLOTS;
use r6_shard::{Performs, TakesParts};
use std::sync::Wait;

// As many tokens are given in a shard.
const MOST_TOKENS: u64 = 1 << 60;

// One round of each shard; what is left to do of any.
fn go_round_all<P: Performs + Drop, D: BlockDevice + Drop, R: Wait>(
    rt: &R,
    register: &Register,
    runners: &mut [Runner<P, D>],
) -> Left
where
    P: TakesParts<D>,
    requires { All (λ runner. IsPassOf register.now runner.shard.pass) runners.old }
    ensures runners { All (λ runner. IsPassOf register.now runner.shard.pass) runners.new }
    ensures goes { AllZip TakesNoMore runners.old runners.new }
    ensures over { result ≡ Nothing → All IsOver runners.new }
{
    let mut left = Left::Nothing;
    for k in 0..runners.len() {
        left = left.and(runners[k].go_round(rt, register));
    }
    left
}

// This pass learns what that of each shard has seen.
fn learn_from_all<P: Performs + Drop, D: BlockDevice + Drop>(
    register: &Register,
    pass: &mut Pass,
    runners: &mut [Runner<P, D>],
)
where
    P: TakesParts<D>,
    requires pass { IsPassOf register.now pass.old }
    requires runners { All (λ runner. IsPassOf register.now runner.shard.pass) runners.old }
    ensures pass { IsPassOf register.now pass.new }
    ensures back { TakesBack (view_of pass.old) (view_of pass.new) }
    ensures heard { All (IsHeard register.now (view_of pass.new)) runners.new }
    ensures kept { AllZip KeepsAllElse runners.old runners.new }
{
    for k in 0..runners.len() {
        runners[k].tell(register, pass);
    }
}

// The pass of each shard learns what this one has seen, and looks once more: what it calls is known here then.
fn teach_all<P: Performs + Drop, D: BlockDevice + Drop, R: Wait>(
    rt: &R,
    register: &Register,
    pass: &mut Pass,
    runners: &mut [Runner<P, D>],
)
where
    P: TakesParts<D>,
    requires pass { IsPassOf register.now pass.old }
    requires runners { All (λ runner. IsPassOf register.now runner.shard.pass) runners.old }
    requires seen { All (IsSeen (view_of pass.old)) runners.old }
    ensures pass { IsPassOf register.now pass.new }
    ensures same { view_of pass.new ≡ view_of pass.old }
    ensures runners { All (λ runner. IsPassOf register.now runner.shard.pass) runners.new }
    ensures known { All (IsKnownTo (view_of pass.old)) runners.old }
    ensures kept { AllZip KeepsAllElse runners.old runners.new }
{
    for k in 0..runners.len() {
        runners[k].learn(rt, register, pass);
    }
}

// What the register holds, once this pass has learned what that of each shard has seen.
fn look<P: Performs + Drop, D: BlockDevice + Drop, R: Wait>(
    rt: &R,
    register: &Register,
    pass: &mut Pass,
    runners: &mut [Runner<P, D>],
) -> Snapshot
where
    P: TakesParts<D>,
    requires pass { IsPassOf register.now pass.old }
    requires runners { All (λ runner. IsPassOf register.now runner.shard.pass) runners.old }
    ensures pass { IsPassOf register.now pass.new }
    ensures runners { All (λ runner. IsPassOf register.now runner.shard.pass) runners.new }
    ensures back { TakesBack (view_of pass.old) (view_of pass.new) }
    ensures seen { All (IsSeen (view_of pass.new)) runners.new }
    ensures kept { AllZip KeepsAllElse runners.old runners.new }
    ensures snapshot { result ≡ held (view_of pass.new).start (view_of pass.new).seen }
    ensures has { HasItsCalls (view_of pass.new) }
{
    learn_from_all(register, pass, runners);
    register.read(rt, pass)
}

// Whether the register holds this still, once the pass of each shard has learned what this one has seen, and looked
// once more.
fn holds_still<P: Performs + Drop, D: BlockDevice + Drop, R: Wait>(
    rt: &R,
    register: &Register,
    pass: &mut Pass,
    runners: &mut [Runner<P, D>],
    snapshot: &Snapshot,
) -> bool
where
    P: TakesParts<D>,
    requires pass { IsPassOf register.now pass.old }
    requires runners { All (λ runner. IsPassOf register.now runner.shard.pass) runners.old }
    requires seen { All (IsSeen (view_of pass.old)) runners.old }
    ensures pass { IsPassOf register.now pass.new }
    ensures runners { All (λ runner. IsPassOf register.now runner.shard.pass) runners.new }
    ensures back { TakesBack (view_of pass.old) (view_of pass.new) }
    ensures seen { All (IsSeen (view_of pass.new)) runners.new }
    ensures known { All (IsKnownTo (view_of pass.old)) runners.old }
    ensures kept { AllZip KeepsAllElse runners.old runners.new }
    ensures still { result ≡ true → snapshot.now ≡ held (view_of pass.new).start (view_of pass.new).seen }
    ensures has { HasItsCalls (view_of pass.new) }
{
    teach_all(rt, register, pass, runners);
    look(rt, register, pass, runners) == *snapshot
}

// Whether a new device is being built in a slot of this state.
fn has_new(state: SlotState) -> bool
    ensures { result ≡ false → (generation : ℕ) → IsNew state generation → ⊥ }
{
    match state {
        SlotState::Rebuilding(..) | SlotState::Replacing(..) => true,
        SlotState::InSync(_) | SlotState::Lost => false,
    }
}

// Whether one is in any.
fn has_any_new(snapshot: &Snapshot) -> bool
    ensures { result ≡ false → NoneIsBuilt snapshot.now }
{
    for slot in 0..MOST_SLOTS {
        if has_new(snapshot.slot(slot)) {
            return true;
        }
    }
    false
}

// Whether each shard has tokens to give.
fn have_tokens<P: Performs + Drop, D: BlockDevice + Drop>(runners: &[Runner<P, D>]) -> bool
    ensures { result ≡ false → HaveTokens (map tokens_of runners.now) → ⊥ }
{
    for runner in runners {
        if runner.shard.core.tokens() >= MOST_TOKENS {
            return false;
        }
    }
    true
}

// Whether each shard looked at this last.
fn have_looked_at<P: Performs + Drop, D: BlockDevice + Drop>(
    runners: &[Runner<P, D>],
    snapshot: &Snapshot,
) -> bool
    ensures { result ≡ true → All (λ runner. runner.shard.last ≡ snapshot.now) runners.now }
{
    for runner in runners {
        if runner.shard.last != *snapshot {
            return false;
        }
    }
    true
}

// Whether nothing is left to rebuild: no slot is being rebuilt or replaced, or none can be.
fn is_rebuilt<P: Performs + Drop, D: BlockDevice + Drop>(
    runners: &[Runner<P, D>],
    snapshot: &Snapshot,
) -> bool
    ensures { result ≡ true → IsRebuilt snapshot.now (map tokens_of runners.now) }
{
    snapshot.failed() || !have_tokens(runners) || !has_any_new(snapshot)
}

// The generation of the device in sync in a slot of this state: of two the old one.
fn current_of(state: SlotState) -> Option<u32>
    ensures { result ≡ current_of state }
{
    match state {
        SlotState::InSync(generation) | SlotState::Replacing(generation, _, _) => Some(generation),
        SlotState::Lost | SlotState::Rebuilding(..) => None,
    }
}

// Whether a core has this slot in sync as the snapshot has it, if that does.
fn is_kept(core: &Core, slot: usize, snapshot: &Snapshot) -> bool
    requires { slot < 32 }
    ensures { result ≡ true → IsKept slot snapshot.now core.now }
{
    let Some(generation) = current_of(snapshot.slot(slot)) else {
        return true;
    };
    core.in_sync(slot) == Some(generation)
}

// Whether it has each, of so many.
fn has_in_sync(core: &Core, slots: usize, snapshot: &Snapshot) -> bool
    requires { slots ≤ 32 }
    ensures { result ≡ true → HasInSync slots snapshot.now core.now }
{
    for slot in 0..slots {
        if !is_kept(core, slot, snapshot) {
            return false;
        }
    }
    true
}

// Whether each core has, unless the array has failed.
fn have_in_sync<P: Performs + Drop, D: BlockDevice + Drop>(
    runners: &[Runner<P, D>],
    slots: usize,
    snapshot: &Snapshot,
) -> bool
    requires { slots ≤ 32 }
    ensures { result ≡ true → HaveInSync slots snapshot.now runners.now }
{
    if snapshot.failed() {
        return true;
    }
    for runner in runners {
        if !has_in_sync(&runner.shard.core, slots, snapshot) {
            return false;
        }
    }
    true
}

// Whether the array is as it stays: each shard has seen what it is, and nothing is left to rebuild.
fn is_settled<P: Performs + Drop, D: BlockDevice + Drop>(
    runners: &[Runner<P, D>],
    slots: usize,
    snapshot: &Snapshot,
) -> bool
    requires { slots ≤ 32 }
    ensures looked { result ≡ true → All (λ runner. runner.shard.last ≡ snapshot.now) runners.now }
    ensures rebuilt { result ≡ true → IsRebuilt snapshot.now (map tokens_of runners.now) }
    ensures in_sync { result ≡ true → HaveInSync slots snapshot.now runners.now }
{
    have_looked_at(runners, snapshot)
        && is_rebuilt(runners, snapshot)
        && have_in_sync(runners, slots, snapshot)
}

// The shards go on by turns until nothing is left to do, and each has looked at the register as it is then. While all
// wait for their workers this thread sleeps.
pub(crate) fn end_all<P: Performs + Drop, D: BlockDevice + Drop, R: Wait>(
    rt: &R,
    register: &Register,
    pass: &mut Pass,
    runners: &mut [Runner<P, D>],
    slots: usize,
    idle: &mut Idle,
) -> Snapshot
where
    P: TakesParts<D>,
    requires slots { slots ≤ 32 }
    requires pass { IsPassOf register.now pass.old }
    requires runners { All (λ runner. IsPassOf register.now runner.shard.pass) runners.old }
    ensures pass { IsPassOf register.now pass.new }
    ensures back { TakesBack (view_of pass.old) (view_of pass.new) }
    ensures seen { All (IsSeen (view_of pass.new)) runners.new }
    ensures snapshot { (result ≡ held (view_of pass.new).start (view_of pass.new).seen)
        × IsLegal (view_of pass.new).start (view_of pass.new).seen }
    ensures goes { AllZip TakesNoMore runners.old runners.new }
    ensures over { All IsOver runners.new }
    ensures looked { All (λ runner. runner.shard.last ≡ result) runners.new }
    ensures rebuilt { IsRebuilt result (map tokens_of runners.new) }
    ensures in_sync { HaveInSync slots result runners.new }
    ensures passes { KnowAll runners.old (view_of pass.old) result runners.new }
{
    for _ in rt.forever() {
        let left = go_round_all(rt, register, runners);
        let snapshot = look(rt, register, pass, runners);
        let still = holds_still(rt, register, pass, runners, &snapshot);
        if left.is_nothing() && still && is_settled(runners, slots, &snapshot) {
            return snapshot;
        }
        left.pause(rt, idle);
    }
    unreachable!()
}

//! The register of an array whose shards are in threads of their own.

ghost use Rattle.std.specs.Prelude.{◌≡◌, ◌≤◌, ◌<◌, IfOk, IfErr, MatchOption, true, false};
ghost use Rattle.r6_health.specs.Registers.{state_at};
ghost use Rattle.r6_world.specs.Laws.{IsOfOutside};
ghost use Rattle.r6_array.specs.Inside.{ReplacesOne};

use crate::error::ArrayError;
use r6_health::{Answer, Call as RegisterCall, Refusal as RegisterRefusal, SlotState, Snapshot};
use r6_layout::Geometry;

/// The register of an array whose shards are in threads of their own, each a [`Shard`](crate::Shard). A program keeps it
/// under a lock of its own.
#[derive(Drop)]
pub struct SharedRegister {
    pub(crate) geometry: Geometry,
    pub(crate) snapshot: Snapshot,
    pub(crate) ghost replaces: { ReplacesOne snapshot },
}

impl SharedRegister {
    ghost use Rattle.r6_array.specs.News.{AreLost};
    ghost use Rattle.r6_array.specs.HandleEffects.{IsNewRegister, HasRegisterFault, RegisterTakes, RegisterRefuses, IsAtStart};

    /// The register as it begins: in sync but for the slots whose bits are set.
    ///
    /// # Errors
    /// 7 `Lost`.
    pub fn new(geometry: Geometry, lost: u32) -> Result<SharedRegister, ArrayError>
        ensures made { IfOk result (IsNewRegister geometry lost) }
        ensures right { IfOk result (λ _. AreLost geometry lost) }
        ensures refused { IfErr result (HasRegisterFault geometry lost) }
    {
        if lost.count_ones() > 2 || (lost as u64) >= 1u64 << geometry.slots() {
            return Err(ArrayError::Lost);
        }
        let snapshot = Snapshot::start(&geometry, lost);
        Ok(SharedRegister { geometry, snapshot })
    }

    /// Fails a slot, as `--fail` of mdadm(8) does: `Degraded`, or `Failed` if it is the third that is out. The shards
    /// see it when they look.
    ///
    /// # Errors
    /// In this order: 1 `NoSuchSlot`, 5 `ArrayFailed`, 2 `AlreadyLost`. Nothing changes.
    pub fn fail(&mut self, slot: usize) -> Result<Answer, RegisterRefusal>
        ensures failed { IfOk result (λ answer. RegisterTakes self.old (RegisterCall.Fail slot) answer self.new) }
        ensures refused { IfErr result (λ refusal. RegisterRefuses self.old (RegisterCall.Fail slot) refusal self.new) }
    {
        self.come(RegisterCall::Fail(slot))
    }

    /// Takes out the device that a slot has with this generation, which has failed without a command: a sync of it
    /// failed, it was pulled, or it answers no more. The slot's other device stays: `Kept` if that one has the slot in
    /// sync, and else `Degraded`, or `Failed` if the slot is the third that is out. Write the loss down before.
    ///
    /// A shard goes on with the device until it looks: so it is to look ([`Shard::look`](crate::Shard::look)) before
    /// another completion is delivered to it. What the device answers after it has failed is delivered with a fault, or
    /// it is what an honest device answers.
    ///
    /// # Errors
    /// In this order: 1 `NoSuchSlot`, 5 `ArrayFailed`, 2 `AlreadyLost`, 3 `Stale`. Nothing changes.
    pub fn lose(&mut self, slot: usize, generation: u32) -> Result<Answer, RegisterRefusal>
        ensures lost { IfOk result (λ answer.
            RegisterTakes self.old (RegisterCall.DeclareLost slot generation) answer self.new) }
        ensures refused { IfErr result (λ refusal.
            RegisterRefuses self.old (RegisterCall.DeclareLost slot generation) refusal self.new) }
    {
        self.come(RegisterCall::DeclareLost(slot, generation))
    }

    /// Gives a lost slot a new device, of any blocks, as `--add` of mdadm(8) does: its generation. Wait until no command
    /// is at work at the slot in any shard ([`Shard::at_work`](crate::Shard::at_work)).
    ///
    /// # Errors
    /// In this order: 1 `NoSuchSlot`, 5 `ArrayFailed`, 4 `NotLost`, 7 `GenerationsSpent`. Nothing changes.
    pub fn attach(&mut self, slot: usize) -> Result<Answer, RegisterRefusal>
        ensures attached { IfOk result (λ answer. RegisterTakes self.old (RegisterCall.Attach slot) answer self.new) }
        ensures refused { IfErr result (λ refusal. RegisterRefuses self.old (RegisterCall.Attach slot) refusal self.new) }
    {
        self.come(RegisterCall::Attach(slot))
    }

    /// Gives a slot in sync a second device, of any blocks, which replaces the one that it has once each shard has rebuilt
    /// its rows there, as `--replace` of mdadm(8) does: its generation. A command says by its generation to which of them
    /// it goes. The old one stays in use until each shard has looked after that.
    ///
    /// # Errors
    /// In this order: 1 `NoSuchSlot`, 5 `ArrayFailed`, 9 `NotInSync`, 10 `ReplacementBusy`, 7 `GenerationsSpent`. Nothing
    /// changes.
    pub fn replace(&mut self, slot: usize) -> Result<Answer, RegisterRefusal>
        ensures replaced { IfOk result (λ answer. RegisterTakes self.old (RegisterCall.Replace slot) answer self.new) }
        ensures refused { IfErr result (λ refusal. RegisterRefuses self.old (RegisterCall.Replace slot) refusal self.new) }
    {
        self.come(RegisterCall::Replace(slot))
    }

    // A call comes from outside.
    fn come(&mut self, call: RegisterCall) -> Result<Answer, RegisterRefusal>
        requires { IsOfOutside call }
        ensures taken { IfOk result (λ answer. RegisterTakes self.old call answer self.new) }
        ensures refused { IfErr result (λ refusal. RegisterRefuses self.old call refusal self.new) }
    {
        match self
            .snapshot
            .apply(self.geometry.slots(), self.geometry.shards(), call)
        {
            Ok((answer, snapshot)) => {
                self.snapshot = snapshot;
                Ok(answer)
            }
            Err(refusal) => Err(refusal),
        }
    }

    /// The state of a slot; `None` if there is no such slot.
    pub fn slot(&self, slot: usize) -> Option<SlotState>
        ensures { MatchOption result
            (self.now.geometry.slots ≤ slot)
            (λ state. (slot < self.now.geometry.slots) × (state ≡ state_at self.now.snapshot slot)) }
    {
        if slot >= self.geometry.slots() {
            return None;
        }
        Some(self.snapshot.slot(slot))
    }

    /// Whether the array has failed: three slots were out at one time.
    pub fn has_failed(&self) -> bool
        ensures { result ≡ self.now.snapshot.failed }
    {
        self.snapshot.failed()
    }

    /// The shape of the array.
    pub fn geometry(&self) -> Geometry
        ensures { result ≡ self.now.geometry }
    {
        self.geometry
    }

    // Whether a shard may be made: no device was attached yet, and the array hasn't failed.
    pub(crate) fn is_at_start(&self) -> bool
        ensures yes { result ≡ true → IsAtStart self.now }
        ensures no { result ≡ false → IsAtStart self.now → ⊥ }
    {
        self.snapshot.attaches() == 0 && !self.has_failed()
    }
}

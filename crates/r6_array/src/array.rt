//! The array.

ghost use Rattle.std.specs.Prelude.{◌≡◌, ◌≤◌, ◌<◌, ◌+◌, length, slice_index, IfOk, IfErr, MatchOption, true, false};
ghost use Rattle.r6_layout.specs.Shape.{blocks};
ghost use Rattle.r6_health.specs.Registers.{starting, state_at};
ghost use Rattle.r6_world.specs.Laws.{IsOfOutside};
ghost use Rattle.r6_core.specs.Shards.{world_shard, counts_of};
ghost use Rattle.r6_core.specs.Progress.{IsFirstUnbuilt, IsNotRebuilt};
ghost use Rattle.r6_core.specs.Refusals.{most_unanswered};
ghost use Rattle.r6_array.specs.News.{AreNew};

use crate::change::Change;
use crate::error::ArrayError;
use crate::handed_in::HandedIn;
use crate::member::Member;
use crate::requests::RequestList;
use crate::ticket::{Ticket, Undelivered};
use r6_core::{Command, Counts, DeviceFault, Op, Receipt, Refusal, Refused, Reply, Task, Turn};
use r6_health::{Answer, Call as RegisterCall, Refusal as RegisterRefusal, SlotState, Snapshot};
use r6_kernels::Buffer;
use r6_layout::{Geometry, MOST_SLOTS};
use std::alloc::Global;
use std::marker::Model;

/// An array: the cores of its shards, and its register, in one thread.
#[derive(Drop)]
pub struct Array {
    geometry: Geometry,
    register: Snapshot,
    /// By number.
    members: Vec<Member>,
    /// By slot: the commands that were handed out and not delivered.
    at_work: [u64; MOST_SLOTS],
}

impl Model for Array {
    ghost use Rattle.std.specs.Coded.{codes, code_by};
    ghost use Rattle.std.specs.FinMap as map;
    ghost use Rattle.circular_buffer.specs.Buffer.{buffer_code};
    ghost use Rattle.r6_array.specs.Arrays.{ArrayView, ArrayFields, array_fields, array_of_fields, same_array};
    ghost use Rattle.r6_array.specs.Inside.{IsArray, ReplacesOne};

    ghost Value = { ArrayView };

    ghost coded = { code_by ArrayFields (Prim.hlevel (codes, map.code, buffer_code)) array_fields array_of_fields same_array };

    ghost view = { λ a. record { shape = a.geometry; register = a.register; shards = a.members.items; at_work = a.at_work } };

    ghost invariant = { λ a. IsArray a.geometry a.members.items × ReplacesOne a.register };
}

impl Array {
    ghost use Rattle.r6_array.specs.News.{IsNew, HasNoFault, HasFault};
    ghost use Rattle.r6_array.specs.Effects.{Submits, RefusesRequest, HandsOut, HandsNone, HandsOutOf, HandsNoneOf, shard_of_block, one_less, Delivers, RefusesDelivery, HandsReply, HandsNoReply, HandsReplyOf, HandsNoReplyOf, LooksOf, NoneAsks, AsksFirst, AgreesTo, RefusesChange, IsNextChange, after_answer, UnsettlesOne, all_unsettled, ComesFromOutside, RefusedByRegister, TurnsIn, RefusesTurnIn};
    ghost use Rattle.r6_array.specs.Arrays.{ShardView, Has};
    ghost use Rattle.r6_array.specs.Together.{SubmitsList};

    /// The array as it begins: in sync but for the slots whose bits are set. All room is made here.
    ///
    /// `window`, 1 to 8, is how many rows of a slot and shard may be rebuilt at one time.
    ///
    /// # Errors
    /// In this order: 6 `Window`, 7 `Lost`, 8 `NoMemory`.
    pub fn new(
        alloc: Global,
        geometry: Geometry,
        window: usize,
        lost: u32,
    ) -> Result<Array, ArrayError>
        ensures made { IfOk result (IsNew geometry (starting lost) window) }
        ensures right { IfOk result (λ _. HasNoFault geometry window lost) }
        ensures refused { IfErr result (HasFault geometry window lost) }
    {
        if window < 1 || window > 8 {
            return Err(ArrayError::Window);
        }
        if lost.count_ones() > 2 || (lost as u64) >= 1u64 << geometry.slots() {
            return Err(ArrayError::Lost);
        }
        let register = Snapshot::start(&geometry, lost);
        let members = members_of(alloc, &geometry, window, &register)?;
        Ok(Array {
            geometry,
            register,
            members,
            at_work: [0; MOST_SLOTS],
        })
    }

    /// Takes a request, and starts what can start. The reply comes with `name`, by which its caller knows it.
    ///
    /// # Errors
    /// In this order: 1 `NoSuchBlock`, 3 `WrongLength`, 5 `ArrayFailed`, 6 `Exhausted`, 4 `Busy`, with the request back.
    /// Nothing changes.
    pub fn submit(&mut self, op: Op, name: u64) -> Result<(), Refused<Op>>
        ensures accepted { IfOk result (λ _. Submits self.old op name self.new) }
        ensures refused { IfErr result (λ r. RefusesRequest self.old op r.refusal r.back self.new) }
    {
        let Some(place) = self.geometry.place(op.block()) else {
            return Err(Refused {
                refusal: Refusal::NoSuchBlock,
                back: op,
            });
        };
        self.members[place.shard].submit(op, name)
    }

    /// Takes requests from the front of the list, one after another, as long as they are for blocks of one shard and none
    /// is refused. Then it starts what can start, so that writes of one row start together: a whole row is written with
    /// no read. The list keeps those that were not taken. The replies come with the names.
    ///
    /// # Errors
    /// [`HandedIn::refusal`]: 2 `WrongShard`: the next one is for a block of another shard, so it begins the next list;
    /// or as [`Array::submit`] would refuse it. Where none is taken, nothing changes.
    pub fn submit_all(&mut self, requests: &mut RequestList) -> HandedIn
        ensures { SubmitsList self.old requests.old requests.new result self.new }
    {
        let Some(first) = requests.first_block() else {
            return HandedIn {
                count: 0,
                refusal: None,
            };
        };
        let Some(place) = self.geometry.place(first) else {
            return HandedIn {
                count: 0,
                refusal: Some(Refusal::NoSuchBlock),
            };
        };
        let submitted = self.members[place.shard].submit_all(requests);
        HandedIn {
            count: submitted.count,
            refusal: submitted.refusal,
        }
    }

    /// Hands out the next command: of the lowest shard that has one, the one that was put out first. It goes to the
    /// device that its slot has with its generation, also if its shard has abandoned it since, and is to be delivered.
    pub fn next_command(&mut self) -> Option<(Ticket, Command)>
        ensures { MatchOption result (HandsNone self.old self.new) (λ r. HandsOut self.old r.0 r.1 self.new) }
    {
        for shard in 0..self.members.len() {
            if let Some(handed) = self.command_of(shard) {
                return Some(handed);
            }
        }
        None
    }

    // The next command of this shard.
    fn command_of(&mut self, shard: usize) -> Option<(Ticket, Command)>
        requires { shard < length self.old.shards }
        ensures { MatchOption result
            (HandsNoneOf self.old shard self.new)
            (λ r. HandsOutOf self.old shard r.0 r.1 self.new) }
    {
        let command = self.members[shard].take_command()?;
        let slot = command.slot;
        self.at_work[slot] = self.at_work[slot].saturating_add(1);
        let ticket = Ticket {
            shard,
            slot,
            token: command.token,
        };
        Some((ticket, command))
    }

    /// Takes the completion of a command, with its buffer: a read's with the block. A `ReadFault` of a block's first
    /// read loses nothing: the block is computed from the others, written anew and read again. Any other fault takes the
    /// command's device out in the shard, which asks for a change. An error of a device is to be delivered before any
    /// completion of a command that this device performed later.
    ///
    /// # Errors
    /// In this order: 7 `UnknownToken`, 3 `WrongLength`, with what was handed in. Nothing changes.
    pub fn deliver(
        &mut self,
        ticket: Ticket,
        completion: Result<Buffer, DeviceFault>,
    ) -> Result<Receipt, Undelivered>
        ensures received { IfOk result (λ receipt. Delivers self.old ticket completion receipt self.new) }
        ensures refused { IfErr result (λ r.
            RefusesDelivery self.old ticket completion r.refusal r.ticket r.completion self.new) }
    {
        if ticket.shard >= self.members.len() {
            return Err(Undelivered {
                refusal: Refusal::UnknownToken,
                ticket,
                completion,
            });
        }
        match self.members[ticket.shard].deliver(ticket.token, completion) {
            Ok(receipt) => {
                self.come_home(ticket.slot);
                Ok(receipt)
            }
            Err(refused) => Err(Undelivered {
                refusal: refused.refusal,
                ticket,
                completion: refused.back,
            }),
        }
    }

    // A command of the slot is at work no more.
    fn come_home(&mut self, slot: usize)
        ensures { self.new ≡ record self.old { at_work = one_less self.old.at_work slot } }
    {
        if slot < MOST_SLOTS {
            self.at_work[slot] = self.at_work[slot].saturating_sub(1);
        }
    }

    /// Takes the reply that was released first, of the lowest shard that has one, with the name of its request. A shard
    /// looks at the register before, if anything has happened since its last look; and it hands out no reply while it
    /// asks for a change.
    pub fn next_reply(&mut self) -> Option<(u64, Reply)>
        ensures { MatchOption result (HandsNoReply self.old self.new) (λ r. HandsReply self.old r.0 r.1 self.new) }
    {
        for shard in 0..self.members.len() {
            if let Some(found) = self.reply_of(shard) {
                return Some(found);
            }
        }
        None
    }

    // The reply of this shard, which looks first.
    fn reply_of(&mut self, shard: usize) -> Option<(u64, Reply)>
        requires { shard < length self.old.shards }
        ensures { MatchOption result
            (HandsNoReplyOf self.old shard self.new)
            (λ r. HandsReplyOf self.old shard r.0 r.1 self.new) }
    {
        if !self.look(shard) {
            return None;
        }
        self.members[shard].take_reply()
    }

    // The shard looks at the register, if it has to and can: whether it is settled.
    fn look(&mut self, shard: usize) -> bool
        requires { shard < length self.old.shards }
        ensures { LooksOf self.old shard result self.new }
    {
        self.members[shard].look(&self.register)
    }

    /// The change that the lowest shard asks for that asks for one. Nothing changes.
    pub fn next_change(&self) -> Option<Change>
        ensures { MatchOption result (NoneAsks self.now) (AsksFirst self.now) }
    {
        for shard in 0..self.members.len() {
            if let Some(call) = self.members[shard].change() {
                return Some(Change { shard, call });
            }
        }
        None
    }

    /// Makes the change that a shard asks for at the register, and tells its core: what the register answered. Write
    /// down before that the slot is lost, since replies that depend on it are handed out afterwards.
    ///
    /// # Errors
    /// 11 `UnknownCall`: the change isn't the one that its shard asks for. Nothing changes.
    pub fn agree(&mut self, change: Change) -> Result<Result<Answer, RegisterRefusal>, Refusal>
        ensures agreed { IfOk result (λ answer. AgreesTo self.old change answer self.new) }
        ensures refused { IfErr result (λ refusal. RefusesChange self.old change refusal self.new) }
    {
        if !self.asks_for(change) {
            return Err(Refusal::UnknownCall);
        }
        Ok(self.make(change))
    }

    // Whether it is the change that its shard asks for.
    fn asks_for(&self, change: Change) -> bool
        ensures yes { result ≡ true → IsNextChange self.now change }
        ensures no { result ≡ false → IsNextChange self.now change → ⊥ }
    {
        if change.shard >= self.members.len() {
            return false;
        }
        match self.members[change.shard].change() {
            Some(call) => call == change.call,
            None => false,
        }
    }

    // The change is made at the register, and its core told.
    fn make(&mut self, change: Change) -> Result<Answer, RegisterRefusal>
        requires { IsNextChange self.old change }
        ensures { AgreesTo self.old change result self.new }
    {
        let (answer, register) = self.members[change.shard].agree(
            &self.geometry,
            change.shard,
            &self.register,
            change.call,
        );
        self.register = register;
        self.unsettle_by(answer);
        answer
    }

    // The register has answered a call.
    fn unsettle_by(&mut self, answer: Result<Answer, RegisterRefusal>)
        ensures { self.new ≡ after_answer self.old answer }
    {
        match answer {
            Ok(_) => self.unsettle(),
            Err(_) => {}
        }
    }

    // The register has taken a call.
    fn unsettle(&mut self)
        ensures { self.new ≡ all_unsettled self.old }
    {
        for shard in 0..self.members.len() {
            self.unsettle_one(shard);
        }
    }

    fn unsettle_one(&mut self, shard: usize)
        requires { shard < length self.old.shards }
        ensures { UnsettlesOne self.old shard self.new }
    {
        self.members[shard].unsettle();
    }

    /// Fails a slot, as `--fail` of mdadm(8) does: `Degraded`, or `Failed` if it is the third that is out.
    ///
    /// # Errors
    /// In this order: 1 `NoSuchSlot`, 5 `ArrayFailed`, 2 `AlreadyLost`. Nothing changes.
    pub fn fail(&mut self, slot: usize) -> Result<Answer, RegisterRefusal>
        ensures failed { IfOk result (λ answer. ComesFromOutside self.old (RegisterCall.Fail slot) answer self.new) }
        ensures refused { IfErr result (λ refusal. RefusedByRegister self.old (RegisterCall.Fail slot) refusal self.new) }
    {
        self.come(RegisterCall::Fail(slot))
    }

    /// Takes out the device that a slot has with this generation, which has failed without a command: a sync of it
    /// failed, it was pulled, or it answers no more. The slot's other device stays: `Kept` if that one has the slot in
    /// sync, and else `Degraded`, or `Failed` if the slot is the third that is out. Write the loss down before.
    ///
    /// A shard goes on with the device until it looks: so let the shards look ([`Array::next_reply`] until there is none)
    /// before another completion is delivered. What the device answers after it has failed is delivered with a fault,
    /// or it is what an honest device answers.
    ///
    /// # Errors
    /// In this order: 1 `NoSuchSlot`, 5 `ArrayFailed`, 2 `AlreadyLost`, 3 `Stale`. Nothing changes.
    pub fn lose(&mut self, slot: usize, generation: u32) -> Result<Answer, RegisterRefusal>
        ensures lost { IfOk result (λ answer.
            ComesFromOutside self.old (RegisterCall.DeclareLost slot generation) answer self.new) }
        ensures refused { IfErr result (λ refusal.
            RefusedByRegister self.old (RegisterCall.DeclareLost slot generation) refusal self.new) }
    {
        self.come(RegisterCall::DeclareLost(slot, generation))
    }

    /// Gives a lost slot a new device, of any blocks, as `--add` of mdadm(8) does: its generation. Wait until no command
    /// is at work at the slot ([`Array::at_work`]).
    ///
    /// # Errors
    /// In this order: 1 `NoSuchSlot`, 5 `ArrayFailed`, 4 `NotLost`, 7 `GenerationsSpent`. Nothing changes.
    pub fn attach(&mut self, slot: usize) -> Result<Answer, RegisterRefusal>
        ensures attached { IfOk result (λ answer.
            ComesFromOutside self.old (RegisterCall.Attach slot) answer self.new) }
        ensures refused { IfErr result (λ refusal.
            RefusedByRegister self.old (RegisterCall.Attach slot) refusal self.new) }
    {
        self.come(RegisterCall::Attach(slot))
    }

    /// Gives a slot in sync a second device, of any blocks, which replaces the one that it has once each shard has rebuilt
    /// its rows there, as `--replace` of mdadm(8) does: its generation. A command says by its generation to which of them
    /// it goes. The old one stays in use until each shard has looked after that.
    ///
    /// # Errors
    /// In this order: 1 `NoSuchSlot`, 5 `ArrayFailed`, 9 `NotInSync`, 10 `ReplacementBusy`, 7 `GenerationsSpent`. Nothing
    /// changes.
    pub fn replace(&mut self, slot: usize) -> Result<Answer, RegisterRefusal>
        ensures replaced { IfOk result (λ answer.
            ComesFromOutside self.old (RegisterCall.Replace slot) answer self.new) }
        ensures refused { IfErr result (λ refusal.
            RefusedByRegister self.old (RegisterCall.Replace slot) refusal self.new) }
    {
        self.come(RegisterCall::Replace(slot))
    }

    // A call comes at the register from outside.
    fn come(&mut self, call: RegisterCall) -> Result<Answer, RegisterRefusal>
        requires { IsOfOutside call }
        ensures taken { IfOk result (λ answer. ComesFromOutside self.old call answer self.new) }
        ensures refused { IfErr result (λ refusal. RefusedByRegister self.old call refusal self.new) }
    {
        match self
            .register
            .apply(self.geometry.slots(), self.geometry.shards(), call)
        {
            Ok((answer, register)) => {
                self.register = register;
                self.unsettle();
                Ok(answer)
            }
            Err(refusal) => Err(refusal),
        }
    }

    /// Takes up the next row of a task in a shard, or passes it over.
    ///
    /// # Errors
    /// In this order: 2 `WrongShard` if there is no such shard, 5 `ArrayFailed`, 6 `Exhausted`, 10 `NothingToDo`,
    /// 9 `NoFrame`. Nothing changes.
    pub fn turn(&mut self, shard: usize, task: Task) -> Result<Turn, Refusal>
        ensures turned { IfOk result (λ turn. TurnsIn self.old shard task turn self.new) }
        ensures refused { IfErr result (λ refusal. RefusesTurnIn self.old shard task refusal self.new) }
    {
        if shard >= self.members.len() {
            return Err(Refusal::WrongShard);
        }
        self.members[shard].turn(task)
    }

    /// What the turns of a shard have counted; `None` if there is no such shard.
    pub fn counts(&self, shard: usize) -> Option<Counts>
        ensures { MatchOption result
            (length self.now.shards ≤ shard)
            (λ counts. (s : ShardView) × Has self.now shard s × (counts_of counts ≡ (world_shard s.core).counts)) }
    {
        if shard >= self.members.len() {
            return None;
        }
        Some(self.members[shard].counts())
    }

    /// The row of a shard that its next check takes up; `None` if there is no such shard. Checks go round the shard's
    /// rows, which [`Geometry::shard_rows`] names, without end.
    pub fn row_to_check(&self, shard: usize) -> Option<u64>
        ensures { MatchOption result
            (length self.now.shards ≤ shard)
            (λ row. (s : ShardView) × Has self.now shard s × (row ≡ (world_shard s.core).check_row)) }
    {
        if shard >= self.members.len() {
            return None;
        }
        Some(self.members[shard].row_to_check())
    }

    /// The row of a shard that its next repair takes up; `None` if there is no such shard. Repairs go round as checks
    /// do.
    pub fn row_to_repair(&self, shard: usize) -> Option<u64>
        ensures { MatchOption result
            (length self.now.shards ≤ shard)
            (λ row. (s : ShardView) × Has self.now shard s × (row ≡ (world_shard s.core).repair_row)) }
    {
        if shard >= self.members.len() {
            return None;
        }
        Some(self.members[shard].row_to_repair())
    }

    /// How far the rebuild of a slot is in a shard: the first of the shard's rows that isn't rebuilt on the slot's new
    /// device. `None` if the slot has no new device there, or there is no such shard or slot. A rebuild ends with the
    /// last row of [`Geometry::shard_rows`].
    pub fn row_to_rebuild(&self, shard: usize, slot: usize) -> Option<u64>
        ensures { MatchOption result
            ((s : ShardView) → Has self.now shard s → IsNotRebuilt s.core slot)
            (λ row. (s : ShardView) × Has self.now shard s × IsFirstUnbuilt s.core slot row) }
    {
        if shard >= self.members.len() {
            return None;
        }
        self.members[shard].row_to_rebuild(slot)
    }

    /// How many more requests the shard of a block has room for; `None` if there is no such block.
    pub fn room(&self, block: u64) -> Option<usize>
        ensures { MatchOption result
            (blocks self.now.shape ≤ block)
            (λ room. (s : ShardView) × Has self.now (shard_of_block self.now.shape block) s
            × (room + s.core.unanswered ≡ most_unanswered)) }
    {
        let place = self.geometry.place(block)?;
        Some(self.members[place.shard].room())
    }

    /// How many commands are at work at a slot: they were handed out and aren't delivered. `None` if there is no such
    /// slot.
    pub fn at_work(&self, slot: usize) -> Option<u64>
        ensures { MatchOption result
            (self.now.shape.slots ≤ slot)
            (λ count. (slot < self.now.shape.slots) × (count ≡ slice_index self.now.at_work slot)) }
    {
        if slot >= self.geometry.slots() {
            return None;
        }
        Some(self.at_work[slot])
    }

    /// The state of a slot; `None` if there is no such slot.
    pub fn slot(&self, slot: usize) -> Option<SlotState>
        ensures { MatchOption result
            (self.now.shape.slots ≤ slot)
            (λ state. (slot < self.now.shape.slots) × (state ≡ state_at self.now.register slot)) }
    {
        if slot >= self.geometry.slots() {
            return None;
        }
        Some(self.register.slot(slot))
    }

    /// Whether the array has failed: three slots were out at one time.
    pub fn has_failed(&self) -> bool
        ensures { result ≡ self.now.register.failed }
    {
        self.register.failed()
    }

    /// The shape of the array.
    pub fn geometry(&self) -> Geometry
        ensures { result ≡ self.now.shape }
    {
        self.geometry
    }
}

// The shards as they begin.
fn members_of(
    alloc: Global,
    geometry: &Geometry,
    window: usize,
    register: &Snapshot,
) -> Result<Vec<Member>, ArrayError>
    requires window { (1 ≤ window) × (window ≤ 8) }
    requires no_attach { register.now.attaches ≡ 0 }
    requires unfailed { register.now.failed ≡ false }
    ensures made { IfOk result (λ members. AreNew geometry.now register.now window members.items) }
    ensures memory { IfErr result (λ e. e ≡ ArrayError.NoMemory) }
{
    let mut members = Vec::new(alloc);
    for shard in 0..geometry.shards() {
        let member = Member::new(alloc, *geometry, shard, window, register)?;
        match members.push(member) {
            Ok(()) => {}
            Err(_) => return Err(ArrayError::NoMemory),
        }
    }
    Ok(members)
}

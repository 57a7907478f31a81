//! A shard of an array whose shards are in threads of their own.

ghost use Rattle.std.specs.Prelude.{◌≡◌, ◌≤◌, ◌<◌, ◌+◌, length, slice_index, IfOk, IfErr, MatchOption, true, false};
ghost use Rattle.r6_core.specs.Shards.{world_shard, counts_of};
ghost use Rattle.r6_core.specs.Progress.{IsFirstUnbuilt, IsNotRebuilt};
ghost use Rattle.r6_core.specs.Refusals.{most_unanswered};
ghost use Rattle.r6_array.specs.Effects.{one_less};

use crate::change::Change;
use crate::error::ArrayError;
use crate::handed_in::HandedIn;
use crate::member::Member;
use crate::register::SharedRegister;
use crate::requests::RequestList;
use crate::ticket::{Ticket, Undelivered};
use r6_core::{Command, Counts, DeviceFault, Op, Receipt, Refusal, Refused, Reply, Task, Turn};
use r6_health::{Answer, Refusal as RegisterRefusal};
use r6_kernels::Buffer;
use r6_layout::{Geometry, MOST_SLOTS};
use std::alloc::Global;
use std::marker::Model;

/// A shard of an array, for a program whose shards are in threads of their own: its core. What it asks for is made at
/// the array's [`SharedRegister`], which the program keeps under a lock of its own; the lock is to be held for
/// [`agree`](Shard::agree) and [`look`](Shard::look) alone.
#[derive(Drop)]
pub struct Shard {
    geometry: Geometry,
    number: usize,
    member: Member,
    /// By slot: the commands that were handed out and not delivered.
    at_work: [u64; MOST_SLOTS],
}

impl Model for Shard {
    ghost use Rattle.std.specs.Prelude.{refl};
    ghost use Rattle.std.specs.Coded.{codes, code_by};
    ghost use Rattle.std.specs.FinMap as map;
    ghost use Rattle.circular_buffer.specs.Buffer.{buffer_code};
    ghost use Rattle.r6_array.specs.Handles.{HandleView, HandleFields, handle_fields, handle_of_fields};
    ghost use Rattle.r6_array.specs.Inside.{IsHandle};

    ghost Value = { HandleView };

    ghost coded = { code_by HandleFields (Prim.hlevel (codes, map.code, buffer_code)) handle_fields handle_of_fields (λ _. refl) };

    ghost view = { λ h. record { shard = h.member; at_work = h.at_work } };

    ghost invariant = { λ h. IsHandle h.geometry h.number h.member };
}

impl Shard {
    ghost use Rattle.r6_array.specs.Handles.{IsNewHandle, core_in, number_of};
    ghost use Rattle.r6_array.specs.HandleEffects.{HasNoHandleFault, HasHandleFault, HandleTakesIn, HandleRefusesRequest, HandleHandsOut, HandleHandsNone, HandleTakesBack, HandleRefusesDelivery, AsksForNone, AsksFor, HandleAgrees, HandleRefusesChange, HandleLooks, HandleRefusesLook, HandleHandsReply, HandleHandsNoReply, HandleTurns, HandleRefusesTurn};
    ghost use Rattle.r6_array.specs.Together.{HandleTakesAllIn};

    /// The shard of this number of the register's array, with all its room. It begins with the slots lost that are lost
    /// at the register: all shards are to be made before a device is attached.
    ///
    /// `window`, 1 to 8, is how many rows of a slot may be rebuilt at one time.
    ///
    /// # Errors
    /// In this order: 6 `Window`, 9 `NoSuchShard`, 10 `Begun`, 8 `NoMemory`.
    pub fn new(
        alloc: Global,
        register: &SharedRegister,
        shard: usize,
        window: usize,
    ) -> Result<Shard, ArrayError>
        ensures made { IfOk result (IsNewHandle register.now.geometry register.now.snapshot shard window) }
        ensures right { IfOk result (λ _. HasNoHandleFault register.now shard window) }
        ensures refused { IfErr result (HasHandleFault register.now shard window) }
    {
        if window < 1 || window > 8 {
            return Err(ArrayError::Window);
        }
        let geometry = register.geometry;
        if shard >= geometry.shards() {
            return Err(ArrayError::NoSuchShard);
        }
        if !register.is_at_start() {
            return Err(ArrayError::Begun);
        }
        let member = Member::new(alloc, geometry, shard, window, &register.snapshot)?;
        Ok(Shard {
            geometry,
            number: shard,
            member,
            at_work: [0; MOST_SLOTS],
        })
    }

    /// Takes a request, and starts what can start. The reply comes with `name`, by which its caller knows it.
    ///
    /// # Errors
    /// In this order: 1 `NoSuchBlock`, 2 `WrongShard`, 3 `WrongLength`, 5 `ArrayFailed`, 6 `Exhausted`, 4 `Busy`, with
    /// the request back. Nothing changes.
    pub fn submit(&mut self, op: Op, name: u64) -> Result<(), Refused<Op>>
        ensures accepted { IfOk result (λ _. HandleTakesIn self.old op name self.new) }
        ensures refused { IfErr result (λ r. HandleRefusesRequest self.old op r.refusal r.back self.new) }
    {
        self.member.submit(op, name)
    }

    /// Takes requests from the front of the list, one after another, until one is refused or none is left. Then it starts
    /// what can start, so that writes of one row start together: a whole row is written with no read. The list keeps
    /// those that were not taken. The replies come with the names.
    ///
    /// # Errors
    /// [`HandedIn::refusal`], as [`Shard::submit`] would refuse the next one. Where none is taken, nothing changes.
    pub fn submit_all(&mut self, requests: &mut RequestList) -> HandedIn
        ensures { HandleTakesAllIn self.old requests.old requests.new result self.new }
    {
        let submitted = self.member.submit_all(requests);
        HandedIn {
            count: submitted.count,
            refusal: submitted.refusal,
        }
    }

    /// Hands out the command that was put out first and not taken. It goes to the device that its slot has with its
    /// generation, also if the shard has abandoned it since, and is to be delivered.
    pub fn next_command(&mut self) -> Option<(Ticket, Command)>
        ensures { MatchOption result (HandleHandsNone self.old self.new) (λ r. HandleHandsOut self.old r.0 r.1 self.new) }
    {
        let command = self.member.take_command()?;
        let slot = command.slot;
        self.at_work[slot] = self.at_work[slot].saturating_add(1);
        let ticket = Ticket {
            shard: self.number,
            slot,
            token: command.token,
        };
        Some((ticket, command))
    }

    /// Takes the completion of a command, with its buffer: a read's with the block. A `ReadFault` of a block's first
    /// read loses nothing: the block is computed from the others, written anew and read again. Any other fault takes the
    /// command's device out in the shard, which asks for a change. An error of a device is to be delivered before any
    /// completion of a command that this device performed later.
    ///
    /// # Errors
    /// In this order: 7 `UnknownToken`, also of a ticket of another shard, 3 `WrongLength`, with what was handed in.
    /// Nothing changes.
    pub fn deliver(
        &mut self,
        ticket: Ticket,
        completion: Result<Buffer, DeviceFault>,
    ) -> Result<Receipt, Undelivered>
        ensures received { IfOk result (λ receipt. HandleTakesBack self.old ticket completion receipt self.new) }
        ensures refused { IfErr result (λ r.
            HandleRefusesDelivery self.old ticket completion r.refusal r.ticket r.completion self.new) }
    {
        if ticket.shard != self.number() {
            return Err(Undelivered {
                refusal: Refusal::UnknownToken,
                ticket,
                completion,
            });
        }
        match self.member.deliver(ticket.token, completion) {
            Ok(receipt) => {
                self.come_home(ticket.slot);
                Ok(receipt)
            }
            Err(refused) => Err(Undelivered {
                refusal: refused.refusal,
                ticket,
                completion: refused.back,
            }),
        }
    }

    // A command of the slot is at work no more.
    fn come_home(&mut self, slot: usize)
        ensures { self.new ≡ record self.old { at_work = one_less self.old.at_work slot } }
    {
        if slot < MOST_SLOTS {
            self.at_work[slot] = self.at_work[slot].saturating_sub(1);
        }
    }

    /// The change that the shard asks for. Nothing changes.
    pub fn next_change(&self) -> Option<Change>
        ensures { MatchOption result (AsksForNone self.now) (AsksFor self.now) }
    {
        let shard = self.number;
        match self.member.change() {
            Some(call) => Some(Change { shard, call }),
            None => None,
        }
    }

    /// Makes the change that the shard asks for at the register, and tells its core: what the register answered. Write
    /// down before that the slot is lost, since replies that depend on it are handed out afterwards.
    ///
    /// # Errors
    /// In this order: 2 `WrongShard`: the register is of an array of another shape; 11 `UnknownCall`: the change isn't
    /// the one that the shard asks for. Nothing changes.
    pub fn agree(
        &mut self,
        register: &mut SharedRegister,
        change: Change,
    ) -> Result<Result<Answer, RegisterRefusal>, Refusal>
        ensures agreed { IfOk result (λ answer.
            HandleAgrees self.old register.old change answer self.new register.new) }
        ensures refused { IfErr result (λ refusal.
            HandleRefusesChange self.old register.old change refusal self.new register.new) }
    {
        if register.geometry != self.geometry() {
            return Err(Refusal::WrongShard);
        }
        if !self.asks_for(change) {
            return Err(Refusal::UnknownCall);
        }
        Ok(self.make(register, change))
    }

    // Whether it is the change that the shard asks for.
    fn asks_for(&self, change: Change) -> bool
        ensures yes { result ≡ true → AsksFor self.now change }
        ensures no { result ≡ false → AsksFor self.now change → ⊥ }
    {
        if change.shard != self.number() {
            return false;
        }
        match self.member.change() {
            Some(call) => call == change.call,
            None => false,
        }
    }

    // The change is made at the register, and the core told.
    fn make(
        &mut self,
        register: &mut SharedRegister,
        change: Change,
    ) -> Result<Answer, RegisterRefusal>
        requires shape { register.old.geometry ≡ (core_in self.old).shape }
        requires asked { AsksFor self.old change }
        ensures { HandleAgrees self.old register.old change result self.new register.new }
    {
        let (answer, snapshot) = self.member.agree(
            &self.geometry,
            self.number,
            &register.snapshot,
            change.call,
        );
        register.snapshot = snapshot;
        answer
    }

    /// The shard looks at the register: what it has finished is released, and what others have changed is seen. To be
    /// called after completions, after changes, and now and then, since others change the register too.
    ///
    /// # Errors
    /// In this order: 2 `WrongShard`: the register is of an array of another shape; 8 `UntoldFirst`: the shard asks for
    /// a change. Nothing changes.
    pub fn look(&mut self, register: &SharedRegister) -> Result<(), Refusal>
        ensures looked { IfOk result (λ _. HandleLooks self.old register.now self.new) }
        ensures refused { IfErr result (λ refusal. HandleRefusesLook self.old register.now refusal self.new) }
    {
        if register.geometry != self.geometry() {
            return Err(Refusal::WrongShard);
        }
        self.member.look_anew(&register.snapshot)
    }

    /// Takes the reply that was released first, with the name of its request; none while the shard asks for a change.
    pub fn next_reply(&mut self) -> Option<(u64, Reply)>
        ensures { MatchOption result
            (HandleHandsNoReply self.old self.new)
            (λ r. HandleHandsReply self.old r.0 r.1 self.new) }
    {
        match self.next_change() {
            Some(_) => None,
            None => self.member.take_reply(),
        }
    }

    /// Takes up the next row of a task, or passes it over.
    ///
    /// # Errors
    /// In this order: 5 `ArrayFailed`, 6 `Exhausted`, 10 `NothingToDo`, 9 `NoFrame`. Nothing changes.
    pub fn turn(&mut self, task: Task) -> Result<Turn, Refusal>
        ensures turned { IfOk result (λ turn. HandleTurns self.old task turn self.new) }
        ensures refused { IfErr result (λ refusal. HandleRefusesTurn self.old task refusal self.new) }
    {
        self.member.turn(task)
    }

    /// What turns have counted.
    pub fn counts(&self) -> Counts
        ensures { counts_of result ≡ (world_shard (core_in self.now)).counts }
    {
        self.member.counts()
    }

    /// The row that the next check takes up. Checks go round the shard's rows, which [`Geometry::shard_rows`] names,
    /// without end.
    pub fn row_to_check(&self) -> u64
        ensures { result ≡ (world_shard (core_in self.now)).check_row }
    {
        self.member.row_to_check()
    }

    /// The row that the next repair takes up. Repairs go round as checks do.
    pub fn row_to_repair(&self) -> u64
        ensures { result ≡ (world_shard (core_in self.now)).repair_row }
    {
        self.member.row_to_repair()
    }

    /// How far the rebuild of a slot is: the first of the shard's rows that isn't rebuilt on the slot's new device.
    /// `None` if the slot has no new device, or there is no such slot.
    pub fn row_to_rebuild(&self, slot: usize) -> Option<u64>
        ensures { MatchOption result (IsNotRebuilt (core_in self.now) slot) (IsFirstUnbuilt (core_in self.now) slot) }
    {
        self.member.row_to_rebuild(slot)
    }

    /// How many more requests there is room for.
    pub fn room(&self) -> usize
        ensures { result + (core_in self.now).unanswered ≡ most_unanswered }
    {
        self.member.room()
    }

    /// How many commands of the shard are at work at a slot: they were handed out and aren't delivered. `None` if there
    /// is no such slot.
    pub fn at_work(&self, slot: usize) -> Option<u64>
        ensures { MatchOption result
            ((core_in self.now).shape.slots ≤ slot)
            (λ count. (slot < (core_in self.now).shape.slots) × (count ≡ slice_index self.now.at_work slot)) }
    {
        if slot >= self.geometry.slots() {
            return None;
        }
        Some(self.at_work[slot])
    }

    /// The number of the shard.
    pub fn number(&self) -> usize
        ensures { result ≡ number_of self.now }
    {
        self.number
    }

    /// The shape of the array.
    pub fn geometry(&self) -> Geometry
        ensures { result ≡ (core_in self.now).shape }
    {
        self.geometry
    }
}

//! A shard in its thread.

ghost use Rattle.std.proofs.Props.{props};
ghost use Rattle.std.specs.Prelude.{◌≡◌, ◌+◌, ◌<◌, ◌≤◌, [], ◌∷◌, ◌++◌, length, vec_capacity, IfOk, IfErr, false};
ghost use Rattle.r6_health.specs.Passes.{view_of, IsPassOf};
ghost use Rattle.r6_health.specs.Histories.{calls_by, held};
ghost use Rattle.r6_health.specs.Views.{Answered, Looks, made_by};
ghost use Rattle.r6_world.specs.Worlds.{as_made};
ghost use Rattle.r6_core.specs.Shards.{world_shard, call_of};
ghost use Rattle.r6_shard.specs.Kept.{IsKept, named_by};
ghost use Rattle.r6_shard.specs.Own.{AreOwn, SeesFailure};
ghost use Rattle.r6_shard.specs.Courses.{AreOf};
ghost use Rattle.r6_shard.specs.Answering.{AreOnce};
ghost use Rattle.r6_shard.specs.Replying.{AreOfKind};
ghost use Rattle.r6_shard.specs.Looked.{KnowsLast, seen_by};
ghost use Rattle.r6_shard.specs.Refusing.{Lasts};
ghost use Rattle.r6_shard.specs.Whole.{SkipsNone, AreAllInSync, AreAllFirst, SawWithPass, Remembers};

use crate::ledger::{Asked, Entry, is_write};
use crate::performs::Performs;
use r6_core::{Call, Core, Op, OpId, Receipt, Refusal, Refused, Task, Turn};
use r6_exchange::Completion;
use r6_health::{Answer, Pass, Refusal as RegisterRefusal, Register, SlotState, Snapshot};
use r6_layout::{Geometry, MOST_SLOTS};
use std::alloc::{AllocError, Global};
use std::sync::Wait;

/// Which shard of which array.
#[derive(Clone, Copy, PartialEq, Eq, Debug)]
pub struct ShardConfig {
    pub geometry: Geometry,
    pub number: usize,
    /// Rows of a slot that may be rebuilt at one time, 1 to 8.
    pub window: usize,
}

/// A shard of an array: its core, who performs its commands on its parts of the devices, a pass at the array's register,
/// and its ledger.
///
/// All room is made before the first command.
#[derive(Drop)]
pub struct Shard<P: Performs> {
    pub core: Core,
    /// Which shard of the array it is.
    pub number: usize,
    pub parts: P,
    pub pass: Pass,
    /// The requests that were accepted, by their numbers.
    pub asked: Vec<Asked>,
    /// In the order in which they were answered.
    pub entries: Vec<Entry>,
    /// As many requests may be accepted.
    pub room: usize,
    /// The slots of which a command that wasn't abandoned failed here.
    pub named: [bool; MOST_SLOTS],
    /// The register as the core looked at it last; at first as the array began.
    pub last: Snapshot,
    /// Whether a slot wasn't in sync where the core looked, or at the start: it was lost, rebuilt or replaced. One on
    /// another device than its first was so before.
    pub saw_out: bool,
    pub ghost kept: { IsKept core (P.performer parts).out number named (length asked.items) },
    pub ghost held: { P.holds parts } by { P.holds_is_prop parts },
    pub ghost own: { AreOwn number named (view_of pass).mine },
    pub ghost pass_name: { (view_of pass).name ≡ number ∷ [] },
    pub ghost no_names: { (view_of pass).next ≡ 0 },
    pub ghost calls: { calls_by (view_of pass).name (view_of pass).seen ≡ (view_of pass).mine },
    pub ghost failure: { SeesFailure core (view_of pass) entries.items },
    pub ghost whole: { SkipsNone core named saw_out },
    pub ghost saw: { SawWithPass saw_out (view_of pass) },
    pub ghost knows: { KnowsLast core last },
    pub ghost seen: { last.attaches ≤ (seen_by (view_of pass)).attaches },
    pub ghost linked: { AreOf asked.items entries.items },
    pub ghost once: { AreOnce (world_shard core) entries.items } by { Prim.hlevel props },
    pub ghost kinds: { AreOfKind core asked.items entries.items },
    pub ghost counted: { core.unanswered + length entries.items ≡ length asked.items },
    pub ghost within: { length asked.items ≤ room },
    pub ghost asked_room: { room ≤ vec_capacity asked },
    pub ghost entries_room: { room ≤ vec_capacity entries },
}

// Makes a shard's call at the register.
fn make<R: Wait>(
    rt: &R,
    number: usize,
    register: &Register,
    pass: &mut Pass,
    call: Call,
) -> Result<Answer, RegisterRefusal>
    requires { IsPassOf register.now pass.old }
    ensures pass { IsPassOf register.now pass.new }
    ensures answered { Answered (view_of pass.old) (as_made number (call_of call)) result (view_of pass.new) }
    ensures own { (view_of pass.new).mine
        ≡ (view_of pass.old).mine ++ made_by (as_made number (call_of call)) result }
{
    match call {
        Call::DeclareLost(slot, generation) => register.declare_lost(rt, pass, slot, generation),
        Call::ReportRebuilt(slot, generation) => {
            register.report_rebuilt(rt, pass, number, slot, generation)
        }
    }
}

// Names the slot of a command that failed and wasn't abandoned.
fn name(named: &mut [bool; MOST_SLOTS], slot: usize, failed: bool, receipt: Receipt)
    requires { slot < 32 }
    ensures { named.new ≡ named_by failed receipt slot named.old }
{
    match receipt {
        Receipt::Taken if failed => named[slot] = true,
        _ => {}
    }
}

// Whether a slot isn't in sync.
fn has_out(snapshot: &Snapshot) -> bool
    ensures none { result ≡ false → AreAllInSync snapshot.now }
    ensures one { AreAllInSync snapshot.now → result ≡ false }
{
    for slot in 0..MOST_SLOTS {
        if !snapshot.slot(slot).is_in_sync() {
            return true;
        }
    }
    false
}

// Whether a slot isn't in sync on its first device.
fn has_other(snapshot: &Snapshot) -> bool
    ensures none { result ≡ false → AreAllFirst snapshot.now }
    ensures one { AreAllFirst snapshot.now → result ≡ false }
{
    for slot in 0..MOST_SLOTS {
        if snapshot.slot(slot) != SlotState::InSync(0) {
            return true;
        }
    }
    false
}

// Whether one wasn't in sync before, or isn't so on its first device now.
fn saw_by(saw_out: bool, snapshot: &Snapshot) -> bool
    ensures none { result ≡ false → (saw_out ≡ false) × AreAllFirst snapshot.now }
    ensures one { saw_out ≡ false → AreAllFirst snapshot.now → result ≡ false }
{
    saw_out || has_other(snapshot)
}

impl<P: Performs + Drop> Shard<P> {
    ghost use Rattle.std.specs.Prelude.{◌↔◌, IsTrue};
    ghost use Rattle.r6_layout.specs.Shape.{IsShape};
    ghost use Rattle.r6_shard.specs.Beginnings.{IsFirstPass};
    ghost use Rattle.r6_core.specs.Effects.{RefusesOp, RefusesTurn};
    ghost use Rattle.r6_core.specs.Refusals.{HasSubmitFault, submit_faults, HasNone};
    ghost use Rattle.std.specs.Prelude.{ℕ, None, true};
    ghost use Rattle.r6_shard.specs.Kept.{AllAreTaken, NoneIsOut, NoneIsToTell};
    ghost use Rattle.r6_shard.specs.Counted.{HasPassedRows, PassesMore, PassesNone, rows_of};
    ghost use Rattle.r6_shard.specs.Shards.{GoesOn, SameLedger, Submits, Collects, Begins};
    ghost use Rattle.r6_shard.specs.Advances.{Advances};
    ghost use Rattle.r6_shard.specs.Driving.{SendsNext, ReceivesNext, PerformsNext, TellsNext};
    ghost use Rattle.r6_shard.specs.Sound.{BeginsSound, IsSoundIn, StaysSound};
    ghost use Rattle.r6_shard.specs.Naming.{NamesFailures};
    ghost use Rattle.r6_shard.specs.Here.{BeginsHere, HasUsed, StaysHere};
    ghost use Rattle.r6_shard.specs.New.{HasNew, HasNewHere};
    ghost use Rattle.r6_shard.specs.Looked.{IsNumbered};
    ghost use Rattle.r6_shard.specs.Learning.{KeepsAllElse};
    ghost use Rattle.r6_shard.specs.Looking.{ReplacesOne, Sees};
    ghost use Rattle.r6_shard.specs.Whole.{WereAllInSync};

    /// A shard of the array as it begins, with room for so many requests.
    ///
    /// `window`, 1 to 8, is how many rows of a slot may be rebuilt at one time. The snapshot is of the register as it
    /// began, at which no device was attached. The pass has the shard's number as its name, and has seen nothing since.
    ///
    /// # Errors
    /// `AllocError` where there is no memory for all room.
    pub fn new(
        alloc: Global,
        place: ShardConfig,
        snapshot: &Snapshot,
        pass: Pass,
        parts: P,
        room: usize,
    ) -> Result<Shard<P>, AllocError>
        requires limits { IsShape place.geometry }
        requires number { place.number < place.geometry.shards }
        requires window { (1 ≤ place.window) × (place.window ≤ 8) }

        // the register as it began
        requires no_attach { snapshot.now.attaches ≡ 0 }
        requires unfailed { snapshot.now.failed ≡ false }
        requires pass { IsFirstPass place.geometry place.number snapshot.now (view_of pass) }

        // nothing is out
        requires holds { P.holds parts }
        requires idle { (token : ℕ) → (P.performer parts).out token ≡ None }

        // its course begins
        ensures begins { IfOk result (Begins place.geometry place.number snapshot.now) }
        ensures passed { IfOk result (λ shard. HasPassedRows false 0 0 shard.core) }
        ensures sound { IfOk result (λ shard. (slot : _)
            → BeginsSound (P.performer parts) place.geometry place.number snapshot.now slot
            → IsSoundIn place.geometry place.number slot shard) }
        ensures here { IfOk result (λ shard. (slot : _)
            → BeginsHere (P.performer parts).labels place.geometry.slots snapshot.now slot
            → HasUsed (P.performer parts).labels slot shard.core) }

        // what it was made of
        ensures parts { IfOk result (λ shard. shard.parts ≡ parts) }
        ensures pass { IfOk result (λ shard. shard.pass ≡ pass) }
        ensures empty { IfOk result (λ shard. shard.asked.items ≡ []) }
        ensures room { IfOk result (λ shard. shard.room ≡ room) }
        ensures shape { IfOk result (λ shard. shard.core.shape ≡ place.geometry) }
        ensures place { IfOk result (λ shard. shard.core.shard ≡ place.number) }
        ensures window { IfOk result (λ shard. shard.core.window ≡ place.window) }
    {
        let asked = Vec::with_capacity(alloc, room)?;
        let entries = Vec::with_capacity(alloc, room)?;
        let ShardConfig {
            geometry,
            number,
            window,
        } = place;
        let Ok(core) = Core::new(alloc, geometry, number, window, snapshot) else {
            return Err(AllocError);
        };
        Ok(Shard {
            core,
            number,
            parts,
            pass,
            asked,
            entries,
            room,
            named: [false; MOST_SLOTS],
            last: *snapshot,
            saw_out: has_out(snapshot),
        })
    }

    /// Hands a request in, of an event with this number.
    ///
    /// # Errors
    /// Those of [`Core::submit`], with the request back. Nothing changes.
    pub fn submit(&mut self, event: u64, op: Op) -> Result<OpId, Refused<Op>>
        requires room { length self.old.asked.items < self.old.room }

        // taken, or refused with nothing changed
        ensures accepted { IfOk result (λ id. Submits event op self.old id.0 self.new) }
        ensures right { IfOk result (λ _. HasNone (HasSubmitFault self.old.core op) submit_faults) }
        ensures refused { IfErr result (λ r. RefusesOp self.old.core op r.refusal r.back self.new.core) }
        ensures same { IfErr result (λ _. self.new ≡ self.old) }

        // in both cases
        ensures lasts { Lasts self.old.core self.new.core }
        ensures remembers { Remembers self.old.named self.old.saw_out self.new.named self.new.saw_out }
        ensures named { self.new.named ≡ self.old.named }
        ensures sound { StaysSound self.old self.new }
        ensures here { StaysHere self.old self.new }
        ensures passed { PassesNone self.old.core self.new.core }
    {
        let block = op.block();
        let writes = is_write(&op);
        let answered = self.entries.len();
        match self.core.submit(op) {
            Ok(id) => {
                self.asked.push_reserved(Asked {
                    event,
                    block,
                    writes,
                    answered,
                });
                Ok(id)
            }
            Err(refused) => Err(refused),
        }
    }

    // Makes room for one more command; whether there is room.
    fn make_room<R: Wait>(&mut self, rt: &R) -> bool
        ensures room { result ≡ true → P.has_room self.new.parts ≡ true }
        ensures performer { P.performer self.new.parts ≡ P.performer self.old.parts }
        ensures advances { Advances self.old self.new }
        ensures named { self.new.named ≡ self.old.named }
        ensures passed { PassesNone self.old.core self.new.core }
        ensures ledger { SameLedger self.old self.new }
        ensures pass { self.new.pass ≡ self.old.pass }
        ensures last { self.new.last ≡ self.old.last }
        ensures full { result ≡ false → P.has_room self.new.parts ≡ false }
        ensures core { self.new.core ≡ self.old.core }
        ensures saw_out { self.new.saw_out ≡ self.old.saw_out }
    {
        self.parts.make_room(rt)
    }

    // Sends the command that was put out first; whether there was one.
    fn send_next<R: Wait>(&mut self, rt: &R) -> bool
        requires { P.has_room self.old.parts ≡ true }
        ensures advances { Advances self.old self.new }
        ensures named { self.new.named ≡ self.old.named }
        ensures passed { PassesNone self.old.core self.new.core }
        ensures ledger { SameLedger self.old self.new }
        ensures pass { self.new.pass ≡ self.old.pass }
        ensures last { self.new.last ≡ self.old.last }
        ensures none { result ≡ false → AllAreTaken (world_shard self.new.core)
            × (P.performer self.new.parts ≡ P.performer self.old.parts) }
        ensures sent { SendsNext result self.old self.new }
    {
        let Some(command) = self.core.take_command() else {
            return false;
        };
        self.parts.send(rt, command);
        true
    }

    /// Sends the command that was put out first, if there is room for it; whether one was sent.
    pub fn hand_next<R: Wait>(&mut self, rt: &R) -> bool
        ensures advances { Advances self.old self.new }
        ensures named { self.new.named ≡ self.old.named }
        ensures passed { PassesNone self.old.core self.new.core }
        ensures ledger { SameLedger self.old self.new }
        ensures pass { self.new.pass ≡ self.old.pass }
        ensures last { self.new.last ≡ self.old.last }
        ensures sent { SendsNext result self.old self.new }
    {
        if !self.make_room(rt) {
            return false;
        }
        self.send_next(rt)
    }

    /// Receives a completion that has come and delivers it; whether there was one.
    pub fn receive_next<R: Wait>(&mut self, rt: &R) -> bool
        ensures advances { Advances self.old self.new }
        ensures named { NamesFailures self.old self.new }
        ensures passed { PassesNone self.old.core self.new.core }
        ensures ledger { SameLedger self.old self.new }
        ensures pass { self.new.pass ≡ self.old.pass }
        ensures last { self.new.last ≡ self.old.last }
        ensures received { ReceivesNext result self.old self.new }
    {
        let Some(completion) = self.parts.receive(rt) else {
            return false;
        };
        let Completion {
            token,
            slot,
            result: answer,
        } = completion;
        let failed = answer.is_err();
        let Ok(receipt) = self.core.deliver(token, answer) else {
            unreachable!()
        };
        name(&mut self.named, slot, failed, receipt);
        true
    }

    // Sends a command, or else delivers a completion; whether it did either.
    pub(crate) fn perform_next<R: Wait>(&mut self, rt: &R) -> bool
        ensures advances { Advances self.old self.new }
        ensures passed { PassesNone self.old.core self.new.core }
        ensures ledger { SameLedger self.old self.new }
        ensures pass { self.new.pass ≡ self.old.pass }
        ensures last { self.new.last ≡ self.old.last }
        ensures performed { PerformsNext result self.old self.new }
    {
        if self.hand_next(rt) {
            return true;
        }
        self.receive_next(rt)
    }

    /// Whether no command is out. If one was put out and none is out, it is sent.
    pub fn is_still<R: Wait>(&mut self, rt: &R) -> bool
        ensures advances { Advances self.old self.new }
        ensures named { self.new.named ≡ self.old.named }
        ensures passed { PassesNone self.old.core self.new.core }
        ensures ledger { SameLedger self.old self.new }
        ensures pass { self.new.pass ≡ self.old.pass }
        ensures last { self.new.last ≡ self.old.last }
        ensures still { result ≡ true → NoneIsOut (world_shard self.new.core) }
    {
        if !self.parts.is_idle() {
            return false;
        }
        if !self.make_room(rt) {
            return false;
        }
        !self.send_next(rt)
    }

    // What the register holds.
    pub(crate) fn read<R: Wait>(&mut self, rt: &R, register: &Register) -> Snapshot
        requires { IsPassOf register.now self.old.pass }

        // its course goes on
        ensures pass { IsPassOf register.now self.new.pass }
        ensures course { GoesOn self.old self.new }

        // and nothing changes but what its pass has seen
        ensures looks { Looks (view_of self.old.pass) (view_of self.new.pass) }
        ensures kept { KeepsAllElse self.old self.new }

        ensures snapshot { result ≡ held (view_of self.new.pass).start (view_of self.new.pass).seen }
        ensures numbered { IsNumbered result }
        ensures first { WereAllInSync (view_of self.new.pass) → AreAllFirst result }
        ensures replaces { ReplacesOne result }
    {
        register.read(rt, &mut self.pass)
    }

    // The core looks at what the register held when it was read last, once every call was told; whether it did.
    pub(crate) fn see(&mut self, snapshot: &Snapshot) -> bool
        requires snapshot { snapshot.now ≡ held (view_of self.old.pass).start (view_of self.old.pass).seen }
        requires numbered { IsNumbered snapshot.now }
        requires first { WereAllInSync (view_of self.old.pass) → AreAllFirst snapshot.now }
        requires replaces { ReplacesOne snapshot.now }

        // its course goes on
        ensures course { GoesOn self.old self.new }
        ensures lasts { Lasts self.old.core self.new.core }
        ensures remembers { Remembers self.old.named self.old.saw_out self.new.named self.new.saw_out }
        ensures named { self.new.named ≡ self.old.named }
        ensures sound { (shape : _) (number : _) (slot : _)
            → (slot < shape.slots → HasNew (P.performer self.old.parts).tells snapshot.now slot)
            → IsSoundIn shape number slot self.old → IsSoundIn shape number slot self.new }
        ensures here { (slot : _)
            → (slot < self.old.core.shape.slots → HasNewHere (P.performer self.old.parts).labels snapshot.now slot)
            → HasUsed (P.performer self.old.parts).labels slot self.old.core
            → HasUsed (P.performer self.old.parts).labels slot self.new.core }

        // and no row is passed, and the ledger and the parts stay
        ensures passed { PassesNone self.old.core self.new.core }
        ensures ledger { SameLedger self.old self.new }
        ensures parts { self.new.parts ≡ self.old.parts }
        ensures pass { self.new.pass ≡ self.old.pass }

        ensures looked { Sees result snapshot.now self.old self.new }
    {
        match self.core.look(snapshot) {
            Ok(()) => {
                self.last = *snapshot;
                self.saw_out = saw_by(self.saw_out, snapshot);
                true
            }
            Err(_) => false,
        }
    }

    /// Makes the call at the register that is to be made next, and tells the core the answer; whether there was one. A
    /// call that came between others' is to be made again.
    pub fn tell_next<R: Wait>(&mut self, rt: &R, register: &Register) -> bool
        requires { IsPassOf register.now self.old.pass }
        ensures pass { IsPassOf register.now self.new.pass }
        ensures advances { Advances self.old self.new }
        ensures named { self.new.named ≡ self.old.named }
        ensures passed { PassesNone self.old.core self.new.core }
        ensures ledger { SameLedger self.old self.new }
        ensures last { self.new.last ≡ self.old.last }
        ensures none { result ≡ false → (world_shard self.new.core ≡ world_shard self.old.core)
            × (self.new.pass ≡ self.old.pass) × NoneIsToTell (world_shard self.new.core) }
        ensures told { TellsNext result self.old self.new }
    {
        let Some(call) = self.core.take_call() else {
            return false;
        };
        let answer = make(rt, self.number, register, &mut self.pass, call);
        let Ok(()) = self.core.told(call, answer) else {
            unreachable!()
        };
        true
    }

    /// Takes the reply that was released first into the ledger; whether there was one.
    pub fn collect(&mut self) -> bool
        ensures advances { Advances self.old self.new }
        ensures named { self.new.named ≡ self.old.named }
        ensures passed { PassesNone self.old.core self.new.core }
        ensures ledger { Collects result self.old self.new }
        ensures asked { self.new.asked ≡ self.old.asked }
        ensures room { self.new.room ≡ self.old.room }
        ensures pass { self.new.pass ≡ self.old.pass }
        ensures last { self.new.last ≡ self.old.last }
    {
        let Some((id, reply)) = self.core.take_reply() else {
            return false;
        };
        let asked = self.asked[id.0 as usize];
        self.entries.push_reserved(Entry {
            event: asked.event,
            id,
            block: asked.block,
            reply,
        });
        true
    }

    /// Takes up the next row of a task.
    ///
    /// # Errors
    /// Those of [`Core::turn`]. Nothing changes.
    pub fn turn(&mut self, task: Task) -> Result<Turn, Refusal>
        ensures advances { Advances self.old self.new }
        ensures named { self.new.named ≡ self.old.named }
        ensures passed { IfOk result (λ _. PassesMore (rows_of task) self.old.core self.new.core) }
        ensures ledger { SameLedger self.old self.new }
        ensures pass { self.new.pass ≡ self.old.pass }
        ensures last { self.new.last ≡ self.old.last }
        ensures refused { IfErr result (λ refusal. RefusesTurn self.old.core task refusal self.new.core) }
    {
        self.core.turn(task)
    }
}

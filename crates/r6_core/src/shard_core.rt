//! The core as its callers see it.

ghost use Rattle.std.specs.Prelude.{◌≡◌, ◌≤◌, ◌<◌, nat_lt, if◌then◌else◌, ℕ, MatchOption, IfOk, IfErr, IfSome, None, false};
ghost use Rattle.std.specs.VecDeque.{deque_capacity};
ghost use Rattle.r6_layout.specs.Shape.{IsShape};
ghost use Rattle.r6_world.specs.Registers.{status_of};
ghost use Rattle.r6_world.specs.Worlds.{slot_at_start};
ghost use Rattle.r6_world.specs.Steps.{No_command, No_call};
ghost use Rattle.r6_core.specs.Progress.{IsFirstUnbuilt, IsNotRebuilt};
ghost use Rattle.r6_core.specs.Shards.{Step, counts_of, world_shard, devices_state, synced};
ghost use Rattle.r6_core.specs.Effects.{KeepsRequests, IsMade, Accepts, RefusesOp, Receives, RefusesCompletion, LooksAt, RefusesLook, Turns, RefusesTurn, IsCommandOf, HandsCommand, IsOldestUntaken, HandsCall, Hears, RefusesAnswer, HandsReply, HandsNoReply};
ghost use Rattle.r6_core.specs.Together.{SubmitsAll};

use crate::call::Call;
use crate::counts::Counts;
use crate::refusal::{CoreError, Refusal, Refused};
use crate::state::State;
use crate::submitting::Submitted;
use crate::turn::{Task, Turn};
use r6_frames::{Device, Scrub};
use r6_health::{Answer, Refusal as RegisterRefusal, SlotState, Snapshot};
use r6_kernels::Buffer;
use r6_layout::{Geometry, MOST_SLOTS};
use r6_world::{Command, DeviceFault, Op, OpId, Receipt, Reply};
use std::alloc::Global;
use std::collections::VecDeque;
use std::marker::Model;

/// The core of a shard.
///
/// It is passive: its caller submits requests, takes commands and performs them on devices, delivers their
/// completions, takes calls and makes them at the register, looks at the register and takes replies, in any order. No
/// call but [`Core::new`] is handed an allocator.
///
/// No call asks for more than its conditions. The laws of what blocks hold ([`array_law`](crate::array_law)) suppose a
/// little order: a call is taken, made and told with no event of this core between, and a look follows the reading of
/// its snapshot so. A device performs each command at most once, before its completion is delivered, and an error of a
/// device is delivered before any completion of a command that this device performed later.
#[derive(Drop)]
pub struct Core {
    /// As many rows of a rebuild may be under way at one time.
    window: usize,
    state: State,
}

impl Model for Core {
    ghost use Rattle.std.specs.Prelude.{refl, ◌≤◌};
    ghost use Rattle.std.specs.Coded.{codes, code_by};
    ghost use Rattle.std.specs.FinMap as map;
    ghost use Rattle.circular_buffer.specs.Buffer.{buffer_code};
    ghost use Rattle.r6_core.specs.Shards.{CoreView, Fields, core_with, fields, of_fields};
    ghost use Rattle.r6_core.specs.Inside.{IsCore};

    ghost Value = { CoreView };

    ghost coded = { code_by Fields (Prim.hlevel (codes, map.code, buffer_code)) fields of_fields (λ _. refl) };

    ghost view = { λ core. core_with core.window core.state };

    ghost invariant = { λ core. IsCore core.state × (core.window ≤ 8) };
}

impl Core {
    /// The core of shard `shard` of the array, one of those of the geometry. All room is made here.
    ///
    /// `window`, 1 to 8, is how many rows of a slot may be rebuilt at one time. The snapshot is of a register at which
    /// no device was attached, and that has not failed.
    ///
    /// # Errors
    /// 1 `NoMemory`.
    pub fn new(
        alloc: Global,
        geometry: Geometry,
        shard: usize,
        window: usize,
        snapshot: &Snapshot,
    ) -> Result<Core, CoreError>
        requires limits { IsShape geometry }
        requires shard { shard < geometry.shards }
        requires window { (1 ≤ window) × (window ≤ 8) }
        requires no_attach { snapshot.now.attaches ≡ 0 }
        requires unfailed { snapshot.now.failed ≡ false }
        ensures made { IfOk result (IsMade geometry snapshot.now shard) }
        ensures window { IfOk result (λ core. core.window ≡ window) }
    {
        match State::new(alloc, geometry, shard, devices_at(snapshot)) {
            Ok(state) => Ok(Core { window, state }),
            Err(_) => Err(CoreError::NoMemory),
        }
    }

    /// Takes a request, and starts what can start.
    ///
    /// # Errors
    /// In this order: 1 `NoSuchBlock`, 2 `WrongShard`, 3 `WrongLength`, 5 `ArrayFailed`, 6 `Exhausted`, 4 `Busy`, with
    /// the request back. Nothing changes.
    pub fn submit(&mut self, op: Op) -> Result<OpId, Refused<Op>>
        ensures accepted { IfOk result (λ id. Accepts self.old op id.0 self.new) }
        ensures refused { IfErr result (λ r. RefusesOp self.old op r.refusal r.back self.new) }
        ensures window { self.new.window ≡ self.old.window }
    {
        self.state.submit(op)
    }

    /// Takes requests from the front of the list, one after another, until one is refused or none is left. Then it
    /// starts what can start, so that writes of one row start together: a whole row is written with no read. The list
    /// keeps those that were not taken, from the one that is refused on, and its room.
    ///
    /// # Errors
    /// [`Submitted::refusal`], as [`Core::submit`] would refuse the next one. Where none is taken, nothing changes.
    pub fn submit_all(&mut self, ops: &mut VecDeque<Op>) -> Submitted
        ensures submitted { SubmitsAll self.old ops.old.items ops.new.items result self.new }
        ensures room { deque_capacity ops.new ≡ deque_capacity ops.old }
        ensures window { self.new.window ≡ self.old.window }
    {
        self.state.submit_all(ops)
    }

    /// Takes the completion of a command, with its buffer: a read's with the block. A `ReadFault` of a block's first
    /// read loses nothing: the block is computed from the others, written anew and read again. Any other fault takes the
    /// device of the command out, and its loss is to be declared at the register. The completion of a command that was
    /// abandoned is late: it only brings its buffer home.
    ///
    /// # Errors
    /// In this order: 7 `UnknownToken`, 3 `WrongLength`, with the completion back. Nothing changes.
    pub fn deliver(
        &mut self,
        token: u64,
        completion: Result<Buffer, DeviceFault>,
    ) -> Result<Receipt, Refused<Result<Buffer, DeviceFault>>>
        ensures received { IfOk result (λ receipt. Receives self.old token completion receipt self.new) }
        ensures refused { IfErr result (λ r. RefusesCompletion self.old token completion r.refusal r.back self.new) }
        ensures window { self.new.window ≡ self.old.window }
    {
        self.state.deliver(token, completion)
    }

    /// Sees the register: each slot keeps what the shard has of the devices that the register has there, and no other;
    /// a device that is to be built, and that the shard hasn't, begins with no row. Then all finished requests are
    /// released, in the order in which they finished, those too that the look finished. If the array has failed, every
    /// request that isn't released is answered so, from the oldest to the newest, and nothing goes on any more.
    ///
    /// # Errors
    /// In this order: 8 `UntoldFirst`, 12 `TwoReplaced`. Nothing changes.
    pub fn look(&mut self, snapshot: &Snapshot) -> Result<(), Refusal>
        ensures looked { IfOk result (λ _. LooksAt self.old snapshot.now self.new) }
        ensures refused { IfErr result (λ refusal. RefusesLook self.old snapshot.now refusal self.new) }
        ensures window { self.new.window ≡ self.old.window }
    {
        self.state.look(snapshot)
    }

    /// Takes up the next row of a task.
    ///
    /// A rebuild's is on the lowest slot with a new device that has one: the first that isn't held among the first
    /// `window` rows of the shard that aren't rebuilt on it. Its block is restored from the others, or read from the
    /// device that is being replaced, and written there. With the last row the new device is in sync in the shard, and a
    /// call is to be made that reports it.
    ///
    /// Checks and repairs go each by themselves from the shard's first row to its last, and on from the first. All
    /// blocks of the row are read and its class is counted; a repair writes P and Q anew, each if it differs from that
    /// of the data. A row for which a slot isn't in sync is passed over, and counted as skipped, held or not.
    ///
    /// # Errors
    /// In this order: 5 `ArrayFailed`, 6 `Exhausted`, 10 `NothingToDo` (three slots are out, the row of a check or
    /// repair is held, or no row is to be rebuilt), 9 `NoFrame`. Nothing changes.
    pub fn turn(&mut self, task: Task) -> Result<Turn, Refusal>
        ensures turned { IfOk result (λ turn. Turns self.old task turn self.new) }
        ensures refused { IfErr result (λ refusal. RefusesTurn self.old task refusal self.new) }
        ensures window { self.new.window ≡ self.old.window }
    {
        match task {
            Task::Rebuild => self.state.rebuild(self.window),
            Task::Check => self.state.turn(Scrub::Check),
            Task::Repair => self.state.turn(Scrub::Repair),
        }
    }

    /// What turns have counted since the core was made.
    pub fn counts(&self) -> Counts
        ensures { counts_of result ≡ (world_shard self.now).counts }
    {
        self.state.counts
    }

    /// The row of the shard that the next check takes up. Checks go round its rows without end.
    pub fn row_to_check(&self) -> u64
        ensures { result ≡ (world_shard self.now).check_row }
    {
        self.state.check_row
    }

    /// The row of the shard that the next repair takes up. Repairs go round its rows without end.
    pub fn row_to_repair(&self) -> u64
        ensures { result ≡ (world_shard self.now).repair_row }
    {
        self.state.repair_row
    }

    /// How far the rebuild of a slot is: the first row of the shard that isn't rebuilt on its new device. `None` if the
    /// slot has no device that is yet to be rebuilt, and for a number that no slot has.
    pub fn row_to_rebuild(&self, slot: usize) -> Option<u64>
        ensures { MatchOption result (IsNotRebuilt self.now slot) (IsFirstUnbuilt self.now slot) }
    {
        if self.state.frames.geometry().slots() <= slot {
            return None;
        }
        let rebuilt = self.state.frames.device(slot).rows()?;
        Some(rebuilt.next_row(0))
    }

    /// Whether a look has seen that the array failed.
    pub fn saw_failed(&self) -> bool
        ensures { result ≡ (world_shard self.now).saw_failed }
    {
        self.state.frames.saw_failed()
    }

    /// How many commands were put out so far: the next one's token.
    pub fn tokens(&self) -> u64
        ensures { result ≡ (world_shard self.now).tokens }
    {
        self.state.frames.tokens()
    }

    /// Takes the command that was put out first and not taken.
    ///
    /// Commands that were abandoned meanwhile are handed out too, and are to be delivered as all others: their buffers
    /// stay away until then, and the frames of their rows with them. Any completion does, also with an error.
    pub fn take_command(&mut self) -> Option<Command>
        ensures step { MatchOption result (Step self.old No_command self.new) (λ c. HandsCommand self.old c self.new) }
        ensures oldest { IfSome result (λ c. IsOldestUntaken self.old c.token) }
        ensures there { IfSome result (IsCommandOf self.old) }
        ensures kept { KeepsRequests self.old self.new }
        ensures window { self.new.window ≡ self.old.window }
    {
        self.state.take_command()
    }

    /// Takes the call that is to be made next at the register, if the answer of the one before was told.
    pub fn take_call(&mut self) -> Option<Call>
        ensures step { MatchOption result (Step self.old No_call self.new) (λ call. HandsCall self.old call self.new) }
        ensures kept { KeepsRequests self.old self.new }
        ensures window { self.new.window ≡ self.old.window }
    {
        self.state.take_call()
    }

    /// Hears the answer of the call that was taken last. A call that was answered `Contended` is to be made again,
    /// before the others.
    ///
    /// # Errors
    /// 11 `UnknownCall`. Nothing changes.
    pub fn told(
        &mut self,
        call: Call,
        answer: Result<Answer, RegisterRefusal>,
    ) -> Result<(), Refusal>
        ensures heard { IfOk result (λ _. Hears self.old call answer self.new) }
        ensures refused { IfErr result (λ refusal. RefusesAnswer self.old call refusal self.new) }
        ensures kept { KeepsRequests self.old self.new }
        ensures window { self.new.window ≡ self.old.window }
    {
        self.state.told(call, answer)
    }

    /// Takes the reply that was released first.
    pub fn take_reply(&mut self) -> Option<(OpId, Reply)>
        ensures reply { MatchOption result
            (HandsNoReply self.old self.new)
            (λ r. HandsReply self.old (r.0).0 r.1 self.new) }
        ensures window { self.new.window ≡ self.old.window }
    {
        self.state.take_reply()
    }

    /// The generation with which the shard has the slot in sync, of two devices that of the first; `None` for any other
    /// slot, and for a number that no slot has.
    pub fn in_sync(&self, slot: usize) -> Option<u32>
        ensures { result
            ≡ (if nat_lt slot self.now.shape.slots then synced ((world_shard self.now).slot slot) else None) }
    {
        if slot >= self.state.frames.geometry().slots() {
            return None;
        }
        match self.state.frames.device(slot) {
            Device::Synced(generation)
            | Device::Doubled(generation, _, _)
            | Device::Paired(generation, _) => Some(*generation),
            Device::Missing | Device::Building(..) => None,
        }
    }
}

// What the slots have at the start: a rebuilding slot there is none.
fn devices_at(snapshot: &Snapshot) -> [Device; MOST_SLOTS]
    ensures { (slot : ℕ) → devices_state result slot ≡ slot_at_start (status_of snapshot.now slot) }
{
    let mut devices = [Device::Missing; MOST_SLOTS];
    for slot in 0..MOST_SLOTS {
        if let SlotState::InSync(_) = snapshot.slot(slot) {
            devices[slot] = Device::Synced(0);
        }
    }
    devices
}

//! A shard of an array: its core, and what the callers of its requests call them.

ghost use Rattle.std.specs.Prelude.{◌≡◌, ◌≤◌, ◌<◌, ◌+◌, ◌^◌, length, take, drop, IfOk, IfErr, MatchOption, true, false, Some, None, option_map};
ghost use Rattle.std.specs.FinMap as map;
ghost use Rattle.std.specs.VecDeque.{deque_capacity};
ghost use Rattle.r6_tables.specs.Table.{capacity_of, next_of, entries_of};
ghost use Rattle.r6_layout.specs.Shape.{IsShape};
ghost use Rattle.r6_world.specs.Geometries.{layout_of};
ghost use Rattle.r6_world.specs.Registers.{answer_to, register_after};
ghost use Rattle.r6_world.specs.Worlds.{as_made};
ghost use Rattle.r6_core.specs.Shards.{SameShard, world_shard, call_of, counts_of};
ghost use Rattle.r6_core.specs.Progress.{IsFirstUnbuilt, IsNotRebuilt};
ghost use Rattle.r6_core.specs.Refusals.{most_unanswered, AllTold, IsFirstFault, turn_faults};
ghost use Rattle.r6_core.specs.Effects.{RefusesOp, RefusesCompletion, HasTaskFault};
ghost use Rattle.r6_array.specs.Members.{SeesCall};
ghost use Rattle.r6_core.specs.Order.{HasNoReply};
ghost use Rattle.r6_array.specs.Together.{AreFresh, TakesAllIn, with_named};

use crate::error::ArrayError;
use crate::requests::RequestList;
use r6_core::{
    Call, Command, Core, Counts, DeviceFault, MOST_UNANSWERED, Op, OpId, Receipt, Refusal, Refused,
    Reply, Submitted, Task, Turn,
};
use r6_health::{Answer, Call as RegisterCall, Refusal as RegisterRefusal, Snapshot};
use r6_kernels::Buffer;
use r6_layout::Geometry;
use r6_tables::Table;
use std::alloc::Global;
use std::collections::VecDeque;
use std::marker::Model;

/// A shard of an array.
#[derive(Drop)]
pub(crate) struct Member {
    core: Core,
    /// What its caller calls each request whose reply wasn't taken, by the request's number.
    names: Table<u64>,
    /// Whether its last event, takings aside, was a look at the register, which is as it was then.
    settled: bool,
    /// The call that the core makes next.
    change: Option<Call>,
    /// As many commands were taken.
    taken: u64,
}

impl Model for Member {
    ghost use Rattle.std.specs.Prelude.{refl};
    ghost use Rattle.std.specs.Coded.{codes, code_by};
    ghost use Rattle.std.specs.FinMap as map;
    ghost use Rattle.circular_buffer.specs.Buffer.{buffer_code};
    ghost use Rattle.r6_tables.specs.Table.{entries_of};
    ghost use Rattle.r6_array.specs.Arrays.{ShardView, ShardFields, shard_fields, shard_of_fields};
    ghost use Rattle.r6_array.specs.Inside.{IsMember};

    ghost Value = { ShardView };

    ghost coded = { code_by ShardFields (Prim.hlevel (codes, map.code, buffer_code)) shard_fields shard_of_fields (λ _. refl) };

    ghost view = { λ m. record { core = m.core; names = entries_of m.names; settled = m.settled } };

    ghost invariant = { λ m. IsMember m.core m.names m.settled m.change m.taken };
}

impl Member {
    ghost use Rattle.r6_array.specs.Arrays.{first_of};
    ghost use Rattle.r6_array.specs.Inside.{ReplacesOne};
    ghost use Rattle.r6_array.specs.Members.{IsNewMember, TakesIn, PutsOut, AllAreTaken, TakesBack, HasLooked, LooksUp, HandsBack, Agrees, TakesUp, unsettled};

    /// The shard of this number, with all its room.
    pub(crate) fn new(
        alloc: Global,
        geometry: Geometry,
        shard: usize,
        window: usize,
        register: &Snapshot,
    ) -> Result<Member, ArrayError>
        requires limits { IsShape geometry }
        requires shard { shard < geometry.shards }
        requires window { (1 ≤ window) × (window ≤ 8) }
        requires no_attach { register.now.attaches ≡ 0 }
        requires unfailed { register.now.failed ≡ false }
        ensures made { IfOk result (IsNewMember geometry register.now shard window) }
        ensures memory { IfErr result (λ e. e ≡ ArrayError.NoMemory) }
    {
        let core = match Core::new(alloc, geometry, shard, window, register) {
            Ok(core) => core,
            Err(_) => return Err(ArrayError::NoMemory),
        };
        let names = match Table::with_capacity(alloc, MOST_UNANSWERED) {
            Ok(names) => names,
            Err(_) => return Err(ArrayError::NoMemory),
        };
        Ok(Member {
            core,
            names,
            settled: true,
            change: None,
            taken: 0,
        })
    }

    /// The core takes a request, whose caller calls it so.
    pub(crate) fn submit(&mut self, op: Op, name: u64) -> Result<(), Refused<Op>>
        ensures accepted { IfOk result (λ _. TakesIn self.old op name self.new) }
        ensures refused { IfErr result (λ r.
            (self.new ≡ self.old) × RefusesOp self.old.core op r.refusal r.back self.old.core) }
        ensures shard { SameShard self.old.core self.new.core }
    {
        match self.core.submit(op) {
            Ok(_) => {
                self.names.push(name);
                self.settled = false;
                Ok(())
            }
            Err(refused) => Err(refused),
        }
    }

    /// The core takes requests from the front of the list, as many as it can.
    pub(crate) fn submit_all(&mut self, requests: &mut RequestList) -> Submitted
        ensures taken { TakesAllIn self.old requests.old requests.new result self.new }
        ensures shard { SameShard self.old.core self.new.core }
    {
        let submitted = self.core.submit_all(&mut requests.ops);
        if submitted.count > 0 {
            name_all(&mut self.names, &mut requests.names, submitted.count);
            self.settled = false;
        }
        submitted
    }

    /// The oldest command that wasn't taken.
    pub(crate) fn take_command(&mut self) -> Option<Command>
        ensures taken { MatchOption result
            ((self.new ≡ self.old) × AllAreTaken self.old.core)
            (λ c. PutsOut self.old c self.new) }
        ensures shard { SameShard self.old.core self.new.core }
    {
        if self.core.tokens() == self.taken {
            return None;
        }
        let Some(command) = self.core.take_command() else {
            unreachable!()
        };
        self.taken += 1;
        Some(command)
    }

    /// The completion of a command that was taken.
    pub(crate) fn deliver(
        &mut self,
        token: u64,
        completion: Result<Buffer, DeviceFault>,
    ) -> Result<Receipt, Refused<Result<Buffer, DeviceFault>>>
        ensures received { IfOk result (λ receipt. TakesBack self.old token completion receipt self.new) }
        ensures refused { IfErr result (λ r.
            (self.new ≡ self.old)
            × RefusesCompletion self.old.core token completion r.refusal r.back self.old.core) }
        ensures shard { SameShard self.old.core self.new.core }
    {
        match self.core.deliver(token, completion) {
            Ok(receipt) => {
                self.change = next_call(&mut self.core);
                self.settled = false;
                Ok(receipt)
            }
            Err(refused) => Err(refused),
        }
    }

    /// The shard looks at the register, unless it is settled or asks for a change: whether it is settled.
    pub(crate) fn look(&mut self, register: &Snapshot) -> bool
        requires { ReplacesOne register.now }
        ensures looked { HasLooked register.now self.old self.new }
        ensures settled { result ≡ self.new.settled }
        ensures told { result ≡ true → AllTold self.old.core }
        ensures untold { self.new.settled ≡ false → AllTold self.new.core → ⊥ }
        ensures shard { SameShard self.old.core self.new.core }
    {
        if self.settled {
            return true;
        }
        match self.look_anew(register) {
            Ok(()) => {}
            Err(_) => return false,
        }
        self.settled
    }

    /// The shard looks at the register, also if it is settled.
    pub(crate) fn look_anew(&mut self, register: &Snapshot) -> Result<(), Refusal>
        requires { ReplacesOne register.now }
        ensures looked { IfOk result (λ _. LooksUp self.old register.now self.new) }
        ensures refused { IfErr result (λ refusal.
            (self.new ≡ self.old) × (refusal ≡ Refusal.UntoldFirst) × (AllTold self.old.core → ⊥)) }
        ensures shard { SameShard self.old.core self.new.core }
    {
        self.core.look(register)?;
        self.change = next_call(&mut self.core);
        self.settled = self.change.is_none();
        Ok(())
    }

    /// The reply that was released first, with what its caller calls its request.
    pub(crate) fn take_reply(&mut self) -> Option<(u64, Reply)>
        ensures reply { MatchOption result
            ((self.new ≡ self.old) × HasNoReply self.old.core)
            (λ r. HandsBack self.old r.0 r.1 self.new) }
        ensures shard { SameShard self.old.core self.new.core }
    {
        let (OpId(id), reply) = self.core.take_reply()?;
        let Some(name) = self.names.remove(id) else {
            unreachable!()
        };
        Some((name, reply))
    }

    /// The call that the core makes next at the register.
    pub(crate) fn change(&self) -> Option<Call>
        ensures { option_map call_of result ≡ first_of (world_shard self.now.core).calls }
    {
        self.change
    }

    /// The next call is made at the register: its answer, and what the register holds then.
    pub(crate) fn agree(
        &mut self,
        geometry: &Geometry,
        shard: usize,
        register: &Snapshot,
        call: Call,
    ) -> (Result<Answer, RegisterRefusal>, Snapshot)
        requires shard { shard < geometry.now.shards }
        requires next { first_of (world_shard self.old.core).calls ≡ Some (call_of call) }
        ensures agreed { Agrees geometry.now shard self.old register.now call result.0 result.1 self.new }
        ensures shard { SameShard self.old.core self.new.core }
    {
        let Some(call) = self.core.take_call() else {
            unreachable!()
        };
        let (answer, next) = made(geometry, shard, register, call);
        let Ok(()) = self.core.told(call, answer) else {
            unreachable!()
        };
        self.change = next_call(&mut self.core);
        self.settled = false;
        (answer, next)
    }

    /// The register has taken a call.
    pub(crate) fn unsettle(&mut self)
        ensures { self.new ≡ unsettled self.old }
    {
        self.settled = false;
    }

    /// The next row of a task.
    pub(crate) fn turn(&mut self, task: Task) -> Result<Turn, Refusal>
        ensures turned { IfOk result (λ turn. TakesUp self.old task turn self.new) }
        ensures refused { IfErr result (λ refusal.
            (self.new ≡ self.old) × IsFirstFault (HasTaskFault self.old.core task) turn_faults refusal) }
        ensures shard { SameShard self.old.core self.new.core }
    {
        let turn = self.core.turn(task)?;
        self.settled = false;
        Ok(turn)
    }

    /// What turns have counted.
    pub(crate) fn counts(&self) -> Counts
        ensures { counts_of result ≡ (world_shard self.now.core).counts }
    {
        self.core.counts()
    }

    /// The row that the next check takes up.
    pub(crate) fn row_to_check(&self) -> u64
        ensures { result ≡ (world_shard self.now.core).check_row }
    {
        self.core.row_to_check()
    }

    /// The row that the next repair takes up.
    pub(crate) fn row_to_repair(&self) -> u64
        ensures { result ≡ (world_shard self.now.core).repair_row }
    {
        self.core.row_to_repair()
    }

    /// The first row that isn't rebuilt on the slot's new device, if it has one.
    pub(crate) fn row_to_rebuild(&self, slot: usize) -> Option<u64>
        ensures { MatchOption result (IsNotRebuilt self.now.core slot) (IsFirstUnbuilt self.now.core slot) }
    {
        self.core.row_to_rebuild(slot)
    }

    /// How many more requests the shard has room for.
    pub(crate) fn room(&self) -> usize
        ensures { result + self.now.core.unanswered ≡ most_unanswered }
    {
        MOST_UNANSWERED - self.names.len()
    }
}

// The core's next call is taken, and put back as one that others' calls came between.
fn next_call(core: &mut Core) -> Option<Call>
    requires { (world_shard core.old).untold ≡ None }
    ensures { SeesCall core.old result core.new }
{
    let call = core.take_call()?;
    let Ok(()) = core.told(call, Err(RegisterRefusal::Contended)) else {
        unreachable!()
    };
    Some(call)
}

// A shard's call is made at the register: its answer, and what the register holds then.
fn made(
    geometry: &Geometry,
    shard: usize,
    register: &Snapshot,
    call: Call,
) -> (Result<Answer, RegisterRefusal>, Snapshot)
    requires { shard < geometry.now.shards }
    ensures answer { result.0 ≡ answer_to (layout_of geometry.now) register.now (as_made shard (call_of call)) }
    ensures register { result.1
        ≡ register_after (layout_of geometry.now) register.now (as_made shard (call_of call)) result.0 }
{
    let made = match call {
        Call::DeclareLost(slot, generation) => RegisterCall::DeclareLost(slot, generation),
        Call::ReportRebuilt(slot, generation) => {
            RegisterCall::ReportRebuilt(shard, slot, generation)
        }
    };
    match register.apply(geometry.slots(), geometry.shards(), made) {
        Ok((answer, next)) => (Ok(answer), next),
        Err(refusal) => (Err(refusal), *register),
    }
}

// The next numbers get the first of these names, which leave.
fn name_all(table: &mut Table<u64>, names: &mut VecDeque<u64>, count: usize)
    requires there { count ≤ length names.old.items }
    requires room { map.len (entries_of table.old) + count ≤ capacity_of table.old }
    requires numbers { next_of table.old + count < 2 ^ 64 }
    requires fresh { AreFresh table.old }
    ensures named { table.new ≡ with_named table.old (take count names.old.items) }
    ensures left { names.new.items ≡ drop count names.old.items }
    ensures capacity { deque_capacity names.new ≡ deque_capacity names.old }
{
    for _ in 0..count {
        let Some(name) = names.pop_front() else {
            unreachable!()
        };
        table.push(name);
    }
}

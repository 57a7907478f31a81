//! The call that stands in the mail of a shard, or of a register.

ghost use Rattle.std.specs.Prelude.{◌≡◌, ◌≢◌, MatchOption};
ghost use Rattle.r6_array.specs.Handles.{core_in};
ghost use Rattle.r6_array_c.specs.Numbers.{task_of};
ghost use Rattle.r6_array_c.specs.Questions.{AnswersOfShard, KeepsAsked, HandleTellsNextRow, HasNoNextRow, IsNextRow, TellsAtWork, TellsCount, TellsSlot};
ghost use Rattle.r6_array_c.specs.ShardCalls.{MakesOfShard, MakesOfShardAt, MakesOrderOfShard, MakesOrderOfShardAt, MakesOfRegister, Meets, MeetsAt, Opens};
ghost use Rattle.r6_array_c.specs.HostedShard.{RegisterFailsBy, RegisterLosesBy, RegisterAttachesBy, RegisterReplacesBy};

use crate::handle::{Mail, Order, RegisterHandle, ShardHandle};
use crate::numbers::{self, IN_USE, NO_SUCH};
use crate::shard_host::ShardHost;
use crate::verbs::{
    AGREE, AT_WORK, ATTACH, CHANGE, CLOSE, COMMAND, COUNT, DELIVER, FAIL, GATHER, LOOK, LOSE,
    NEXT_ROW, OPEN, RELEASE, REPLACE, REPLY, ROOM, ROWS, SLOT, SUBMIT, SUBMIT_ALL, TURN,
};
use crate::{made, orders};
use r6_array::SharedRegister;
use r6_core::Task;

/// A call of a shard alone.
pub(crate) fn make(handle: &mut ShardHandle) -> u32
    ensures { MakesOfShardAt handle.old result handle.new }
{
    if handle.mail.verb == CLOSE {
        handle.host = None;
        return 0;
    }
    match &mut handle.host {
        Some(host) => make_of(&mut handle.mail, host),
        None => NO_SUCH,
    }
}

/// A call of a shard with room for a command.
pub(crate) fn order(handle: &mut ShardHandle, order: &mut Order) -> u32
    ensures { MakesOrderOfShardAt handle.old order.old result handle.new order.new }
{
    if handle.mail.verb == CLOSE {
        orders::close(order);
        return 0;
    }
    match &mut handle.host {
        Some(host) => order_of(&handle.mail, host, order),
        None => NO_SUCH,
    }
}

/// A call of a shard at its register.
pub(crate) fn meet(handle: &mut ShardHandle, register: &mut RegisterHandle) -> u32
    ensures { MeetsAt handle.old register.old result handle.new register.new }
{
    if handle.mail.verb == OPEN {
        return open(handle, &register.register, register.window);
    }
    match &mut handle.host {
        Some(host) => meet_of(&handle.mail, host, &mut register.register),
        None => NO_SUCH,
    }
}

/// A call of a register.
pub(crate) fn make_of_register(handle: &mut RegisterHandle) -> u32
    ensures { MakesOfRegister handle.old result handle.new }
{
    let RegisterHandle { mail, register, .. } = handle;
    match mail.verb {
        FAIL => fail(register, mail.slot_asked),
        LOSE => lose(register, mail),
        ATTACH => attach(register, mail),
        REPLACE => replace(register, mail),
        SLOT => slot(register, mail),
        _ => NO_SUCH,
    }
}

// The shard of the number in the mail begins, at the register as it is. Its stage is told by its next call.
fn open(handle: &mut ShardHandle, register: &SharedRegister, window: usize) -> u32
    ensures opens { Opens handle.old.mail.shard_asked window handle.old.host register.now result handle.new.host }
    ensures mail { handle.new.mail ≡ handle.old.mail }
{
    if handle.host.is_some() {
        return IN_USE;
    }
    let shard = handle.mail.shard_asked as usize;
    match made::shard_host(handle.alloc, register, shard, window) {
        Ok(host) => {
            handle.host = Some(host);
            0
        }
        Err(unmade) => unmade.0,
    }
}

fn make_of(mail: &mut Mail, host: &mut ShardHost) -> u32
    ensures { MakesOfShard mail.old host.old result mail.new host.new }
{
    let answer = match mail.verb {
        SUBMIT => host.submit(mail.block_asked, mail.task == 1, mail.name_asked),
        GATHER => host.gather(mail.block_asked, mail.task == 1, mail.name_asked),
        SUBMIT_ALL => host.submit_all(mail),
        RELEASE => host.release(),
        REPLY => host.next_reply(mail),
        CHANGE => host.next_change(mail),
        TURN => host.turn(mail.task),
        _ => ask(host, mail),
    };
    mail.stage = host.blocks.stage_at();
    answer
}

fn order_of(mail: &Mail, host: &mut ShardHost, order: &mut Order) -> u32
    ensures { MakesOrderOfShard mail.now host.old order.old result host.new order.new }
{
    match mail.verb {
        COMMAND => host.next_command(order),
        DELIVER => host.deliver(order),
        _ => NO_SUCH,
    }
}

fn meet_of(mail: &Mail, host: &mut ShardHost, register: &mut SharedRegister) -> u32
    ensures meets { Meets mail.now host.old register.old result host.new register.new }
    ensures register { mail.now.verb ≢ 6 → register.new ≡ register.old }
{
    match mail.verb {
        AGREE => host.agree(register),
        LOOK => host.look(register),
        _ => NO_SUCH,
    }
}

// What changes nothing.
fn ask(host: &ShardHost, mail: &mut Mail) -> u32
    ensures answers { AnswersOfShard mail.old host.now.shard result mail.new }
    ensures asked { KeepsAsked mail.old mail.new }
{
    match mail.verb {
        COUNT => count(host, mail),
        ROOM => mail.tell(Some(host.shard.room() as u64)),
        AT_WORK => at_work(host, mail),
        ROWS => mail.tell_rows(&host.shard.geometry(), host.shard.number()),
        NEXT_ROW => next_row(host, mail),
        _ => NO_SUCH,
    }
}

#[tactic(auto, using(crate::proofs::Questions::tells_count))]
fn count(host: &ShardHost, mail: &mut Mail) -> u32
    ensures tells { TellsCount (core_in host.now.shard) mail.old.task result mail.new }
    ensures asked { KeepsAsked mail.old mail.new }
{
    mail.tell(numbers::count_of(&host.shard.counts(), mail.task))
}

fn at_work(host: &ShardHost, mail: &mut Mail) -> u32
    ensures tells { let h = host.now.shard in TellsAtWork (core_in h).shape.slots h.at_work mail.old.slot_asked result mail.new }
    ensures asked { KeepsAsked mail.old mail.new }
{
    match host.shard.at_work(mail.slot_asked as usize) {
        Some(count) => mail.tell(Some(count)),
        None => NO_SUCH,
    }
}

#[tactic(auto, using(crate::proofs::Questions::handle_tells_row, crate::proofs::Questions::handle_tells_no_row))]
fn next_row(host: &ShardHost, mail: &mut Mail) -> u32
    ensures tells { HandleTellsNextRow host.now.shard mail.old.slot_asked (task_of mail.old.task) result mail.new }
    ensures asked { KeepsAsked mail.old mail.new }
{
    match row_of(host, numbers::task_of(mail.task), mail.slot_asked) {
        Some(row) => mail.tell(Some(row)),
        None => NO_SUCH,
    }
}

// The first row that isn't rebuilt on a slot; or the one that the next check or repair takes up.
fn row_of(host: &ShardHost, task: Option<Task>, slot: u64) -> Option<u64>
    ensures { MatchOption result
        (HasNoNextRow (core_in host.now.shard) task slot)
        (IsNextRow (core_in host.now.shard) task slot) }
{
    match task {
        Some(Task::Rebuild) => host.shard.row_to_rebuild(slot as usize),
        Some(Task::Check) => Some(host.shard.row_to_check()),
        Some(Task::Repair) => Some(host.shard.row_to_repair()),
        None => None,
    }
}

fn slot(register: &SharedRegister, mail: &mut Mail) -> u32
    ensures tells { let r = register.now in TellsSlot r.geometry.slots r.snapshot mail.old.slot_asked result mail.new }
    ensures asked { KeepsAsked mail.old mail.new }
{
    match register.slot(mail.slot_asked as usize) {
        Some(state) => mail.tell_slot(state, register.has_failed()),
        None => NO_SUCH,
    }
}

fn fail(register: &mut SharedRegister, slot: u64) -> u32
    ensures { RegisterFailsBy register.old slot result register.new }
{
    match register.fail(slot as usize) {
        Ok(_) => 0,
        Err(refusal) => numbers::of_register(refusal),
    }
}

fn lose(register: &mut SharedRegister, mail: &mut Mail) -> u32
    ensures lost { RegisterLosesBy register.old mail.old.slot_asked mail.old.task result register.new mail.new }
    ensures asked { KeepsAsked mail.old mail.new }
{
    match register.lose(mail.slot_asked as usize, mail.task) {
        Ok(answer) => {
            mail.number = numbers::of_loss(answer);
            0
        }
        Err(refusal) => numbers::of_register(refusal),
    }
}

fn attach(register: &mut SharedRegister, mail: &mut Mail) -> u32
    ensures attached { RegisterAttachesBy register.old mail.old.slot_asked result register.new mail.new }
    ensures asked { KeepsAsked mail.old mail.new }
{
    match register.attach(mail.slot_asked as usize) {
        Ok(answer) => {
            mail.number = numbers::of_answer(answer);
            0
        }
        Err(refusal) => numbers::of_register(refusal),
    }
}

fn replace(register: &mut SharedRegister, mail: &mut Mail) -> u32
    ensures replaced { RegisterReplacesBy register.old mail.old.slot_asked result register.new mail.new }
    ensures asked { KeepsAsked mail.old mail.new }
{
    match register.replace(mail.slot_asked as usize) {
        Ok(answer) => {
            mail.number = numbers::of_answer(answer);
            0
        }
        Err(refusal) => numbers::of_register(refusal),
    }
}

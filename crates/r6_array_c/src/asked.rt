//! The call that stands in the mail.

ghost use Rattle.std.specs.Prelude.{MatchOption};
ghost use Rattle.r6_array.specs.Arrays.{ShardView, Has};
ghost use Rattle.r6_array_c.specs.Calls.{Makes, MakesAt, MakesOrder, MakesOrderAt};
ghost use Rattle.r6_array_c.specs.Hosted.{TurnsBy};
ghost use Rattle.r6_array_c.specs.Numbers.{task_of};
ghost use Rattle.r6_array_c.specs.Questions.{Answers, KeepsAsked, HasNoNextRow, IsNextRow, TellsAtWork, TellsCountOf, TellsNextRow, TellsRoom, TellsSlot};

use crate::handle::{Handle, Mail, Order};
use crate::host::Host;
use crate::numbers::{self, NO_SUCH, NONE};
use crate::orders;
use crate::verbs::{
    AGREE, AT_WORK, ATTACH, BLOCKS, CHANGE, CLOSE, COMMAND, COUNT, DELIVER, FAIL, GATHER, LOSE,
    NEXT_ROW, RELEASE, REPLACE, REPLY, ROOM, ROWS, SLOT, SUBMIT, SUBMIT_ALL, TURN,
};
use r6_core::{Task, Turn};

/// A call of an array alone.
pub(crate) fn make(handle: &mut Handle) -> u32
    ensures { MakesAt handle.old result handle.new }
{
    let Handle { mail, host } = handle;
    if mail.verb == CLOSE {
        *host = None;
        return 0;
    }
    match host {
        Some(host) => make_of(mail, host),
        None => NO_SUCH,
    }
}

/// A call of an array with room for a command.
pub(crate) fn order(handle: &mut Handle, order: &mut Order) -> u32
    ensures { MakesOrderAt handle.old order.old result handle.new order.new }
{
    let Handle { mail, host } = handle;
    if mail.verb == CLOSE {
        orders::close(order);
        return 0;
    }
    match host {
        Some(host) => order_of(mail, host, order),
        None => NO_SUCH,
    }
}

fn make_of(mail: &mut Mail, host: &mut Host) -> u32
    ensures { Makes mail.old host.old result mail.new host.new }
{
    let answer = match mail.verb {
        SUBMIT => host.submit(mail.block_asked, mail.task == 1, mail.name_asked),
        GATHER => host.gather(mail.block_asked, mail.task == 1, mail.name_asked),
        SUBMIT_ALL => host.submit_all(mail),
        RELEASE => host.release(),
        REPLY => host.next_reply(mail),
        CHANGE => host.next_change(mail),
        AGREE => host.agree(),
        FAIL => host.fail(mail.slot_asked),
        LOSE => host.lose(mail),
        ATTACH => host.attach(mail),
        REPLACE => host.replace(mail),
        TURN => turn(host, mail),
        _ => ask(host, mail),
    };
    mail.stage = host.blocks.stage_at();
    answer
}

fn order_of(mail: &Mail, host: &mut Host, order: &mut Order) -> u32
    ensures { MakesOrder mail.now host.old order.old result host.new order.new }
{
    match mail.verb {
        COMMAND => host.next_command(order),
        DELIVER => host.deliver(order),
        _ => NO_SUCH,
    }
}

// What changes nothing.
fn ask(host: &Host, mail: &mut Mail) -> u32
    ensures answers { Answers mail.old host.now.array result mail.new }
    ensures asked { KeepsAsked mail.old mail.new }
{
    match mail.verb {
        SLOT => slot(host, mail),
        COUNT => count(host, mail),
        ROOM => room(host, mail),
        AT_WORK => at_work(host, mail),
        ROWS => mail.tell_rows(&host.array.geometry(), mail.shard_asked as usize),
        NEXT_ROW => next_row(host, mail),
        BLOCKS => mail.tell(Some(host.array.geometry().blocks())),
        _ => NO_SUCH,
    }
}

fn slot(host: &Host, mail: &mut Mail) -> u32
    ensures tells { let a = host.now.array in TellsSlot a.shape.slots a.register mail.old.slot_asked result mail.new }
    ensures asked { KeepsAsked mail.old mail.new }
{
    match host.array.slot(mail.slot_asked as usize) {
        Some(state) => mail.tell_slot(state, host.array.has_failed()),
        None => NO_SUCH,
    }
}

#[tactic(auto, using(crate::proofs::Questions::tells_no_room))]
fn room(host: &Host, mail: &mut Mail) -> u32
    ensures tells { TellsRoom host.now.array mail.old.block_asked result mail.new }
    ensures asked { KeepsAsked mail.old mail.new }
{
    match host.array.room(mail.block_asked) {
        Some(room) => mail.tell(Some(room as u64)),
        None => NO_SUCH,
    }
}

fn at_work(host: &Host, mail: &mut Mail) -> u32
    ensures tells { let a = host.now.array in TellsAtWork a.shape.slots a.at_work mail.old.slot_asked result mail.new }
    ensures asked { KeepsAsked mail.old mail.new }
{
    match host.array.at_work(mail.slot_asked as usize) {
        Some(count) => mail.tell(Some(count)),
        None => NO_SUCH,
    }
}

// The next row of a task: 0 it is held, 1 it was passed over.
fn turn(host: &mut Host, mail: &Mail) -> u32
    ensures { TurnsBy host.old mail.now.shard_asked mail.now.task result host.new }
{
    let Some(task) = numbers::task_of(mail.task) else {
        return NO_SUCH;
    };
    match host.array.turn(mail.shard_asked as usize, task) {
        Ok(Turn::Started) => 0,
        Ok(Turn::Skipped) => NONE,
        Err(refusal) => numbers::of_refusal(refusal),
    }
}

#[tactic(auto, using(crate::proofs::Questions::tells_count, crate::proofs::Questions::tells_count_of, crate::proofs::Questions::tells_no_count))]
fn count(host: &Host, mail: &mut Mail) -> u32
    ensures tells { TellsCountOf host.now.array mail.old.shard_asked mail.old.task result mail.new }
    ensures asked { KeepsAsked mail.old mail.new }
{
    match host.array.counts(mail.shard_asked as usize) {
        Some(counts) => mail.tell(numbers::count_of(&counts, mail.task)),
        None => NO_SUCH,
    }
}

#[tactic(auto, using(crate::proofs::Questions::tells_no_row))]
fn next_row(host: &Host, mail: &mut Mail) -> u32
    ensures tells { TellsNextRow host.now.array mail.old.shard_asked mail.old.slot_asked (task_of mail.old.task) result mail.new }
    ensures asked { KeepsAsked mail.old mail.new }
{
    match row_of(
        host,
        mail.shard_asked,
        numbers::task_of(mail.task),
        mail.slot_asked,
    ) {
        Some(row) => mail.tell(Some(row)),
        None => NO_SUCH,
    }
}

// The first row of a shard that isn't rebuilt on a slot; or the one that its next check or repair takes up.
fn row_of(host: &Host, shard: u64, task: Option<Task>, slot: u64) -> Option<u64>
    ensures { MatchOption result
        ((s : ShardView) → Has host.now.array shard s → HasNoNextRow s.core task slot)
        (λ row. (s : ShardView) × Has host.now.array shard s × IsNextRow s.core task slot row) }
{
    match task {
        Some(Task::Rebuild) => host.array.row_to_rebuild(shard as usize, slot as usize),
        Some(Task::Check) => host.array.row_to_check(shard as usize),
        Some(Task::Repair) => host.array.row_to_repair(shard as usize),
        None => None,
    }
}

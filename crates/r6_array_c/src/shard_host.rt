//! A shard with the blocks that are on their way to the program and back.

ghost use Rattle.std.specs.Prelude.{◌≡◌, length};
ghost use Rattle.r6_array.specs.Handles.{core_in};
ghost use Rattle.r6_array_c.specs.Questions.{KeepsAsked};

use crate::blocks::{Blocks, buffer_of};
use crate::gathered::{gather, of_taken, release};
use crate::handle::{Mail, Order};
use crate::numbers::{self, BUSY, IN_USE, NO_SUCH, NONE, UNKNOWN};
use crate::orders::{completed, hand_out, take_back};
use r6_array::{Change, RequestList, Shard, SharedRegister};
use r6_core::Turn;

/// The shard, and the blocks that aren't in it.
#[derive(Drop)]
pub(crate) struct ShardHost {
    pub(crate) shard: Shard,
    pub(crate) blocks: Blocks,
    /// The requests that are to be handed in together.
    pub(crate) gathered: RequestList,
    /// The change that the program was told of last.
    pub(crate) asked: Option<Change>,
    /// So each reply fits where the last one's block is lent.
    ghost fits: { (core_in shard).shape.block ≡ length blocks.stage },
}

impl ShardHost {
    ghost use Rattle.r6_array_c.specs.Gathered.{ShardGathers, ShardHandsIn, ShardReleases};
    ghost use Rattle.r6_array_c.specs.HostedShard.{ShardSubmitsBy, ShardHandsOutTo, ShardDeliversFrom, ShardRepliesBy, ShardAsksBy, ShardAgreesBy, ShardLooksBy, ShardTurnsBy};

    /// A request under a name: a write of what stands in the stage, or a read.
    pub(crate) fn submit(&mut self, block: u64, is_write: bool, name: u64) -> u32
        ensures { ShardSubmitsBy self.old block is_write name result self.new }
    {
        let Some(op) = self.blocks.request(block, is_write) else {
            return BUSY;
        };
        match self.shard.submit(op, name) {
            Ok(()) => 0,
            Err(refused) => {
                self.blocks.keep(buffer_of(refused.back));
                numbers::of_refusal(refused.refusal)
            }
        }
    }

    /// A request that is to be handed in with others: a write of what stands in the stage, or a read.
    pub(crate) fn gather(&mut self, block: u64, is_write: bool, name: u64) -> u32
        ensures { ShardGathers self.old block is_write name result self.new }
    {
        gather(&mut self.gathered, &mut self.blocks, block, is_write, name)
    }

    /// Those that are gathered are handed in together: how many are taken. The others stay gathered.
    pub(crate) fn submit_all(&mut self, mail: &mut Mail) -> u32
        ensures handed { ShardHandsIn self.old result self.new mail.new }
        ensures asked { KeepsAsked mail.old mail.new }
    {
        let told = self.shard.submit_all(&mut self.gathered);
        mail.number = told.count as u64;
        of_taken(told.refusal)
    }

    /// Those that are gathered are let go of.
    pub(crate) fn release(&mut self) -> u32
        ensures { ShardReleases self.old result self.new }
    {
        release(&mut self.gathered, &mut self.blocks);
        0
    }

    /// The next command, into an order that has none.
    pub(crate) fn next_command(&mut self, order: &mut Order) -> u32
        ensures { ShardHandsOutTo self.old order.old result self.new order.new }
    {
        if order.parked.command.is_some() {
            return IN_USE;
        }
        match self.shard.next_command() {
            Some((ticket, command)) => {
                hand_out(order, ticket, command);
                0
            }
            None => NONE,
        }
    }

    /// The completion of an order's command. Where it is refused the order has the command still.
    pub(crate) fn deliver(&mut self, order: &mut Order) -> u32
        ensures { ShardDeliversFrom self.old order.old result self.new order.new }
    {
        let Some((ticket, own)) = order.parked.command.take() else {
            return UNKNOWN;
        };
        let completion = completed(order, own);
        match self.shard.deliver(ticket, completion) {
            Ok(_) => 0,
            Err(undelivered) => take_back(order, undelivered),
        }
    }

    /// The next reply: its name, its kind, and its block.
    pub(crate) fn next_reply(&mut self, mail: &mut Mail) -> u32
        ensures replied { ShardRepliesBy self.old result self.new mail.new }
        ensures asked { KeepsAsked mail.old mail.new }
    {
        match self.shard.next_reply() {
            Some((name, reply)) => {
                self.blocks.tell(name, reply, mail);
                0
            }
            None => NONE,
        }
    }

    /// The change that the shard asks for.
    pub(crate) fn next_change(&mut self, mail: &mut Mail) -> u32
        ensures change { ShardAsksBy self.old result self.new mail.new }
        ensures asked { KeepsAsked mail.old mail.new }
    {
        self.asked = self.shard.next_change();
        match self.asked {
            Some(change) => {
                mail.tell_change(change);
                0
            }
            None => NONE,
        }
    }

    /// The change that the program was told of last is made at the register.
    pub(crate) fn agree(&mut self, register: &mut SharedRegister) -> u32
        ensures { ShardAgreesBy self.old register.old result self.new register.new }
    {
        let Some(change) = self.asked.take() else {
            return NONE;
        };
        match self.shard.agree(register, change) {
            Ok(_) => 0,
            Err(refusal) => numbers::of_refusal(refusal),
        }
    }

    /// The shard looks at the register.
    pub(crate) fn look(&mut self, register: &SharedRegister) -> u32
        ensures { ShardLooksBy self.old register.now result self.new }
    {
        match self.shard.look(register) {
            Ok(()) => 0,
            Err(refusal) => numbers::of_refusal(refusal),
        }
    }

    /// The next row of a task: 0 it is held, 1 it was passed over.
    pub(crate) fn turn(&mut self, task: u32) -> u32
        ensures { ShardTurnsBy self.old task result self.new }
    {
        let Some(task) = numbers::task_of(task) else {
            return NO_SUCH;
        };
        match self.shard.turn(task) {
            Ok(Turn::Started) => 0,
            Ok(Turn::Skipped) => NONE,
            Err(refusal) => numbers::of_refusal(refusal),
        }
    }
}

//! An array with the blocks that are on their way to the program and back.

ghost use Rattle.std.specs.Prelude.{length};
ghost use Rattle.r6_array_c.specs.Questions.{KeepsAsked};
ghost use Rattle.r6_array_c.specs.Blocks.{HaveBlocksOf};

use crate::blocks::{Blocks, buffer_of};
use crate::gathered::{gather, of_taken, release};
use crate::handle::{Mail, Order};
use crate::numbers::{self, BUSY, IN_USE, NONE, UNKNOWN};
use crate::orders::{completed, hand_out, take_back};
use r6_array::{Array, Change, RequestList};

/// The array, and the blocks that aren't in it.
#[derive(Drop)]
pub(crate) struct Host {
    pub(crate) array: Array,
    pub(crate) blocks: Blocks,
    /// The requests that are to be handed in together.
    pub(crate) gathered: RequestList,
    /// The change that the program was told of last.
    pub(crate) asked: Option<Change>,
    /// So each reply fits where the last one's block is lent.
    ghost fits: { HaveBlocksOf array (length blocks.stage) },
}

impl Host {
    ghost use Rattle.r6_array_c.specs.Gathered.{HostGathers, HostHandsIn, HostReleases};
    ghost use Rattle.r6_array_c.specs.Hosted.{SubmitsBy, HandsOutTo, DeliversFrom, RepliesBy, AsksBy, AgreesBy, FailsBy, LosesBy, AttachesBy, ReplacesBy};

    /// A request under a name: a write of what stands in the stage, or a read.
    pub(crate) fn submit(&mut self, block: u64, is_write: bool, name: u64) -> u32
        ensures { SubmitsBy self.old block is_write name result self.new }
    {
        let Some(op) = self.blocks.request(block, is_write) else {
            return BUSY;
        };
        match self.array.submit(op, name) {
            Ok(()) => 0,
            Err(refused) => {
                self.blocks.keep(buffer_of(refused.back));
                numbers::of_refusal(refused.refusal)
            }
        }
    }

    /// A request that is to be handed in with others: a write of what stands in the stage, or a read.
    pub(crate) fn gather(&mut self, block: u64, is_write: bool, name: u64) -> u32
        ensures { HostGathers self.old block is_write name result self.new }
    {
        gather(&mut self.gathered, &mut self.blocks, block, is_write, name)
    }

    /// Those that are gathered are handed in together: how many are taken. The others stay gathered.
    pub(crate) fn submit_all(&mut self, mail: &mut Mail) -> u32
        ensures handed { HostHandsIn self.old result self.new mail.new }
        ensures asked { KeepsAsked mail.old mail.new }
    {
        let told = self.array.submit_all(&mut self.gathered);
        mail.number = told.count as u64;
        of_taken(told.refusal)
    }

    /// Those that are gathered are let go of.
    pub(crate) fn release(&mut self) -> u32
        ensures { HostReleases self.old result self.new }
    {
        release(&mut self.gathered, &mut self.blocks);
        0
    }

    /// The next command, into an order that has none.
    pub(crate) fn next_command(&mut self, order: &mut Order) -> u32
        ensures { HandsOutTo self.old order.old result self.new order.new }
    {
        if order.parked.command.is_some() {
            return IN_USE;
        }
        match self.array.next_command() {
            Some((ticket, command)) => {
                hand_out(order, ticket, command);
                0
            }
            None => NONE,
        }
    }

    /// The completion of an order's command. Where it is refused the order has the command still.
    pub(crate) fn deliver(&mut self, order: &mut Order) -> u32
        ensures { DeliversFrom self.old order.old result self.new order.new }
    {
        let Some((ticket, own)) = order.parked.command.take() else {
            return UNKNOWN;
        };
        let completion = completed(order, own);
        match self.array.deliver(ticket, completion) {
            Ok(_) => 0,
            Err(undelivered) => take_back(order, undelivered),
        }
    }

    /// The next reply: its name, its kind, and its block.
    pub(crate) fn next_reply(&mut self, mail: &mut Mail) -> u32
        ensures replied { RepliesBy self.old result self.new mail.new }
        ensures asked { KeepsAsked mail.old mail.new }
    {
        match self.array.next_reply() {
            Some((name, reply)) => {
                self.blocks.tell(name, reply, mail);
                0
            }
            None => NONE,
        }
    }

    /// The change that is asked for: 0 a slot is lost, 1 a shard of it is rebuilt.
    pub(crate) fn next_change(&mut self, mail: &mut Mail) -> u32
        ensures change { AsksBy self.old result self.new mail.new }
        ensures asked { KeepsAsked mail.old mail.new }
    {
        self.asked = self.array.next_change();
        match self.asked {
            Some(change) => {
                mail.tell_change(change);
                0
            }
            None => NONE,
        }
    }

    /// The change that the program was told of last is made.
    pub(crate) fn agree(&mut self) -> u32
        ensures { AgreesBy self.old result self.new }
    {
        let Some(change) = self.asked.take() else {
            return NONE;
        };
        match self.array.agree(change) {
            Ok(_) => 0,
            Err(refusal) => numbers::of_refusal(refusal),
        }
    }

    pub(crate) fn fail(&mut self, slot: u64) -> u32
        ensures { FailsBy self.old slot result self.new }
    {
        match self.array.fail(slot as usize) {
            Ok(_) => 0,
            Err(refusal) => numbers::of_register(refusal),
        }
    }

    /// A device of a slot is lost: whether the other one has the slot in sync.
    pub(crate) fn lose(&mut self, mail: &mut Mail) -> u32
        ensures lost { LosesBy self.old mail.old.slot_asked mail.old.task result self.new mail.new }
        ensures asked { KeepsAsked mail.old mail.new }
    {
        match self.array.lose(mail.slot_asked as usize, mail.task) {
            Ok(answer) => {
                mail.number = numbers::of_loss(answer);
                0
            }
            Err(refusal) => numbers::of_register(refusal),
        }
    }

    /// A lost slot has a new device: its generation.
    pub(crate) fn attach(&mut self, mail: &mut Mail) -> u32
        ensures attached { AttachesBy self.old mail.old.slot_asked result self.new mail.new }
        ensures asked { KeepsAsked mail.old mail.new }
    {
        match self.array.attach(mail.slot_asked as usize) {
            Ok(answer) => {
                mail.number = numbers::of_answer(answer);
                0
            }
            Err(refusal) => numbers::of_register(refusal),
        }
    }

    /// A slot in sync has a second device, which is to replace its own: its generation.
    pub(crate) fn replace(&mut self, mail: &mut Mail) -> u32
        ensures replaced { ReplacesBy self.old mail.old.slot_asked result self.new mail.new }
        ensures asked { KeepsAsked mail.old mail.new }
    {
        match self.array.replace(mail.slot_asked as usize) {
            Ok(given) => {
                mail.number = numbers::of_answer(given);
                0
            }
            Err(refusal) => numbers::of_register(refusal),
        }
    }
}

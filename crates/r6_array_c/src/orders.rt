//! Commands that are handed out to the program, and their completions.

ghost use Rattle.std.specs.Prelude.{◌≡◌, ◌≤◌, None, Some};
ghost use Rattle.r6_core.specs.Refusals.{number_of};
ghost use Rattle.r6_world.specs.Values.{buffer_in};
ghost use Rattle.r6_array_c.specs.Orders.{HasCommand, IsClosed};
ghost use Rattle.r6_array_c.specs.Numbers.{completion_by, fault_of};

use crate::handle::Order;
use crate::numbers;
use r6_array::{Ticket, Undelivered};
use r6_core::{Command, CommandKind, DeviceFault};
use r6_kernels::Buffer;
use std::alloc::Global;
use std::mem;

/// A block that the program may use, and where it stands in memory.
#[derive(Drop)]
pub(crate) struct Lent {
    pub(crate) block: Buffer,
    pub(crate) at: *mut u8,
}

impl Lent {
    /// A block with its address. That it is the block's own no clause says, so no other place asks a block for one.
    pub(crate) fn new(block: Buffer) -> Lent
        ensures { result.block ≡ block }
    {
        let mut block = block;
        let at = block.as_mut_ptr();
        Lent { block, at }
    }
}

/// A command that the program has, and its block; the order's own block stands beside the command. Without a command,
/// the order's own block. This has the length that the order was made for, and goes into no array.
#[derive(Drop)]
pub(crate) struct Parked {
    pub(crate) lent: Lent,
    pub(crate) command: Option<(Ticket, Lent)>,
    alloc: Global,
}

impl Order {
    /// With no command, and this block.
    pub(crate) fn new(alloc: Global, own: Buffer) -> Order
        ensures block { result.parked.lent.block ≡ own }
        ensures command { result.parked.command ≡ None }
    {
        let lent = Lent::new(own);
        Order {
            fault: 0,
            kind: 0,
            slot: 0,
            shard: 0,
            row: 0,
            generation: 0,
            reserved: 0,
            bytes: lent.at,
            parked: Parked {
                lent,
                command: None,
                alloc,
            },
        }
    }

    // Another block is lent, in place of the one that was.
    fn lend(&mut self, lent: Lent) -> Lent
        ensures was { result ≡ self.old.parked.lent }
        ensures parked { self.new.parked ≡ record self.old.parked { lent = lent } }
    {
        let was = mem::replace(&mut self.parked.lent, lent);
        self.bytes = self.parked.lent.at;
        was
    }
}

/// The command into the order, with its block.
pub(crate) fn hand_out(order: &mut Order, ticket: Ticket, command: Command)
    ensures { HasCommand order.old order.new ticket command }
{
    let shard = ticket.shard();
    let Command {
        token: _,
        slot,
        generation,
        row,
        kind,
        buffer,
    } = command;
    let own = order.lend(Lent::new(buffer));
    order.parked.command = Some((ticket, own));
    order.fault = 0;
    order.kind = match kind {
        CommandKind::Read => 0,
        CommandKind::Write => 1,
    };
    order.slot = slot as u64;
    order.shard = shard as u64;
    order.generation = generation;
    order.row = row;
}

/// The completion of an order's command, by what the program has written to the order, which gets its own block back.
pub(crate) fn completed(order: &mut Order, own: Lent) -> Result<Buffer, DeviceFault>
    ensures completion { result ≡ completion_by (fault_of order.old.fault) order.old.parked.lent.block }
    ensures order { order.new.parked.command ≡ order.old.parked.command }
    ensures own { order.new.parked.lent ≡ own }
{
    let fault = numbers::fault_of(order.fault);
    let Lent { block: buffer, .. } = order.lend(own);
    match fault {
        Some(kind) => Err(DeviceFault { kind, buffer }),
        None => Ok(buffer),
    }
}

/// A completion was refused: the order has its command and its block again.
pub(crate) fn take_back(order: &mut Order, undelivered: Undelivered) -> u32
    ensures number { (1 ≤ result) × (result ≡ number_of undelivered.refusal) }
    ensures command { order.new.parked.command ≡ Some (undelivered.ticket, order.old.parked.lent) }
    ensures block { order.new.parked.lent.block ≡ buffer_in undelivered.completion }
{
    let Undelivered {
        refusal,
        ticket,
        completion,
    } = undelivered;
    let block = match completion {
        Ok(buffer) => buffer,
        Err(fault) => fault.buffer,
    };
    let own = order.lend(Lent::new(block));
    order.parked.command = Some((ticket, own));
    numbers::of_refusal(refusal)
}

/// Lets go of an order's command and of both blocks: all but the block of memory of the order itself.
pub(crate) fn close(order: &mut Order)
    ensures { IsClosed order.new }
{
    order.parked.command = None;
    order.lend(Lent::new(Buffer::empty(order.parked.alloc)));
}

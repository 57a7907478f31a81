//! Requests that a program gathers, to hand them in together.

ghost use Rattle.std.specs.Prelude.{◌≡◌, []};
ghost use Rattle.r6_array_c.specs.Blocks.{KeepsLengths, all_kept};
ghost use Rattle.r6_array_c.specs.Gathered.{GathersBy, taken_number};
ghost use Rattle.r6_core.specs.declared.refusal.Refusal.{Refusal};

use crate::blocks::{Blocks, buffer_of};
use crate::numbers::{self, BUSY};
use r6_array::RequestList;
use r6_core::Refusal;

/// One request more: a write of what stands in the stage, or a read.
pub(crate) fn gather(
    list: &mut RequestList,
    blocks: &mut Blocks,
    block: u64,
    is_write: bool,
    name: u64,
) -> u32
    ensures { GathersBy list.old blocks.old block is_write name result list.new blocks.new }
{
    let Some(op) = blocks.request(block, is_write) else {
        return BUSY;
    };
    match list.push(op, name) {
        Ok(()) => 0,
        Err(back) => {
            blocks.keep(buffer_of(back));
            BUSY
        }
    }
}

/// None is gathered any more: their buffers are spare.
pub(crate) fn release(list: &mut RequestList, blocks: &mut Blocks)
    ensures none { list.new ≡ [] }
    ensures blocks { blocks.new ≡ all_kept blocks.old list.old }
    ensures lengths { KeepsLengths blocks.old blocks.new }
{
    while let Some((op, _)) = list.pop() {
        blocks.keep(buffer_of(op));
    }
}

/// 0 if all of a list were taken, else why the next one is refused.
pub(crate) fn of_taken(refusal: Option<Refusal>) -> u32
    ensures { result ≡ taken_number refusal }
{
    match refusal {
        Some(refusal) => numbers::of_refusal(refusal),
        None => 0,
    }
}

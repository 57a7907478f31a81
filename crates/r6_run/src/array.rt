//! An array as it begins: the slots that are lost, and the parts of each shard.

ghost use Rattle.std.specs.Prelude.{◌≡◌, ◌≤◌, ◌<◌, ◌+◌, ◌*◌, ◌^◌, count_ones, drop, length, take, IfOk};
ghost use Rattle.std.specs.Vec.Iter.{into_iter_items, into_iter_len};
ghost use Rattle.r6_settings.specs.Settings.{MayBeLost};
ghost use Rattle.r6_offline.specs.Parts.{is_lost};
ghost use Rattle.r6_run.specs.Arrays.{AreGiven, mask_of, parts_from};

use r6_shard::{Part, Parts};
use std::alloc::{AllocError, Global};
use std::vec::IntoIter;

fn is_lost(lost: &[u32], slot: usize) -> bool
    requires { slot < 32 }
    ensures { result ≡ is_lost lost.now slot }
{
    lost.contains(&(slot as u32))
}

/// The slots that are lost, a bit each, from slot 0 on.
pub(crate) fn mask_of(slots: usize, lost: &[u32]) -> u32
    requires slots { slots ≤ 32 }
    requires lost { MayBeLost slots lost.now }
    ensures mask { result ≡ mask_of slots lost.now }
    ensures within { result < 2 ^ slots }
    ensures few { count_ones result ≤ 2 }
{
    let mut mask = 0;
    for passed in 0..slots {
        mask = 2 * mask + u32::from(is_lost(lost, slots - 1 - passed));
    }
    mask
}

// The parts of a shard, whose devices come next, by slot.
fn next_parts<D: Drop>(
    alloc: Global,
    slots: usize,
    devices: &mut IntoIter<Option<D>>,
) -> Result<Parts<D>, AllocError>
    requires { slots ≤ into_iter_len devices.old }
    ensures parts { IfOk result
        (λ parts. parts.parts.items ≡ parts_from 0 (take slots (into_iter_items devices.old))) }
    ensures rest { IfOk result (λ _. into_iter_items devices.new ≡ drop slots (into_iter_items devices.old)) }
    ensures left { IfOk result (λ _. into_iter_len devices.new + slots ≡ into_iter_len devices.old) }
{
    let mut parts = Vec::with_capacity(alloc, slots)?;
    for slot in 0..slots {
        match devices.next() {
            Some(Some(device)) => parts.push(Part {
                slot,
                generation: 0,
                device,
            })?,
            Some(None) => {}
            None => {}
        }
    }
    Ok(Parts { parts })
}

/// The parts of each shard, from the first on, of those of all shards and slots: first those of shard 0, by slot. Each
/// is of the first device that its slot has; of a slot without a device there is none.
pub(crate) fn parts_of<D: Drop>(
    alloc: Global,
    shards: usize,
    slots: usize,
    opened: Vec<Option<D>>,
) -> Result<Vec<Parts<D>>, AllocError>
    requires { length opened.items ≡ shards * slots }
    ensures { IfOk result (λ parts. AreGiven shards slots opened.items parts.items) }
{
    let mut devices = opened.into_iter();
    let mut parts = Vec::with_capacity(alloc, shards)?;
    for _ in 0..shards {
        parts.push_reserved(next_parts(alloc, slots, &mut devices)?);
    }
    Ok(parts)
}

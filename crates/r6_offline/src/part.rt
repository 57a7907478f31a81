//! One part of a device.

ghost use Rattle.std.specs.Prelude.{◌≡◌, ◌≢◌, ◌*◌, ◌<◌, true, length, is_some, slice_index_or, IfErr, IfOk, IfSome, None, IsTrue, OnErr};
ghost use Rattle.r6_dev.specs.Promises.{Covers, MayAnswer};
ghost use Rattle.r6_layout.specs.Layout.{shard_of, slot_at};
ghost use Rattle.r6_layout.specs.Shape.{IsShape};
ghost use Rattle.r6_offline.specs.Lent.{KeepPromises, OnlyReadBut, promises_of};
ghost use Rattle.r6_offline.specs.Parts.{OnlyRead, PartRead, part_number, parts_of};
ghost use Rattle.r6_offline.specs.Stretches.{PartRowsRead};

use r6_dev::{BlockDevice, Fault};
use r6_kernels::Buffer;
use r6_layout::Geometry;

/// Reads a row from the part with this number, and says whether there is such a part.
pub(crate) fn read_part<D: BlockDevice>(
    parts: &mut [Option<D>],
    number: usize,
    row: u64,
    block: &mut Buffer,
) -> Result<bool, Fault>
    requires { number < length parts.old }
    ensures same_length { length block.new ≡ length block.old }
    ensures fails { IfErr result (λ fault. (is_some (slice_index_or parts.old number None) ≡ true)
        × (fault ≢ Fault.WriteFault)) }
    ensures read { IfOk result
        (λ there. PartRead (parts_of D.told parts.old) (parts_of D.told parts.new) number row there block.new) }
    ensures alone { OnErr result
        (OnlyReadBut (λ other. other ≡ number) (parts_of D.told parts.old) (parts_of D.told parts.new)) }
    ensures sound { OnErr result (IfSome (promises_of D.promised parts.old number)
        (λ promise. ¬ Covers promise row (length block.old))) }
    ensures kind { IfErr result (λ fault. IfSome (promises_of D.promised parts.old number)
        (λ promise. MayAnswer promise row fault)) }
    ensures promised { KeepPromises (promises_of D.promised parts.old) (promises_of D.promised parts.new) }
{
    match &mut parts[number] {
        Some(device) => match device.read(row, block) {
            Ok(()) => Ok(true),
            Err(fault) => Err(fault),
        },
        None => Ok(false),
    }
}

/// The number of the part whose blocks stand at a position of a row.
pub(crate) fn number_at(geometry: &Geometry, row: u64, position: usize) -> usize
    requires row_within { row < geometry.now.rows }
    requires position_within { position < geometry.now.slots }
    ensures value { result
        ≡ part_number geometry.now (shard_of geometry.now row) (slot_at geometry.now row position) }
    ensures within { result < geometry.now.shards * geometry.now.slots }
    ensures limits { IsShape geometry.now }
{
    geometry.shard_of(row) * geometry.slots() + geometry.slot_at(row, position)
}

/// Whether there is a part with this number.
pub(crate) fn is_there<D: BlockDevice>(parts: &[Option<D>], number: usize) -> bool
    requires { number < length parts.now }
    ensures { result ≡ is_some (parts_of D.told parts.now number) }
{
    parts[number].is_some()
}

/// Reads so many rows at once, this one and those that follow, from the part with this number; or doesn't, as where
/// there is no such part.
pub(crate) fn read_rows_of<D: BlockDevice>(
    parts: &mut [Option<D>],
    number: usize,
    row: u64,
    count: usize,
    bytes: &mut [u8],
) -> bool
    requires { number < length parts.old }
    ensures only_read { OnlyRead (parts_of D.told parts.old) (parts_of D.told parts.new) }
    ensures read { IsTrue result
        → PartRowsRead (parts_of D.told parts.old) number row count bytes.new }
    ensures promised { KeepPromises (promises_of D.promised parts.old) (promises_of D.promised parts.new) }
{
    match &mut parts[number] {
        Some(device) => device.read_rows(row, count, bytes),
        None => false,
    }
}

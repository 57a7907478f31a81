//! An array over devices in memory, with blocks that aren't zeros and devices that fail.

ghost use Rattle.std.specs.Prelude.{◌≡◌, ◌*◌, ◌<◌, length, IfOk};

use crate::blocks::grown;
use r6_dev::{BlockDevice, Faulty, MemoryDevice};
use r6_layout::{Geometry, GeometryError};
use std::alloc::{AllocError, Global};
use std::ops::Range;
use std::test::Fail;

pub(crate) const SLOTS: usize = 4;

pub(crate) const ROWS: u64 = 4;

/// Bytes of a block.
pub(crate) const BLOCK: usize = 16;

/// A device of zeros, or of what was written, that may fail.
pub(crate) type Part = Faulty<MemoryDevice>;

/// A row and a slot, whose block begins with this byte, and has x times it next, and so on.
pub(crate) type Filled = (u64, usize, u8);

/// The device of a slot that fails at the command for this row: at this one alone, or, if it is gone, from it on.
#[derive(Clone, Copy)]
pub(crate) struct Broken {
    pub(crate) slot: usize,
    pub(crate) row: u64,
    pub(crate) is_gone: bool,
}

/// An array of 4 slots, with chunks of 1 block of 16 bytes and 4 rows.
#[derive(Clone, Copy)]
pub(crate) struct Array<'a> {
    pub(crate) shards: usize,
    pub(crate) filled: &'a [Filled],
    pub(crate) lost: &'a [usize],
    pub(crate) broken: &'a [Broken],
}

fn is_in(row: u64, rows: &Range<u64>) -> bool {
    rows.start <= row && row < rows.end
}

impl Array<'_> {
    pub(crate) fn geometry(&self) -> Result<Geometry, GeometryError> {
        Geometry::new(SLOTS, 1, BLOCK, ROWS, self.shards)
    }

    /// Writes the blocks of a slot that stand in these rows.
    fn fill(
        &self,
        alloc: Global,
        device: &mut MemoryDevice,
        rows: &Range<u64>,
        slot: usize,
    ) -> Result<(), Fail> {
        for (row, of, byte) in self.filled {
            if *of == slot && is_in(*row, rows) {
                device.write(*row, &grown(alloc, BLOCK, *byte)?)?;
            }
        }
        Ok(())
    }

    /// The commands of a slot's part with these rows that alone fail.
    fn failing(
        &self,
        alloc: Global,
        rows: &Range<u64>,
        slot: usize,
    ) -> Result<Vec<u64>, AllocError> {
        let mut commands = Vec::new(alloc);
        for broken in self.broken {
            if broken.slot == slot && !broken.is_gone && is_in(broken.row, rows) {
                commands.push(broken.row.saturating_sub(rows.start))?;
            }
        }
        Ok(commands)
    }

    /// The command of a slot's part with these rows from which on it is gone.
    fn gone_from(&self, rows: &Range<u64>, slot: usize) -> Option<u64> {
        let mut command = None;
        for broken in self.broken {
            if broken.slot == slot && broken.is_gone && is_in(broken.row, rows) {
                command = Some(broken.row.saturating_sub(rows.start));
            }
        }
        command
    }

    /// The part of a shard and a slot.
    pub(crate) fn part(
        &self,
        alloc: Global,
        geometry: &Geometry,
        shard: usize,
        slot: usize,
    ) -> Result<Part, Fail>
        requires { shard < geometry.now.shards }
    {
        let rows = geometry.shard_rows(shard);
        let gone_from = self.gone_from(&rows, slot);
        let failing = self.failing(alloc, &rows, slot)?;
        let mut device = MemoryDevice::new(alloc, rows.start..rows.end, geometry.block())?;
        self.fill(alloc, &mut device, &rows, slot)?;
        Ok(Faulty::new(device, failing, gone_from, Vec::new(alloc)))
    }

    /// All parts, by shard and slot.
    pub(crate) fn parts(
        &self,
        alloc: Global,
        geometry: &Geometry,
    ) -> Result<Vec<Option<Part>>, Fail>
        ensures { IfOk result (λ parts. length parts.items ≡ geometry.now.shards * geometry.now.slots) }
    {
        let count = geometry.shards() * geometry.slots();
        let mut parts = Vec::new(alloc);
        for number in 0..count {
            let (shard, slot) = (number / geometry.slots(), number % geometry.slots());
            let part = if self.lost.contains(&slot) {
                None
            } else {
                Some(self.part(alloc, geometry, shard, slot)?)
            };
            parts.push(part)?;
        }
        Ok(parts)
    }
}

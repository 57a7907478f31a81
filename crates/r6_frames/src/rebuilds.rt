//! Rows are rebuilt.

ghost use Rattle.std.specs.Prelude.{◌≡◌, ◌<◌, true, false};
ghost use Rattle.r6_world.specs.Geometries.{layout_of};
ghost use Rattle.r6_world.specs.Layouts.{IsRowOf};
ghost use Rattle.r6_frames.specs.Views.{AreLive};
ghost use Rattle.r6_frames.specs.Calls.{BringsIn, IsNextOn, KeepsHolds, Marks, NotHeldBy};
ghost use Rattle.r6_frames.specs.Sound.{IsSound};

use crate::frames::Frames;
use crate::rebuilt::Target;

impl Frames {
    /// The row, whose hold has ended, is rebuilt on the device. Answers whether it was the last one of the shard, with
    /// which the device is in sync, beside the one that it is to replace if there is one.
    pub fn mark_rebuilt(&mut self, target: Target, row: u64) -> bool
        requires live { AreLive self.old }
        requires slot { target.slot < self.old.geometry.slots }
        requires row { IsRowOf (layout_of self.old.geometry) self.old.shard row }
        requires next { IsNextOn self.old target row }
        requires unheld { NotHeldBy self.old row }

        // The row is rebuilt.
        ensures sound { IsSound self.new }
        ensures live { AreLive self.new }
        ensures marks { result ≡ false → Marks self.old target row self.new }
        ensures brings { result ≡ true → BringsIn self.old target row self.new }

        // All else is as it was.
        ensures holds { KeepsHolds self.old self.new }
        ensures commands { self.new.commands ≡ self.old.commands }
    {
        let end = self.geometry.shard_rows(self.shard).end;
        let device = self.slots[target.slot].device;
        let Some(mut rebuilt) = device.rows() else {
            unreachable!()
        };
        rebuilt.mark(row);
        let is_last = rebuilt.next_row(0) >= end;
        self.slots[target.slot].device = if is_last {
            device.brought_in()
        } else {
            device.with_rows(rebuilt)
        };
        is_last
    }
}

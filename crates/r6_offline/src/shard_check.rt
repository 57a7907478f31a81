//! The rows of one shard, checked in a thread of their own.

ghost use Rattle.std.specs.Prelude.{◌≡◌, ◌*◌, ◌≤◌, All, IfOk, IfSome, None, length};
ghost use Rattle.std.specs.List.{AllZip, flat_map};
ghost use Rattle.r6_layout.specs.Shape.{IsShape};
ghost use Rattle.r6_layout.specs.Layout.{first_row};
ghost use Rattle.r6_offline.specs.Lent.{FailsAlone, KeepPromises, promises_of};
ghost use Rattle.r6_offline.specs.Parts.{OnlyRead, parts_of};
ghost use Rattle.r6_offline.specs.PartReports.{IsPartReport};
ghost use Rattle.r6_offline.specs.Rows.{Fits};
ghost use Rattle.r6_offline.specs.ShardChecks.{AreShardChecks, Begins, HasChecked, HasOtherParts, one_shard, own_parts};
ghost use Rattle.r6_offline.specs.Stretches.{FitsRows};

use crate::report::{Report, RowFault};
use crate::row::SlotFault;
use crate::row_check::RowCheck;
use crate::stretch::{Stretch, rows_at_once};
use r6_dev::BlockDevice;
use r6_layout::Geometry;
use r6_threads::Work;
use std::alloc::{AllocError, Global};
use std::sync::Wait;

/// The check of a shard's rows, with the shard's parts of the devices, by slot.
#[derive(Drop)]
pub(crate) struct ShardCheck<D> {
    pub(crate) first_row: u64,
    pub(crate) end: u64,
    pub(crate) parts: Vec<Option<D>>,
    pub(crate) stretch: Stretch,
    pub(crate) check: RowCheck,
    pub(crate) report: Report,
}

// The array with the same rows that has them all in one shard. A shard's parts are parts of it, and are read as such.
pub(crate) fn alone(geometry: &Geometry) -> Geometry
    ensures value { result ≡ one_shard geometry.now }
    ensures limits { IsShape geometry.now }
{
    let (slots, chunk, block, rows) = (
        geometry.slots(),
        geometry.chunk(),
        geometry.block(),
        geometry.rows(),
    );
    let Ok(alone) = Geometry::new(slots, chunk, block, rows, 1) else {
        unreachable!()
    };
    alone
}

// Room for so many parts, none of which is there.
fn no_parts<D: Drop>(alloc: Global, count: usize) -> Result<Vec<Option<D>>, AllocError>
    ensures { IfOk result (λ parts. length parts.items ≡ count) }
{
    let mut parts = Vec::new(alloc);
    for _ in 0..count {
        parts.push(None)?;
    }
    Ok(parts)
}

impl<D: Drop> ShardCheck<D> {
    // Of the rows from this one on, before the end, as yet without parts.
    fn new(
        alloc: Global,
        alone: &Geometry,
        first: u64,
        end: u64,
        rows_at_once: usize,
    ) -> Result<ShardCheck<D>, AllocError>
        requires { rows_at_once ≤ alone.now.chunk }
        ensures rows { IfOk result (λ check. (check.first_row ≡ first) × (check.end ≡ end)) }
        ensures room { IfOk result (λ check. Fits alone.now check.check.reader) }
        ensures stretch { IfOk result (λ check. FitsRows alone.now check.stretch) }
        ensures parts { IfOk result (λ check. length check.parts.items ≡ alone.now.slots) }
    {
        Ok(ShardCheck {
            first_row: first,
            end,
            parts: no_parts(alloc, alone.slots())?,
            stretch: Stretch::new(alloc, alone, rows_at_once)?,
            check: RowCheck::new(alloc, alone)?,
            report: Report::new(),
        })
    }
}

// The checks of all shards, as yet without parts.
pub(crate) fn checks_of<D: Drop>(
    alloc: Global,
    geometry: &Geometry,
    alone: &Geometry,
) -> Result<Vec<ShardCheck<D>>, AllocError>
    requires { alone.now ≡ one_shard geometry.now }
    ensures count { IfOk result (λ checks. length checks.items ≡ geometry.now.shards) }
    ensures each { IfOk result (λ checks. AreShardChecks geometry.now 0 checks.items) }
{
    let mut checks = Vec::with_capacity(alloc, geometry.shards())?;
    let rows_at_once = rows_at_once(geometry);
    for shard in 0..geometry.shards() {
        let rows = geometry.shard_rows(shard);
        checks.push_reserved(ShardCheck::new(alloc, alone, rows.start, rows.end, rows_at_once)?);
    }
    Ok(checks)
}

// Gives each check the parts of its shard, in place of those that it has.
pub(crate) fn exchange<D: Drop>(parts: &mut [Option<D>], checks: &mut [ShardCheck<D>])
    requires { length parts.old ≡ length (flat_map own_parts checks.old) }
    ensures count { length parts.new ≡ length parts.old }
    ensures lent { flat_map own_parts checks.new ≡ parts.old }
    ensures back { parts.new ≡ flat_map own_parts checks.old }
    ensures others { AllZip HasOtherParts checks.old checks.new }
{
    if let Some((first, rest)) = checks.split_first_mut() {
        let (own, others) = parts.split_at_mut(first.parts.len());
        first.parts.as_mut_slice().swap_with_slice(own);
        exchange(others, rest);
    }
}

// Checks rows up to the first fault: those of a stretch at once, if it is consistent, and each other one by slot.
fn check_rows<D: BlockDevice>(
    geometry: &Geometry,
    first: u64,
    end: u64,
    parts: &mut [Option<D>],
    stretch: &mut Stretch,
    check: &mut RowCheck,
) -> Report
    requires rows { (first ≤ end) × (end ≤ geometry.now.rows) }
    requires parts { length parts.old ≡ geometry.now.shards * geometry.now.slots }
    requires stretch { FitsRows geometry.now stretch.old }
    requires room { Fits geometry.now check.old.reader }
    ensures report { IsPartReport geometry.now (parts_of D.told parts.old) first end result }
    ensures kept { result.fault ≡ None → OnlyRead (parts_of D.told parts.old) (parts_of D.told parts.new) }
    ensures alone { IfSome result.fault
        (λ fault. FailsAlone geometry.now (promises_of D.promised parts.old) (parts_of D.told parts.old)
        (parts_of D.told parts.new) fault.row
        (record { slot = fault.slot; fault = fault.fault })) }
    ensures promised { KeepPromises (promises_of D.promised parts.old) (promises_of D.promised parts.new) }
{
    let mut report = Report::new();
    let mut row = first;
    while row < end {
        let next = stretch.consistent_to(geometry, parts, row, end);
        if row < next {
            report.note_consistent(row, next);
            row = next;
            continue;
        }
        if let Err(SlotFault { slot, fault }) = check.read(geometry, parts, row) {
            report.fault = Some(RowFault { row, slot, fault });
            return report;
        }
        check.classify();
        report.note(row, check.finding);
        row += 1;
    }
    report
}

impl<D: BlockDevice + Drop> Work<Geometry> for ShardCheck<D> {
    ghost ready = { λ shape check. Begins shape check };

    ghost done = { λ shape old new. HasChecked D.told D.promised shape old new };

    fn run<R: Wait>(&mut self, _rt: &R, alone: &Geometry)
        requires { Begins alone.now self.old }
        ensures { HasChecked D.told D.promised alone.now self.old self.new }
    {
        self.report = check_rows(
            alone,
            self.first_row,
            self.end,
            self.parts.as_mut_slice(),
            &mut self.stretch,
            &mut self.check,
        );
    }
}

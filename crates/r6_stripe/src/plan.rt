//! What a hold reads, which command comes next, and when it is over.

ghost use Rattle.std.specs.Prelude.{nat_lt, ◌≡◌, ◌≢◌, ◌⊎◌, ◌+◌, ◌<◌, ◌≤◌, ◌||◌, ◌&&◌, ℕ, length, not, option_map, false, IsTrue, List, [], ◌∷◌, true, Some, IfSome, MatchOption, if◌then◌else◌};
ghost use Rattle.r6_recover.specs.declared.class.RowClass.{RowClass};
ghost use Rattle.r6_stripe.specs.Checks.{IsClassed, IsEnd, KnowsWhatDiffers};
ghost use Rattle.r6_stripe.specs.Holds as holds;
ghost use Rattle.r6_stripe.specs.Holds.{MayEnd, cell_at};
ghost use Rattle.r6_stripe.specs.Holds.Kind.{Read, Write};
ghost use Rattle.r6_stripe.specs.Batches.{AreNewFor};
ghost use Rattle.r6_stripe.specs.Masks.{has};
ghost use Rattle.r6_stripe.specs.Plans as plans;
ghost use Rattle.r6_stripe.specs.Plans.{fewest_reads};
ghost use Rattle.r6_stripe.specs.Preparing.{IsPrepared, is_write_time};
ghost use Rattle.r6_stripe.specs.Sound.{IsSound, IsTask, IsWritePlan, Suits};
ghost use Rattle.r6_stripe.specs.Steps.{can_drop, has_outcome, is_idle, IsUnwritten};
ghost use Rattle.r6_stripe.specs.Views.{hold_of, plan_of, planned_of};

use crate::batch::Batch;
use crate::command::{Outcome, RowTask};
use crate::mask::Mask;
use crate::state::HoldState;

/// Which positions a hold reads before it can end or write.
#[derive(Clone, Copy, Debug, PartialEq, Eq)]
pub(crate) enum Plan {
    /// The one block that is wanted.
    One,
    /// The data that aren't written.
    Reconstruct,
    /// The data that are written, and the parities in sync.
    Modify,
    /// None, where no parity is in sync.
    Overwrite,
    /// As many positions in sync as there are data.
    Recover,
    /// Every position.
    All,
}

impl HoldState {
    /// The one block that a read wants, and a rebuild of its target.
    fn its_block(&self) -> Mask
        requires few { length self.now.places ≤ 32 }
        requires fits { IsTask (length self.now.places) self.now.len self.now.task }
        ensures { (i : ℕ) → has result i ≡ plans.is_its_block (hold_of self.now).kind i }
    {
        match self.task {
            Some(RowTask::Read(index)) => Mask::only(index),
            Some(RowTask::Rebuild(target)) => Mask::only(target),
            _ => Mask::none(),
        }
    }

    /// Whether this is a data block that is written.
    fn puts_data(&self, position: usize) -> bool
        ensures { result ≡ plans.puts_data (hold_of self.now).kind position }
    {
        match &self.task {
            Some(RowTask::Write(batch)) => batch.has(position),
            _ => false,
        }
    }

    /// The data blocks that are written.
    fn written(&self) -> Mask
        ensures { (i : ℕ) → has result i ≡ plans.puts_data (hold_of self.now).kind i }
    {
        match &self.task {
            Some(RowTask::Write(batch)) => batch.indices(),
            _ => Mask::none(),
        }
    }

    /// These, and P and Q.
    fn changed(&self) -> Mask
        requires { 2 ≤ length self.now.places }
        ensures { let hold = hold_of self.now in
            (i : ℕ) → has result i ≡ (plans.puts_data hold.kind i
            || (nat_lt i (length self.now.places) && plans.is_parity hold i)) }
    {
        self.written().or(self.places.parities())
    }

    /// Whether this is the position of P or Q, or none.
    fn is_parity(&self, position: usize) -> bool
        requires { 2 ≤ length self.now.places }
        ensures { result ≡ plans.is_parity (hold_of self.now) position }
    {
        self.places.len() - 2 <= position
    }

    /// The positions that the plan reads.
    fn wanted(&self) -> Mask
        requires count { 2 ≤ length self.now.places }
        requires fits { IsTask (length self.now.places) self.now.len self.now.task }
        ensures { (i : ℕ) → has result i
            ≡ (nat_lt i (length self.now.places) && plans.wants (plan_of self.now.plan) (hold_of self.now) i) }
    {
        let all = self.places.all();
        match self.plan {
            Plan::One => all.and(self.its_block()),
            Plan::Reconstruct => all.but(self.changed()),
            Plan::Modify => all.and(self.changed()),
            Plan::Overwrite => Mask::none(),
            Plan::Recover | Plan::All => all,
        }
    }

    /// Whether the hold writes the position, which has no new block yet.
    fn puts(&self, position: usize) -> bool
        requires within { position < length self.now.places }
        requires count { 2 ≤ length self.now.places }
        requires differ { KnowsWhatDiffers (hold_of self.now) self.now.class }
        requires unwritten { IsUnwritten (cell_at (hold_of self.now).cells position) }
        ensures { result ≡ plans.puts (hold_of self.now) (hold_of self.now).kind position }
    {
        match &self.task {
            Some(RowTask::Write(batch)) => batch.has(position) || self.is_parity(position),
            Some(RowTask::Rebuild(target)) => *target == position,
            Some(RowTask::Repair) => !self.met_error
                && self.is_parity(position)
                && self.differs(position),
            _ => false,
        }
    }

    /// Whether the device is there that a rebuild writes.
    fn has_target(&self, target: usize) -> bool
        requires { target < length self.now.places }
        ensures { result ≡ plans.has_target (cell_at (hold_of self.now).cells target) }
    {
        self.places.get(target).is_target()
    }

    /// Whether nothing more is put out but second reads: the hold has ended.
    pub(crate) fn gives_up(&self) -> bool
        requires { IsTask (length self.now.places) self.now.len self.now.task }
        ensures { result ≡ plans.gives_up (hold_of self.now) }
    {
        match self.task {
            Some(RowTask::Rebuild(target)) => !self.has_target(target),
            Some(RowTask::Check | RowTask::Repair) => self.cut_short,
            Some(RowTask::Read(_)) => false,
            Some(RowTask::Write(_)) => false,
            None => true,
        }
    }

    /// Whether a first read is put out that is neither answered nor abandoned.
    pub(crate) fn has_asked(&self) -> bool
        ensures { result ≡ plans.has_asked (hold_of self.now) }
    {
        !self.places.read_out().is_empty()
    }

    /// Whether no command is put out that is neither answered nor abandoned.
    pub(crate) fn is_quiet(&self) -> bool
        ensures { let hold = hold_of self.now in
            result ≡ (not (plans.has_read_out hold) && not (plans.has_write_out hold)) }
    {
        self.places.command_out().is_empty()
    }

    /// Whether the new blocks were computed.
    pub(crate) fn has_computed(&self) -> bool
        ensures { result ≡ plans.has_computed (hold_of self.now) }
    {
        !self.places.computed().is_empty()
    }

    /// Whether the position's block is known, if the plan reads it.
    fn is_served(&self, position: usize) -> bool
        requires within { position < length self.now.places }
        requires count { 2 ≤ length self.now.places }
        requires few { length self.now.places ≤ 32 }
        requires fits { IsTask (length self.now.places) self.now.len self.now.task }
        ensures { result ≡ plans.is_served (plan_of self.now.plan) (hold_of self.now) position }
    {
        !self.wanted().contains(position) || self.places.get(position).is_known()
    }

    /// Whether the plan goes on without the position, if it is lost unread: a modify without a parity.
    fn can_drop(&self, position: usize) -> bool
        requires { 2 ≤ length self.now.places }
        ensures { result ≡ can_drop (plan_of self.now.plan) (hold_of self.now) position }
    {
        match self.plan {
            Plan::Modify => self.is_parity(position),
            Plan::One | Plan::Reconstruct | Plan::Overwrite | Plan::Recover | Plan::All => false,
        }
    }

    /// The positions that are out, and that the plan goes on without.
    fn dropped(&self) -> Mask
        requires { 2 ≤ length self.now.places }
        ensures { let hold = hold_of self.now in
            (i : ℕ) → has result i ≡ (nat_lt i (length self.now.places)
            && (can_drop (plan_of self.now.plan) hold i && plans.is_out (cell_at hold.cells i).standing)) }
    {
        match self.plan {
            Plan::Modify => self.places.parities().and(self.places.absent()),
            Plan::One | Plan::Reconstruct | Plan::Overwrite | Plan::Recover | Plan::All =>
                Mask::none(),
        }
    }

    /// How many blocks are known.
    pub(crate) fn known_count(&self) -> usize
        ensures { result ≡ holds.known_count (hold_of self.now).cells }
    {
        self.places.known().count()
    }

    /// How many blocks are known or being read.
    fn coming_count(&self) -> usize
        ensures { result ≡ plans.coming_count (hold_of self.now).cells }
    {
        self.places.coming().count()
    }

    /// Whether another read is wanted now: a recovery has enough with as many blocks as there are data.
    fn lacks(&self) -> bool
        requires { 2 ≤ length self.now.places }
        ensures { result ≡ plans.lacks (plan_of self.now.plan) (hold_of self.now) }
    {
        match self.plan {
            Plan::Recover => self.coming_count() < self.places.len() - 2,
            Plan::One | Plan::Reconstruct | Plan::Modify | Plan::Overwrite | Plan::All => true,
        }
    }

    /// Whether enough is known for the hold to go on.
    pub(crate) fn is_enough(&self) -> bool
        requires count { 2 ≤ length self.now.places }
        requires fits { IsTask (length self.now.places) self.now.len self.now.task }
        ensures { result ≡ plans.is_enough (plan_of self.now.plan) (hold_of self.now) }
    {
        match self.plan {
            Plan::Recover => self.places.len() - 2 <= self.known_count(),
            Plan::One | Plan::Reconstruct | Plan::Modify | Plan::Overwrite => self.is_all_served(),
            Plan::All => self.is_all_known(),
        }
    }

    /// Whether all that the plan reads is known, or dropped.
    fn is_all_served(&self) -> bool
        requires count { 2 ≤ length self.now.places }
        requires fits { IsTask (length self.now.places) self.now.len self.now.task }
        requires plan { plan_of self.now.plan ≢ plans.Plan.Recover }
        requires not_all { plan_of self.now.plan ≢ plans.Plan.All }
        ensures { result ≡ plans.is_enough (plan_of self.now.plan) (hold_of self.now) }
    {
        let unknown = self.wanted().and(self.places.unknown());
        unknown.but(self.dropped()).is_empty()
    }

    /// The lowest position that is to be read, and whose read wasn't put out.
    fn first_unread(&self) -> Option<usize>
        requires count { 2 ≤ length self.now.places }
        requires fits { IsTask (length self.now.places) self.now.len self.now.task }
        ensures { let hold = hold_of self.now in
            result ≡ plans.first_from (plans.is_next_read (plan_of self.now.plan) hold) 0 (length hold.cells) }
    {
        if !self.lacks() {
            return None;
        }
        self.wanted().and(self.places.readable()).lowest()
    }

    /// The position whose read is put out next.
    pub(crate) fn next_read(&self) -> Option<usize>
        requires count { 2 ≤ length self.now.places }
        requires fits { IsTask (length self.now.places) self.now.len self.now.task }
        ensures { option_map plans.Next.ReadAt result ≡ plans.next_read (plan_of self.now.plan) (hold_of self.now) }
    {
        let position = self.first_unread()?;
        if self.has_computed() {
            None
        } else {
            Some(position)
        }
    }

    /// The same where no new block was computed, if it is below the limit.
    pub(crate) fn next_read_below(&self, limit: usize) -> Option<usize>
        requires count { 2 ≤ length self.now.places }
        requires fits { IsTask (length self.now.places) self.now.len self.now.task }
        requires none { plans.has_computed (hold_of self.now) ≡ false }
        ensures { let hold = hold_of self.now in
            let first = plans.first_from (plans.is_next_read (plan_of self.now.plan) hold) 0 (length hold.cells) in
            MatchOption result ((i : ℕ) → first ≡ Some i → limit ≤ i) (λ i. (first ≡ Some i) × (i < limit)) }
    {
        let position = self.next_read()?;
        if position < limit {
            Some(position)
        } else {
            None
        }
    }

    /// The position whose block is restored next: the one that a read wants, if it is out and isn't known.
    pub(crate) fn next_restore(&self) -> Option<usize>
        requires { IsTask (length self.now.places) self.now.len self.now.task }
        ensures { let hold = hold_of self.now in
            option_map plans.Next.RestoreAt result ≡ plans.next_restore hold hold.kind }
    {
        match self.task {
            Some(RowTask::Read(index)) => {
                let place = self.places.get(index);
                if !place.is_out() || place.is_known() {
                    None
                } else {
                    Some(index)
                }
            }
            _ => None,
        }
    }

    /// Whether the position is still to get its new block.
    fn lacks_new(&self, position: usize) -> bool
        requires within { position < length self.now.places }
        requires count { 2 ≤ length self.now.places }
        requires differ { KnowsWhatDiffers (hold_of self.now) self.now.class }
        ensures { result ≡ plans.lacks_new (hold_of self.now) position }
    {
        self.places.get(position).is_unwritten() && self.puts(position)
    }

    /// Whether no position is still to get its new block.
    pub(crate) fn is_computed(&self) -> bool
        requires count { 2 ≤ length self.now.places }
        requires fits { IsTask (length self.now.places) self.now.len self.now.task }
        requires differ { KnowsWhatDiffers (hold_of self.now) self.now.class }
        ensures { let hold = hold_of self.now in
            result ≡ plans.each_below (λ position. not (plans.lacks_new hold position)) (length hold.cells) }
    {
        if let Some(RowTask::Write(_)) = &self.task {
            return self.has_new_blocks();
        }
        for position in 0..self.places.len() {
            if self.lacks_new(position) {
                return false;
            }
        }
        true
    }

    /// The same of a write.
    fn has_new_blocks(&self) -> bool
        requires count { 2 ≤ length self.now.places }
        requires writes { (batch : List (ℕ × List ℕ)) × ((hold_of self.now).kind ≡ Write batch) }
        ensures { let hold = hold_of self.now in
            result ≡ plans.each_below (λ position. not (plans.lacks_new hold position)) (length hold.cells) }
    {
        self.changed().and(self.places.writable()).is_empty()
    }

    /// The position whose write is put out next.
    pub(crate) fn next_write(&self) -> Option<usize>
        ensures { option_map plans.Next.WriteAt result ≡ plans.next_write (hold_of self.now) }
    {
        self.places.sendable().lowest()
    }

    /// The same, if it is below the limit.
    pub(crate) fn next_write_below(&self, limit: usize) -> Option<usize>
        ensures { let hold = hold_of self.now in
            let first = plans.first_from (plans.is_next_write hold) 0 (length hold.cells) in
            MatchOption result ((i : ℕ) → first ≡ Some i → limit ≤ i) (λ i. (first ≡ Some i) × (i < limit)) }
    {
        let position = self.next_write()?;
        if position < limit {
            Some(position)
        } else {
            None
        }
    }

    /// Whether all reads have been answered, and enough is known, where each read error is done with.
    pub(crate) fn has_read(&self) -> bool
        requires mended { plans.is_mending (hold_of self.now) ≡ false }
        requires count { 2 ≤ length self.now.places }
        requires fits { IsTask (length self.now.places) self.now.len self.now.task }
        ensures { let hold = hold_of self.now in
            result ≡ not (plans.has_read_out hold || not (plans.is_enough (plan_of self.now.plan) hold)) }
    {
        !self.has_asked() && self.is_enough()
    }

    /// Whether only writes are left, once new blocks were computed.
    pub(crate) fn has_writes_left(&self) -> bool
        requires { IsSound self.now }
        ensures { result ≡ is_write_time (planned_of self.now) }
    {
        !self.gives_up() && !self.is_mending() && self.has_read()
    }

    /// The position of a read, where its block is all that the plan reads.
    pub(crate) fn its_index(&self) -> Option<usize>
        ensures { IfSome result (λ index. (self.now.plan ≡ Plan.One) × (self.now.task ≡ Some (RowTask.Read index))) }
    {
        match (self.plan, &self.task) {
            (Plan::One, Some(RowTask::Read(index))) => Some(*index),
            _ => None,
        }
    }

    /// Whether all writes of a hold that has nothing else left were confirmed.
    fn has_written(&self) -> bool
        requires { IsPrepared (planned_of self.now) }
        ensures { result ≡ plans.is_over (planned_of self.now) }
    {
        if !self.is_quiet() {
            return false;
        }
        match self.next_write() {
            Some(_) => false,
            None => true,
        }
    }

    /// Whether a hold that gives up has read again all that it has fixed.
    fn has_ended(&self) -> bool
        requires { plans.gives_up (hold_of self.now) ≡ true }
        ensures { result ≡ plans.is_over (planned_of self.now) }
    {
        if !self.is_quiet() {
            return false;
        }
        match self.next_again() {
            Some(_) => false,
            None => true,
        }
    }

    /// Whether nothing is put out, and nothing comes next.
    pub(crate) fn is_over(&self) -> bool
        requires sound { IsSound self.now }
        requires classed { IsClassed (hold_of self.now) self.now.class }
        requires prepared { self.now.prepared ≡ true → IsPrepared (planned_of self.now) }
        ensures { result ≡ plans.is_over (planned_of self.now) }
    {
        if self.prepared {
            return self.has_written();
        }
        if let Some(index) = self.its_index() {
            return self.places.get(index).is_known();
        }
        if self.gives_up() {
            return self.has_ended();
        }
        if self.is_mending() {
            return false;
        }
        if !self.is_quiet() || !self.is_enough() {
            return false;
        }
        if !self.is_computed() {
            return false;
        }
        if let Some(_) = self.next_read() {
            return false;
        }
        if let Some(_) = self.next_restore() {
            return false;
        }
        match self.next_write() {
            Some(_) => false,
            None => true,
        }
    }

    /// The plan after the position is lost: without a block that it wants, doesn't know and can't drop, it becomes
    /// recover.
    pub(crate) fn plan_after_loss(&self, position: usize) -> Plan
        requires within { position < length self.now.places }
        requires count { 2 ≤ length self.now.places }
        requires few { length self.now.places ≤ 32 }
        requires fits { IsTask (length self.now.places) self.now.len self.now.task }
        ensures plan { plan_of result ≡ plans.after_loss (plan_of self.now.plan) (hold_of self.now) position }
        ensures same { (result ≡ self.now.plan) ⊎ (result ≡ Plan.Recover) }
        ensures all { self.now.plan ≡ Plan.All → result ≡ Plan.All }
    {
        if let Plan::All = self.plan {
            return self.plan;
        }
        if self.is_served(position) {
            return self.plan;
        }
        if self.can_drop(position) {
            self.plan
        } else {
            Plan::Recover
        }
    }

    /// Whether the position is in sync, if a write by reconstruction reads it.
    fn is_readable(&self, position: usize) -> bool
        requires within { position < length self.now.places }
        requires count { 2 ≤ length self.now.places }
        ensures { result ≡ plans.is_readable plans.Plan.Reconstruct (hold_of self.now) position }
    {
        if self.is_parity(position) {
            return true;
        }
        if self.puts_data(position) {
            return true;
        }
        self.places.get(position).is_in_sync()
    }

    /// Whether all data that aren't written are in sync.
    fn can_reconstruct(&self) -> bool
        requires { 2 ≤ length self.now.places }
        ensures { let hold = hold_of self.now in
            result ≡ plans.each_below (plans.is_readable plans.Plan.Reconstruct hold) (plans.data_count hold) }
    {
        if self.places.lost().is_empty() {
            return true;
        }
        for position in 0..self.places.len() - 2 {
            if !self.is_readable(position) {
                return false;
            }
        }
        true
    }

    /// How many of P and Q are in sync.
    fn parities_in_sync(&self) -> usize
        requires { 2 ≤ length self.now.places }
        ensures { result ≡ plans.parities_in_sync (hold_of self.now) }
    {
        let m = self.places.len() - 2;
        let p = if self.places.get(m).is_in_sync() {
            1
        } else {
            0
        };
        let q = if self.places.get(m + 1).is_in_sync() {
            1
        } else {
            0
        };
        p + q
    }

    /// The plan with which the hold begins.
    pub(crate) fn first_plan(&self) -> Plan
        requires count { 4 ≤ length self.now.places }
        requires fits { IsTask (length self.now.places) self.now.len self.now.task }
        requires kind { is_idle (hold_of self.now).kind ≡ false }
        requires target { (target : ℕ) → (hold_of self.now).kind ≡ holds.Kind.Rebuild target
            → plans.is_in_sync (cell_at (hold_of self.now).cells target).standing ≡ false }
        ensures plan { plan_of result ≡ plans.first_plan (hold_of self.now) (hold_of self.now).kind }
        ensures suits { Suits result self.now.task }
        ensures overwrites { result ≡ Plan.Overwrite → plans.parities_in_sync (hold_of self.now) ≡ 0 }
    {
        let Some(task) = &self.task else {
            return Plan::Recover;
        };
        match task {
            RowTask::Read(index) => self.plan_of_read(*index),
            RowTask::Write(batch) => self.plan_of_write(batch),
            RowTask::Rebuild(_) => Plan::Recover,
            RowTask::Check | RowTask::Repair => Plan::All,
        }
    }

    fn plan_of_read(&self, index: usize) -> Plan
        requires { index < length self.now.places }
        ensures plan { plan_of result ≡ plans.first_plan (hold_of self.now) (Read index) }
        ensures either { (result ≡ Plan.One) ⊎ (result ≡ Plan.Recover) }
    {
        if self.places.get(index).is_in_sync() {
            Plan::One
        } else {
            Plan::Recover
        }
    }

    /// The plan of a write with the fewest reads; of two with as many reconstruct, then modify.
    fn plan_of_write(&self, batch: &Batch) -> Plan
        requires count { 4 ≤ length self.now.places }
        requires fits { AreNewFor (length self.now.places) self.now.len batch.now.blocks }
        requires kind { (hold_of self.now).kind ≡ Write batch.now.blocks }
        ensures plan { plan_of result ≡ plans.first_plan (hold_of self.now) (hold_of self.now).kind }
        ensures writes { IsWritePlan result }
        ensures overwrites { result ≡ Plan.Overwrite → plans.parities_in_sync (hold_of self.now) ≡ 0 }
    {
        let data = self.places.len() - 2;
        let others = self.can_reconstruct();
        let own = batch.indices().and(self.places.lost()).is_empty();
        plan_of_fewest_reads(others, own, data, batch.len(), self.parities_in_sync())
    }

    /// How the hold ends, once it is over.
    pub(crate) fn end(&self) -> Outcome
        requires sound { IsSound self.now }
        requires classed { IsClassed (hold_of self.now) self.now.class }
        requires over { has_outcome (planned_of self.now) ≡ true }
        ensures { IsEnd (plans.outcome_of (hold_of self.now) (hold_of self.now).kind) self.now.class result }
    {
        match self.task {
            Some(RowTask::Rebuild(target)) => self.end_of_rebuild(target),
            Some(RowTask::Check | RowTask::Repair) => self.end_of_check(),
            _ => Outcome::Done,
        }
    }

    fn end_of_rebuild(&self, target: usize) -> Outcome
        requires { target < length self.now.places }
        ensures { let there = plans.has_target (cell_at (hold_of self.now).cells target) in
            IsEnd (if there then holds.Outcome.Rebuilt else holds.Outcome.GivenUp) self.now.class result }
    {
        if self.has_target(target) {
            Outcome::Rebuilt
        } else {
            Outcome::GivenUp
        }
    }

    fn end_of_check(&self) -> Outcome
        requires { let passes_over = self.now.cut_short || self.now.met_error in
            (passes_over ≡ false) → (class : RowClass) × (self.now.class ≡ Some class) }
        ensures { let passes_over = self.now.cut_short || self.now.met_error in
            IsEnd (if passes_over then holds.Outcome.GivenUp else holds.Outcome.Classed) self.now.class result }
    {
        if self.cut_short || self.met_error {
            return Outcome::GivenUp;
        }
        let Some(class) = self.class else {
            unreachable!()
        };
        Outcome::Classed(class)
    }

    /// Whether the hold is over, and may end.
    pub(crate) fn has_outcome(&self) -> bool
        requires sound { IsSound self.now }
        requires classed { IsClassed (hold_of self.now) self.now.class }
        requires prepared { self.now.prepared ≡ true → IsPrepared (planned_of self.now) }
        ensures over { result ≡ has_outcome (planned_of self.now) }
        ensures ends { let hold = hold_of self.now in
            IsTrue result → MayEnd hold (plans.outcome_of hold hold.kind) }
    {
        self.task.is_some() && self.is_over()
    }
}

/// The plan of a write with the fewest reads, by whether all other data are in sync and the data that are written, and
/// by how many data there are, how many are written, and how many parities are in sync.
fn plan_of_fewest_reads(
    others: bool,
    own: bool,
    data_count: usize,
    written: usize,
    parities: usize,
) -> Plan
    requires some { 0 < written }
    requires written { written ≤ 32 }
    requires parities { parities ≤ 2 }
    ensures plan { plan_of result ≡ fewest_reads others own data_count written parities }
    ensures writes { IsWritePlan result }
    ensures overwrites { result ≡ Plan.Overwrite → parities ≡ 0 }
{
    if !own {
        return if others {
            Plan::Reconstruct
        } else {
            Plan::Recover
        };
    }
    // by modify, or by overwriting
    let reads = if parities == 0 { 0 } else { written + parities };
    if others && data_count <= written + reads {
        return Plan::Reconstruct;
    }
    if parities == 0 {
        return Plan::Overwrite;
    }
    if reads <= data_count {
        Plan::Modify
    } else {
        Plan::Recover
    }
}

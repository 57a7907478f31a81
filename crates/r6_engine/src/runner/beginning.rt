//! What is due is begun.

ghost use Rattle.std.specs.Prelude.{◌≡◌, ◌<◌, ◌≤◌, true, Some, None, length, slice_get};
ghost use Rattle.r6_core.specs.Refusals.{most_unanswered};
ghost use Rattle.r6_engine.specs.lists.Events.{waits_before};
ghost use Rattle.r6_shard.specs.Counted.{rows_of};
ghost use Rattle.r6_engine.specs.runner.Counted.{KeepsCounted};
ghost use Rattle.r6_engine.specs.runner.Parts.{KeepsParts};
ghost use Rattle.r6_engine.specs.runner.Runners.{GoesOnSame, BeginsScrub, KeepsSelf, taken_by};
ghost use Rattle.r6_engine.specs.runner.Sound.{KeepsSound};
ghost use Rattle.r6_engine.specs.runner.Together.{ServesTogether};
ghost use Rattle.r6_engine.specs.runner.Waits.{HasAwaited, KeepsAwaited, MayFollow};

use crate::runner::due::{Due, Duty};
use crate::runner::runner::Runner;
use crate::runner::scrub::ScrubUnderWay;
use r6_core::{MOST_UNANSWERED, Op, Task};
use r6_dev::BlockDevice;
use r6_shard::{Performs, Shard, TakesParts};
use std::sync::Wait;

// More requests begin once so few are open: as many as a core may hold rows, and as it reads without one. So the devices
// have work meanwhile, and what begins together is long enough for whole rows.
const FEW_OPEN: usize = 64;

// How many requests a shard has accepted.
fn accepted_by<P: Performs>(shard: &Shard<P>) -> usize
    ensures { result ≡ length shard.now.asked.items }
{
    shard.asked.len()
}

// How many waits stand before the request that was accepted last: so many if more are accepted now, else as before.
fn waits_of_last(before: usize, now: usize, waits: u64, last: u64) -> u64
    ensures more { before < now → result ≡ waits }
    ensures same { now ≤ before → result ≡ last }
{
    if before < now { waits } else { last }
}

impl<P: Performs + Drop, D: BlockDevice + Drop> Runner<P, D>
where
    P: TakesParts<D>,
{
    // Hands a request in that comes after so many waits, and with it others that are due next and come after as many: as
    // many as may be open.
    fn hand_over(&mut self, event: u64, waits: u64, op: Op)
        requires room { taken_by self.old < self.old.room }
        requires few { self.old.shard.core.unanswered < most_unanswered }
        requires follows { MayFollow waits self.old }

        ensures served { ServesTogether event waits op self.old self.new }
        ensures parts { KeepsParts self.old self.new }

        ensures counted { KeepsCounted self.old self.new }
        ensures sound { KeepsSound self.old self.new }
        ensures place { self.new.shard.core.shard ≡ self.old.shard.core.shard }
        ensures awaited { (events : _) → waits ≡ waits_before events event
            → HasAwaited events self.old → HasAwaited events self.new }
    {
        let asked = accepted_by(&self.shard);
        let open = asked - self.shard.entries.len();
        self.gathered
            .gather(&mut self.due, waits, MOST_UNANSWERED - 1 - open);
        self.gathered.put_first(event, op);
        self.gathered.hand_over(&mut self.shard, &mut self.refused);
        self.waits = waits_of_last(asked, accepted_by(&self.shard), waits, self.waits);
    }

    // Every row is to be checked, or repaired.
    fn begin_scrub(&mut self, event: u64, task: Task)
        requires room { taken_by self.old < self.old.room }
        requires none { self.old.scrub ≡ None }
        requires task { rows_of task ≡ 1 }
        ensures begun { BeginsScrub event task self.old self.new }
        ensures parts { KeepsParts self.old self.new }
        ensures counted { KeepsCounted self.old self.new }
        ensures sound { KeepsSound self.old self.new }
        ensures awaited { KeepsAwaited self.old self.new }
    {
        self.scrub = Some(ScrubUnderWay {
            event,
            task,
            left: self.rows,
            given_up: false,
            before: self.shard.core.counts(),
        });
    }

    // Whether what is due next may begin: a request once all that came before a wait before it are answered, a check
    // or repair once all are; and nothing while one of these is under way.
    fn may_begin(&self) -> bool
        ensures none { result ≡ true → self.now.scrub ≡ None }
        ensures few { result ≡ true → self.now.shard.core.unanswered < most_unanswered }
        ensures follows { result ≡ true → (due : _) → slice_get self.now.due.items 0 ≡ Some due
            → MayFollow due.waits self.now }
    {
        let Some(due) = self.due.front() else {
            return false;
        };
        if self.scrub.is_some() {
            return false;
        }
        let open = self.shard.asked.len() - self.shard.entries.len();
        match due.duty {
            Duty::Serve(_) => open == 0 || (due.waits == self.waits && open <= FEW_OPEN),
            Duty::Check | Duty::Repair => open == 0,
        }
    }

    // Begins what is due next, if it may begin; whether it did.
    fn begin_next(&mut self) -> bool
        ensures course { GoesOnSame self.old self.new }
        ensures counted { KeepsCounted self.old self.new }
        ensures sound { KeepsSound self.old self.new }
        ensures awaited { KeepsAwaited self.old self.new }
        ensures same { KeepsSelf self.old self.new }
        ensures parts { KeepsParts self.old self.new }
        ensures count { taken_by self.new ≡ taken_by self.old }
    {
        if !self.may_begin() {
            return false;
        }
        let Some(due) = self.due.pop_front() else {
            return false;
        };
        let Due { event, waits, duty } = due;
        match duty {
            Duty::Serve(op) => self.hand_over(event, waits, op),
            Duty::Check => self.begin_scrub(event, Task::Check),
            Duty::Repair => self.begin_scrub(event, Task::Repair),
        }
        true
    }

    // Begins all that may begin.
    pub(crate) fn begin_all<R: Wait>(&mut self, rt: &R)
        ensures course { GoesOnSame self.old self.new }
        ensures counted { KeepsCounted self.old self.new }
        ensures sound { KeepsSound self.old self.new }
        ensures awaited { KeepsAwaited self.old self.new }
        ensures same { KeepsSelf self.old self.new }
        ensures parts { KeepsParts self.old self.new }
        ensures count { taken_by self.new ≡ taken_by self.old }
    {
        for _ in rt.forever() {
            if !self.begin_next() {
                break;
            }
        }
    }
}

//! Every row is checked or repaired.

ghost use Rattle.std.specs.Prelude.{◌≡◌, ◌⊎◌, ◌↔◌, IfOk, IfErr, IsTrue, Some, false, true};
ghost use Rattle.r6_core.specs.Effects.{RefusesTurn};
ghost use Rattle.r6_core.specs.Shards.{world_shard};
ghost use Rattle.r6_shard.specs.Counted.{PassesMore, rows_of};
ghost use Rattle.r6_shard.specs.Kept.{NoneIsOut};
ghost use Rattle.r6_shard.specs.Refusing.{IsEnding, Lasts};
ghost use Rattle.r6_engine.specs.runner.Counted.{HasTurned};
ghost use Rattle.r6_engine.specs.runner.Going.{TakesNoMore};
ghost use Rattle.r6_engine.specs.runner.Parts.{KeepsParts};
ghost use Rattle.r6_engine.specs.runner.Runners.{KeepsSelf, ShardGoesOn, taken_by};
ghost use Rattle.r6_engine.specs.runner.Sound.{KeepsSound};

use crate::runner::runner::Runner;
use crate::runner::scrub::ScrubUnderWay;
use r6_core::{Refusal, Task, Turn};
use r6_dev::BlockDevice;
use r6_shard::{Performs, TakesParts};
use std::sync::Wait;

// Whether a shard refuses so from then on: the array has failed, or no number is left.
fn is_ending(refusal: Refusal) -> bool
    ensures { IsTrue result ↔ IsEnding refusal }
{
    matches!(refusal, Refusal::ArrayFailed | Refusal::Exhausted)
}

impl<P: Performs + Drop, D: BlockDevice + Drop> Runner<P, D>
where
    P: TakesParts<D>,
{
    // Takes up or passes over the next row.
    fn turn_one(&mut self, task: Task) -> Result<Turn, Refusal>
        ensures course { ShardGoesOn self.old self.new }
        ensures parts { KeepsParts self.old self.new }
        ensures sound { KeepsSound self.old self.new }
        ensures pass { self.new.shard.pass ≡ self.old.shard.pass }
        ensures passed { IfOk result (λ _. PassesMore (rows_of task) self.old.shard.core self.new.shard.core) }
        ensures lasts { Lasts self.old.shard.core self.new.shard.core }
        ensures refused { IfErr result (λ r. RefusesTurn self.old.shard.core task r self.new.shard.core) }
    {
        self.shard.turn(task)
    }

    // Takes up or passes over as many of the rows that are left as may be now, unless it is given up.
    fn turn(&mut self, scrub: ScrubUnderWay) -> ScrubUnderWay
        requires { scrub.given_up ≡ false }
        ensures course { ShardGoesOn self.old self.new }
        ensures parts { KeepsParts self.old self.new }
        ensures sound { KeepsSound self.old self.new }
        ensures pass { self.new.shard.pass ≡ self.old.shard.pass }
        ensures counted { HasTurned scrub result self.old.shard.core self.new.shard.core }
    {
        for turned in 0..scrub.left {
            if let Err(refusal) = self.turn_one(scrub.task) {
                return ScrubUnderWay {
                    left: scrub.left - turned,
                    given_up: is_ending(refusal),
                    ..scrub
                };
            }
        }
        ScrubUnderWay { left: 0, ..scrub }
    }

    // Goes on with the rows that are left.
    fn turn_on(&mut self, scrub: ScrubUnderWay)
        requires under_way { self.old.scrub ≡ Some scrub }
        requires going { scrub.given_up ≡ false }
        ensures goes { TakesNoMore self.old self.new }
        ensures same { KeepsSelf self.old self.new }
        ensures count { taken_by self.new ≡ taken_by self.old }
    {
        let turned = self.turn(scrub);
        self.scrub = Some(turned);
    }

    // No row is left, or it was given up, and those that were taken up were done with.
    fn end_scrub(&mut self, scrub: ScrubUnderWay)
        requires under_way { self.old.scrub ≡ Some scrub }
        requires over { (scrub.left ≡ 0) ⊎ (scrub.given_up ≡ true) }
        requires still { NoneIsOut (world_shard self.old.shard.core) }
        ensures goes { TakesNoMore self.old self.new }
        ensures same { KeepsSelf self.old self.new }
        ensures count { taken_by self.new ≡ taken_by self.old }
    {
        self.scrub = None;
        self.scrubs_done
            .push_reserved(scrub.over(self.rows, self.shard.core.counts()));
    }

    // Whether no command is out.
    fn is_still<R: Wait>(&mut self, rt: &R) -> bool
        ensures goes { TakesNoMore self.old self.new }
        ensures same { KeepsSelf self.old self.new }
        ensures count { taken_by self.new ≡ taken_by self.old }
        ensures scrub { self.new.scrub ≡ self.old.scrub }
        ensures still { result ≡ true → NoneIsOut (world_shard self.new.shard.core) }
    {
        self.shard.is_still(rt)
    }

    // Goes on with the check or repair that is under way. It is over once no row is left, or it was given up, and no
    // command is out.
    pub(crate) fn go_on<R: Wait>(&mut self, rt: &R)
        ensures goes { TakesNoMore self.old self.new }
        ensures same { KeepsSelf self.old self.new }
        ensures count { taken_by self.new ≡ taken_by self.old }
    {
        let Some(scrub) = self.scrub else {
            return;
        };
        if !scrub.is_over() {
            self.turn_on(scrub);
        } else if self.is_still(rt) {
            self.end_scrub(scrub);
        }
    }
}

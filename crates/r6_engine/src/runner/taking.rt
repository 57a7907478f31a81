//! What came by the list is taken up.

ghost use Rattle.std.specs.Prelude.{◌≡◌, ℕ, ◌+◌, ◌<◌, ◌++◌, ◌∷◌, [], length, option_map, option_to_list};
ghost use Rattle.r6_shard.specs.Sound.{TakesSound};
ghost use Rattle.r6_engine.specs.runner.Counted.{KeepsCounted};
ghost use Rattle.r6_engine.specs.runner.Parts.{HasPartRoom, HaveCome, KeepsOwn};
ghost use Rattle.r6_engine.specs.runner.Runners.{GoesOn, IsPut, IsHandedIn, KeepsSelf, taken_by};
ghost use Rattle.r6_engine.specs.runner.Sound.{KeepsPromised};
ghost use Rattle.r6_engine.specs.runner.Waits.{HasAwaited};

use crate::lists::{EventPart, Events, Item};
use crate::runner::due::{Due, Duty};
use crate::runner::runner::{Handed, Runner};
use r6_core::Op;
use r6_dev::BlockDevice;
use r6_shard::{Part, Performs, TakesParts};
use std::sync::Wait;

impl<P: Performs + Drop, D: BlockDevice + Drop> Runner<P, D>
where
    P: TakesParts<D>,
{
    // It is due behind what was taken before.
    fn put(&mut self, event: u64, waits: u64, duty: Duty)
        requires { taken_by self.old < self.old.room }
        ensures { IsPut (record { event = event; waits = waits; duty = duty }) self.old self.new }
    {
        self.due.push_back_reserved(Due { event, waits, duty });
    }

    // The part of a new device is handed in, unless its core has looked at its generation.
    fn hand_in<R: Wait>(&mut self, rt: &R, event: u64, part: Part<D>)
        requires room { taken_by self.old < self.old.room }
        requires part_room { length self.old.handed.items < self.old.attaches }
        ensures handed { IsHandedIn D.told D.promised event part self.old self.new }
        ensures sound { TakesSound D.promised part self.old.shard self.new.shard }
    {
        let slot = part.slot;
        let generation = part.generation;
        let taken = match self.shard.hand_in::<D, R>(rt, part) {
            Ok(Some(earlier)) => {
                self.others.push_reserved(earlier);
                true
            }
            Ok(None) => true,
            Err(refused) => {
                self.others.push_reserved(refused.part);
                false
            }
        };
        self.handed.push_reserved(Handed {
            event,
            slot,
            generation,
            taken,
        });
    }

    // What came by the list is due, or, the part of a new device, handed in at once, under the generation that came
    // with it.
    pub(crate) fn take_up<L: Events, R: Wait>(&mut self, rt: &R, item: Item<L, D>)
        requires room { taken_by self.old < self.old.room }
        requires part_room { HasPartRoom item.work self.old }
        ensures course { (numbers : _) → GoesOn L.shape L.events item.shard numbers
            (numbers ++ item.number ∷ []) self.old self.new }
        ensures counted { KeepsCounted self.old self.new }
        ensures sound { KeepsPromised L.shape L.sound item.shard self.old self.new }
        ensures awaited { HasAwaited L.events self.old → HasAwaited L.events self.new }
        ensures same { KeepsSelf self.old self.new }
        ensures own { KeepsOwn self.old self.new }
        ensures count { taken_by self.new ≡ taken_by self.old + 1 }
        ensures parts { (numbers : _) → HaveCome L.shape L.events item.shard numbers self.old
            → HaveCome L.shape L.events item.shard (numbers ++ item.number ∷ []) self.new }
    {
        let event = item.number;
        let waits = item.waits;
        let work = item.work;
        match work {
            EventPart::Read(block, buffer) => {
                self.put(event, waits, Duty::Serve(Op::Read(block, buffer)));
            }
            EventPart::Write(block, buffer) => {
                self.put(event, waits, Duty::Serve(Op::Write(block, buffer)));
            }
            EventPart::TakeUp {
                slot,
                generation,
                part: device,
            } => {
                let part = Part {
                    slot,
                    generation,
                    device,
                };
                self.hand_in(rt, event, part);
            }
            EventPart::Check => self.put(event, waits, Duty::Check),
            EventPart::Repair => self.put(event, waits, Duty::Repair),
        }
    }
}

//! What the pass of a shard and that of the calling thread learn from each other.

ghost use Rattle.std.specs.Prelude.{◌≡◌};
ghost use Rattle.r6_health.specs.Passes.{IsPassOf, view_of};
ghost use Rattle.r6_health.specs.Views.{joined, Looks};
ghost use Rattle.r6_engine.specs.runner.Learning.{KeepsAll, KeepsAllElse};

use crate::runner::runner::Runner;
use r6_dev::BlockDevice;
use r6_health::{Pass, Register};
use r6_shard::{Performs, TakesParts};
use std::sync::Wait;

impl<P: Performs + Drop, D: BlockDevice + Drop> Runner<P, D>
where
    P: TakesParts<D>,
{
    /// Lets another thread's pass learn what the shard's has seen. Nothing else changes.
    pub fn tell(&mut self, register: &Register, pass: &mut Pass)
        requires own { IsPassOf register.now self.old.shard.pass }
        requires other { IsPassOf register.now pass.old }
        ensures own { IsPassOf register.now self.new.shard.pass }
        ensures other { IsPassOf register.now pass.new }
        ensures told { view_of pass.new ≡ joined (view_of pass.old) (view_of self.new.shard.pass) }
        ensures kept { KeepsAll self.old self.new }
    {
        self.shard.tell(register, pass);
    }

    /// Lets the shard's pass learn what another thread's has seen, and look at the register once more. The core looks at
    /// nothing, and nothing else changes.
    pub fn learn<R: Wait>(&mut self, rt: &R, register: &Register, pass: &mut Pass)
        requires own { IsPassOf register.now self.old.shard.pass }
        requires other { IsPassOf register.now pass.old }
        ensures own { IsPassOf register.now self.new.shard.pass }
        ensures other { IsPassOf register.now pass.new }
        ensures same { view_of pass.new ≡ view_of pass.old }
        ensures looks { Looks (joined (view_of self.old.shard.pass) (view_of pass.old)) (view_of self.new.shard.pass) }
        ensures kept { KeepsAllElse self.old self.new }
    {
        self.shard.learn(rt, register, pass);
    }
}

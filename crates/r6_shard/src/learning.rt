//! What the pass of a shard and that of another thread learn from each other.

use crate::performs::Performs;
use crate::shard::Shard;
use r6_health::{Pass, Register};
use std::sync::Wait;

impl<P: Performs + Drop> Shard<P> {
    ghost use Rattle.std.specs.Prelude.{◌≡◌};
    ghost use Rattle.r6_health.specs.Passes.{IsPassOf, view_of};
    ghost use Rattle.r6_health.specs.Views.{joined, Looks};
    ghost use Rattle.r6_shard.specs.Advances.{Advances};
    ghost use Rattle.r6_shard.specs.Learning.{KeepsAll, KeepsAllElse};

    /// Tells another thread's pass what the shard's own has seen. Nothing else changes.
    pub fn tell(&mut self, register: &Register, pass: &mut Pass)
        requires own { IsPassOf register.now self.old.pass }
        requires other { IsPassOf register.now pass.old }
        ensures pass { IsPassOf register.now self.new.pass }
        ensures other { IsPassOf register.now pass.new }
        ensures told { view_of pass.new ≡ joined (view_of pass.old) (view_of self.old.pass) }
        ensures kept { KeepsAll self.old self.new }
    {
        register.learn(pass, &mut self.pass);
    }

    /// The shard's pass learns what another thread's has seen, and then reads the register: so it has seen all of that.
    /// The core looks at nothing. The other pass sees by it which calls the shard has made since: none, if the shard's
    /// pass has made as many as before.
    pub fn learn<R: Wait>(&mut self, rt: &R, register: &Register, pass: &mut Pass)
        requires own { IsPassOf register.now self.old.pass }
        requires other { IsPassOf register.now pass.old }
        ensures pass { IsPassOf register.now self.new.pass }
        ensures other { IsPassOf register.now pass.new }
        ensures same { view_of pass.new ≡ view_of pass.old }
        ensures looks { Looks (joined (view_of self.old.pass) (view_of pass.old)) (view_of self.new.pass) }
        ensures kept { KeepsAllElse self.old self.new }
        ensures advances { Advances self.old self.new }
    {
        register.learn(&mut self.pass, pass);
        self.read(rt, register);
    }
}

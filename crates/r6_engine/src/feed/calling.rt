//! Calls at the register, each made until others no longer come between.

ghost use Rattle.std.specs.Prelude.{◌≡◌, ◌++◌, false};
ghost use Rattle.r6_health.specs.Passes.{IsPassOf, Tells, Adds, view_of};
ghost use Rattle.r6_health.specs.Views.{Brought, brought_by};
ghost use Rattle.r6_health.specs.declared.call.Call.TheVariants.{Fail};
ghost use Rattle.r6_engine.specs.feed.Feeds.{call_of, is_contended};

use crate::lists::Bringing;
use r6_health::{Answer, Pass, Refusal, Register};
use std::sync::Wait;
use std::thread;

// The slot is lost.
pub(crate) fn fail<R: Wait>(
    rt: &R,
    register: &Register,
    pass: &mut Pass,
    slot: usize,
) -> Result<Answer, Refusal>
    requires { IsPassOf register.now pass.old }
    ensures pass { IsPassOf register.now pass.new }
    ensures answered { Tells pass.old (Fail slot) result pass.new }
    ensures own { Adds pass.old (Fail slot) result pass.new }
    ensures settled { is_contended result ≡ false }
{
    for _ in rt.forever() {
        match register.fail(rt, pass, slot) {
            Err(Refusal::Contended) => thread::yield_now(),
            answer => return answer,
        }
    }
    unreachable!()
}

// Calls once for a new device.
fn bring_once<R: Wait>(
    rt: &R,
    register: &Register,
    pass: &mut Pass,
    how: Bringing,
    slot: usize,
) -> Result<u32, Refusal>
    requires { IsPassOf register.now pass.old }
    ensures pass { IsPassOf register.now pass.new }
    ensures answered { Brought (view_of pass.old) (call_of how slot) result (view_of pass.new) }
    ensures own { (view_of pass.new).mine ≡ (view_of pass.old).mine ++ brought_by (call_of how slot) result }
{
    match how {
        Bringing::Attach => register.attach(rt, pass, slot),
        Bringing::Replace => register.replace(rt, pass, slot),
    }
}

// The slot gets a new device.
pub(crate) fn bring<R: Wait>(
    rt: &R,
    register: &Register,
    pass: &mut Pass,
    how: Bringing,
    slot: usize,
) -> Result<u32, Refusal>
    requires { IsPassOf register.now pass.old }
    ensures pass { IsPassOf register.now pass.new }
    ensures answered { Brought (view_of pass.old) (call_of how slot) result (view_of pass.new) }
    ensures own { (view_of pass.new).mine ≡ (view_of pass.old).mine ++ brought_by (call_of how slot) result }
    ensures settled { is_contended result ≡ false }
{
    for _ in rt.forever() {
        match bring_once(rt, register, pass, how, slot) {
            Err(Refusal::Contended) => thread::yield_now(),
            brought => return brought,
        }
    }
    unreachable!()
}

//! A shard goes on until nothing is left to do.

use crate::performs::Performs;
use crate::shard::Shard;
use r6_core::Task;
use r6_health::Register;
use std::sync::Wait;

impl<P: Performs + Drop> Shard<P> {
    ghost use Rattle.std.specs.Prelude.{◌≡◌, true};
    ghost use Rattle.r6_health.specs.Passes.{IsPassOf};
    ghost use Rattle.r6_core.specs.Shards.{world_shard};
    ghost use Rattle.r6_core.specs.Order.{HasNoReply};
    ghost use Rattle.r6_shard.specs.Kept.{NoneIsToTell};
    ghost use Rattle.r6_shard.specs.Counted.{PassesNone};
    ghost use Rattle.r6_shard.specs.Shards.{SameLedger, Rests};
    ghost use Rattle.r6_shard.specs.Advances.{Advances};
    ghost use Rattle.r6_shard.specs.Driving.{SendsAll};

    // Sends what was put out and delivers what has come, until there is neither.
    pub(crate) fn perform_all<R: Wait>(&mut self, rt: &R)
        ensures advances { Advances self.old self.new }
        ensures passed { PassesNone self.old.core self.new.core }
        ensures ledger { SameLedger self.old self.new }
        ensures pass { self.new.pass ≡ self.old.pass }
        ensures last { self.new.last ≡ self.old.last }
        ensures sent { SendsAll self.old self.new }
    {
        for _ in rt.forever() {
            if !self.perform_next(rt) {
                break;
            }
        }
    }

    // Makes the calls at the register, until none is left.
    pub(crate) fn tell_all<R: Wait>(&mut self, rt: &R, register: &Register)
        requires { IsPassOf register.now self.old.pass }
        ensures pass { IsPassOf register.now self.new.pass }
        ensures advances { Advances self.old self.new }
        ensures passed { PassesNone self.old.core self.new.core }
        ensures ledger { SameLedger self.old self.new }
        ensures last { self.new.last ≡ self.old.last }
        ensures none { NoneIsToTell (world_shard self.new.core) }
    {
        for _ in rt.forever() {
            if !self.tell_next(rt, register) {
                break;
            }
        }
    }

    // Takes the replies that were released.
    pub(crate) fn collect_all<R: Wait>(&mut self, rt: &R)
        ensures advances { Advances self.old self.new }
        ensures passed { PassesNone self.old.core self.new.core }
        ensures asked { self.new.asked ≡ self.old.asked }
        ensures room { self.new.room ≡ self.old.room }
        ensures pass { self.new.pass ≡ self.old.pass }
        ensures last { self.new.last ≡ self.old.last }
        ensures none { HasNoReply self.new.core }
    {
        for _ in rt.forever() {
            if !self.collect() {
                break;
            }
        }
    }

    /// Whether nothing is left to do. If a row is to be rebuilt, it is taken up.
    pub fn rests<R: Wait>(&mut self, rt: &R, register: &Register) -> bool
        requires { IsPassOf register.now self.old.pass }
        ensures pass { IsPassOf register.now self.new.pass }
        ensures advances { Advances self.old self.new }
        ensures passed { PassesNone self.old.core self.new.core }
        ensures ledger { SameLedger self.old self.new }
        ensures last { self.new.last ≡ self.old.last }
        ensures still { result ≡ true → self.new.pass ≡ self.old.pass }
        ensures rests { result ≡ true → Rests self.new }
    {
        if self.entries.len() != self.asked.len() {
            return false;
        }
        if !self.is_still(rt) {
            return false;
        }
        if self.tell_next(rt, register) {
            return false;
        }
        self.turn(Task::Rebuild).is_err()
    }
}

//! Who performs commands, and takes parts of devices up for them.

ghost use Rattle.std.specs.Prelude.{◌≡◌, ◌≤◌, ◌<◌, ◌↔◌, ℕ, Bool, true, false, None, Some, IsTrue, MatchOption, MatchResult, length};
ghost use Rattle.r6_shard.specs.Performing.{Performer, Receives, HasPart, IsHere, having_sent};
ghost use Rattle.r6_shard.specs.Parts.{TakesIn};

use r6_dev::BlockDevice;
use r6_exchange::{Completion, Part};
use r6_world::Command;
use std::sync::Wait;

/// Performs the commands of a shard on parts of devices, one after another on each part, in place or elsewhere.
pub trait Performs {
    /// What is known of its parts, and which commands are out.
    ghost performer: { Self → Performer };

    /// Whether one more command may be sent.
    ghost has_room: { Self → Bool };

    /// What holds of it between its calls.
    ghost holds: { Self → Type 0 };

    ghost holds_is_prop: { (p : Self) → IsProp (holds p) };

    ghost Site: { Type 0 };

    /// Where it performs: no call changes that.
    ghost site: { Self → Site };

    /// Makes room for one more command, if none is there; whether there is room.
    fn make_room<R: Wait>(&mut self, rt: &R) -> bool
        requires { holds self.old }
        ensures holds { holds self.new }
        ensures room { result ≡ true → has_room self.new ≡ true }
        ensures performer { performer self.new ≡ performer self.old }
        ensures site { site self.new ≡ site self.old }
        ensures full { result ≡ false → has_room self.new ≡ false };

    /// Sends a command, which is out from then on. Its token is that of no other that is out.
    fn send<R: Wait>(&mut self, rt: &R, command: Command)
        requires holds { holds self.old }
        requires room { has_room self.old ≡ true }
        requires new { (performer self.old).out command.token ≡ None }
        ensures holds { holds self.new }
        ensures performer { performer self.new ≡ having_sent (performer self.old) command }
        ensures site { site self.new ≡ site self.old };

    /// Receives the completion of a command that was out; `None` where none has come.
    fn receive<R: Wait>(&mut self, rt: &R) -> Option<Completion>
        requires { holds self.old }
        ensures holds { holds self.new }
        ensures received { MatchOption result (performer self.new ≡ performer self.old)
            (Receives (performer self.old) (performer self.new)) }
        ensures site { site self.new ≡ site self.old };

    /// Whether no command is out.
    fn is_idle(&self) -> bool
        requires { holds self.now }
        ensures { result ≡ true → (token : ℕ) → (performer self.now).out token ≡ None };
}

/// Takes parts of such devices up, which it performs commands on from then on.
pub trait TakesParts<D: BlockDevice>: Performs {
    /// Whether a part of this slot and generation was taken up.
    fn has_part(&self, slot: usize, generation: u32) -> bool
        requires { Self.holds self.now }
        ensures here { IsTrue result ↔ IsHere (Self.performer self.now).labels slot generation }
        ensures tells { result ≡ true → HasPart (Self.performer self.now).tells slot generation };

    /// Takes a part up; of two for one slot and generation the later counts. Back comes the earlier one, unless that
    /// is kept aside. No command to its device may be out.
    ///
    /// # Errors
    /// The part, where as many were taken up as there is room for. Nothing changes.
    fn take_in<R: Wait>(&mut self, rt: &R, part: Part<D>) -> Result<Option<Part<D>>, Part<D>>
        requires holds { Self.holds self.old }
        requires apart { (token : ℕ) (c : _) → (Self.performer self.old).out token ≡ Some c
            → c.generation < part.generation }
        ensures holds { Self.holds self.new }
        ensures taken { MatchResult result
            (λ earlier. TakesIn D.told D.promised part earlier (Self.performer self.old) (Self.performer self.new))
            (λ back. (back ≡ part) × (self.new ≡ self.old)
            × ((Self.performer self.old).part_room ≤ length (Self.performer self.old).labels)) }
        ensures site { Self.site self.new ≡ Self.site self.old };
}

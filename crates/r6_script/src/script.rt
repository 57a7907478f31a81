//! What a script says, and what may be wrong with its text.

ghost use Rattle.std.specs.Prelude.{◌≡◌};

use r6_layout::Geometry;
use std::alloc::{AllocError, AllocFailed};
use std::fmt;

/// How a command is completed.
#[derive(Clone, Copy)]
pub enum Completion {
    /// Its device did it.
    Good,
    /// Its device answers the fault of its kind, whether it did it or not.
    Error,
    /// Its device answers that it is gone, whether it did it or not.
    Gone,
}

/// What a shard does to its rows, one in a turn.
#[derive(Clone, Copy, PartialEq, Eq, Debug)]
pub enum Task {
    /// It rebuilds the row on a new device.
    Rebuild,
    /// It finds the row's class.
    Check,
    /// It finds the row's class, and writes wrong parities anew.
    Repair,
}

/// What is done at a shard.
#[derive(Clone, Copy)]
pub enum Call {
    /// The device of the command with this token performs it.
    Perform(u64),
    /// The completion of the command with this token is delivered.
    Answer(u64, Completion),
    /// The device of the command with this token performs it, and then its good completion is delivered.
    Do(u64),
    /// The shard's next call is made at the register, and the shard is told the answer.
    Tell,
    /// The shard looks at the register.
    Look,
    /// The shard has a turn.
    Turn(Task),
}

/// An event of a script, after its array.
#[derive(Clone, Copy)]
pub enum Event {
    /// The read of a block is submitted.
    Read(u64),
    /// The write of a block is submitted; all bytes of the new block are this one.
    Write(u64, u8),
    /// Something is done at a shard.
    At(u64, Call),
    /// A slot is failed at the register.
    Fail(u64),
    /// A new device is attached to a slot at the register.
    Attach(u64),
    /// A slot's device is replaced by a new one at the register.
    Replace(u64),
}

/// An array, and what happens to it.
#[derive(Drop)]
pub struct Script {
    pub geometry: Geometry,
    pub events: Vec<Event>,
}

/// What is wrong with the text of a script.
#[derive(Clone, Copy, Debug, PartialEq, Eq)]
pub enum ScriptFault {
    /// The line of this number, counted from 1, is not in the grammar, or may not stand where it does.
    Line(u64),
    /// An allocation failed.
    Memory,
}

impl From<AllocError> for ScriptFault {
    ghost use Rattle.r6_script.specs.declared.script.ScriptFault.TheVariants.{Memory};

    ghost from_gives = { λ _ fault. fault ≡ Memory };

    fn from(_refused: AllocError) -> ScriptFault {
        ScriptFault::Memory
    }
}

impl<T: Drop> From<AllocFailed<T>> for ScriptFault {
    ghost use Rattle.r6_script.specs.declared.script.ScriptFault.TheVariants.{Memory};

    ghost from_gives = { λ _ fault. fault ≡ Memory };

    fn from(_refused: AllocFailed<T>) -> ScriptFault {
        ScriptFault::Memory
    }
}

impl fmt::Display for ScriptFault {
    ghost use Rattle.std.specs.Prelude.{Some};
    ghost use Rattle.r6_script.specs.Script.{fault_text};

    ghost output = { λ fault. Some (fault_text fault) };

    fn fmt<W: fmt::Write>(&self, f: &mut fmt::Formatter<W>) -> fmt::Result {
        match self {
            ScriptFault::Line(number) => write!(f, "script: line {number}"),
            ScriptFault::Memory => write!(f, "memory"),
        }
    }
}

//! Why a call of a core is refused.

ghost use Rattle.std.specs.Prelude.{◌≡◌};
ghost use Rattle.r6_core.specs.Refusals.{error_number, number_of, name_of};

use std::fmt;

/// Why a core can't be made.
#[derive(Clone, Copy, PartialEq, Eq, Debug)]
pub enum CoreError {
    /// There is no memory for its room.
    NoMemory = 1,
}

impl CoreError {
    /// The number of the error.
    pub fn number(self) -> u8
        ensures { result ≡ error_number self }
    {
        self as u8
    }
}

/// Why a call is refused. A refusal changes nothing.
#[derive(Clone, Copy, PartialEq, Eq, Debug)]
pub enum Refusal {
    /// The array has no block of this number.
    NoSuchBlock = 1,
    /// Another shard has the block's row.
    WrongShard = 2,
    /// The buffer hasn't the length of a block.
    WrongLength = 3,
    /// There are 256 accepted requests whose replies were not taken.
    Busy = 4,
    /// A look has seen that the array failed.
    ArrayFailed = 5,
    /// 2^60 commands were put out, as many requests accepted, or as many rows passed over by turns.
    Exhausted = 6,
    /// No command with this token was taken that isn't answered.
    UnknownToken = 7,
    /// A call is to be made at the register, or its answer isn't told.
    UntoldFirst = 8,
    /// All frames are in use.
    NoFrame = 9,
    /// No row is to be rebuilt, the row of a check or repair is held, or at least three slots are out.
    NothingToDo = 10,
    /// The call isn't the one that was taken last and whose answer isn't told.
    UnknownCall = 11,
    /// Two slots of the snapshot are being replaced, as no register has it.
    TwoReplaced = 12,
}

impl Refusal {
    /// The number of the refusal.
    pub fn number(self) -> u8
        ensures { result ≡ number_of self }
    {
        self as u8
    }

    /// The name of the refusal, as this type has it.
    pub fn name(self) -> &'static str
        ensures { result.now ≡ name_of self }
    {
        match self {
            Refusal::NoSuchBlock => "NoSuchBlock",
            Refusal::WrongShard => "WrongShard",
            Refusal::WrongLength => "WrongLength",
            Refusal::Busy => "Busy",
            Refusal::ArrayFailed => "ArrayFailed",
            Refusal::Exhausted => "Exhausted",
            Refusal::UnknownToken => "UnknownToken",
            Refusal::UntoldFirst => "UntoldFirst",
            Refusal::NoFrame => "NoFrame",
            Refusal::NothingToDo => "NothingToDo",
            Refusal::UnknownCall => "UnknownCall",
            Refusal::TwoReplaced => "TwoReplaced",
        }
    }
}

/// `refused N Name`, with the number and the name.
impl fmt::Display for Refusal {
    ghost use Rattle.std.specs.Prelude.{Some};
    ghost use Rattle.r6_core.specs.Refusals.{refused_text};

    ghost output = { λ refusal. Some (refused_text refusal) };

    fn fmt<W: fmt::Write>(&self, f: &mut fmt::Formatter<W>) -> fmt::Result {
        write!(f, "refused {} {}", self.number(), self.name())
    }
}

/// A refusal, with what was handed in.
#[derive(Drop)]
pub struct Refused<T> {
    pub refusal: Refusal,
    /// As it was.
    pub back: T,
}

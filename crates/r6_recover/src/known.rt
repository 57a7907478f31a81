//! Sets of positions of a row.

ghost use Rattle.std.specs.Prelude.{◌≡◌, ◌<◌, ◌≤◌, true, false, slice_index_or, slice_set, replicate};
ghost use Rattle.r6_recover.specs.Known.{IsMissing, with_missing, lower_of, upper_of};

use std::marker::Model;

/// The most positions of a row.
pub const POSITIONS: usize = 32;

/// A set of positions of a row: those whose blocks are known. Data block `k` has the position `k`; P and Q come behind
/// the data.
#[derive(Clone, Copy, Debug, PartialEq, Eq)]
pub struct Known {
    positions: [bool; POSITIONS],
}

impl Model for Known {
    ghost use Rattle.std.specs.Prelude.{Bool, List, ◌≡◌, length};

    ghost Value = { List Bool };

    ghost view = { λ known. known.positions };

    ghost invariant = { λ known. length known.positions ≡ 32 };

    ghost inverse = { λ positions. record { positions = positions } };
}

impl Known {
    /// The empty set.
    pub fn none() -> Known
        ensures { result ≡ replicate POSITIONS false }
    {
        Known {
            positions: [false; POSITIONS],
        }
    }

    /// Whether the block at a position is known.
    pub fn contains(&self, position: usize) -> bool
        requires { position < POSITIONS }
        ensures { result ≡ slice_index_or self.now position false }
    {
        self.positions[position]
    }

    /// Adds a position.
    pub fn insert(&mut self, position: usize)
        requires { position < POSITIONS }
        ensures { self.new ≡ slice_set self.old position true }
    {
        self.positions[position] = true;
    }
}

/// Error 1 of `restore`: three or more blocks of the row are unknown.
#[derive(Clone, Copy, Debug, PartialEq, Eq)]
pub struct TooManyLost;

impl TooManyLost {
    /// The number of the error, 1.
    pub fn number(self) -> u8
        ensures { result ≡ 1 }
    {
        1
    }
}

/// The positions of a row that aren't known.
#[derive(Clone, Copy, Debug, PartialEq, Eq)]
pub enum Missing {
    None,
    One(usize),
    /// The lower one first.
    Two(usize, usize),
    /// Three or more.
    Many,
}

impl Missing {
    /// With one more position, which comes after these.
    fn with(self, position: usize) -> Missing
        ensures { result ≡ with_missing self position }
    {
        match self {
            Missing::None => Missing::One(position),
            Missing::One(first) => Missing::Two(first, position),
            Missing::Two(_, _) => Missing::Many,
            Missing::Many => Missing::Many,
        }
    }

    /// The only position that is missing, or the lower of two.
    pub fn lower(self) -> Option<usize>
        ensures { result ≡ lower_of self }
    {
        match self {
            Missing::One(position) => Some(position),
            Missing::Two(position, _) => Some(position),
            Missing::None => None,
            Missing::Many => None,
        }
    }

    /// The upper of two.
    pub fn upper(self) -> Option<usize>
        ensures { result ≡ upper_of self }
    {
        match self {
            Missing::Two(_, position) => Some(position),
            Missing::None => None,
            Missing::One(_) => None,
            Missing::Many => None,
        }
    }
}

/// Which of the first `count` positions aren't known.
pub fn missing_among(known: Known, count: usize) -> Missing
    requires { count ≤ POSITIONS }
    ensures { IsMissing known count result }
{
    let mut missing = Missing::None;
    for position in 0..count {
        if !known.contains(position) {
            missing = missing.with(position);
        }
    }
    missing
}

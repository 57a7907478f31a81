//! Sets of positions.

ghost use Rattle.std.specs.Prelude.{◌≡◌, ◌+◌, ◌*◌, ◌/◌, ◌<◌, ◌≤◌, ◌^◌, ◌==◌, ◌&&◌, ◌||◌, ℕ, true, false, length, replicate, sum, IfOk, MatchOption, nat_le, if◌then◌else◌};
ghost use Rattle.std.specs.Int.{bit_at};
ghost use Rattle.r6_waiters.specs.Positions.{has, HasNone, IsLowest, HasNoneFrom, IsLowestFrom};

use std::alloc::{AllocError, Global};
use std::marker::Model;
use std::mem;

/// A set of positions below a limit, which is 64 for each of its words.
#[derive(Drop)]
pub(crate) struct Positions {
    words: Vec<u64>,
}

impl Model for Positions {
    ghost use Rattle.std.specs.Prelude.{ℕ, List, ◌*◌, ◌<◌, ◌^◌, length};
    ghost use Rattle.std.specs.Coded.{coded_list, coded_ℕ};

    ghost Value = { List ℕ };

    ghost coded = { coded_list coded_ℕ };

    ghost view = { λ set. set.words.items };

    ghost invariant = { λ set. 64 * length set.words.items < 2 ^ 64 };
}

impl Positions {
    /// The empty set, with room for the positions below `limit`.
    pub(crate) fn with_room(alloc: Global, limit: usize) -> Result<Self, AllocError>
        requires { limit + 64 < 2 ^ 64 }
        ensures { IfOk result (λ set. set ≡ replicate (limit / 64 + 1) 0) }
    {
        Ok(Positions {
            words: vec![in alloc; 0; limit / 64 + 1]?,
        })
    }

    /// The lowest position of the set.
    pub(crate) fn lowest(&self) -> Option<usize>
        ensures { MatchOption result (HasNone self.now) (IsLowest self.now) }
    {
        for (index, word) in self.words.iter().enumerate() {
            if *word != 0 {
                return Some(64 * index + word.trailing_zeros() as usize);
            }
        }
        None
    }

    /// The lowest position of the set from this one on.
    pub(crate) fn lowest_from(&self, from: usize) -> Option<usize>
        ensures { MatchOption result (HasNoneFrom self.now from) (IsLowestFrom self.now from) }
    {
        for index in from / 64..self.words.len() {
            let part = part_from(self.words[index], index, from);
            if part != 0 {
                return Some(64 * index + part.trailing_zeros() as usize);
            }
        }
        None
    }

    /// Whether the position is in the set.
    pub(crate) fn contains(&self, position: usize) -> bool
        ensures { result ≡ has self.now position }
    {
        match self.words.get(position / 64) {
            Some(word) => word >> (position % 64) & 1 == 1,
            None => false,
        }
    }

    /// Puts the position in.
    pub(crate) fn insert(&mut self, position: usize)
        requires { position < 64 * length self.old }
        ensures has { (i : ℕ) → has self.new i ≡ (if i == position then true else has self.old i) }
        ensures room { length self.new ≡ length self.old }
    {
        self.words[position / 64] |= 1 << (position % 64);
    }

    /// Takes the position out.
    pub(crate) fn remove(&mut self, position: usize)
        requires { has self.old position ≡ true }
        ensures has { (i : ℕ) → has self.new i ≡ (if i == position then false else has self.old i) }
        ensures room { length self.new ≡ length self.old }
        ensures fewer { sum self.new < sum self.old }
    {
        self.words[position / 64] &= !(1 << (position % 64));
    }

    /// Takes all positions out.
    pub(crate) fn clear(&mut self)
        ensures none { HasNone self.new }
        ensures room { length self.new ≡ length self.old }
    {
        for index in 0..self.words.len() {
            self.words[index] = 0;
        }
    }

    /// Moves the positions down by those of so many words, and takes those that are below out.
    pub(crate) fn move_down(&mut self, words: usize)
        requires { words ≤ length self.old }
        ensures has { (i : ℕ) → has self.new i ≡ has self.old (64 * words + i) }
        ensures room { length self.new ≡ length self.old }
    {
        let left = self.words.len() - words;
        for index in 0..left {
            self.words[index] = self.words[index + words];
        }
        for index in left..self.words.len() {
            self.words[index] = 0;
        }
    }

    /// Puts the positions of the other set in, which is empty then.
    pub(crate) fn take_all(&mut self, other: &mut Positions)
        requires { length other.old ≡ length self.old }
        ensures has { (i : ℕ) → has self.new i ≡ (has self.old i || has other.old i) }
        ensures none { HasNone other.new }
        ensures room { length self.new ≡ length self.old }
        ensures other_room { length other.new ≡ length other.old }
    {
        for index in 0..self.words.len() {
            self.words[index] |= mem::replace(&mut other.words[index], 0);
        }
    }
}

// The bits of the set's word of this index that stand for positions from this one on.
fn part_from(word: u64, index: usize, from: usize) -> u64
    requires { from / 64 ≤ index }
    ensures { (i : ℕ) → i < 64
        → (bit_at result i == 1) ≡ (nat_le from (64 * index + i) && (bit_at word i == 1)) }
{
    if index == from / 64 {
        word & (u64::MAX << (from % 64))
    } else {
        word
    }
}

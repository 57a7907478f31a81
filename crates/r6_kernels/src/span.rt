//! P of blocks at two steps that follow each other.

ghost use Rattle.std.specs.Prelude.{◌≡◌, ◌+◌, ◌-◌, ◌<◌, ◌≤◌, ◌++◌, ℕ, List, bit_xor, length, slice_index, take};
ghost use Rattle.std.specs.List.{All};
ghost use Rattle.r6_kernels.specs.Blocks.{p_of, without, AreLongBut};
ghost use Rattle.r6_kernels.specs.Lanes.{IsWrittenBetween, SpanHolds};
ghost use Rattle.r6_kernels.specs.Recovery.{p_lack_of};

use crate::buffer::Buffer;
use crate::lanes::{Lanes, STEP};
use crate::reach::{Reach, Whole};

/// The bytes of a span.
pub(crate) const SPAN: usize = 2 * STEP;

/// Two steps: in the registers that P and Q of one step take, P alone has room for both.
#[derive(Clone, Copy)]
pub(crate) struct Span {
    pub(crate) near: Lanes,
    pub(crate) far: Lanes,
}

impl Span {
    /// Zeros throughout.
    #[inline(always)]
    fn zeros() -> Span
        ensures { (at : ℕ) → SpanHolds result at (λ _. 0) }
    {
        Span {
            near: Lanes::splat(0),
            far: Lanes::splat(0),
        }
    }

    /// The bytes from `at` on.
    #[inline(always)]
    fn load(bytes: &[u8], at: usize) -> Span
        requires { at + 256 ≤ length bytes.now }
        ensures lanes { SpanHolds result at (slice_index bytes.now) }
        // A caller knows of a slice only that it is a list of numbers.
        ensures bytes { All (λ byte. byte < 256) bytes.now }
    {
        Span {
            near: Whole::load(bytes, at),
            far: Whole::load(bytes, at + STEP),
        }
    }

    /// The sums, byte by byte.
    #[inline(always)]
    fn plus(self, other: Span) -> Span
        ensures { (at : ℕ) (f g : ℕ → ℕ) → SpanHolds self at f → SpanHolds other at g
            → SpanHolds result at (λ k. bit_xor (f k) (g k)) }
    {
        Span {
            near: self.near.plus(other.near),
            far: self.far.plus(other.far),
        }
    }

    /// With blocks of `len` bytes before those that this is P of.
    #[inline(always)]
    fn with_all(self, before: &[Buffer], at: usize, len: usize) -> Span
        requires long { All (λ block. length block ≡ len) before.now }
        requires within { at + 256 ≤ len }
        ensures { (blocks : List (List ℕ)) → SpanHolds self at (slice_index (p_of len blocks))
            → All (λ b. length b ≡ len) blocks
            → SpanHolds result at (slice_index (p_of len (before.now ++ blocks))) }
    {
        let mut sum = self;
        for i in (0..before.len()).rev() {
            sum = sum.plus(Span::load(before[i].as_slice(), at));
        }
        sum
    }

    /// Writes the bytes from `at` on.
    #[inline(always)]
    pub(crate) fn store(self, bytes: &mut [u8], at: usize)
        requires { at + 256 ≤ length bytes.old }
        ensures { (f : ℕ → ℕ) → SpanHolds self at f → IsWrittenBetween at (at + 256) f bytes.old bytes.new }
    {
        Whole::store(self.near, bytes, at);
        Whole::store(self.far, bytes, at + STEP);
    }
}

/// What P lacks beside the data without the block `x`. Neither that block nor Q is looked at.
#[inline(always)]
pub(crate) fn p_lack_over(row: &[Buffer], x: usize, at: usize, len: usize) -> Span
    requires within { x + 2 < length row.now }
    requires long { AreLongBut len x (length row.now - 2 + 1) row.now }
    requires inside { at + 256 ≤ len }
    ensures { let others = without len x (take (length row.now - 2) row.now) in
        SpanHolds result at (slice_index (p_lack_of len others row.now)) }
{
    let m = row.len() - 2;
    let sum = p_without(&row[..m], x, at, len);
    sum.plus(Span::load(row[m].as_slice(), at))
}

/// P of the data with zeros in the place `x`.
#[inline(always)]
fn p_without(blocks: &[Buffer], x: usize, at: usize, len: usize) -> Span
    requires within { x < length blocks.now }
    requires long { AreLongBut len x x blocks.now }
    requires inside { at + 256 ≤ len }
    ensures { SpanHolds result at (slice_index (p_of len (without len x blocks.now))) }
{
    Span::zeros()
        .with_all(&blocks[x + 1..], at, len)
        .with_all(&blocks[..x], at, len)
}

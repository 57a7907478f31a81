//! Products of 32 bytes with one constant.

ghost use Rattle.std.specs.Prelude.{slice_index};
ghost use Rattle.r6_field.specs.Field.{product};
ghost use Rattle.r6_field.specs.Lanes.{HasLanes};

use crate::lanes::{at_lower_halves, at_upper_halves, sum};
use std::marker::Model;
use std::simd::prelude::*;

/// The tables of a constant in vectors: made before a loop, they stay in registers.
///
/// In a contract they are the constant.
#[derive(Drop)]
pub struct LaneTables {
    pub(crate) low: u8x32,
    pub(crate) high: u8x32,
}

impl Model for LaneTables {
    ghost use Rattle.std.specs.Prelude.{ℕ};

    ghost Value = { ℕ };

    ghost use Rattle.r6_field.specs.LaneTables.{constant_in_lanes, AreProductsInLanes};

    ghost view = { constant_in_lanes };

    ghost invariant = { AreProductsInLanes };
}

impl LaneTables {
    /// The products of the constant and 32 bytes.
    #[inline(always)]
    pub fn mul_lanes(&self, bytes: u8x32) -> u8x32
        ensures { HasLanes result (λ k. product self.now (slice_index bytes k)) }
    {
        sum(
            at_lower_halves(self.low, bytes),
            at_upper_halves(self.high, bytes),
        )
    }
}

//! The arrays of the tests, and their blocks.

ghost use Rattle.std.specs.Prelude.{◌≡◌, replicate};
ghost use Rattle.r6_layout.specs.Shape.{IsShape};
ghost use Rattle.r6_health.specs.Histories.{start_losing};
ghost use Rattle.r6_health.specs.Passes.{view_of, IsPassOf};
ghost use Rattle.r6_health.specs.Views.{first_of};

use r6_health::{Pass, Register};
use r6_kernels::Buffer;
use r6_layout::Geometry;
use std::alloc::Global;
use std::process::Abort;
use std::sync::Wait;

/// The bytes of a block.
pub(crate) const BLOCK: usize = 16;

pub(crate) const SLOTS: usize = 4;

pub(crate) const ROWS: usize = 4;

/// A block with this byte throughout.
pub(crate) fn filled<R: Abort>(rt: &R, alloc: Global, byte: u8) -> Buffer
    ensures { result ≡ replicate 16 byte }
{
    Buffer::filled(alloc, BLOCK, byte).expect(rt, "memory")
}

/// An array with so many shards.
pub(crate) fn geometry_of<R: Abort>(rt: &R, shards: usize) -> Geometry
    ensures { IsShape result }
{
    Geometry::new(SLOTS, 1, BLOCK, ROWS as u64, shards).expect(rt, "an array")
}

/// The register of an array of which no slot is lost, with its first pass.
pub(crate) fn register_of<R: Wait + Abort>(
    rt: &R,
    alloc: Global,
    geometry: &Geometry,
) -> (Register, Pass)
    ensures pass { IsPassOf result.0 result.1 }
    ensures first { view_of result.1 ≡ first_of (start_losing geometry.now.slots geometry.now.shards 0) }
{
    Register::new(rt, alloc, geometry, 0).expect(rt, "memory")
}

//! The same array, with another number of shards.

ghost use Rattle.std.specs.Prelude.{◌≡◌};
ghost use Rattle.r6_layout.specs.Shape.{IsShape};
ghost use Rattle.r6_verify.specs.Shards.{allowed_shards, with_shards};

use r6_layout::Geometry;

// The most shards that an array has.
const MOST_SHARDS: u64 = 16;

/// The array with the same devices and the same layout whose rows so many shards share, or as many as it may have: at
/// least one, at most 16, and at most one for each chunk row.
pub fn with_shards(geometry: &Geometry, wanted: usize) -> Geometry
    ensures value { result ≡ with_shards geometry.now (allowed_shards geometry.now wanted) }
    ensures limits { IsShape result }
{
    let (slots, chunk, block, rows) = (
        geometry.slots(),
        geometry.chunk(),
        geometry.block(),
        geometry.rows(),
    );
    let most = MOST_SHARDS.min(rows / chunk);
    let shards = (wanted as u64).min(most).max(1) as usize;
    let Ok(shared) = Geometry::new(slots, chunk, block, rows, shards) else {
        unreachable!()
    };
    shared
}

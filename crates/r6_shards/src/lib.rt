//! The shards of an array, each driven by a thread of its own, are one run of it.
#![tactic(auto)]

ghost use Rattle.r6_shards.specs.Shards.{KnownLaw, ShardsLaw};

use r6_shard::Performs;

/// The shards of an array at one register, to whose passes the first pass gave their numbers as names, and of which the
/// calling thread's pass has seen all: from each lawful start from which a course leads to each of them, they are one
/// run of the array, in whatever order their runs are woven.
pub fn shards_law<P: Performs>()
    ensures { ShardsLaw P.Performs }
{}

/// How the calling thread comes to know a shard at last: the shard's pass, which gave no name, learns what the calling
/// thread's has seen and looks once more, as `Shard::learn` does.
pub fn known_law()
    ensures { KnownLaw }
{}

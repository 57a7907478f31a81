//! The courses of all shards, woven into one run of the array.
#![tactic(auto)]

ghost use Rattle.r6_merge.specs.Courses.{CoursesLaw};
ghost use Rattle.r6_merge.specs.Passes.{NoneSinceLaw, PassesLaw};
ghost use Rattle.r6_merge.specs.Scheduling.{OneRunLaw, OwnLaw, ScheduleLaw};
ghost use Rattle.r6_merge.specs.Weaving.{WeaveLaw};

/// The runs of all shards, each beside calls that anyone makes at the register, are one run of the array, in whatever
/// order they are woven in which each change of the register stands once.
pub fn weave_law()
    ensures { WeaveLaw }
{}

/// Where the runs have the same changes of the register, there is such an order.
pub fn schedule_law()
    ensures { ScheduleLaw }
{}

/// In it each shard has done just what it did in its own run, in the same order.
pub fn own_law()
    ensures { OwnLaw }
{}

/// Where each shard has seen a beginning of one list of changes of the register, in which are all changes that it made,
/// there is one run of the array that has all that the shards did.
pub fn one_run_law()
    ensures { OneRunLaw }
{}

/// The courses of all shards of an array at one register, whose passes have names of their own, are one run of the
/// array: the law of the array applies to it, the users of each shard see in it what they saw, and at its end each shard
/// and its parts are as they stand. What is asked is that each course is part of one history of the register, in which
/// every other call may come from outside.
pub fn courses_law()
    ensures { CoursesLaw }
{}

/// So it is of shards by what the passes of the register know: that of the calling thread, which gave each shard's pass
/// its name and made only calls that may come from outside, and that of each shard.
pub fn passes_law()
    ensures { PassesLaw }
{}

/// How the calling thread comes to know that a shard's pass made no call since, nor any pass below it.
pub fn none_since_law()
    ensures { NoneSinceLaw }
{}

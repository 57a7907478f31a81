//! The rule of a queue, and what its ends do.

use crate::ends::Ends;
use crate::rule::Rule;
use crossbeam_queue::protocol::{Join, Lesson, Outcome, Protocol, Split};
use std::marker::{Brand, PhantomData};

// Items go from one writer to one reader, in order, as the rule admits them.
pub(crate) struct Ruled<G> {
    rule: PhantomData<G>,
}

impl<T, K, G: Rule<T, K>> Protocol<T, Ends<T, K>> for Ruled<G> {
    ghost use Rattle.std.specs.Prelude.{true, []};
    ghost use Rattle.r6_queues.specs.Queues.{ends, Relayed};

    ghost holds = { Relayed G.admits };

    ghost first = { ends true true [] [] [] G.start };
}

// One more item is pushed.
pub(crate) struct Pushed;

impl<T, K> Outcome<T, Ends<T, K>> for Pushed {
    ghost use Rattle.std.specs.Prelude.{◌≡◌};
    ghost use Rattle.r6_queues.specs.Queues.{having_pushed};

    ghost then = { λ v x w. w ≡ having_pushed v x };
}

// What the queue holds ends what was pushed, and comes after all that the writer was told of.
impl<T, K> Lesson<T, Ends<T, K>> for Pushed {
    ghost use Rattle.std.specs.Prelude.{◌≡◌, ◌++◌};
    ghost use Rattle.r6_queues.specs.Queues.{StartsWith};

    ghost fact = { λ v items. (front : _) × (v.pushed ≡ front ++ items) × StartsWith front v.acknowledged };
}

// One more item is popped.
pub(crate) struct Popped<G> {
    rule: PhantomData<G>,
}

impl<T, K, G: Rule<T, K>> Outcome<T, Ends<T, K>> for Popped<G> {
    ghost use Rattle.std.specs.Prelude.{◌≡◌};
    ghost use Rattle.r6_queues.specs.Queues.{having_popped};

    ghost then = { λ v x w. (w ≡ having_popped v x) × G.admits w.about w.popped };
}

impl<T, K, G: Rule<T, K>> Lesson<T, Ends<T, K>> for Popped<G> {
    ghost use Rattle.std.specs.Prelude.{⊤};

    ghost fact = { λ v items. ⊤ };
}

// What the writer was told of begins what it pushed.
pub(crate) struct Told;

impl<T, K> Lesson<T, Ends<T, K>> for Told {
    ghost use Rattle.r6_queues.specs.Queues.{StartsWith};

    ghost fact = { λ v items. StartsWith v.pushed v.acknowledged };
}

// An acknowledgement of what was popped is cut off from an end; another end takes it in.
pub(crate) struct Acknowledgement<G> {
    rule: PhantomData<G>,
}

impl<T, K, G: Rule<T, K>> Split<Ends<T, K>> for Acknowledgement<G> {
    ghost use Rattle.r6_queues.specs.Queues.{acknowledgement_of};

    ghost left = { λ v. v };

    ghost right = { acknowledgement_of };
}

impl<T, K, G: Rule<T, K>> Join<Ends<T, K>> for Acknowledgement<G> {
    ghost use Rattle.r6_queues.specs.Queues.{having_heard, stranger};

    ghost both = { having_heard };

    ghost spent = { stranger G.start };
}

// What a queue is about, once its ends are made.
pub(crate) trait About<K> {
    ghost use Rattle.std.specs.Prelude.{Option};

    ghost about: { Option K };
}

impl<K> About<K> for Brand {
    ghost use Rattle.std.specs.Prelude.{None};

    ghost about = { None };
}

// The first pass becomes the writer, and a reader is made.
pub(crate) struct BothEnds<S> {
    subject: PhantomData<S>,
}

impl<T, K, S: About<K>> Split<Ends<T, K>> for BothEnds<S> {
    ghost use Rattle.std.specs.Prelude.{true, false, []};
    ghost use Rattle.r6_queues.specs.Queues.{ends, settled};

    ghost left = { λ v. ends true false [] [] [] (settled v.about S.about) };

    ghost right = { λ v. ends false true [] [] [] (settled v.about S.about) };
}

//! A queue between one writer and one reader.

ghost use Rattle.std.specs.Prelude.{◌≡◌, ◌<◌, ◌++◌, ◌∷◌, [], true, false, Some, IfErr, IfOk, IfSome, MatchOption, MatchResult};
ghost use Rattle.crossbeam_queue.specs.Passes.{view, IsPassOf};
ghost use Rattle.r6_queues.specs.Queues.{ends, having_pushed, having_popped, having_heard, acknowledgement_of, HasPushed, IsRule, StartsWith};
ghost use Rattle.r6_queues.specs.Relays.{IsEndOf, capacity_of};

use crate::ends::Ends;
use crate::moves::{About, Acknowledgement, BothEnds, Popped, Pushed, Ruled, Told};
use crate::rule::Rule;
use crossbeam_queue::{Pass, RuledArrayQueue};
use std::alloc::{AllocError, Global};
use std::marker::Brand;
use std::sync::Wait;

/// An end of a queue, or an acknowledgement. It has no bytes.
pub type End<T, K> = Pass<T, Ends<T, K>>;

type Queue<T, K, G> = RuledArrayQueue<T, Ends<T, K>, Ruled<G>>;

/// A bounded queue between one writer and one reader. It keeps the order of its items, and what passes through it is as
/// the rule admits it.
#[derive(Drop)]
pub struct Relay<T, K, G: Rule<T, K>> {
    queue: Queue<T, K, G>,
}

// The two ends of a queue that is about this.
fn both_ends<T, K, G: Rule<T, K>, S: About<K>>(
    queue: &Queue<T, K, G>,
    first: &mut End<T, K>,
    about: &K,
) -> End<T, K>
    requires queue { IsPassOf queue.now first.old }
    requires first { view first.old ≡ ends true true [] [] [] G.start }
    requires about { S.about ≡ Some about.now }
    requires lawful { IsRule G.admits }
    ensures writer { IsPassOf queue.now first.new × (view first.new ≡ ends true false [] [] [] about.now) }
    ensures reader { IsPassOf queue.now result × (view result ≡ ends false true [] [] [] about.now) }
{
    queue.another::<BothEnds<S>>(first)
}

impl<T, K, G: Rule<T, K>> Relay<T, K, G> {
    /// A queue with room for so many items, with its writer and its reader. It is about what is given here from now on.
    ///
    /// # Errors
    /// `AllocError` where there is no memory for the room.
    pub fn new(
        alloc: Global,
        capacity: usize,
        about: &K,
    ) -> Result<(Relay<T, K, G>, End<T, K>, End<T, K>), AllocError>
        requires room { 0 < capacity }
        requires lawful { IsRule G.admits }
        ensures capacity { IfOk result (λ r. capacity_of r.0 ≡ capacity) }
        ensures writer { IfOk result (λ r. IsEndOf r.0 r.1 × (view r.1 ≡ ends true false [] [] [] about.now)) }
        ensures reader { IfOk result (λ r. IsEndOf r.0 r.2 × (view r.2 ≡ ends false true [] [] [] about.now)) }
    {
        let (queue, mut writer) = Queue::<T, K, G>::ruled(alloc, capacity)?;
        let reader = both_ends::<T, K, G, Brand>(&queue, &mut writer, about);
        Ok((Relay { queue }, writer, reader))
    }

    /// Pushes an item.
    ///
    /// # Errors
    /// The item, where the queue is full: of the items that the writer pushed as many as there is room for are not
    /// acknowledged to it. Nothing changes then.
    pub fn push<R: Wait>(&self, rt: &R, end: &mut End<T, K>, item: T) -> Result<(), T>
        requires end { IsEndOf self.now end.old }
        requires writer { (view end.old).pushes ≡ true }
        requires admitted { G.admits (view end.old).about ((view end.old).pushed ++ item ∷ []) }
        ensures end { IsEndOf self.now end.new }
        ensures pushed { MatchResult result (λ _. view end.new ≡ having_pushed (view end.old) item)
            (λ back. (back ≡ item) × (view end.new ≡ view end.old)) }
        ensures full { IfErr result (λ _. HasPushed (capacity_of self.now) (view end.old)) }
    {
        self.queue.push_as::<Pushed, R>(rt, end, item)
    }

    /// Pops the oldest item; `None` where none is there.
    pub fn pop<R: Wait>(&self, rt: &R, end: &mut End<T, K>) -> Option<T>
        requires end { IsEndOf self.now end.old }
        requires reader { (view end.old).pops ≡ true }
        requires lawful { IsRule G.admits }
        ensures end { IsEndOf self.now end.new }
        ensures popped { MatchOption result (view end.new ≡ view end.old)
            (λ item. view end.new ≡ having_popped (view end.old) item) }
        ensures admitted { IfSome result (λ _. G.admits (view end.new).about (view end.new).popped) }
    {
        self.queue.pop_as::<Popped<G>, R>(rt, end)
    }

    /// Acknowledges what the reader has popped, as far as this end knows.
    pub fn acknowledge(&self, end: &mut End<T, K>) -> End<T, K>
        requires { IsEndOf self.now end.old }
        ensures end { IsEndOf self.now end.new × (view end.new ≡ view end.old) }
        ensures acknowledgement { IsEndOf self.now result × (view result ≡ acknowledgement_of (view end.old)) }
    {
        self.queue.another::<Acknowledgement<G>>(end)
    }

    /// Tells the writer what was acknowledged. It begins what the writer pushed.
    pub fn hear(&self, end: &mut End<T, K>, heard: End<T, K>)
        requires end { IsEndOf self.now end.old }
        requires writer { (view end.old).pushes ≡ true }
        requires acknowledgement { IsEndOf self.now heard }
        ensures end { IsEndOf self.now end.new }
        ensures heard { view end.new ≡ having_heard (view end.old) (view heard) }
        ensures begins { StartsWith (view end.new).pushed (view end.new).acknowledged }
    {
        self.queue.absorb::<Acknowledgement<G>>(end, heard);
        self.queue.learn_as::<Told>(end);
    }
}

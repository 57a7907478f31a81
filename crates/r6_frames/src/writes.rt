//! The writes that one hold serves.

ghost use Rattle.std.specs.Prelude.{◌≡◌, ◌<◌, ◌∷◌, [], false, length, IfOk, IsTrue, MatchOption, ◌↔◌};
ghost use Rattle.r6_stripe.specs.BatchLists.{AreDistinct};
ghost use Rattle.r6_frames.specs.Writes.{Entry, blocks_in, entries_of, has_index, request_of, served_in};

use crate::frames::ServedRequest;
use r6_kernels::Buffer;
use r6_stripe::Batch;
use r6_world::{Op, Request};
use std::alloc::{AllocError, Global};
use std::marker::Model;

/// As many writes as one hold serves at most: one of each index.
const MOST_WRITES: usize = 32;

/// The requests of the writes that one hold serves, of which the one that was put on last is taken first.
///
/// No call but [`ServedStack::new`] takes memory.
#[derive(Drop)]
pub struct ServedStack {
    items: Vec<ServedRequest>,
}

impl Model for ServedStack {
    ghost use Rattle.std.specs.Prelude.{List};
    ghost use Rattle.r6_frames.specs.declared.frames.ServedRequest.{ServedRequest};

    ghost Value = { List ServedRequest };

    ghost use Rattle.r6_frames.specs.WritesInside.{served_of, HasRoomForAll};

    ghost view = { served_of };

    ghost invariant = { HasRoomForAll };
}

impl ServedStack {
    fn new(alloc: Global) -> Result<ServedStack, AllocError>
        ensures { IfOk result (λ stack. stack ≡ []) }
    {
        Ok(ServedStack {
            items: Vec::with_capacity(alloc, MOST_WRITES)?,
        })
    }

    fn push(&mut self, served: ServedRequest)
        requires { length self.old < 32 }
        ensures { self.new ≡ served ∷ self.old }
    {
        self.items.push_reserved(served);
    }

    fn pop(&mut self) -> Option<ServedRequest>
        ensures { MatchOption result ((self.old ≡ []) × (self.new ≡ [])) (λ top. self.old ≡ top ∷ self.new) }
    {
        self.items.pop()
    }
}

/// Writes of blocks of one row, of each index at most one, each with its request. There is room for all.
///
/// No call but [`Writes::new`] takes memory.
#[derive(Drop)]
pub struct Writes {
    /// The requests of the blocks in the batch, side by side.
    served: ServedStack,
    batch: Batch,
}

impl Model for Writes {
    ghost use Rattle.std.specs.Prelude.{List};
    ghost use Rattle.r6_frames.specs.Writes.{Entry};

    ghost Value = { List Entry };

    ghost use Rattle.r6_frames.specs.WritesInside.{writes_of, AreWritesInside};

    ghost view = { writes_of };

    ghost invariant = { AreWritesInside };
}

impl Writes {
    /// No writes.
    ///
    /// # Errors
    /// `AllocError` where there is no memory for their places.
    pub fn new(alloc: Global) -> Result<Writes, AllocError>
        ensures { IfOk result (λ writes. writes ≡ []) }
    {
        Ok(Writes {
            served: ServedStack::new(alloc)?,
            batch: Batch::new(alloc)?,
        })
    }

    /// Puts in a write of the block at the index of the row, with its new data.
    pub fn put(&mut self, index: usize, served: ServedRequest, buffer: Buffer)
        requires index { index < 32 }
        requires new { has_index self.old index ≡ false }
        ensures { self.new ≡ (record { served = served; index = index; new_data = buffer }) ∷ self.old }
    {
        self.batch.put(index, buffer);
        self.served.push(served);
    }

    /// Takes out the request that was put in last, with its new data in its buffer.
    pub fn take(&mut self) -> Option<Request>
        ensures { MatchOption result ((self.old ≡ []) × (self.new ≡ []))
            (λ request. (write : Entry) × (self.old ≡ write ∷ self.new) × (request ≡ request_of write)) }
    {
        let (_, buffer) = self.batch.take()?;
        let ServedRequest { id, block } = self.served.pop()?;
        let op = Op::Write(block, buffer);
        Some(Request { id, op })
    }

    /// Whether there is a write of the block at the index.
    pub fn has(&self, index: usize) -> bool
        ensures { result ≡ has_index self.now index }
    {
        self.batch.has(index)
    }

    /// Whether there is none.
    pub fn is_empty(&self) -> bool
        ensures { IsTrue result ↔ (self.now ≡ []) }
    {
        self.batch.is_empty()
    }

    /// The requests, and the new blocks, side by side.
    pub fn into_parts(self) -> (ServedStack, Batch)
        ensures served { result.0 ≡ served_in self }
        ensures blocks { result.1 ≡ record { blocks = blocks_in self } }
        ensures distinct { AreDistinct (blocks_in self) }
    {
        (self.served, self.batch)
    }

    /// The writes whose requests and new blocks these are.
    pub(crate) fn from_parts(served: ServedStack, batch: Batch) -> Writes
        requires side_by_side { length served ≡ length batch.blocks }
        requires distinct { AreDistinct batch.blocks }
        ensures { result ≡ entries_of served batch.blocks }
    {
        Writes { served, batch }
    }
}

//! What a shard's workers hand back.

ghost use Rattle.std.specs.Prelude.{◌≡◌, ◌≤◌, ◌+◌, ◌++◌, [], length, vec_capacity, IfOk};
ghost use Rattle.r6_engine.specs.joining.Crews.{own_parts, stray_parts, all_parts};

use r6_exchange::{Part, ServedPart};
use std::alloc::{AllocError, Global};

/// What a shard's workers hand back.
#[derive(Drop)]
pub struct Back<D> {
    /// At most one for a slot and generation that a worker serves.
    pub parts: Vec<Part<D>>,
    /// Those whose place a later part took.
    pub others: Vec<Part<D>>,
}

impl<D: Drop> Back<D> {
    /// Nothing yet, with room for so many of either kind.
    ///
    /// # Errors
    /// `AllocError` where there is no memory for the room.
    pub fn with_capacity(alloc: Global, room: usize) -> Result<Back<D>, AllocError>
        ensures empty { IfOk result (λ back. (back.parts.items ≡ []) × (back.others.items ≡ [])) }
        ensures room { IfOk result (λ back. (room ≤ vec_capacity back.parts) × (room ≤ vec_capacity back.others)) }
    {
        let parts = Vec::with_capacity(alloc, room)?;
        let others = Vec::with_capacity(alloc, room)?;
        Ok(Back { parts, others })
    }

    // Takes the parts of a worker. One of a slot that this worker doesn't serve is not among those that commands went to.
    pub(crate) fn sort_in(&mut self, workers: usize, worker: usize, parts: Vec<ServedPart<D>>)
        requires some { 1 ≤ workers }
        requires room { (length self.old.parts.items + length parts.items ≤ vec_capacity self.old.parts)
            × (length self.old.others.items + length parts.items ≤ vec_capacity self.old.others) }
        ensures parts { self.new.parts.items ≡ self.old.parts.items ++ own_parts workers worker parts.items }
        ensures others { self.new.others.items ≡ self.old.others.items ++ stray_parts workers worker parts.items }
        ensures room { (vec_capacity self.new.parts ≡ vec_capacity self.old.parts)
            × (vec_capacity self.new.others ≡ vec_capacity self.old.others) }
    {
        for served in parts {
            if served.part.slot % workers == worker {
                self.parts.push_reserved(served.part);
            } else {
                self.others.push_reserved(served.part);
            }
        }
    }

    // Takes the parts whose place another took.
    pub(crate) fn set_aside(&mut self, replaced: Vec<ServedPart<D>>)
        requires { length self.old.others.items + length replaced.items ≤ vec_capacity self.old.others }
        ensures parts { self.new.parts ≡ self.old.parts }
        ensures others { self.new.others.items ≡ self.old.others.items ++ all_parts replaced.items }
        ensures room { vec_capacity self.new.others ≡ vec_capacity self.old.others }
    {
        for served in replaced {
            self.others.push_reserved(served.part);
        }
    }
}

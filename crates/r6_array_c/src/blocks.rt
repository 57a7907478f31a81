//! The blocks that are on their way to the program and back.

ghost use Rattle.std.specs.Prelude.{◌≡◌, [], length, All, IfOk, MatchOption, vec_capacity};
ghost use Rattle.r6_world.specs.Values.{buffer_of};
ghost use Rattle.r6_array_c.specs.Blocks.{AreMadeBlocks, KeepsLengths, MakesRequest, kept, spared};
ghost use Rattle.r6_array_c.specs.Numbers.{reply_block, reply_number};
ghost use Rattle.r6_array_c.specs.Questions.{KeepsAsked};

use crate::handle::Mail;
use r6_core::{Op, Reply};
use r6_kernels::Buffer;
use std::alloc::{AllocError, Global};
use std::marker::Model;

/// The blocks of an array, or of a shard, that aren't in it. All have one length.
#[derive(Drop)]
pub(crate) struct Blocks {
    /// For the requests to come.
    spare: Vec<Buffer>,
    /// The block of the next write.
    stage: Vec<u8>,
    /// The block of the last reply.
    answered: Vec<u8>,
}

impl Model for Blocks {
    ghost use Rattle.std.specs.Prelude.{vec_capacity};
    ghost use Rattle.std.specs.Vec.{vec_ptr};
    ghost use Rattle.r6_array_c.specs.Blocks.{BlocksView, AreOneLength};

    ghost Value = { BlocksView };

    ghost view = { λ b. record { spare = b.spare.items; most = vec_capacity b.spare; stage = b.stage.items; stage_at = vec_ptr b.stage; answered = b.answered.items; answered_at = vec_ptr b.answered } };

    ghost invariant = { λ b. AreOneLength b.spare.items b.stage.items b.answered.items };
}

impl Blocks {
    /// So many spare buffers, and the two blocks of the program. The only error is want of memory.
    pub(crate) fn new(alloc: Global, count: usize, bytes: usize) -> Result<Blocks, AllocError>
        ensures { IfOk result (AreMadeBlocks count bytes) }
    {
        Ok(Blocks {
            spare: spare_of(alloc, count, bytes)?,
            stage: vec![in alloc; 0u8; bytes]?,
            answered: vec![in alloc; 0u8; bytes]?,
        })
    }

    /// A request of the program, with a spare buffer: a write of what stands in the stage, or a read.
    pub(crate) fn request(&mut self, block: u64, is_write: bool) -> Option<Op>
        ensures { MatchOption result
            ((self.old.spare ≡ []) × (self.new ≡ self.old))
            (λ op. MakesRequest self.old block is_write op self.new) }
    {
        let mut buffer = self.spare.pop()?;
        if !is_write {
            return Some(Op::Read(block, buffer));
        }
        buffer.swap_with_vec(&mut self.stage);
        Some(Op::Write(block, buffer))
    }

    /// A buffer is spare again, if it has the length and there is room for it.
    pub(crate) fn keep(&mut self, buffer: Buffer)
        ensures { self.new ≡ kept self.old buffer }
    {
        if buffer.len() == self.stage.len() && self.spare.len() < self.spare.capacity() {
            self.spare.push_reserved(buffer);
        }
    }

    /// A reply is told: its name, its kind, and its block, which is lent until the next one.
    pub(crate) fn tell(&mut self, name: u64, reply: Reply, mail: &mut Mail)
        ensures told { (mail.new.name ≡ name) × (mail.new.kind ≡ reply_number reply) }
        ensures block { length (reply_block reply) ≡ length self.old.stage
            → self.new ≡ spared (record self.old { answered = reply_block reply; answered_at = mail.new.bytes }) self.old.answered }
        ensures lengths { KeepsLengths self.old self.new }
        ensures asked { KeepsAsked mail.old mail.new }
    {
        let (kind, mut buffer) = told(reply);
        exchange(&mut buffer, &mut self.answered);
        self.keep(buffer);
        mail.bytes = self.answered.as_mut_ptr();
        mail.kind = kind;
        mail.name = name;
    }

    /// Where the program writes the block of its next write. It does so between two calls, while nothing borrows it.
    pub(crate) fn stage_at(&self) -> *mut u8
        ensures { result ≡ self.now.stage_at }
    {
        self.stage.as_ptr().cast_mut()
    }
}

// So many buffers, with room for no more.
fn spare_of(alloc: Global, count: usize, bytes: usize) -> Result<Vec<Buffer>, AllocError>
    ensures count { IfOk result (λ made. (length made.items ≡ count) × (vec_capacity made ≡ count)) }
    ensures buffers { IfOk result (λ made. All (λ buffer. length buffer ≡ bytes) made.items) }
{
    let mut spare = Vec::with_capacity(alloc, count)?;
    for _ in 0..count {
        spare.push_reserved(Buffer::new(alloc, bytes)?);
    }
    Ok(spare)
}

// A reply's number, and its block.
fn told(reply: Reply) -> (u32, Buffer)
    ensures number { result.0 ≡ reply_number reply }
    ensures block { result.1 ≡ reply_block reply }
{
    match reply {
        Reply::Data(buffer) => (0, buffer),
        Reply::Done(buffer) => (1, buffer),
        Reply::ArrayFailed(buffer) => (2, buffer),
    }
}

pub(crate) fn buffer_of(op: Op) -> Buffer
    ensures { result ≡ buffer_of op }
{
    match op {
        Op::Read(_, buffer) | Op::Write(_, buffer) => buffer,
    }
}

// A buffer and a vector exchange their bytes, of which both have as many.
fn exchange(buffer: &mut Buffer, bytes: &mut Vec<u8>)
    ensures taken { length buffer.old ≡ length bytes.old.items → buffer.new ≡ bytes.old.items }
    ensures given { length buffer.old ≡ length bytes.old.items → bytes.new.items ≡ buffer.old }
    ensures buffer { length buffer.new ≡ length buffer.old }
    ensures bytes { length bytes.new.items ≡ length bytes.old.items }
{
    if bytes.len() == buffer.len() {
        buffer.swap_with_vec(bytes);
    }
}

//! The direct buffers, and which of them a read can have.

ghost use Rattle.std.specs.Prelude.{◌≡◌, ◌<◌, ℕ, true, false, length, replicate, slice_set, option_copied, Some, IfOk, MatchOption};
ghost use Rattle.r6_world.specs.ShardStates.{direct_buffers};
ghost use Rattle.r6_frames.specs.Directs.{direct_at, is_free_direct, left_by, lent_for, returned, unused};

use crate::directs::{DIRECTS, Direct, DirectRead};
use r6_bits::{lowest, with_bit};
use r6_kernels::Buffer;
use std::alloc::{AllocError, Global};
use std::marker::Model;
use std::mem;

/// The direct buffers.
#[derive(Drop)]
pub(crate) struct Pool {
    buffers: Vec<Direct>,
    // bit i: a read can have the buffer of number i
    free: u64,
}

impl Model for Pool {
    ghost use Rattle.std.specs.Prelude.{List};
    ghost use Rattle.std.specs.Coded.{codes};
    ghost use Rattle.r6_frames.specs.declared.directs.Direct.{Direct};

    ghost Value = { List Direct };

    ghost coded = { Prim.hlevel (codes) };

    ghost view = { λ pool. pool.buffers.items };

    ghost use Rattle.r6_frames.specs.Pool.{IsPool};

    ghost invariant = { λ pool. IsPool pool.free pool.buffers.items };
}

impl Pool {
    /// Buffers of the length that no read has.
    pub(crate) fn new(alloc: Global, block: usize) -> Result<Pool, AllocError>
        ensures { IfOk result (λ pool. pool ≡ replicate direct_buffers (unused block)) }
    {
        Ok(Pool {
            buffers: unused_buffers(alloc, block)?,
            free: u64::MAX,
        })
    }

    /// How many there are.
    pub(crate) fn len(&self) -> usize
        ensures { result ≡ length self.now }
    {
        self.buffers.len()
    }

    /// The lowest number of a buffer that a read can have.
    pub(crate) fn lowest_free(&self) -> Option<usize>
        ensures { MatchOption result
            ((number : ℕ) → is_free_direct (direct_at self.now number) ≡ false)
            (λ number. (number < direct_buffers) × (is_free_direct (direct_at self.now number) ≡ true)) }
    {
        lowest(self.free)
    }

    /// The read that has the buffer.
    pub(crate) fn read(&self, number: usize) -> Option<&DirectRead>
        requires { number < length self.now }
        ensures { option_copied result ≡ (direct_at self.now number).read }
    {
        self.buffers[number].read.as_ref()
    }

    /// The buffer is home.
    pub(crate) fn bring_back(&mut self, number: usize, buffer: Buffer)
        requires { number < length self.old }
        ensures { self.new ≡ slice_set self.old number (returned (direct_at self.old number) buffer) }
    {
        let is_free = self.buffers[number].read.is_none();
        self.buffers[number].buffer = Some(buffer);
        self.free = with_bit(self.free, number, is_free);
    }

    /// The buffer is lent for the read.
    pub(crate) fn lend(&mut self, number: usize, read: DirectRead) -> Option<Buffer>
        requires { number < length self.old }
        ensures buffer { result ≡ (direct_at self.old number).buffer }
        ensures lent { self.new ≡ slice_set self.old number (lent_for read) }
    {
        let lent = Direct {
            read: Some(read),
            buffer: None,
        };
        self.free = with_bit(self.free, number, false);
        mem::replace(&mut self.buffers[number], lent).buffer
    }

    /// The read that has the buffer has it no more.
    pub(crate) fn take_read(&mut self, number: usize) -> DirectRead
        requires { (read : DirectRead) × ((direct_at self.old number).read ≡ Some read) }
        ensures read { (direct_at self.old number).read ≡ Some result }
        ensures left { self.new ≡ slice_set self.old number (left_by (direct_at self.old number)) }
    {
        let is_free = self.buffers[number].buffer.is_some();
        self.free = with_bit(self.free, number, is_free);
        let Some(read) = self.buffers[number].read.take() else {
            unreachable!()
        };
        read
    }
}

// Buffers of the length that no read has.
fn unused_buffers(alloc: Global, block: usize) -> Result<Vec<Direct>, AllocError>
    ensures { IfOk result (λ buffers. buffers.items ≡ replicate direct_buffers (unused block)) }
{
    let mut buffers = Vec::with_capacity(alloc, DIRECTS)?;
    for _ in 0..DIRECTS {
        let buffer = Buffer::new(alloc, block)?;
        buffers.push_reserved(Direct {
            read: None,
            buffer: Some(buffer),
        });
    }
    Ok(buffers)
}

//! The values that a shard is handed and hands out: requests, commands, what becomes of them, and replies.

ghost use Rattle.std.specs.Prelude.{◌≡◌};
ghost use Rattle.r6_world.specs.PlainArray.{block_of};
ghost use Rattle.r6_world.specs.Values.{op_of, buffer_of};

use r6_kernels::Buffer;
use std::fmt;

/// What is asked of a shard, with the caller's buffer of one block.
#[derive(Drop)]
pub enum Op {
    /// Reads the block of this number.
    Read(u64, Buffer),
    /// Writes the buffer's bytes to the block of this number.
    Write(u64, Buffer),
}

impl Op {
    /// The number of the block.
    pub fn block(&self) -> u64
        ensures { result ≡ block_of (op_of self.now) }
    {
        match self {
            Op::Read(block, _) => *block,
            Op::Write(block, _) => *block,
        }
    }

    /// The caller's buffer.
    pub fn buffer(&self) -> &Buffer
        ensures { result.now ≡ buffer_of self.now }
    {
        match self {
            Op::Read(_, buffer) => buffer,
            Op::Write(_, buffer) => buffer,
        }
    }
}

/// A request that was accepted, with its number.
#[derive(Drop)]
pub struct Request {
    pub id: u64,
    pub op: Op,
}

/// The number of a request in its shard: 0, 1, 2 .. in the order in which they are accepted.
#[derive(Clone, Copy, PartialEq, Eq, Debug)]
pub struct OpId(pub u64);

/// The answer to a request, with a buffer of one block for the one that came with it.
#[derive(Drop)]
pub enum Reply {
    /// A read's block, in the caller's buffer or, of a read that held no row, in the one that its device filled.
    Data(Buffer),
    /// A write was done; the buffer is as it was handed in.
    Done(Buffer),
    /// The array has failed; a read's buffer has any bytes.
    ArrayFailed(Buffer),
}

/// `data` and the block, `done` or `failed`.
impl fmt::Display for Reply {
    ghost use Rattle.std.specs.Prelude.{Some};
    ghost use Rattle.r6_world.specs.Values.{reply_text};

    ghost output = { λ reply. Some (reply_text reply) };

    fn fmt<W: fmt::Write>(&self, f: &mut fmt::Formatter<W>) -> fmt::Result {
        match self {
            Reply::Data(buffer) => write!(f, "data {buffer}"),
            Reply::Done(_) => write!(f, "done"),
            Reply::ArrayFailed(_) => write!(f, "failed"),
        }
    }
}

/// What a command does.
#[derive(Clone, Copy, PartialEq, Eq, Debug)]
pub enum CommandKind {
    /// The row's block is read into the buffer.
    Read,
    /// The buffer's bytes are written as the row's block.
    Write,
}

/// A command for the device that a slot has with this generation.
#[derive(Drop)]
pub struct Command {
    /// 0, 1, 2 .. in the order in which a shard puts commands out.
    pub token: u64,
    pub slot: usize,
    pub row: u64,
    /// One block.
    pub buffer: Buffer,
    pub generation: u32,
    pub kind: CommandKind,
}

/// How a device failed.
#[derive(Clone, Copy, PartialEq, Eq, Debug)]
pub enum FaultKind {
    /// A block couldn't be read.
    ReadFault,
    /// A block couldn't be written.
    WriteFault,
    /// The device is there no more.
    Gone,
    /// The device hasn't the row, or blocks of another length.
    Length,
}

/// A command that a device didn't perform, with the command's buffer.
#[derive(Drop)]
pub struct DeviceFault {
    /// A `ReadFault` of the first read of a block loses nothing: the block is written anew and read again. Every other
    /// fault takes the slot out.
    pub kind: FaultKind,
    /// Of the block's length; its bytes don't matter.
    pub buffer: Buffer,
}

/// What became of a completion.
#[derive(Clone, Copy, PartialEq, Eq, Debug)]
pub enum Receipt {
    /// It was the answer that a hold waited for.
    Taken,
    /// Its command had been abandoned: it only brought its buffer home.
    Late,
}

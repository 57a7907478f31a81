//! Blocks in which each byte is x times the one before it. The sums of a row keep that rule: what comes out of such
//! blocks is known by its first bytes, and a byte at a wrong place is seen.

ghost use Rattle.std.specs.Prelude.{◌≡◌, length, IfOk};
ghost use Rattle.std.specs.List.{All};

use r6_kernels::Buffer;
use std::alloc::{AllocError, Global};

/// Lengths around those of a vector and of a step, of which the sums go whole steps and one part.
pub(crate) const LENGTHS: &[usize] = &[
    0, 1, 31, 32, 33, 48, 64, 80, 127, 128, 129, 159, 255, 256, 257, 4096,
];

/// x times an element, by the field's definition: a carry out of x^7 adds x^8 + x^4 + x^3 + x^2 + 1.
fn doubled(element: u8) -> u8 {
    let shifted = u16::from(element) << 1;
    let reduced = if shifted > 0xff {
        shifted ^ 0x11d
    } else {
        shifted
    };
    (reduced & 0xff) as u8
}

/// A block of a length that begins with a byte.
pub(crate) fn grown(alloc: Global, len: usize, first: u8) -> Result<Buffer, AllocError>
    ensures { IfOk result (λ block. length block ≡ len) }
{
    let mut bytes = vec![in alloc; first; len]?;
    let mut byte = first;
    for place in bytes.iter_mut() {
        *place = byte;
        byte = doubled(byte);
    }
    let mut block = Buffer::new(alloc, len)?;
    if bytes.len() == block.len() {
        block.copy_from_slice(bytes.as_slice());
    }
    Ok(block)
}

/// Two blocks of a length that begin with these bytes.
pub(crate) fn two(
    alloc: Global,
    len: usize,
    firsts: (u8, u8),
) -> Result<(Buffer, Buffer), AllocError>
    ensures { IfOk result (λ two. (length two.0 ≡ len) × (length two.1 ≡ len)) }
{
    Ok((grown(alloc, len, firsts.0)?, grown(alloc, len, firsts.1)?))
}

/// Whether a block begins with a byte.
pub(crate) fn is_grown(block: &Buffer, first: u8) -> bool {
    let mut byte = first;
    for found in block.as_slice() {
        if *found != byte {
            return false;
        }
        byte = doubled(byte);
    }
    true
}

/// Blocks of a length that begin with these bytes.
pub(crate) fn blocks_of(alloc: Global, len: usize, firsts: &[u8]) -> Result<Vec<Buffer>, AllocError>
    ensures { IfOk result (λ blocks. All (λ block. length block ≡ len) blocks.items) }
{
    let mut blocks = Vec::new(alloc);
    for first in firsts {
        blocks.push(grown(alloc, len, *first)?)?;
    }
    Ok(blocks)
}

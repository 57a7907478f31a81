//! The two parity blocks of a row, computed anew.

ghost use Rattle.std.specs.Prelude.{◌≡◌, ◌≤◌, length};
ghost use Rattle.std.specs.List.{All};
ghost use Rattle.r6_recover.specs.Rows.{block_length, data_of, row_of};

use r6_kernels::{Buffer, parity};

/// P and Q from the data, into their own buffers.
pub fn rewrite_parity(blocks: &mut [Buffer])
    requires count { 2 ≤ length blocks.old }
    requires long { All (λ block. length block ≡ block_length blocks.old) blocks.old }
    ensures row { blocks.new ≡ row_of (block_length blocks.old) (data_of blocks.old) }
    ensures long { All (λ block. length block ≡ block_length blocks.old) blocks.new }
{
    let m = blocks.len() - 2;
    let (data_blocks, parities) = blocks.split_at_mut(m);
    let (p, q) = parities.split_at_mut(1);
    parity(data_blocks, &mut p[0], &mut q[0]);
}

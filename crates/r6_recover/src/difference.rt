//! How the P and Q of a row differ from those of its data, byte by byte, or by whole blocks where there is room for them.

ghost use Rattle.std.specs.Prelude.{◌≡◌, ◌≢◌, ◌<◌, ◌≤◌, ◌↔◌, length, slice_index, IsTrue, MatchOption};
ghost use Rattle.std.specs.List.{All};
ghost use Rattle.r6_kernels.specs.Blocks.{scale};
ghost use Rattle.r6_recover.specs.Rows.{block_length};
ghost use Rattle.r6_recover.specs.Classes.{p_difference, q_difference, IsZero, IsWrongAt};

use r6_field::{ConstMul, Gf};
use r6_kernels::{Buffer, parity, scale_add, xor_into};

/// One byte of P*: the stored P and the P of the data, added.
fn p_difference_at(blocks: &[Buffer], at: usize) -> u8
    requires count { 2 ≤ length blocks.now }
    requires long { All (λ block. length block ≡ block_length blocks.now) blocks.now }
    requires within { at < block_length blocks.now }
    ensures { result ≡ slice_index (p_difference blocks.now) at }
{
    let m = blocks.len() - 2;
    let data_blocks = &blocks[..m];
    let mut p = 0;
    for block in data_blocks {
        p ^= block.as_slice()[at];
    }
    p ^ blocks[m].as_slice()[at]
}

/// One byte of Q*: the stored Q and the Q of the data, added.
fn q_difference_at(blocks: &[Buffer], at: usize) -> u8
    requires count { 2 ≤ length blocks.now }
    requires long { All (λ block. length block ≡ block_length blocks.now) blocks.now }
    requires within { at < block_length blocks.now }
    ensures { result ≡ slice_index (q_difference blocks.now) at }
{
    let m = blocks.len() - 2;
    let data_blocks = &blocks[..m];
    let mut q = 0;
    for (i, block) in data_blocks.iter().enumerate() {
        let product = Gf::exp((i % 255) as u32) * Gf(block.as_slice()[at]);
        q ^= product.0;
    }
    q ^ blocks[m + 1].as_slice()[at]
}

/// Whether the stored P is that of the data.
pub(crate) fn is_p_right(blocks: &[Buffer]) -> bool
    requires count { 2 ≤ length blocks.now }
    requires long { All (λ block. length block ≡ block_length blocks.now) blocks.now }
    ensures { IsTrue result ↔ IsZero (p_difference blocks.now) }
{
    let len = blocks[0].len();
    for at in 0..len {
        if p_difference_at(blocks, at) != 0 {
            return false;
        }
    }
    true
}

/// Whether the stored Q is that of the data.
pub(crate) fn is_q_right(blocks: &[Buffer]) -> bool
    requires count { 2 ≤ length blocks.now }
    requires long { All (λ block. length block ≡ block_length blocks.now) blocks.now }
    ensures { IsTrue result ↔ IsZero (q_difference blocks.now) }
{
    let len = blocks[0].len();
    for at in 0..len {
        if q_difference_at(blocks, at) != 0 {
            return false;
        }
    }
    true
}

/// Whether P and Q differ as a wrong data block `z` makes them differ.
pub(crate) fn is_wrong_at(blocks: &[Buffer], z: usize) -> bool
    requires count { 2 ≤ length blocks.now }
    requires long { All (λ block. length block ≡ block_length blocks.now) blocks.now }
    ensures { IsTrue result ↔ IsWrongAt blocks.now z }
{
    let factor = Gf::exp((z % 255) as u32);
    let len = blocks[0].len();
    for at in 0..len {
        let p = p_difference_at(blocks, at);
        let q = q_difference_at(blocks, at);
        if q != (factor * Gf(p)).0 {
            return false;
        }
    }
    true
}

/// P* and Q*, into two buffers.
pub(crate) fn write_differences(blocks: &[Buffer], p: &mut Buffer, q: &mut Buffer)
    requires count { 2 ≤ length blocks.now }
    requires long { All (λ block. length block ≡ length p.old) blocks.now }
    requires same { length q.old ≡ length p.old }
    ensures p { p.new ≡ p_difference blocks.now }
    ensures q { q.new ≡ q_difference blocks.now }
    ensures p_length { length p.new ≡ length p.old }
    ensures q_length { length q.new ≡ length q.old }
{
    let m = blocks.len() - 2;
    parity(&blocks[..m], p, q);
    xor_into(p, &blocks[m]);
    xor_into(q, &blocks[m + 1]);
}

/// Where the first byte is that isn't zero.
pub(crate) fn first_set(block: &Buffer) -> Option<usize>
    ensures { MatchOption result (IsZero block.now)
        (λ at. (at < length block.now) × (slice_index block.now at ≢ 0)) }
{
    let bytes = block.as_slice();
    for at in 0..bytes.len() {
        if bytes[at] != 0 {
            return Some(at);
        }
    }
    None
}

/// Whether `q` is so many times `p`. It is added to, and back.
pub(crate) fn is_multiple(q: &mut Buffer, p: &Buffer, constant: Gf) -> bool
    requires { length q.old ≡ length p.now }
    ensures multiple { IsTrue result ↔ (q.old ≡ scale constant.0 p.now) }
    ensures kept { q.new ≡ q.old }
{
    let factor = ConstMul::new(constant);
    scale_add(q, p, &factor);
    let is_zero = first_set(q).is_none();
    scale_add(q, p, &factor);
    is_zero
}

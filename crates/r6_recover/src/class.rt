//! The class of a row.

ghost use Rattle.std.specs.Prelude.{◌≡◌, ◌≢◌, ℕ, ◌<◌, ◌≤◌, length, MatchOption};
ghost use Rattle.std.specs.List.{All};
ghost use Rattle.r6_field.specs.Field.{power, generator};
ghost use Rattle.r6_kernels.specs.Blocks.{scale};
ghost use Rattle.r6_recover.specs.Rows.{block_length};
ghost use Rattle.r6_recover.specs.Classes.{HasClass, NamesWrongBlock};

use crate::difference::{
    first_set, is_multiple, is_p_right, is_q_right, is_wrong_at, write_differences,
};
use crate::row::RowBuf;
use r6_field::Gf;
use r6_kernels::{Buffer, has_right_parities};

/// How the P and Q of a row differ from those of its data.
#[derive(Clone, Copy, Debug, PartialEq, Eq)]
pub enum RowClass {
    /// They are those of the data: the row is full.
    Consistent,
    /// P alone differs.
    WrongP,
    /// Q alone differs.
    WrongQ,
    /// Both differ, as they do where the data block with this index is wrong.
    WrongData(usize),
    /// Both differ, as no single wrong block makes them.
    Many,
}

/// The class of the row in these blocks.
pub fn class_of(blocks: &[Buffer]) -> RowClass
    requires count { 2 ≤ length blocks.now }
    requires long { All (λ block. length block ≡ block_length blocks.now) blocks.now }
    ensures { HasClass blocks.now result }
{
    if has_right_parities(blocks) {
        return RowClass::Consistent;
    }
    if is_q_right(blocks) {
        return RowClass::WrongP;
    }
    if is_p_right(blocks) {
        return RowClass::WrongQ;
    }
    let m = blocks.len() - 2;
    for z in 0..m {
        if is_wrong_at(blocks, z) {
            return RowClass::WrongData(z);
        }
    }
    RowClass::Many
}

// The first of `m` data blocks that is wrong if `q` is that power of the generator times `p`. The bytes at one place tell
// of nearly all that they aren't.
#[tactic(auto, using(crate::proofs::DifferenceLaws::not_multiple))]
fn wrong_block(p: &Buffer, q: &mut Buffer, m: usize, at: usize) -> Option<usize>
    requires few { m ≤ 255 }
    requires same { length q.old ≡ length p.now }
    requires within { at < length p.now }
    ensures found { MatchOption result
        ((z : ℕ) → z < m → q.old ≢ scale (power generator z) p.now)
        (λ z. (z < m) × (q.old ≡ scale (power generator z) p.now)) }
    ensures kept { q.new ≡ q.old }
{
    for index in 0..m {
        let factor = Gf::exp(index as u32);
        let multiple = factor * Gf(p.as_slice()[at]);
        if q.as_slice()[at] == multiple.0 && is_multiple(q, p, factor) {
            return Some(index);
        }
    }
    None
}

// The class of the row in these blocks, with room for P* and Q*.
fn class_with(blocks: &[Buffer], p: &mut Buffer, q: &mut Buffer) -> RowClass
    requires count { 2 ≤ length blocks.now }
    requires few { length blocks.now ≤ 32 }
    requires long { All (λ block. length block ≡ length p.old) blocks.now }
    requires same { length q.old ≡ length p.old }
    ensures class { HasClass blocks.now result }
    ensures p_length { length p.new ≡ length p.old }
    ensures q_length { length q.new ≡ length q.old }
{
    let is_full = has_right_parities(blocks);
    if is_full {
        return RowClass::Consistent;
    }
    write_differences(blocks, p, q);
    match (first_set(p), first_set(q)) {
        (None, _) => RowClass::WrongQ,
        (Some(_), None) => RowClass::WrongP,
        (Some(at), Some(_)) => match wrong_block(p, q, blocks.len() - 2, at) {
            Some(z) => RowClass::WrongData(z),
            None => RowClass::Many,
        },
    }
}

/// How the stored P and Q differ from those of the data, and which one block may be wrong. The row stays.
///
/// Two wrong blocks or more can look like one.
pub fn classify(row: &mut RowBuf) -> RowClass
    ensures class { HasClass row.old result }
    ensures named { NamesWrongBlock row.old result }
    ensures kept { row.new ≡ row.old }
{
    class_with(row.blocks.as_slice(), &mut row.sum, &mut row.weighted)
}

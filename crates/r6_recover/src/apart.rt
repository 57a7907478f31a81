//! The recovery of data blocks into buffers apart from the row.
//!
//! The buffers at the lost positions aren't looked at: they may be away, with others of any length in their place.
//!
//! `Px` and `Qx` are P and Q of the data with zeros in the place of block `x`, `Pxy` and `Qxy` with zeros in the
//! places of both.

ghost use Rattle.std.specs.Prelude.{◌≡◌, ◌+◌, ◌-◌, ◌<◌, ◌≤◌, length};
ghost use Rattle.r6_kernels.specs.Blocks.{AreLongBut};
ghost use Rattle.r6_recover.specs.Restores.{AreLongButMissing, AreRestored, IsRestored, MayMiss};

use crate::factors::{factors, weight_back};
use crate::known::Missing;
use r6_field::ConstMul;
use r6_kernels::{Buffer, recover_from_p, recover_from_q, recover_two, recover_with_p};

/// The data block at `x`, from P and the other data: `Dx = P + Px`.
pub fn restore_from_p_into(blocks: &[Buffer], x: usize, target: &mut Buffer)
    requires within { x + 2 < length blocks.now }
    requires long { AreLongBut (length target.old) x (length blocks.now - 2 + 1) blocks.now }
    ensures restored { let m = length blocks.now - 2 in
        IsRestored m (length target.old) x (m + 1) blocks.now target.new }
    ensures same_length { length target.new ≡ length target.old }
{
    recover_from_p(blocks, x, target);
}

/// The data block at `x`, from Q and the other data: `Dx = (Q + Qx) g^(-x)`.
pub fn restore_from_q_into(blocks: &[Buffer], x: usize, target: &mut Buffer)
    requires within { x + 2 < length blocks.now }
    requires few { length blocks.now ≤ 32 }
    requires long { AreLongBut (length target.old) x (length blocks.now - 2) blocks.now }
    ensures restored { let m = length blocks.now - 2 in IsRestored m (length target.old) x m blocks.now target.new }
    ensures same_length { length target.new ≡ length target.old }
{
    let back = ConstMul::new(weight_back(x));
    recover_from_q(blocks, x, &back, target);
}

/// The data block at `x` and P, from Q and the other data: `Dx = (Q + Qx) g^(-x)`, `P = Px + Dx`.
pub(crate) fn restore_with_p_into(blocks: &[Buffer], x: usize, target: &mut Buffer, p: &mut Buffer)
    requires within { x + 2 < length blocks.now }
    requires few { length blocks.now ≤ 32 }

    // lengths
    requires long { AreLongBut (length target.old) x (length blocks.now - 2) blocks.now }
    requires same { length p.old ≡ length target.old }

    ensures target { let m = length blocks.now - 2 in IsRestored m (length target.old) x m blocks.now target.new }
    ensures p { let m = length blocks.now - 2 in IsRestored m (length target.old) m x blocks.now p.new }

    // lengths stay
    ensures same_length { length target.new ≡ length target.old }
    ensures p_length { length p.new ≡ length p.old }
{
    let back = ConstMul::new(weight_back(x));
    recover_with_p(blocks, x, &back, target, p);
}

/// Two data blocks, from P, Q and the other data: `Dx = A(P + Pxy) + B(Q + Qxy)`, `Dy = (P + Pxy) + Dx`.
pub fn restore_two_into(
    blocks: &[Buffer],
    x: usize,
    y: usize,
    first: &mut Buffer,
    second: &mut Buffer,
)
    requires before { x < y }
    requires within { y + 2 < length blocks.now }
    requires few { length blocks.now ≤ 32 }

    // lengths
    requires long { AreLongBut (length first.old) x y blocks.now }
    requires same { length second.old ≡ length first.old }

    ensures first { IsRestored (length blocks.now - 2) (length first.old) x y blocks.now first.new }
    ensures second { IsRestored (length blocks.now - 2) (length first.old) y x blocks.now second.new }

    // lengths stay
    ensures first_length { length first.new ≡ length first.old }
    ensures second_length { length second.new ≡ length second.old }
{
    let (of_p, of_q) = factors(x, y);
    let a = ConstMul::new(of_p);
    let b = ConstMul::new(of_q);
    recover_two(blocks, x, y, &a, &b, first, second);
}

/// The data among the missing positions, each into a buffer of its own: the lower into `first`, the other into
/// `second`. The buffer of a missing parity isn't written.
pub fn restore_missing_into(
    blocks: &[Buffer],
    missing: Missing,
    first: &mut Buffer,
    second: &mut Buffer,
)
    requires count { 2 ≤ length blocks.now }
    requires few { length blocks.now ≤ 32 }

    // what is missing, and lengths
    requires missing { MayMiss (length blocks.now) missing }
    requires long { AreLongButMissing (length first.old) missing blocks.now }
    requires same { length second.old ≡ length first.old }

    ensures restored { AreRestored missing (length blocks.now - 2) (length first.old) blocks.now first.new second.new }
    ensures first_length { length first.new ≡ length first.old }
    ensures second_length { length second.new ≡ length second.old }
{
    let m = blocks.len() - 2;
    match missing {
        Missing::One(x) => {
            if x < m {
                restore_from_p_into(blocks, x, first);
            }
        }
        Missing::Two(x, y) => {
            if y < m {
                restore_two_into(blocks, x, y, first, second);
            } else if x < m {
                restore_beside_parity(blocks, x, y, first);
            }
        }
        Missing::None => {}
        Missing::Many => {}
    }
}

/// The data block at `x`, from the parity that isn't missing at `y`.
fn restore_beside_parity(blocks: &[Buffer], x: usize, y: usize, target: &mut Buffer)
    requires data { x + 2 < length blocks.now }
    requires parity { length blocks.now ≤ y + 2 }
    requires within { y < length blocks.now }
    requires few { length blocks.now ≤ 32 }
    requires long { AreLongBut (length target.old) x y blocks.now }
    ensures restored { IsRestored (length blocks.now - 2) (length target.old) x y blocks.now target.new }
    ensures same_length { length target.new ≡ length target.old }
{
    if y == blocks.len() - 2 {
        restore_from_q_into(blocks, x, target);
    } else {
        restore_from_p_into(blocks, x, target);
    }
}

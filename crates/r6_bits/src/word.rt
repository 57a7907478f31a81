//! Sets of numbers below 64, a bit each.

ghost use Rattle.std.specs.Prelude.{◌≡◌, ◌<◌, false, IfSome, MatchOption};
ghost use Rattle.r6_bits.specs.Words.{HasNone, IsLowest, IsWithBit};

/// The set with this number in it or not.
pub fn with_bit(bits: u64, number: usize, is_in: bool) -> u64
    requires { number < 64 }
    ensures { IsWithBit bits number is_in result }
{
    let bit = 1 << number;
    if is_in { bits | bit } else { bits & !bit }
}

/// The lowest number of the set.
pub fn lowest(bits: u64) -> Option<usize>
    ensures { MatchOption result (HasNone bits) (IsLowest bits) }
{
    if bits == 0 {
        return None;
    }
    Some(bits.trailing_zeros() as usize)
}

/// Takes the lowest number out of the set.
pub fn take_lowest(bits: &mut u64) -> Option<usize>
    ensures lowest { MatchOption result (HasNone bits.old) (IsLowest bits.old) }
    ensures left { MatchOption result (bits.new ≡ bits.old) (λ number. IsWithBit bits.old number false bits.new) }
    ensures less { IfSome result (λ number. bits.new < bits.old) }
{
    let number = lowest(*bits)?;
    *bits &= !(1 << number);
    Some(number)
}

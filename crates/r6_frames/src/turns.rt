//! Slots that follow one another round the array.

ghost use Rattle.std.specs.Prelude.{◌≡◌, ◌+◌, ◌%◌, ◌<◌, ◌≤◌};

// The slot so many steps to the right.
pub(crate) fn right_of(slot: usize, steps: usize, slots: usize) -> usize
    requires few { slots ≤ 32 }
    requires slot { slot < slots }
    requires steps { steps < slots }
    ensures { result ≡ (slot + steps) % slots }
{
    let right = slot + steps;
    if right < slots { right } else { right - slots }
}

// The slot so many steps to the left.
pub(crate) fn left_of(slot: usize, steps: usize, slots: usize) -> usize
    requires few { slots ≤ 32 }
    requires slot { slot < slots }
    requires steps { steps < slots }
    ensures within { result < slots }
    ensures right { (result + steps) % slots ≡ slot }
{
    if steps <= slot {
        slot - steps
    } else {
        slot + slots - steps
    }
}

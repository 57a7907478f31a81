//! The places before the first entry, which go without a look at those behind.

ghost use Rattle.std.specs.Prelude.{◌≡◌, ◌+◌, ◌*◌, ◌<◌, ◌≤◌, ℕ, Option, false, drop, length, vec_capacity};
ghost use Rattle.r6_waiters.specs.Keys.{AreClassed};
ghost use Rattle.r6_waiters.specs.Sets.{is_there, is_marked, cause_at, waiting, HaveRoom, IsMarked, AreAsWide};

use crate::keyed::KeyOf;
use crate::positions::Positions;

/// How many words of a set the places before the first entry take up.
pub(crate) fn empty_words<V>(places: &[(usize, Option<V>)]) -> usize
    ensures empty { (i : ℕ) → i < 64 * result → is_there places.now i ≡ false }
    ensures within { 64 * result ≤ length places.now }
{
    for (position, place) in places.iter().enumerate() {
        if place.1.is_some() {
            return position / 64;
        }
    }
    places.len() / 64
}

/// Lets go of the places of so many words, which are empty.
pub(crate) fn drop_front<V: Drop, K: KeyOf<V>>(
    places: &mut Vec<(usize, Option<V>)>,
    sets: &mut [Positions],
    keyed: &mut [Positions],
    words: usize,
)
    requires marked { IsMarked sets.old places.old.items (cause_at sets.old) }
    requires classed { AreClassed K.key_of keyed.old places.old.items }

    // room in the sets, and empty places in front
    requires wide { HaveRoom sets.old (length places.old.items) }
    requires as_wide { HaveRoom keyed.old (length places.old.items) }
    requires empty { (i : ℕ) → i < 64 * words → is_there places.old.items i ≡ false }
    requires within { 64 * words ≤ length places.old.items }

    // the entries stay as they were
    ensures marked { IsMarked sets.new places.new.items (cause_at sets.new) }
    ensures classed { AreClassed K.key_of keyed.new places.new.items }
    ensures same { waiting (cause_at sets.new) places.new.items ≡ waiting (cause_at sets.old) places.old.items }

    // places are fewer, and rooms stay
    ensures fewer { length places.new.items + 64 * words ≡ length places.old.items }
    ensures capacity { vec_capacity places.new ≡ vec_capacity places.old }
    ensures sets { AreAsWide sets.old sets.new }
    ensures keyed { AreAsWide keyed.old keyed.new }
{
    drop_first(places, 64 * words);
    move_all_down(sets, words);
    move_all_down(keyed, words);
}

// Lets go of the first places.
fn drop_first<V: Drop>(places: &mut Vec<(usize, Option<V>)>, count: usize)
    requires { count ≤ length places.old.items }
    ensures rest { places.new.items ≡ drop count places.old.items }
    ensures capacity { vec_capacity places.new ≡ vec_capacity places.old }
{
    let left = places.len() - count;
    for position in 0..left {
        places.swap(position, position + count);
    }
    places.truncate(left);
}

// Moves the positions of each set down by those of so many words.
fn move_all_down(sets: &mut [Positions], words: usize)
    requires { HaveRoom sets.old (64 * words) }
    ensures marks { (set i : ℕ) → is_marked sets.new set i ≡ is_marked sets.old set (64 * words + i) }
    ensures sets { AreAsWide sets.old sets.new }
{
    for index in 0..sets.len() {
        sets[index].move_down(words);
    }
}

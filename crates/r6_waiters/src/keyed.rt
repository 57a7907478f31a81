//! Keys, by which entries are found whatever they wait for.

ghost use Rattle.std.specs.Prelude.{◌≡◌, ◌<◌, ◌+◌, ◌++◌, ◌∷◌, [], ◌==◌, ◌&&◌, ℕ, true, false, length, Option, Some, None, is_some, MatchOption, slice_set, if◌then◌else◌, vec_capacity, IsTrue, ◌↔◌};
ghost use Rattle.r6_waiters.specs.Positions.{has};
ghost use Rattle.r6_waiters.specs.Keys.{classes, class_of, class_in, has_key, is_keyed, AreClassed, HasNoneKeyed, IsFirstKeyed};
ghost use Rattle.r6_waiters.specs.Sets.{place_at, is_there, is_marked, HaveRoom, AreAsWide};

use crate::positions::Positions;

/// Which key each value of a line has, if it has one. Values with one key can be found whatever they wait for.
pub trait KeyOf<V> {
    ghost key_of: { V → Option ℕ };

    /// The value's key.
    fn key(value: &V) -> Option<u64>
        ensures { result ≡ key_of value.now };
}

/// As many sets as keys have remainders, and one for values with no key.
pub(crate) const CLASSES: usize = 65;

/// The set for values with the key.
pub(crate) fn set_for(key: Option<u64>) -> usize
    ensures class { result ≡ class_of key }
    ensures within { result < classes }
{
    match key {
        Some(key) => (key % 64) as usize,
        None => 64,
    }
}

/// Puts a value in the place behind the others, and its position into the set of its key.
pub(crate) fn append<V, K: KeyOf<V>>(
    places: &mut Vec<(usize, Option<V>)>,
    keyed: &mut [Positions],
    cause: usize,
    value: V,
)
    requires classed { AreClassed K.key_of keyed.old places.old.items }
    requires wide { HaveRoom keyed.old (length places.old.items + 1) }
    requires room { length places.old.items < vec_capacity places.old }
    ensures items { places.new.items ≡ places.old.items ++ (cause, Some value) ∷ [] }
    ensures capacity { vec_capacity places.new ≡ vec_capacity places.old }
    ensures classed { AreClassed K.key_of keyed.new places.new.items }
    ensures sets { AreAsWide keyed.old keyed.new }
{
    let class = set_for(K::key(&value));
    keyed[class].insert(places.len());
    places.push_reserved((cause, Some(value)));
}

/// Takes the value at the position out, and the position out of the set of its key.
pub(crate) fn take<V, K: KeyOf<V>>(
    places: &mut Vec<(usize, Option<V>)>,
    keyed: &mut [Positions],
    position: usize,
) -> Option<V>
    requires classed { AreClassed K.key_of keyed.old places.old.items }
    requires there { is_there places.old.items position ≡ true }
    ensures value { result ≡ (place_at places.old.items position).1 }
    ensures places { places.new.items
        ≡ slice_set places.old.items position ((place_at places.old.items position).0, None) }
    ensures capacity { vec_capacity places.new ≡ vec_capacity places.old }
    ensures classed { AreClassed K.key_of keyed.new places.new.items }
    ensures sets { AreAsWide keyed.old keyed.new }
{
    let class = set_at::<V, K>(places, position);
    keyed[class].remove(position);
    places[position].1.take()
}

// The set for the value at the position.
fn set_at<V, K: KeyOf<V>>(places: &[(usize, Option<V>)], position: usize) -> usize
    requires { position < length places.now }
    ensures { result ≡ class_in K.key_of (place_at places.now position).1 }
{
    match &places[position].1 {
        Some(value) => set_for(K::key(value)),
        None => 0,
    }
}

/// Puts each position with a value into the set of its key, and no other into any set.
pub(crate) fn mark_keys<V, K: KeyOf<V>>(places: &[(usize, Option<V>)], keyed: &mut [Positions])
    requires many { length keyed.old ≡ classes }
    requires wide { HaveRoom keyed.old (length places.now) }
    ensures classed { AreClassed K.key_of keyed.new places.now }
    ensures sets { AreAsWide keyed.old keyed.new }
{
    clear_all(keyed);
    for (position, place) in places.iter().enumerate() {
        mark_key::<V, K>(&place.1, keyed, position);
    }
}

fn clear_all(sets: &mut [Positions])
    ensures none { (set i : ℕ) → is_marked sets.new set i ≡ false }
    ensures sets { AreAsWide sets.old sets.new }
{
    for index in 0..sets.len() {
        sets[index].clear();
    }
}

// Puts the position into the set of the value's key, where there is a value.
fn mark_key<V, K: KeyOf<V>>(value: &Option<V>, keyed: &mut [Positions], position: usize)
    requires many { length keyed.old ≡ classes }
    requires wide { HaveRoom keyed.old (position + 1) }
    ensures marks { (class i : ℕ) → is_marked keyed.new class i
        ≡ (if (i == position) && (is_some value.now && (class_in K.key_of value.now == class)) then true
        else is_marked keyed.old class i) }
    ensures sets { AreAsWide keyed.old keyed.new }
{
    if let Some(value) = value {
        let class = set_for(K::key(value));
        keyed[class].insert(position);
    }
}

/// The first position whose value has the key, from the set for it.
pub(crate) fn find<V, K: KeyOf<V>>(
    places: &[(usize, Option<V>)],
    set: &Positions,
    key: u64,
) -> Option<usize>
    requires within { (i : ℕ) → has set.now i ≡ true → i < length places.now }
    requires all { (i : ℕ) → is_keyed K.key_of key places.now i ≡ true → has set.now i ≡ true }
    ensures { MatchOption result (HasNoneKeyed K.key_of key places.now) (IsFirstKeyed K.key_of key places.now) }
{
    let mut from = 0;
    while let Some(position) = set.lowest_from(from) {
        if matches_key::<V, K>(&places[position].1, key) {
            return Some(position);
        }
        from = position + 1;
    }
    None
}

// Whether there is a value with the key.
fn matches_key<V, K: KeyOf<V>>(value: &Option<V>, key: u64) -> bool
    ensures { result ≡ has_key K.key_of key value.now }
{
    match value {
        Some(value) => K::key(value) == Some(key),
        None => false,
    }
}

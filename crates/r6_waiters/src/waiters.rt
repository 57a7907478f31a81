//! A line of entries that wait, each for one cause.

ghost use Rattle.std.specs.Prelude.{◌≡◌, ◌+◌, ◌*◌, ◌<◌, ◌≤◌, ◌^◌, ◌/◌, ◌==◌, ◌&&◌, ◌++◌, ◌∷◌, [], ℕ, true, false, nat_lt, length, replicate, slice_set, if◌then◌else◌, IsTrue, IfOk, IfErr, OnOk, IfSome, MatchOption, option_copied, option_map, None, is_some, drop, vec_capacity, ◌↔◌};
ghost use Rattle.std.specs.List.{filter};
ghost use Rattle.r6_waiters.specs.Positions.{has, HasNone};
ghost use Rattle.r6_waiters.specs.Sets.{place_at, is_marked, cause_at, waiting, IsMarked, HaveRoom, AreAsWide};
ghost use Rattle.r6_waiters.specs.Keys.{AreClassed};

use crate::front::{drop_front, empty_words};
use crate::keyed::{CLASSES, KeyOf, append, find, mark_keys, set_for, take};
use crate::positions::Positions;
use std::alloc::{AllocError, Global};
use std::marker::{Model, PhantomData};
use std::mem;

/// Entries that wait, each for one cause, always in the order of their age. `K` says which of them have a key.
///
/// All its room is made by [`Waiters::with_capacity`]; no later call takes memory. Causes are numbers below `causes`.
#[derive(Drop)]
pub struct Waiters<V, K: KeyOf<V>> {
    // by age; an entry that was taken out keeps its position until the next sweep. The cause beside a value is right
    // only in the midst of a sweep: which entries wait for a cause is what its set says.
    places: Vec<(usize, Option<V>)>,
    // by cause
    sets: Vec<Positions>,
    // by key, modulo 64; those with no key are in a set of their own
    keyed: Vec<Positions>,
    // an empty set, for what is moved from one set to another
    spare: Positions,
    len: usize,
    capacity: usize,
    key: PhantomData<K>,
}

impl<V, K: KeyOf<V>> Model for Waiters<V, K> {
    ghost use Rattle.std.specs.Coded.{coded_ℕ, coded_list, coded×};
    ghost use Rattle.r6_waiters.specs.Line.{Line};

    ghost Value = { Line V };

    ghost coded = { coded× coded_ℕ (coded× coded_ℕ (coded_list (coded× coded_ℕ V.code))) };

    ghost use Rattle.r6_waiters.specs.Inside.{view_of, IsLine};

    ghost view = { view_of };

    ghost invariant = { λ line. IsLine K.key_of line };
}

impl<V: Drop, K: KeyOf<V>> Waiters<V, K> {
    ghost use Rattle.r6_waiters.specs.Line.{capacity_of, causes_of, entries_of, with_entries, oldest_of, older_of, without_oldest, oldest_keyed, without_oldest_keyed, oldest_moved, all_moved, gathered, AreBelow};

    /// An empty line with room for `capacity` entries, which wait for causes below `causes`.
    ///
    /// # Errors
    /// `AllocError` where there is no memory for them.
    pub fn with_capacity(alloc: Global, capacity: usize, causes: usize) -> Result<Self, AllocError>
        requires countable { capacity + capacity + 64 < 2 ^ 64 }
        ensures { IfOk result (λ line. line ≡ (capacity, (causes, []))) }
    {
        Ok(Waiters {
            places: Vec::with_capacity(alloc, capacity + capacity)?,
            sets: empty_sets(alloc, capacity + capacity, causes)?,
            keyed: empty_sets(alloc, capacity + capacity, CLASSES)?,
            spare: Positions::with_room(alloc, capacity + capacity)?,
            len: 0,
            capacity,
            key: PhantomData,
        })
    }

    /// How many entries wait.
    pub fn len(&self) -> usize
        ensures { result ≡ length (entries_of self.now) }
    {
        self.len
    }

    /// Whether no entry waits.
    pub fn is_empty(&self) -> bool
        ensures { IsTrue result ↔ (length (entries_of self.now) ≡ 0) }
    {
        self.len == 0
    }

    /// How many entries can wait.
    pub fn capacity(&self) -> usize
        ensures { result ≡ capacity_of self.now }
    {
        self.capacity
    }

    /// How many causes there are. Each entry waits for one of them.
    pub fn causes(&self) -> usize
        ensures number { result ≡ causes_of self.now }
        ensures entries { AreBelow result (entries_of self.now) }
    {
        self.sets.len()
    }

    /// The oldest entry that waits for the cause.
    pub fn oldest(&self, cause: usize) -> Option<&V>
        requires { cause < causes_of self.now }
        ensures { option_copied result ≡ oldest_of cause (entries_of self.now) }
    {
        let position = self.sets[cause].lowest()?;
        value(&self.places, position)
    }

    /// The cause, of these two, that the oldest entry waits for which waits for one of them.
    pub fn older(&self, first: usize, second: usize) -> Option<usize>
        requires first { first < causes_of self.now }
        requires second { second < causes_of self.now }
        ensures { result ≡ older_of first second (entries_of self.now) }
    {
        match (self.sets[first].lowest(), self.sets[second].lowest()) {
            (Some(one), Some(other)) if other < one => Some(second),
            (Some(_), _) => Some(first),
            (None, Some(_)) => Some(second),
            (None, None) => None,
        }
    }

    /// Puts an entry in, as the youngest.
    ///
    /// # Errors
    /// The value, where as many entries wait as can; nothing changes.
    pub fn push(&mut self, cause: usize, value: V) -> Result<(), V>
        requires { cause < causes_of self.old }
        ensures room { OnOk result (length (entries_of self.old) < capacity_of self.old) }
        ensures last { OnOk result (self.new ≡ with_entries self.old (entries_of self.old ++ (cause, value) ∷ [])) }
        ensures full { IfErr result (λ back. (capacity_of self.old ≤ length (entries_of self.old)) × (back ≡ value)
            × (self.new ≡ self.old)) }
    {
        if self.len >= self.capacity {
            return Err(value);
        }
        make_room::<V, K>(
            &mut self.places,
            &mut self.sets,
            &mut self.keyed,
            self.capacity + self.capacity,
        );
        self.sets[cause].insert(self.places.len());
        append::<V, K>(&mut self.places, &mut self.keyed, cause, value);
        self.len += 1;
        Ok(())
    }

    /// Takes the oldest entry that waits for the cause out.
    pub fn pop_oldest(&mut self, cause: usize) -> Option<V>
        requires { cause < causes_of self.old }
        ensures value { result ≡ oldest_of cause (entries_of self.old) }
        ensures rest { self.new ≡ with_entries self.old (without_oldest cause (entries_of self.old)) }
    {
        let position = self.sets[cause].lowest()?;
        self.sets[cause].remove(position);
        self.len -= 1;
        take::<V, K>(&mut self.places, &mut self.keyed, position)
    }

    /// Takes the oldest entry with the key out, whatever it waits for. It is looked for first among the entries that
    /// wait for the causes `near`: where it does, this takes no time for each cause.
    pub fn take(&mut self, key: u64, near: [usize; 2]) -> Option<V>
        ensures value { result ≡ oldest_keyed K.key_of key (entries_of self.old) }
        ensures rest { self.new ≡ with_entries self.old (without_oldest_keyed K.key_of key (entries_of self.old)) }
    {
        let set = &self.keyed[set_for(Some(key))];
        let found = find::<V, K>(&self.places, set, key)?;
        let cause = cause_of(&self.sets, near, found)?;
        self.sets[cause].remove(found);
        self.len -= 1;
        take::<V, K>(&mut self.places, &mut self.keyed, found)
    }

    /// Lets the oldest entry that waits for one cause wait for another, at its age, and answers whether there was one.
    pub fn move_oldest(&mut self, from: usize, to: usize) -> bool
        requires from { from < causes_of self.old }
        requires to { to < causes_of self.old }
        ensures found { result ≡ is_some (oldest_of from (entries_of self.old)) }
        ensures moved { self.new ≡ with_entries self.old (oldest_moved from to (entries_of self.old)) }
    {
        match self.sets[from].lowest() {
            Some(position) => {
                self.sets[from].remove(position);
                self.sets[to].insert(position);
                true
            }
            None => false,
        }
    }

    /// Lets all entries that wait for one cause wait for another, at their age.
    pub fn move_all(&mut self, from: usize, to: usize)
        requires from { from < causes_of self.old }
        requires to { to < causes_of self.old }
        ensures { self.new ≡ with_entries self.old (all_moved from to (entries_of self.old)) }
    {
        mem::swap(&mut self.spare, &mut self.sets[from]);
        self.sets[to].take_all(&mut self.spare);
    }

    /// Lets every entry wait for the cause, at its age.
    pub fn gather(&mut self, cause: usize)
        requires { cause < causes_of self.old }
        ensures { self.new ≡ with_entries self.old (gathered cause (entries_of self.old)) }
    {
        for from in 0..self.causes() {
            self.move_all(from, cause);
        }
    }
}

fn empty_sets(alloc: Global, limit: usize, causes: usize) -> Result<Vec<Positions>, AllocError>
    requires { limit + 64 < 2 ^ 64 }
    ensures { IfOk result (λ sets. sets.items ≡ replicate causes (replicate (limit / 64 + 1) 0)) }
{
    let mut sets = Vec::with_capacity(alloc, causes)?;
    for _ in 0..causes {
        sets.push(Positions::with_room(alloc, limit)?)?;
    }
    Ok(sets)
}

fn value<V>(places: &[(usize, Option<V>)], position: usize) -> Option<&V>
    requires { position < length places.now }
    ensures { option_copied result ≡ (place_at places.now position).1 }
{
    places[position].1.as_ref()
}

// The first cause that has the position in its set. These are tried before all.
fn cause_of(sets: &[Positions], near: [usize; 2], position: usize) -> Option<usize>
    ensures { MatchOption result
        ((cause : ℕ) → is_marked sets.now cause position ≡ false)
        (λ cause. (cause < length sets.now) × (is_marked sets.now cause position ≡ true)) }
{
    if holds(sets, near[0], position) {
        return Some(near[0]);
    }
    if holds(sets, near[1], position) {
        return Some(near[1]);
    }
    for cause in 0..sets.len() {
        if holds(sets, cause, position) {
            return Some(cause);
        }
    }
    None
}

// Whether the position is in the cause's set.
fn holds(sets: &[Positions], cause: usize, position: usize) -> bool
    ensures { result ≡ is_marked sets.now cause position }
{
    match sets.get(cause) {
        Some(set) => set.contains(position),
        None => false,
    }
}

// Sees to it that there are fewer places than the limit.
fn make_room<V: Drop, K: KeyOf<V>>(
    places: &mut Vec<(usize, Option<V>)>,
    sets: &mut Vec<Positions>,
    keyed: &mut Vec<Positions>,
    limit: usize,
)
    requires marked { IsMarked sets.old.items places.old.items (cause_at sets.old.items) }
    requires classed { AreClassed K.key_of keyed.old.items places.old.items }

    // room in the sets, and fewer entries than the limit
    requires wide { HaveRoom sets.old.items (length places.old.items) }
    requires as_wide { HaveRoom keyed.old.items (length places.old.items) }
    requires few { length (waiting (cause_at sets.old.items) places.old.items) < limit }
    requires within { length places.old.items ≤ limit }

    // the entries stay as they were
    ensures marked { IsMarked sets.new.items places.new.items (cause_at sets.new.items) }
    ensures classed { AreClassed K.key_of keyed.new.items places.new.items }
    ensures same { waiting (cause_at sets.new.items) places.new.items
        ≡ waiting (cause_at sets.old.items) places.old.items }

    // a place is free, and rooms stay
    ensures room { length places.new.items < limit }
    ensures capacity { vec_capacity places.new ≡ vec_capacity places.old }
    ensures sets { AreAsWide sets.old.items sets.new.items }
    ensures keyed { AreAsWide keyed.old.items keyed.new.items }
{
    if places.len() >= limit {
        free_places::<V, K>(places, sets, keyed, limit);
    }
}

// Lets go of empty places. Where more than a quarter of them comes before the first entry, as in a line that goes in
// the order of its age, nothing but these goes.
#[cold]
#[inline(never)]
fn free_places<V: Drop, K: KeyOf<V>>(
    places: &mut Vec<(usize, Option<V>)>,
    sets: &mut [Positions],
    keyed: &mut [Positions],
    limit: usize,
)
    requires marked { IsMarked sets.old places.old.items (cause_at sets.old) }
    requires classed { AreClassed K.key_of keyed.old places.old.items }

    // room in the sets, and fewer entries than the limit
    requires wide { HaveRoom sets.old (length places.old.items) }
    requires as_wide { HaveRoom keyed.old (length places.old.items) }
    requires few { length (waiting (cause_at sets.old) places.old.items) < limit }
    requires full { length places.old.items ≡ limit }

    // the entries stay as they were
    ensures marked { IsMarked sets.new places.new.items (cause_at sets.new) }
    ensures classed { AreClassed K.key_of keyed.new places.new.items }
    ensures same { waiting (cause_at sets.new) places.new.items
        ≡ waiting (cause_at sets.old) places.old.items }

    // a place is free, and rooms stay
    ensures room { length places.new.items < limit }
    ensures capacity { vec_capacity places.new ≡ vec_capacity places.old }
    ensures sets { AreAsWide sets.old sets.new }
    ensures keyed { AreAsWide keyed.old keyed.new }
{
    let words = empty_words(places);
    if words > limit / 256 {
        drop_front::<V, K>(places, sets, keyed, words);
    } else {
        sweep(places, sets);
        mark_keys::<V, K>(places, keyed);
    }
}

// Moves the entries down to the first positions.
fn sweep<V: Drop>(places: &mut Vec<(usize, Option<V>)>, sets: &mut [Positions])
    requires marked { IsMarked sets.old places.old.items (cause_at sets.old) }
    requires wide { HaveRoom sets.old (length places.old.items) }
    ensures marked { IsMarked sets.new places.new.items (cause_at sets.new) }
    ensures same { waiting (cause_at sets.new) places.new.items ≡ waiting (cause_at sets.old) places.old.items }
    ensures few { length places.new.items ≡ length (waiting (cause_at sets.old) places.old.items) }
    ensures capacity { vec_capacity places.new ≡ vec_capacity places.old }
    ensures sets { AreAsWide sets.old sets.new }
{
    name_causes(places, sets);
    drop_empty(places);
    mark(places, sets);
}

// Lets go of the places of entries that were taken out.
fn drop_empty<V: Drop>(places: &mut Vec<(usize, Option<V>)>)
    ensures kept { places.new.items ≡ filter (λ place. is_some place.1) places.old.items }
    ensures capacity { vec_capacity places.new ≡ vec_capacity places.old }
{
    places.retain(|place| place.1.is_some());
}

// Writes beside each value which cause it waits for, and empties the sets.
fn name_causes<V>(places: &mut [(usize, Option<V>)], sets: &mut [Positions])
    requires within { (cause i : ℕ) → is_marked sets.old cause i ≡ true → i < length places.old }
    requires once { (a b i : ℕ) → is_marked sets.old a i ≡ true → is_marked sets.old b i ≡ true → a ≡ b }
    ensures none { (cause i : ℕ) → is_marked sets.new cause i ≡ false }
    ensures sets { AreAsWide sets.old sets.new }
    ensures values { (i : ℕ) → (place_at places.new i).1 ≡ (place_at places.old i).1 }
    ensures named { (cause i : ℕ) → is_marked sets.old cause i ≡ true → (place_at places.new i).0 ≡ cause }
{
    for cause in 0..sets.len() {
        name_cause(places, &mut sets[cause], cause);
    }
}

// Writes the cause beside the values at the positions of the set, and empties it.
fn name_cause<V>(places: &mut [(usize, Option<V>)], set: &mut Positions, cause: usize)
    requires { (i : ℕ) → has set.old i ≡ true → i < length places.old }
    ensures none { HasNone set.new }
    ensures room { length set.new ≡ length set.old }
    ensures named { (i : ℕ) → place_at places.new i
        ≡ ((if has set.old i then cause else (place_at places.old i).0), (place_at places.old i).1) }
{
    while let Some(position) = set.lowest() {
        set.remove(position);
        name_entry(places, position, cause);
    }
}

// Writes the cause beside the value at the position.
fn name_entry<V>(places: &mut [(usize, Option<V>)], position: usize, cause: usize)
    requires { position < length places.old }
    ensures { places.new ≡ slice_set places.old position (cause, (place_at places.old position).1) }
{
    places[position].0 = cause;
}

// Puts each position into the set of the cause that stands there.
fn mark<V>(places: &[(usize, Option<V>)], sets: &mut [Positions])
    requires none { (cause i : ℕ) → is_marked sets.old cause i ≡ false }
    requires causes { (i : ℕ) → i < length places.now → (place_at places.now i).0 < length sets.old }
    requires wide { HaveRoom sets.old (length places.now) }
    ensures marks { (cause i : ℕ) → is_marked sets.new cause i
        ≡ (nat_lt i (length places.now) && ((place_at places.now i).0 == cause)) }
    ensures sets { AreAsWide sets.old sets.new }
{
    for (position, place) in places.iter().enumerate() {
        sets[place.0].insert(position);
    }
}

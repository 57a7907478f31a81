//! A table that numbers its entries.

ghost use Rattle.std.specs.Prelude.{◌≡◌, ◌+◌, ◌<◌, ◌^◌, ℕ, length, IsTrue, IfOk, IfSome, IfNone, option_copied, None, is_some, vec_capacity, ◌↔◌};
ghost use Rattle.std.specs.Borrow.{sem};
ghost use Rattle.std.specs.FinMap as map;
ghost use Rattle.std.specs.Option.{option_copied_mut};
ghost use Rattle.r6_tables.specs.Places.{live, value_at, with_value, IsRising, IsAt, IsAbsent};

use std::alloc::{AllocError, Global};
use std::marker::Model;

/// A table that gives each entry the next number, from 0 on, and no number twice.
///
/// Its room is made once, by [`Table::with_capacity`]; no later call takes memory. [`Table::push`] takes constant
/// time, but for a sweep of the whole table that comes at most once in as many pushes as the capacity. A look-up takes
/// constant time for an entry that was pushed since the last sweep, and else the logarithm of the capacity.
#[derive(Drop)]
pub struct Table<V> {
    // by number; an entry that was taken out keeps its place until the next sweep
    places: Vec<(u64, Option<V>)>,
    next: u64,
    len: usize,
    capacity: usize,
}

impl<V> Model for Table<V> {
    ghost use Rattle.std.specs.Coded.{coded_ℕ, coded×};
    ghost use Rattle.std.specs.FinMap as map;
    ghost use Rattle.r6_tables.specs.Table.{Numbered};
    ghost use Rattle.r6_tables.specs.Inside.{view_of, IsTable};

    ghost Value = { Numbered V };

    ghost coded = { coded× coded_ℕ (coded× coded_ℕ (map.code coded_ℕ V.code)) };

    ghost view = { view_of };

    ghost invariant = { IsTable };
}

impl<V: Drop> Table<V> {
    ghost use Rattle.r6_tables.specs.Table.{capacity_of, next_of, entries_of};
    ghost use Rattle.r6_tables.specs.Lends.{LendsEntry};

    /// An empty table with room for `capacity` entries.
    ///
    /// # Errors
    /// `AllocError` where there is no memory for them.
    pub fn with_capacity(alloc: Global, capacity: usize) -> Result<Self, AllocError>
        requires countable { capacity + capacity < 2 ^ 64 }
        ensures { IfOk result (λ table. table ≡ (capacity, (0, map.empty))) }
    {
        Ok(Table {
            places: Vec::with_capacity(alloc, capacity + capacity)?,
            next: 0,
            len: 0,
            capacity,
        })
    }

    /// How many entries there are.
    pub fn len(&self) -> usize
        ensures { result ≡ map.len (entries_of self.now) }
    {
        self.len
    }

    /// Whether there is no entry.
    pub fn is_empty(&self) -> bool
        ensures { IsTrue result ↔ (map.len (entries_of self.now) ≡ 0) }
    {
        self.len == 0
    }

    /// How many entries there can be.
    pub fn capacity(&self) -> usize
        ensures { result ≡ capacity_of self.now }
    {
        self.capacity
    }

    /// The number that the next entry gets, which is how many were pushed.
    pub fn next(&self) -> u64
        ensures { result ≡ next_of self.now }
    {
        self.next
    }

    /// The entry of the number.
    pub fn get(&self, number: u64) -> Option<&V>
        ensures { option_copied result ≡ map.get (entries_of self.now) number }
    {
        match index_of(&self.places, self.next, number) {
            Some(index) => value(&self.places, number, index),
            None => None,
        }
    }

    /// The entry of the number, which may be changed where it stands.
    pub fn get_mut(&mut self, number: u64) -> Option<&mut V>
        ensures* writes_back { sem 𝓛 (LendsEntry V.row self.entry number result) }
        ensures value { option_copied_mut result ≡ map.get (entries_of self.old) number }
    {
        let index = match index_of(&self.places, self.next, number) {
            Some(index) => index,
            None => return None,
        };
        if !has_value(&self.places, number, index) {
            return None;
        }
        self.places[index].1.as_mut()
    }

    /// Puts an entry in, and answers its number.
    pub fn push(&mut self, value: V) -> u64
        requires room { map.len (entries_of self.old) < capacity_of self.old }
        requires numbers { next_of self.old + 1 < 2 ^ 64 }
        ensures number { result ≡ next_of self.old }
        ensures entry { self.new ≡ (
          capacity_of self.old,
          (next_of self.old + 1, map.insert (entries_of self.old) (next_of self.old) value),
        ) }
    {
        make_room(&mut self.places, self.capacity + self.capacity);
        let number = self.next;
        self.places.push_reserved((number, Some(value)));
        self.next += 1;
        self.len += 1;
        number
    }

    /// Takes the entry of the number out.
    pub fn remove(&mut self, number: u64) -> Option<V>
        ensures entry { result ≡ map.get (entries_of self.old) number }
        ensures rest { self.new ≡ (capacity_of self.old, (next_of self.old, map.remove (entries_of self.old) number)) }
    {
        let index = match index_of(&self.places, self.next, number) {
            Some(index) => index,
            None => return None,
        };
        match take_value(&mut self.places, number, index) {
            Some(value) => {
                self.len -= 1;
                Some(value)
            }
            None => None,
        }
    }
}

// Where the place of the number stands. Of the numbers below `next` the lately pushed ones are found at once.
fn index_of<V>(places: &[(u64, Option<V>)], next: u64, number: u64) -> Option<usize>
    requires { (high : ℕ) × IsRising 0 high places.now }
    ensures at { IfSome result (IsAt number places.now) }
    ensures absent { IfNone result (IsAbsent number places.now) }
{
    match index_from_end(places, next, number) {
        Some(index) => Some(index),
        None => index_by_search(places, number),
    }
}

// Where the place stands as far from the end as its number from the next one: if no place behind it was swept away.
fn index_from_end<V>(places: &[(u64, Option<V>)], next: u64, number: u64) -> Option<usize>
    ensures { IfSome result (IsAt number places.now) }
{
    let behind = next.checked_sub(number)? as usize;
    let index = places.len().checked_sub(behind)?;
    if places.get(index)?.0 != number {
        return None;
    }
    Some(index)
}

fn index_by_search<V>(places: &[(u64, Option<V>)], number: u64) -> Option<usize>
    requires { (high : ℕ) × IsRising 0 high places.now }
    ensures at { IfSome result (IsAt number places.now) }
    ensures absent { IfNone result (IsAbsent number places.now) }
{
    places.binary_search_by_key(&number, |place| place.0).ok()
}

fn value<V>(places: &[(u64, Option<V>)], number: u64, index: usize) -> Option<&V>
    requires rising { (high : ℕ) × IsRising 0 high places.now }
    requires at { IsAt number places.now index }
    ensures { option_copied result ≡ value_at number places.now }
{
    places[index].1.as_ref()
}

// Whether the place has its value still.
fn has_value<V>(places: &[(u64, Option<V>)], number: u64, index: usize) -> bool
    requires rising { (high : ℕ) × IsRising 0 high places.now }
    requires at { IsAt number places.now index }
    ensures { result ≡ is_some (value_at number places.now) }
{
    places[index].1.is_some()
}

// Takes the value at the number out of its place.
fn take_value<V>(places: &mut Vec<(u64, Option<V>)>, number: u64, index: usize) -> Option<V>
    requires rising { (high : ℕ) × IsRising 0 high places.old.items }
    requires at { IsAt number places.old.items index }
    ensures value { result ≡ value_at number places.old.items }
    ensures places { places.new.items ≡ with_value number None places.old.items }
    ensures capacity { vec_capacity places.new ≡ vec_capacity places.old }
{
    places[index].1.take()
}

// Sees to it that there are fewer places than the limit.
fn make_room<V: Drop>(places: &mut Vec<(u64, Option<V>)>, limit: usize)
    requires { length (live places.old.items) < limit }
    ensures room { length places.new.items < limit }
    ensures same { live places.new.items ≡ live places.old.items }
    ensures rising { (low high : ℕ) → IsRising low high places.old.items → IsRising low high places.new.items }
    ensures capacity { vec_capacity places.new ≡ vec_capacity places.old }
{
    if places.len() >= limit {
        sweep(places);
    }
}

// Lets go of the places of entries that were taken out.
fn sweep<V: Drop>(places: &mut Vec<(u64, Option<V>)>)
    ensures same { live places.new.items ≡ live places.old.items }
    ensures few { length places.new.items ≡ length (live places.old.items) }
    ensures rising { (low high : ℕ) → IsRising low high places.old.items → IsRising low high places.new.items }
    ensures capacity { vec_capacity places.new ≡ vec_capacity places.old }
{
    places.retain(|place| place.1.is_some());
}

//! What the keys of a settings document say.
ghost use Rattle.std.specs.Prelude.{◌≡◌, ◌≤◌, ◌<◌, [], ◌∷◌, Some, IfErr, IfOk, IfSome, MatchResult, map, option_map, string_bytes};
ghost use Rattle.toml.specs.Data.{get_member, as_str};
ghost use Rattle.toml.specs.View.{items_view, view, table_view};
ghost use Rattle.r6_settings.specs.Keys.{is_key, name_of};
ghost use Rattle.r6_settings.specs.Settings.{IsMemoryOr, IsOf, MayBeLost, device_paths, each_of, geometry_integer, has_unknown_key, integer_from_to, lost_slots, may_be_lost, one_to_eight, slot_below, slots_written, where_it};

use crate::fault::SettingsFault;
use crate::key::Key;
use std::alloc::Global;
use toml::{Table, Value};

const KEYS: [Key; 9] = [
    Key::Slots,
    Key::Chunk,
    Key::Block,
    Key::Rows,
    Key::Shards,
    Key::Window,
    Key::Workers,
    Key::Lost,
    Key::Devices,
];

fn is_key(word: &str) -> bool
    ensures { result ≡ is_key word.now }
{
    KEYS.iter().any(|key| key.name() == word)
}

/// Whether the document has a key that settings do not have.
pub fn has_unknown_key(table: &Table) -> bool
    ensures { result ≡ has_unknown_key (table_view table.now) }
{
    table.keys().any(|word| !is_key(word.as_str()))
}

fn value_at<'a>(table: &'a Table, key: Key) -> Option<&'a Value>
    ensures { option_map (λ value. view value.now) result ≡ get_member (name_of key) (table_view table.now) }
{
    table.get(key.name())
}

fn integer_from_to(low: u32, high: u32, value: &Value) -> Option<u32>
    ensures value { result ≡ integer_from_to low high (view value.now) }
    ensures range { IfSome result (λ n. (low ≤ n) × (n ≤ high)) }
{
    let number = u32::try_from(value.as_integer()?).ok()?;
    if low <= number && number <= high {
        Some(number)
    } else {
        None
    }
}

/// An integer of the geometry, whose key has to be there.
pub fn geometry_integer(table: &Table, key: Key) -> Result<u32, SettingsFault>
    ensures ok { IfOk result (λ n. geometry_integer key (table_view table.now) ≡ Some n) }
    ensures err { IfErr result (IsOf key (geometry_integer key (table_view table.now))) }
{
    match value_at(table, key) {
        Some(value) => integer_from_to(0, u32::MAX, value).ok_or(SettingsFault::Value(key)),
        None => Err(SettingsFault::Value(key)),
    }
}

/// An integer from 1 to 8, and 1 where the document does not have the key.
pub fn one_to_eight(table: &Table, key: Key) -> Result<u32, SettingsFault>
    ensures ok { IfOk result (λ n. one_to_eight key (table_view table.now) ≡ Some n) }
    ensures range { IfOk result (λ n. (1 ≤ n) × (n ≤ 8)) }
    ensures err { IfErr result (IsOf key (one_to_eight key (table_view table.now))) }
{
    match value_at(table, key) {
        Some(value) => integer_from_to(1, 8, value).ok_or(SettingsFault::Value(key)),
        None => Ok(1),
    }
}

fn slot_below(slots: u32, value: &Value) -> Result<u32, SettingsFault>
    ensures ok { IfOk result (λ n. slot_below slots (view value.now) ≡ Some n) }
    ensures below { IfOk result (λ n. n < slots) }
    ensures err { IfErr result (IsOf Key.Lost (slot_below slots (view value.now))) }
{
    match integer_from_to(0, u32::MAX, value) {
        Some(slot) if slot < slots => Ok(slot),
        _ => Err(SettingsFault::Value(Key::Lost)),
    }
}

// Two slots, of which neither is the other.
fn two_slots(slots: u32, first: &Value, second: &Value) -> Result<[u32; 2], SettingsFault>
    ensures ok { IfOk result (λ both.
        where_it may_be_lost (each_of (slot_below slots) (items_view (first.now ∷ second.now ∷ []))) ≡ Some both) }
    ensures may_be { IfOk result (λ both. MayBeLost slots both) }
    ensures err { IfErr result
        (IsOf Key.Lost (where_it may_be_lost (each_of (slot_below slots) (items_view (first.now ∷ second.now ∷ []))))) }
{
    let first = slot_below(slots, first)?;
    let second = slot_below(slots, second)?;
    if first == second {
        Err(SettingsFault::Value(Key::Lost))
    } else {
        Ok([first, second])
    }
}

// The slots that an array names, in their order.
fn slots_among(alloc: Global, slots: u32, items: &[Value]) -> Result<Vec<u32>, SettingsFault>
    ensures ok { IfOk result
        (λ lost. where_it may_be_lost (each_of (slot_below slots) (items_view items.now)) ≡ Some lost.items) }
    ensures may_be { IfOk result (λ lost. MayBeLost slots lost.items) }
    ensures err { IfErr result
        (IsMemoryOr (IsOf Key.Lost (where_it may_be_lost (each_of (slot_below slots) (items_view items.now))))) }
{
    match items {
        [] => Ok(Vec::new(alloc)),
        [only] => Ok(Vec::from_array(alloc, [slot_below(slots, only)?])?),
        [first, second] => Ok(Vec::from_array(alloc, two_slots(slots, first, second)?)?),
        _ => Err(SettingsFault::Value(Key::Lost)),
    }
}

/// The slots that are lost at the start, in the order in which they are written.
pub fn lost_slots(alloc: Global, table: &Table, slots: u32) -> Result<Vec<u32>, SettingsFault>
    requires { slots ≡ slots_written (table_view table.now) }
    ensures ok { IfOk result (λ lost. lost_slots (table_view table.now) ≡ Some lost.items) }
    ensures may_be { IfOk result (λ lost. MayBeLost slots lost.items) }
    ensures err { IfErr result (IsMemoryOr (IsOf Key.Lost (lost_slots (table_view table.now)))) }
{
    let Some(value) = value_at(table, Key::Lost) else {
        return Ok(Vec::new(alloc));
    };
    let Some(items) = value.as_array() else {
        return Err(SettingsFault::Value(Key::Lost));
    };
    slots_among(alloc, slots, items.as_slice())
}

fn texts(alloc: Global, items: &[Value]) -> Result<Vec<String>, SettingsFault>
    ensures ok { IfOk result (λ texts. each_of as_str (items_view items.now) ≡ Some (map string_bytes texts.items)) }
    ensures err { IfErr result (IsMemoryOr (IsOf Key.Devices (each_of as_str (items_view items.now)))) }
{
    let mut texts = Vec::new(alloc);
    for item in items {
        let Some(text) = item.as_str() else {
            return Err(SettingsFault::Value(Key::Devices));
        };
        texts.push(String::from_str(alloc, text)?)?;
    }
    Ok(texts)
}

/// One path for each slot, in slot order.
pub fn device_paths(alloc: Global, table: &Table, slots: u32) -> Result<Vec<String>, SettingsFault>
    requires { slots ≡ slots_written (table_view table.now) }
    ensures ok { IfOk result (λ paths. device_paths (table_view table.now) ≡ Some (map string_bytes paths.items)) }
    ensures err { IfErr result (IsMemoryOr (IsOf Key.Devices (device_paths (table_view table.now)))) }
{
    let Some(value) = value_at(table, Key::Devices) else {
        return Err(SettingsFault::Value(Key::Devices));
    };
    let Some(items) = value.as_array() else {
        return Err(SettingsFault::Value(Key::Devices));
    };
    let paths = texts(alloc, items.as_slice())?;
    if paths.len() != slots as usize {
        return Err(SettingsFault::Value(Key::Devices));
    }
    Ok(paths)
}

//! The settings of an array, read from a TOML document.
ghost use Rattle.std.specs.Prelude.{◌≡◌, ◌≤◌, true, Ok, Err, None, Some, IfErr, IfOk, OnOk, map, string_bytes, take, unwrap_or};
ghost use Rattle.toml.specs.View.{table_view};
ghost use Rattle.r6_layout.specs.Shape.{shape_of};
ghost use Rattle.r6_settings.specs.Settings.{AreInRange, IsMemoryOr, IsOf, checks, decided, first_found, one_to_eight, paths_used, settings_in, shape_in, slots_written, values_of};

use crate::document::{device_paths, geometry_integer, has_unknown_key, lost_slots, one_to_eight};
use crate::fault::SettingsFault;
use crate::key::Key;
use r6_layout::Geometry;
use std::alloc::Global;
use toml::Table;

/// An array and how it is run, as a settings file says.
#[derive(Drop)]
pub struct Config {
    /// The shape of the array.
    pub geometry: Geometry,
    /// How many rows a rebuild may hold at a time, 1 to 8.
    pub window: u32,
    /// Threads that read and write devices, for each shard, 1 to 8.
    pub workers: u32,
    /// The slots that are lost at the start: at most two, distinct.
    pub lost: Vec<u32>,
    /// One path for each slot, or none where the command uses no devices.
    pub devices: Vec<String>,
}

// What the keys say that have one number each.
struct Numbers {
    slots: u32,
    chunk: u32,
    block: u32,
    rows: u32,
    shards: u32,
    window: u32,
    workers: u32,
}

// The numbers, where the checks pass that come before those of lost slots and of devices.
fn numbers_in(table: &Table) -> Result<Numbers, SettingsFault>
    ensures passed { OnOk result (first_found (take 8 (checks true (table_view table.now))) ≡ None) }
    ensures shape { IfOk result
        (λ n. shape_of n.slots n.chunk n.block n.rows n.shards ≡ shape_in (table_view table.now)) }
    ensures window { IfOk result (λ n. n.window ≡ unwrap_or (one_to_eight Key.Window (table_view table.now)) 0) }
    ensures workers { IfOk result (λ n. n.workers ≡ unwrap_or (one_to_eight Key.Workers (table_view table.now)) 0) }
    ensures window_range { IfOk result (λ n. (1 ≤ n.window) × (n.window ≤ 8)) }
    ensures workers_range { IfOk result (λ n. (1 ≤ n.workers) × (n.workers ≤ 8)) }
    ensures err { IfErr result (λ fault. first_found (take 8 (checks true (table_view table.now))) ≡ Some fault) }
{
    if has_unknown_key(table) {
        return Err(SettingsFault::UnknownKey);
    }
    let slots = geometry_integer(table, Key::Slots)?;
    let chunk = geometry_integer(table, Key::Chunk)?;
    let block = geometry_integer(table, Key::Block)?;
    let rows = geometry_integer(table, Key::Rows)?;
    let shards = geometry_integer(table, Key::Shards)?;
    let window = one_to_eight(table, Key::Window)?;
    let workers = one_to_eight(table, Key::Workers)?;
    Ok(Numbers {
        slots,
        chunk,
        block,
        rows,
        shards,
        window,
        workers,
    })
}

// The paths, where the command uses devices.
fn paths_used(
    alloc: Global,
    table: &Table,
    slots: u32,
    with_devices: bool,
) -> Result<Vec<String>, SettingsFault>
    requires { slots ≡ slots_written (table_view table.now) }
    ensures ok { IfOk result
        (λ paths. paths_used with_devices (table_view table.now) ≡ Some (map string_bytes paths.items)) }
    ensures err { IfErr result (IsMemoryOr (IsOf Key.Devices (paths_used with_devices (table_view table.now)))) }
{
    if with_devices {
        device_paths(alloc, table, slots)
    } else {
        Ok(Vec::new(alloc))
    }
}

fn decide(alloc: Global, table: &Table, with_devices: bool) -> Result<Config, SettingsFault>
    ensures ok { IfOk result (λ config. decided with_devices (table_view table.now) ≡ Ok (values_of config)) }
    ensures in_range { IfOk result (λ config. AreInRange (values_of config)) }
    ensures err { IfErr result (IsMemoryOr (λ fault. decided with_devices (table_view table.now) ≡ Err fault)) }
{
    let Numbers {
        slots,
        chunk,
        block,
        rows,
        shards,
        window,
        workers,
    } = numbers_in(table)?;
    let lost = lost_slots(alloc, table, slots)?;
    let devices = paths_used(alloc, table, slots, with_devices)?;
    match Geometry::new(
        slots as usize,
        u64::from(chunk),
        block as usize,
        u64::from(rows),
        shards as usize,
    ) {
        Ok(geometry) => Ok(Config {
            geometry,
            window,
            workers,
            lost,
            devices,
        }),
        Err(limit) => Err(SettingsFault::Geometry(limit)),
    }
}

/// Reads the settings that a text gives. Where `with_devices` is false the key `devices` is passed
/// over.
///
/// The faults are those of the settings' table, the first in its order; want of memory can come at
/// any place.
pub fn settings(alloc: Global, text: &str, with_devices: bool) -> Result<Config, SettingsFault>
    ensures ok { IfOk result (λ config. settings_in with_devices text.now ≡ Ok (values_of config)) }
    ensures in_range { IfOk result (λ config. AreInRange (values_of config)) }
    ensures err { IfErr result (IsMemoryOr (λ fault. settings_in with_devices text.now ≡ Err fault)) }
{
    match toml::table_from_str(alloc, text) {
        Ok(table) => decide(alloc, &table, with_devices),
        Err(error) if error.is_memory() => Err(SettingsFault::Memory),
        Err(_) => Err(SettingsFault::NotToml),
    }
}

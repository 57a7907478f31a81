//! Texts of settings.

use crate::must::must;
use r6_settings::{Config, Key, SettingsFault, settings};
use std::alloc::Global;

const FOUR_SLOTS: &str = "slots = 4\nchunk = 1\nblock = 16\nrows = 4\nshards = 2\n";

const EVERY_KEY: &str =
    "slots = 4\nchunk = 1\nblock = 16\nrows = 4\nshards = 2\nwindow = 8\nworkers = 2\nlost = [3, 0]\ndevices = [\"a\", \"b\", \"c\", \"d\"]\n";

/// What a text of two shards says: window, workers, the lost slots and the devices.
#[derive(Clone, Copy)]
struct Says {
    numbers: (u32, u32),
    lost: &'static [u32],
    devices: &'static [&'static str],
}

const DEFAULTS: Says = Says {
    numbers: (1, 1),
    lost: &[],
    devices: &[],
};

const LACKS: SettingsFault = SettingsFault::Value(Key::Devices);

/// Texts, whether devices are used, and what they say or lack.
const TEXTS: &[(&str, bool, Result<Says, SettingsFault>)] = &[
    (
        EVERY_KEY,
        true,
        Ok(Says {
            numbers: (8, 2),
            lost: &[3, 0],
            devices: &["a", "b", "c", "d"],
        }),
    ),
    // what may be left out
    (FOUR_SLOTS, false, Ok(DEFAULTS)),
    // devices are asked for where they are used
    (FOUR_SLOTS, true, Err(LACKS)),
    (NO_LIST, true, Err(LACKS)),
    (NO_LIST, false, Ok(DEFAULTS)),
    (THREE, true, Err(LACKS)),
    (THREE, false, Ok(DEFAULTS)),
    (NO_PATH, true, Err(LACKS)),
    (NO_PATH, false, Ok(DEFAULTS)),
    (FIVE, true, Err(LACKS)),
    (FIVE, false, Ok(DEFAULTS)),
    (A_PATH, true, Err(LACKS)),
    (A_TABLE, true, Err(LACKS)),
    (NESTED, true, Err(LACKS)),
];

const NO_LIST: &str = "slots = 4\nchunk = 1\nblock = 16\nrows = 4\nshards = 2\ndevices = 4\n";

const THREE: &str =
    "slots = 4\nchunk = 1\nblock = 16\nrows = 4\nshards = 2\ndevices = [\"a\", \"b\", \"c\"]\n";

const NO_PATH: &str =
    "slots = 4\nchunk = 1\nblock = 16\nrows = 4\nshards = 2\ndevices = [\"a\", \"b\", \"c\", 4]\n";

const FIVE: &str =
    "slots = 4\nchunk = 1\nblock = 16\nrows = 4\nshards = 2\ndevices = [\"a\", \"b\", \"c\", \"d\", \"e\"]\n";

const A_PATH: &str = "slots = 4\nchunk = 1\nblock = 16\nrows = 4\nshards = 2\ndevices = \"a\"\n";

const A_TABLE: &str = "slots = 4\nchunk = 1\nblock = 16\nrows = 4\nshards = 2\ndevices = {}\n";

const NESTED: &str =
    "slots = 4\nchunk = 1\nblock = 16\nrows = 4\nshards = 2\ndevices = [\"a\", \"b\", \"c\", [\"d\"]]\n";

/// Whether settings are these.
fn has(config: &Config, says: &Says) -> bool {
    for (index, device) in says.devices.iter().enumerate() {
        if index >= config.devices.len() || config.devices[index].as_str() != *device {
            return false;
        }
    }
    config.geometry.shards() == 2
        && (config.window, config.workers) == says.numbers
        && config.lost.as_slice() == says.lost
        && config.devices.len() == says.devices.len()
}

/// Whether a text is read so.
fn is_read(alloc: Global, text: &str, used: bool, says: &Result<Says, SettingsFault>) -> bool {
    match (&settings(alloc, text, used), says) {
        (Ok(config), Ok(says)) => has(config, says),
        (Err(fault), Err(wanted)) => *fault == *wanted,
        _ => false,
    }
}

#[test]
fn reads_every_key_and_asks_for_devices_where_they_are_used(rt: HostRuntime) {
    for (row, (text, used, says)) in TEXTS.iter().enumerate() {
        must(
            &rt,
            is_read(rt.alloc(), *text, *used, says),
            "a text",
            row,
            0,
        );
    }
}

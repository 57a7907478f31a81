//! What may be wrong with a settings file, and the line that says so.

ghost use Rattle.std.specs.Prelude.{◌≡◌};

use crate::key::Key;
use r6_layout::GeometryError;
use std::alloc::{AllocError, AllocFailed};
use std::fmt;

/// What is wrong with the text of a settings file.
#[derive(Clone, Copy, Debug, PartialEq, Eq)]
pub enum SettingsFault {
    /// The text is no TOML document.
    NotToml,
    /// The document has a key that settings do not have.
    UnknownKey,
    /// The key is missing, of a wrong type or out of its range.
    Value(Key),
    /// The five integers are no array's.
    Geometry(GeometryError),
    /// An allocation failed.
    Memory,
}

impl<T: Drop> From<AllocFailed<T>> for SettingsFault {
    ghost use Rattle.r6_settings.specs.declared.fault.SettingsFault.TheVariants.{Memory};

    ghost from_gives = { λ _ fault. fault ≡ Memory };

    fn from(_refused: AllocFailed<T>) -> SettingsFault {
        SettingsFault::Memory
    }
}

impl From<AllocError> for SettingsFault {
    ghost use Rattle.r6_settings.specs.declared.fault.SettingsFault.TheVariants.{Memory};

    ghost from_gives = { λ _ fault. fault ≡ Memory };

    fn from(_refused: AllocError) -> SettingsFault {
        SettingsFault::Memory
    }
}

impl fmt::Display for SettingsFault {
    ghost use Rattle.std.specs.Prelude.{Some};
    ghost use Rattle.r6_settings.specs.Faults.{fault_text};

    ghost output = { λ fault. Some (fault_text fault) };

    fn fmt<W: fmt::Write>(&self, f: &mut fmt::Formatter<W>) -> fmt::Result {
        match self {
            SettingsFault::NotToml => f.write_str("settings: toml"),
            SettingsFault::UnknownKey => f.write_str("settings: key"),
            SettingsFault::Value(key) => write!(f, "settings: {}", key.name()),
            SettingsFault::Geometry(limit) => write!(f, "settings: geometry {}", limit.number()),
            SettingsFault::Memory => f.write_str("memory"),
        }
    }
}

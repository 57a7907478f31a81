//! The keys of a settings file.

ghost use Rattle.std.specs.Prelude.{◌≡◌};

/// A key of the settings, in the order in which they are checked.
#[derive(Clone, Copy, Debug, PartialEq, Eq)]
pub enum Key {
    Slots,
    Chunk,
    Block,
    Rows,
    Shards,
    Window,
    Workers,
    Lost,
    Devices,
}

impl Key {
    ghost use Rattle.r6_settings.specs.Keys.{name_of};

    /// The key as a settings file writes it.
    pub fn name(self) -> &'static str
        ensures { result.now ≡ name_of self }
    {
        match self {
            Key::Slots => "slots",
            Key::Chunk => "chunk",
            Key::Block => "block",
            Key::Rows => "rows",
            Key::Shards => "shards",
            Key::Window => "window",
            Key::Workers => "workers",
            Key::Lost => "lost",
            Key::Devices => "devices",
        }
    }
}

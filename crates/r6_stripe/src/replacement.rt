//! What a hold knows of the second device that the rebuild of a position in sync writes.

ghost use Rattle.std.specs.Prelude.{◌≡◌};
ghost use Rattle.r6_stripe.specs.Replacements.{confirmed_if, has_moved, is_gone, is_left, written_as};
ghost use Rattle.r6_stripe.specs.Plans.{is_sent};

/// Where the target of the rebuild is.
#[derive(Clone, Copy)]
pub(crate) enum Stage {
    /// Beside the position's own device.
    Beside,
    /// In its place. The block was read.
    Moved,
    /// Out.
    Dropped,
}

/// What became of the write to the target. Its block leaves as soon as it is ready.
#[derive(Clone, Copy)]
pub(crate) enum Written {
    Unwritten,
    Sent,
    Confirmed,
}

/// The rebuild of a position in sync: the block that is read of its own device is written to the second one.
#[derive(Clone, Copy)]
pub(crate) struct Replacement {
    pub(crate) position: usize,
    pub(crate) stage: Stage,
    pub(crate) written: Written,
    /// The task was taken back.
    pub(crate) closed: bool,
}

impl Replacement {
    /// Whether the target is out, while the position isn't.
    pub(crate) fn is_dropped(self) -> bool
        ensures { result ≡ is_gone self.stage }
    {
        match self.stage {
            Stage::Dropped => true,
            Stage::Beside | Stage::Moved => false,
        }
    }

    /// Whether the target has the place of this position's device.
    pub(crate) fn has_moved(self, position: usize) -> bool
        ensures { result ≡ has_moved self position }
    {
        match self.stage {
            Stage::Moved => self.position == position,
            Stage::Beside | Stage::Dropped => false,
        }
    }

    /// Whether the block left with a write.
    pub(crate) fn is_left(self) -> bool
        ensures { result ≡ is_left self.written }
    {
        match self.written {
            Written::Sent | Written::Confirmed => true,
            Written::Unwritten => false,
        }
    }

    /// Whether the write was put out, and isn't confirmed.
    pub(crate) fn is_sent(self) -> bool
        ensures { result ≡ is_sent (written_as self.written) }
    {
        match self.written {
            Written::Sent => true,
            Written::Unwritten | Written::Confirmed => false,
        }
    }

    /// The same with the write confirmed, if it is awaited.
    pub(crate) fn confirmed_if(self, is_awaited: bool) -> Replacement
        ensures { result ≡ confirmed_if is_awaited self }
    {
        if is_awaited {
            Replacement {
                written: Written::Confirmed,
                ..self
            }
        } else {
            self
        }
    }
}

//! The device of a held row that is to take another one's place.

ghost use Rattle.std.specs.Prelude.{◌≡◌};
ghost use Rattle.r6_frames.specs.Successors as successors;
ghost use Rattle.r6_frames.specs.Successors.{beside_in, is_own};

use crate::rebuilt::Target;

/// The new device that stood beside another one in a slot of a held row, as the hold began.
///
/// With a command to it a buffer left that is no position's, and with any other command the position's own. Once it has
/// the place of the other one it is the other way round.
#[derive(Clone, Copy)]
pub enum Successor {
    /// None.
    None,
    /// It stands beside the other one.
    Beside(Target),
    /// It has got the place of the other one.
    InPlace(Target),
    /// It is out, and didn't get the place.
    Dropped(Target),
}

impl Successor {
    /// Whether the buffer of a command to the device of the slot is its position's own. Mostly there is no second
    /// device.
    #[inline(always)]
    pub(crate) fn is_own(&self, slot: usize, generation: u32) -> bool
        ensures { result ≡ is_own self.now slot generation }
    {
        match self {
            Successor::None => true,
            _ => self.is_own_beside(slot, generation),
        }
    }

    // The same where there is one.
    #[cold]
    #[inline(never)]
    fn is_own_beside(&self, slot: usize, generation: u32) -> bool
        ensures { result ≡ is_own self.now slot generation }
    {
        match self {
            Successor::None => true,
            Successor::Beside(target) | Successor::Dropped(target) => target.slot != slot
                || target.generation != generation,
            Successor::InPlace(target) => target.slot != slot || target.generation == generation,
        }
    }

    /// The device that stands beside the slot's first one.
    pub(crate) fn beside(&self, slot: usize) -> Option<u32>
        ensures { result ≡ beside_in self.now slot }
    {
        match self {
            Successor::Beside(target) => {
                if target.slot == slot {
                    Some(target.generation)
                } else {
                    None
                }
            }
            Successor::None | Successor::InPlace(_) | Successor::Dropped(_) => None,
        }
    }

    /// It has the place of the other one.
    pub(crate) fn moved(self) -> Successor
        ensures { result ≡ successors.moved self }
    {
        match self {
            Successor::Beside(target) => Successor::InPlace(target),
            other => other,
        }
    }

    /// It is out, if it stood beside another one in the slot.
    pub(crate) fn dropped(self, slot: usize) -> Successor
        ensures { result ≡ successors.dropped self slot }
    {
        match self {
            Successor::Beside(target) => {
                if target.slot == slot {
                    Successor::Dropped(target)
                } else {
                    self
                }
            }
            Successor::None | Successor::InPlace(_) | Successor::Dropped(_) => self,
        }
    }
}

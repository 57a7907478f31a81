//! What a hold knows of the second device of a position.

ghost use Rattle.std.specs.Prelude.{◌≡◌, ◌&&◌, not};
ghost use Rattle.r6_stripe.specs.Places.{standing_of};
ghost use Rattle.r6_stripe.specs.Plans.{is_in_sync};
ghost use Rattle.r6_stripe.specs.Seconds as seconds;
ghost use Rattle.r6_stripe.specs.Seconds.{anew, doubling_of, is_awaited, is_due, is_passed, is_kept, is_recalled_by, lost_second, moved_second, passed_on, write_of};

use crate::place::{ReadState, Standing, WriteState};

/// What became of the write to the second device.
#[derive(Clone, Copy)]
pub(crate) enum CopyState {
    /// None is owed.
    Unwritten,
    /// As the first device's write, which wasn't put out.
    Following,
    /// The new block stands in the buffer apart.
    Ready,
    Sent,
    Confirmed,
}

/// Whether writes to both devices were put out, and the first device is out since.
#[derive(Clone, Copy)]
pub(crate) enum Doubling {
    Single,
    Doubled,
    Passed,
}

/// The second device of a position, which is to take the first one's place.
#[derive(Clone, Copy)]
pub(crate) struct Second {
    pub(crate) position: usize,
    /// Out once one of the two devices is, or both are.
    pub(crate) state: Standing,
    pub(crate) copy: CopyState,
    pub(crate) doubling: Doubling,
    /// The read that is asked for was put out to a device that is gone since: it is to be put out again.
    pub(crate) recalled: bool,
}

impl Second {
    pub(crate) fn is_in_sync(self) -> bool
        ensures { result ≡ is_in_sync (standing_of self.state) }
    {
        match self.state {
            Standing::InSync => true,
            Standing::Target | Standing::Out => false,
        }
    }

    pub(crate) fn is_following(self) -> bool
        ensures { result ≡ seconds.is_following self.copy }
    {
        match self.copy {
            CopyState::Following => true,
            _ => false,
        }
    }

    /// The write to the second device is to be put out, after the first device's.
    pub(crate) fn is_due(self) -> bool
        ensures { result ≡ is_due self }
    {
        match (self.state, self.copy) {
            (Standing::InSync, CopyState::Ready) => true,
            _ => false,
        }
    }

    /// It is put out, and is awaited.
    pub(crate) fn is_sent(self) -> bool
        ensures { result ≡ is_awaited self }
    {
        match (self.state, self.copy) {
            (Standing::InSync | Standing::Target, CopyState::Sent) => true,
            _ => false,
        }
    }

    /// With a write of the first device that has come to this, the block of both is kept once both are lost.
    pub(crate) fn keeps(self, write: WriteState) -> bool
        ensures { result ≡ is_kept write self }
    {
        match (write, self.copy) {
            (WriteState::Ready, CopyState::Following) => true,
            _ => false,
        }
    }

    /// Whether the position's own buffer, away or not, holds what is known of either device, once the first is gone.
    pub(crate) fn stays(self, away: bool) -> bool
        ensures { result ≡ (seconds.is_following self.copy && not away) }
    {
        match self.copy {
            CopyState::Following => !away,
            _ => false,
        }
    }

    /// It has the first one's place, whose read had come to this.
    pub(crate) fn moved(self, read: ReadState) -> Second
        ensures { result ≡ moved_second read self }
    {
        Second {
            state: Standing::Out,
            copy: CopyState::Unwritten,
            doubling: self.doubling.passed(),
            recalled: read.is_recalled(),
            ..self
        }
    }

    /// It is lost, with the first one.
    pub(crate) fn lost(self, write: WriteState) -> Second
        ensures { result ≡ lost_second write self }
    {
        let copy = match (write, self.copy) {
            (WriteState::Ready, CopyState::Following) => CopyState::Ready,
            (_, CopyState::Following) => CopyState::Unwritten,
            (_, copy) => copy,
        };
        Second {
            state: Standing::Out,
            copy,
            ..self
        }
    }

    pub(crate) fn is_passed(self) -> bool
        ensures { result ≡ is_passed (doubling_of self.doubling) }
    {
        match self.doubling {
            Doubling::Passed => true,
            Doubling::Single | Doubling::Doubled => false,
        }
    }
}

impl CopyState {
    /// The position's write, once the second device has the place of the first, whose write this was.
    pub(crate) fn as_write(self, first: WriteState) -> WriteState
        ensures { result ≡ write_of self first }
    {
        match self {
            CopyState::Unwritten => WriteState::Unwritten,
            CopyState::Following => first,
            CopyState::Ready => WriteState::Ready,
            CopyState::Sent => WriteState::Sent,
            CopyState::Confirmed => WriteState::Confirmed,
        }
    }
}

impl Doubling {
    /// The first device is out.
    pub(crate) fn passed(self) -> Doubling
        ensures { result ≡ passed_on self }
    {
        match self {
            Doubling::Single => Doubling::Single,
            Doubling::Doubled | Doubling::Passed => Doubling::Passed,
        }
    }
}

impl ReadState {
    /// The read of a position, once the second device has the place of the first.
    pub(crate) fn anew(self) -> ReadState
        ensures { result ≡ anew self }
    {
        match self {
            ReadState::Unread => ReadState::Unread,
            ReadState::Asked | ReadState::Unreadable => ReadState::Asked,
            ReadState::Fixing | ReadState::Fixed | ReadState::AskedAgain => ReadState::Fixed,
            ReadState::Known => ReadState::Known,
            ReadState::Replaced => ReadState::Replaced,
        }
    }

    /// Whether it was the first read, and is to be put out again then.
    pub(crate) fn is_recalled(self) -> bool
        ensures { result ≡ is_recalled_by self }
    {
        match self {
            ReadState::Asked | ReadState::Unreadable => true,
            _ => false,
        }
    }
}

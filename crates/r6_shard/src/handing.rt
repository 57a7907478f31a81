//! Parts of devices that a shard is given while it runs.

use crate::performs::{Performs, TakesParts};
use crate::shard::Shard;
use r6_dev::BlockDevice;
use r6_exchange::Part;
use std::fmt;
use std::sync::Wait;

/// Why a part was not taken in.
#[derive(Clone, Copy, PartialEq, Eq, Debug)]
pub enum PartRefusal {
    /// The core has looked at the attach of this generation, or of a later one.
    Looked,
    /// As many parts were taken up as there is room for.
    NoRoom,
}

impl fmt::Display for PartRefusal {
    ghost use Rattle.std.specs.Prelude.{Some};
    ghost use Rattle.r6_shard.specs.Handing.{refusal_text};

    ghost output = { λ refusal. Some (refusal_text refusal) };

    fn fmt<W: fmt::Write>(&self, f: &mut fmt::Formatter<W>) -> fmt::Result {
        match self {
            PartRefusal::Looked => write!(f, "part: looked at"),
            PartRefusal::NoRoom => write!(f, "part: no room"),
        }
    }
}

/// A part that was not taken in.
#[derive(Drop)]
pub struct RefusedPart<D> {
    pub refusal: PartRefusal,
    pub part: Part<D>,
}

impl<P: Performs + Drop> Shard<P> {
    ghost use Rattle.std.specs.Prelude.{◌≡◌, IfOk, IfErr};
    ghost use Rattle.r6_shard.specs.Handing.{HandsIn, RefusesPart};
    ghost use Rattle.r6_shard.specs.Sound.{TakesSound};

    /// Hands a part in, of a device of a generation that the core hasn't looked at: before its attach, or after it.
    /// Of two parts for one slot and generation the later counts, and the earlier comes back unless it is kept aside.
    /// No memory is taken.
    ///
    /// # Errors
    /// [`PartRefusal`], with the part back. Nothing changes.
    pub fn hand_in<D: BlockDevice + Drop, R: Wait>(
        &mut self,
        rt: &R,
        part: Part<D>,
    ) -> Result<Option<Part<D>>, RefusedPart<D>>
    where
        P: TakesParts<D>,
        ensures handed { IfOk result (λ earlier. HandsIn D.told D.promised part earlier self.old self.new) }
        ensures sound { IfOk result (λ _. TakesSound D.promised part self.old self.new) }
        ensures refused { IfErr result (λ r. RefusesPart part self.old r self.new) }
    {
        if part.generation <= self.last.attaches() {
            return Err(RefusedPart {
                refusal: PartRefusal::Looked,
                part,
            });
        }
        match self.parts.take_in(rt, part) {
            Ok(earlier) => Ok(earlier),
            Err(part) => Err(RefusedPart {
                refusal: PartRefusal::NoRoom,
                part,
            }),
        }
    }
}

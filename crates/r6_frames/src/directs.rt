//! Reads that hold no row: each has one of the direct buffers, and one command.

ghost use Rattle.std.specs.Prelude.{◌≡◌, ◌<◌, ◌+◌, ◌^◌, ℕ, true, length, replicate, slice_set, IfOk, MatchOption};
ghost use Rattle.r6_stripe.specs.Plans.{is_in_sync};
ghost use Rattle.r6_world.specs.ShardStates.{direct_buffers, limit, standing_of};
ghost use Rattle.r6_world.specs.declared.values.Op.TheVariants as requested;
ghost use Rattle.r6_frames.specs.Views.{AreLive};
ghost use Rattle.r6_frames.specs.Slots.{states_of};
ghost use Rattle.r6_frames.specs.Calls.{IsAwaited, IsAbandoned, IsPlaceOf, KeepsHolds, KeepsSlots};
ghost use Rattle.r6_frames.specs.Directs.{direct_at, read_request, is_free_direct, unused, returned, lent_for, left_by};
ghost use Rattle.r6_frames.specs.Reads.{IsFreeDirect, TakesDirect, FreesDirect, FewerReaders, IsReadable, IsOfRead, IsStoppedAt, IsFirstStopped, IsPassedOnIn, NoneStopped, ReadsDirectly, AnswersRead, HandsBack};
ghost use Rattle.r6_frames.specs.Sound.{IsSound};

use crate::command::{Action, Outstanding, remove};
use crate::frames::{FRAMES, Frames, ServedRequest};
use r6_kernels::Buffer;
use r6_layout::Place;
use r6_world::{Op, Request};

/// As many reads can be under way at one time that hold no row.
pub const DIRECTS: usize = 64;

/// A read that holds no row.
#[derive(Drop)]
pub struct DirectRead {
    pub served: ServedRequest,
    /// The slot that has the block, and the generation of the device there.
    pub slot: usize,
    pub generation: u32,
    /// The token of its command.
    pub token: u64,
    /// The caller's.
    pub buffer: Buffer,
}

impl DirectRead {
    // The request, with this buffer.
    pub(crate) fn request(self) -> Request
        ensures { result ≡ read_request self }
    {
        let ServedRequest { id, block } = self.served;
        Request {
            id,
            op: Op::Read(block, self.buffer),
        }
    }
}

/// A direct buffer, and what it is used for.
#[derive(Drop)]
pub struct Direct {
    /// The read that it was lent for, until it is answered or handed back.
    pub read: Option<DirectRead>,
    /// The buffer, unless it is away with a command.
    pub buffer: Option<Buffer>,
}

impl Frames {
    /// A direct buffer that is free.
    pub fn free_direct(&self) -> Option<usize>
        ensures { MatchOption result ((number : ℕ) → IsFreeDirect self.now number → ⊥) (IsFreeDirect self.now) }
    {
        self.directs.lowest_free()
    }

    /// Puts out the read of a request's block, which stands at this place and is in sync there, with a free direct
    /// buffer. It holds no row, and waits for no holder but one that has passed on its slot.
    pub fn read(&mut self, number: usize, served: ServedRequest, buffer: Buffer, place: Place)
        requires live { AreLive self.old }
        requires free { IsFreeDirect self.old number }
        requires request { IsReadable self.old served buffer }
        requires place { IsPlaceOf self.old.geometry (requested.Read served.block buffer) place }
        requires synced { is_in_sync (standing_of (states_of self.old.slots place.slot) place.row) ≡ true }
        requires passed { IsPassedOnIn self.old place.row place.slot → ⊥ }
        requires numbers { self.old.commands.next < limit }

        // The request is read directly.
        ensures sound { IsSound self.new }
        ensures live { AreLive self.new }
        ensures reads { ReadsDirectly self.old number served self.new }

        // All else is as it was.
        ensures holds { KeepsHolds self.old self.new }
        ensures taken { TakesDirect self.old number self.new }
        ensures same { KeepsSlots self.old self.new }
        ensures next { self.new.commands.next ≡ self.old.commands.next + 1 }
    {
        let token = self.commands.next();
        let slot = place.slot;
        let generation = self.slots[slot].device.known_first();
        let read = DirectRead {
            served,
            slot,
            generation,
            token,
            buffer,
        };
        let lent = self.directs.lend(number, read);
        self.commands.push(Outstanding {
            frame: FRAMES + number,
            slot,
            row: place.row,
            buffer: lent,
            generation,
            action: Action::Read,
        });
    }

    /// The buffer of a direct read that wasn't abandoned comes home with the block. Answers the request, which has the
    /// block in its buffer: the two buffers are exchanged.
    pub fn answer_read(&mut self, token: u64, buffer: Buffer) -> Request
        requires awaited { IsAwaited self.old token }
        requires wanted { IsAbandoned self.old token → ⊥ }
        requires read { IsOfRead self.old token }
        requires size { length buffer ≡ self.old.geometry.block }

        // The completion is taken.
        ensures sound { IsSound self.new }
        ensures live { AreLive self.new }
        ensures answers { AnswersRead self.old token buffer result self.new }

        // All else is as it was.
        ensures holds { KeepsHolds self.old self.new }
        ensures frees { (number : ℕ) × FreesDirect self.old number self.new }
        ensures same { KeepsSlots self.old self.new }
        ensures next { self.new.commands.next ≡ self.old.commands.next }
    {
        let command = remove(&mut self.commands, token);
        let number = command.frame - FRAMES;
        let read = self.directs.take_read(number);
        self.directs.bring_back(number, read.buffer);
        let ServedRequest { id, block } = read.served;
        Request {
            id,
            op: Op::Read(block, buffer),
        }
    }

    /// Takes the direct read with the lowest token of those whose commands are gone or abandoned: it waits again.
    pub fn hand_back(&mut self) -> Option<Request>
        // The read is handed back.
        ensures sound { IsSound self.new }
        ensures back { MatchOption result (NoneStopped self.old × (self.new ≡ self.old))
            (λ request. HandsBack self.old request self.new) }

        // All else is as it was.
        ensures holds { KeepsHolds self.old self.new }
        ensures readers { FewerReaders self.old self.new }
        ensures same { KeepsSlots self.old self.new }
        ensures commands { (self.new.commands ≡ self.old.commands) × (self.new.next_taken ≡ self.old.next_taken) }
    {
        let number = self.first_stopped()?;
        let read = self.directs.take_read(number);
        Some(read.request())
    }

    // The direct buffer whose read has stopped and has the lowest token.
    fn first_stopped(&self) -> Option<usize>
        ensures { MatchOption result (NoneStopped self.now)
            (λ number. (r : DirectRead) × IsFirstStopped self.now number r) }
    {
        let mut first: Option<(u64, usize)> = None;
        for number in 0..self.directs.len() {
            if let Some(token) = self.stopped_token(number) {
                match first {
                    Some((lowest, _)) if lowest <= token => {}
                    _ => first = Some((token, number)),
                }
            }
        }
        let (_, number) = first?;
        Some(number)
    }

    // The token of the direct buffer's read, if that has stopped.
    fn stopped_token(&self, number: usize) -> Option<u64>
        requires number { number < length self.now.directs }
        ensures { MatchOption result ((r : DirectRead) → IsStoppedAt self.now number r → ⊥)
            (λ token. (r : DirectRead) × IsStoppedAt self.now number r × (r.token ≡ token)) }
    {
        let read = self.directs.read(number)?;
        if self.slots[read.slot].abandons(read.token, read.generation) {
            Some(read.token)
        } else {
            None
        }
    }
}

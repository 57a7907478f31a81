//! Waiting requests start.

ghost use Rattle.std.specs.Prelude.{◌≡◌, ◌<◌, ◌+◌, ℕ, IsTrue, ◌↔◌, MatchOption, IfSome, Some, None};
ghost use Rattle.r6_waiters.specs.Line.{entries_of, oldest_of};
ghost use Rattle.r6_world.specs.ShardStates.{limit};
ghost use Rattle.r6_world.specs.Steps.{Scans};
ghost use Rattle.r6_frames.specs.Views.{AreLive};
ghost use Rattle.r6_frames.specs.Calls.{IsHolder, IsPlaceOf, IsRequestOf, KeepsHolds, KeepsSlots, NotHeldBy};
ghost use Rattle.r6_frames.specs.Reads.{ReadsDirectly, TakesDirect};
ghost use Rattle.r6_frames.specs.Sound as held;
ghost use Rattle.r6_core.specs.Inside.{IsSettled, IsCore, IsOpOf, IsRoomFor, IsForBuffer, CanRead, served_of, anything, causes, row_for, HasBuffer, HasFreed, HasLetGo, IsFirstToStart, LeavesLine, Leads, OnlyStarts, StartsWith, WaitingHaveTurns};
ghost use Rattle.r6_core.specs.Together.{AreKnownFirst};

use crate::queued::Queued;
use crate::state::{LIMIT, State};
use r6_frames::{FRAMES, ServedRequest};
use r6_layout::Place;
use r6_world::{Op, Request};

// What a request waits for is a number: for a row that is held that of its frame, and else one of these.

/// For a free frame.
pub(crate) const FREE_FRAME: usize = FRAMES;

/// For a free direct buffer.
pub(crate) const FREE_BUFFER: usize = FRAMES + 1;

/// For what isn't known yet.
pub(crate) const ANYTHING: usize = FRAMES + 2;

pub(crate) const CAUSES: usize = FRAMES + 3;

/// What a change of the frames leaves to be started.
#[derive(Clone, Copy)]
pub(crate) enum Freed {
    /// No row was let go, and no frame and no direct buffer became free.
    Nothing,
    /// This frame let its row go, and is free itself unless buffers are away.
    Row(usize),
    /// One direct buffer became free.
    Buffer,
    /// Any of them may have, and any slot may be in sync for more rows.
    Any,
}

/// What a request starts with.
#[derive(Clone, Copy)]
pub(crate) enum Room {
    /// The direct buffer of this number: a read, which holds no row.
    Direct(usize),
    /// The frame of this number, in which its row is held.
    Frame(usize),
}

impl State {
    /// Starts what can start of the requests that wait, from the oldest to the newest. In a shard that has stopped
    /// none can.
    pub(crate) fn start_waiting(&mut self, freed: Freed)
        requires settled { IsSettled self.old }
        requires freed { HasFreed freed self.old }
        ensures core { IsCore self.new }
        ensures leads { Leads Scans self.old self.new }
        ensures turns { WaitingHaveTurns self.old self.new }
        ensures only { OnlyStarts self.old self.new }
    {
        if self.waiting.is_empty() {
            return;
        }
        if !self.frames.is_live() {
            return;
        }
        match freed {
            Freed::Nothing => {}
            Freed::Row(frame) => self.start_behind(frame),
            Freed::Buffer if self.frames.tokens() < LIMIT => self.start_read(),
            Freed::Buffer | Freed::Any => self.start_all(),
        }
    }

    // The frame has let its row go. Of those that waited for the row or for a frame the oldest starts whose row isn't
    // held; no other can start behind it.
    fn start_behind(&mut self, frame: usize)
        requires settled { IsSettled self.old }
        requires live { AreLive self.old.frames }
        requires let_go { HasLetGo frame self.old }
        ensures core { IsCore self.new }
        ensures leads { Leads Scans self.old self.new }
        ensures turns { WaitingHaveTurns self.old self.new }
        ensures only { OnlyStarts self.old self.new }
    {
        let Some(free) = self.frames.free_frame() else {
            self.waiting.move_all(frame, FREE_FRAME);
            return;
        };
        while let Some(cause) = self.waiting.older(frame, FREE_FRAME) {
            match self.holder_for(cause) {
                Some(holder) => {
                    self.waiting.move_oldest(cause, holder);
                }
                None => {
                    self.start(cause, Room::Frame(free));
                    let next = if cause == frame { free } else { FREE_FRAME };
                    self.waiting.move_all(frame, next);
                    return;
                }
            }
        }
    }

    // The frame that holds the row of the oldest request that waits for the cause.
    fn holder_for(&self, cause: usize) -> Option<usize>
        requires settled { IsSettled self.now }
        requires cause { cause < causes }
        ensures { IfSome (oldest_of cause (entries_of self.now.waiting)) (λ queued.
            MatchOption result
            (NotHeldBy self.now.frames (row_for self.now.frames queued.op))
            (IsHolder self.now.frames (row_for self.now.frames queued.op))) }
    {
        let queued = self.waiting.oldest(cause)?;
        self.frames.holder(self.place(&queued.op).row)
    }

    // A direct buffer became free: the oldest that waits for one is read.
    fn start_read(&mut self)
        requires settled { IsSettled self.old }
        requires live { AreLive self.old.frames }
        requires few { self.old.frames.commands.next < limit }
        requires freed { HasBuffer self.old }

        ensures core { IsCore self.new }
        ensures leads { Leads Scans self.old self.new }
        ensures turns { WaitingHaveTurns self.old self.new }
        ensures only { OnlyStarts self.old self.new }
    {
        if self.waiting.oldest(FREE_BUFFER).is_none() {
            return;
        }
        let Some(number) = self.frames.free_direct() else {
            return;
        };
        self.start(FREE_BUFFER, Room::Direct(number));
    }

    // Starts each waiting request that can start, from the oldest to the newest, and finds what each other waits for.
    fn start_all(&mut self)
        requires settled { IsSettled self.old }
        requires live { AreLive self.old.frames }
        ensures core { IsCore self.new }
        ensures leads { Leads Scans self.old self.new }
        ensures turns { WaitingHaveTurns self.old self.new }
        ensures only { OnlyStarts self.old self.new }
    {
        self.waiting.gather(ANYTHING);
        self.start_unknown();
    }

    /// The newest of the requests that wait have their turns: of each older one it is known what it waits for.
    pub(crate) fn start_newest(&mut self)
        requires settled { IsSettled self.old }
        requires known { AreKnownFirst self.old }
        ensures core { IsCore self.new }
        ensures leads { Leads Scans self.old self.new }
        ensures turns { WaitingHaveTurns self.old self.new }
        ensures only { OnlyStarts self.old self.new }
    {
        if self.frames.is_live() {
            self.start_unknown();
        }
    }

    // Starts each that can start of those that wait for anything, from the oldest to the newest, and finds what each
    // other waits for. It is known of each older one.
    fn start_unknown(&mut self)
        requires settled { IsSettled self.old }
        requires live { AreLive self.old.frames }
        requires known { AreKnownFirst self.old }
        ensures core { IsCore self.new }
        ensures leads { Leads Scans self.old self.new }
        ensures turns { WaitingHaveTurns self.old self.new }
        ensures only { OnlyStarts self.old self.new }
    {
        while let Some(room) = self.room_for_oldest() {
            match room {
                Ok(room) => self.start(ANYTHING, room),
                Err(cause) => {
                    self.waiting.move_oldest(ANYTHING, cause);
                }
            }
        }
    }

    // What the oldest request that waits for anything can start with, or else what it waits for.
    fn room_for_oldest(&self) -> Option<Result<Room, usize>>
        requires { IsSettled self.now }
        ensures { MatchOption result
            (oldest_of anything (entries_of self.now.waiting) ≡ None)
            (λ room. (queued : Queued) × (oldest_of anything (entries_of self.now.waiting) ≡ Some queued)
            × IsRoomFor self.now.frames queued room) }
    {
        let queued = self.waiting.oldest(ANYTHING)?;
        let place = self.place(&queued.op);
        Some(self.room_for(queued, &place))
    }

    /// What a request of the shard, whose block stands at this place, can start with, or else what it waits for. A read
    /// of a position that is in sync waits for a direct buffer, and holds no row; all else has a free frame, if its row
    /// isn't held: a read that met a read error too, one of a slot that a hold has passed on, and from the limit of the
    /// tokens on every read.
    pub(crate) fn room_for(&self, queued: &Queued, place: &Place) -> Result<Room, usize>
        requires sound { held.IsSound self.now.frames }
        requires request { IsOpOf self.now.frames queued.now.op }
        requires place { IsPlaceOf self.now.frames.geometry queued.now.op place.now }
        ensures { IsRoomFor self.now.frames queued.now result }
    {
        if !self.frames.is_live() {
            return Err(ANYTHING);
        }
        if self.is_for_buffer(queued, place) {
            let Some(number) = self.frames.free_direct() else {
                return Err(FREE_BUFFER);
            };
            if self.frames.tokens() < LIMIT {
                return Ok(Room::Direct(number));
            }
        }
        if let Some(holder) = self.frames.holder(place.row) {
            return Err(holder);
        }
        match self.frames.free_frame() {
            Some(frame) => Ok(Room::Frame(frame)),
            None => Err(FREE_FRAME),
        }
    }

    // Whether it is a read of a position that is in sync for its row and isn't passed on, and met no read error.
    fn is_for_buffer(&self, queued: &Queued, place: &Place) -> bool
        requires sound { held.IsSound self.now.frames }
        requires request { IsOpOf self.now.frames queued.now.op }
        requires place { IsPlaceOf self.now.frames.geometry queued.now.op place.now }
        ensures { IsTrue result ↔ IsForBuffer self.now.frames queued.now }
    {
        if queued.erred {
            return false;
        }
        match &queued.op {
            Op::Read(..) => {
                self.frames.device(place.slot).is_in_sync(place.row)
                    && !self.frames.is_passed_on(place.row, place.slot)
            }
            Op::Write(..) => false,
        }
    }

    // Where the block that is asked for stands.
    fn place(&self, op: &Op) -> Place
        requires { IsOpOf self.now.frames op.now }
        ensures { IsPlaceOf self.now.frames.geometry op.now result }
    {
        match self.frames.geometry().place(op.block()) {
            Some(place) => place,
            None => unreachable!(),
        }
    }

    // The oldest request that waits for the cause starts, and those that join it.
    fn start(&mut self, cause: usize, room: Room)
        requires settled { IsSettled self.old }
        requires cause { cause < causes }
        requires first { IsFirstToStart self.old cause room }

        ensures settled { IsSettled self.new }
        ensures leads { Leads Scans self.old self.new }
        ensures live { AreLive self.new.frames }

        // the oldest is out of the line, and has started
        ensures left { LeavesLine self.old cause self.new }
        ensures starts { IfSome (oldest_of cause (entries_of self.old.waiting)) (λ queued.
            StartsWith room cause self.old queued self.new) }
        ensures only { OnlyStarts self.old self.new }
    {
        let Some(queued) = self.waiting.pop_oldest(cause) else {
            unreachable!()
        };
        let place = self.place(&queued.op);
        let Queued { id, op, erred: _ } = queued;
        let request = Request { id, op };
        match room {
            Room::Direct(number) => self.read(number, request, place),
            Room::Frame(frame) => self.hold(frame, request, place, Some([cause, FREE_FRAME])),
        }
    }

    /// The request, which stands at this place, is read directly.
    pub(crate) fn read(&mut self, number: usize, request: Request, place: Place)
        requires request { IsRequestOf self.old.frames request }
        requires place { IsPlaceOf self.old.frames.geometry request.op place }
        requires can { CanRead self.old.frames request.op number }

        // its command is put out
        ensures sound { held.IsSound self.new.frames }
        ensures live { AreLive self.new.frames }
        ensures reads { ReadsDirectly self.old.frames number (served_of request) self.new.frames }

        // holds and slots stay, and a direct read is used
        ensures holds { KeepsHolds self.old.frames self.new.frames }
        ensures slots { KeepsSlots self.old.frames self.new.frames }
        ensures taken { TakesDirect self.old.frames number self.new.frames }
        ensures next { self.new.frames.commands.next ≡ self.old.frames.commands.next + 1 }
        ensures same { self.new ≡ record self.old { frames = self.new.frames } }
    {
        let Request { id, op } = request;
        match op {
            Op::Read(block, buffer) => {
                let served = ServedRequest { id, block };
                self.frames.read(number, served, buffer, place);
            }
            Op::Write(..) => unreachable!(),
        }
    }
}

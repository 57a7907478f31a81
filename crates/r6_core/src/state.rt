//! The state of a shard, and what requests do to it.

ghost use Rattle.std.specs.Prelude.{◌≡◌, ◌+◌, ◌<◌, ◌++◌, ◌∷◌, [], length, map, MatchOption, IfOk, IfErr, IfSome};
ghost use Rattle.std.specs.Prelude.{◌≤◌, ◌↔◌, false, replicate, vec_capacity, IsTrue};
ghost use Rattle.circular_buffer.specs.Buffer.{buffer};
ghost use Rattle.r6_world.specs.ShardStates as shards;
ghost use Rattle.r6_kernels.specs.Blocks.{IsBlock};
ghost use Rattle.r6_layout.specs.Shape.{IsShape};
ghost use Rattle.r6_world.specs.Steps.{Submit, No_command, Take_reply, No_reply, Scans, Through};
ghost use Rattle.r6_world.specs.Changes.{Accept, after, Allowed};
ghost use Rattle.r6_world.specs.Values.{op_of, buffer_of, reply_of, buffer_back};
ghost use Rattle.r6_frames.specs.Calls as frames;
ghost use Rattle.r6_frames.specs.Calls.{IsPlaceOf};
ghost use Rattle.r6_frames.specs.Slots.{slot_before, AreUsed};
ghost use Rattle.r6_core.specs.Shards.{Step, core_of, state_of, layout_in, waiting_of};
ghost use Rattle.r6_core.specs.Refusals.{most_unanswered, HasSubmitFault, IsFirstFault, HasNone, submit_faults};
ghost use Rattle.r6_core.specs.Order.{NoReplies, SameReplies, BringsBack, TakesFirst, HasNoReply, HaveTurns, reply_to};
ghost use Rattle.r6_core.specs.Effects.{KeepsRequests, HandsCommand};
ghost use Rattle.r6_core.specs.Inside.{causes, IsSound, IsCore, IsFresh, SameCalls, SameFrames, Seen, reply_for};

use crate::call::Call;
use crate::counts::Counts;
use crate::queued::{Queued, wait};
use crate::refusal::{Refusal, Refused};
use crate::scan::{CAUSES, Room};
use crate::written::Written;
use circular_buffer::HeapCircularBuffer;
use r6_frames::{Device, FRAMES, Frames, Writes};
use r6_layout::{Geometry, MOST_SLOTS, Place};
use r6_waiters::Waiters;
use r6_world::{Command, Op, OpId, Reply, Request};
use std::alloc::{AllocError, Global};

/// The most accepted requests of a shard whose replies were not taken.
pub const MOST_UNANSWERED: usize = 256;

/// Requests and turns are refused from so many commands on.
pub const LIMIT: u64 = 1 << 60;

/// The state of a shard's core. An accepted request stands in one place: it waits, a row is held for it, or it has a
/// reply.
#[derive(Drop)]
pub(crate) struct State {
    /// How many requests were accepted so far.
    pub accepted: u64,
    /// How many of them have replies that were not taken.
    pub unanswered: usize,
    /// From the oldest to the newest, each with what it waits for.
    pub waiting: Waiters<Queued, Written>,
    /// Room for the writes of a hold, for each that isn't one of writes.
    pub rooms: Vec<Writes>,
    /// Those that are finished, in the order in which they finished. Once a look has seen that the array failed, those
    /// behind the released ones are answered so, from the oldest to the newest.
    pub replies: HeapCircularBuffer<Request>,
    /// How many of the replies, from the first on, are released.
    pub released: usize,
    /// To be made at the register, in this order.
    pub calls: HeapCircularBuffer<Call>,
    /// The call that was taken, until its answer is told.
    pub untold: Option<Call>,
    /// The row of the next check.
    pub check_row: u64,
    /// The row of the next repair.
    pub repair_row: u64,
    pub counts: Counts,
    pub frames: Frames,
}

impl State {
    /// A shard with no request, and with these devices; all room is made here.
    pub(crate) fn new(
        alloc: Global,
        geometry: Geometry,
        shard: usize,
        devices: [Device; MOST_SLOTS],
    ) -> Result<State, AllocError>
        requires limits { IsShape geometry }
        requires shard { shard < geometry.shards }
        requires devices { AreUsed devices }
        ensures core { IfOk result IsCore }
        ensures fresh { IfOk result (λ s. IsFresh s × (s.frames.geometry ≡ geometry) × (s.frames.shard ≡ shard)
            × (s.frames.slots ≡ map slot_before devices)) }
        ensures order { IfOk result (λ s. NoReplies (core_of s)) }
        ensures unanswered { IfOk result (λ s. s.unanswered ≡ 0) }
    {
        let first_row = geometry.shard_rows(shard).start;
        let lists = new_lists(alloc)?;
        let frames = Frames::new(alloc, geometry, shard, devices)?;
        let ((waiting, rooms), (replies, calls)) = lists;
        Ok(State {
            accepted: 0,
            unanswered: 0,
            waiting,
            rooms,
            replies,
            released: 0,
            calls,
            untold: None,
            check_row: first_row,
            repair_row: first_row,
            counts: Counts::none(),
            frames,
        })
    }

    // Whether as many requests are unanswered as may be.
    fn is_full(&self) -> bool
        ensures { IsTrue result ↔ (most_unanswered ≤ self.now.unanswered) }
    {
        self.unanswered >= MOST_UNANSWERED
    }

    // Where the block of a request stands, or why the request is refused.
    pub(crate) fn admit(&self, op: &Op) -> Result<Place, Refusal>
        requires { IsSound self.now }
        ensures right { IfOk result (λ _. HasNone (HasSubmitFault (core_of self.now) op.now) submit_faults) }
        ensures place { IfOk result (IsPlaceOf self.now.frames.geometry op.now) }
        ensures refused { IfErr result (IsFirstFault (HasSubmitFault (core_of self.now) op.now) submit_faults) }
    {
        let Some(place) = self.frames.geometry().place(op.block()) else {
            return Err(Refusal::NoSuchBlock);
        };
        if place.shard != self.frames.shard() {
            return Err(Refusal::WrongShard);
        }
        if op.buffer().len() != self.frames.geometry().block() {
            return Err(Refusal::WrongLength);
        }
        if self.frames.saw_failed() {
            return Err(Refusal::ArrayFailed);
        }
        if self.frames.tokens() >= LIMIT || self.accepted >= LIMIT {
            return Err(Refusal::Exhausted);
        }
        if self.is_full() {
            return Err(Refusal::Busy);
        }
        Ok(place)
    }

    /// Takes a request, which starts if it can.
    pub(crate) fn submit(&mut self, op: Op) -> Result<OpId, Refused<Op>>
        requires { IsCore self.old }
        ensures core { IsCore self.new }
        ensures step { IfOk result (λ id. Step (core_of self.old) (Submit (op_of op) id.0) (core_of self.new)) }
        ensures right { IfOk result (λ _. HasNone (HasSubmitFault (core_of self.old) op) submit_faults) }
        ensures refused { IfErr result (λ r.
            (self.new ≡ self.old) × (r.back ≡ op)
            × IsFirstFault (HasSubmitFault (core_of self.old) op) submit_faults r.refusal) }

        // what waited, and then the request, has its turn
        ensures order { IfOk result (λ _. Seen SameReplies self.old self.new) }
        ensures unanswered { IfOk result (λ _. self.new.unanswered ≡ self.old.unanswered + 1) }
        ensures turns { IfOk result (λ id. HaveTurns (core_of self.old)
            (after (layout_in self.old) (state_of self.old) (Accept (op_of op)))
            (waiting_of self.old ++ (record { id = id.0; op = op; erred = false }) ∷ []) (core_of self.new)) }
    {
        let place = match self.admit(&op) {
            Ok(place) => place,
            Err(refusal) => return Err(Refused { refusal, back: op }),
        };
        op.buffer().assure_bytes();
        Ok(OpId(self.accept(op, place)))
    }

    // Takes the request: it starts, if it can, and else it waits behind all others.
    fn accept(&mut self, op: Op, place: Place) -> u64
        requires core { IsCore self.old }
        requires right { HasNone (HasSubmitFault (core_of self.old) op) submit_faults }
        requires sized { IsBlock (length (buffer_of op)) (buffer_of op) }
        requires place { IsPlaceOf self.old.frames.geometry op place }

        // it is taken
        ensures core { IsCore self.new }
        ensures id { result ≡ self.old.accepted }
        ensures allowed { Allowed (layout_in self.old) self.old.frames.shard (state_of self.old) (Accept (op_of op)) }

        // and starts, or waits behind all others
        ensures leads { Through (layout_in self.old) self.old.frames.shard Scans
            (after (layout_in self.old) (state_of self.old) (Accept (op_of op))) (state_of self.new) }
        ensures turns { HaveTurns (core_of self.old)
            (after (layout_in self.old) (state_of self.old) (Accept (op_of op)))
            (waiting_of self.old ++ (record { id = result; op = op; erred = false }) ∷ []) (core_of self.new) }

        // the shard stays the shard that it is, and calls and replies stay
        ensures same { SameFrames self.old self.new }
        ensures calls { SameCalls self.old self.new }
        ensures order { Seen SameReplies self.old self.new }
        ensures unanswered { self.new.unanswered ≡ self.old.unanswered + 1 }
    {
        let id = self.accepted;
        let queued = Queued {
            id,
            op,
            erred: false,
        };
        self.accepted += 1;
        self.unanswered += 1;
        match self.room_for(&queued, &place) {
            Ok(Room::Direct(number)) => self.read(number, Request { id, op: queued.op }, place),
            Ok(Room::Frame(frame)) => self.hold(frame, Request { id, op: queued.op }, place, None),
            Err(cause) => wait(&mut self.waiting, cause, queued),
        }
        id
    }

    /// Takes the command that was put out first and not taken.
    pub(crate) fn take_command(&mut self) -> Option<Command>
        requires { IsCore self.old }
        ensures core { IsCore self.new }
        ensures step { MatchOption result
            (Step (core_of self.old) No_command (core_of self.new))
            (λ c. HandsCommand (core_of self.old) c (core_of self.new)) }
        ensures there { IfSome result (λ c. frames.IsCommandOf self.old.frames c) }
        ensures kept { Seen KeepsRequests self.old self.new }
        ensures same { SameCalls self.old self.new }
    {
        self.frames.take_command()
    }

    /// Takes the reply that was released first. Once the array has failed, those that it answers so follow.
    pub(crate) fn take_reply(&mut self) -> Option<(OpId, Reply)>
        requires { IsCore self.old }

        ensures core { IsCore self.new }
        ensures step { MatchOption result
            (Step (core_of self.old) No_reply (core_of self.new))
            (λ r. Step (core_of self.old) (Take_reply (r.0).0 (reply_of r.1)) (core_of self.new)) }
        ensures first { MatchOption result
            (HasNoReply (core_of self.old) × (self.new ≡ self.old))
            (λ r. TakesFirst (core_of self.old) (r.0).0 r.1 (core_of self.new)) }

        // its buffer comes back
        ensures buffer { IfSome result (λ r. BringsBack ((state_of self.old).request (r.0).0) r.1) }
        ensures sized { IfSome result (λ r. length (buffer_back r.1) ≡ self.old.frames.geometry.block) }

        // and one less is unanswered
        ensures unanswered { IfSome result (λ _. self.new.unanswered + 1 ≡ self.old.unanswered) }
        ensures waiting { self.new.waiting ≡ self.old.waiting }
        ensures same { SameCalls self.old self.new }
    {
        let is_released = self.released > 0;
        if !is_released && !self.frames.saw_failed() {
            return None;
        }
        let request = self.replies.pop_front()?;
        self.released = self.released.saturating_sub(1);
        self.unanswered -= 1;
        Some(reply(request, is_released))
    }
}

// A line in which no request waits, and room for the writes of a hold in each frame.
type Line = (Waiters<Queued, Written>, Vec<Writes>);

// Room for the replies of all requests, and for the calls.
type Queues = (HeapCircularBuffer<Request>, HeapCircularBuffer<Call>);

// All lists of a shard with no request.
fn new_lists(alloc: Global) -> Result<(Line, Queues), AllocError>
    ensures line { IfOk result (λ r. (r.0).0 ≡ (most_unanswered, (causes, []))) }
    ensures empty { IfOk result (λ r. ((r.0).1).items ≡ replicate shards.frames []) }
    ensures space { IfOk result (λ r. shards.frames ≤ vec_capacity (r.0).1) }
    ensures replies { IfOk result (λ r. (r.1).0 ≡ buffer [] most_unanswered) }
    ensures calls { IfOk result (λ r. (r.1).1 ≡ buffer [] 96) }
{
    let line = new_line(alloc)?;
    let queues = new_queues(alloc)?;
    Ok((line, queues))
}

fn new_line(alloc: Global) -> Result<Line, AllocError>
    ensures line { IfOk result (λ r. r.0 ≡ (most_unanswered, (causes, []))) }
    ensures empty { IfOk result (λ r. (r.1).items ≡ replicate shards.frames []) }
    ensures space { IfOk result (λ r. shards.frames ≤ vec_capacity r.1) }
{
    let waiting = Waiters::with_capacity(alloc, MOST_UNANSWERED, CAUSES)?;
    let rooms = new_rooms(alloc)?;
    Ok((waiting, rooms))
}

fn new_queues(alloc: Global) -> Result<Queues, AllocError>
    ensures replies { IfOk result (λ r. r.0 ≡ buffer [] most_unanswered) }
    ensures calls { IfOk result (λ r. r.1 ≡ buffer [] 96) }
{
    let replies = HeapCircularBuffer::with_capacity(alloc, MOST_UNANSWERED)?;
    let calls = HeapCircularBuffer::with_capacity(alloc, 3 * MOST_SLOTS)?;
    Ok((replies, calls))
}

// Room for the writes of a hold in each frame.
fn new_rooms(alloc: Global) -> Result<Vec<Writes>, AllocError>
    ensures empty { IfOk result (λ rooms. rooms.items ≡ replicate shards.frames []) }
    ensures space { IfOk result (λ rooms. shards.frames ≤ vec_capacity rooms) }
{
    let mut rooms = Vec::with_capacity(alloc, FRAMES)?;
    for _ in 0..FRAMES {
        rooms.push_reserved(Writes::new(alloc)?);
    }
    Ok(rooms)
}

// The answer to a request.
fn answer_to(op: Op) -> Reply
    ensures { result ≡ reply_to op }
{
    match op {
        Op::Read(_, buffer) => Reply::Data(buffer),
        Op::Write(_, buffer) => Reply::Done(buffer),
    }
}

// The reply to the request: its answer, if it is released, and else that the array has failed.
fn reply(request: Request, is_released: bool) -> (OpId, Reply)
    ensures { (((result.0).0) ≡ request.id) × (result.1 ≡ reply_for is_released request.op) }
{
    let Request { id, op } = request;
    if is_released {
        return (OpId(id), answer_to(op));
    }
    match op {
        Op::Read(_, buffer) | Op::Write(_, buffer) => (OpId(id), Reply::ArrayFailed(buffer)),
    }
}

//! Rows are held for requests, and a write takes others with it.

ghost use Rattle.std.specs.Prelude.{◌≡◌, ◌<◌, ◌+◌, ◌*◌, ◌^◌, ◌∷◌, [], ℕ, false, length, vec_capacity};
ghost use Rattle.std.specs.List.{AllByRecursion};
ghost use Rattle.r6_layout.specs.Layout as layout;
ghost use Rattle.r6_layout.specs.Shape.{IsShape, data_slots};
ghost use Rattle.r6_waiters.specs.Line.{entries_of, with_entries};
ghost use Rattle.r6_world.specs.declared.values.Op.TheVariants as op;
ghost use Rattle.r6_frames.specs.Calls.{IsPlaceOf, IsRequestOf};
ghost use Rattle.r6_frames.specs.Owed.{last_token, most_owed};
ghost use Rattle.r6_frames.specs.Sound as held;
ghost use Rattle.r6_frames.specs.Writes.{Entry, has_index, request_of};
ghost use Rattle.r6_core.specs.Inside.{BeginsFor, CanHold, HaveRooms, HoldsFor, IsFirst, IsQueuedOf, JoinedBy, JoinsOne, ServeTogether, row_of_request};

use crate::queued::Queued;
use crate::state::State;
use r6_frames::{Job, ServedRequest, Writes};
use r6_kernels::Buffer;
use r6_layout::Place;
use r6_stripe::RowTask;
use r6_world::{Op, Request};

impl State {
    /// The row of the request, which stands at this place, is held for it in the frame. A write takes waiting writes of
    /// the same row with it, the oldest of each other block: where there may be some, they wait mostly for one of the
    /// causes `near`.
    pub(crate) fn hold(
        &mut self,
        frame: usize,
        request: Request,
        place: Place,
        near: Option<[usize; 2]>,
    )
        requires sound { held.IsSound self.old.frames }
        requires rooms { HaveRooms self.old.rooms.items self.old.frames }

        // those that wait, and the request with its place
        requires request { IsRequestOf self.old.frames request }
        requires waiting { AllByRecursion (λ entry. IsQueuedOf self.old.frames entry.1) (entries_of self.old.waiting) }
        requires place { IsPlaceOf self.old.frames.geometry request.op place }

        // the row may be held
        requires can { CanHold self.old.frames (row_of_request self.old.frames request) frame }
        requires numbers { last_token self.old.frames + most_owed self.old.frames.geometry.slots < 2 ^ 63 }

        ensures { HoldsFor near frame self.old request self.new }
    {
        self.begin(frame, request, place, near);
        self.frames.drive(frame);
    }

    // The row is held for the request, and nothing is put out.
    fn begin(&mut self, frame: usize, request: Request, place: Place, near: Option<[usize; 2]>)
        requires sound { held.IsSound self.old.frames }
        requires rooms { HaveRooms self.old.rooms.items self.old.frames }
        requires request { IsRequestOf self.old.frames request }
        requires waiting { AllByRecursion (λ entry. IsQueuedOf self.old.frames entry.1) (entries_of self.old.waiting) }
        requires place { IsPlaceOf self.old.frames.geometry request.op place }
        requires can { CanHold self.old.frames (row_of_request self.old.frames request) frame }
        ensures { BeginsFor near frame self.old request self.new }
    {
        let Request { id, op } = request;
        match op {
            Op::Read(block, buffer) => {
                let job = Job::Read(ServedRequest { id, block }, buffer);
                self.frames
                    .begin(frame, place.row, job, RowTask::Read(place.index));
            }
            Op::Write(block, buffer) => {
                let served = ServedRequest { id, block };
                let writes = self.writes_with(served, buffer, &place, near);
                let (served, batch) = writes.into_parts();
                let job = Job::Write(served);
                self.frames
                    .begin(frame, place.row, job, RowTask::Write(batch));
            }
        }
    }

    // The writes that a hold of this write serves.
    fn writes_with(
        &mut self,
        served: ServedRequest,
        buffer: Buffer,
        place: &Place,
        near: Option<[usize; 2]>,
    ) -> Writes
        requires shape { IsShape self.old.frames.geometry }
        requires some { 0 < length self.old.rooms.items }
        requires rooms { AllByRecursion (λ writes. writes ≡ []) self.old.rooms.items }

        // those that wait, and the request with its place
        requires request { IsRequestOf self.old.frames (record { id = served.id; op = op.Write served.block buffer }) }
        requires waiting { AllByRecursion (λ entry. IsQueuedOf self.old.frames entry.1) (entries_of self.old.waiting) }
        requires place { IsPlaceOf self.old.frames.geometry (op.Write served.block buffer) place.now }

        // the write, and those that join it
        ensures writes { JoinedBy near self.old (record { id = served.id; op = op.Write served.block buffer })
            result self.new.waiting }

        // one room is used, and nothing else changes
        ensures fewer { length self.new.rooms.items + 1 ≡ length self.old.rooms.items }
        ensures rooms { AllByRecursion (λ writes. writes ≡ []) self.new.rooms.items }
        ensures space { vec_capacity self.new.rooms ≡ vec_capacity self.old.rooms }
        ensures rest { self.new ≡ record self.old { waiting = self.new.waiting; rooms = self.new.rooms } }
    {
        let Some(mut writes) = self.rooms.pop() else {
            unreachable!()
        };
        writes.put(place.index, served, buffer);
        match near {
            Some(near) => self.join(writes, place, near),
            None => writes,
        }
    }

    // With the one write goes the oldest that waits for each other block of its row.
    fn join(&mut self, mut writes: Writes, place: &Place, near: [usize; 2]) -> Writes
        requires shape { IsShape self.old.frames.geometry }
        requires first { (write : Entry) × IsFirst self.old.frames place.now writes write }
        requires waiting { AllByRecursion (λ entry. IsQueuedOf self.old.frames entry.1) (entries_of self.old.waiting) }
        ensures together { (write : Entry) → writes ≡ write ∷ []
            → ServeTogether self.old.frames (request_of write) (entries_of self.old.waiting) result
            (entries_of self.new.waiting) }
        ensures line { self.new.waiting ≡ with_entries self.old.waiting (entries_of self.new.waiting) }
        ensures rest { self.new ≡ record self.old { waiting = self.new.waiting } }
    {
        for index in 0..self.frames.geometry().data_slots() {
            if index == place.index {
                continue;
            }
            self.join_one(&mut writes, place.row, index, near);
        }
        writes
    }

    // Takes the oldest waiting write of the row's block at the index, if there is one.
    fn join_one(&mut self, writes: &mut Writes, row: u64, index: usize, near: [usize; 2])
        requires row { row < self.old.frames.geometry.rows }
        requires index { index < data_slots self.old.frames.geometry }
        requires small { index < 32 }
        requires new { has_index writes.old index ≡ false }
        ensures { JoinsOne (layout.block_at self.old.frames.geometry row index) index self.old writes.old
            self.new writes.new }
    {
        let block = self.frames.geometry().block_of(row, index);
        if let Some(Queued { id, op, erred: _ }) = self.waiting.take(block, near) {
            match op {
                Op::Write(block, buffer) => writes.put(index, ServedRequest { id, block }, buffer),
                Op::Read(..) => {}
            }
        }
    }
}

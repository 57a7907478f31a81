//! Completions of commands, and losses that they tell of.

ghost use Rattle.std.specs.Prelude.{◌≡◌, ◌≢◌, ◌⊎◌, ◌+◌, ◌<◌, ◌≤◌, ◌++◌, ◌∷◌, [], ◌^◌, ℕ, length, MatchOption, IfOk, IfErr};
ghost use Rattle.circular_buffer.specs.Buffer.{buffer};
ghost use Rattle.r6_world.specs.Changes.{counted};
ghost use Rattle.r6_world.specs.Steps.{Deliver, Good, Error, Read_error, Taken, GoesOn};
ghost use Rattle.r6_frames.specs.declared.answer.Expected.TheVariants as Expected;
ghost use Rattle.r6_frames.specs.Views.{AreLive};
ghost use Rattle.r6_frames.specs.Reads.{IsExpected, IsOfRead};
ghost use Rattle.r6_frames.specs.Calls.{IsAwaited, IsAbandoned, IsFirstRead, IsHeldFrame, KeepsHolds, KeepsOthers, KeepsReads, requests_of as requests_ended, MayMark, ended_task, ended_outcome};
ghost use Rattle.r6_frames.specs.Sound as held;
ghost use Rattle.r6_frames.specs.Owed.{IsDriven};
ghost use Rattle.r6_world.specs.Values.{buffer_in, completion_of, error_of, receipt_of};
ghost use Rattle.r6_core.specs.Shards.{Step, core_of, counts_of};
ghost use Rattle.r6_core.specs.Refusals.{IsFirstFault, HasNone, deliver_faults};
ghost use Rattle.r6_core.specs.Order.{MayFinish, Finishes, FinishesBy, HaveTurnsBehind, SameReplies};
ghost use Rattle.r6_core.specs.Inside.{freed_with, IsSound, IsSettled, IsCore, IsMarked, IsPlainEnd, IsRestedFrame, one_rebuilt, HasFault, HasFreed, HasBuffer, HasEnded, HasPlace, HandsBack, FreesRoom, AreReadOn, AreReadable, GivesOver, FinishesHeld, FinishMore, MovesOver, NoneMoves, rows_counted, KeepsShard, KeepsWaiting, ReadAgain, ReadAgainFor, Leads, LosesThrough, Seen, SetBack, TakesThrough};

use crate::call::Call;
use crate::queued::{Queued, wait};
use crate::refusal::{Refusal, Refused};
use crate::scan::{ANYTHING, Freed};
use crate::state::State;
use circular_buffer::HeapCircularBuffer;
use r6_frames::{Ended, Expected, ServedRequest, Target};
use r6_kernels::Buffer;
use r6_world::{DeviceFault, FaultKind, Op, Receipt, Request};

impl State {
    // What the completion is for, or else why it is refused.
    fn expected(
        &self,
        token: u64,
        completion: &Result<Buffer, DeviceFault>,
    ) -> Result<Expected, Refusal>
        requires { IsSound self.now }
        ensures right { IfOk result (λ _. HasNone (HasFault self.now token completion.now) deliver_faults) }
        ensures expected { IfOk result (IsExpected self.now.frames token) }
        ensures fault { IfErr result (IsFirstFault (HasFault self.now token completion.now) deliver_faults) }
    {
        let Some(expected) = self.frames.expected(token) else {
            return Err(Refusal::UnknownToken);
        };
        let len = match completion {
            Ok(buffer) => buffer.len(),
            Err(fault) => fault.buffer.len(),
        };
        if len != self.frames.geometry().block() {
            return Err(Refusal::WrongLength);
        }
        Ok(expected)
    }

    /// Takes the completion of a command, lets holds go on, and starts what can start then.
    pub(crate) fn deliver(
        &mut self,
        token: u64,
        completion: Result<Buffer, DeviceFault>,
    ) -> Result<Receipt, Refused<Result<Buffer, DeviceFault>>>
        requires { IsCore self.old }
        ensures core { IsCore self.new }
        ensures step { IfOk result (λ receipt. Step (core_of self.old)
            (Deliver token (completion_of completion) (receipt_of receipt)) (core_of self.new)) }
        ensures right { IfOk result (λ _. HasNone (HasFault self.old token completion) deliver_faults) }
        ensures refused { IfErr result (λ r.
            (self.new ≡ self.old) × (r.back ≡ completion)
            × IsFirstFault (HasFault self.old token completion) deliver_faults r.refusal) }

        // holds go on, and what waited has its turn
        ensures order { IfOk result (λ _. Seen (FinishesBy completion) self.old self.new) }
        ensures unanswered { self.new.unanswered ≡ self.old.unanswered }
        ensures turns { IfOk result (λ receipt.
            HaveTurnsBehind (core_of self.old) token completion receipt (core_of self.new)) }
    {
        let expected = match self.expected(token, &completion) {
            Ok(expected) => expected,
            Err(refusal) => {
                return Err(Refused {
                    refusal,
                    back: completion,
                });
            }
        };
        let (receipt, freed) = self.take(expected, token, completion);
        self.start_waiting(freed);
        Ok(receipt)
    }

    // The completion of a command that was taken: late, or with what it does to its hold or to all; and what it frees.
    fn take(
        &mut self,
        expected: Expected,
        token: u64,
        completion: Result<Buffer, DeviceFault>,
    ) -> (Receipt, Freed)
        requires core { IsCore self.old }
        requires expected { IsExpected self.old.frames token expected }
        requires right { HasNone (HasFault self.old token completion) deliver_faults }

        ensures settled { IsSettled self.new }
        ensures freed { HasFreed result.1 self.new }
        ensures takes { TakesThrough self.old token (completion_of completion) (receipt_of result.0) self.new }

        // what waits again, and which requests are finished
        ensures keeps { KeepsShard self.old self.new }
        ensures again { ReadAgainFor completion self.old token self.new }
        ensures order { Seen (FinishesBy completion) self.old self.new }
        ensures others { IfOk completion (λ _. (frame : ℕ) × KeepsOthers self.old.frames frame self.new.frames) }
    {
        if let Expected::Late = expected {
            self.frames.come_home(token, buffer_of(completion));
            return (Receipt::Late, Freed::Any);
        }
        match completion {
            Ok(buffer) => (Receipt::Taken, self.answer(expected, token, buffer)),
            Err(fault) => {
                self.take_fault(expected, token, fault);
                (Receipt::Taken, Freed::Any)
            }
        }
    }

    // The command's device answered by a fault, which takes it out, but for the first read error of a read.
    fn take_fault(&mut self, expected: Expected, token: u64, fault: DeviceFault)
        requires core { IsSettled self.old }
        requires expected { IsExpected self.old.frames token expected }
        requires wanted { expected ≢ Expected.Late }
        requires size { length fault.buffer ≡ self.old.frames.geometry.block }

        ensures core { IsSettled self.new }
        ensures takes { TakesThrough self.old token (error_of fault.kind) Taken self.new }

        // what waits again, and which requests are finished
        ensures keeps { KeepsShard self.old self.new }
        ensures again { ReadAgainFor (Err fault) self.old token self.new }
        ensures order { Seen Finishes self.old self.new }
    {
        let DeviceFault { kind, buffer } = fault;
        match kind {
            FaultKind::ReadFault => self.take_read_error(expected, token, buffer),
            FaultKind::WriteFault | FaultKind::Gone | FaultKind::Length => self.lose(token, buffer),
        }
    }

    // A direct read that met a read error waits to be held, and the hold of a first read goes on with the other blocks.
    // That of a second read takes the device out, as any fault of a write.
    fn take_read_error(&mut self, expected: Expected, token: u64, buffer: Buffer)
        requires core { IsSettled self.old }
        requires expected { IsExpected self.old.frames token expected }
        requires wanted { expected ≢ Expected.Late }
        requires size { length buffer ≡ self.old.frames.geometry.block }

        ensures core { IsSettled self.new }
        ensures takes { TakesThrough self.old token Read_error Taken self.new }

        // what waits again, and which requests are finished
        ensures keeps { KeepsShard self.old self.new }
        ensures again { ReadAgain self.old self.new ⊎ SetBack self.old token self.new }
        ensures order { Seen Finishes self.old self.new }
    {
        if let Expected::Read = expected {
            self.set_back(token, buffer);
        } else if self.frames.is_first_read(token) {
            self.fail(token, buffer);
        } else {
            self.lose(token, buffer);
        }
    }

    // A direct read met an error. Its request waits again, behind all others, and is to be held.
    fn set_back(&mut self, token: u64, buffer: Buffer)
        requires core { IsSettled self.old }
        requires awaited { IsAwaited self.old.frames token }
        requires wanted { IsAbandoned self.old.frames token → ⊥ }
        requires read { IsOfRead self.old.frames token }
        requires size { length buffer ≡ self.old.frames.geometry.block }

        ensures core { IsSettled self.new }
        ensures takes { TakesThrough self.old token Read_error Taken self.new }

        // it alone waits again, and no request is finished
        ensures keeps { KeepsShard self.old self.new }
        ensures again { SetBack self.old token self.new }
        ensures order { Seen SameReplies self.old self.new }
    {
        let Request { id, op } = self.frames.set_back(token, buffer);
        let erred = Queued {
            id,
            op,
            erred: true,
        };
        wait(&mut self.waiting, ANYTHING, erred);
    }

    // The command is answered: a direct read has its reply; or its hold goes on, and ends if it is over.
    fn answer(&mut self, expected: Expected, token: u64, buffer: Buffer) -> Freed
        requires core { IsCore self.old }
        requires expected { IsExpected self.old.frames token expected }
        requires wanted { expected ≢ Expected.Late }
        requires size { length buffer ≡ self.old.frames.geometry.block }

        ensures settled { IsSettled self.new }
        ensures freed { HasFreed result self.new }
        ensures takes { TakesThrough self.old token (Good buffer) Taken self.new }

        // what waits, and which requests are finished
        ensures keeps { KeepsWaiting self.old self.new }
        ensures order { Seen MayFinish self.old self.new }
        ensures others { (frame : ℕ) × KeepsOthers self.old.frames frame self.new.frames }
    {
        if let Expected::Read = expected {
            self.give(token, buffer);
            return Freed::Buffer;
        }
        let frame = self.frames.answer(token, buffer);
        self.frames.drive(frame);
        let before = self.replies.len();
        let freed = self.finish(frame);
        self.sort_finished(before);
        freed
    }

    // The command of a direct read is answered: its request has its reply, the block.
    fn give(&mut self, token: u64, buffer: Buffer)
        requires core { IsCore self.old }
        requires awaited { IsAwaited self.old.frames token }
        requires wanted { IsAbandoned self.old.frames token → ⊥ }
        requires read { IsOfRead self.old.frames token }
        requires size { length buffer ≡ self.old.frames.geometry.block }

        ensures settled { IsSettled self.new }
        ensures freed { HasBuffer self.new }
        ensures takes { TakesThrough self.old token (Good buffer) Taken self.new }

        // what waits, and which requests are finished
        ensures keeps { KeepsWaiting self.old self.new }
        ensures order { Seen MayFinish self.old self.new }
        ensures holds { KeepsHolds self.old.frames self.new.frames }
    {
        let request = self.frames.answer_read(token, buffer);
        self.finished(request);
    }

    // The device of the command has failed: it alone is out, and the loss is to be declared. Direct reads from it wait
    // again, and holds go on without it.
    fn lose(&mut self, token: u64, buffer: Buffer)
        requires core { IsSettled self.old }
        requires awaited { IsAwaited self.old.frames token }
        requires wanted { IsAbandoned self.old.frames token → ⊥ }
        requires size { length buffer ≡ self.old.frames.geometry.block }

        ensures core { IsSettled self.new }
        ensures takes { LosesThrough self.old token self.new }

        // what waits again, and which requests are finished
        ensures keeps { KeepsShard self.old self.new }
        ensures again { ReadAgain self.old self.new }
        ensures order { Seen Finishes self.old self.new }
    {
        let (slot, generation) = self.frames.lose(token, buffer);
        push_back(&mut self.calls, Call::DeclareLost(slot, generation));
        self.give_over();
        self.read_again();
        self.settle();
    }

    // The first read of a position met an error. No slot is lost for it, and its hold goes on with the other blocks.
    fn fail(&mut self, token: u64, buffer: Buffer)
        requires core { IsSettled self.old }
        requires awaited { IsAwaited self.old.frames token }
        requires wanted { IsAbandoned self.old.frames token → ⊥ }
        requires hold { IsOfRead self.old.frames token → ⊥ }
        requires first { IsFirstRead self.old.frames token }
        requires size { length buffer ≡ self.old.frames.geometry.block }

        ensures core { IsSettled self.new }
        ensures takes { TakesThrough self.old token Read_error Taken self.new }

        // what waits again, and which requests are finished
        ensures keeps { KeepsShard self.old self.new }
        ensures again { ReadAgain self.old self.new }
        ensures order { Seen Finishes self.old self.new }
    {
        let _ = self.frames.fail(token, buffer);
        self.give_over();
        self.read_again();
        self.settle();
    }

    /// Where too few blocks of a hold can still become known, a read error whose position has the block on a second
    /// device takes the first one out, alone. If too few can then, the slots of the read errors are lost, and the shard
    /// stops. The losses are to be declared.
    pub(crate) fn give_over(&mut self)
        requires { IsSound self.old }
        ensures { GivesOver self.old self.new }
    {
        self.move_over();
        self.lose_over();
    }

    // The first of two devices is taken out whose read error keeps a hold from going on: the second has the block.
    fn move_over(&mut self)
        requires { IsSound self.old }
        ensures { MovesOver self.old self.new }
    {
        if !self.frames.is_live() {
            return;
        }
        let Some(frame) = self.frames.any_moving() else {
            return;
        };
        let (slot, generation) = self.frames.move_over(frame);
        push_back(&mut self.calls, Call::DeclareLost(slot, generation));
    }

    // The slots are lost whose read errors keep a hold from going on.
    fn lose_over(&mut self)
        requires sound { IsSound self.old }
        requires moved { NoneMoves self.old.frames }
        ensures { GivesOver self.old self.new }
    {
        if !self.frames.is_live() {
            return;
        }
        let Some(frame) = self.frames.any_losing() else {
            return;
        };
        let losses = self.frames.give_over(frame);
        for index in 0..losses.len() {
            let (slot, generation) = losses[index];
            push_back(&mut self.calls, Call::DeclareLost(slot, generation));
        }
    }

    /// The direct reads whose commands are gone or abandoned wait again, behind all others, in the order of their
    /// tokens.
    pub(crate) fn read_again(&mut self)
        requires { IsSound self.old }
        ensures { HandsBack self.old self.new }
    {
        while let Some(request) = self.frames.hand_back() {
            let Request { id, op } = request;
            let queued = Queued {
                id,
                op,
                erred: false,
            };
            wait(&mut self.waiting, ANYTHING, queued);
        }
    }

    /// Holds go on after a loss, and those that are over end. Their requests are finished by number.
    pub(crate) fn settle(&mut self)
        requires sound { IsSound self.old }
        requires reading { AreReadOn self.old.frames }
        requires readable { AreReadable self.old.frames }
        ensures core { IsSettled self.new }
        ensures leads { Leads GoesOn self.old self.new }
        ensures keeps { KeepsWaiting self.old self.new }
        ensures order { Seen Finishes self.old self.new }
    {
        if !self.frames.is_live() {
            return;
        }
        let first = self.replies.len();
        self.frames.drive_all();
        while let Some(frame) = self.frames.any_over() {
            let _ = self.finish(frame);
        }
        self.sort_finished(first);
    }

    // The frame's hold ends, if it is over, and its requests are finished.
    fn finish(&mut self, frame: usize) -> Freed
        requires sound { IsSound self.old }
        requires live { AreLive self.old.frames }
        requires held { IsHeldFrame self.old.frames frame }
        requires driven { IsDriven self.old.frames frame }
        ensures sound { IsSound self.new }
        ensures live { AreLive self.new.frames }
        ensures leads { Leads GoesOn self.old self.new }
        ensures rests { IsRestedFrame self.new frame }

        // requests of its row alone are finished, and nothing else changes
        ensures others { KeepsOthers self.old.frames frame self.new.frames }
        ensures keeps { KeepsWaiting self.old self.new }
        ensures more { FinishMore self.old self.new }
        ensures reads { KeepsReads self.old.frames self.new.frames }
        ensures released { self.new.released ≡ self.old.released }
        ensures ends { FinishesHeld self.old frame self.new }
        ensures freed { HasEnded result frame self.old self.new }
    {
        if self.frames.has_out(frame) {
            return Freed::Nothing;
        }
        let passed_on = self.frames.has_passed_on(frame);
        match self.frames.finish(frame) {
            Some(Ended::Rebuilt(target, row)) => {
                self.mark_rebuilt(target, row);
                Freed::Any
            }
            Some(ended) => {
                self.close(ended);
                freed_with(frame, passed_on)
            }
            None => Freed::Nothing,
        }
    }

    // The row is rebuilt, and counted. With the last row of the shard the slot is in sync, and the register is to hear
    // it.
    fn mark_rebuilt(&mut self, target: Target, row: u64)
        requires live { AreLive self.old.frames }
        requires may { MayMark self.old.frames (Ended.Rebuilt target row) }
        requires room { length self.old.calls.items < self.old.calls.capacity }
        requires counts { rows_counted self.old.counts < 2 ^ 63 }

        // the row is marked
        ensures sound { held.IsSound self.new.frames }
        ensures live { AreLive self.new.frames }
        ensures marked { IsMarked self.old target row self.new }

        // and nothing else changes but calls and counts
        ensures holds { KeepsHolds self.old.frames self.new.frames }
        ensures commands { self.new.frames.commands ≡ self.old.frames.commands }
        ensures same { self.new ≡ record self.old {
          frames = self.new.frames;
          calls = self.new.calls;
          counts = one_rebuilt self.old.counts;
        } }
    {
        self.counts.rebuilt += 1;
        if self.frames.mark_rebuilt(target, row) {
            let call = Call::ReportRebuilt(target.slot, target.generation);
            push_back(&mut self.calls, call);
        }
    }

    // Requests have their replies, and the row of a check or repair is counted.
    fn close(&mut self, ended: Ended)
        requires plain { IsPlainEnd ended }
        requires room { length self.old.replies.items + length (requests_ended ended) ≤ self.old.replies.capacity }
        requires place { HasPlace ended self.old.rooms }
        requires counts { rows_counted self.old.counts < 2 ^ 63 }

        ensures plain { IsPlainEnd ended }
        ensures same { self.new ≡ record self.old {
          replies = buffer (self.old.replies.items ++ requests_ended ended) self.old.replies.capacity;
          counts = self.new.counts;
          rooms = self.new.rooms;
        } }

        // its room is free again, and it is counted
        ensures rooms { FreesRoom ended self.old.rooms self.new.rooms }
        ensures counted { counts_of self.new.counts
            ≡ counted (counts_of self.old.counts) (ended_task ended) (ended_outcome ended) }
    {
        match ended {
            Ended::Read(..) | Ended::Wrote(_) => self.reply_to(ended),
            Ended::Classed(scrub, class) => self.counts.add(scrub, class),
            Ended::Skipped(_) => self.counts.skipped += 1,
            Ended::Rebuilt(..) | Ended::GivenUp(_) => {}
        }
    }

    /// The requests of what has ended have their replies, and the room of writes is free again.
    pub(crate) fn reply_to(&mut self, ended: Ended)
        requires room { length self.old.replies.items + length (requests_ended ended) ≤ self.old.replies.capacity }
        requires place { HasPlace ended self.old.rooms }
        ensures same { self.new ≡ record self.old {
          replies = buffer (self.old.replies.items ++ requests_ended ended) self.old.replies.capacity;
          rooms = self.new.rooms;
        } }
        ensures rooms { FreesRoom ended self.old.rooms self.new.rooms }
    {
        match ended {
            Ended::Read(ServedRequest { id, block }, buffer) => {
                let op = Op::Read(block, buffer);
                self.finished(Request { id, op });
            }
            Ended::Wrote(mut writes) => {
                while let Some(request) = writes.take() {
                    self.finished(request);
                }
                self.rooms.push_reserved(writes);
            }
            Ended::Classed(..) | Ended::Skipped(_) | Ended::Rebuilt(..) | Ended::GivenUp(_) => {}
        }
    }

    /// The request is finished, behind all that were.
    pub(crate) fn finished(&mut self, request: Request)
        requires room { length self.old.replies.items < self.old.replies.capacity }
        ensures same { self.new ≡ record self.old {
          replies = buffer (self.old.replies.items ++ request ∷ []) self.old.replies.capacity;
        } }
    {
        push_back(&mut self.replies, request);
    }
}

// What is freed where the frame has let its row go: with a slot of the row that was passed on any read may start.
fn freed_with(frame: usize, passed_on: bool) -> Freed
    ensures { result ≡ freed_with frame passed_on }
{
    if passed_on {
        Freed::Any
    } else {
        Freed::Row(frame)
    }
}

// The item is put in, behind all others.
fn push_back<T: Drop>(line: &mut HeapCircularBuffer<T>, item: T)
    requires { length line.old.items < line.old.capacity }
    ensures { line.new ≡ buffer (line.old.items ++ item ∷ []) line.old.capacity }
{
    let Ok(()) = line.try_push_back(item) else {
        unreachable!()
    };
}

// The block that comes home with the completion.
fn buffer_of(completion: Result<Buffer, DeviceFault>) -> Buffer
    ensures { result ≡ buffer_in completion }
{
    match completion {
        Ok(buffer) => buffer,
        Err(DeviceFault { kind: _, buffer }) => buffer,
    }
}

//! A hold over the blocks of a row in memory, which does one step at a time.

ghost use Rattle.std.specs.Prelude.{◌≡◌, ◌≤◌, ◌<◌, length, true, IfOk};
ghost use Rattle.r6_stripe.specs.Batches.{AreNewFor};

use crate::blocks::{blocks_of, grown, is_grown};
use crate::hold_caller::{RowBlocks, answer, fail, give_over, place_of};
use r6_kernels::Buffer;
use r6_stripe::{Batch, Frame, Hold, Mask, Outcome, RowCommand, RowTask};
use std::alloc::{AllocError, Global};
use std::test::Fail;

/// The bytes of a block.
const BLOCK: usize = 16;

/// What stands at a position that is lost, or couldn't be read, is of no account.
const SPOILED: [u8; 16] = [0xee; 16];

/// What a hold is asked: the index of a data block; the new blocks, by index the byte with which each begins; the
/// position of the target.
#[derive(Clone, Copy)]
pub(crate) enum Ask<'a> {
    Read(usize),
    Write(&'a [(usize, u8)]),
    Rebuild(usize),
    Check,
    Repair,
    /// The same of a row whose position has a second device.
    Replaced(usize, &'a Ask<'a>),
}

/// What happens next, and what comes of it.
#[derive(Clone, Copy)]
pub(crate) enum Step {
    /// The next command is put out, and waits: a read of this position, a write of it, a write to its second device, or
    /// none.
    Read(usize),
    Write(usize),
    Copy(usize),
    Nothing,
    /// All commands are put out, and wait: so many.
    PutOut(usize),
    /// The device of the position performs its command that waits, whose buffer comes home; its second device does.
    Answer(usize),
    AnswerCopy(usize),
    /// Commands are put out and performed one by one, at the most as many as the first number: as many as the second.
    Drive(usize, usize),
    /// The position is lost.
    Lose(usize),
    /// The device of the position answers its read that waits by a read error, and its block is spoiled until it is
    /// written. The buffer comes home.
    Fail(usize),
    /// These positions have read errors that aren't fixed, and whether they are to be lost.
    Unreadable(&'static [usize], bool),
    /// They are lost, if they are to be.
    GiveOver,
    /// Whether the hold is over.
    IsOver(bool),
    /// How the hold has ended.
    End(Option<Outcome>),
    /// Whether all buffers are home.
    IsHome(bool),
    /// The hold has put a block that begins with this byte at a position.
    Has(usize, u8),
    /// The second device's block begins with this byte.
    SecondHas(u8),
}

/// What is put out of the next command.
#[derive(Clone, Copy, PartialEq, Eq)]
pub(crate) enum Next {
    Read(usize),
    Write(usize),
    Copy(usize),
}

/// A hold over a row of blocks that begin with these bytes, of whose positions these are in sync, and the steps that it
/// has to take. Then its devices have the bytes `after` but at the lost positions. A second device has zeros at first.
#[derive(Clone, Copy)]
pub(crate) struct Course<'a> {
    pub(crate) name: &'a str,
    pub(crate) ask: Ask<'a>,
    pub(crate) bytes: &'a [u8],
    pub(crate) in_sync: &'a [bool],
    pub(crate) steps: &'a [Step],
    pub(crate) after: &'a [u8],
    pub(crate) lost: &'a [usize],
}

/// A hold, the blocks of its row, and the commands that wait.
#[derive(Drop)]
pub(crate) struct Bench {
    pub(crate) hold: Hold,
    pub(crate) row: RowBlocks,
    pub(crate) out: Vec<RowCommand>,
}

/// Whether each block but those at the lost positions begins with its byte.
pub(crate) fn has_bytes(blocks: &Vec<Buffer>, bytes: &[u8], lost: &[usize]) -> bool {
    if blocks.len() != bytes.len() {
        return false;
    }
    for position in 0..blocks.len() {
        if !lost.contains(&position) && !is_grown(&blocks[position], bytes[position]) {
            return false;
        }
    }
    true
}

/// New blocks for a row of so many positions: by index the byte with which each block begins.
fn batch_of(alloc: Global, new: &[(usize, u8)], count: usize) -> Result<Batch, Fail>
    ensures { IfOk result (λ batch. AreNewFor count 16 batch.blocks) }
{
    let mut batch = Batch::new(alloc)?;
    for (index, byte) in new {
        if *index >= 30 || *index + 2 >= count || batch.has(*index) {
            return Err(Fail::from("no batch"));
        }
        let block = grown(alloc, BLOCK, *byte)?;
        batch.put(*index, block);
    }
    if batch.is_empty() {
        return Err(Fail::from("no block"));
    }
    Ok(batch)
}

/// The hold of a row, of whose positions these are in sync.
fn hold_of(alloc: Global, ask: &Ask<'_>, in_sync: &[bool]) -> Result<Hold, Fail> {
    let count = in_sync.len();
    if count < 4 || count > 32 {
        return Err(Fail::from("no row"));
    }
    let (ask, replaced) = match ask {
        Ask::Replaced(position, ask) => (*ask, Some(*position)),
        _ => (ask, None),
    };
    let task = match ask {
        Ask::Read(index) if *index < count - 2 => RowTask::Read(*index),
        Ask::Write(new) => RowTask::Write(batch_of(alloc, *new, count)?),
        Ask::Rebuild(target) if *target < count => RowTask::Rebuild(*target),
        Ask::Check => RowTask::Check,
        Ask::Repair => RowTask::Repair,
        Ask::Read(_) | Ask::Rebuild(_) => return Err(Fail::from("no position")),
        Ask::Replaced(_, _) => return Err(Fail::from("no third device")),
    };
    let frame = Frame::new(alloc, count, BLOCK)?;
    let mask = mask_of(in_sync);
    match replaced {
        None => Ok(Hold::begin(frame, task, mask)),
        Some(position) if position < count && mask.contains(position) => {
            Ok(Hold::begin_beside(frame, task, mask, position))
        }
        Some(_) => Err(Fail::from("no device to replace")),
    }
}

/// The positions whose flags are set, of at most 32.
fn mask_of(flags: &[bool]) -> Mask {
    let mut mask = Mask::none();
    for position in 0..flags.len() {
        if position < 32 {
            mask = mask.put(position, flags[position]);
        }
    }
    mask
}

pub(crate) fn position_of(command: &RowCommand) -> usize {
    place_of(command).0
}

fn next_of(command: &RowCommand) -> Next {
    match command {
        RowCommand::Read(position, _) => Next::Read(*position),
        RowCommand::Write(position, _) => Next::Write(*position),
        RowCommand::Copy(position, _) => Next::Copy(*position),
    }
}

/// How many steps of a course a hold takes, up to the first that doesn't go so; one more, if its devices have the
/// course's bytes then.
pub(crate) fn played(alloc: Global, course: &Course<'_>) -> Result<usize, Fail> {
    let mut bench = Bench::new(alloc, &course.ask, course.bytes, course.in_sync)?;
    let steps = bench.play(course);
    // here, as one call: by the end of the block it would be proved anew at each exit
    drop(bench);
    Ok(steps?)
}

impl Course<'_> {
    /// What `played` answers if all goes as the course has it.
    pub(crate) fn end(&self) -> usize {
        self.steps.len().saturating_add(1)
    }
}

impl Bench {
    /// A row of blocks that begin with these bytes, of whose positions these are in sync.
    pub(crate) fn new(
        alloc: Global,
        ask: &Ask<'_>,
        bytes: &[u8],
        in_sync: &[bool],
    ) -> Result<Bench, Fail> {
        Ok(Bench {
            hold: hold_of(alloc, ask, in_sync)?,
            row: RowBlocks {
                blocks: blocks_of(alloc, BLOCK, bytes)?,
                second: grown(alloc, BLOCK, 0)?,
            },
            out: Vec::new(alloc),
        })
    }

    fn play(&mut self, course: &Course<'_>) -> Result<usize, AllocError> {
        for (index, step) in course.steps.iter().enumerate() {
            if !self.goes(step)? {
                return Ok(index);
            }
        }
        Ok(if has_bytes(&self.row.blocks, course.after, course.lost) {
            course.end()
        } else {
            course.steps.len()
        })
    }

    fn goes(&mut self, step: &Step) -> Result<bool, AllocError> {
        match step {
            Step::Read(position) => self.puts_out(Some(Next::Read(*position))),
            Step::Write(position) => self.puts_out(Some(Next::Write(*position))),
            Step::Copy(position) => self.puts_out(Some(Next::Copy(*position))),
            Step::Nothing => self.puts_out(None),
            Step::PutOut(count) => self.puts_all_out(*count),
            _ => Ok(self.goes_on(step)),
        }
    }

    fn goes_on(&mut self, step: &Step) -> bool {
        match step {
            Step::Answer(position) => self.answer_out(*position, false),
            Step::AnswerCopy(position) => self.answer_out(*position, true),
            Step::Drive(most, count) => self.drive(*most) == *count,
            Step::Lose(position) => self.lose(*position),
            Step::Fail(position) => self.fail_out(*position),
            Step::Unreadable(positions, are_lost) => self.are_unreadable(*positions, *are_lost),
            Step::GiveOver => self.give_over(),
            Step::IsOver(is_so) => (self.outcome() == Some(Outcome::Done)) == *is_so,
            Step::End(outcome) => self.outcome() == *outcome,
            Step::IsHome(is_so) => self.is_home() == *is_so,
            Step::Has(position, byte) => self.has_block(*position, *byte),
            Step::SecondHas(byte) => is_grown(&self.row.second, *byte),
            _ => false,
        }
    }

    // These three promise nothing, so that their callers have nothing to look through.

    pub(crate) fn next_command(&mut self) -> Option<RowCommand> {
        self.hold.next_command()
    }

    pub(crate) fn outcome(&self) -> Option<Outcome> {
        self.hold.outcome()
    }

    pub(crate) fn is_home(&self) -> bool {
        self.hold.is_home()
    }

    /// The next command is put out, and waits.
    pub(crate) fn next(&mut self) -> Result<Option<Next>, AllocError> {
        let Some(command) = self.next_command() else {
            return Ok(None);
        };
        let next = next_of(&command);
        self.out.push(command)?;
        Ok(Some(next))
    }

    fn puts_out(&mut self, wanted: Option<Next>) -> Result<bool, AllocError> {
        Ok(self.next()? == wanted)
    }

    /// Whether so many commands are put out until there is none.
    fn puts_all_out(&mut self, wanted: usize) -> Result<bool, AllocError> {
        for _ in 0..wanted {
            if self.next()?.is_none() {
                return Ok(false);
            }
        }
        self.puts_out(None)
    }

    /// The command that waits to the position's first device, or to its second one.
    fn take_out(&mut self, position: usize, is_copy: bool) -> Option<RowCommand> {
        let index = self
            .out
            .iter()
            .position(|command| place_of(command) == (position, is_copy))?;
        Some(self.out.swap_remove(index))
    }

    fn answer_out(&mut self, position: usize, is_copy: bool) -> bool {
        match self.take_out(position, is_copy) {
            Some(command) => self.answer(command),
            None => false,
        }
    }

    fn fail_out(&mut self, position: usize) -> bool {
        match self.take_out(position, false) {
            Some(command) => self.fail(command),
            None => false,
        }
    }

    /// The device answers its read by a read error, and its block is spoiled: what stands there isn't read. Whether the
    /// buffer comes home.
    pub(crate) fn fail(&mut self, command: RowCommand) -> bool {
        let RowCommand::Read(position, buffer) = command else {
            return false;
        };
        self.spoil(position);
        fail(&mut self.hold, position, buffer);
        !self.hold.is_away(position)
    }

    /// What stands at the position is of no account from now on.
    pub(crate) fn spoil(&mut self, position: usize) {
        if let Some(device) = self.row.blocks.get_mut(position) {
            if device.len() == BLOCK {
                device.copy_from_slice(&SPOILED);
            }
        }
    }

    /// Whether the position has a read error that isn't fixed.
    pub(crate) fn is_unreadable(&self, position: usize) -> bool {
        position < 32 && self.hold.unreadable().contains(position)
    }

    /// Whether these positions and no other have read errors that aren't fixed, and whether they are to be lost.
    fn are_unreadable(&self, positions: &[usize], are_lost: bool) -> bool {
        for position in 0..32usize {
            if self.is_unreadable(position) != positions.contains(&position) {
                return false;
            }
        }
        self.hold.loses_unreadable() == are_lost
    }

    /// Whether the positions with read errors are to be lost, which they are then.
    pub(crate) fn give_over(&mut self) -> bool {
        let are_lost = self.hold.loses_unreadable();
        give_over(&mut self.hold);
        are_lost
    }

    /// The device of a command performs it. Whether its buffer comes home.
    pub(crate) fn answer(&mut self, command: RowCommand) -> bool {
        answer(&mut self.hold, command, &mut self.row)
    }

    /// Performs commands one by one, so many at the most; how many there were.
    pub(crate) fn drive(&mut self, most: usize) -> usize {
        for count in 0..most {
            match self.next_command() {
                Some(command) => self.answer(command),
                None => return count,
            };
        }
        most
    }

    /// Whether there is such a position, which is lost.
    pub(crate) fn lose(&mut self, position: usize) -> bool {
        let is_there = position < self.hold.positions();
        if is_there {
            self.hold.lost(position);
        }
        is_there
    }

    /// Whether the hold has put a block that begins with this byte at a position.
    pub(crate) fn has_block(&self, position: usize, byte: u8) -> bool {
        if position >= self.hold.positions() {
            return false;
        }
        match self.hold.block(position) {
            Some(block) => is_grown(block, byte),
            None => false,
        }
    }
}

//! Lines of numbers that wait.

ghost use Rattle.std.specs.Prelude.{◌/◌, Some};

use crate::must::must;
use r6_waiters::{KeyOf, Waiters};
use std::alloc::Global;
use std::test::Fail;

/// The tens of a number are its key.
#[derive(Drop)]
struct Tens;

impl KeyOf<u32> for Tens {
    ghost key_of = { λ value. Some (value / 10) };

    fn key(value: &u32) -> Option<u64> {
        Some((*value / 10) as u64)
    }
}

type Line = Waiters<u32, Tens>;

/// What is done to a line.
#[derive(Clone, Copy)]
enum Step {
    /// An entry comes for a cause.
    Push(usize, u32),
    Oldest(usize),
    Pop(usize),
    /// The oldest with the key.
    Take(u64),
    /// The oldest of the first cause waits for the second.
    MoveOldest(usize, usize),
    /// All of the first cause wait for the second.
    MoveAll(usize, usize),
    Gather(usize),
    /// A round for each value from the first on, up to the second.
    Rounds(Round, u32, u32),
}

/// What a round does to a line, for its value.
#[derive(Clone, Copy)]
enum Round {
    /// It comes for cause 0 and 1 by turns.
    Come,
    /// It goes out of cause 1.
    Go,
    /// It comes for cause 0, and is taken by its key.
    Taken,
    /// It comes for cause 0, and the one two before it goes out of there.
    Passed,
}

/// Whether a round goes so.
fn goes_round(line: &mut Line, round: &Round, value: u32) -> bool {
    if line.causes() < 2 {
        return false;
    }
    match round {
        Round::Come => line.push(if value % 2 == 0 { 0 } else { 1 }, value).is_ok(),
        Round::Go => line.pop_oldest(1) == Some(value),
        Round::Taken => {
            line.push(0, value).is_ok() && line.take((value / 10) as u64, [1, 9]) == Some(value)
        }
        Round::Passed => {
            line.push(0, value).is_ok()
                && line.causes() > 0
                && line.pop_oldest(0) == Some(value.saturating_sub(2))
        }
    }
}

/// The first value whose round doesn't go so, or the end.
fn go_round(line: &mut Line, round: &Round, first: u32, end: u32) -> u32 {
    for value in first..end {
        if !goes_round(line, round, value) {
            return value;
        }
    }
    end
}

/// The entry that came, was shown or went out; `Some(0)` for entries that were moved; for rounds the first value whose
/// round doesn't go so, or the end.
fn answer(line: &mut Line, step: &Step) -> Option<u32> {
    let causes = line.causes();
    match step {
        Step::Push(cause, value) if *cause < causes => {
            line.push(*cause, *value).ok()?;
            Some(*value)
        }
        Step::Oldest(cause) if *cause < causes => line.oldest(*cause).copied(),
        Step::Pop(cause) if *cause < causes => line.pop_oldest(*cause),
        Step::Take(key) => line.take(*key, [1, 9]),
        Step::MoveOldest(from, to) if *from < causes && *to < causes => {
            line.move_oldest(*from, *to).then_some(0)
        }
        Step::MoveAll(from, to) if *from < causes && *to < causes => {
            line.move_all(*from, *to);
            Some(0)
        }
        Step::Gather(cause) if *cause < causes => {
            line.gather(*cause);
            Some(0)
        }
        Step::Rounds(round, first, end) => Some(go_round(line, round, *first, *end)),
        _ => None,
    }
}

/// Steps of a line with room for so many entries and so many causes, which is empty then.
#[derive(Clone, Copy)]
struct Course {
    name: &'static str,
    room: usize,
    causes: usize,
    steps: &'static [(Step, Option<u32>)],
}

fn line_of(alloc: Global, course: &Course) -> Result<Line, Fail> {
    if course.room > 100 || course.causes > 3 {
        return Err(Fail::from("no line"));
    }
    Ok(Line::with_capacity(alloc, course.room, course.causes)?)
}

/// How many steps a line takes, up to the first that isn't answered so; one more, if it is empty then.
fn played(line: &mut Line, course: &Course) -> usize {
    for (index, (step, answered)) in course.steps.iter().enumerate() {
        if answer(line, step) != *answered {
            return index;
        }
    }
    let left = (line.len(), line.capacity(), line.causes());
    if line.is_empty() && left == (0, course.room, course.causes) {
        course.steps.len().saturating_add(1)
    } else {
        course.steps.len()
    }
}

const COURSES: &[Course] = &[
    Course {
        name: "an entry that moves keeps its age",
        room: 4,
        causes: 3,
        steps: &[
            (Step::Push(0, 10), Some(10)),
            (Step::Push(1, 11), Some(11)),
            (Step::Push(0, 12), Some(12)),
            (Step::Push(2, 13), Some(13)),
            (Step::Push(1, 14), None),
            (Step::Oldest(0), Some(10)),
            (Step::MoveOldest(0, 1), Some(0)),
            (Step::Oldest(0), Some(12)),
            (Step::Pop(1), Some(10)),
            (Step::Pop(1), Some(11)),
            (Step::Pop(1), None),
            (Step::MoveOldest(1, 0), None),
            (Step::Push(1, 15), Some(15)),
            (Step::MoveAll(2, 1), Some(0)),
            (Step::MoveAll(0, 1), Some(0)),
            (Step::Oldest(0), None),
            (Step::Pop(1), Some(12)),
            (Step::Pop(1), Some(13)),
            (Step::Pop(1), Some(15)),
        ],
    },
    Course {
        name: "all go out by age whatever they wait for",
        room: 4,
        causes: 3,
        steps: &[
            (Step::Pop(2), None),
            (Step::Push(2, 5), Some(5)),
            (Step::Push(0, 6), Some(6)),
            (Step::Push(1, 7), Some(7)),
            (Step::Push(2, 8), Some(8)),
            (Step::Gather(0), Some(0)),
            (Step::Pop(2), None),
            (Step::Pop(0), Some(5)),
            (Step::Pop(0), Some(6)),
            (Step::Pop(0), Some(7)),
            (Step::Pop(0), Some(8)),
            (Step::Pop(0), None),
        ],
    },
    Course {
        name: "the oldest with a key goes out whatever it waits for",
        room: 4,
        causes: 3,
        steps: &[
            (Step::Push(0, 21), Some(21)),
            (Step::Push(1, 661), Some(661)),
            (Step::Push(2, 22), Some(22)),
            (Step::Push(1, 23), Some(23)),
            (Step::Take(3), None),
            (Step::Take(2), Some(21)),
            (Step::MoveAll(1, 0), Some(0)),
            (Step::Take(66), Some(661)),
            (Step::Take(66), None),
            (Step::Push(1, 24), Some(24)),
            (Step::Pop(2), Some(22)),
            (Step::Take(2), Some(23)),
            (Step::Take(2), Some(24)),
            (Step::Take(2), None),
        ],
    },
    // That is a sweep in every five rounds.
    Course {
        name: "two entries keep their keys while others are taken",
        room: 4,
        causes: 2,
        steps: &[
            (Step::Push(1, 991), Some(991)),
            (Step::Push(1, 992), Some(992)),
            (Step::Rounds(Round::Taken, 0, 30), Some(30)),
            (Step::Take(99), Some(991)),
            (Step::Take(99), Some(992)),
        ],
    },
    Course {
        name: "entries keep their ages while others pass through",
        room: 4,
        causes: 2,
        steps: &[
            (Step::Push(0, 8), Some(8)),
            (Step::Push(1, 2), Some(2)),
            (Step::Push(0, 9), Some(9)),
            (Step::Rounds(Round::Passed, 10, 40), Some(40)),
            (Step::MoveOldest(1, 0), Some(0)),
            (Step::Pop(0), Some(2)),
            (Step::MoveAll(0, 1), Some(0)),
            (Step::Pop(1), Some(38)),
            (Step::Pop(1), Some(39)),
            (Step::Gather(0), Some(0)),
            (Step::Pop(0), None),
        ],
    },
    // When it makes room there is nothing in the first 150 of its places.
    Course {
        name: "a hundred entries go out by age, whatever moves, or by key",
        room: 100,
        causes: 2,
        steps: &[
            (Step::Rounds(Round::Come, 0, 100), Some(100)),
            (Step::Push(0, 100), None),
            (Step::MoveAll(0, 1), Some(0)),
            (Step::Rounds(Round::Go, 0, 90), Some(90)),
            (Step::Rounds(Round::Come, 100, 190), Some(190)),
            (Step::MoveAll(0, 1), Some(0)),
            (Step::Rounds(Round::Go, 90, 150), Some(150)),
            (Step::Rounds(Round::Come, 190, 250), Some(250)),
            (Step::Gather(1), Some(0)),
            (Step::Take(20), Some(200)),
            (Step::Rounds(Round::Go, 150, 200), Some(200)),
            (Step::Rounds(Round::Go, 201, 250), Some(250)),
        ],
    },
];

#[test]
fn entries_go_out_by_age_or_key(rt: HostRuntime) -> Result<(), Fail> {
    for course in COURSES {
        let mut line = line_of(rt.alloc(), course)?;
        let steps = played(&mut line, course);
        must(&rt, steps == course.steps.len() + 1, course.name, 0, steps);
    }
    Ok(())
}

//! A table of numbers.

use crate::must::must;
use r6_tables::Table;
use std::alloc::Global;
use std::test::Fail;

/// Puts a value in where there is room, and answers its number.
fn put(table: &mut Table<u32>, value: u32) -> Option<u64> {
    if table.len() < table.capacity() && table.next() < 1000 {
        Some(table.push(value))
    } else {
        None
    }
}

/// What is done to a table.
#[derive(Clone, Copy)]
enum Step {
    Put(u32),
    Remove(u64),
    Get(u64),
    /// So much is added to the entry of a number, where it stands.
    Add(u64, u32),
    /// The values from the first on, up to the second, are put in and removed, each under a number that is its own.
    PassThrough(u32, u32),
}

/// The first value that isn't, or the end.
fn passed(table: &mut Table<u32>, first: u32, end: u32) -> u32 {
    for value in first..end {
        let number = u64::from(value);
        if put(table, value) != Some(number) || table.remove(number) != Some(value) {
            return value;
        }
    }
    end
}

/// Adds to the entry of a number, where there is one, and answers what it was.
fn add(table: &mut Table<u32>, number: u64, more: u32) -> Option<u32> {
    let entry = table.get_mut(number)?;
    let old = *entry;
    *entry = old.wrapping_add(more);
    Some(old)
}

/// What a step answers: a number or a value, or else what was handed in.
fn answer(table: &mut Table<u32>, step: Step) -> Result<u64, u64> {
    match step {
        Step::Put(value) => put(table, value).ok_or(u64::from(value)),
        Step::Remove(number) => table.remove(number).map(u64::from).ok_or(number),
        Step::Get(number) => table.get(number).copied().map(u64::from).ok_or(number),
        Step::Add(number, more) => add(table, number, more).map(u64::from).ok_or(number),
        Step::PassThrough(first, end) => Ok(u64::from(passed(table, first, end))),
    }
}

/// Steps of a table with room for so many entries, and how many entries there are then, with the next number.
#[derive(Clone, Copy)]
struct Course {
    room: usize,
    steps: &'static [(Step, Result<u64, u64>)],
    left: (usize, u64),
}

const COURSES: &[Course] = &[
    Course {
        room: 2,
        steps: &[
            (Step::Put(10), Ok(0)),
            (Step::Put(11), Ok(1)),
            (Step::Put(12), Err(12)),
            (Step::Remove(0), Ok(10)),
            (Step::Remove(0), Err(0)),
            (Step::Put(12), Ok(2)),
            (Step::Add(1, 4), Ok(11)),
            (Step::Add(0, 4), Err(0)),
            (Step::Add(3, 4), Err(3)),
            (Step::Get(1), Ok(15)),
            (Step::Get(2), Ok(12)),
            (Step::Remove(1), Ok(15)),
            (Step::Add(1, 4), Err(1)),
        ],
        left: (1, 3),
    },
    // One entry stays while many come and go.
    Course {
        room: 3,
        steps: &[
            (Step::Put(7), Ok(0)),
            (Step::PassThrough(1, 101), Ok(101)),
            (Step::Add(0, 1), Ok(7)),
            (Step::Get(0), Ok(8)),
        ],
        left: (1, 101),
    },
];

fn table_of(alloc: Global, course: &Course) -> Result<Table<u32>, Fail> {
    if course.room > 3 {
        return Err(Fail::from("no table"));
    }
    Ok(Table::with_capacity(alloc, course.room)?)
}

/// How many steps are answered so, up to the first that isn't; one more, if the table is left so.
fn played(table: &mut Table<u32>, course: &Course) -> usize {
    for (index, (step, answered)) in course.steps.iter().enumerate() {
        if answer(table, *step) != *answered {
            return index;
        }
    }
    let is_left = (table.len(), table.next()) == course.left
        && table.capacity() == course.room
        && !table.is_empty();
    if is_left {
        course.steps.len().saturating_add(1)
    } else {
        course.steps.len()
    }
}

#[test]
fn numbers_rise_and_are_never_given_twice(rt: HostRuntime) -> Result<(), Fail> {
    for course in COURSES {
        let mut table = table_of(rt.alloc(), course)?;
        let steps = played(&mut table, course);
        must(
            &rt,
            steps == course.steps.len() + 1,
            "a table with room",
            course.room,
            steps,
        );
    }
    Ok(())
}

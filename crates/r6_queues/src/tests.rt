//! A queue between two threads.

ghost use Rattle.std.specs.Prelude.{◌≡◌, ⊤, true};
ghost use Rattle.crossbeam_queue.specs.Passes.{view};
ghost use Rattle.r6_queues.specs.Relays.{IsEndOf};

use crate::{End, Relay, Rule};
use std::sync::Wait;
use std::test::*;
use std::thread;

// Whatever numbers.
struct Numbers;

impl Rule<u64, ()> for Numbers {
    ghost admits = { λ about items. ⊤ };

    ghost start = { tt };
}

type Line = Relay<u64, (), Numbers>;

#[test]
fn a_full_queue_gives_the_item_back(rt: HostRuntime) -> Result<(), Fail> {
    let (line, mut writer, mut reader) = Line::new(rt.alloc(), 2, &())?;
    assert_eq!(rt; line.pop(&rt, &mut reader), None);
    assert_eq!(rt; line.push(&rt, &mut writer, 7), Ok(()));
    assert_eq!(rt; line.push(&rt, &mut writer, 8), Ok(()));
    assert_eq!(rt; line.push(&rt, &mut writer, 9), Err(9));
    assert_eq!(rt; line.pop(&rt, &mut reader), Some(7));
    assert_eq!(rt; line.push(&rt, &mut writer, 9), Ok(()));
    assert_eq!(rt; line.pop(&rt, &mut reader), Some(8));
    assert_eq!(rt; line.pop(&rt, &mut reader), Some(9));
    assert_eq!(rt; line.pop(&rt, &mut reader), None);
    Ok(())
}

const COUNT: u64 = 5000;

fn push_all<R: Wait>(rt: &R, line: &Line, mut writer: End<u64, ()>)
    requires { IsEndOf line.now writer × ((view writer).pushes ≡ true) }
{
    for number in 0..COUNT {
        for _ in rt.forever() {
            if line.push(rt, &mut writer, number).is_ok() {
                break;
            }
            thread::yield_now();
        }
    }
}

// How many came, each in its place.
fn pop_all<R: Wait>(rt: &R, line: &Line, mut reader: End<u64, ()>) -> u64
    requires { IsEndOf line.now reader × ((view reader).pops ≡ true) }
{
    for number in 0..COUNT {
        for _ in rt.forever() {
            if let Some(item) = line.pop(rt, &mut reader) {
                if item != number {
                    return number;
                }
                break;
            }
            thread::yield_now();
        }
    }
    COUNT
}

#[test]
fn all_items_come_in_order(rt: HostRuntime) -> Result<(), Fail> {
    let (line, writer, reader) = Line::new(rt.alloc(), 3, &())?;
    let line = &line;
    let (_, came) = thread::join(
        &rt,
        move ||
            requires { IsEndOf line.now writer × ((view writer).pushes ≡ true) }
        { push_all(&rt, line, writer) },
        move ||
            requires { IsEndOf line.now reader × ((view reader).pops ≡ true) }
        { pop_all(&rt, line, reader) },
    );
    assert_eq!(rt; came, COUNT);
    Ok(())
}

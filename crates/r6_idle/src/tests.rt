//! Threads that sleep, and wake one another.

use crate::{Idle, LOOKS, Pause, Waker};
use std::sync::Wait;
use std::sync::atomic::{AtomicU64, Ordering};
use std::test::*;
use std::thread;

#[test]
fn a_wake_before_the_sleep_ends_it(rt: HostRuntime) -> Result<(), Fail> {
    let mut idle = Idle::new(rt.alloc())?;
    let other = idle.waker().clone()?;
    idle.waker().wake();
    other.wake();
    for _ in 1..LOOKS {
        assert_eq!(rt; idle.wait(&rt), Pause::Yielded);
    }
    assert_eq!(rt; idle.wait(&rt), Pause::Slept);
    assert_eq!(rt; idle.wait(&rt), Pause::Yielded);
    Ok(())
}

#[test]
fn what_is_found_begins_the_count_anew(rt: HostRuntime) -> Result<(), Fail> {
    let mut idle = Idle::new(rt.alloc())?;
    for _ in 0..3 {
        for _ in 1..LOOKS {
            assert_eq!(rt; idle.wait(&rt), Pause::Yielded);
        }
        idle.found();
    }
    Ok(())
}

const ROUNDS: u64 = 100_000;

// Sleeps until the ball is here, and passes it on, so many times. It looks only as it begins and after each sleep.
fn pass_on<R: Wait>(
    rt: &R,
    ball: &AtomicU64,
    here: u64,
    there: u64,
    mut idle: Idle,
    other: &Waker,
) -> u64 {
    let mut sleeps = 0u64;
    for _ in 0..ROUNDS {
        for _ in rt.forever() {
            if ball.load(Ordering::SeqCst) == here {
                break;
            }
            idle.sleep(rt);
            sleeps = sleeps.wrapping_add(1);
        }
        ball.store(there, Ordering::SeqCst);
        other.wake();
    }
    sleeps
}

#[test]
fn no_wake_is_lost_where_both_sleep(rt: HostRuntime) -> Result<(), Fail> {
    let first = Idle::new(rt.alloc())?;
    let second = Idle::new(rt.alloc())?;
    let first_waker = first.waker().clone()?;
    let second_waker = second.waker().clone()?;
    let ball = AtomicU64::new(0);
    let (ball, first_waker, second_waker) = (&ball, &first_waker, &second_waker);
    let (_, sleeps) = thread::join(
        &rt,
        move || pass_on(&rt, ball, 0, 1, first, second_waker),
        move || pass_on(&rt, ball, 1, 0, second, first_waker),
    );
    assert_eq!(rt; ball.load(Ordering::SeqCst), 0);
    assert!(rt; 0 < sleeps, "the second thread slept");
    Ok(())
}

const LAPS: u64 = 5000;

// As `pass_on`, but looks some times before it sleeps, and passes the ball to the next of three.
fn run_laps<R: Wait>(
    rt: &R,
    ball: &AtomicU64,
    here: u64,
    next: u64,
    mut idle: Idle,
    other: &Waker,
) {
    for _ in 0..LAPS {
        for _ in rt.forever() {
            if ball.load(Ordering::SeqCst) == here {
                break;
            }
            idle.wait(rt);
        }
        idle.found();
        ball.store(next, Ordering::SeqCst);
        other.wake();
    }
}

#[test]
fn three_threads_that_look_first_hand_on(rt: HostRuntime) -> Result<(), Fail> {
    let first = Idle::new(rt.alloc())?;
    let second = Idle::new(rt.alloc())?;
    let third = Idle::new(rt.alloc())?;
    let first_waker = first.waker().clone()?;
    let second_waker = second.waker().clone()?;
    let third_waker = third.waker().clone()?;
    let ball = AtomicU64::new(0);
    let ball = &ball;
    let (first_waker, second_waker, third_waker) = (&first_waker, &second_waker, &third_waker);
    thread::join(
        &rt,
        move || run_laps(&rt, ball, 0, 1, first, second_waker),
        move || {
            thread::join(
                &rt,
                move || run_laps(&rt, ball, 1, 2, second, third_waker),
                move || run_laps(&rt, ball, 2, 0, third, first_waker),
            );
        },
    );
    assert_eq!(rt; ball.load(Ordering::SeqCst), 0);
    Ok(())
}

const GIFTS: u64 = 20_000;

fn give_all(gifts: &AtomicU64, waker: &Waker) {
    for _ in 0..GIFTS {
        gifts.fetch_add(1, Ordering::SeqCst);
        waker.wake();
    }
}

fn take_all<R: Wait>(rt: &R, gifts: &AtomicU64, mut idle: Idle) -> u64 {
    let mut seen = 0u64;
    for _ in rt.forever() {
        let here = gifts.load(Ordering::SeqCst);
        if here == seen {
            idle.wait(rt);
        } else {
            idle.found();
            seen = here;
        }
        if seen == 2 * GIFTS {
            break;
        }
    }
    seen
}

#[test]
fn two_threads_wake_one(rt: HostRuntime) -> Result<(), Fail> {
    let idle = Idle::new(rt.alloc())?;
    let waker = idle.waker().clone()?;
    let other = waker.clone()?;
    let gifts = AtomicU64::new(0);
    let (gifts, waker) = (&gifts, &waker);
    let (seen, _) = thread::join(
        &rt,
        move || take_all(&rt, gifts, idle),
        move || {
            thread::join(
                &rt,
                move || give_all(gifts, waker),
                move || give_all(gifts, waker),
            );
        },
    );
    assert_eq!(rt; seen, 2 * GIFTS);
    Ok(())
}

//! Registers shared by threads.

ghost use Rattle.r6_health.specs.Passes.{IsPassOf};

use crate::must::must;
use r6_health::{Pass, Register};
use r6_layout::Geometry;
use std::alloc::{AllocError, Global};
use std::sync::Wait;
use std::sync::atomic::{AtomicU32, Ordering};
use std::test::Fail;
use std::thread::{Threads, join};

/// As many attaches as there can be: two of four threads share each of two slots, and each tries fifty times.
const MOST: usize = 200;

/// How often each generation was given, none yet.
fn none_given(alloc: Global) -> Result<Vec<AtomicU32>, AllocError> {
    let mut given = Vec::new(alloc);
    for _ in 0..=MOST {
        given.push(AtomicU32::new(0))?;
    }
    Ok(given)
}

fn count(given: &[AtomicU32], generation: u32) {
    if let Some(times) = given.get(generation as usize) {
        times.fetch_add(1, Ordering::SeqCst);
    }
}

/// A hundred calls. The generations are counted that its attaches are given.
fn churn<R: Wait>(rt: &R, register: &Register, mut pass: Pass, slot: usize, given: &[AtomicU32])
    requires { IsPassOf register.now pass }
{
    'turns: for _ in 0..50 {
        let _ = register.fail(rt, &mut pass, slot);
        if let Ok(generation) = register.attach(rt, &mut pass, slot) {
            count(given, generation);
        }
    }
}

/// Two threads share each of two slots.
fn churn_both<R: Threads + Wait + Sync>(
    rt: &R,
    register: &Register,
    one: Pass,
    other: Pass,
    slot: usize,
    given: &[AtomicU32],
)
    requires one { IsPassOf register.now one }
    requires other { IsPassOf register.now other }
{
    join(
        rt,
        move || churn(rt, register, one, slot, given),
        move || churn(rt, register, other, slot, given),
    );
}

fn churn_all<R: Threads + Wait + Sync>(
    rt: &R,
    register: &Register,
    mut pass: Pass,
    given: &[AtomicU32],
)
    requires { IsPassOf register.now pass }
{
    let second = register.split(&mut pass);
    let third = register.split(&mut pass);
    let fourth = register.split(&mut pass);
    join(
        rt,
        move || -> ()
            requires { IsPassOf register.now pass × IsPassOf register.now second }
        { churn_both(rt, register, pass, second, 0, given) },
        move || -> ()
            requires { IsPassOf register.now third × IsPassOf register.now fourth }
        { churn_both(rt, register, third, fourth, 2, given) },
    );
}

/// By passes that are split from this one. How many attaches there were then.
fn churn_beside<R: Threads + Wait + Sync>(
    rt: &R,
    register: &Register,
    pass: &mut Pass,
    given: &[AtomicU32],
) -> u32
    requires { IsPassOf register.now pass.old }
{
    let theirs = register.split(pass);
    churn_all(rt, register, theirs, given);
    register.read(rt, pass).attaches()
}

/// Whether so many generations, from 1 on, were given once each, and no other.
fn are_given_once(given: &[AtomicU32], attaches: u32) -> bool {
    for (generation, times) in given.iter().enumerate() {
        let wanted = if 0 < generation && generation <= attaches as usize {
            1
        } else {
            0
        };
        if times.load(Ordering::SeqCst) != wanted {
            return false;
        }
    }
    attaches > 0 && (attaches as usize) < given.len()
}

#[test]
fn four_threads_are_given_each_generation_once(rt: HostRuntime) -> Result<(), Fail> {
    let geometry = Geometry::new(4, 1, 16, 4, 2)?;
    let given = none_given(rt.alloc())?;
    let (register, mut pass) = Register::new(&rt, rt.alloc(), &geometry, 0)?;
    let attaches = churn_beside(&rt, &register, &mut pass, given.as_slice());
    let is_so = are_given_once(given.as_slice(), attaches);
    drop(register);
    drop(pass);
    drop(given);
    must(&rt, is_so, "generations", attaches as usize, 0);
    Ok(())
}

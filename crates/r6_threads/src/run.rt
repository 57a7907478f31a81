//! All pieces of work are done, each in a thread of its own.

ghost use Rattle.std.specs.Prelude.{◌≡◌, ◌≤◌, ◌+◌, ◌++◌, [], All, IfErr, IfOk, IfSome, is_some, length, vec_capacity, true, false};
ghost use Rattle.std.specs.List.{AllZip};
ghost use Rattle.r6_threads.specs.Works.{in_order};

use crate::begin::start;
use crate::ended::{Ended, Promised};
use crate::gate::{Gate, decide};
use crate::work::Work;
use std::alloc::{AllocError, Global};
use std::sync::{OnceLock, OnceToken, Wait};
use std::thread::{self, PromisedHandle, Scope, Threads};

/// Why no work was begun.
#[derive(Clone, Copy, PartialEq, Eq, Debug)]
pub enum NotBegun {
    /// There is no memory.
    NoMemory,
    /// A thread could not be made.
    ThreadRefused,
}

impl From<AllocError> for NotBegun {
    fn from(_: AllocError) -> NotBegun {
        NotBegun::NoMemory
    }
}

/// Work that was not begun.
#[derive(Drop)]
pub struct Unbegun<W> {
    pub reason: NotBegun,
    /// The pieces of work, as they were handed in.
    pub works: Vec<W>,
}

type Handle<'s, S, W> = PromisedHandle<Ended<'s, W>, Promised<'s, S, W>>;

// Starts a thread for each piece of work, from the last one on, and decides whether they begin: where one can't be made,
// none does, and its work, and that of those before it, is left.
fn start_all<'s, E, S: Sync + 's, W: Work<S> + Send + 's, R: Wait + Sync + 's>(
    scope: &Scope<'s, E>,
    rt: &'s R,
    gate: &'s Gate,
    station: &'s S,
    works: &mut Vec<W>,
    handles: &mut Vec<Handle<'s, S, W>>,
) -> OnceToken<'s, bool>
    requires ready { All (W.ready station.now) works.old.items }
    requires room { (handles.old.items ≡ []) × (length works.old.items ≤ vec_capacity handles.old) }
    ensures gate { All (λ handle. handle.promise.gate.now ≡ gate.now) handles.new.items }
    ensures station { All (λ handle. handle.promise.station.now ≡ station.now) handles.new.items }
    ensures works { works.old.items
        ≡ works.new.items ++ in_order (λ handle. handle.promise.work.value) handles.new.items }
    ensures capacity { vec_capacity works.new ≡ vec_capacity works.old }
    ensures all { result.value ≡ true → works.new.items ≡ [] }
    ensures decision { result.of ≡ gate.now.id }
{
    while let Some(work) = works.pop() {
        match start(scope, rt, gate, station, work) {
            Ok(handle) => handles.push_reserved(handle),
            Err(Ended { decision, work }) => {
                works.push_reserved(work);
                return decision;
            }
        }
    }
    decide(rt, gate, true)
}

// What `f` answers, if it is decided that the threads begin.
fn answer_if<T, F: FnOnce() -> T + Drop>(begins: bool, f: F) -> Option<T>
    requires { F.pre f }
    ensures begun { is_some result ≡ begins }
    ensures answer { IfSome result (λ answer. F.post f answer) }
{
    if begins { Some(f()) } else { None }
}

// Joins the threads, in the order of their work, which is put behind that which is left.
fn join_all<'s, S, W: Work<S>, R: Threads>(
    rt: &R,
    gate: &'s Gate,
    decision: &OnceToken<'s, bool>,
    station: &'s S,
    mut handles: Vec<Handle<'s, S, W>>,
    works: &mut Vec<W>,
)
    requires decision { decision.now.of ≡ gate.now.id }
    requires gate { All (λ handle. handle.promise.gate.now ≡ gate.now) handles.items }
    requires station { All (λ handle. handle.promise.station.now ≡ station.now) handles.items }
    requires room { length works.old.items + length handles.items ≤ vec_capacity works.old }
    ensures back { decision.now.value ≡ false
        → works.new.items ≡ works.old.items ++ in_order (λ handle. handle.promise.work.value) handles.entry.items }
    ensures done { decision.now.value ≡ true → works.old.items ≡ []
        → AllZip (W.done station.now) (in_order (λ handle. handle.promise.work.value) handles.entry.items)
        works.new.items }
{
    while let Some(handle) = handles.pop() {
        let Ended {
            decision: other,
            work,
        } = handle.join(rt);
        decision.agrees(&other);
        works.push_reserved(work);
    }
}

/// Does all pieces of work, each in a thread of its own, and calls `f` in this thread meanwhile; what `f` answers, and
/// the pieces of work as they then stand, in their order. No work is begun before a thread for each is there.
///
/// It waits for each thread to end, also if `f` has.
///
/// # Errors
/// `NoMemory` or `ThreadRefused`: no work was begun, and `f` was not called. The pieces of work come back.
pub fn run_or_return<
    S: Sync,
    W: Work<S> + Send,
    R: Threads + Wait + Sync,
    T: Drop,
    F: FnOnce() -> T + Drop,
>(rt: &R, alloc: Global, station: &S, works: Vec<W>, f: F) -> Result<(T, Vec<W>), Unbegun<W>>
    requires ready { All (W.ready station.now) works.items }
    requires call { F.pre f }
    ensures call { IfOk result (λ r. F.post f r.0) }
    ensures done { IfOk result (λ r. AllZip (W.done station.now) works.items r.1.items) }
    ensures back { IfErr result (λ unbegun. unbegun.works.items ≡ works.items) }
{
    let gate = Gate::new();
    let gate = &gate;
    thread::scope(
        thread::scope_env(),
        rt,
        move |scope| -> Result<(T, Vec<W>), Unbegun<W>>
            requires { All (W.ready station.now) works.items × F.pre f }
            ensures call { IfOk result (λ r. F.post f r.0) }
            ensures done { IfOk result (λ r. AllZip (W.done station.entry.now) works.items r.1.items) }
            ensures back { IfErr result (λ unbegun. unbegun.works.items ≡ works.items) }
        {
            let mut works = works;
            let Ok(mut handles) = Vec::with_capacity(alloc, works.len()) else {
                let reason = NotBegun::NoMemory;
                return Err(Unbegun { reason, works });
            };
            let decision = start_all(scope, rt, gate, station, &mut works, &mut handles);
            let answer = answer_if(*gate.value(&decision), f);
            join_all(rt, gate, &decision, station, handles, &mut works);
            match answer {
                Some(answer) => Ok((answer, works)),
                None => {
                    let reason = NotBegun::ThreadRefused;
                    Err(Unbegun { reason, works })
                }
            }
        },
    )
}

/// As [`run_or_return`], but that pieces of work that aren't begun are dropped.
///
/// # Errors
/// `NoMemory` or `ThreadRefused`: no work was begun, and `f` was not called.
pub fn run_all<
    S: Sync,
    W: Work<S> + Send,
    R: Threads + Wait + Sync,
    T: Drop,
    F: FnOnce() -> T + Drop,
>(rt: &R, alloc: Global, station: &S, works: Vec<W>, f: F) -> Result<(T, Vec<W>), NotBegun>
    requires ready { All (W.ready station.now) works.items }
    requires call { F.pre f }
    ensures call { IfOk result (λ r. F.post f r.0) }
    ensures done { IfOk result (λ r. AllZip (W.done station.now) works.items r.1.items) }
{
    match run_or_return(rt, alloc, station, works, f) {
        Ok(done) => Ok(done),
        Err(unbegun) => Err(unbegun.reason),
    }
}

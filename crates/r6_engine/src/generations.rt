//! Each part of a new device came under the generation that the register answered.

ghost use Rattle.std.specs.Prelude.{◌≡◌, ◌↔◌, All, true};
ghost use Rattle.r6_engine.specs.Generations.{HasAgreed, HasGeneration, answered_in, device_in, handed_in};

use crate::feed::{AnsweredHere, EventAnswer};
use crate::runner::{Handed, Runner};
use r6_dev::BlockDevice;
use r6_shard::Performs;
use std::sync::Wait;

// Of a new device its event, and the generation that the register answered, 0 where it refused it.
fn device_in(answer: &EventAnswer) -> Option<(u64, u32)>
    ensures { result ≡ device_in answer.now }
{
    match answer.outcome {
        AnsweredHere::Brought(_, _, Ok(generation)) => Some((answer.event, generation)),
        AnsweredHere::Brought(_, _, Err(_)) => Some((answer.event, 0)),
        AnsweredHere::OutOfRange | AnsweredHere::Failed(..) => None,
    }
}

// Whether a part of each new device came to the shard, and no other, in the order of the events, and each under the
// generation that the register answered.
fn agree(answers: &[EventAnswer], handed: &[Handed]) -> bool
    ensures { (result ≡ true) ↔ (handed_in handed.now ≡ answered_in answers.now) }
{
    let mut left = handed;
    for answer in answers {
        let Some((event, generation)) = device_in(answer) else {
            continue;
        };
        let Some((part, others)) = left.split_first() else {
            return false;
        };
        if part.event != event || part.generation != generation {
            return false;
        }
        left = others;
    }
    left.is_empty()
}

// Whether a part, if it was taken in, came under a generation that the register gave.
fn has_generation(part: &Handed) -> bool
    ensures { result ≡ true → HasGeneration part.now }
{
    !part.taken || part.generation > 0
}

// Whether each did.
fn have_generations(handed: &[Handed]) -> bool
    ensures { result ≡ true → All HasGeneration handed.now }
{
    for part in handed {
        if !has_generation(part) {
            return false;
        }
    }
    true
}

// Both.
fn has_agreed(answers: &[EventAnswer], handed: &[Handed]) -> bool
    ensures { result ≡ true → HasAgreed answers.now handed.now }
{
    agree(answers, handed) && have_generations(handed)
}

/// Waits for good unless the parts came to each shard under the generations that the register answered, and none was
/// taken in that it refused. The calling thread hands each part out with the generation that it was answered, no thread
/// writes another, and a shard has looked at generation 0 from the start, so this is never met.
pub(crate) fn await_agreement<P: Performs + Drop, D: BlockDevice + Drop, R: Wait>(
    rt: &R,
    answers: &[EventAnswer],
    runners: &[Runner<P, D>],
)
    ensures { All (λ runner. HasAgreed answers.now runner.handed.items) runners.now }
{
    for runner in runners {
        if !has_agreed(answers, runner.handed.as_slice()) {
            for _ in rt.forever() {}
            unreachable!()
        }
    }
}

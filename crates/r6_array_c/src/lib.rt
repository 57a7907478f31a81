//! An array for a C program: the cores of its shards, and its register, in one thread; or each shard in a thread of its
//! own, and their register under a lock of the program's.
//!
//! The program owns the array between calls, as a block of memory that begins with a `Mail`: it writes a call's numbers
//! there, makes the call, and reads there what it answered. So it owns a shard, and a register. `embed/c/raid6.h` has a
//! function for each call.
#![tactic(auto)]

ghost use Rattle.std.specs.Prelude.{◌≡◌, ◌≢◌};
ghost use Rattle.std.specs.Borrow.{full_share};
ghost use types.Logic.{sem};
ghost use denote.RawPtr.{InBlock, lies_at};
ghost use Rattle.r6_array_c.specs.declared.handle.Handle as declared;
ghost use Rattle.r6_array_c.specs.contracts.handle.Handle.{the_row};
ghost use Rattle.r6_array_c.specs.declared.handle.Order as declared_order;
ghost use Rattle.r6_array_c.specs.contracts.handle.Order.{the_row as order_row};
ghost use Rattle.r6_array_c.specs.declared.handle.ShardHandle as declared_shard;
ghost use Rattle.r6_array_c.specs.contracts.handle.ShardHandle.{the_row as shard_row};
ghost use Rattle.r6_array_c.specs.declared.handle.RegisterHandle as declared_register;
ghost use Rattle.r6_array_c.specs.contracts.handle.RegisterHandle.{the_row as register_row};
ghost use Rattle.r6_array_c.specs.Making.{IsUnmade, IsUnmadeOrder, IsUnmadeRegister, HasShard, HasNoShard};

mod asked;
mod asked_shard;
mod blocks;
mod gathered;
pub mod handle;
mod host;
mod made;
mod numbers;
mod orders;
mod shard_host;
mod verbs;

use handle::{Handle, Order, RegisterHandle, Shape, ShardHandle};
use numbers::NO_SUCH;
use std::alloc::Global;
use std::ptr;

/// Makes an array, and puts its address at `out`. Answers 0, or why there can't be one.
#[unsafe(no_mangle)]
#[tactic(auto, using(crate::proofs::Making::unmade_some))]
pub extern "C" fn r6_array_make(alloc: Global, shape: &Shape, out: &mut *mut u8) -> u32
    ensures put { result ≡ 0 → InBlock out.new }
    ensures refused { result ≢ 0 → IsUnmade shape.now result }
{
    match made::handle(alloc, shape) {
        Ok(handle) => {
            *out = ptr::from_mut(Box::leak(handle)) as *mut u8;
            0
        }
        Err(unmade) => unmade.0,
    }
}

/// Makes the call that stands in the mail of the array at `at`, which the program owns, and gets back.
#[unsafe(no_mangle)]
pub unsafe extern "C" fn r6_array_call(at: *mut u8) -> u32
    ghost was: { Handle }
    requires* { sem 𝓛 (lies_at the_row full_share at was) }
    ensures* { ∃ₛ (λ (is : declared.Handle). sem 𝓛 (lies_at the_row full_share at is)) }
{
    asked::make(&mut *(at as *mut Handle))
}

/// Makes room for a command of an array of this shape, and puts its address at `out`.
#[unsafe(no_mangle)]
#[tactic(auto, using(crate::proofs::Making::unmade_order_some))]
pub extern "C" fn r6_array_make_order(alloc: Global, shape: &Shape, out: &mut *mut u8) -> u32
    ensures put { result ≡ 0 → InBlock out.new }
    ensures refused { result ≢ 0 → IsUnmadeOrder shape.now result }
{
    match made::order(alloc, shape) {
        Ok(order) => {
            *out = ptr::from_mut(Box::leak(order)) as *mut u8;
            0
        }
        Err(unmade) => unmade.0,
    }
}

/// Takes a command into the order, or delivers it. The program owns both, and gets them back.
#[unsafe(no_mangle)]
pub unsafe extern "C" fn r6_array_order(at: *mut u8, order: *mut u8) -> u32
    ghost g: { Handle × Order }
    requires* { sem 𝓛 (lies_at the_row full_share at g.0) ∗ sem 𝓛 (lies_at order_row full_share order g.1) }
    ensures* { ∃ₛ (λ (is : declared.Handle). sem 𝓛 (lies_at the_row full_share at is)) ∗ ∃ₛ (λ (is : declared_order.Order). sem 𝓛 (lies_at order_row full_share order is)) }
{
    asked::order(&mut *(at as *mut Handle), &mut *(order as *mut Order))
}

/// Makes the register of an array whose shards are in threads of their own, and puts its address at `out`.
#[unsafe(no_mangle)]
#[tactic(auto, using(crate::proofs::Making::unmade_register_some))]
pub extern "C" fn r6_register_make(alloc: Global, shape: &Shape, out: &mut *mut u8) -> u32
    ensures put { result ≡ 0 → InBlock out.new }
    ensures refused { result ≢ 0 → IsUnmadeRegister shape.now result }
{
    match made::register(alloc, shape) {
        Ok(register) => {
            *out = ptr::from_mut(Box::leak(register)) as *mut u8;
            0
        }
        Err(unmade) => unmade.0,
    }
}

/// Makes the call that stands in the mail of the register at `at`, which the program owns, and gets back.
#[unsafe(no_mangle)]
pub unsafe extern "C" fn r6_register_call(at: *mut u8) -> u32
    ghost was: { RegisterHandle }
    requires* { sem 𝓛 (lies_at register_row full_share at was) }
    ensures* { ∃ₛ (λ (is : declared_register.RegisterHandle). sem 𝓛 (lies_at register_row full_share at is)) }
{
    asked_shard::make_of_register(&mut *(at as *mut RegisterHandle))
}

/// Makes a shard, which is to be opened at its register by `r6_shard_meet`, and puts its address at `out`.
#[unsafe(no_mangle)]
pub extern "C" fn r6_shard_make(alloc: Global, out: &mut *mut u8) -> u32
    ensures put { result ≡ 0 → InBlock out.new }
    ensures refused { result ≢ 0 → result ≡ 8 }
{
    match made::shard(alloc) {
        Ok(shard) => {
            *out = ptr::from_mut(Box::leak(shard)) as *mut u8;
            0
        }
        Err(unmade) => unmade.0,
    }
}

/// Makes the call that stands in the mail of the shard at `at`, which the program owns, and gets back.
#[unsafe(no_mangle)]
pub unsafe extern "C" fn r6_shard_call(at: *mut u8) -> u32
    ghost was: { ShardHandle }
    requires* { sem 𝓛 (lies_at shard_row full_share at was) }
    ensures* { ∃ₛ (λ (is : declared_shard.ShardHandle). sem 𝓛 (lies_at shard_row full_share at is)) }
{
    asked_shard::make(&mut *(at as *mut ShardHandle))
}

/// Takes a command of the shard into the order, or delivers it. The program owns both, and gets them back.
#[unsafe(no_mangle)]
pub unsafe extern "C" fn r6_shard_order(at: *mut u8, order: *mut u8) -> u32
    ghost g: { ShardHandle × Order }
    requires* { sem 𝓛 (lies_at shard_row full_share at g.0) ∗ sem 𝓛 (lies_at order_row full_share order g.1) }
    ensures* { ∃ₛ (λ (is : declared_shard.ShardHandle). sem 𝓛 (lies_at shard_row full_share at is)) ∗ ∃ₛ (λ (is : declared_order.Order). sem 𝓛 (lies_at order_row full_share order is)) }
{
    asked_shard::order(&mut *(at as *mut ShardHandle), &mut *(order as *mut Order))
}

/// Makes the call of the shard at its register. The program owns both, and gets them back.
#[unsafe(no_mangle)]
pub unsafe extern "C" fn r6_shard_meet(at: *mut u8, register: *mut u8) -> u32
    ghost g: { ShardHandle × RegisterHandle }
    requires* { sem 𝓛 (lies_at shard_row full_share at g.0) ∗ sem 𝓛 (lies_at register_row full_share register g.1) }
    ensures* { ∃ₛ (λ (is : declared_shard.ShardHandle). sem 𝓛 (lies_at shard_row full_share at is)) ∗ ∃ₛ (λ (is : declared_register.RegisterHandle). sem 𝓛 (lies_at register_row full_share register is)) }
{
    asked_shard::meet(
        &mut *(at as *mut ShardHandle),
        &mut *(register as *mut RegisterHandle),
    )
}

/// Which shard of an array of this shape has a block: puts its number at `shard` and answers 0, or 90 where there is none.
#[unsafe(no_mangle)]
pub extern "C" fn r6_shard_of(shape: &Shape, block: u64, shard: &mut u64) -> u32
    ensures found { result ≡ 0 → HasShard shape.now block shard.new }
    ensures none { result ≢ 0 → HasNoShard shape.now block }
{
    match made::shard_of(shape, block) {
        Some(number) => {
            *shard = number;
            0
        }
        None => NO_SUCH,
    }
}

//! An array is made, or a register and its shards, with all their room.

ghost use Rattle.std.specs.Prelude.{◌≡◌, ◌*◌, ◌≢◌, [], length, IfOk, IfErr, IfSome, MatchOption, Some, None};
ghost use Rattle.r6_layout.specs.Shape.{IsShape};
ghost use Rattle.r6_layout.specs.Limits.{first_fault, fault_number};
ghost use Rattle.r6_array_c.specs.Blocks.{AreMadeBlocks};
ghost use Rattle.r6_array_c.specs.Making.{IsMadeHost, IsMadeOrder, IsMadeRegister, IsMadeShard, IsUnmade, IsUnmadeOrder, IsUnmadeRegister, IsUnmadeShard, HasShard, HasNoShard, geometry_of};
ghost use Rattle.r6_array_c.specs.declared.host.Host.{Host};

use crate::blocks::Blocks;
use crate::handle::{Handle, Mail, Order, RegisterHandle, Shape, ShardHandle};
use crate::host::Host;
use crate::shard_host::ShardHost;
use r6_array::{Array, RequestList, Shard, SharedRegister};
use r6_core::MOST_UNANSWERED;
use r6_kernels::Buffer;
use r6_layout::Geometry;
use std::alloc::Global;
use std::ptr;

/// Why there is none: 1 to 5 as `GeometryError` numbers them, 6 to 10 as `ArrayError` does.
#[derive(Clone, Copy)]
pub(crate) struct Unmade(pub(crate) u32);

const NO_MEMORY: Unmade = Unmade(8);

/// An array, in a block of its own.
#[tactic(auto, using(crate::proofs::Making::no_memory))]
pub(crate) fn handle(alloc: Global, shape: &Shape) -> Result<Box<Handle>, Unmade>
    ensures made { IfOk result (λ made. (host : Host) × (made.value.host ≡ Some host) × IsMadeHost shape.now host
        × (made.value.mail.stage ≡ host.blocks.stage_at)) }
    ensures refused { IfErr result (λ unmade. IsUnmade shape.now unmade.0) }
{
    let host = host(alloc, shape)?;
    let mail = Mail::new(host.blocks.stage_at());
    let host = Some(host);
    match Box::new(alloc, Handle { mail, host }) {
        Ok(handle) => Ok(handle),
        Err(_) => Err(NO_MEMORY),
    }
}

/// Room for a command, in a block of its own.
pub(crate) fn order(alloc: Global, shape: &Shape) -> Result<Box<Order>, Unmade>
    ensures made { IfOk result (λ made. IsMadeOrder shape.now made.value) }
    ensures refused { IfErr result (λ unmade. IsUnmadeOrder shape.now unmade.0) }
{
    let geometry = geometry_of(shape)?;
    let block = block_of(alloc, &geometry)?;
    match Box::new(alloc, Order::new(alloc, block)) {
        Ok(order) => Ok(order),
        Err(_) => Err(NO_MEMORY),
    }
}

#[tactic(auto, using(crate::proofs::Making::no_memory))]
fn host(alloc: Global, shape: &Shape) -> Result<Host, Unmade>
    ensures made { IfOk result (IsMadeHost shape.now) }
    ensures refused { IfErr result (λ unmade. IsUnmade shape.now unmade.0) }
{
    let geometry = geometry_of(shape)?;
    let array = match Array::new(alloc, geometry, shape.window as usize, shape.lost) {
        Ok(array) => array,
        Err(error) => return Err(Unmade(u32::from(error.number()))),
    };
    let blocks = blocks_of(alloc, &geometry, geometry.shards() * MOST_UNANSWERED)?;
    let gathered = list_of(alloc)?;
    Ok(Host {
        array,
        blocks,
        gathered,
        asked: None,
    })
}

/// A shard that is to be opened at a register, in a block of its own.
pub(crate) fn shard(alloc: Global) -> Result<Box<ShardHandle>, Unmade>
    ensures made { IfOk result (λ made. made.value.host ≡ None) }
    ensures refused { IfErr result (λ unmade. unmade.0 ≡ 8) }
{
    let handle = ShardHandle {
        mail: Mail::new(ptr::null_mut()),
        alloc,
        host: None,
    };
    match Box::new(alloc, handle) {
        Ok(handle) => Ok(handle),
        Err(_) => Err(NO_MEMORY),
    }
}

/// A shard at its register, with all its room.
pub(crate) fn shard_host(
    alloc: Global,
    register: &SharedRegister,
    shard: usize,
    window: usize,
) -> Result<ShardHost, Unmade>
    ensures made { IfOk result (IsMadeShard register.now shard window) }
    ensures refused { IfErr result (λ unmade. IsUnmadeShard register.now shard window unmade.0) }
{
    let shard = match Shard::new(alloc, register, shard, window) {
        Ok(shard) => shard,
        Err(error) => return Err(Unmade(u32::from(error.number()))),
    };
    let blocks = blocks_of(alloc, &register.geometry(), MOST_UNANSWERED)?;
    let gathered = list_of(alloc)?;
    Ok(ShardHost {
        shard,
        blocks,
        gathered,
        asked: None,
    })
}

/// The register of an array's shards, in a block of its own.
pub(crate) fn register(alloc: Global, shape: &Shape) -> Result<Box<RegisterHandle>, Unmade>
    ensures made { IfOk result (λ made. IsMadeRegister shape.now made.value.register × (made.value.window ≡ shape.now.window)) }
    ensures refused { IfErr result (λ unmade. IsUnmadeRegister shape.now unmade.0) }
{
    let geometry = geometry_of(shape)?;
    let register = match SharedRegister::new(geometry, shape.lost) {
        Ok(register) => register,
        Err(error) => return Err(Unmade(u32::from(error.number()))),
    };
    let handle = RegisterHandle {
        mail: Mail::new(ptr::null_mut()),
        window: shape.window as usize,
        register,
    };
    match Box::new(alloc, handle) {
        Ok(handle) => Ok(handle),
        Err(_) => Err(NO_MEMORY),
    }
}

/// Which shard has a block.
pub(crate) fn shard_of(shape: &Shape, block: u64) -> Option<u64>
    ensures { MatchOption result (HasNoShard shape.now block) (HasShard shape.now block) }
{
    let Ok(geometry) = geometry_of(shape) else {
        return None;
    };
    match geometry.place(block) {
        Some(place) => Some(place.shard as u64),
        None => None,
    }
}

fn geometry_of(shape: &Shape) -> Result<Geometry, Unmade>
    ensures made { IfOk result (λ made. (made ≡ geometry_of shape.now) × IsShape made) }
    ensures right { IfOk result (λ _. first_fault (geometry_of shape.now) ≡ None) }
    ensures refused { IfErr result (λ unmade. IfSome (first_fault (geometry_of shape.now)) (λ fault. unmade.0 ≡ fault_number fault)) }
    ensures faulty { IfErr result (λ _. first_fault (geometry_of shape.now) ≢ None) }
{
    let made = Geometry::new(
        shape.slots as usize,
        shape.chunk,
        shape.block as usize,
        shape.rows,
        shape.shards as usize,
    );
    match made {
        Ok(geometry) => Ok(geometry),
        Err(error) => Err(Unmade(u32::from(error.number()))),
    }
}

// So many spare buffers, and the two blocks of the program.
fn blocks_of(alloc: Global, geometry: &Geometry, count: usize) -> Result<Blocks, Unmade>
    ensures made { IfOk result (AreMadeBlocks count geometry.now.block) }
    ensures refused { IfErr result (λ unmade. unmade.0 ≡ 8) }
{
    match Blocks::new(alloc, count, geometry.block()) {
        Ok(blocks) => Ok(blocks),
        Err(_) => Err(NO_MEMORY),
    }
}

// An empty list of requests.
fn list_of(alloc: Global) -> Result<RequestList, Unmade>
    ensures made { IfOk result (λ list. list ≡ []) }
    ensures refused { IfErr result (λ unmade. unmade.0 ≡ 8) }
{
    match RequestList::new(alloc) {
        Ok(list) => Ok(list),
        Err(_) => Err(NO_MEMORY),
    }
}

fn block_of(alloc: Global, geometry: &Geometry) -> Result<Buffer, Unmade>
    ensures made { IfOk result (λ made. length made ≡ geometry.now.block) }
    ensures refused { IfErr result (λ unmade. unmade.0 ≡ 8) }
{
    match Buffer::new(alloc, geometry.block()) {
        Ok(block) => Ok(block),
        Err(_) => Err(NO_MEMORY),
    }
}

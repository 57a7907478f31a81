//! What every use of an array keeps.

ghost use Rattle.r6_array.specs.Laws.{ArrayOfUses, QuietOfUses, SequentialOfUses};
ghost use Rattle.r6_array.specs.HandleLaws.{ShardOfHandle, CountsOfHandle, ArrayOfHandles, QuietOfHandles};

use crate::array::Array;
use crate::register::SharedRegister;
use crate::requests::RequestList;
use crate::shard::Shard;
use crate::ticket::Ticket;

/// The laws of an array, of whatever a program does with it: calls of [`Array`](crate::Array) from
/// [`Array::new`](crate::Array::new) on, each of which is so many happenings of one run of cores (`GoesOn` of its
/// contract), and devices that perform the commands that were handed out.
///
/// What they suppose of the devices is what [`array_law`](r6_core::array_law) supposes: a good completion is only of a
/// command that its device performed, once and after it was handed out, and that of a read brings the block that the
/// device gave; after a device has answered an error, no completion of a command that it performed later comes before
/// that error; and the array begins over devices that hold its blocks, P and Q.
///
/// Then each request that is answered `Data` or `Done` acted between its hand-over and its answer as on one plain
/// array, and every idle row's slots in sync hold that array's blocks, P and Q (`array`); once a shard is quiet each of
/// its requests has its reply ready, or it was taken (`quiet`); and of one shard, with one request at a time and at
/// most two slots out, the replies are the plain array's in the order of the requests (`sequential`).
pub fn laws()
    ensures array { ArrayOfUses }
    ensures quiet { QuietOfUses }
    ensures sequential { SequentialOfUses }
{
    r6_core::array_law();
}

/// The laws of shards in threads of their own, of whatever a program does with them: calls of
/// [`Shard`](crate::Shard) and of [`SharedRegister`](crate::SharedRegister), one after another as the lock orders those
/// that take the register, each of which is so many happenings of a run of cores (`GoesOnBeside` of its contract), and
/// devices that perform the commands that were handed out. What they suppose of the devices is what [`laws`] supposes.
///
/// Of the handle of one shard, whoever else calls at the register and whatever they do there: each request that is
/// answered `Data` or `Done` acted between its hand-over and its answer as on one plain array, and every idle row's
/// slots in sync hold that array's blocks, P and Q (`shard`); and each row that its checks and repairs have passed is
/// counted once (`counts`).
///
/// Of the handles of all shards, made at one register that only they and [`SharedRegister`](crate::SharedRegister)'s own
/// calls change: the same of all requests and rows together, and what the array law says of rebuilt slots (`array`);
/// and once a shard is quiet each of its requests has its reply ready, or it was taken (`quiet`).
pub fn handle_laws()
    ensures shard { ShardOfHandle }
    ensures counts { CountsOfHandle }
    ensures array { ArrayOfHandles }
    ensures quiet { QuietOfHandles }
{
    r6_core::array_law();
    r6_core::counts_of_one_core();
}

/// Does nothing. What it calls asks that arrays, shards, registers and lists of requests, and what names a command that is
/// out, may go from thread to thread.
pub fn may_change_threads() {
    asks_for_send::<Array>();
    asks_for_send::<Shard>();
    asks_for_send::<SharedRegister>();
    asks_for_send::<RequestList>();
    asks_for_send::<Ticket>();
}

fn asks_for_send<T: Send>() {}

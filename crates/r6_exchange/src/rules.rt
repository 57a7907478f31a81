//! The rules of both queues.

use crate::completion::{Delivery, TaskEnd};
use crate::task::WorkerTask;
use r6_dev::BlockDevice;
use r6_queues::{Relay, Rule};
use std::marker::PhantomData;

// No more parts than there is room for are among the tasks.
pub(crate) struct TaskRule;

impl<D> Rule<WorkerTask<D>, usize> for TaskRule {
    ghost use Rattle.r6_exchange.specs.Deliveries.{HasRoom};

    ghost admits = { HasRoom };

    ghost start = { 0 };
}

// Each completion acknowledges the tasks that it and those before it answer, as honest parts do.
pub(crate) struct CompletionRule<D> {
    device: PhantomData<D>,
}

impl<D: BlockDevice> Rule<Delivery<D>, Option<TaskEnd<D>>> for CompletionRule<D> {
    ghost use Rattle.std.specs.Prelude.{None};
    ghost use Rattle.r6_exchange.specs.Deliveries.{AreDeliveries};

    ghost admits = { AreDeliveries D.told D.promised };

    ghost start = { None };
}

pub(crate) type Tasks<D> = Relay<WorkerTask<D>, usize, TaskRule>;

pub(crate) type Completions<D> = Relay<Delivery<D>, Option<TaskEnd<D>>, CompletionRule<D>>;

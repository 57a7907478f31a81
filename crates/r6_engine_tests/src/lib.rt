//! Tests of shards and of what runs them: the caller of a core, a shard, the queues by which it is handed its events, a shard that takes them,
//! threads, and arrays that are served.
#![tactic(auto)]

#[cfg(test)]
mod answers;
#[cfg(test)]
mod array;
mod asks;
#[cfg(test)]
mod blocks;
#[cfg(test)]
mod core_caller;
#[cfg(test)]
mod core_served;
#[cfg(test)]
mod engine_caller;
#[cfg(test)]
mod engine_served;
#[cfg(test)]
mod guests;
#[cfg(test)]
mod joins;
#[cfg(test)]
mod lists;
#[cfg(test)]
mod meeting;
#[cfg(test)]
mod queues;
#[cfg(test)]
mod remotes;
#[cfg(test)]
mod runner_bench;
#[cfg(test)]
mod runners;
#[cfg(test)]
mod serve_bench;
#[cfg(test)]
mod served;
#[cfg(test)]
mod shard_bench;
#[cfg(test)]
mod shards;
#[cfg(test)]
mod sleepers;
#[cfg(test)]
mod steps;
#[cfg(test)]
mod stops;
#[cfg(test)]
mod threads;

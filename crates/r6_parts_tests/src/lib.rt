//! Tests of the crates below the core and of `r6_offline`: worked values from outside, each public call once, and courses
//! of calls.
#![tactic(auto)]

#[cfg(test)]
mod array;
#[cfg(test)]
mod array_checks;
#[cfg(test)]
mod array_files;
#[cfg(test)]
mod array_rebuilds;
#[cfg(test)]
mod batches;
#[cfg(test)]
mod bench;
#[cfg(test)]
mod blocks;
#[cfg(test)]
mod checks;
#[cfg(test)]
mod commands;
#[cfg(test)]
mod device_caller;
#[cfg(test)]
mod devices;
#[cfg(test)]
mod elements;
#[cfg(test)]
mod hold_caller;
#[cfg(test)]
mod holds;
#[cfg(test)]
mod kernels;
#[cfg(test)]
mod layouts;
#[cfg(test)]
mod losses;
#[cfg(test)]
mod meeting;
#[cfg(test)]
mod mishaps;
#[cfg(test)]
mod must;
#[cfg(test)]
mod read_errors;
#[cfg(test)]
mod rebuilds;
#[cfg(test)]
mod register_caller;
#[cfg(test)]
mod registers;
#[cfg(test)]
mod rows;
#[cfg(test)]
mod second_devices;
#[cfg(test)]
mod settings;
#[cfg(test)]
mod stretch_rebuilds;
#[cfg(test)]
mod stretches;
#[cfg(test)]
mod tables;
#[cfg(test)]
mod threads;
#[cfg(test)]
mod waiters;
#[cfg(test)]
mod worked;

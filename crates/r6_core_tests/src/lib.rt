//! Tests of the core: courses of requests, completions and losses, played over devices in memory by the calls that
//! every caller has.
#![tactic(auto)]

#[cfg(test)]
mod array_caller;
#[cfg(test)]
mod array_lists;
#[cfg(test)]
mod arrays;
#[cfg(test)]
mod bench;
#[cfg(test)]
mod course;
#[cfg(test)]
mod devices;
#[cfg(test)]
mod generations;
#[cfg(test)]
mod lists;
#[cfg(test)]
mod losses;
#[cfg(test)]
mod outside;
#[cfg(test)]
mod read_errors;
#[cfg(test)]
mod reads;
#[cfg(test)]
mod replacements;
#[cfg(test)]
mod requests;
#[cfg(test)]
mod scripts;
#[cfg(test)]
mod scrubs;
#[cfg(test)]
mod shards;
#[cfg(test)]
mod starts;
#[cfg(test)]
mod threads;
#[cfg(test)]
mod trouble;
#[cfg(test)]
mod whole_rows;
#[cfg(test)]
mod write_and_read;

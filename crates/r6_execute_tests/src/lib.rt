//! Tests of what the program's commands do: over texts, over files, and over readers and writers that fail.
#![tactic(auto)]

#[cfg(test)]
mod devices;
#[cfg(test)]
mod files;
#[cfg(test)]
mod geometries;
#[cfg(test)]
mod runs;
#[cfg(test)]
mod served;
#[cfg(test)]
mod simulate_losses;
#[cfg(test)]
mod simulate_replacements;
#[cfg(test)]
mod simulate_requests;
#[cfg(test)]
mod simulate_turns;
#[cfg(test)]
mod simulated;
#[cfg(test)]
mod texts;
#[cfg(test)]
mod transcripts;

//! Scripts, read: those of the command `simulate`, an array and the events that are played against its cores, and those
//! of `run`, the events that an array on devices is given. How a script is written is `specs/Script.antt` and
//! `specs/RunScript.antt`, and `parse_script` and `parse_run_script` read exactly what is written so.
#![tactic(auto)]

mod parser;
mod run_event;
mod run_parser;
mod script;

pub use parser::parse_script;
pub use run_event::RunEvent;
pub use run_parser::parse_run_script;
pub use script::{Call, Completion, Event, Script, ScriptFault, Task};

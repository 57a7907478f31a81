//! The program `raid6`: the core of a RAID-6 array as Linux md keeps one, from the command line.
#![tactic(auto)]

use std::process::ExitCode;

fn main(rt: HostRuntime) -> ExitCode {
    r6_execute::exit_code(&rt, &rt)
}

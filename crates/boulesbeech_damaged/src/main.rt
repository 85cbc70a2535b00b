//! The program again, run on the damaged sample.
#![tactic(auto)]

use commands::run;
use std::process::ExitCode;

fn main(rt: HostRuntime) -> ExitCode {
    run(&rt).map_or(ExitCode::FAILURE, |()| ExitCode::SUCCESS)
}

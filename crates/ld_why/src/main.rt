//! The program `ld-why`: says why `ld` refuses a link, or says no to one, place by place. `why_main` is all of it.
#![tactic(auto)]

use std::process::ExitCode;
use why_main::run_args;

fn main(rt: HostRuntime) -> ExitCode {
    ExitCode::from(run_args(&rt, &mut rt.stdout()))
}

//! The program `ld`: a static linker for x86-64 ELF, and a checker of its links. `ld_main` is all of it.
#![tactic(auto)]

use ld_main::run_args;
use std::process::ExitCode;

fn main(rt: HostRuntime) -> ExitCode {
    ExitCode::from(run_args(&rt, &mut rt.stdout(), &mut rt.stderr()))
}

//! The program `ld-debug`: links as `ld` does, and writes the image with sections, symbols and debug data for tools; checks such
//! an image. `debug_main` is all of it.
#![tactic(auto)]

use debug_main::run_args;
use std::process::ExitCode;

fn main(rt: HostRuntime) -> ExitCode {
    ExitCode::from(run_args(&rt, &mut rt.stdout(), &mut rt.stderr()))
}

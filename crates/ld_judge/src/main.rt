//! The program `ld-judge`: says whether an image that another linker made is a right link of its inputs. `judge_main` is all of it.
#![tactic(auto)]

use judge_main::run_args;
use std::process::ExitCode;

fn main(rt: HostRuntime) -> ExitCode {
    let answer = run_args(&rt, &mut rt.stdout(), &mut rt.stderr());
    ExitCode::from(answer.status)
}

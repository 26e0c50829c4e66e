// The program, for a stored run of a build that is refused: it ends with status 3, and its output is empty.
#![tactic(auto)]

use std::process::ExitCode;
use tm_top::run;

fn main(rt: HostRuntime) -> ExitCode {
    run(rt, &rt)
}

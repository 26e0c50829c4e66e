// Builds images of a bare-metal exerciser.
#![tactic(auto)]

use std::process::ExitCode;
use tm_top::run;

fn main(rt: HostRuntime) -> ExitCode {
    run(rt, &rt)
}

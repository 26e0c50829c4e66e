//! Answers cases over drawn tests: scripts of faults, what is checked and how much work is asked for; and of traces.
#![tactic(auto)]

mod bounds;
mod drawn;
mod races;
mod refused;
mod scripts;
mod traces;

use bounds::bounds;
use races::race;
use scripts::script;
use std::process::ExitCode;
use std::rt::HostRuntime;
use tm_base::{Bytes, NoMemory};
use tm_cases_book::{Kinds, State, answer_files};
use traces::trace;

struct TestCases;

impl Kinds for TestCases {
    fn form(&self, kind: &str) -> Option<&'static str> {
        match kind {
            "script" => Some("ttnX"),
            "trace" => Some("X"),
            "race" | "work" => Some("ttn"),
            _ => None,
        }
    }

    fn answer(
        &self,
        state: &mut State,
        kind: &str,
        rest: &str,
        out: &mut Bytes,
    ) -> Result<(), NoMemory> {
        match kind {
            "script" => script(state, rest, out),
            "trace" => trace(state, rest, out),
            "race" => race(state, rest, out),
            "work" => bounds(state, rest, out),
            _ => out.append(b"no such kind"),
        }
    }
}

fn main(rt: HostRuntime) -> ExitCode {
    answer_files(rt, &["scripts", "traces", "races"], &TestCases)
}

//! Answers cases of desks and sinks in memory, call by call.
#![tactic(auto)]

mod desks;

use desks::{desk, sink};
use std::process::ExitCode;
use std::rt::HostRuntime;
use tm_base::{Bytes, NoMemory};
use tm_cases_book::{Kinds, State, answer_files};

struct DeskCases;

impl Kinds for DeskCases {
    fn form(&self, kind: &str) -> Option<&'static str> {
        match kind {
            "desk" | "sink" => Some("O"),
            _ => None,
        }
    }

    fn answer(
        &self,
        state: &mut State,
        kind: &str,
        rest: &str,
        out: &mut Bytes,
    ) -> Result<(), NoMemory> {
        match kind {
            "desk" => desk(state, rest, out),
            "sink" => sink(state, rest, out),
            _ => out.append(b"no such kind"),
        }
    }
}

fn main(rt: HostRuntime) -> ExitCode {
    answer_files(rt, &["desks"], &DeskCases)
}

//! Answers cases of whole commands over desks and sinks in memory.
#![tactic(auto)]

mod commands;
mod outcomes;

use commands::{command, image, keep, slice};
use std::process::ExitCode;
use std::rt::HostRuntime;
use tm_base::{Bytes, NoMemory};
use tm_cases_book::{Kinds, State, answer_files};

struct CommandCases;

impl Kinds for CommandCases {
    fn form(&self, kind: &str) -> Option<&'static str> {
        match kind {
            "image" => Some("wttw"),
            "bytes" => Some("tnn"),
            "command" => Some("O"),
            "keep" => Some("wwO"),
            _ => None,
        }
    }

    fn answer(
        &self,
        state: &mut State,
        kind: &str,
        rest: &str,
        out: &mut Bytes,
    ) -> Result<(), NoMemory> {
        match kind {
            "image" => image(state, rest, out),
            "bytes" => slice(state, rest, out),
            "command" => command(state, rest, out),
            "keep" => keep(state, rest, out),
            _ => out.append(b"no such kind"),
        }
    }
}

fn main(rt: HostRuntime) -> ExitCode {
    let files = [
        "texts", "commands", "runs", "tests", "words", "faults", "judged",
    ];
    answer_files(rt, &files, &CommandCases)
}

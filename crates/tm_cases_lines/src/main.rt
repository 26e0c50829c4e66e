//! Answers cases of single instructions: their lines, words and steps, and labelled code.
#![tactic(auto)]

mod instructions;
mod labels;

use instructions::{exec, line, word};
use labels::code;
use std::process::ExitCode;
use std::rt::HostRuntime;
use tm_base::{Bytes, NoMemory};
use tm_cases_book::{Kinds, State, answer_files};

struct LineCases;

impl Kinds for LineCases {
    fn form(&self, kind: &str) -> Option<&'static str> {
        match kind {
            "line" => Some("X"),
            "word" | "code" => Some("n"),
            "exec" => Some("nS"),
            _ => None,
        }
    }

    fn answer(
        &self,
        state: &mut State,
        kind: &str,
        rest: &str,
        out: &mut Bytes,
    ) -> Result<(), NoMemory> {
        match kind {
            "line" => line(state, rest, out),
            "word" => word(rest, out),
            "exec" => exec(state.alloc, rest, out),
            "code" => code(state.alloc, rest, out),
            _ => out.append(b"no such kind"),
        }
    }
}

fn main(rt: HostRuntime) -> ExitCode {
    answer_files(rt, &["lines", "words", "steps", "labels"], &LineCases)
}

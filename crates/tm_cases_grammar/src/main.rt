//! Answers cases of tokens, topologies and templates, and of the rules of templates.
#![tactic(auto)]

mod rules;
mod texts;

use rules::rules;
use std::process::ExitCode;
use std::rt::HostRuntime;
use texts::{template, tokens_of, topology};
use tm_base::{Bytes, NoMemory};
use tm_cases_book::{Kinds, State, answer_files};

struct GrammarCases;

impl Kinds for GrammarCases {
    fn form(&self, kind: &str) -> Option<&'static str> {
        match kind {
            "tokens" | "topology" | "template" => Some("X"),
            "rules" => Some("tX"),
            _ => None,
        }
    }

    fn answer(
        &self,
        state: &mut State,
        kind: &str,
        rest: &str,
        out: &mut Bytes,
    ) -> Result<(), NoMemory> {
        match kind {
            "tokens" => tokens_of(state, rest, out),
            "topology" => topology(state, rest, out),
            "template" => template(state, rest, out),
            "rules" => rules(state, rest, out),
            _ => out.append(b"no such kind"),
        }
    }
}

fn main(rt: HostRuntime) -> ExitCode {
    answer_files(rt, &["texts", "grammar", "rules"], &GrammarCases)
}

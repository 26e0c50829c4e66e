//! Answers cases of numbers, addresses, draws, choices and placement.
#![tactic(auto)]

mod numbers;
mod places;

use numbers::{decimal, hexadecimal, read};
use places::{address, choose, drawn, may, part};
use std::process::ExitCode;
use std::rt::HostRuntime;
use tm_base::{Bytes, NoMemory};
use tm_cases_book::{Kinds, State, answer_files};

struct NumberCases;

impl Kinds for NumberCases {
    fn form(&self, kind: &str) -> Option<&'static str> {
        match kind {
            "number" => Some("X"),
            "decimal" => Some("n"),
            "hex" | "choice" | "part" => Some("nn"),
            "draw" => Some("nnnnn"),
            "address" => Some("wno"),
            "may" => Some("nnwwwnnn"),
            _ => None,
        }
    }

    fn answer(
        &self,
        state: &mut State,
        kind: &str,
        rest: &str,
        out: &mut Bytes,
    ) -> Result<(), NoMemory> {
        match kind {
            "number" => read(state, rest, out),
            "decimal" => decimal(rest, out),
            "hex" => hexadecimal(rest, out),
            "choice" => choose(rest, out),
            "draw" => drawn(rest, out),
            "part" => part(rest, out),
            "address" => address(rest, out),
            "may" => may(rest, out),
            _ => out.append(b"no such kind"),
        }
    }
}

fn main(rt: HostRuntime) -> ExitCode {
    answer_files(rt, &["numbers"], &NumberCases)
}

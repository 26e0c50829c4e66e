//! Answers cases of files of images, whole and with changes.
#![tactic(auto)]

mod files;

use files::elf;
use std::process::ExitCode;
use std::rt::HostRuntime;
use tm_base::{Bytes, NoMemory};
use tm_cases_book::{Kinds, State, answer_files};

struct ElfCases;

impl Kinds for ElfCases {
    fn form(&self, kind: &str) -> Option<&'static str> {
        match kind {
            "elf" => Some("tC"),
            _ => None,
        }
    }

    fn answer(
        &self,
        state: &mut State,
        kind: &str,
        rest: &str,
        out: &mut Bytes,
    ) -> Result<(), NoMemory> {
        match kind {
            "elf" => elf(state, rest, out),
            _ => out.append(b"no such kind"),
        }
    }
}

fn main(rt: HostRuntime) -> ExitCode {
    answer_files(rt, &["elf"], &ElfCases)
}

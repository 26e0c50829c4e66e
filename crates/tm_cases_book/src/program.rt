// A program that answers the cases of the files that lie where it runs.
use crate::lines::{Kinds, answers};
use crate::state::State;
use std::process::ExitCode;
use std::rt::HostRuntime;
use tm_desk::{Desk, RealDesk, RealSink, Sink, put_all};

/// The longest file that is read.
const LONGEST: u64 = 16_777_216;

/// Prints the answers of a file, or gives the status of a failure.
fn print_answers<K: Kinds, D: Desk, O: Sink>(
    kinds: &K,
    name: &str,
    state: &mut State,
    desk: &mut D,
    out: &mut O,
) -> Result<(), u8> {
    let Ok(file) = desk.read(name, LONGEST) else {
        return Err(5);
    };
    let Ok(text) = answers(state, kinds, file.as_slice()) else {
        return Err(6);
    };
    put_all(out, text.as_slice()).map_err(|_| 5)
}

/// Prints the answers of the files: 5 where one can't be read or nothing can be printed, 6 for want of memory, and 1
/// where some line is no case.
pub fn answer_files<K: Kinds>(rt: HostRuntime, files: &[&str], kinds: &K) -> ExitCode {
    let alloc = rt.alloc();
    let mut state = State::new(alloc);
    let mut out = RealSink::new(rt.stdout());
    let mut desk = RealDesk::new(alloc, rt);
    for name in files {
        if let Err(status) = print_answers(kinds, name, &mut state, &mut desk, &mut out) {
            return ExitCode::from(status);
        }
    }
    ExitCode::from(u8::from(state.failed))
}

// All that the program does.
ghost use Rattle.std.specs.Prelude.{◌≡◌, true, false, IfErr, IfOk};
ghost use Rattle.tm_words.specs.Words.{bytes_of_words, IsInRange, IsStill};
ghost use Rattle.tm_top_owed.specs.Changes.{desk_change, sink_change};
ghost use Rattle.tm_top_owed.specs.Owed.{OwesWords, IsDone, RestStays};
ghost use Rattle.tm_top_owed.specs.Runs.{events_in};
ghost use Rattle.tm_top_owed.specs.Steps.{Stopped};
ghost use Rattle.tm_top.specs.Refused.{WordsTold};

use std::alloc::Global;
use std::sync::Wait;
use std::thread::Threads;
use tm_desk::{Desk, Gate, Sink};
use tm_top_build::build_command;
use tm_top_judge::judge_command;
use tm_top_list::list_command;
use tm_top_owed::{Outcome, Stop, tell_stop, tell_usage};
use tm_top_run::{run_command, threads_command};
use tm_top_sample::sample_command;
use tm_words::{Command, WordsFault, read_words};

// Does what a command asks for, or stops with the cause.
fn done_by<D: Desk, O: Sink>(
    alloc: Global,
    command: &Command,
    desk: &mut D,
    out: &mut O,
) -> Result<Outcome, Stop>
    requires still { IsStill command.now }
    requires range { IsInRange command.now }
    ensures done { IfOk result (λ d. IsDone command.now
        (desk_change D.tells D.held D.faults desk.old desk.new)
        (sink_change O.tells O.taken O.faults out.old out.new) d.status (events_in d.journal)) }
    ensures stopped { IfErr result (λ stop. Stopped stop command.now
        (desk_change D.tells D.held D.faults desk.old desk.new)
        (sink_change O.tells O.taken O.faults out.old out.new)) }
    ensures rest { RestStays command.now (desk_change D.tells D.held D.faults desk.old desk.new) }
{
    match command {
        Command::Build(build) => match build_command(alloc, build, desk, out) {
            Ok(()) => Ok(Outcome {
                status: 0,
                journal: None,
            }),
            Err(stop) => Err(stop),
        },
        Command::List(image) => match list_command(alloc, image.as_str(), desk, out) {
            Ok(()) => Ok(Outcome {
                status: 0,
                journal: None,
            }),
            Err(stop) => Err(stop),
        },
        Command::Run(run) => run_command(alloc, run, desk, out),
        Command::Sample(number) => sample_command(alloc, *number, out),
        Command::Judge(judge) => match judge_command(alloc, judge, desk, out) {
            Ok(status) => Ok(Outcome {
                status,
                journal: None,
            }),
            Err(stop) => Err(stop),
        },
    }
}

// Does what a command asks for, also where it may wait, or stops with the cause.
fn done_at<R: Threads + Wait + Sync, D: Desk, O: Sink, G: Gate>(
    rt: &R,
    alloc: Global,
    command: &Command,
    desk: &mut D,
    out: &mut O,
    gate: &G,
) -> Result<Outcome, Stop>
    requires { IsInRange command.now }
    ensures done { IfOk result (λ d. IsDone command.now
        (desk_change D.tells D.held D.faults desk.old desk.new)
        (sink_change O.tells O.taken O.faults out.old out.new) d.status (events_in d.journal)) }
    ensures stopped { IfErr result (λ stop. Stopped stop command.now
        (desk_change D.tells D.held D.faults desk.old desk.new)
        (sink_change O.tells O.taken O.faults out.old out.new)) }
    ensures rest { RestStays command.now (desk_change D.tells D.held D.faults desk.old desk.new) }
{
    match command {
        Command::Run(run) if run.threads => threads_command(rt, alloc, run, desk, out, gate),
        _ => done_by(alloc, command, desk, out),
    }
}

// Says why words are no command, and answers the status.
fn tell_words<E: Sink>(alloc: Global, err: &mut E, fault: WordsFault) -> u8
    ensures { WordsTold fault (sink_change E.tells E.taken E.faults err.old err.new) result }
{
    match fault {
        WordsFault::Refused => tell_usage(err),
        WordsFault::NoMemory => tell_stop(alloc, err, &Stop::NoMemory),
    }
}

/// Does what the words say, over what is handed in. It waits for nobody.
///
/// The commands are `build TOPO TEMPLATE OUT --seed S`, `list IMAGE`, `run IMAGE --order round [--events N]
/// [--faults F] [--trace OUT]`, `sample N` and `judge IMAGE TRACE`. The statuses are 0 where the job was done, 1 for a
/// run under a script of faults in which some case is reported, and for a trace of which some answer isn't yes, 2 for
/// words that are no command, 3 for an input that is refused or too long, 4 for a run whose journal has all the events
/// that it may have while some hart isn't at halt, 5 where the desk or the output sink failed or an input is missing,
/// and 6 for want of memory. The journal is there exactly where a run or a sample ended with 0, 1 or 4.
pub fn still<D: Desk, O: Sink, E: Sink>(
    alloc: Global,
    words: &[String],
    desk: &mut D,
    out: &mut O,
    err: &mut E,
) -> Outcome
    ensures { OwesWords true (bytes_of_words words.now)
        (desk_change D.tells D.held D.faults desk.old desk.new)
        (sink_change O.tells O.taken O.faults out.old out.new)
        (sink_change E.tells E.taken E.faults err.old err.new)
        (events_in result.journal) result.status }
{
    let command = match read_words(alloc, words, true) {
        Ok(command) => command,
        Err(fault) => {
            return Outcome {
                status: tell_words(alloc, err, fault),
                journal: None,
            };
        }
    };
    match done_by(alloc, &command, desk, out) {
        Ok(outcome) => outcome,
        Err(stop) => Outcome {
            status: tell_stop(alloc, err, &stop),
            journal: None,
        },
    }
}

/// Does all that the program does, over what is handed in. It may wait: for a run with a thread for each hart. Each
/// turn of such a hart passes the gate.
///
/// The commands are those of `still`, and `run IMAGE --order threads` with the same options, which is also the run
/// without `--order`; the statuses are those of `still`.
pub fn top<R: Threads + Wait + Sync, D: Desk, O: Sink, G: Gate, E: Sink>(
    rt: &R,
    alloc: Global,
    words: &[String],
    desk: &mut D,
    out: &mut O,
    err: &mut E,
    gate: &G,
) -> Outcome
    ensures { OwesWords false (bytes_of_words words.now)
        (desk_change D.tells D.held D.faults desk.old desk.new)
        (sink_change O.tells O.taken O.faults out.old out.new)
        (sink_change E.tells E.taken E.faults err.old err.new)
        (events_in result.journal) result.status }
{
    let command = match read_words(alloc, words, false) {
        Ok(command) => command,
        Err(fault) => {
            return Outcome {
                status: tell_words(alloc, err, fault),
                journal: None,
            };
        }
    };
    match done_at(rt, alloc, &command, desk, out, gate) {
        Ok(outcome) => outcome,
        Err(stop) => Outcome {
            status: tell_stop(alloc, err, &stop),
            journal: None,
        },
    }
}

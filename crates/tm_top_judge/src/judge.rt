// The command that judges a trace.
ghost use Rattle.std.specs.Prelude.{◌≡◌, ◌≤◌, IsTrue, IfErr, IfOk, None};
ghost use Rattle.tm_words.specs.declared.command.Command.TheVariants as commands;
ghost use Rattle.tm_top_owed.specs.Changes.{desk_change, sink_change, FilesStay};
ghost use Rattle.tm_top_line.specs.Judgements as texts;
ghost use Rattle.tm_top_owed.specs.Owed.{IsDone, IsJudgementOf, is_yes as is_yes_answer, status_judged};
ghost use Rattle.tm_top_owed.specs.Steps.{InputStop, Stopped};

use crate::trace::{judged, read_named};
use std::alloc::Global;
use tm_base::Text;
use tm_desk::{Desk, Sink};
use tm_judge::{Answer, Judgement};
use tm_top_line::judgement_text;
use tm_top_owed::{Stop, open_input, print_text};
use tm_words::Judge;

/// Reads and opens the image, reads the trace and judges it, or stops at the first that isn't held, is too long or is
/// refused.
fn read_judgement<D: Desk>(alloc: Global, judge: &Judge, desk: &mut D) -> Result<Judgement, Stop>
    ensures ok { IfOk result (λ j. IsJudgementOf judge.now D.tells (D.held desk.old) j) }
    ensures unchanged { IsTrue D.tells → D.held desk.new ≡ D.held desk.old }
    ensures later { D.faults desk.old ≤ D.faults desk.new }
    ensures cause { IfErr result (λ stop.
        InputStop stop (commands.Judge judge.now) (desk_change D.tells D.held D.faults desk.old desk.new)) }
{
    let image = match open_input(alloc, judge.image.as_str(), desk) {
        Ok(image) => image,
        Err(stop) => return Err(stop),
    };
    let trace = match read_named(alloc, judge.trace.as_str(), desk) {
        Ok(trace) => trace,
        Err(stop) => return Err(stop),
    };
    match judged(alloc, &image.program, &trace) {
        Ok(judgement) => Ok(judgement),
        Err(stop) => Err(stop),
    }
}

fn is_yes(answer: Answer) -> bool
    ensures { result ≡ is_yes_answer answer }
{
    match answer {
        Answer::Yes => true,
        Answer::No { .. } => false,
    }
}

/// The status of a judgement: 0 where all three answers are yes, and else 1.
fn status_of(judgement: &Judgement) -> u8
    ensures { result ≡ status_judged judgement.now }
{
    if is_yes(judgement.path) && (is_yes(judgement.plain) && is_yes(judgement.legal)) {
        return 0;
    }
    1
}

// The text of a judgement, or want of memory.
fn told(alloc: Global, judgement: &Judgement) -> Result<Text, Stop>
    ensures ok { IfOk result (λ text. text ≡ texts.judgement_text judgement.now) }
    ensures err { IfErr result (λ stop. stop ≡ Stop.NoMemory) }
{
    match judgement_text(alloc, judgement) {
        Ok(text) => Ok(text),
        Err(_) => Err(Stop::NoMemory),
    }
}

/// Reads and opens the image, reads the trace, judges it and prints the three answers; the status is 0 where all three
/// are yes, and else 1.
#[tactic(auto, using(tm_top_owed::proofs::Stops::input_stopped))]
pub fn judge_command<D: Desk, O: Sink>(
    alloc: Global,
    judge: &Judge,
    desk: &mut D,
    out: &mut O,
) -> Result<u8, Stop>
    ensures done { IfOk result (λ status. IsDone (commands.Judge judge.now)
        (desk_change D.tells D.held D.faults desk.old desk.new)
        (sink_change O.tells O.taken O.faults out.old out.new) status None) }
    ensures stopped { IfErr result (λ stop. Stopped stop (commands.Judge judge.now)
        (desk_change D.tells D.held D.faults desk.old desk.new)
        (sink_change O.tells O.taken O.faults out.old out.new)) }
    ensures stay { FilesStay (desk_change D.tells D.held D.faults desk.old desk.new) }
{
    let judgement = match read_judgement(alloc, judge, desk) {
        Ok(judgement) => judgement,
        Err(stop) => return Err(stop),
    };
    let text = match told(alloc, &judgement) {
        Ok(text) => text,
        Err(stop) => return Err(stop),
    };
    match print_text(out, &text) {
        Ok(()) => Ok(status_of(&judgement)),
        Err(stop) => Err(stop),
    }
}

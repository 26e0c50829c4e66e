// The words of the command line.
ghost use Rattle.std.specs.Prelude.{◌≡◌, ◌≢◌, ◌∷◌, IsTrue, IfOk, IfErr, map};
ghost use Rattle.std.specs.String.{string_bytes};
ghost use Rattle.tm_words.specs.Words as said;
ghost use Rattle.tm_words.specs.Words.{IsInRange, IsStill};
ghost use Rattle.tm_words.specs.Form as form;
ghost use Rattle.tm_words.specs.Parser as reading;
ghost use Rattle.tm_words.specs.declared.command.Command.{Command};

use crate::command::{Command, Verb, WordsFault};
use crate::search::{
    build_found, build_said, judge_found, judge_said, list_found, list_said, run_found, run_said,
    sample_found, sample_said,
};
use std::alloc::Global;

// The command that the words behind `build` spell.
fn read_build(alloc: Global, words: &[String]) -> Result<Command, WordsFault>
    ensures ok { IfOk result (λ c. form.SpellsBehind Verb.Build (map string_bytes words.now) c) }
    ensures refused { IfErr result (λ e. e ≢ WordsFault.NoMemory → (c : Command)
        → form.SpellsBehind Verb.Build (map string_bytes words.now) c → ⊥) }
{
    match build_found(alloc, words) {
        Ok(found) => build_said(alloc, &found),
        Err(fault) => Err(fault),
    }
}

// The command that the words behind `list` spell.
fn read_list(alloc: Global, words: &[String]) -> Result<Command, WordsFault>
    ensures ok { IfOk result (λ c. form.SpellsBehind Verb.List (map string_bytes words.now) c) }
    ensures refused { IfErr result (λ e. e ≢ WordsFault.NoMemory → (c : Command)
        → form.SpellsBehind Verb.List (map string_bytes words.now) c → ⊥) }
{
    match list_found(alloc, words) {
        Ok(found) => list_said(alloc, &found),
        Err(fault) => Err(fault),
    }
}

// The command that the words behind `run` spell.
fn read_run(alloc: Global, words: &[String]) -> Result<Command, WordsFault>
    ensures ok { IfOk result (λ c. form.SpellsBehind Verb.Run (map string_bytes words.now) c) }
    ensures refused { IfErr result (λ e. e ≢ WordsFault.NoMemory → (c : Command)
        → form.SpellsBehind Verb.Run (map string_bytes words.now) c → ⊥) }
{
    match run_found(alloc, words) {
        Ok(found) => run_said(alloc, &found),
        Err(fault) => Err(fault),
    }
}

// The command that the words behind `sample` spell.
fn read_sample(alloc: Global, words: &[String]) -> Result<Command, WordsFault>
    ensures ok { IfOk result (λ c. form.SpellsBehind Verb.Sample (map string_bytes words.now) c) }
    ensures refused { IfErr result (λ e. e ≢ WordsFault.NoMemory → (c : Command)
        → form.SpellsBehind Verb.Sample (map string_bytes words.now) c → ⊥) }
{
    match sample_found(alloc, words) {
        Ok(found) => sample_said(&found),
        Err(fault) => Err(fault),
    }
}

// The command that the words behind `judge` spell.
fn read_judge(alloc: Global, words: &[String]) -> Result<Command, WordsFault>
    ensures ok { IfOk result (λ c. form.SpellsBehind Verb.Judge (map string_bytes words.now) c) }
    ensures refused { IfErr result (λ e. e ≢ WordsFault.NoMemory → (c : Command)
        → form.SpellsBehind Verb.Judge (map string_bytes words.now) c → ⊥) }
{
    match judge_found(alloc, words) {
        Ok(found) => judge_said(alloc, &found),
        Err(fault) => Err(fault),
    }
}

// The command that a word begins.
fn verb_of(word: &str) -> Option<Verb>
    ensures { result ≡ reading.verb_named word.now }
{
    if word == "build" {
        return Some(Verb::Build);
    }
    if word == "list" {
        return Some(Verb::List);
    }
    if word == "run" {
        return Some(Verb::Run);
    }
    if word == "sample" {
        return Some(Verb::Sample);
    }
    if word == "judge" {
        return Some(Verb::Judge);
    }
    None
}

// The command that the words behind its first word spell.
fn read_behind(alloc: Global, verb: Verb, words: &[String]) -> Result<Command, WordsFault>
    ensures ok { IfOk result (λ c. form.SpellsBehind verb (map string_bytes words.now) c) }
    ensures refused { IfErr result (λ e. e ≢ WordsFault.NoMemory → (c : Command)
        → form.SpellsBehind verb (map string_bytes words.now) c → ⊥) }
{
    match verb {
        Verb::Build => read_build(alloc, words),
        Verb::List => read_list(alloc, words),
        Verb::Run => read_run(alloc, words),
        Verb::Sample => read_sample(alloc, words),
        Verb::Judge => read_judge(alloc, words),
    }
}

// The command that a word and those behind it spell.
fn read_from(alloc: Global, word: &str, words: &[String]) -> Result<Command, WordsFault>
    ensures ok { IfOk result (λ c. form.IsForm (word.now ∷ map string_bytes words.now) c) }
    ensures refused { IfErr result (λ e. e ≢ WordsFault.NoMemory → (c : Command)
        → form.IsForm (word.now ∷ map string_bytes words.now) c → ⊥) }
{
    match verb_of(word) {
        Some(verb) => read_behind(alloc, verb, words),
        None => Err(WordsFault::Refused),
    }
}

// The command that words spell.
fn read_any(alloc: Global, words: &[String]) -> Result<Command, WordsFault>
    ensures ok { IfOk result (λ c. form.IsForm (said.bytes_of_words words.now) c) }
    ensures refused { IfErr result (λ e. e ≢ WordsFault.NoMemory → (c : Command)
        → form.IsForm (said.bytes_of_words words.now) c → ⊥) }
{
    match words {
        [] => Err(WordsFault::Refused),
        [word, rest @ ..] => read_from(alloc, word.as_str(), rest),
    }
}

// Whether a command waits for nobody.
fn waits_for_nobody(command: &Command) -> bool
    ensures { result ≡ form.waits_for_nobody command.now }
{
    match command {
        Command::Run(run) => !run.threads,
        Command::Build(_) | Command::List(_) | Command::Sample(_) | Command::Judge(_) => true,
    }
}

// The command, where it may be asked for.
fn if_asked(command: Command, round_alone: bool) -> Result<Command, WordsFault>
    ensures { result ≡ reading.if_asked round_alone command }
{
    if !round_alone {
        return Ok(command);
    }
    if waits_for_nobody(&command) {
        return Ok(command);
    }
    Err(WordsFault::Refused)
}

/// The command that the words spell; with `round_alone` only one that waits for nobody, which a run by threads isn't.
///
/// `Refused` comes exactly where the words ask for none. Words ask for one command at most, so that it is the one.
pub fn read_words(alloc: Global, words: &[String], round_alone: bool) -> Result<Command, WordsFault>
    ensures asked { IfOk result (λ c. form.IsAskedFor round_alone (said.bytes_of_words words.now) c) }
    ensures refused { IfErr result (λ e. e ≢ WordsFault.NoMemory → (c : Command)
        → form.IsAskedFor round_alone (said.bytes_of_words words.now) c → ⊥) }
    ensures only { (c : Command) → form.IsAskedFor round_alone (said.bytes_of_words words.now) c
        → reading.IsOrNoMemory c result }
    ensures in_range { IfOk result IsInRange }
    ensures still { IsTrue round_alone → IfOk result IsStill }
{
    match read_any(alloc, words) {
        Ok(command) => if_asked(command, round_alone),
        Err(fault) => Err(fault),
    }
}

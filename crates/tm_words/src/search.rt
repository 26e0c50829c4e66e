// What the parsers of the commands find, and what it asks for.
ghost use Rattle.std.specs.Prelude.{◌≡◌, ◌≢◌, IfOk, IfErr, map};
ghost use Rattle.std.specs.String.{string_bytes};
ghost use Rattle.tm_words.specs.Words as said;
ghost use Rattle.tm_words.specs.Words.{Tells};
ghost use Rattle.tm_words.specs.Form as form;
ghost use Rattle.tm_words.specs.Parser as reading;
ghost use Rattle.clap.specs.Words.{rows_of, found_of, first_of};

use crate::asked::{build_asked, judge_asked, list_asked, run_asked, sample_asked};
use crate::command::{Command, Verb, WordsFault};
use crate::parser::{of_names, parsed, with_option};
use clap::ArgMatches;
use std::alloc::Global;

// The value of an option that a parser found.
fn value_of<'a>(found: &ArgMatches<'a>, option: &str) -> Option<&'a str>
    ensures { said.text_in result ≡ first_of option.now (rows_of (found_of found.now)) }
{
    found.get_str(option)
}

/// What is found in the words behind `build`.
pub fn build_found<'a>(alloc: Global, words: &'a [String]) -> Result<ArgMatches<'a>, WordsFault>
    ensures ok { IfOk result (λ m. reading.IsRead (form.options_of Verb.Build) (map string_bytes words.now)
        (rows_of (found_of m))) }
    ensures refused { IfErr result (λ e. e ≢ WordsFault.NoMemory
        → reading.IsUnspelled (form.options_of Verb.Build) (map string_bytes words.now)) }
{
    let command = of_names(alloc, "build")?;
    let command = with_option(alloc, command, "seed")?;
    parsed(command, words)
}

/// What is found in the words behind `list`.
pub fn list_found<'a>(alloc: Global, words: &'a [String]) -> Result<ArgMatches<'a>, WordsFault>
    ensures ok { IfOk result (λ m. reading.IsRead (form.options_of Verb.List) (map string_bytes words.now)
        (rows_of (found_of m))) }
    ensures refused { IfErr result (λ e. e ≢ WordsFault.NoMemory
        → reading.IsUnspelled (form.options_of Verb.List) (map string_bytes words.now)) }
{
    let command = of_names(alloc, "list")?;
    parsed(command, words)
}

/// What is found in the words behind `run`.
pub fn run_found<'a>(alloc: Global, words: &'a [String]) -> Result<ArgMatches<'a>, WordsFault>
    ensures ok { IfOk result (λ m. reading.IsRead (form.options_of Verb.Run) (map string_bytes words.now)
        (rows_of (found_of m))) }
    ensures refused { IfErr result (λ e. e ≢ WordsFault.NoMemory
        → reading.IsUnspelled (form.options_of Verb.Run) (map string_bytes words.now)) }
{
    let command = of_names(alloc, "run")?;
    let command = with_option(alloc, command, "events")?;
    let command = with_option(alloc, command, "order")?;
    let command = with_option(alloc, command, "faults")?;
    let command = with_option(alloc, command, "trace")?;
    parsed(command, words)
}

/// What is found in the words behind `sample`.
pub fn sample_found<'a>(alloc: Global, words: &'a [String]) -> Result<ArgMatches<'a>, WordsFault>
    ensures ok { IfOk result (λ m. reading.IsRead (form.options_of Verb.Sample) (map string_bytes words.now)
        (rows_of (found_of m))) }
    ensures refused { IfErr result (λ e. e ≢ WordsFault.NoMemory
        → reading.IsUnspelled (form.options_of Verb.Sample) (map string_bytes words.now)) }
{
    let command = of_names(alloc, "sample")?;
    parsed(command, words)
}

/// What is found in the words behind `judge`.
pub fn judge_found<'a>(alloc: Global, words: &'a [String]) -> Result<ArgMatches<'a>, WordsFault>
    ensures ok { IfOk result (λ m. reading.IsRead (form.options_of Verb.Judge) (map string_bytes words.now)
        (rows_of (found_of m))) }
    ensures refused { IfErr result (λ e. e ≢ WordsFault.NoMemory
        → reading.IsUnspelled (form.options_of Verb.Judge) (map string_bytes words.now)) }
{
    let command = of_names(alloc, "judge")?;
    parsed(command, words)
}

/// The command that what was found behind `build` asks for.
pub fn build_said(alloc: Global, found: &ArgMatches<'_>) -> Result<Command, WordsFault>
    ensures { Tells (reading.asked_by Verb.Build (rows_of (found_of found.now))) result }
{
    let seed = value_of(found, "seed");
    match found.get_raw("names") {
        Some(names) => build_asked(alloc, names, seed),
        None => Err(WordsFault::Refused),
    }
}

/// The command that what was found behind `list` asks for.
pub fn list_said(alloc: Global, found: &ArgMatches<'_>) -> Result<Command, WordsFault>
    ensures { Tells (reading.asked_by Verb.List (rows_of (found_of found.now))) result }
{
    match found.get_raw("names") {
        Some(names) => list_asked(alloc, names),
        None => Err(WordsFault::Refused),
    }
}

/// The command that what was found behind `run` asks for.
pub fn run_said(alloc: Global, found: &ArgMatches<'_>) -> Result<Command, WordsFault>
    ensures { Tells (reading.asked_by Verb.Run (rows_of (found_of found.now))) result }
{
    let events = value_of(found, "events");
    let order = value_of(found, "order");
    let faults = value_of(found, "faults");
    let trace = value_of(found, "trace");
    match found.get_raw("names") {
        Some(names) => run_asked(alloc, names, events, order, faults, trace),
        None => Err(WordsFault::Refused),
    }
}

/// The command that what was found behind `sample` asks for.
pub fn sample_said(found: &ArgMatches<'_>) -> Result<Command, WordsFault>
    ensures { Tells (reading.asked_by Verb.Sample (rows_of (found_of found.now))) result }
{
    match found.get_raw("names") {
        Some(names) => sample_asked(names),
        None => Err(WordsFault::Refused),
    }
}

/// The command that what was found behind `judge` asks for.
pub fn judge_said(alloc: Global, found: &ArgMatches<'_>) -> Result<Command, WordsFault>
    ensures { Tells (reading.asked_by Verb.Judge (rows_of (found_of found.now))) result }
{
    match found.get_raw("names") {
        Some(names) => judge_asked(alloc, names),
        None => Err(WordsFault::Refused),
    }
}

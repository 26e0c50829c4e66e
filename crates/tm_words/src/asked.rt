// What the names and the values of options ask for.
ghost use Rattle.std.specs.Prelude.{◌≡◌, IfOk, IfErr, Ok, Some, map};
ghost use Rattle.tm_words.specs.Words as said;
ghost use Rattle.tm_words.specs.Words.{Tells};

use crate::command::{Build, Command, Judge, Run, WordsFault};
use std::alloc::Global;
use tm_base::{DEFAULT_EVENTS, MOST_EVENTS, Name, NoMemory, read_number};

// A name of a file.
fn named(alloc: Global, text: &str) -> Result<Name, WordsFault>
    ensures ok { IfOk result (λ name. name ≡ text.now) }
    ensures err { IfErr result (λ e. e ≡ WordsFault.NoMemory) }
{
    match Name::of(alloc, text) {
        Ok(name) => Ok(name),
        Err(NoMemory) => Err(WordsFault::NoMemory),
    }
}

// A name of a file, where there is one.
fn named_if(alloc: Global, text: Option<&str>) -> Result<Option<Name>, WordsFault>
    ensures ok { IfOk result (λ name. name ≡ said.text_in text.entry) }
    ensures err { IfErr result (λ e. e ≡ WordsFault.NoMemory) }
{
    let Some(text) = text else {
        return Ok(None);
    };
    match named(alloc, text) {
        Ok(name) => Ok(Some(name)),
        Err(fault) => Err(fault),
    }
}

// The build of three names and a seed.
fn build_of(
    alloc: Global,
    topo: &str,
    template: &str,
    out: &str,
    seed: u64,
) -> Result<Command, WordsFault>
    ensures { Tells (said.build_of topo.now template.now out.now (Ok seed)) result }
{
    let topo = named(alloc, topo)?;
    let template = named(alloc, template)?;
    let out = named(alloc, out)?;
    Ok(Command::Build(Build {
        topo,
        template,
        out,
        seed,
    }))
}

/// The build that names and a seed ask for.
pub fn build_asked(alloc: Global, names: &[&str], seed: Option<&str>) -> Result<Command, WordsFault>
    ensures { Tells (said.build_asked (map (λ s. s.now) names.now) (said.text_in seed.entry)) result }
{
    let [topo, template, out] = names else {
        return Err(WordsFault::Refused);
    };
    let Some(seed) = seed else {
        return Err(WordsFault::Refused);
    };
    match read_number(seed.as_bytes()) {
        Ok(seed) => build_of(alloc, *topo, *template, *out, seed),
        Err(_) => Err(WordsFault::Refused),
    }
}

/// The listing that names ask for.
pub fn list_asked(alloc: Global, names: &[&str]) -> Result<Command, WordsFault>
    ensures { Tells (said.list_asked (map (λ s. s.now) names.now)) result }
{
    let [image] = names else {
        return Err(WordsFault::Refused);
    };
    match named(alloc, *image) {
        Ok(image) => Ok(Command::List(image)),
        Err(fault) => Err(fault),
    }
}

// How many events a value asks for.
fn events_asked(value: Option<&str>) -> Option<u64>
    ensures { result ≡ said.events_asked (said.text_in value.entry) }
{
    let Some(value) = value else {
        return Some(DEFAULT_EVENTS);
    };
    match read_number(value.as_bytes()) {
        Ok(events) if 1 <= events && events <= MOST_EVENTS => Some(events),
        Ok(_) | Err(_) => None,
    }
}

// Whether a value asks for threads.
fn order_asked(value: Option<&str>) -> Option<bool>
    ensures { result ≡ said.order_asked (said.text_in value.entry) }
{
    let Some(value) = value else {
        return Some(true);
    };
    if value == "threads" {
        return Some(true);
    }
    if value == "round" {
        return Some(false);
    }
    None
}

// The run of an image with these events, this order and these further files.
fn run_of(
    alloc: Global,
    image: &str,
    events: u64,
    threads: bool,
    faults: Option<&str>,
    trace: Option<&str>,
) -> Result<Command, WordsFault>
    ensures { Tells (said.run_of image.now (Some events) (Some threads) (said.text_in faults.entry)
        (said.text_in trace.entry)) result }
{
    let image = named(alloc, image)?;
    let faults = named_if(alloc, faults)?;
    let trace = named_if(alloc, trace)?;
    Ok(Command::Run(Run {
        image,
        events,
        threads,
        faults,
        trace,
    }))
}

/// The run that names and the values of its options ask for.
pub fn run_asked(
    alloc: Global,
    names: &[&str],
    events: Option<&str>,
    order: Option<&str>,
    faults: Option<&str>,
    trace: Option<&str>,
) -> Result<Command, WordsFault>
    ensures { Tells (said.run_asked (map (λ s. s.now) names.now) (said.text_in events.entry)
        (said.text_in order.entry) (said.text_in faults.entry) (said.text_in trace.entry)) result }
{
    let [image] = names else {
        return Err(WordsFault::Refused);
    };
    let Some(events) = events_asked(events) else {
        return Err(WordsFault::Refused);
    };
    let Some(threads) = order_asked(order) else {
        return Err(WordsFault::Refused);
    };
    run_of(alloc, *image, events, threads, faults, trace)
}

/// The sample that names ask for.
pub fn sample_asked(names: &[&str]) -> Result<Command, WordsFault>
    ensures { Tells (said.sample_asked (map (λ s. s.now) names.now)) result }
{
    let [number] = names else {
        return Err(WordsFault::Refused);
    };
    match read_number(number.as_bytes()) {
        Ok(number) => Ok(Command::Sample(number)),
        Err(_) => Err(WordsFault::Refused),
    }
}

// The judgement of the trace of a name, over the image of another.
fn judge_of(alloc: Global, image: &str, trace: &str) -> Result<Command, WordsFault>
    ensures { Tells (said.judge_of image.now trace.now) result }
{
    let image = named(alloc, image)?;
    let trace = named(alloc, trace)?;
    Ok(Command::Judge(Judge { image, trace }))
}

/// The judgement that names ask for.
pub fn judge_asked(alloc: Global, names: &[&str]) -> Result<Command, WordsFault>
    ensures { Tells (said.judge_asked (map (λ s. s.now) names.now)) result }
{
    let [image, trace] = names else {
        return Err(WordsFault::Refused);
    };
    judge_of(alloc, *image, *trace)
}

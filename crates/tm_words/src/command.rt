// A command, as the words give it.
use tm_base::Name;

/// What a build asks for: the names of a topology and a template, that of the file that is written, and a seed.
#[derive(Drop)]
pub struct Build {
    pub topo: Name,
    pub template: Name,
    pub out: Name,
    pub seed: u64,
}

/// What a run asks for: an image's name, the most events, 1 to 100,000,000, whether each hart is driven by a thread of
/// its own, and the names of a script of faults and of the trace that is written, where there are any.
#[derive(Drop)]
pub struct Run {
    pub image: Name,
    pub events: u64,
    pub threads: bool,
    pub faults: Option<Name>,
    pub trace: Option<Name>,
}

/// What a judgement asks for: the names of an image, and of the trace of a run of it.
#[derive(Drop)]
pub struct Judge {
    pub image: Name,
    pub trace: Name,
}

/// A command with what it asks for: a listing for the image of a name, and a sample for that of a number.
#[derive(Drop)]
pub enum Command {
    Build(Build),
    List(Name),
    Run(Run),
    Sample(u64),
    Judge(Judge),
}

/// Why there is no command: the words aren't of the form, or there was no memory to read them.
#[derive(Clone, Copy, Debug, PartialEq, Eq)]
pub enum WordsFault {
    Refused,
    NoMemory,
}

/// The word that begins a command.
#[derive(Clone, Copy)]
pub enum Verb {
    Build,
    List,
    Run,
    Sample,
    Judge,
}

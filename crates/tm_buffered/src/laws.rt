// Laws over the definitions, each as the contract of a function that does nothing.
ghost use Rattle.tm_buffered.specs.Laws.{BufferedIsHalf, BufferedIsLegal, BufferedGoesOn, PlainIsBuffered, SoundBuffered};

use tm_plan_cases::Program;

/// Each plain run is a buffered run, whose writes drain at once.
pub fn plain_is_buffered(program: &Program)
    ensures { PlainIsBuffered program.now }
{
    let _ = program;
}

/// The steps of each buffered run, in order, are a legal run, and so a half run, whatever its opening, its interleaving
/// and when writes drain. So on a sound program no round case is reported, and no hart gets stuck.
///
/// Asked: harts that meet, which their courses give (`course_meets` of tm_memory); or a sound program. Of a hart's
/// course this uses the fence before its signal, and that from the signal to the exit mark it writes nothing: so
/// whoever is in a later phase finds all its writes in memory.
pub fn buffered_is_legal(program: &Program)
    ensures half { BufferedIsHalf program.now }
    ensures legal { BufferedIsLegal program.now }
    ensures sound { SoundBuffered program.now }
{
    let _ = program;
}

/// No hart gets stuck on a buffered run: each that isn't at halt has a next step.
///
/// Asked: harts that meet; and that on half runs no hart gets stuck outside streams and off halt, which the words of
/// its code show.
pub fn unstuck(program: &Program)
    ensures { BufferedGoesOn program.now }
{
    let _ = program;
}

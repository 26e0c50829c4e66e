// Laws over the definitions, each as the contract of a function that does nothing.
ghost use Rattle.tm_pass_text.specs.Spread.{SpreadIsApart};
ghost use Rattle.tm_pass_text.specs.Words.{TextIsLaid};

use tm_plan_cases::Program;

/// Where the marks of each hart rise from case to case and the harts' text from hart to hart, all marks are apart.
pub fn spread_is_apart(program: &Program)
    ensures { SpreadIsApart program.now }
{
    let _ = program;
}

/// The text of all harts is laid as the course asks.
pub fn text_is_laid(program: &Program)
    ensures { TextIsLaid program.now }
{
    let _ = program;
}

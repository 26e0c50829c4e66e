// A law of traces, as the contract of a function that does nothing.
ghost use Rattle.tm_trace.specs.Laws.{ReadsBack};

/// What is written of a trace is read back as this trace.
pub fn reads_back()
    ensures { ReadsBack }
{}

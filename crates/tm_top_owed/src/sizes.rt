// The sizes of a script and of a trace.

/// The most bytes of the file of a script of faults.
pub const FAULTS_BYTES: u64 = 65_536;

/// The most bytes of the file of a trace that is read.
pub const TRACE_BYTES: u64 = 268_435_456;

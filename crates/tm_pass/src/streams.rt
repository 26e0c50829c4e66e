// The streams of one hart.
ghost use Rattle.std.specs.Prelude.{◌≡◌, ◌<◌, ◌≤◌, [], length, slice_index_or};
ghost use Rattle.tm_plan_cases.specs.Shaped.{AreShaped};
ghost use Rattle.tm_pass_text.specs.Words.{streams_of};

use tm_plan_cases::Cases;

/// How many cases there are.
pub fn case_count(cases: &Cases) -> u32
    requires { AreShaped cases.now }
    ensures { result ≡ length cases.now.cases }
{
    cases.cases.as_slice().len() as u32
}

/// The words of hart `h`'s stream in case `c`.
pub fn stream_of(cases: &Cases, h: u32, c: u32) -> &[u32]
    requires shaped { AreShaped cases.now }
    requires mine { h < cases.now.harts }
    requires case { c < length cases.now.cases }
    ensures is { result.now ≡ slice_index_or (streams_of cases.now h) c [] }
    ensures few { length result.now ≤ 256 }
{
    let case = &cases.cases.as_slice()[c as usize];
    let stream = &case.streams.as_slice()[h as usize];
    stream.words.as_slice()
}

// The streams of a test that a case names.
ghost use Rattle.std.specs.Prelude.{IfSome};
ghost use Rattle.tm_plan_cases.specs.Shaped.{AreShaped};

use tm_cases_book::{State, number, words_of};
use tm_gen::streams;
use tm_plan_cases::Cases;
use tm_rules::admit;
use tm_tmpl_read::parse_template;
use tm_topo::parse_topology;

/// No text of a case is longer.
pub const LONGEST: usize = 0x10_0000;

/// The cases of a topology and a template by name and a seed, where these are a test: `TOPOLOGY TEMPLATE SEED`.
pub fn drawn(state: &State, rest: &str) -> Option<Cases>
    ensures { IfSome result AreShaped }
{
    let [topology, template, seed, ..] = words_of(rest);
    let text = state.texts.find(template);
    if text.len() > LONGEST {
        return None;
    }
    let Ok(t) = parse_template(state.alloc, text) else {
        return None;
    };
    let Ok(topo) = parse_topology(state.alloc, state.texts.find(topology)) else {
        return None;
    };
    let Ok(a) = admit(state.alloc, &t, &topo) else {
        return None;
    };
    streams(state.alloc, &a, number(seed)).ok()
}

// How much work a test asks for.
use crate::drawn::drawn;
use tm_base::{Bytes, NoMemory, push_decimal};
use tm_cases_book::State;
use tm_plan_owned::{budget, owned, work};

/// For each hart the dwords that it collects and its work, and then the budget of a run.
pub fn bounds(state: &State, rest: &str, out: &mut Bytes) -> Result<(), NoMemory> {
    let Some(cases) = drawn(state, rest) else {
        return out.append(b"no test");
    };
    for h in 0..cases.harts {
        out.append(b"dwords ")?;
        push_decimal(out, owned(&cases, h))?;
        out.append(b" work ")?;
        push_decimal(out, work(&cases, h))?;
        out.append(b", ")?;
    }
    out.append(b"budget ")?;
    push_decimal(out, budget(&cases))
}

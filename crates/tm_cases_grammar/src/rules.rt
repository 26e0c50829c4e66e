// The rules of templates.
use crate::texts::LONGEST;
use tm_base::{Bytes, NoMemory, push_decimal, push_pos};
use tm_cases_book::{State, put};
use tm_plan_map::Admitted;
use tm_refusals::{AdmitFault, RuleAt};
use tm_rules::admit;
use tm_tmpl_read::parse_template;
use tm_topo::parse_topology;

/// The rule that a template breaks on a topology by name: `TOPOLOGY TEMPLATE`; or how many slots each hart has in
/// each case.
pub fn rules(state: &State, rest: &str, out: &mut Bytes) -> Result<(), NoMemory> {
    let alloc = state.alloc;
    let (name, text) = rest.split_once(' ').unwrap_or((rest, ""));
    let text = state.texts.read(text)?;
    if text.as_slice().len() > LONGEST {
        return out.append(b"too long");
    }
    let Ok(t) = parse_template(alloc, text.as_slice()) else {
        return out.append(b"no template");
    };
    match parse_topology(alloc, state.texts.find(name)) {
        Ok(topo) => match admit(alloc, &t, &topo) {
            Ok(admitted) => put_lengths(&admitted, out),
            Err(AdmitFault::Rule(RuleAt { pos, fault })) => {
                push_pos(out, pos)?;
                put(out, format!(in alloc; " {fault:?}"))
            }
            Err(AdmitFault::NoMemory) => out.append(b"NoMemory"),
        },
        Err(_) => out.append(b"no topology"),
    }
}

fn put_lengths(admitted: &Admitted, out: &mut Bytes) -> Result<(), NoMemory> {
    out.append(b"slots")?;
    for case in admitted.cases.as_slice() {
        for slots in case.bodies.as_slice() {
            out.push(b' ')?;
            push_decimal(out, slots.as_slice().len() as u64)?;
        }
    }
    Ok(())
}

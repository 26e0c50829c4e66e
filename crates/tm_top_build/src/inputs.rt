// The inputs of a build, read and refused in the order of work.
ghost use Rattle.std.specs.Prelude.{◌≡◌, ◌≤◌, IsTrue, IfOk, IfErr};
ghost use Rattle.tm_words.specs.declared.command.Command.TheVariants as commands;
ghost use Rattle.tm_top_owed.specs.Changes.{desk_change};
ghost use Rattle.tm_top_owed.specs.Owed.{IsImageOf};
ghost use Rattle.tm_top_owed.specs.Steps.{InputStop};
ghost use Rattle.tm_top_build.specs.Steps.{IsTopology};

use crate::image::image_of;
use crate::made::Made;
use std::alloc::Global;
use tm_base::{Bytes, TEMPLATE_BYTES, TOPOLOGY_BYTES};
use tm_desk::Desk;
use tm_image_inputs::topology_fault;
use tm_refusals::Role;
use tm_top_line::AnyFault;
use tm_top_owed::{Stop, read_input};
use tm_words::Build;

/// Reads the topology, and refuses it.
fn read_topology<D: Desk>(alloc: Global, b: &Build, desk: &mut D) -> Result<Bytes, Stop>
    ensures ok { IfOk result (λ text. IsTopology b.now D.tells (D.held desk.old) text) }
    ensures unchanged { IsTrue D.tells → D.held desk.new ≡ D.held desk.old }
    ensures later { D.faults desk.old ≤ D.faults desk.new }
    ensures cause { IfErr result (λ stop.
        InputStop stop (commands.Build b.now) (desk_change D.tells D.held D.faults desk.old desk.new)) }
{
    let text = match read_input(desk, Role::Topology, b.topo.as_str(), TOPOLOGY_BYTES) {
        Ok(text) => text,
        Err(stop) => return Err(stop),
    };
    match topology_fault(alloc, text.as_slice()) {
        Ok(Some(fault)) => Err(Stop::Refused(Role::Topology, AnyFault::Input(fault))),
        Ok(None) => Ok(text),
        Err(_) => Err(Stop::NoMemory),
    }
}

/// Reads the two inputs and builds the image, or stops at the first that fails or is refused.
pub fn make_image<D: Desk>(alloc: Global, b: &Build, desk: &mut D) -> Result<Made, Stop>
    ensures ok { IfOk result (λ made. IsImageOf b.now D.tells (D.held desk.old) made.file made.line) }
    ensures unchanged { IsTrue D.tells → D.held desk.new ≡ D.held desk.old }
    ensures later { D.faults desk.old ≤ D.faults desk.new }
    ensures cause { IfErr result (λ stop.
        InputStop stop (commands.Build b.now) (desk_change D.tells D.held D.faults desk.old desk.new)) }
{
    let topo = match read_topology(alloc, b, desk) {
        Ok(topo) => topo,
        Err(stop) => return Err(stop),
    };
    let template = match read_input(desk, Role::Template, b.template.as_str(), TEMPLATE_BYTES) {
        Ok(template) => template,
        Err(stop) => return Err(stop),
    };
    match image_of(alloc, &topo, &template, b.seed) {
        Ok(made) => Ok(made),
        Err(stop) => Err(stop),
    }
}

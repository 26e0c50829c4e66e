// The rules of bodies.
ghost use Rattle.std.specs.Prelude.{◌≡◌, ◌≤◌, ◌*◌, [], find};
ghost use Rattle.tm_rules_slot.specs.Teams.{harts_of, team};
ghost use Rattle.tm_topo.specs.Limits.{IsInRange};
ghost use Rattle.tm_rules_slot.specs.Slots.{first};
ghost use Rattle.tm_rules_first.specs.Rules as rules;

use crate::RuleAt;
use crate::slots::{slot_count, slots_broken};
use tm_base::MOST_SLOTS;
use tm_place::Placement;
use tm_refusals::RuleFault;
use tm_rules_slot::is_in_team;
use tm_tmpl_types::{BodyDecl, Selector};
use tm_topo::Topology;

// The first rule that the bodies of a case break.
pub fn bodies_broken(p: &Placement, topo: &Topology, bodies: &[BodyDecl]) -> Option<RuleAt>
    requires system { IsInRange topo.now }
    requires harts { p.now.harts ≡ harts_of topo.now }
    requires line { p.now.line ≡ topo.now.line }
    ensures { result ≡ rules.first_of (rules.in_turn (rules.body_checks topo.now p.now.shape) [] bodies.now) }
{
    for (k, body) in bodies.iter().enumerate() {
        if let Some(broken) = body_broken(p, topo, &bodies[..k], body) {
            return Some(broken);
        }
    }
    None
}

// The first rule that a body breaks behind those before it, or one of its statements.
fn body_broken(
    p: &Placement,
    topo: &Topology,
    before: &[BodyDecl],
    body: &BodyDecl,
) -> Option<RuleAt>
    requires system { IsInRange topo.now }
    requires harts { p.now.harts ≡ harts_of topo.now }
    requires line { p.now.line ≡ topo.now.line }
    ensures { result ≡ rules.first_of (rules.body_checks topo.now p.now.shape before.now body.now) }
{
    let slots = body.slots.as_slice();
    let len = slot_count(slots);
    if let Some(fault) = body_fault(topo, before, body.whom, len) {
        return Some(RuleAt {
            pos: body.at,
            fault,
        });
    }
    slots_broken(p, topo, body.whom, len as u32, slots)
}

// The first rule that a body of `len` slots breaks behind those before it.
#[tactic(auto, unfolding(crate::specs::Rules::body_rules, crate::specs::Rules::twice_fault))]
fn body_fault(topo: &Topology, before: &[BodyDecl], whom: Selector, len: u64) -> Option<RuleFault>
    requires { IsInRange topo.now }
    ensures { result ≡ first (rules.body_rules topo.now before.now whom len) }
{
    if !is_there(topo, whom) {
        return Some(RuleFault::NoHart { n: number_in(whom) });
    }
    if let Some(h) = first_twice(topo, before, whom) {
        return Some(RuleFault::TwiceBody { h });
    }
    if len < 1 {
        return Some(RuleFault::Slots { n: len });
    }
    if len > MOST_SLOTS as u64 {
        return Some(RuleFault::Slots { n: len });
    }
    None
}

// Whether the hart, core or thread that a selector names is there.
fn is_there(topo: &Topology, whom: Selector) -> bool
    requires { IsInRange topo.now }
    ensures { result ≡ rules.is_there topo.now whom }
{
    match whom {
        Selector::All => true,
        Selector::Hart(n) => n < topo.cores * topo.threads,
        Selector::Core(n) => n < topo.cores,
        Selector::Thread(n) => n < topo.threads,
    }
}

// The number that a selector names.
fn number_in(whom: Selector) -> u32
    ensures { result ≡ rules.number_in whom }
{
    match whom {
        Selector::All => 0,
        Selector::Hart(n) | Selector::Core(n) | Selector::Thread(n) => n,
    }
}

// The least hart of a team that one of some bodies has.
fn first_twice(topo: &Topology, before: &[BodyDecl], whom: Selector) -> Option<u32>
    requires { IsInRange topo.now }
    ensures { result ≡ find (rules.has_body topo.now before.now) (team topo.now whom) }
{
    for h in 0..topo.cores * topo.threads {
        if is_in_team(topo, whom, h) && has_body(topo, before, h) {
            return Some(h);
        }
    }
    None
}

// Whether one of some bodies is for a hart.
fn has_body(topo: &Topology, bodies: &[BodyDecl], h: u32) -> bool
    requires { IsInRange topo.now }
    ensures { result ≡ rules.has_body topo.now bodies.now h }
{
    bodies.iter().any(|body| is_in_team(topo, body.whom, h))
}

ghost use Rattle.std.specs.Prelude.{◌≡◌, is_some};
ghost use Rattle.std.specs.List.{list_any};
ghost use Rattle.tm_rules_slot.specs.Slots as rules;
ghost use Rattle.tm_rules_slot.specs.Laws.{AreRuledWeights};

use tm_base::MOST_WEIGHTS;
use tm_place::Placement;
use tm_refusals::RuleFault;

/// The first rule that the four weights of a drawn slot break.
#[tactic(auto, unfolding(crate::specs::Slots::mix_fault))]
pub fn mix_fault(p: &Placement, alu: u32, load: u32, store: u32, branch: u32) -> Option<RuleFault>
    ensures fault { result ≡ rules.mix_fault p.now.shape alu load store branch }
    ensures ruled { result ≡ None → AreRuledWeights p.now.shape alu load store branch }
{
    let accesses = u64::from(load) + u64::from(store);
    let sum = u64::from(alu) + accesses + u64::from(branch);
    if let Some(fault) = weight_fault(sum) {
        return Some(fault);
    }
    any_window_fault(p, accesses)
}

/// The fault of a sum of weights that isn't 1 to 1,000,000.
fn weight_fault(sum: u64) -> Option<RuleFault>
    ensures { result ≡ rules.weight_fault sum }
{
    if sum < 1 || sum > MOST_WEIGHTS as u64 {
        return Some(RuleFault::NoWeight { sum });
    }
    None
}

/// The fault of accesses that have a weight where no window is declared.
fn any_window_fault(p: &Placement, accesses: u64) -> Option<RuleFault>
    ensures { result ≡ rules.any_window_fault p.now.shape accesses }
{
    if accesses > 0 && !has_window(p) {
        return Some(RuleFault::NoWindow { w: 0 });
    }
    None
}

fn has_window(p: &Placement) -> bool
    ensures { result ≡ list_any is_some p.now.shape }
{
    p.shape.iter().any(|window| window.is_some())
}

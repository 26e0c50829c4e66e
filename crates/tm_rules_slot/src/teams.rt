ghost use Rattle.std.specs.Prelude.{◌≡◌, ◌≤◌};
ghost use Rattle.tm_rules_slot.specs.Teams.{in_team};

use tm_tmpl_types::Selector;
use tm_topo::Topology;

/// Whether a body is for hart `h`. Each core of the topology has at least one thread.
#[tactic(auto, unfolding(crate::specs::Teams::in_team))]
pub fn is_in_team(topo: &Topology, whom: Selector, h: u32) -> bool
    requires { 1 ≤ topo.now.threads }
    ensures { result ≡ in_team topo.now whom h }
{
    match whom {
        Selector::All => true,
        Selector::Hart(n) => h == n,
        Selector::Core(n) => h / topo.threads == n,
        Selector::Thread(n) => h % topo.threads == n,
    }
}

// One function over one link, and over each link of the node.
ghost use Rattle.std.specs.Prelude.{◌≡◌, [], ◌∷◌, ◌<◌};
ghost use Rattle.paper.specs.Net.{code};
ghost use Rattle.network_records.specs.Kinds.{named};
ghost use Rattle.network.specs.Network.{links, number, from};
ghost use Rattle.unfold_tries.specs.Trial.{Better, Any, OverLink, Usable, Trying};

use crate::trial::{Spot, Step, Use};
use network::Network;
use paper::key::{key_before, step_key};
use tables_costs::cost::step_cost;
use unfold_exits::finish::over_link;
use unfold_exits::lists::Exit;
use unfold_exits::solved::Solved;

// The key of the step over link i.
fn key_over(net: &Network, i: usize, f: Use) -> [u16; 4]
    requires { i < links net.now }
    ensures { result ≡ number net.now i ∷ code (named f.kind) ∷ f.x ∷ f.y ∷ [] }
{
    step_key(net.link_number(i) as u16, f.kind.code() as u16, f.x, f.y)
}

// The better of `best` and the step over link i of the node, if that passes.
fn try_link(solved: &Solved, exits: &[Exit], at: Spot, f: Use, i: usize, best: Step) -> Step
    requires { (i < links solved.now.net.now) × (from solved.now.net.now i ≡ at.node) × Trying solved.now.net.now exits.now at × Usable solved.now.net.now f }
    ensures { Better (OverLink solved.now.net.now solved.now.tables.weight.now solved.now.tables.count.now exits.now at f i) best result }
{
    let net = solved.net;
    let key = key_over(net, i, f);
    let least = best.key;
    if !key_before(key, least) {
        return best;
    }
    let way = over_link(solved, exits, i, f.onto, f.weight);
    if way != step_cost(at.weight, at.left) {
        return best;
    }
    let to = Spot {
        node: net.link_to(i),
        protocol: f.onto,
        weight: at.weight - (f.weight + net.link_weight(i)),
        left: at.left - 1,
    };
    Step { key, to }
}

// The better of `best` and the steps over each link of the node that pass.
pub fn try_links(solved: &Solved, exits: &[Exit], at: Spot, f: Use, best: Step) -> Step
    requires { Trying solved.now.net.now exits.now at × Usable solved.now.net.now f }
    ensures { Better (Any (OverLink solved.now.net.now solved.now.tables.weight.now solved.now.tables.count.now exits.now at f) (links solved.now.net.now)) best result }
{
    let mut found = best;
    for i in solved.net.links_of(at.node) {
        found = try_link(solved, exits, at, f, i, found);
    }
    found
}

// The steps of one kind from one place.
ghost use Rattle.std.specs.Prelude.{◌≡◌, ◌<◌, ◌≤◌, length};
ghost use Rattle.paper.specs.Net.{code};
ghost use Rattle.network_records.specs.Kinds.{named};
ghost use Rattle.network.specs.Network.{nodes, links, funs, places, to, y_of, place_in, Within};
ghost use Rattle.tables_costs.specs.Loop.{upto};
ghost use Rattle.tables_costs.specs.Costs.{lower_to};
ghost use Rattle.tables_sweeps.specs.Row.{step_cost, crossing, steps};

use network::Network;
use network_records::kind::Kind;
use paper::place::Place;
use tables_costs::cost::{lower_to, step_cost};

// The step of function j over link i.
fn step(net: &Network, j: usize, i: usize, a: &mut [u64])
    requires { (j < funs net.now) × (i < links net.now) × (places net.now ≤ length a.old) }
    ensures { a.new ≡ lower_to (place_in net.now (to net.now i) (y_of net.now j)) (step_cost net.now j i) a.old }
{
    let there = Place {
        node: net.link_to(i),
        protocol: net.fun_y(j),
    };
    let weight = net.fun_weight(j) + net.link_weight(i);
    lower_to(a, net.number_of(there), step_cost(weight, 1));
}

// The steps of function j over the links of node v.
fn step_links(net: &Network, v: usize, j: usize, a: &mut [u64])
    requires { (v < nodes net.now) × (j < funs net.now) × (places net.now ≤ length a.old) }
    ensures { a.new ≡ upto (crossing net.now v j) (links net.now) a.old }
{
    for i in net.links_of(v) {
        step(net, j, i, a);
    }
}

// The steps of one kind from a place.
pub fn step_all(net: &Network, at: Place, kind: Kind, a: &mut [u64])
    requires { Within net.now at × (places net.now ≤ length a.old) }
    ensures { a.new ≡ steps net.now at.node (code (named kind)) at.protocol a.old }
{
    for j in net.funs_of(at.node) {
        if net.serves(j, kind, at.protocol) {
            step_links(net, at.node, j, a);
        }
    }
}

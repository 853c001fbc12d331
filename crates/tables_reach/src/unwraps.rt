// The ways out of tunnels: an unwrap of what hides a protocol, and the link after it.
ghost use Rattle.std.specs.Prelude.{◌≡◌, ◌<◌, ◌≤◌, length};
ghost use Rattle.network.specs.Network.{nodes, protocols, links, funs, places};
ghost use Rattle.tables_sweeps.specs.Row.{closing, closings, landing, landings};

use network::Network;
use network_records::kind::Kind;
use paper::place::Place;
use tables_costs::cost::{FAR, lower_to, step_cost};

// Function j, where it unwraps what hides x at an exit that something gets to.
fn close(net: &Network, j: usize, x: usize, exits: &[u64], ends: &mut [u64])
    requires { (j < funs net.now) × (places net.now ≤ length exits.now) × (nodes net.now ≤ length ends.old) }
    ensures { ends.new ≡ closing net.now x exits.now j ends.old }
{
    if !net.serves(j, Kind::Unwrap, x) {
        return;
    }
    let exit = Place {
        node: net.fun_node(j),
        protocol: net.fun_y(j),
    };
    let k = exits[net.number_of(exit)];
    if k < FAR {
        lower_to(ends, exit.node, k + step_cost(net.fun_weight(j), 1));
    }
}

#[tactic(auto, using(tables_sweeps::proofs::Loops::turns), unfolding(tables_sweeps::specs::Row::closings))]
pub fn close_all(net: &Network, x: usize, exits: &[u64], ends: &mut [u64])
    requires { (places net.now ≤ length exits.now) × (nodes net.now ≤ length ends.old) }
    ensures { ends.new ≡ closings net.now x exits.now ends.old }
{
    for j in 0..net.funs() {
        close(net, j, x, exits, ends);
    }
}

// Link i, from a node where a tunnel has been closed.
#[tactic(auto, unfolding(tables_sweeps::specs::Row::landing))]
fn land(net: &Network, i: usize, x: usize, ends: &[u64], a: &mut [u64])
    requires { (i < links net.now) × (x < protocols net.now) × (nodes net.now ≤ length ends.now) × (places net.now ≤ length a.old) }
    ensures { a.new ≡ landing net.now x ends.now i a.old }
{
    let k = ends[net.link_from(i)];
    if FAR <= k {
        return;
    }
    let there = Place {
        node: net.link_to(i),
        protocol: x,
    };
    let over = k + step_cost(net.link_weight(i), 0);
    lower_to(a, net.number_of(there), over);
}

#[tactic(auto, using(tables_sweeps::proofs::Loops::turns), unfolding(tables_sweeps::specs::Row::landings))]
pub fn land_all(net: &Network, x: usize, ends: &[u64], a: &mut [u64])
    requires { (x < protocols net.now) × (nodes net.now ≤ length ends.now) × (places net.now ≤ length a.old) }
    ensures { a.new ≡ landings net.now x ends.now a.old }
{
    for i in 0..net.links() {
        land(net, i, x, ends, a);
    }
}

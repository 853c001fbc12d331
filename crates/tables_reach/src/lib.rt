// The places that one step or one tunnel leads to. A tunnel is a wrap, on inside, an unwrap of what the wrap hid, and its link.
#![tactic(auto)]

ghost use Rattle.std.specs.Prelude.{◌≡◌, ◌≤◌, length};
ghost use Rattle.network.specs.Network.{places, Within};
ghost use Rattle.tables_sweeps.specs.Row.{inside, tunnels, reach};
ghost use Rattle.tables_spread.specs.Asked.{Roomy};

use crate::steps::step_all;
use crate::unwraps::{close_all, land_all};
use network::Network;
use network_records::kind::Kind;
use paper::place::Place;
use tables_costs::cost::FAR;
use tables_costs::rooms::Tables;
use tables_spread::go_on_all;

mod steps;
mod unwraps;

// Into the tunnels that begin at a place, and on inside them.
#[tactic(auto, unfolding(tables_sweeps::specs::Row::inside, tables_costs::specs::Costs::blank))]
fn enter(net: &Network, tables: &Tables, at: Place, exits: &mut [u64])
    requires { Within net.now at × Roomy (places net.now) tables.now.weight.now tables.now.count.now × (places net.now ≤ length exits.old) }
    ensures { exits.new ≡ inside net.now tables.now.weight.now tables.now.count.now at.node at.protocol exits.old }
{
    let mut a = [FAR; 1024];
    step_all(net, at, Kind::Wrap, &mut a);
    go_on_all(tables, net.places(), &a, exits);
}

// Through those tunnels, where there is a wrap.
fn pass(net: &Network, tables: &Tables, at: Place, a: &mut [u64])
    requires { Within net.now at × Roomy (places net.now) tables.now.weight.now tables.now.count.now × (places net.now ≤ length a.old) }
    ensures { a.new ≡ tunnels net.now tables.now.weight.now tables.now.count.now at.node at.protocol a.old }
{
    if net.first_fun(at.node, Kind::Wrap, at.protocol).is_none() {
        return;
    }
    let mut exits = [FAR; 1024];
    let mut ends = [FAR; 256];
    enter(net, tables, at, &mut exits);
    close_all(net, at.protocol, &exits, &mut ends);
    land_all(net, at.protocol, &ends, a);
}

// What it takes to get from a place to each place by one step or one tunnel.
#[tactic(auto, unfolding(tables_sweeps::specs::Row::reach))]
pub fn reach_all(net: &Network, tables: &Tables, at: Place, a: &mut [u64])
    requires { Within net.now at × Roomy (places net.now) tables.now.weight.now tables.now.count.now × (places net.now ≤ length a.old) }
    ensures { a.new ≡ reach net.now tables.now.weight.now tables.now.count.now at.node at.protocol a.old }
{
    step_all(net, at, Kind::Conv, a);
    pass(net, tables, at, a);
}

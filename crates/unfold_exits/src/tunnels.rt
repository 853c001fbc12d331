// The exits of a tunnel that may be opened from a level: the places where something unwraps what hides x, each with the least cost from there on.
ghost use Rattle.std.specs.Prelude.{◌≡◌, ◌+◌, ◌<◌, get_or};
ghost use Rattle.network.specs.Network.{links, funs, places};
ghost use Rattle.unfold_exits.specs.Lists.{Gathered, Ranged};
ghost use Rattle.unfold_exits.specs.Exits.{Crossing, Landed, Closing, Unwrapping, Unwraps};

use crate::finish::over_link;
use crate::lists::{Exit, Exits};
use crate::solved::Solved;
use network_records::kind::Kind;
use paper::place::Place;
use tables_costs::cost::{FAR, step_cost};

// Link i, for the node that it leaves.
fn land(solved: &Solved, exits: &[Exit], x: usize, i: usize, lands: &mut [u64])
    requires { (i < links solved.now.net.now) × Crossing solved.now.net.now exits.now x × Landed solved.now.net.now solved.now.tables.weight.now solved.now.tables.count.now exits.now x i lands.old }
    ensures { Landed solved.now.net.now solved.now.tables.weight.now solved.now.tables.count.now exits.now x (i + 1) lands.new }
{
    let from = solved.net.link_from(i);
    lands[from] = over_link(solved, exits, i, x, 0).min(lands[from]);
}

// Over the best link of each node: every link is crossed once, however many functions unwrap there.
fn land_all(solved: &Solved, exits: &[Exit], x: usize, lands: &mut [u64])
    requires { Crossing solved.now.net.now exits.now x × Landed solved.now.net.now solved.now.tables.weight.now solved.now.tables.count.now exits.now x 0 lands.old }
    ensures { Landed solved.now.net.now solved.now.tables.weight.now solved.now.tables.count.now exits.now x (links solved.now.net.now) lands.new }
{
    for i in 0..solved.net.links() {
        land(solved, exits, x, i, lands);
    }
}

// Function j, if it unwraps what hides x.
fn list_fun(solved: &Solved, lands: &[u64], x: usize, j: usize, outs: &mut Exits)
    requires { (j < funs solved.now.net.now) × Closing solved.now.net.now lands.now × Gathered (Unwrapping solved.now.net.now x (λ u. get_or lands.now u 0)) j outs.old }
    ensures { Gathered (Unwrapping solved.now.net.now x (λ u. get_or lands.now u 0)) (j + 1) outs.new }
{
    let net = solved.net;
    if !net.serves(j, Kind::Unwrap, x) {
        return;
    }
    let at = Place {
        node: net.fun_node(j),
        protocol: net.fun_y(j),
    };
    let cost = step_cost(net.fun_weight(j), 0) + lands[at.node];
    if FAR <= cost {
        return;
    }
    outs.push(Exit {
        place: net.number_of(at),
        cost,
    });
}

fn list_funs(solved: &Solved, lands: &[u64], x: usize, outs: &mut Exits)
    requires { Closing solved.now.net.now lands.now }
    ensures { Gathered (Unwrapping solved.now.net.now x (λ u. get_or lands.now u 0)) (funs solved.now.net.now) outs.new }
{
    outs.clear();
    for j in 0..solved.net.funs() {
        list_fun(solved, lands, x, j, outs);
    }
}

// Lists the exits of a tunnel over x, opened from the level whose exits are listed.
pub fn list_tunnel(solved: &Solved, exits: &[Exit], x: usize, outs: &mut Exits)
    requires { Crossing solved.now.net.now exits.now x }
    ensures { Ranged (places solved.now.net.now) outs.new × Gathered (Unwraps solved.now.net.now solved.now.tables.weight.now solved.now.tables.count.now exits.now x) (funs solved.now.net.now) outs.new }
{
    let mut lands = [FAR; 256];
    land_all(solved, exits, x, &mut lands);
    list_funs(solved, &lands, x, outs);
}

// Finishing from a place over one of the exits.
ghost use Rattle.std.specs.Prelude.{◌≡◌, ◌+◌, ◌*◌, ◌<◌, ◌≤◌, length};
ghost use Rattle.network.specs.Network.{links, protocols, places, to, toll, place_in};
ghost use Rattle.tables_costs.specs.Costs.{far};
ghost use Rattle.unfold_exits.specs.Cost.{cost, told_at};
ghost use Rattle.unfold_exits.specs.Lists.{Ranged, finishing};

use crate::lists::Exit;
use crate::solved::Solved;
use crate::told::told_at;
use paper::place::Place;
use tables_costs::cost::{FAR, step_cost};
use tables_costs::entry::row_of;
use tables_costs::rooms::Tables;

// From the place whose row of the tables begins at `row`, over this exit.
pub fn over_exit(tables: &Tables, row: usize, exit: &Exit) -> u64
    requires entry { (row + exit.now.place < length tables.now.weight.now) × (row + exit.now.place < length tables.now.count.now) }
    requires cost { exit.now.cost ≤ far }
    ensures { result ≡ told_at tables.now.weight.now tables.now.count.now (row + exit.now.place) + exit.now.cost }
{
    told_at(tables, row + exit.place) + exit.cost
}

// From the place whose row begins at `row`, over the best of the exits, which are of `size` places, of which only the contract speaks.
pub fn finish(tables: &Tables, exits: &[Exit], size: usize, row: usize) -> u64
    requires { Ranged size exits.now × (row + size ≤ length tables.now.weight.now) × (row + size ≤ length tables.now.count.now) }
    ensures { (result ≡ finishing tables.now.weight.now tables.now.count.now exits.now row) × (result ≤ far) }
{
    let mut best = FAR;
    for exit in exits {
        best = best.min(over_exit(tables, row, exit));
    }
    best
}

// Over link i, where protocol x is on top behind it and `weight` is spent before it, and then over the best of the exits.
pub fn over_link(solved: &Solved, exits: &[Exit], i: usize, x: usize, weight: u32) -> u64
    requires { (i < links solved.now.net.now) × (x < protocols solved.now.net.now) × (weight ≤ 1000000000) × Ranged (places solved.now.net.now) exits.now }
    ensures { result ≡ finishing solved.now.tables.weight.now solved.now.tables.count.now exits.now (place_in solved.now.net.now (to solved.now.net.now i) x * places solved.now.net.now) + cost (weight + toll solved.now.net.now i) 1 }
{
    let net = solved.net;
    let to = Place {
        node: net.link_to(i),
        protocol: x,
    };
    let size = net.places();
    let row = row_of(size, net.number_of(to));
    finish(&solved.tables, exits, size, row) + step_cost(weight + net.link_weight(i), 1)
}

// A sweep over the rows, past those that lean on nothing new.
#![tactic(auto)]

ghost use Rattle.std.specs.Prelude.{◌≡◌, false, cond, ◌<◌, length, set};
ghost use Rattle.network.specs.Network.{nodes, Within};
ghost use Rattle.tables_costs.specs.Rooms.{SameRooms};
ghost use Rattle.tables_sweeps.specs.Sweep.{stage, visited, node_rows, sweep, Passing};
ghost use Rattle.tables_ways.specs.Asked.{Sweeping};

use crate::news::is_settled;
use network::Network;
use paper::place::Place;
use tables_costs::rooms::TablesMut;
use tables_spread::news::News;
use tables_ways::sweep_row;

mod news;

// The stamp that rows get which fall in a sweep, and the stamp from which on a row counts as new in it.
#[derive(Clone, Copy)]
pub struct Round {
    pub stamp: u32,
    pub since: u32,
}

// The stamp of row r, where it fell.
#[tactic(auto, using(crate::proofs::Turns::marked, crate::proofs::Turns::unmarked))]
fn mark(stamps: &mut [u32], r: usize, stamp: u32, fell: bool)
    requires { r < length stamps.old }
    ensures { stamps.new ≡ cond fell (set stamps.old r stamp) stamps.old }
{
    if fell {
        stamps[r] = stamp;
    }
}

// The row of a place, passed over where it leans on nothing new. The result: whether this or anything earlier fell.
fn visit(
    net: &Network,
    tables: &mut TablesMut,
    stamps: &mut [u32],
    round: Round,
    at: Place,
    fell: bool,
) -> bool
    requires { Sweeping net.now tables.old.weight.now tables.old.count.now stamps.old × Within net.now at }
    ensures same_rooms { SameRooms tables.old tables.new }
    ensures passing { Passing net.now round.stamp round.since (stage tables.old.weight.now tables.old.count.now stamps.old fell) (visited net.now round.stamp round.since at.node at.protocol) (stage tables.new.weight.now tables.new.count.now stamps.new result) }
{
    let news = News {
        stamps,
        since: round.since,
    };
    if is_settled(net, &news, at) {
        return fell;
    }
    let r = sweep_row(net, tables, &news, at);
    mark(stamps, net.number_of(at), round.stamp, r);
    fell | r
}

// The rows of node v.
fn visit_node(
    net: &Network,
    tables: &mut TablesMut,
    stamps: &mut [u32],
    round: Round,
    v: usize,
    fell: bool,
) -> bool
    requires { Sweeping net.now tables.old.weight.now tables.old.count.now stamps.old × (v < nodes net.now) }
    ensures same_rooms { SameRooms tables.old tables.new }
    ensures passing { Passing net.now round.stamp round.since (stage tables.old.weight.now tables.old.count.now stamps.old fell) (node_rows net.now round.stamp round.since v) (stage tables.new.weight.now tables.new.count.now stamps.new result) }
{
    let mut any = fell;
    for x in 0..net.protocols() {
        let row = Place {
            node: v,
            protocol: x,
        };
        any = visit(net, tables, stamps, round, row, any);
    }
    any
}

// All rows, from the first node on or, where `back` says so, from the last, as the promise has it (`sweep`): whether an entry fell.
pub fn sweep_all(
    net: &Network,
    tables: &mut TablesMut,
    stamps: &mut [u32],
    round: Round,
    back: bool,
) -> bool
    requires { Sweeping net.now tables.old.weight.now tables.old.count.now stamps.old }
    ensures same_rooms { SameRooms tables.old tables.new }
    ensures passing { Passing net.now round.stamp round.since (stage tables.old.weight.now tables.old.count.now stamps.old false) (sweep net.now round.stamp round.since back) (stage tables.new.weight.now tables.new.count.now stamps.new result) }
{
    let n = net.nodes();
    let mut any = false;
    for k in 0..n {
        let v = if back { n - 1 - k } else { k };
        any = visit_node(net, tables, stamps, round, v, any);
    }
    any
}

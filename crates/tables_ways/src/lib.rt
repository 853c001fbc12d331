// The ways on from one place, and its row lowered to them.
#![tactic(auto)]

ghost use Rattle.std.specs.Prelude.{◌≡◌, false, ◌≤◌, length};
ghost use Rattle.network.specs.Network.{places, Within};
ghost use Rattle.tables_costs.specs.Cells.{cells};
ghost use Rattle.tables_costs.specs.Rooms.{SameRooms};
ghost use Rattle.tables_sweeps.specs.Row.{ways, row};
ghost use Rattle.tables_ways.specs.Asked.{Sweeping};

use network::Network;
use paper::place::Place;
use tables_costs::cost::FAR;
use tables_costs::entry::row_of;
use tables_costs::rooms::{Tables, TablesMut};
use tables_lowering::merge::merge;
use tables_reach::reach_all;
use tables_spread::gain_all;
use tables_spread::news::News;

// On from the places that one step or one tunnel leads to, wherever there is something to gain.
#[tactic(auto, unfolding(tables_sweeps::specs::Row::ways, tables_costs::specs::Costs::blank))]
fn find_ways(net: &Network, tables: &Tables, news: &News, at: Place, y: &mut [u64])
    requires { Sweeping net.now tables.now.weight.now tables.now.count.now news.now.stamps.now × Within net.now at × (places net.now ≤ length y.old) }
    ensures { y.new ≡ ways net.now tables.now.weight.now tables.now.count.now news.now.stamps.now news.now.since at.node at.protocol y.old }
{
    let mut a = [FAR; 1024];
    reach_all(net, tables, at, &mut a);
    gain_all(tables, net.places(), news, net.number_of(at), &a, y);
}

// The row of a place, lowered to the ways on from there: whether an entry fell.
pub fn sweep_row(net: &Network, tables: &mut TablesMut, news: &News, at: Place) -> bool
    requires { Sweeping net.now tables.old.weight.now tables.old.count.now news.now.stamps.now × Within net.now at }
    ensures same_rooms { SameRooms tables.old tables.new }
    ensures swept { cells tables.new.weight.now tables.new.count.now result ≡ row net.now news.now.stamps.now news.now.since at.node at.protocol (cells tables.old.weight.now tables.old.count.now false) }
{
    let mut y = [FAR; 1024];
    find_ways(net, &tables.to_read(), news, at, &mut y);
    let here = net.number_of(at);
    let size = net.places();
    merge(&y, row_of(size, here), size, tables, false)
}

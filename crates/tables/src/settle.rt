// Sweeps until nothing falls.
ghost use Rattle.std.specs.Prelude.{◌≡◌, cond};
ghost use Rattle.tables_costs.specs.Rooms.{SameRooms};
ghost use Rattle.tables_sweeps.specs.Filled.{Filled};
ghost use Rattle.tables_ways.specs.Asked.{Sweeping};

use network::Network;
use tables_costs::rooms::TablesMut;
use tables_lowering::begin::prepare;
use tables_visits::{Round, sweep_all};

// The stamp from which a row counts as new in the next sweep: none does where the last one changed nothing.
fn since_when(fell: bool, stamp: u32) -> u32
    ensures { result ≡ cond fell stamp 0 }
{
    if fell { stamp } else { 0 }
}

// A sweep passes over what is not new; the last one passes over nothing and finds nothing to lower.
pub fn settle(net: &Network, tables: &mut TablesMut, stamps: &mut [u32])
    requires { Sweeping net.now tables.old.weight.now tables.old.count.now stamps.old }
    ensures same_rooms { SameRooms tables.old tables.new }
    ensures filled { Filled net.now tables.old.weight.now tables.old.count.now tables.new.weight.now tables.new.count.now }
{
    prepare(tables, net.places());
    let mut back = false;
    let mut round = Round { stamp: 1, since: 0 };
    let mut done = false;
    while !done {
        let fell = sweep_all(net, tables, stamps, round, back);
        done = !fell & (round.since == 0);
        let since = since_when(fell, round.stamp);
        let stamp = round.stamp.saturating_add(1);
        round = Round { stamp, since };
        back = !back;
    }
}

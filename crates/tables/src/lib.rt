// The tables of a network: the least weight and the fewest steps for every pair of places, in lent rooms.
#![tactic(auto)]

ghost use Rattle.paper.specs.Rooms.{Tabled};
ghost use Rattle.network.specs.Network.{nodes, protocols, places, hop_in};
ghost use Rattle.tables_sweeps.specs.Filled.{Filled};
ghost use Rattle.tables_spread.specs.Asked.{Roomy};
ghost use Rattle.tables.specs.Lent.{Lent};

use crate::choice::clear_choice;
use crate::settle::settle;
use network::Network;
use tables_costs::rooms::TablesMut;

mod choice;
mod settle;

// The weight and count rooms alone.
fn fill_rooms(net: &Network, weight: &mut [u32], count: &mut [u16])
    requires { Roomy (places net.now) weight.old count.old }
    ensures { Filled net.now weight.old count.old weight.new count.new }
{
    let mut stamps = [0u32; 1024];
    let mut tables = TablesMut { weight, count };
    settle(net, &mut tables, &mut stamps);
}

// Fills the first N² entries of the weight and count rooms, where there are N places; the first 8 × N² of the choice room become 0.
pub fn fill(net: &Network, weight: &mut [u32], count: &mut [u16], choice: &mut [u16])
    requires { Lent net.now weight.old count.old choice.old }
    ensures tabled { Tabled (hop_in net.now) (nodes net.now) (protocols net.now) weight.old count.old choice.old weight.new count.new choice.new }
    ensures filled { Filled net.now weight.old count.old weight.new count.new }
{
    let size = net.places();
    fill_rooms(net, weight, count);
    clear_choice(choice, size);
}

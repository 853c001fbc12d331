// The one best route, unfolded into the step room from exact tables.
#![tactic(auto)]

ghost use Rattle.unfold.specs.Unfolded.{Unfolds, Unfolded};

use crate::bottom::write_route;
use network::Network;
use paper::place::Enquiry;
use tables_costs::rooms::Tables;
use unfold_exits::lists::Exits;
use unfold_exits::solved::Solved;
use unfold_frames::clear;
use unfold_picks::looks::Lists;

mod bottom;
mod course;
mod levels;

// Writes the steps of the enquiry's best route; the first 8 N² entries of the choice room serve it, and hold zeros afterwards.
pub fn unfold(
    net: &Network,
    tables: &Tables,
    choice: &mut [u16],
    steps: &mut [u16],
    enquiry: Enquiry,
)
    requires { Unfolds net.now tables.now.weight.now tables.now.count.now enquiry.start enquiry.end choice.old steps.old }
    ensures { Unfolded net.now tables.now.weight.now tables.now.count.now enquiry.start enquiry.end choice.old choice.new steps.old steps.new }
{
    let size = net.places();
    let room = 8 * (size * size);
    let solved = Solved {
        net,
        tables: *tables,
    };
    let mut lists = Lists {
        exits: Exits::new(),
        outs: Exits::new(),
    };
    write_route(&solved, &mut choice[0..room], steps, enquiry, &mut lists);
    clear(choice, 0, room);
}

// The bottom level: its record is the enquiry's, and unfolding it writes the whole route.
ghost use Rattle.std.specs.Prelude.{◌≡◌, ◌+◌, ◌*◌, ◌≤◌, length};
ghost use Rattle.network.specs.Network.{places, Within};
ghost use Rattle.unfold_frames.specs.Frames.{words_for};
ghost use Rattle.unfold.specs.Unfolded.{weighs_in, counts_in, Unfolds, Route, Bottomed};

use crate::course::Course;
use crate::levels::level;
use network::Network;
use paper::place::Enquiry;
use tables_costs::entry::{Entry, row_of};
use unfold_exits::solved::Solved;
use unfold_frames::{add_mark, begin, words_for};
use unfold_picks::looks::Lists;
use unfold_tries::trial::Spot;

// What the tables tell of the enquiry.
fn entry_of(solved: &Solved, enquiry: Enquiry) -> Entry
    requires { Within solved.now.net.now enquiry.start × Within solved.now.net.now enquiry.end }
    ensures { (result.weight ≡ weighs_in solved.now.net.now solved.now.tables.weight.now solved.now.tables.count.now enquiry.start enquiry.end) × (result.count ≡ counts_in solved.now.net.now solved.now.tables.weight.now solved.now.tables.count.now enquiry.start enquiry.end) }
{
    let net = solved.net;
    let row = row_of(net.places(), net.number_of(enquiry.start));
    solved.tables.read(row + net.number_of(enquiry.end))
}

// Writes record 0: it begins where the enquiry starts, with the entry's weight and steps left, and its one exit is the enquiry's end.
fn write_bottom(net: &Network, choice: &mut [u16], enquiry: Enquiry, left: Entry)
    requires { Within net.now enquiry.start × Within net.now enquiry.end × (5 + words_for (places net.now) ≤ length choice.old) }
    ensures { Bottomed net.now enquiry.start enquiry.end choice.new left.weight left.count }
{
    begin(
        choice,
        0,
        words_for(net.places()),
        net.number_of(enquiry.start) as u16,
        0,
        left.weight,
        left.count,
    );
    add_mark(choice, 0, net.number_of(enquiry.end));
}

// Writes the steps of the best route.
pub fn write_route(
    solved: &Solved,
    choice: &mut [u16],
    steps: &mut [u16],
    enquiry: Enquiry,
    lists: &mut Lists,
)
    requires { Unfolds solved.now.net.now solved.now.tables.weight.now solved.now.tables.count.now enquiry.start enquiry.end choice.old steps.old }
    ensures { Route solved.now.net.now solved.now.tables.weight.now solved.now.tables.count.now enquiry.start enquiry.end steps.old steps.new }
{
    let entry = entry_of(solved, enquiry);
    write_bottom(solved.net, choice, enquiry, entry);
    let course = Course {
        end: enquiry.end,
        total: entry.count,
        level: 0,
    };
    let at = Spot {
        node: enquiry.start.node,
        protocol: enquiry.start.protocol,
        weight: entry.weight,
        left: entry.count,
    };
    level(solved, choice, steps, course, at, lists);
}

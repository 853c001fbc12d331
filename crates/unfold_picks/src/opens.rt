// The record of a tunnel that is opened: its exits are those over which what is left is met.
ghost use Rattle.std.specs.Prelude.{◌+◌, ◌*◌, ◌<◌, ◌≤◌, length};
ghost use Rattle.network.specs.Network.{places};
ghost use Rattle.tables_costs.specs.Costs.{far};
ghost use Rattle.unfold_frames.specs.Frames.{words_for};
ghost use Rattle.unfold_picks.specs.Contract.{KeptIn, Records};
ghost use Rattle.unfold_picks.specs.Opening.{Adds, Meets, MeetsOne, Marking, Opening, Writing, Written};

use crate::looks::{Lists, list_outward, record_length};
use paper::place::Place;
use tables_costs::cost::step_cost;
use tables_costs::entry::row_of;
use unfold_exits::finish::over_exit;
use unfold_exits::lists::Exit;
use unfold_exits::solved::Solved;
use unfold_frames::{Record, add_mark, begin, words_for};
use unfold_tries::trial::Spot;

// Marks the exit, if the way over it costs `left`.
fn mark_out(solved: &Solved, out: &Exit, row: usize, left: u64, choice: &mut [u16], o: usize)
    requires row { row + places solved.now.net.now ≤ places solved.now.net.now * places solved.now.net.now }
    requires out { (out.now.place < places solved.now.net.now) × (out.now.cost ≤ far) }
    requires record_room { o + 5 + words_for (places solved.now.net.now) ≤ length choice.old }
    ensures { Adds (words_for (places solved.now.net.now)) o (Meets solved.now.tables.weight.now solved.now.tables.count.now out.now row left) choice.old choice.new }
{
    if over_exit(&solved.tables, row, out) == left {
        add_mark(choice, o, out.place);
    }
}

// Marks each exit of the list over which the way costs `left`.
fn mark_outs(solved: &Solved, outs: &[Exit], row: usize, left: u64, choice: &mut [u16], o: usize)
    requires { Marking (places solved.now.net.now) outs.now row o choice.old }
    ensures { Adds (words_for (places solved.now.net.now)) o (MeetsOne solved.now.tables.weight.now solved.now.tables.count.now outs.now row left (length outs.now)) choice.old choice.new }
{
    for out in outs {
        mark_out(solved, out, row, left, choice, o);
    }
}

// Writes the record of a tunnel over `hidden` that begins at `to`, whose exits are listed, at entry o.
fn write_record(
    solved: &Solved,
    outs: &[Exit],
    choice: &mut [u16],
    o: usize,
    hidden: usize,
    to: Spot,
)
    requires { Writing solved.now.net.now outs.now choice.old o hidden to }
    ensures { Written solved.now.net.now solved.now.tables.weight.now solved.now.tables.count.now outs.now choice.old choice.new o hidden to }
{
    let size = solved.net.places();
    let place = Place {
        node: to.node,
        protocol: to.protocol,
    };
    let number = solved.net.number_of(place);
    begin(
        choice,
        o,
        words_for(size),
        number as u16,
        hidden as u16,
        to.weight,
        to.left,
    );
    mark_outs(
        solved,
        outs,
        row_of(size, number),
        step_cost(to.weight, to.left),
        choice,
        o,
    );
}

// Writes the record of the tunnel that a wrap from `at`, in level k, opens at `to`: record k + 1. The route ends at `end`, of which only the contract speaks.
pub fn open(
    solved: &Solved,
    choice: &mut [u16],
    end: Place,
    k: usize,
    at: Spot,
    to: Spot,
    lists: &mut Lists,
)
    requires { Opening solved.now.net.now solved.now.tables.weight.now solved.now.tables.count.now end choice.old k at to }
    ensures { KeptIn solved.now.net.now k choice.old choice.new × Records solved.now.net.now solved.now.tables.weight.now solved.now.tables.count.now choice.new k at.protocol to }
{
    let length = record_length(solved.net);
    let o = length * k;
    list_outward(solved, &Record { choice, at: o }, at, lists);
    write_record(
        solved,
        lists.outs.listed(),
        choice,
        o + length,
        at.protocol,
        to,
    );
}

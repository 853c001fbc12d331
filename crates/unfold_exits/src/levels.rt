// The exits of an open level: the places marked in its record, each with what is left there.
ghost use Rattle.std.specs.Prelude.{◌≡◌, ◌+◌, ◌*◌, ◌<◌, ◌≤◌, length};
ghost use Rattle.unfold_frames.specs.Frames.{words_for};
ghost use Rattle.unfold_exits.specs.Lists.{Lists, Gathered, Ranged};
ghost use Rattle.unfold_exits.specs.Exits.{left_at, Leaves, LeavesBy, Reading};

use crate::lists::{Exit, Exits};
use crate::told::told_at;
use tables_costs::cost::step_cost;
use tables_costs::entry::row_of;
use tables_costs::rooms::Tables;
use unfold_frames::{Record, words_for};

// What was left at the beginning of the level.
#[tactic(auto, unfolding(crate::specs::Exits::left_at))]
fn left_at(level: &Record) -> u64
    requires { level.now.at + 5 ≤ length level.now.choice.now }
    ensures { (result ≡ left_at level.now.choice.now level.now.at) × (result < 281474976710656) }
{
    step_cost(level.weight_left(), level.steps_left())
}

// Place e, if it is an exit of the level, where `left` was left at the beginning.
fn list_place(tables: &Tables, size: usize, level: &Record, left: u64, e: usize, exits: &mut Exits)
    requires { Reading size tables.now.weight.now tables.now.count.now level.now.choice.now level.now.at × (left ≡ left_at level.now.choice.now level.now.at) × Gathered (LeavesBy size tables.now.weight.now tables.now.count.now level.now.choice.now level.now.at) e exits.old }
    ensures { Gathered (LeavesBy size tables.now.weight.now tables.now.count.now level.now.choice.now level.now.at) (e + 1) exits.new }
{
    // The last word has bits past the last place.
    if size <= e {
        return;
    }
    if !level.is_marked(size, e) {
        return;
    }
    let told = told_at(tables, row_of(size, level.place()) + e);
    if left < told {
        return;
    }
    exits.push(Exit {
        place: e,
        cost: left - told,
    });
}

// The places of word q: a word of zeros marks none.
fn list_word(tables: &Tables, size: usize, level: &Record, left: u64, q: usize, exits: &mut Exits)
    requires { Reading size tables.now.weight.now tables.now.count.now level.now.choice.now level.now.at × (left ≡ left_at level.now.choice.now level.now.at) × (q < words_for size) × Gathered (LeavesBy size tables.now.weight.now tables.now.count.now level.now.choice.now level.now.at) (16 * q) exits.old }
    ensures { Gathered (LeavesBy size tables.now.weight.now tables.now.count.now level.now.choice.now level.now.at) (16 * (q + 1)) exits.new }
{
    if level.word(q) == 0 {
        return;
    }
    for e in 16 * q..16 * (q + 1) {
        list_place(tables, size, level, left, e, exits);
    }
}

// Lists the exits of a level of `size` places.
pub fn list_level(tables: &Tables, size: usize, level: &Record, exits: &mut Exits)
    requires { Reading size tables.now.weight.now tables.now.count.now level.now.choice.now level.now.at }
    ensures { Ranged size exits.new × Lists (Leaves size tables.now.weight.now tables.now.count.now level.now.choice.now level.now.at) exits.new }
{
    exits.clear();
    let left = left_at(level);
    for q in 0..words_for(size) {
        list_word(tables, size, level, left, q, exits);
    }
}

// On from places that are reached, by the rows of the rooms.
#![tactic(auto)]

ghost use Rattle.std.specs.Prelude.{◌≡◌, ◌+◌, ◌*◌, ◌<◌, ◌≤◌, length, get_or};
ghost use Rattle.tables_costs.specs.Costs.{far};
ghost use Rattle.tables_sweeps.specs.Row.{carried, composed, onward, onwards, idle, going, goings};
ghost use Rattle.tables_spread.specs.Asked.{Spreading, Going};

use crate::news::News;
use tables_costs::cost::{FAR, entry_of, lower_to};
use tables_costs::entry::row_of;
use tables_costs::rooms::Tables;

pub mod news;

// At the cost c, and then by entry i to place q. Passing over an entry that says `never` also keeps the loop from being vectorised, which is slower for u64.
#[tactic(auto, unfolding(tables_sweeps::specs::Row::carried))]
fn carry(tables: &Tables, i: usize, c: u64, q: usize, y: &mut [u64])
    requires { (i < length tables.now.weight.now) × (i < length tables.now.count.now) × (q < length y.old) × (c ≤ far) }
    ensures { y.new ≡ carried tables.now.weight.now tables.now.count.now c i q y.old }
{
    if !tables.is_never(i) {
        lower_to(y, q, c + tables.cost_at(i));
    }
}

// At the cost c, and then by the row that begins at `base`.
#[tactic(auto, using(tables_sweeps::proofs::Loops::turns), unfolding(tables_sweeps::specs::Row::composed))]
fn compose(tables: &Tables, base: usize, size: usize, c: u64, y: &mut [u64])
    requires { (base + size ≤ length tables.now.weight.now) × (base + size ≤ length tables.now.count.now) × (size ≤ length y.old) × (c ≤ far) }
    ensures { y.new ≡ composed tables.now.weight.now tables.now.count.now size base c y.old }
{
    for q in 0..size {
        carry(tables, base + q, c, q, y);
    }
}

// On from place r, where a says that something gets there.
#[tactic(auto, unfolding(tables_sweeps::specs::Row::onward))]
fn go_on(tables: &Tables, size: usize, a: &[u64], r: usize, y: &mut [u64])
    requires spreading { Spreading size tables.now.weight.now tables.now.count.now a.now y.old }
    requires within { r < size }
    ensures { y.new ≡ onward tables.now.weight.now tables.now.count.now size a.now r y.old }
{
    let c = a[r];
    if c < FAR {
        compose(tables, row_of(size, r), size, c, y);
    }
}

#[tactic(auto, using(tables_sweeps::proofs::Loops::turns), unfolding(tables_sweeps::specs::Row::onwards))]
pub fn go_on_all(tables: &Tables, size: usize, a: &[u64], y: &mut [u64])
    requires { Spreading size tables.now.weight.now tables.now.count.now a.now y.old }
    ensures { y.new ≡ onwards tables.now.weight.now tables.now.count.now size a.now y.old }
{
    for r in 0..size {
        go_on(tables, size, a, r, y);
    }
}

// Whether there is nothing to gain by coming at the cost k to place r, of entry i: a shorter way is known, or one as short and nothing is new there.
#[tactic(auto, unfolding(tables_sweeps::specs::Row::idle, tables_costs::specs::Cells::less))]
fn is_idle(tables: &Tables, news: &News, i: usize, k: u64, r: usize) -> bool
    requires { (i < length tables.now.weight.now) × (i < length tables.now.count.now) × (r < length news.now.stamps.now) }
    ensures { result ≡ idle tables.now.weight.now tables.now.count.now i k (get_or news.now.stamps.now r 0) news.now.since }
{
    let known = tables.read(i);
    let new = entry_of(k);
    (known < new) | (news.is_old(r) & !(new < known))
}

// On from place r, unless that is idle for place `at`.
#[tactic(auto, unfolding(tables_sweeps::specs::Row::going, tables_sweeps::specs::Row::onward))]
fn gain(tables: &Tables, size: usize, news: &News, at: usize, a: &[u64], r: usize, y: &mut [u64])
    requires going { Going size tables.now.weight.now tables.now.count.now news.now.stamps.now at a.now y.old }
    requires within { r < size }
    ensures { y.new ≡ going tables.now.weight.now tables.now.count.now size news.now.stamps.now news.now.since (at * size) a.now r y.old }
{
    let c = a[r];
    if FAR <= c {
        return;
    }
    if is_idle(tables, news, row_of(size, at) + r, c, r) {
        return;
    }
    go_on(tables, size, a, r, y);
}

#[tactic(auto, using(tables_sweeps::proofs::Loops::turns), unfolding(tables_sweeps::specs::Row::goings))]
pub fn gain_all(tables: &Tables, size: usize, news: &News, at: usize, a: &[u64], y: &mut [u64])
    requires { Going size tables.now.weight.now tables.now.count.now news.now.stamps.now at a.now y.old }
    ensures { y.new ≡ goings tables.now.weight.now tables.now.count.now size news.now.stamps.now news.now.since (at * size) a.now y.old }
{
    for r in 0..size {
        gain(tables, size, news, at, a, r, y);
    }
}

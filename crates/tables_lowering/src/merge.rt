// A row's ways on, merged into the rooms.
ghost use Rattle.std.specs.Prelude.{◌≡◌, ◌+◌, ◌<◌, ◌≤◌, length};
ghost use Rattle.tables_costs.specs.Cells.{cells};
ghost use Rattle.tables_costs.specs.Rooms.{SameRooms};
ghost use Rattle.tables_sweeps.specs.Row.{merging, merged};

use tables_costs::cost::entry_of;
use tables_costs::rooms::TablesMut;

// The entry of place q lowered to its cost, where that is less. The result: whether this or anything earlier fell.
#[tactic(auto, unfolding(tables_sweeps::specs::Row::merging, tables_sweeps::specs::Row::reached))]
fn merge_one(y: &[u64], base: usize, q: usize, tables: &mut TablesMut, fell: bool) -> bool
    requires { (q < length y.now) × (base + q < length tables.old.weight.now) × (base + q < length tables.old.count.now) }
    ensures same_rooms { SameRooms tables.old tables.new }
    ensures merged { cells tables.new.weight.now tables.new.count.now result ≡ merging base y.now q (cells tables.old.weight.now tables.old.count.now fell) }
{
    let k = y[q];
    if tables.to_read().cost_at(base + q) <= k {
        return fell;
    }
    tables.lower(base + q, entry_of(k), fell)
}

#[tactic(auto, using(tables_sweeps::proofs::Loops::turns), unfolding(tables_sweeps::specs::Row::merged))]
pub fn merge(y: &[u64], base: usize, size: usize, tables: &mut TablesMut, fell: bool) -> bool
    requires { (size ≤ length y.now) × (base + size ≤ length tables.old.weight.now) × (base + size ≤ length tables.old.count.now) }
    ensures same_rooms { SameRooms tables.old tables.new }
    ensures merged { cells tables.new.weight.now tables.new.count.now result ≡ merged base size y.now (cells tables.old.weight.now tables.old.count.now fell) }
{
    let mut any = fell;
    for q in 0..size {
        any = merge_one(y, base, q, tables, any);
    }
    any
}

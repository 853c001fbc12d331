// The rooms before the first sweep: no route anywhere, but the route of no steps from each place to itself.
ghost use Rattle.std.specs.Prelude.{◌≡◌, false, ◌*◌, ◌≤◌, length};
ghost use Rattle.tables_costs.specs.Cells.{cells};
ghost use Rattle.tables_costs.specs.Rooms.{SameRooms};
ghost use Rattle.tables_sweeps.specs.Sweep.{cleared, diagonal};
ghost use Rattle.tables_spread.specs.Asked.{Roomy};

use paper::limits::NEVER_MARK;
use tables_costs::entry::{Entry, row_of};
use tables_costs::rooms::TablesMut;

// The first m entries say that there is no route. Two rooms here: tried over TablesMut, and what stands in a field after a part of it
// is filled is not known.
fn clear(weight: &mut [u32], count: &mut [u16], m: usize)
    requires { (m ≤ length weight.old) × (m ≤ length count.old) }
    ensures { cells weight.new count.new false ≡ cleared m (cells weight.old count.old false) }
{
    weight[..m].fill(NEVER_MARK);
    count[..m].fill(0);
}

// The entries of each place with itself.
#[tactic(auto, using(tables_sweeps::proofs::Loops::turns), unfolding(tables_sweeps::specs::Sweep::diagonal))]
fn stay(tables: &mut TablesMut, size: usize) -> bool
    requires { Roomy size tables.old.weight.now tables.old.count.now }
    ensures same_rooms { SameRooms tables.old tables.new }
    ensures stays { cells tables.new.weight.now tables.new.count.now result ≡ diagonal size (cells tables.old.weight.now tables.old.count.now false) }
{
    let mut any = false;
    for k in 0..size {
        any = tables.lower(
            row_of(size, k) + k,
            Entry {
                weight: 0,
                count: 0,
            },
            any,
        );
    }
    any
}

pub fn prepare(tables: &mut TablesMut, size: usize) -> bool
    requires { Roomy size tables.old.weight.now tables.old.count.now }
    ensures same_rooms { SameRooms tables.old tables.new }
    ensures prepared { cells tables.new.weight.now tables.new.count.now result ≡ diagonal size (cleared (size * size) (cells tables.old.weight.now tables.old.count.now false)) }
{
    clear(tables.weight, tables.count, size * size);
    stay(tables, size)
}

// What the tables tell of a pair of places, as a cost.
ghost use Rattle.std.specs.Prelude.{◌≡◌, ◌<◌, ◌≤◌, length};
ghost use Rattle.tables_costs.specs.Costs.{far};
ghost use Rattle.unfold_exits.specs.Cost.{told, told_at};

use paper::limits::{HEAVIEST, LONGEST};
use tables_costs::cost::{FAR, step_cost};
use tables_costs::entry::Entry;
use tables_costs::rooms::Tables;

fn told_by(e: Entry) -> u64
    ensures { (result ≡ told e.weight e.count) × (result ≤ far) }
{
    if e.weight <= HEAVIEST && e.count <= LONGEST {
        step_cost(e.weight, e.count)
    } else {
        FAR
    }
}

// What the tables tell of the pair of places whose entry is at i.
#[tactic(auto, unfolding(crate::specs::Cost::told_at))]
pub fn told_at(tables: &Tables, i: usize) -> u64
    requires { (i < length tables.now.weight.now) × (i < length tables.now.count.now) }
    ensures { (result ≡ told_at tables.now.weight.now tables.now.count.now i) × (result ≤ far) }
{
    told_by(tables.read(i))
}

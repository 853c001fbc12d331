// A cost: weight × 65,536 + steps, in one number; from FAR on there is no route.
ghost use Rattle.std.specs.Prelude.{◌≡◌, ◌+◌, ◌*◌, ◌<◌, ◌≤◌, length};
ghost use Rattle.tables_costs.specs.Cells.{Spells};
ghost use Rattle.tables_costs.specs.Costs.{far, worth, cost_of, lower_to};

use crate::entry::Entry;
use paper::limits::{HEAVIEST, LONG_MARK, NEVER_MARK, OVER_MARK};

pub const FAR: u64 = 1152921504606846976;

// The cost of one step, or of one link crossed in it.
pub fn step_cost(weight: u32, steps: u16) -> u64
    ensures { (result ≡ weight * 65536 + steps) × (result < 281474976710656) }
{
    u64::from(weight) * 65536 + u64::from(steps)
}

#[tactic(auto, using(crate::proofs::Worth::cost_marked, crate::proofs::Worth::cost_plain))]
pub fn cost_of(e: Entry) -> u64
    ensures { (result ≡ cost_of e.weight e.count) × (result ≤ far) }
{
    if e.weight == NEVER_MARK {
        return FAR;
    }
    step_cost(e.weight, e.count)
}

// The cost at i becomes the lesser of it and k.
#[tactic(auto, unfolding(crate::specs::Costs::lower_to))]
pub fn lower_to(costs: &mut [u64], i: usize, k: u64)
    requires { i < length costs.old }
    ensures { costs.new ≡ lower_to i k costs.old }
{
    costs[i] = k.min(costs[i]);
}

// The two entries that stand for a cost.
pub fn entry_of(k: u64) -> Entry
    ensures { Spells result.weight result.count (worth k) }
{
    if FAR <= k {
        return Entry {
            weight: NEVER_MARK,
            count: 0,
        };
    }
    if u64::from(HEAVIEST) < k / 65536 {
        return Entry {
            weight: OVER_MARK,
            count: 0,
        };
    }
    Entry {
        weight: (k / 65536) as u32,
        count: (k % 65536).min(u64::from(LONG_MARK)) as u16,
    }
}

// The weight and count rooms: an entry for every pair of places.
ghost use Rattle.std.specs.Prelude.{◌≡◌, ◌<◌, ◌≤◌, eqb, length, get_or, set};
ghost use Rattle.paper.specs.Limits.{never_mark};
ghost use Rattle.tables_costs.specs.Cells.{cells, lowered};
ghost use Rattle.tables_costs.specs.Costs.{far, cost_at};
ghost use Rattle.tables_costs.specs.Rooms.{SameRooms};

use crate::cost::cost_of;
use crate::entry::Entry;
use paper::limits::NEVER_MARK;

// The rooms, to be read. They carry no invariant: tried with a model, and then no index `base + q` could be shown to fit.
#[derive(Clone, Copy)]
pub struct Tables<'a> {
    pub weight: &'a [u32],
    pub count: &'a [u16],
}

impl Tables<'_> {
    pub fn read(&self, i: usize) -> Entry
        requires { (i < length self.now.weight.now) × (i < length self.now.count.now) }
        ensures { (result.weight ≡ get_or self.now.weight.now i 0) × (result.count ≡ get_or self.now.count.now i 0) }
    {
        Entry {
            weight: self.weight[i],
            count: self.count[i],
        }
    }

    // Whether entry i says that there is no route.
    pub fn is_never(&self, i: usize) -> bool
        requires { i < length self.now.weight.now }
        ensures { result ≡ eqb (get_or self.now.weight.now i 0) never_mark }
    {
        self.weight[i] == NEVER_MARK
    }

    #[tactic(auto, unfolding(crate::specs::Costs::cost_at))]
    pub fn cost_at(&self, i: usize) -> u64
        requires { (i < length self.now.weight.now) × (i < length self.now.count.now) }
        ensures { (result ≡ cost_at self.now.weight.now self.now.count.now i) × (result ≤ far) }
    {
        cost_of(self.read(i))
    }
}

// The rooms, to be written. What takes them by `&mut` leaves the references as they are, so that the lender learns what was written.
#[derive(Drop)]
pub struct TablesMut<'a> {
    pub weight: &'a mut [u32],
    pub count: &'a mut [u16],
}

impl TablesMut<'_> {
    // The same rooms, to be read.
    pub fn to_read(&self) -> Tables<'_>
        ensures { (result.weight.now ≡ self.now.weight.now) × (result.count.now ≡ self.now.count.now) }
    {
        Tables {
            weight: self.weight,
            count: self.count,
        }
    }

    // Stores e at i.
    pub fn put(&mut self, i: usize, e: Entry)
        requires { (i < length self.old.weight.now) × (i < length self.old.count.now) }
        ensures same_rooms { SameRooms self.old self.new }
        ensures put { (self.new.weight.now ≡ set self.old.weight.now i e.weight) × (self.new.count.now ≡ set self.old.count.now i e.count) }
    {
        self.weight[i] = e.weight;
        self.count[i] = e.count;
    }

    // Stores e at i where it is lighter than what stands there. The result: whether this or anything earlier fell,
    // which goes in and comes out as the definition's third part (`cells`).
    #[tactic(auto, unfolding(crate::specs::Cells::lowered, crate::specs::Cells::less))]
    pub fn lower(&mut self, i: usize, e: Entry, fell: bool) -> bool
        requires { (i < length self.old.weight.now) × (i < length self.old.count.now) }
        ensures same_rooms { SameRooms self.old self.new }
        ensures lowered { cells self.new.weight.now self.new.count.now result ≡ lowered i e.weight e.count (cells self.old.weight.now self.old.count.now fell) }
    {
        if e < self.to_read().read(i) {
            self.put(i, e);
            return true;
        }
        fell
    }
}

// The entries of a pair in the weight and count rooms: under a mark the count is 0.
ghost use Rattle.std.specs.Prelude.{◌≡◌, ◌+◌, ◌*◌, ◌<◌, ◌≤◌};

// Ordered by weight, and entries of one weight by their steps.
#[derive(Clone, Copy, PartialEq, Eq, PartialOrd, Ord)]
pub struct Entry {
    pub weight: u32,
    pub count: u16,
}

// Where the row of a place begins, of `size` places.
#[tactic(auto, using(crate::proofs::Corners::begin_le, crate::proofs::Corners::square))]
pub fn row_of(size: usize, place: usize) -> usize
    requires { (size ≤ 1024) × (place < size) }
    ensures { (result ≡ place * size) × (result + size ≤ size * size) }
{
    place * size
}

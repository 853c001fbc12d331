// Where the unfolding goes: the route's end, its steps in all, and the level that is open.
use paper::place::Place;

#[derive(Clone, Copy)]
pub struct Course {
    pub end: Place,
    pub total: u16,
    pub level: usize,
}

// A route in the step room, read one step key at a time.
ghost use Rattle.std.specs.Prelude.{◌≡◌, ◌+◌, ◌*◌, ◌≤◌, length};
ghost use Rattle.trace_replay.specs.Keys.{entries};

use paper::key::step_key;
use paper::place::Place;

// Where the route starts, the room that it lies in, and how many steps it has.
#[derive(Clone, Copy)]
pub struct Steps<'a> {
    pub start: Place,
    pub room: &'a [u16],
    pub count: usize,
}

impl<'a> Steps<'a> {
    // The key of step i.
    pub fn key(&self, i: usize) -> [u16; 4]
        requires { i * 4 + 4 ≤ length self.now.room.now }
        ensures { result ≡ entries self.now.room.now i }
    {
        let at = i * 4;
        let room = self.room;
        step_key(room[at], room[at + 1], room[at + 2], room[at + 3])
    }
}

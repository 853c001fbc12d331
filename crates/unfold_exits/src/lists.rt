// A list of exits, in a room of its own.
ghost use Rattle.std.specs.Prelude.{◌≡◌, List, [], ◌∷◌, ◌++◌, ◌<◌, ◌≤◌, length, take};
ghost use Rattle.unfold_exits.specs.declared.lists.Exit.{Exit};

use std::marker::Model;

// The number of a place, and the cost of finishing from it.
#[derive(Clone, Copy)]
pub struct Exit {
    pub place: usize,
    pub cost: u64,
}

// No level has more exits than there are places, and no tunnel more than there are functions.
#[derive(Drop)]
pub struct Exits {
    room: [Exit; 1024],
    len: usize,
}

impl Model for Exits {
    ghost Value = { List Exit };

    ghost view = { λ e. take e.len e.room };

    ghost invariant = { λ e. e.len ≤ 1024 };
}

impl Exits {
    pub fn new() -> Exits
        ensures { result ≡ [] }
    {
        Exits {
            room: [Exit { place: 0, cost: 0 }; 1024],
            len: 0,
        }
    }

    pub fn clear(&mut self)
        ensures { self.new ≡ [] }
    {
        self.len = 0;
    }

    pub fn push(&mut self, exit: Exit)
        requires { length self.old < 1024 }
        ensures { self.new ≡ self.old ++ exit ∷ [] }
    {
        self.room[self.len] = exit;
        self.len += 1;
    }

    pub fn listed(&self) -> &[Exit]
        ensures { result.now ≡ self.now }
    {
        &self.room[..self.len]
    }
}

// The network in memory: one lent room, arranged by node, which is all that the search sees of a network.
#![tactic(auto)]

ghost use Rattle.std.specs.Prelude.{◌≡◌, ℕ, List};
ghost use Rattle.network.specs.Arranged.{Arranged};

use std::marker::Model;

pub mod record;
pub mod size;
pub mod walk;

// Clauses see the numbers of its room; that they are arranged holds of each.
#[derive(Drop)]
pub struct Network<'a> {
    room: &'a [u32],
}

impl<'a> Model for Network<'a> {
    ghost Value = { List ℕ };

    ghost view = { λ n. n.room.now };

    ghost invariant = { λ n. Arranged n.room.now };
}

impl<'a> Network<'a> {
    pub fn new(room: &'a [u32]) -> Network<'a>
        requires { Arranged room.now }
        ensures { result ≡ room.now }
    {
        Network { room }
    }
}

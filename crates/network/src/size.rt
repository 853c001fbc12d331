// How large the network is, and the number of a place in it.
ghost use Rattle.std.specs.Prelude.{◌≡◌, ◌*◌, ◌<◌, ◌≤◌};
ghost use Rattle.network.specs.Arranged.{Arranged};
ghost use Rattle.network.specs.Network.{nodes, protocols, links, funs, places, number_of, Within};

use crate::Network;
use crate::record::FUNS;
use network_records::FUN_ROOM;
use paper::place::Place;

// The length of the room.
pub const ROOM: usize = FUNS + FUN_ROOM;

impl<'a> Network<'a> {
    pub fn nodes(&self) -> usize
        ensures { (result ≡ nodes self.now) × (1 ≤ result) × (result ≤ 256) × Arranged self.now }
    {
        self.room[0] as usize
    }

    pub fn protocols(&self) -> usize
        ensures { (result ≡ protocols self.now) × (1 ≤ result) × (result ≤ 16) × Arranged self.now }
    {
        self.room[1] as usize
    }

    // How many links there are.
    pub fn links(&self) -> usize
        ensures { (result ≡ links self.now) × (result ≤ 1024) × Arranged self.now }
    {
        self.room[2] as usize
    }

    // How many functions there are.
    pub fn funs(&self) -> usize
        ensures { (result ≡ funs self.now) × (result ≤ 1024) × Arranged self.now }
    {
        self.room[3] as usize
    }

    // N: how many places there are.
    pub fn places(&self) -> usize
        ensures { (result ≡ places self.now) × (1 ≤ result) × (result ≤ 1024) × Arranged self.now }
    {
        self.nodes() * self.protocols()
    }

    pub fn number_of(&self, at: Place) -> usize
        requires { Within self.now at }
        ensures { (result ≡ number_of self.now at) × (result < places self.now) }
    {
        at.number(self.nodes(), self.protocols())
    }
}

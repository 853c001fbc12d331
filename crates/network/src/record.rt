// One record of the network: its fields, each with the range that it is known to be in.
ghost use Rattle.std.specs.Prelude.{◌≡◌, ◌<◌, ◌≤◌};
ghost use Rattle.network.specs.Arranged.{Arranged};
ghost use Rattle.network.specs.Network.{links_room, funs_room, nodes, protocols, links, funs, number, from, to, toll, node, kind, x_of, y_of, fee};

use crate::Network;
use crate::walk::FUN_STARTS;
use network_records::LINK_ROOM;
use paper::place::Place;

// Where the links begin in the room, and where the functions do.
pub const LINKS: usize = FUN_STARTS + Place::NODES + 1;

pub const FUNS: usize = LINKS + LINK_ROOM;

impl<'a> Network<'a> {
    fn link_room(&self) -> &[u32]
        ensures part { result.now ≡ links_room self.now }
        ensures arranged { Arranged self.now }
    {
        &self.room[LINKS..]
    }

    fn fun_room(&self) -> &[u32]
        ensures part { result.now ≡ funs_room self.now }
        ensures arranged { Arranged self.now }
    {
        &self.room[FUNS..]
    }

    pub fn link_number(&self, i: usize) -> u32
        requires { i < links self.now }
        ensures { (result ≡ number self.now i) × (result ≤ 65535) }
    {
        network_records::link_number(self.link_room(), i)
    }

    pub fn link_from(&self, i: usize) -> usize
        requires { i < links self.now }
        ensures { (result ≡ from self.now i) × (result < nodes self.now) }
    {
        network_records::link_from(self.link_room(), i)
    }

    pub fn link_to(&self, i: usize) -> usize
        requires { i < links self.now }
        ensures { (result ≡ to self.now i) × (result < nodes self.now) }
    {
        network_records::link_to(self.link_room(), i)
    }

    pub fn link_weight(&self, i: usize) -> u32
        requires { i < links self.now }
        ensures { (result ≡ toll self.now i) × (result ≤ 1000000000) }
    {
        network_records::link_weight(self.link_room(), i)
    }

    pub fn fun_node(&self, j: usize) -> usize
        requires { j < funs self.now }
        ensures { (result ≡ node self.now j) × (result < nodes self.now) }
    {
        network_records::fun_node(self.fun_room(), j)
    }

    pub fn fun_kind(&self, j: usize) -> usize
        requires { j < funs self.now }
        ensures { (result ≡ kind self.now j) × (result < 3) }
    {
        network_records::fun_kind(self.fun_room(), j)
    }

    pub fn fun_x(&self, j: usize) -> usize
        requires { j < funs self.now }
        ensures { (result ≡ x_of self.now j) × (result < protocols self.now) }
    {
        network_records::fun_x(self.fun_room(), j)
    }

    pub fn fun_y(&self, j: usize) -> usize
        requires { j < funs self.now }
        ensures { (result ≡ y_of self.now j) × (result < protocols self.now) }
    {
        network_records::fun_y(self.fun_room(), j)
    }

    pub fn fun_weight(&self, j: usize) -> u32
        requires { j < funs self.now }
        ensures { (result ≡ fee self.now j) × (result ≤ 1000000000) }
    {
        network_records::fun_weight(self.fun_room(), j)
    }
}

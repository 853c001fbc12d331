// The records of a node, one after another: only they are looked at, and they are those that a scan of all records finds.
ghost use Rattle.std.specs.Prelude.{◌≡◌, ◌&&◌, suc, ◌+◌, ◌<◌, ◌≤◌, eqb, get_or};
ghost use Rattle.paper.specs.Net.{code};
ghost use Rattle.network_records.specs.Kinds.{named};
ghost use Rattle.network.specs.Arranged.{Arranged};
ghost use Rattle.network.specs.Network.{nodes, links, funs, fun_starts, kind as kind_of, x_of};
ghost use Rattle.network.specs.Next.{leaves, stands, suits, First, Next, Stretch};

use crate::Network;
use network_records::kind::Kind;
use paper::place::Place;
use std::ops::Range;

// Where the starts of the nodes' links begin in the room, and where those of their functions do.
pub const LINK_STARTS: usize = 4;

pub const FUN_STARTS: usize = LINK_STARTS + Place::NODES + 1;

impl<'a> Network<'a> {
    // Where the records of node v stand, by their starts in the room.
    fn stretch(&self, starts: usize, v: usize) -> Range<usize>
        requires { (starts ≤ fun_starts) × (v < nodes self.now) }
        ensures from { result.start ≡ get_or self.now (starts + v) 0 }
        ensures to { result.end ≡ get_or self.now (starts + suc v) 0 }
        ensures arranged { Arranged self.now }
    {
        let room = self.room;
        room[starts + v] as usize..room[starts + v + 1] as usize
    }

    // The links that leave node v.
    pub fn links_of(&self, v: usize) -> Range<usize>
        requires { v < nodes self.now }
        ensures stretch { Stretch (leaves self.now v) (links self.now) result.start result.end }
        ensures arranged { Arranged self.now }
    {
        self.stretch(LINK_STARTS, v)
    }

    // The functions of node v.
    pub fn funs_of(&self, v: usize) -> Range<usize>
        requires { v < nodes self.now }
        ensures stretch { Stretch (stands self.now v) (funs self.now) result.start result.end }
        ensures arranged { Arranged self.now }
    {
        self.stretch(FUN_STARTS, v)
    }

    // Whether function j is of this kind, for the protocol x. A kind is its code here and in the next, as the room holds it:
    // their promises answer every number, and a Kind would leave some out.
    pub fn is_for(&self, j: usize, k: usize, x: usize) -> bool
        requires { j < funs self.now }
        ensures { result ≡ (eqb (kind_of self.now j) k && eqb (x_of self.now j) x) }
    {
        (self.fun_kind(j) == k) & (self.fun_x(j) == x)
    }

    // The first function of node v from function j on, of this kind, for the protocol x; where there is none, the number of functions,
    // as its promise has it: `Next` speaks of every scan's end.
    pub fn next_fun(&self, j: usize, v: usize, kind: usize, x: usize) -> usize
        requires { (j ≤ funs self.now) × (v < nodes self.now) }
        ensures { Next (suits self.now v kind x) (funs self.now) j result }
    {
        let own = self.stretch(FUN_STARTS, v);
        for k in j.max(own.start)..own.end {
            if self.is_for(k, kind, x) {
                return k;
            }
        }
        self.funs()
    }

    // Whether function j is of this kind, for the protocol x.
    pub fn serves(&self, j: usize, kind: Kind, x: usize) -> bool
        requires { j < funs self.now }
        ensures { result ≡ (eqb (kind_of self.now j) (code (named kind)) && eqb (x_of self.now j) x) }
    {
        self.is_for(j, kind.code() as usize, x)
    }

    // The first function of node v that is of this kind, for the protocol x.
    pub fn first_fun(&self, v: usize, kind: Kind, x: usize) -> Option<usize>
        requires { v < nodes self.now }
        ensures first { First (suits self.now v (code (named kind)) x) (funs self.now) result }
        ensures arranged { Arranged self.now }
    {
        let j = self.next_fun(0, v, kind.code() as usize, x);
        if j < self.funs() { Some(j) } else { None }
    }
}

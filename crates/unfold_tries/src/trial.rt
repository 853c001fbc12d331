// What is tried: a step from a spot by a function in use.
use network_records::kind::Kind;

// Where the unfolding stands, and what is left there.
#[derive(Clone, Copy)]
pub struct Spot {
    pub node: usize,
    pub protocol: usize,
    pub weight: u32,
    pub left: u16,
}

// A step: its key, and where it leads.
#[derive(Clone, Copy)]
pub struct Step {
    pub key: [u16; 4],
    pub to: Spot,
}

// A function in use: its kind, its protocols, its weight, and the protocol that it leaves on top.
#[derive(Clone, Copy)]
pub struct Use {
    pub kind: Kind,
    pub x: u16,
    pub y: u16,
    pub weight: u32,
    pub onto: usize,
}

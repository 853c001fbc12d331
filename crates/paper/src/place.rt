// A place, a node with a protocol, and an enquiry, from one place to another.
ghost use Rattle.std.specs.Prelude.{◌≡◌, ◌*◌, ◌/◌, ◌%◌, ◌≤◌, ◌<◌};
ghost use Rattle.paper.specs.Net.{place};

#[derive(Clone, Copy, Debug, PartialEq, Eq)]
pub struct Place {
    pub node: usize,
    pub protocol: usize,
}

// From S with a on top of the stack to D with only b on it.
#[derive(Clone, Copy, Debug, PartialEq, Eq)]
pub struct Enquiry {
    pub start: Place,
    pub end: Place,
}

impl Place {
    pub const NODES: usize = 256;

    pub const PROTOCOLS: usize = 16;

    pub const PLACES: usize = 1024;

    // Its number, node × p + protocol, among n nodes with p protocols.
    pub fn number(self, n: usize, p: usize) -> usize
        requires { (self.node < n) × (self.protocol < p) × (n * p ≤ 1024) }
        ensures { (result ≡ place p self.node self.protocol) × (result < n * p) }
    {
        let node = self.node;
        let protocol = self.protocol;
        node * p + protocol
    }

    // The place of a number.
    pub fn of(number: usize, p: usize) -> Self
        requires { 0 < p }
        ensures { (result.node ≡ number / p) × (result.protocol ≡ number % p) × (place p result.node result.protocol ≡ number) × (result.protocol < p) }
    {
        Self {
            node: number / p,
            protocol: number % p,
        }
    }
}

// A packet: the node where it is, the height of its stack, and the weight that it has spent. What its stack holds is kept apart.
ghost use Rattle.std.specs.Prelude.{◌≡◌};
ghost use Rattle.trace_replay.specs.Keys.{key_of};
ghost use Rattle.trace_replay.specs.Packet.{origin, after, Here};

use crate::hops::hop;
use network::Network;
use network_records::kind::Kind;
use paper::place::Place;
use trace_stack::height_after;

#[derive(Clone, Copy)]
pub struct Packet {
    pub node: usize,
    pub height: usize,
    pub spent: u64,
}

impl Packet {
    // A packet that has not gone yet.
    pub fn begin(start: Place) -> Self
        ensures { result ≡ origin start }
    {
        Packet {
            node: start.node,
            height: 1,
            spent: 0,
        }
    }

    // The packet after one step: where the step leads, or the packet as it was where it leads nowhere.
    #[tactic(auto, using(crate::proofs::Ways::stays, crate::proofs::Ways::arrives))]
    pub fn stepped(self, net: &Network, key: [u16; 4]) -> Self
        requires { Here net.now self }
        ensures { result ≡ after net.now (key_of key) self }
    {
        let [_, kind, _, _] = key;
        match hop(net, key, self.node) {
            None => self,
            Some(reached) => Packet {
                node: reached.node,
                height: height_after(Kind::from(kind), self.height),
                spent: self.spent + u64::from(reached.weight),
            },
        }
    }
}

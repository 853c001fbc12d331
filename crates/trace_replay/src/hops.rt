// Where a step leads and what it weighs: the link and the function of its key, found among those of the node.
ghost use Rattle.std.specs.Prelude.{◌≡◌, ◌<◌};
ghost use Rattle.paper.specs.Net.{code};
ghost use Rattle.network_records.specs.Kinds.{named};
ghost use Rattle.network.specs.Network.{nodes, links, funs, hop_in};
ghost use Rattle.network.specs.Arranged.{Arranged};
ghost use Rattle.network.specs.Next.{First};
ghost use Rattle.trace_replay.specs.Keys.{key_of};
ghost use Rattle.trace_replay.specs.Hops.{numbered, known, hopped};

use network::Network;
use network_records::kind::Kind;

// The node reached, and the weights of the function and the link together.
#[derive(Clone, Copy)]
pub struct Reached {
    pub node: usize,
    pub weight: u32,
}

// The link of node v with the number l.
fn link_of(net: &Network, v: usize, l: u32) -> Option<usize>
    requires { v < nodes net.now }
    ensures first { First (numbered net.now v l) (links net.now) result }
    ensures arranged { Arranged net.now }
{
    net.links_of(v).find(|&i| net.link_number(i) == l)
}

// The function of node v of this kind, for x and y.
fn fun_of(net: &Network, v: usize, kind: Kind, x: usize, y: usize) -> Option<usize>
    requires { v < nodes net.now }
    ensures { First (known net.now v (code (named kind)) x y) (funs net.now) result }
{
    net.funs_of(v)
        .find(|&j| net.serves(j, kind, x) && net.fun_y(j) == y)
}

pub fn hop(net: &Network, key: [u16; 4], node: usize) -> Option<Reached>
    requires { node < nodes net.now }
    ensures { hopped result ≡ hop_in net.now (key_of key) node }
{
    let [link, kind, x, y] = key;
    let i = link_of(net, node, u32::from(link))?;
    let j = fun_of(net, node, Kind::from(kind), usize::from(x), usize::from(y))?;
    Some(Reached {
        node: net.link_to(i),
        weight: net.fun_weight(j) + net.link_weight(i),
    })
}

// The records of an accepted network, arranged by node for the search. Whatever changes the records does so before this.
#![tactic(auto)]

ghost use Rattle.std.specs.Prelude.{◌≡◌, [], ◌∷◌, ◌≤◌, length};
ghost use Rattle.paper.specs.Rooms.{laid};
ghost use Rattle.paper.specs.Limits.{most_nodes, most_protocols, most_records};
ghost use Rattle.network_records.specs.Columns.{hop_of};
ghost use Rattle.network_records.specs.Valid.{Valid};
ghost use Rattle.network.specs.Network.{room_size, hop_in};
ghost use Rattle.network.specs.Arranged.{Arranged};
ghost use Rattle.network_arrange.specs.Arrangement.{Arrangement};

use crate::group::Records;
use network::record::{FUNS, LINKS};
use network::walk::{FUN_STARTS, LINK_STARTS};
use network_records::{FROM, FUN_WIDTH, LINK_WIDTH, NODE, Size};

mod group;

fn head(net: &mut [u32], size: Size)
    requires { (size.nodes ≤ most_nodes) × (size.protocols ≤ most_protocols) × (size.links ≤ most_records) × (size.funs ≤ most_records) × (4 ≤ length net.old) }
    ensures { net.new ≡ laid net.old 0 (size.nodes ∷ size.protocols ∷ size.links ∷ size.funs ∷ []) }
{
    net[..4].copy_from_slice(&[
        size.nodes as u32,
        size.protocols as u32,
        size.links as u32,
        size.funs as u32,
    ]);
}

// The links and the functions of a network of this size.
pub fn arrange(links: &[u32], funs: &[u32], size: Size, net: &mut [u32])
    requires { Valid size links.now funs.now × (room_size ≤ length net.old) }
    ensures laid { Arrangement size links.now funs.now net.new }
    ensures arranged { Arranged net.new }
    ensures leads { hop_in net.new ≡ hop_of size links.now funs.now }
{
    head(net, size);
    let links = Records {
        from: links,
        width: LINK_WIDTH,
        column: FROM,
        count: size.links,
        nodes: size.nodes,
    };
    links.lay_out(net, LINK_STARTS, LINKS);
    let funs = Records {
        from: funs,
        width: FUN_WIDTH,
        column: NODE,
        count: size.funs,
        nodes: size.nodes,
    };
    funs.lay_out(net, FUN_STARTS, FUNS);
}

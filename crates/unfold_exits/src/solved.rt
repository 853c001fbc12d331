// The network with its tables: these hold an entry for each pair of its places.
ghost use Rattle.network.specs.Network.{places};
ghost use Rattle.network.specs.Arranged.{Arranged};
ghost use Rattle.unfold_exits.specs.Cost.{Square};

use network::Network;
use tables_costs::rooms::Tables;

#[derive(Clone, Copy)]
pub struct Solved<'a> {
    pub net: &'a Network<'a>,
    pub tables: Tables<'a>,
    pub ghost arranged: { Arranged net.now },
    pub ghost square: { Square (places net.now) tables.weight.now tables.count.now },
}

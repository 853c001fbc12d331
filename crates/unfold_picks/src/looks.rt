// Looking for a step among the exits of one record: a step in its level, or a wrap that opens a tunnel from it.
ghost use Rattle.std.specs.Prelude.{◌≡◌, ◌+◌, ◌≤◌};
ghost use Rattle.network.specs.Network.{places};
ghost use Rattle.unfold_frames.specs.Frames.{words_for};
ghost use Rattle.unfold_picks.specs.Look.{Looking, ByLevel, Outward, ByTunnel};

use network::Network;
use network_records::kind::Kind;
use unfold_exits::levels::list_level;
use unfold_exits::lists::Exits;
use unfold_exits::solved::Solved;
use unfold_exits::tunnels::list_tunnel;
use unfold_frames::{Record, words_for};
use unfold_tries::funs::try_funs;
use unfold_tries::trial::{Spot, Step};

// The exits of a level, and those of a tunnel from it.
#[derive(Drop)]
pub struct Lists {
    pub exits: Exits,
    pub outs: Exits,
}

// The entries of a level's record.
pub fn record_length(net: &Network) -> usize
    ensures { (result ≡ words_for (places net.now) + 5) × (result ≤ 69) }
{
    words_for(net.places()) + 5
}

// The better of `best` and the steps of a kind that lead on in the level.
pub fn look_level(
    solved: &Solved,
    level: &Record,
    at: Spot,
    kind: Kind,
    hidden: usize,
    best: Step,
    exits: &mut Exits,
) -> Step
    requires { Looking solved.now.net.now level.now.choice.now level.now.at at }
    ensures { ByLevel solved.now.net.now solved.now.tables.weight.now solved.now.tables.count.now level.now.choice.now level.now.at at kind hidden best result }
{
    list_level(&solved.tables, solved.net.places(), level, exits);
    try_funs(solved, exits.listed(), at, kind, hidden, best)
}

// Lists the exits of a tunnel opened at `at` from the level.
pub fn list_outward(solved: &Solved, level: &Record, at: Spot, lists: &mut Lists)
    requires { Looking solved.now.net.now level.now.choice.now level.now.at at }
    ensures { Outward solved.now.net.now solved.now.tables.weight.now solved.now.tables.count.now level.now.choice.now level.now.at at.protocol lists.new.outs }
{
    list_level(&solved.tables, solved.net.places(), level, &mut lists.exits);
    list_tunnel(solved, lists.exits.listed(), at.protocol, &mut lists.outs);
}

// The better of `best` and the wraps that open a tunnel from the level.
pub fn look_tunnel(solved: &Solved, level: &Record, at: Spot, best: Step, lists: &mut Lists) -> Step
    requires { Looking solved.now.net.now level.now.choice.now level.now.at at }
    ensures { ByTunnel solved.now.net.now solved.now.tables.weight.now solved.now.tables.count.now level.now.choice.now level.now.at at best result }
{
    let net = solved.net;
    if net.first_fun(at.node, Kind::Wrap, at.protocol).is_none() {
        return best;
    }
    list_outward(solved, level, at, lists);
    try_funs(solved, lists.outs.listed(), at, Kind::Wrap, 0, best)
}

// The functions of a kind that serve at a place, each tried over every link of its node.
ghost use Rattle.std.specs.Prelude.{◌≡◌, ◌<◌};
ghost use Rattle.paper.specs.Net.{code};
ghost use Rattle.network_records.specs.Kinds.{named};
ghost use Rattle.network.specs.Network.{funs, node};
ghost use Rattle.unfold_tries.specs.Trial.{Better, Any, ByFun, Trying, sought_by, next_of, use_of};

use crate::links::try_links;
use crate::trial::{Spot, Step, Use};
use network::Network;
use network_records::kind::Kind;
use unfold_exits::lists::Exit;
use unfold_exits::solved::Solved;

// The protocol x of the functions of a kind that serve where `top` is on top: an unwrap's x is the protocol hidden just beneath.
#[tactic(auto, unfolding(crate::specs::Trial::sought_by))]
fn sought_by(kind: Kind, top: usize, hidden: usize) -> usize
    ensures { result ≡ sought_by (code (named kind)) top hidden }
{
    match kind {
        Kind::Conv | Kind::Wrap => top,
        Kind::Unwrap => hidden,
    }
}

// The protocol that function j, of a kind, leaves on top.
#[tactic(auto, unfolding(crate::specs::Trial::next_of))]
fn next_of(net: &Network, kind: Kind, j: usize) -> usize
    requires { j < funs net.now }
    ensures { result ≡ next_of net.now (code (named kind)) j }
{
    match kind {
        Kind::Conv | Kind::Wrap => net.fun_y(j),
        Kind::Unwrap => net.fun_x(j),
    }
}

// Function j, of a kind, as it is used.
fn use_of(solved: &Solved, kind: Kind, j: usize) -> Use
    requires { j < funs solved.now.net.now }
    ensures { result ≡ use_of solved.now.net.now kind j }
{
    let net = solved.net;
    Use {
        kind,
        x: net.fun_x(j) as u16,
        y: net.fun_y(j) as u16,
        weight: net.fun_weight(j),
        onto: next_of(net, kind, j),
    }
}

// The better of `best` and the steps of function j, one of the node, that pass, where its kind and its protocols are those sought.
fn try_fun(
    solved: &Solved,
    exits: &[Exit],
    at: Spot,
    kind: Kind,
    hidden: usize,
    j: usize,
    best: Step,
) -> Step
    requires { (j < funs solved.now.net.now) × (node solved.now.net.now j ≡ at.node) × Trying solved.now.net.now exits.now at }
    ensures { Better (ByFun solved.now.net.now solved.now.tables.weight.now solved.now.tables.count.now exits.now at kind hidden j) best result }
{
    let net = solved.net;
    let x = sought_by(kind, at.protocol, hidden);
    if !net.serves(j, kind, x) {
        return best;
    }
    if kind == Kind::Unwrap && net.fun_y(j) != at.protocol {
        return best;
    }
    try_links(solved, exits, at, use_of(solved, kind, j), best)
}

// The better of `best` and the steps of each function that serves and pass.
pub fn try_funs(
    solved: &Solved,
    exits: &[Exit],
    at: Spot,
    kind: Kind,
    hidden: usize,
    best: Step,
) -> Step
    requires { Trying solved.now.net.now exits.now at }
    ensures { Better (Any (ByFun solved.now.net.now solved.now.tables.weight.now solved.now.tables.count.now exits.now at kind hidden) (funs solved.now.net.now)) best result }
{
    let mut found = best;
    for j in solved.net.funs_of(at.node) {
        found = try_fun(solved, exits, at, kind, hidden, j, found);
    }
    found
}

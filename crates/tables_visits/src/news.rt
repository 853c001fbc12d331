// What a row leans on: the rows of the places that one step or one tunnel leads to.
// A row that leans on nothing new is passed over. No promise rests on that: the last sweep passes over nothing.
ghost use Rattle.std.specs.Prelude.{◌≡◌, false, ◌<◌, ◌≤◌, length};
ghost use Rattle.network.specs.Network.{nodes, protocols, links, places, Within};

use network::Network;
use network_records::kind::Kind;
use paper::place::Place;
use tables_spread::news::News;

// Whether the row of a place has changed.
fn is_new(net: &Network, news: &News, at: Place) -> bool
    requires { (places net.now ≤ length news.now.stamps.now) × Within net.now at }
{
    !news.is_old(net.number_of(at))
}

// Whether any row of node w has.
fn has_news(net: &Network, news: &News, w: usize) -> bool
    requires { (places net.now ≤ length news.now.stamps.now) × (w < nodes net.now) }
{
    (0..net.protocols()).any(|y| {
        let row = Place {
            node: w,
            protocol: y,
        };
        is_new(net, news, row)
    })
}

// Whether a link of node v leads to a node that has.
fn news_near(net: &Network, news: &News, v: usize) -> bool
    requires { (places net.now ≤ length news.now.stamps.now) × (v < nodes net.now) }
{
    net.links_of(v).any(|i| has_news(net, news, net.link_to(i)))
}

// Whether a tunnel under x may land by link i in a row that has changed.
fn lands_new(net: &Network, news: &News, x: usize, i: usize) -> bool
    requires { (places net.now ≤ length news.now.stamps.now) × (x < protocols net.now) × (i < links net.now) }
{
    let there = Place {
        node: net.link_to(i),
        protocol: x,
    };
    is_new(net, news, there) && net.first_fun(net.link_from(i), Kind::Unwrap, x).is_some()
}

// Whether one may by any link.
fn news_far(net: &Network, news: &News, x: usize) -> bool
    requires { (places net.now ≤ length news.now.stamps.now) × (x < protocols net.now) }
{
    (0..net.links()).any(|i| lands_new(net, news, x, i))
}

// Whether the row of a place leans on nothing that has changed since then; since 0, everything has.
pub fn is_settled(net: &Network, news: &News, at: Place) -> bool
    requires { (places net.now ≤ length news.now.stamps.now) × Within net.now at }
    ensures { news.now.since ≡ 0 → result ≡ false }
{
    if news.since == 0 {
        return false;
    }
    if news_near(net, news, at.node) {
        return false;
    }
    if net.first_fun(at.node, Kind::Wrap, at.protocol).is_none() {
        return true;
    }
    !news_far(net, news, at.protocol)
}

// An enquiry of a network in memory: outside it, without room for its tables, or what the tables say.
ghost use Rattle.std.specs.Prelude.{◌≡◌, ◌&&◌, ◌*◌, ◌≤◌, leb};
ghost use Rattle.paper.specs.Outcome.{rooms, known};
ghost use Rattle.paper.specs.Answers.{outcome_given};
ghost use Rattle.network.specs.Network.{nodes, protocols};
ghost use Rattle.enquiry.specs.Ready.{AnswersIn};

use crate::travel::travel;
use network::Network;
use paper::outcome::{Denial, Found};
use paper::place::Enquiry;
use tables::fill;
use tables_costs::rooms::Tables;

// Whether both are places of the network.
#[tactic(auto, unfolding(paper::specs::Outcome::known))]
pub fn in_range(net: &Network, enquiry: Enquiry) -> bool
    ensures { result ≡ known (nodes net.now) (protocols net.now) enquiry.start.node enquiry.start.protocol enquiry.end.node enquiry.end.protocol }
{
    let n = net.nodes();
    let p = net.protocols();
    let (start, end) = (enquiry.start, enquiry.end);
    start.node < n && end.node < n && start.protocol < p && end.protocol < p
}

// Whether rooms of these lengths are long enough for the tables of `size` places.
fn enough(size: usize, weights: usize, counts: usize, choices: usize) -> bool
    requires { size ≤ 1024 }
    ensures { result ≡ leb (size * size) weights && leb (size * size) counts && leb (8 * (size * size)) choices }
{
    let entries = size * size;
    entries <= weights && entries <= counts && 8 * entries <= choices
}

// The outcome of an enquiry, and all five rooms. They stand apart, as C lends them: tried as a struct of references, and what lies behind
// one of its fields could not be read while another was lent.
pub fn answer(
    net: &Network,
    enquiry: Enquiry,
    weight: &mut [u32],
    count: &mut [u16],
    choice: &mut [u16],
    step: &mut [u16],
    text: &mut [u8],
) -> Result<Found, Denial>
    ensures { AnswersIn net.now enquiry.start enquiry.end (rooms weight.old count.old choice.old step.old text.old) (outcome_given result) (rooms weight.new count.new choice.new step.new text.new) }
{
    if !in_range(net, enquiry) {
        return Err(Denial::OutsideNetwork);
    }
    if !enough(net.places(), weight.len(), count.len(), choice.len()) {
        return Err(Denial::RoomsTooShort);
    }
    fill(net, weight, count, choice);
    travel(net, &Tables { weight, count }, enquiry, choice, step, text)
}

// From filled tables to what an enquiry comes to: no route within the limits, or the best one, unfolded into the step room, and its trace.
ghost use Rattle.std.specs.Prelude.{◌≡◌, ◌+◌, ◌*◌, ◌<◌, length};
ghost use Rattle.paper.specs.Outcome.{most_steps};
ghost use Rattle.paper.specs.Answers.{outcome_given, handed_out};
ghost use Rattle.network.specs.Network.{places, number_of, Within};
ghost use Rattle.enquiry.specs.Ready.{Ready, Fit, EndsIn, cleared};

use network::Network;
use paper::limits::{NEVER_MARK, OVER_MARK};
use paper::outcome::{Denial, Found};
use paper::place::Enquiry;
use tables_costs::entry::Entry;
use tables_costs::rooms::Tables;
use trace::trace;
use trace_replay::steps::Steps;
use unfold::unfold;

// How many steps a step room of m entries and the limit allow.
#[tactic(auto, unfolding(paper::specs::Outcome::most_steps))]
fn most(m: usize) -> usize
    ensures { result ≡ most_steps m }
{
    (m / 4).min(4096)
}

// Where the entry of the two places stands.
fn pair(net: &Network, enquiry: Enquiry) -> usize
    requires { Within net.now enquiry.start × Within net.now enquiry.end }
    ensures { (result ≡ number_of net.now enquiry.start * places net.now + number_of net.now enquiry.end) × (result < places net.now * places net.now) }
{
    net.number_of(enquiry.start) * net.places() + net.number_of(enquiry.end)
}

// The best route, of this weight and these steps, into the step room, and its trace into the text room where it fits.
fn hand_out(
    net: &Network,
    tables: &Tables,
    enquiry: Enquiry,
    best: Entry,
    choice: &mut [u16],
    step: &mut [u16],
    text: &mut [u8],
) -> Found
    requires { Ready net.now tables.now.weight.now tables.now.count.now choice.old × Fit net.now enquiry.start enquiry.end tables.now.weight.now tables.now.count.now step.old best.weight best.count }
    ensures ends_in { EndsIn net.now enquiry.start enquiry.end step.old text.old (handed_out result.weight result.steps result.length) step.new text.new }
    ensures choice_after { choice.new ≡ cleared net.now choice.old }
{
    unfold(net, tables, choice, step, enquiry);
    let steps = Steps {
        start: enquiry.start,
        room: step,
        count: best.count as usize,
    };
    let length = trace(net, &steps, best.weight, text);
    Found {
        weight: best.weight,
        steps: best.count as u32,
        length,
    }
}

// What the entries of its two places say of an enquiry.
pub fn travel(
    net: &Network,
    tables: &Tables,
    enquiry: Enquiry,
    choice: &mut [u16],
    step: &mut [u16],
    text: &mut [u8],
) -> Result<Found, Denial>
    requires { Ready net.now tables.now.weight.now tables.now.count.now choice.old × Within net.now enquiry.start × Within net.now enquiry.end }
    ensures ends_in { EndsIn net.now enquiry.start enquiry.end step.old text.old (outcome_given result) step.new text.new }
    ensures choice_after { choice.new ≡ cleared net.now choice.old }
{
    let best = tables.read(pair(net, enquiry));
    if best.weight == NEVER_MARK {
        return Err(Denial::NoRoute);
    }
    if best.weight == OVER_MARK {
        return Err(Denial::TooHeavy);
    }
    if most(step.len()) < usize::from(best.count) {
        return Err(Denial::TooLong);
    }
    Ok(hand_out(net, tables, enquiry, best, choice, step, text))
}

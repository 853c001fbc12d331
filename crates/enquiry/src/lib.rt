// The route enquiry: every network file, every enquiry of four numbers and every size of lent room gets its outcome.
#![tactic(auto)]

ghost use Rattle.paper.specs.Outcome.{outcome_of, rooms, Routed};

use crate::answer::answer;
use crate::load::load;
use network::Network;
use network::size::ROOM;
use paper::outcome::Outcome;
use paper::place::{Enquiry, Place};

pub mod answer;
pub mod load;
pub mod travel;

pub fn route(
    file: &[u8],
    s: u32,
    a: u32,
    d: u32,
    b: u32,
    weight: &mut [u32],
    count: &mut [u16],
    choice: &mut [u16],
    step: &mut [u16],
    text: &mut [u8],
) -> Outcome
    ensures { Routed file.now s a d b (rooms weight.old count.old choice.old step.old text.old) (outcome_of result) (rooms weight.new count.new choice.new step.new text.new) }
{
    let mut room = [0u32; ROOM];
    let enquiry = Enquiry {
        start: Place {
            node: s as usize,
            protocol: a as usize,
        },
        end: Place {
            node: d as usize,
            protocol: b as usize,
        },
    };
    match load(file, &mut room) {
        Ok(()) => {
            let net = Network::new(&room);
            Outcome::from(answer(&net, enquiry, weight, count, choice, step, text))
        }
        Err(refusal) => Outcome::from(refusal),
    }
}

// One input line of the route program, read: an enquiry, if it is not misshapen. The line comes without its LF.
#![tactic(auto)]

ghost use Rattle.std.specs.Prelude.{◌≡◌};
ghost use Rattle.paper.specs.Text.{fields};
ghost use Rattle.paper.specs.Program.{asked_by};
ghost use Rattle.program_asks.specs.Asked.{ask_of};

use file_fields::{field_is, has_fields, numbers_at};
use paper::place::{Enquiry, Place};

// What the line asks: its word is ask, and its fields are the two places. A number above 1,000,000,000 stands as 1,000,000,001,
// which is below no n or p.
#[tactic(auto, using(crate::proofs::Asking::asking))]
pub fn read_ask(line: &[u8]) -> Option<Enquiry>
    ensures { result ≡ ask_of (asked_by (fields line.now)) }
{
    if !field_is(line, 0, b"ask") || !has_fields(line, 5) {
        return None;
    }
    let [start_node, start_protocol, end_node, end_protocol] = numbers_at::<4>(line, 1)?;
    Some(Enquiry {
        start: Place {
            node: start_node as usize,
            protocol: start_protocol as usize,
        },
        end: Place {
            node: end_node as usize,
            protocol: end_protocol as usize,
        },
    })
}

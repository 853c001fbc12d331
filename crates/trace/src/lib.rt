// The trace of a route: a path line, then a line for each step with the node reached and the stack after it.
#![tactic(auto)]

ghost use Rattle.paper.specs.Trace.{trace};
ghost use Rattle.network.specs.Network.{hop_in};
ghost use Rattle.trace_replay.specs.Keys.{keys};
ghost use Rattle.trace.specs.Told.{Traceable, Told};

use crate::write::write_trace;
use network::Network;
use trace_measure::trace_length;
use trace_replay::steps::Steps;

pub mod write;

// The trace of the route in the step room, from its start with a stack holding only its protocol: how many bytes it has, or none where the text room is too short and stays as it is.
pub fn trace(net: &Network, steps: &Steps, weight: u32, text: &mut [u8]) -> Option<usize>
    requires { Traceable net.now steps.now.start steps.now.room.now steps.now.count weight }
    ensures { Told text.old text.new (trace (hop_in net.now) steps.now.start.node steps.now.start.protocol (keys steps.now) weight) result }
{
    let length = trace_length(net, steps, weight);
    if text.len() < length {
        return None;
    }
    Some(write_trace(net, steps, weight, text))
}

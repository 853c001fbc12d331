// The trace, line after line, as the packet goes.
ghost use Rattle.std.specs.Prelude.{[], ◌∷◌, ◌≤◌, length};
ghost use Rattle.paper.specs.Limits.{longest};
ghost use Rattle.paper.specs.Text.{decimal, written, path_word};
ghost use Rattle.paper.specs.Trace.{step_lines, trace};
ghost use Rattle.digits.specs.Write.{Holds, Put, Wrote};
ghost use Rattle.network.specs.Network.{hop_in};
ghost use Rattle.trace_replay.specs.Keys.{keys};
ghost use Rattle.trace_replay.specs.Packet.{source, IsRoute};

use digits::write::Writer;
use network::Network;
use network_records::kind::Kind;
use trace_replay::packet::Packet;
use trace_replay::steps::Steps;
use trace_stack::Stack;
use trace_stepline::put_step;

#[tactic(auto, using(crate::proofs::Replays::path_size))]
fn put_path(w: &mut Writer, weight: u32, count: usize)
    requires { (count ≤ longest) × Holds w.old (written path_word (decimal weight ∷ decimal count ∷ [])) }
    ensures { Wrote w.old w.new (written path_word (decimal weight ∷ decimal count ∷ [])) }
{
    w.word(b"path");
    w.field(weight);
    w.field(count as u32);
    w.byte(b'\n');
}

// A line for each step of the replay: one stack, which each step alters.
fn put_steps(w: &mut Writer, net: &Network, steps: &Steps)
    requires route { IsRoute net.now steps.now }
    requires room { Holds w.old (step_lines (hop_in net.now) (keys steps.now) (source steps.now.start)) }
    ensures { Wrote w.old w.new (step_lines (hop_in net.now) (keys steps.now) (source steps.now.start)) }
{
    let mut stack = Stack::holding(steps.start.protocol as u8);
    let mut packet = Packet::begin(steps.start);
    for i in 0..steps.count {
        let key = steps.key(i);
        let [_, kind, _, y] = key;
        stack.step_in(Kind::from(kind), y as u8);
        packet = packet.stepped(net, key);
        put_step(w, key, packet, &stack.cells);
    }
}

// The whole trace.
fn put_trace(w: &mut Writer, net: &Network, steps: &Steps, weight: u32)
    requires route { IsRoute net.now steps.now }
    requires room { Holds w.old (trace (hop_in net.now) steps.now.start.node steps.now.start.protocol (keys steps.now) weight) }
    ensures { Wrote w.old w.new (trace (hop_in net.now) steps.now.start.node steps.now.start.protocol (keys steps.now) weight) }
{
    put_path(w, weight, steps.count);
    put_steps(w, net, steps);
}

// The whole trace into a room of its own, and how many bytes it has.
pub fn write_trace(net: &Network, steps: &Steps, weight: u32, text: &mut [u8]) -> usize
    requires route { IsRoute net.now steps.now }
    requires fits { length (trace (hop_in net.now) steps.now.start.node steps.now.start.protocol (keys steps.now) weight) ≤ length text.old }
    ensures { Put text.old text.new 0 result (trace (hop_in net.now) steps.now.start.node steps.now.start.protocol (keys steps.now) weight) }
{
    let mut w = Writer::new(text);
    put_trace(&mut w, net, steps, weight);
    w.written()
}

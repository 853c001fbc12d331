// The trace's length, known before a byte of it is written. No stack is needed: an allowed step takes its x or its y off the stack's text or adds its y.
#![tactic(auto)]

ghost use Rattle.std.specs.Prelude.{◌≡◌, ◌+◌, ◌≤◌, ◌<◌, length};
ghost use Rattle.paper.specs.Normal.{kind_word};
ghost use Rattle.paper.specs.Trace.{step_lines, trace};
ghost use Rattle.network_records.specs.Kinds.{named};
ghost use Rattle.network.specs.Network.{hop_in};
ghost use Rattle.network.specs.Arranged.{Arranged};
ghost use Rattle.trace_replay.specs.Keys.{key_of, keys};
ghost use Rattle.trace_replay.specs.Packet.{source, IsRoute};
ghost use Rattle.trace_measure.specs.Sizes.{lost, gained, line_size, most_dots, most_line, Countable, Counted};

use digits::write::width;
use network::Network;
use network_records::kind::Kind;
use trace_replay::packet::Packet;
use trace_replay::steps::Steps;

#[tactic(auto, unfolding(paper::specs::Normal::kind_word, paper::specs::Text::conv_word, paper::specs::Text::wrap_word, paper::specs::Text::unwrap_word))]
fn word_size(kind: Kind) -> usize
    ensures { (result ≡ length (kind_word (named kind))) × (result ≤ 6) }
{
    match kind {
        Kind::Conv | Kind::Wrap => 4,
        Kind::Unwrap => 6,
    }
}

// The bytes of the stack's text after a step.
#[tactic(auto, using(crate::proofs::Dots::by_conv, crate::proofs::Dots::by_wrap, crate::proofs::Dots::by_unwrap))]
fn dots_after(key: [u16; 4], dots: usize) -> usize
    requires { (lost (key_of key) ≤ dots) × (dots ≤ most_dots) }
    ensures { result + lost (key_of key) ≡ dots + gained (key_of key) }
{
    let [_, kind, x, y] = key;
    let (x, y) = (width(u32::from(x)), width(u32::from(y)));
    match Kind::from(kind) {
        Kind::Conv => dots + y - x,
        Kind::Wrap => dots + 1 + y,
        Kind::Unwrap => dots - 1 - y,
    }
}

#[tactic(auto, unfolding(trace_replay::specs::Keys::key_of, crate::specs::Sizes::line_size))]
fn line_size(key: [u16; 4], node: usize, dots: usize) -> usize
    requires { (node < 256) × (dots ≤ most_dots) }
    ensures { (result ≡ line_size (key_of key) node dots) × (result ≤ most_line) }
{
    let [link, kind, x, y] = key;
    let a = width(u32::from(link)) + word_size(Kind::from(kind));
    let b = width(u32::from(x)) + width(u32::from(y));
    11 + a + b + width(node as u32) + dots
}

// Where a replay is: the packet, the bytes of its stack's text, and the bytes of the step lines so far.
#[derive(Clone, Copy)]
pub struct Tally {
    pub packet: Packet,
    pub dots: usize,
    pub size: usize,
}

impl Tally {
    // One step counted in.
    fn counted(self, net: &Network, key: [u16; 4]) -> Self
        requires { Arranged net.now × Countable net.now (key_of key) self }
        ensures { Counted net.now (key_of key) self result }
    {
        let packet = self.packet.stepped(net, key);
        let dots = dots_after(key, self.dots);
        let size = self.size + line_size(key, packet.node, dots);
        Tally { packet, dots, size }
    }
}

// The bytes of the step lines.
fn steps_size(net: &Network, steps: &Steps) -> usize
    requires { IsRoute net.now steps.now }
    ensures { result ≡ length (step_lines (hop_in net.now) (keys steps.now) (source steps.now.start)) }
{
    let mut t = Tally {
        packet: Packet::begin(steps.start),
        dots: width(steps.start.protocol as u32),
        size: 0,
    };
    for i in 0..steps.count {
        t = t.counted(net, steps.key(i));
    }
    t.size
}

// The bytes of the whole trace.
pub fn trace_length(net: &Network, steps: &Steps, weight: u32) -> usize
    requires { IsRoute net.now steps.now }
    ensures { result ≡ length (trace (hop_in net.now) steps.now.start.node steps.now.start.protocol (keys steps.now) weight) }
{
    let path = 7 + width(weight) + width(steps.count as u32);
    path + steps_size(net, steps)
}

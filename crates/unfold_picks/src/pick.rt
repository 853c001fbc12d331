// The step that is taken next: of all that pass, in the inmost level, into a tunnel or out of the level, the one of least key.
ghost use Rattle.std.specs.Prelude.{◌≡◌, ◌<◌};
ghost use Rattle.unfold_picks.specs.Contract.{Taken, Stands};
ghost use Rattle.unfold_picks.specs.Look.{nothing};

use crate::looks::{Lists, look_level, look_tunnel, record_length};
use network_records::kind::Kind;
use paper::key::step_key;
use paper::place::Place;
use unfold_exits::solved::Solved;
use unfold_frames::Record;
use unfold_tries::trial::{Spot, Step};

// No step, told by a key that comes behind every other: so one comparison serves whether a step was found before or not.
fn nothing() -> Step
    ensures { result ≡ nothing }
{
    let to = Spot {
        node: 0,
        protocol: 0,
        weight: 0,
        left: 0,
    };
    Step {
        key: step_key(65535, 3, 0, 0),
        to,
    }
}

// Level k is the inmost that is open; the route ends at `end`, of which only the contract speaks.
pub fn pick(
    solved: &Solved,
    choice: &[u16],
    end: Place,
    k: usize,
    at: Spot,
    lists: &mut Lists,
) -> Step
    requires { (0 < at.left) × Stands solved.now.net.now solved.now.tables.weight.now solved.now.tables.count.now end choice.now k at }
    ensures { Taken solved.now.net.now solved.now.tables.weight.now solved.now.tables.count.now choice.now k at result }
{
    let length = record_length(solved.net);
    let level = Record {
        choice,
        at: length * k,
    };
    let on = look_level(
        solved,
        &level,
        at,
        Kind::Conv,
        0,
        nothing(),
        &mut lists.exits,
    );
    let into = look_tunnel(solved, &level, at, on, lists);
    if k == 0 {
        return into;
    }
    let above = Record {
        choice,
        at: level.at - length,
    };
    look_level(
        solved,
        &above,
        at,
        Kind::Unwrap,
        level.hidden(),
        into,
        &mut lists.exits,
    )
}

// Level and tunnel unfolding, which call each other; what is left of the steps falls. The lists are lent, so that a tunnel's frame stays small.
ghost use Rattle.std.specs.Prelude.{◌≡◌, ◌+◌, ◌*◌, ◌≤◌, length, get_or};
ghost use Rattle.paper.specs.Rooms.{laid};
ghost use Rattle.unfold_picks.specs.Contract.{Taken};
ghost use Rattle.unfold.specs.Contract.{Asks, LevelEnsures, TunnelEnsures};

use crate::course::Course;
use network_records::kind::Kind;
use unfold_exits::solved::Solved;
use unfold_picks::looks::Lists;
use unfold_picks::opens::open;
use unfold_picks::pick::pick;
use unfold_tries::trial::{Spot, Step};

// Writes a step key as step number `done` of the step room.
fn put(steps: &mut [u16], done: usize, key: [u16; 4])
    requires { 4 * done + 4 ≤ length steps.old }
    ensures { steps.new ≡ laid steps.old (4 * done) key }
{
    steps[4 * done..4 * done + 4].copy_from_slice(&key);
}

// Unfolds the level that is open, from `at` on: its steps and tunnels, and the unwrap that closes it; at the bottom, to the route's end.
#[cycle(level_tunnel)]
pub fn level(
    solved: &Solved,
    choice: &mut [u16],
    steps: &mut [u16],
    course: Course,
    at: Spot,
    lists: &mut Lists,
) -> Spot
    requires { Asks solved.now.net.now solved.now.tables.weight.now solved.now.tables.count.now course choice.old steps.old at }
    ensures { LevelEnsures solved.now.net.now solved.now.tables.weight.now solved.now.tables.count.now course choice.old choice.new steps.old steps.new at result }
{
    let mut here = at;
    while 0 < here.left {
        let s = pick(solved, choice, course.end, course.level, here, lists);
        match Kind::from(s.key[1]) {
            Kind::Conv => {
                put(steps, usize::from(course.total - here.left), s.key);
                here = s.to;
            }
            Kind::Wrap => {
                here = tunnel(solved, choice, steps, course, here, s, lists);
            }
            Kind::Unwrap => {
                put(steps, usize::from(course.total - here.left), s.key);
                return s.to;
            }
        }
    }
    here
}

// Unfolds the tunnel that the wrap s opens from `at` in the level that is open: the wrap, the inner level and its unwrap.
#[cycle(level_tunnel)]
pub fn tunnel(
    solved: &Solved,
    choice: &mut [u16],
    steps: &mut [u16],
    course: Course,
    at: Spot,
    s: Step,
    lists: &mut Lists,
) -> Spot
    requires asks { Asks solved.now.net.now solved.now.tables.weight.now solved.now.tables.count.now course choice.old steps.old at }
    requires is_wrap { (get_or s.key 1 0 ≡ 1) × Taken solved.now.net.now solved.now.tables.weight.now solved.now.tables.count.now choice.old course.level at s }
    ensures { TunnelEnsures solved.now.net.now solved.now.tables.weight.now solved.now.tables.count.now course choice.old choice.new steps.old steps.new at result }
{
    put(steps, usize::from(course.total - at.left), s.key);
    open(solved, choice, course.end, course.level, at, s.to, lists);
    let inward = Course {
        end: course.end,
        total: course.total,
        level: course.level + 1,
    };
    level(solved, choice, steps, inward, s.to, lists)
}

// The C interface: the route enquiry and the normal writer, on numbers and lent rooms; include/mpakirovu.h says it in C.
#![tactic(auto)]

ghost use Rattle.std.specs.Prelude.{◌≡◌};
ghost use Rattle.paper.specs.File.{judge};
ghost use Rattle.paper.specs.Outcome.{outcome, rooms, Routed, told, normally};

use enquiry::route;
use file_normal::file::normal_file;
use paper::outcome::Outcome;

#[unsafe(no_mangle)]
pub extern "C" fn mpakirovu_route(
    file: &[u8],
    s: u32,
    a: u32,
    d: u32,
    b: u32,
    weight: &mut [u32],
    count: &mut [u16],
    choice: &mut [u16],
    step: &mut [u16],
    text: &mut [u8],
) -> Outcome
    ensures { Routed file.now s a d b (rooms weight.old count.old choice.old step.old text.old) (outcome result.number result.line result.weight result.steps result.length) (rooms weight.new count.new choice.new step.new text.new) }
{
    route(file, s, a, d, b, weight, count, choice, step, text)
}

#[unsafe(no_mangle)]
pub extern "C" fn mpakirovu_normal(file: &[u8], text: &mut [u8]) -> Outcome
    ensures { told (outcome result.number result.line result.weight result.steps result.length) text.new ≡ normally (judge file.now) text.old }
{
    normal_file(file, text)
}

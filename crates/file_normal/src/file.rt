// The normal writer: a network file in, its normal file out, for every file and every room.
ghost use Rattle.std.specs.Prelude.{◌≡◌, ◌≤◌, length};
ghost use Rattle.paper.specs.File.{judge};
ghost use Rattle.paper.specs.Outcome.{outcome, told, normally};
ghost use Rattle.network_records.specs.Columns.{link_room, fun_room};
ghost use Rattle.file_normal.specs.Answer.{answered};

use crate::lines::write_normal;
use file_read::read;
use network_records::{FUN_ROOM, LINK_ROOM};
use paper::fault::Refusal;
use paper::outcome::Outcome;

// How long the normal file of an accepted file is, where the room holds it; the columns lent are scratch.
#[tactic(auto, using(crate::proofs::Answers::answer_refused))]
fn normal_in(
    file: &[u8],
    links: &mut [u32],
    funs: &mut [u32],
    text: &mut [u8],
) -> Result<Option<usize>, Refusal>
    requires { (link_room ≤ length links.old) × (fun_room ≤ length funs.old) }
    ensures { told (answered result) text.new ≡ normally (judge file.now) text.old }
{
    let size = read(file, links, funs)?;
    // The normal file is exactly as long as the file.
    if text.len() < file.len() {
        return Ok(None);
    }
    let length = write_normal(size, links, funs, text);
    Ok(Some(length))
}

pub fn normal_file(file: &[u8], text: &mut [u8]) -> Outcome
    ensures { told (outcome result.number result.line result.weight result.steps result.length) text.new ≡ normally (judge file.now) text.old }
{
    let mut links = [0u32; LINK_ROOM];
    let mut funs = [0u32; FUN_ROOM];
    match normal_in(file, &mut links, &mut funs, text) {
        Ok(length) => Outcome::handed_out(0, 0, length),
        Err(refusal) => Outcome::from(refusal),
    }
}

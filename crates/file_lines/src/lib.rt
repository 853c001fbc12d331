// One line of a network file, read: what it says, if it is not misshapen. The line comes without its LF.
#![tactic(auto)]

ghost use Rattle.std.specs.Prelude.{◌≡◌};
ghost use Rattle.paper.specs.Text.{number, fields};
ghost use Rattle.paper.specs.File.{kind_of, net_of, link_of, fun_of, shaped};
ghost use Rattle.file_fields.specs.Fields.{field_of};
ghost use Rattle.file_lines.specs.Said.{said_of, told_kind};

use file_fields::{field_is, has_fields, number_at, numbers_at};
use network_records::kind::Kind;
use network_records::record::{Fun, Link};

// What a line says. A number above 1,000,000,000 stands as 1,000,000,001.
#[derive(Clone, Copy, Debug, PartialEq, Eq)]
pub enum Said {
    Net(u32, u32),
    Link(Link),
    Fun(Fun),
}

// The kind whose word is in field 2.
#[tactic(auto, using(crate::proofs::Words::kinds))]
fn kind_at(line: &[u8]) -> Option<Kind>
    ensures { result ≡ told_kind (kind_of (field_of line.now 2)) }
{
    if field_is(line, 2, b"conv") {
        Some(Kind::Conv)
    } else if field_is(line, 2, b"wrap") {
        Some(Kind::Wrap)
    } else if field_is(line, 2, b"unwrap") {
        Some(Kind::Unwrap)
    } else {
        None
    }
}

// A net line, by its number of fields.
#[tactic(auto, using(crate::proofs::Told::nets))]
fn net_line(line: &[u8]) -> Option<Said>
    ensures { result ≡ said_of (net_of (number (field_of line.now 1)) (number (field_of line.now 2))) }
{
    let [nodes, protocols] = numbers_at::<2>(line, 1)?;
    Some(Said::Net(nodes, protocols))
}

// A link line, by its number of fields.
#[tactic(auto, using(crate::proofs::Told::links))]
fn link_line(line: &[u8]) -> Option<Said>
    ensures { result ≡ said_of (link_of (number (field_of line.now 1)) (number (field_of line.now 2)) (number (field_of line.now 3)) (number (field_of line.now 4))) }
{
    let [number, from, to, weight] = numbers_at::<4>(line, 1)?;
    Some(Said::Link(Link {
        number,
        from,
        to,
        weight,
    }))
}

// A function's line, by its number of fields.
#[tactic(auto, using(crate::proofs::Told::funs))]
fn fun_line(line: &[u8]) -> Option<Said>
    ensures { result ≡ said_of (fun_of (number (field_of line.now 1)) (kind_of (field_of line.now 2)) (number (field_of line.now 3)) (number (field_of line.now 4)) (number (field_of line.now 5))) }
{
    let node = number_at(line, 1)?;
    let kind = kind_at(line)?;
    let [x, y, weight] = numbers_at::<3>(line, 3)?;
    Some(Said::Fun(Fun {
        node,
        kind,
        x,
        y,
        weight,
    }))
}

// What the line says: its word decides how many fields it must have, and what they are.
#[tactic(auto, using(crate::proofs::Words::shapes))]
pub fn read_line(line: &[u8]) -> Option<Said>
    ensures { result ≡ said_of (shaped (fields line.now)) }
{
    if field_is(line, 0, b"net") && has_fields(line, 3) {
        net_line(line)
    } else if field_is(line, 0, b"link") && has_fields(line, 5) {
        link_line(line)
    } else if field_is(line, 0, b"fun") && has_fields(line, 6) {
        fun_line(line)
    } else {
        None
    }
}

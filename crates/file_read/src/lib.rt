// The network file, read line by line: fault and line of a refusal, or the records in normal order, in columns.
#![tactic(auto)]

ghost use Rattle.std.specs.Prelude.{◌≡◌, List, ℕ, ◌+◌, ◌≤◌, ◌<◌, length, drop, IfOk, OnOk, MatchResult};
ghost use Rattle.paper.specs.Limits.{most_bytes};
ghost use Rattle.paper.specs.Text.{fields, lines};
ghost use Rattle.paper.specs.File.{net_fits, shaped, header, put, onward, good, from_top, judge};
ghost use Rattle.paper.specs.Faults.{number_of};
ghost use Rattle.network_records.specs.Columns.{link_room, fun_room, net_of};
ghost use Rattle.network_records.specs.Valid.{Valid};
ghost use Rattle.file_cursor.specs.Line.{Whole, Cut};
ghost use Rattle.file_read.specs.Judge.{kept_of, judged_of, refused_at, Bare, Held, Untouched, Grown, Onto};

use file_cursor::Cursor;
use file_keep::{put_fun, put_link};
use file_lines::{Said, read_line};
use network_records::Size;
use paper::fault::{Fault, Refusal};
use paper::limits::MOST_BYTES;
use paper::place::Place;

// ---- one line

#[tactic(auto, unfolding(paper::specs::File::net_fits))]
fn net_fits(nodes: usize, protocols: usize) -> bool
    ensures { result ≡ net_fits nodes protocols }
{
    (1..=Place::NODES).contains(&nodes)
        && (1..=Place::PROTOCOLS).contains(&protocols)
        && nodes * protocols <= Place::PLACES
}

// The first line.
fn read_header(line: &[u8]) -> Result<Size, Fault>
    ensures opens { (ls fs : List ℕ) → header (shaped (fields line.now)) ≡ kept_of result ls fs }
    ensures bare { IfOk result Bare }
{
    match read_line(line) {
        Some(Said::Net(nodes, protocols)) => {
            let nodes = nodes as usize;
            let protocols = protocols as usize;
            if !net_fits(nodes, protocols) {
                return Err(Fault::OutOfRange);
            }
            Ok(Size {
                nodes,
                protocols,
                links: 0,
                funs: 0,
            })
        }
        Some(Said::Link(_)) => Err(Fault::Misshapen),
        Some(Said::Fun(_)) => Err(Fault::Misshapen),
        None => Err(Fault::Misshapen),
    }
}

// A line below the first, on top of what is kept.
fn read_record(line: &[u8], size: Size, links: &mut [u32], funs: &mut [u32]) -> Result<Size, Fault>
    requires { Held size links.old funs.old }
    ensures adds { put (net_of size links.old funs.old) (shaped (fields line.now)) ≡ kept_of result links.new funs.new }
    ensures grown { IfOk result (λ z. Grown size links.old funs.old z links.new funs.new) }
{
    match read_line(line) {
        Some(Said::Link(link)) => {
            put_link(links, size, link)?;
            Ok(Size {
                links: size.links + 1,
                ..size
            })
        }
        Some(Said::Fun(fun)) => {
            put_fun(funs, size, fun)?;
            Ok(Size {
                funs: size.funs + 1,
                ..size
            })
        }
        Some(Said::Net(_, _)) => Err(Fault::Misshapen),
        None => Err(Fault::Misshapen),
    }
}

// ---- the lines, one after another

// The line at the cursor, which goes past it; each line ends in an LF.
fn take<'a>(cursor: &mut Cursor<'a>) -> Result<&'a [u8], Fault>
    ensures { MatchResult result (λ text. Whole cursor.old.file.now cursor.old.at text.now cursor.new.at × (cursor.new.file ≡ cursor.old.file)) (λ fault. (number_of fault ≡ 2) × Cut cursor.old.file.now cursor.old.at) }
{
    let line = cursor.line().ok_or(Fault::Misshapen)?;
    cursor.move_to(line.next);
    Ok(line.text)
}

fn take_header(cursor: &mut Cursor<'_>) -> Result<Size, Fault>
    requires { cursor.old.at ≡ 0 }
    ensures opens { (ls fs : List ℕ) → from_top (lines cursor.old.file.now) ≡ onward 1 (lines (drop cursor.new.at cursor.old.file.now)) (kept_of result ls fs) }
    ensures bare { IfOk result Bare }
    ensures onto { OnOk result (Onto cursor.old cursor.new) }
{
    let line = take(cursor)?;
    read_header(line)
}

fn take_record(
    cursor: &mut Cursor<'_>,
    size: Size,
    links: &mut [u32],
    funs: &mut [u32],
) -> Result<Size, Fault>
    requires { (cursor.old.at < length cursor.old.file.now) × Held size links.old funs.old }
    ensures adds { (i : ℕ) → onward i (lines (drop cursor.old.at cursor.old.file.now)) (good (net_of size links.old funs.old)) ≡ onward (i + 1) (lines (drop cursor.new.at cursor.old.file.now)) (kept_of result links.new funs.new) }
    ensures grown { IfOk result (λ z. Grown size links.old funs.old z links.new funs.new) }
    ensures onto { OnOk result (Onto cursor.old cursor.new) }
{
    let line = take(cursor)?;
    read_record(line, size, links, funs)
}

// A fault of this line refuses the file.
fn at_line(line: u32, read: Result<Size, Fault>) -> Result<Size, Refusal>
    ensures { result ≡ refused_at line read }
{
    read.map_err(|fault| Refusal { fault, line })
}

// All lines of a file.
fn read_lines(file: &[u8], links: &mut [u32], funs: &mut [u32]) -> Result<Size, Refusal>
    requires { (length file.now ≤ most_bytes) × (link_room ≤ length links.old) × (fun_room ≤ length funs.old) }
    ensures judged { judged_of result links.new funs.new ≡ from_top (lines file.now) }
    ensures held { IfOk result (λ z. Held z links.new funs.new × Untouched z links.old links.new funs.old funs.new) }
{
    let mut cursor = Cursor::new(file);
    let mut line = 1;
    let mut size = at_line(line, take_header(&mut cursor))?;
    while cursor.at < file.len() {
        line += 1;
        size = at_line(line, take_record(&mut cursor, size, links, funs))?;
    }
    Ok(size)
}

// ---- the file

// The whole file: how large the network is, or why it is refused, and at which line.
pub fn read(file: &[u8], links: &mut [u32], funs: &mut [u32]) -> Result<Size, Refusal>
    requires { (link_room ≤ length links.old) × (fun_room ≤ length funs.old) }
    ensures judged { judged_of result links.new funs.new ≡ judge file.now }
    ensures valid { IfOk result (λ z. Valid z links.new funs.new) }
    ensures untouched { IfOk result (λ z. Untouched z links.old links.new funs.old funs.new) }
{
    if MOST_BYTES < file.len() {
        return Err(Refusal {
            fault: Fault::TooLong,
            line: 0,
        });
    }
    // A file of no byte lacks its first line.
    if file.is_empty() {
        return Err(Refusal {
            fault: Fault::Misshapen,
            line: 1,
        });
    }
    read_lines(file, links, funs)
}

// One record on top of those kept, in normal order: it must be in range and not given already, and 1,024 of its kind are the most.
// A link and a function differ in each part (range, row, width, key, and the kinds, which are codes): a trait of these would hold more lines than the two functions.
#![tactic(auto)]

ghost use Rattle.std.specs.Prelude.{◌≡◌, List, ℕ, ◌+◌, OnOk};
ghost use Rattle.paper.specs.Net.{Link as NetLink, Fun as NetFun, net};
ghost use Rattle.paper.specs.File.{link_line, fun_line, link_fits, fun_fits, put};
ghost use Rattle.network_records.specs.Columns.{link_width, fun_width, link_key_width, fun_key_width, link_rows, fun_rows};
ghost use Rattle.network_records.specs.Kinds.{link_of, fun_of};
ghost use Rattle.file_keep.specs.Keep.{after, InOrder, Coded, Past};

use network_records::record::{Fun, Link};
use network_records::{FUN_KEY, LINK_KEY, Size};
use paper::fault::Fault;
use paper::limits::{MOST_NUMBER, MOST_WEIGHT};

#[tactic(auto, unfolding(paper::specs::File::link_fits))]
fn link_fits(size: Size, link: Link) -> bool
    ensures { result ≡ link_fits size.nodes (link_of link) }
{
    link.number <= MOST_NUMBER
        && (link.from as usize) < size.nodes
        && (link.to as usize) < size.nodes
        && link.weight <= MOST_WEIGHT
}

#[tactic(auto, unfolding(paper::specs::File::fun_fits))]
fn fun_fits(size: Size, fun: Fun) -> bool
    ensures { result ≡ fun_fits size.nodes size.protocols (fun_of fun) }
{
    (fun.node as usize) < size.nodes
        && (fun.x as usize) < size.protocols
        && (fun.y as usize) < size.protocols
        && fun.weight <= MOST_WEIGHT
}

// A link on top of the links of a network of this size.
pub fn put_link(links: &mut [u32], size: Size, link: Link) -> Result<(), Fault>
    requires { InOrder link_width link_key_width size.links links.old }
    ensures fault { (p : ℕ) (fs : List NetFun) → put (net size.nodes p (link_rows size.links links.old) fs) (link_line (link_of link)) ≡ after result (net size.nodes p (link_rows (size.links + 1) links.new) fs) }
    ensures kept { OnOk result (InOrder link_width link_key_width (size.links + 1) links.new) }
    ensures past { Past link_width (size.links + 1) links.old links.new }
{
    if !link_fits(size, link) {
        return Err(Fault::OutOfRange);
    }
    let row = [link.number, link.from, link.to, link.weight];
    file_rows::add(links, size.links, &row, LINK_KEY)
}

// A function on top of the functions of a network of this size.
pub fn put_fun(funs: &mut [u32], size: Size, fun: Fun) -> Result<(), Fault>
    requires { InOrder fun_width fun_key_width size.funs funs.old × Coded size.funs funs.old }
    ensures fault { (ls : List NetLink) → put (net size.nodes size.protocols ls (fun_rows size.funs funs.old)) (fun_line (fun_of fun)) ≡ after result (net size.nodes size.protocols ls (fun_rows (size.funs + 1) funs.new)) }
    ensures kept { OnOk result (InOrder fun_width fun_key_width (size.funs + 1) funs.new) }
    ensures coded { OnOk result (Coded (size.funs + 1) funs.new) }
    ensures past { Past fun_width (size.funs + 1) funs.old funs.new }
{
    if !fun_fits(size, fun) {
        return Err(Fault::OutOfRange);
    }
    let row = [fun.node, fun.kind.code(), fun.x, fun.y, fun.weight];
    file_rows::add(funs, size.funs, &row, FUN_KEY)
}

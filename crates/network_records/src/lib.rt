// A network's records in columns, read by index: how wide a record is, what it is known by, and where its numbers stand.
#![tactic(auto)]

ghost use Rattle.std.specs.Prelude.{◌≡◌, ◌+◌, ◌*◌, ◌≤◌, length};
ghost use Rattle.network_records.specs.Columns.{link_width, fun_width, number, from, to, toll, node, kind, x_of, y_of, fee};

use paper::limits::MOST_RECORDS;

pub mod kind;
pub mod record;

pub const LINK_WIDTH: usize = 4;

pub const FUN_WIDTH: usize = 5;

// A record is known by the first of its numbers: so many of a link's, of a function's.
pub const LINK_KEY: usize = 1;

pub const FUN_KEY: usize = 4;

// The columns' entries, for the most records.
pub const LINK_ROOM: usize = MOST_RECORDS * LINK_WIDTH;

pub const FUN_ROOM: usize = MOST_RECORDS * FUN_WIDTH;

// Of a link, past its number.
pub const FROM: usize = 1;

const TO: usize = 2;

const TOLL: usize = 3;

// Of a function.
pub const NODE: usize = 0;

pub const KIND: usize = 1;

pub const X: usize = 2;

const Y: usize = 3;

const FEE: usize = 4;

// How large a network is.
#[derive(Clone, Copy, Debug, PartialEq, Eq)]
pub struct Size {
    pub nodes: usize,
    pub protocols: usize,
    pub links: usize,
    pub funs: usize,
}

// Each reads one number by its name; one function over WIDTH and AT would be no plainer, since each call would spell both.
pub fn link_number(links: &[u32], i: usize) -> u32
    requires { i * link_width + link_width ≤ length links.now }
    ensures { result ≡ number links.now i }
{
    links[i * LINK_WIDTH]
}

pub fn link_from(links: &[u32], i: usize) -> usize
    requires { i * link_width + link_width ≤ length links.now }
    ensures { result ≡ from links.now i }
{
    links[i * LINK_WIDTH + FROM] as usize
}

pub fn link_to(links: &[u32], i: usize) -> usize
    requires { i * link_width + link_width ≤ length links.now }
    ensures { result ≡ to links.now i }
{
    links[i * LINK_WIDTH + TO] as usize
}

pub fn link_weight(links: &[u32], i: usize) -> u32
    requires { i * link_width + link_width ≤ length links.now }
    ensures { result ≡ toll links.now i }
{
    links[i * LINK_WIDTH + TOLL]
}

pub fn fun_node(funs: &[u32], j: usize) -> usize
    requires { j * fun_width + fun_width ≤ length funs.now }
    ensures { result ≡ node funs.now j }
{
    funs[j * FUN_WIDTH] as usize
}

pub fn fun_kind(funs: &[u32], j: usize) -> usize
    requires { j * fun_width + fun_width ≤ length funs.now }
    ensures { result ≡ kind funs.now j }
{
    funs[j * FUN_WIDTH + KIND] as usize
}

pub fn fun_x(funs: &[u32], j: usize) -> usize
    requires { j * fun_width + fun_width ≤ length funs.now }
    ensures { result ≡ x_of funs.now j }
{
    funs[j * FUN_WIDTH + X] as usize
}

pub fn fun_y(funs: &[u32], j: usize) -> usize
    requires { j * fun_width + fun_width ≤ length funs.now }
    ensures { result ≡ y_of funs.now j }
{
    funs[j * FUN_WIDTH + Y] as usize
}

pub fn fun_weight(funs: &[u32], j: usize) -> u32
    requires { j * fun_width + fun_width ≤ length funs.now }
    ensures { result ≡ fee funs.now j }
{
    funs[j * FUN_WIDTH + FEE]
}

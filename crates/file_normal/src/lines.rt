// The lines of a normal file, written from columns: the net line, a link's, a function's, and all of them.
ghost use Rattle.std.specs.Prelude.{◌≡◌, ◌+◌, ◌*◌, ◌≤◌, length};
ghost use Rattle.paper.specs.Rooms.{laid};
ghost use Rattle.paper.specs.Normal.{net_text, link_text, fun_text, texts, normal};
ghost use Rattle.network_records.specs.Columns.{link_width, fun_width, link_at, fun_at, link_rows, fun_rows, net_of};
ghost use Rattle.network_records.specs.Valid.{Valid};
ghost use Rattle.digits.specs.Write.{Holds, Wrote};

use digits::write::Writer;
use network_records::kind::Kind;
use network_records::{FUN_WIDTH, KIND, LINK_WIDTH, Size, X};

#[tactic(auto, using(crate::proofs::Parts::net_length))]
fn put_net(w: &mut Writer, n: u32, p: u32)
    requires { Holds w.old (net_text n p) }
    ensures { Wrote w.old w.new (net_text n p) }
{
    w.word(b"net");
    w.field(n);
    w.field(p);
    w.byte(b'\n');
}

// A link's fields are its numbers.
#[tactic(auto, using(crate::proofs::Parts::link_length))]
fn put_link(w: &mut Writer, links: &[u32], i: usize)
    requires { (i * link_width + link_width ≤ length links.now) × Holds w.old (link_text (link_at links.now i)) }
    ensures { Wrote w.old w.new (link_text (link_at links.now i)) }
{
    w.word(b"link");
    w.fields(&links[i * LINK_WIDTH..i * LINK_WIDTH + LINK_WIDTH]);
    w.byte(b'\n');
}

// A function's fields are its numbers, the second of them as a word.
#[tactic(auto, using(crate::proofs::Parts::fun_length))]
fn put_fun(w: &mut Writer, funs: &[u32], j: usize)
    requires { (j * fun_width + fun_width ≤ length funs.now) × Holds w.old (fun_text (fun_at funs.now j)) }
    ensures { Wrote w.old w.new (fun_text (fun_at funs.now j)) }
{
    w.word(b"fun");
    w.field(funs[j * FUN_WIDTH]);
    w.kind(Kind::from(funs[j * FUN_WIDTH + KIND]));
    w.fields(&funs[j * FUN_WIDTH + X..j * FUN_WIDTH + FUN_WIDTH]);
    w.byte(b'\n');
}

// Two loops and not one: one for both would take a closure and its contract, which is no plainer than the loop.
#[tactic(auto, using(crate::proofs::Rows::all_rows, crate::proofs::Rows::rows_wrote), unfolding(network_records::specs::Columns::link_rows))]
fn put_links(w: &mut Writer, links: &[u32], c: usize)
    requires { (c * link_width ≤ length links.now) × Holds w.old (texts link_text (link_rows c links.now)) }
    ensures { Wrote w.old w.new (texts link_text (link_rows c links.now)) }
{
    for i in 0..c {
        put_link(w, links, i);
    }
}

#[tactic(auto, using(crate::proofs::Rows::all_rows, crate::proofs::Rows::rows_wrote), unfolding(network_records::specs::Columns::fun_rows))]
fn put_funs(w: &mut Writer, funs: &[u32], d: usize)
    requires { (d * fun_width ≤ length funs.now) × Holds w.old (texts fun_text (fun_rows d funs.now)) }
    ensures { Wrote w.old w.new (texts fun_text (fun_rows d funs.now)) }
{
    for j in 0..d {
        put_fun(w, funs, j);
    }
}

#[tactic(auto, using(crate::proofs::Parts::file_length))]
fn put_network(w: &mut Writer, z: Size, links: &[u32], funs: &[u32])
    requires valid { Valid z links.now funs.now }
    requires room { Holds w.old (normal (net_of z links.now funs.now)) }
    ensures { Wrote w.old w.new (normal (net_of z links.now funs.now)) }
{
    put_net(w, z.nodes as u32, z.protocols as u32);
    put_links(w, links, z.links);
    put_funs(w, funs, z.funs);
}

// The normal file of the network, from the room's first byte on; its length is answered.
pub fn write_normal(z: Size, links: &[u32], funs: &[u32], text: &mut [u8]) -> usize
    requires valid { Valid z links.now funs.now }
    requires fits { length (normal (net_of z links.now funs.now)) ≤ length text.old }
    ensures value { result ≡ length (normal (net_of z links.now funs.now)) }
    ensures laid_in { text.new ≡ laid text.old 0 (normal (net_of z links.now funs.now)) }
{
    let mut w = Writer::new(text);
    put_network(&mut w, z, links, funs);
    w.written()
}

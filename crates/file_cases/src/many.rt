// Files too large to write out: of 65,536 bytes and one more, and with 1,024 records and one more.
ghost use Rattle.digits.specs.Write.{SameRoom};

use digits::write::{Writer, width};
use std::io;

// The text, where there is room for it.
fn text(w: &mut Writer, s: &[u8])
    ensures { SameRoom w.old w.new }
{
    if s.len() <= w.space() {
        w.word(s);
    }
}

// The text and a number, where there is room for them.
fn numbered(w: &mut Writer, s: &[u8], n: u32)
    ensures { SameRoom w.old w.new }
{
    text(w, s);
    if width(n) <= w.space() {
        w.number(n);
    }
}

fn link(w: &mut Writer, l: u32)
    ensures { SameRoom w.old w.new }
{
    numbered(w, b"link\t", l);
    text(w, b"\t255\t0\t1\n");
}

// The function that i stands for among 256 nodes and 4 pairs of two protocols.
fn function(w: &mut Writer, i: u32)
    ensures { SameRoom w.old w.new }
{
    numbered(w, b"fun\t", i / 4 % 256);
    numbered(w, b"\tconv\t", i / 2 % 2);
    numbered(w, b"\t", i % 2);
    text(w, b"\t1000000000\n");
}

// The net line, links of the numbers below c, the highest first, d functions, and one line more.
fn records(w: &mut Writer, c: u32, d: u32, more: &[u8])
    ensures { SameRoom w.old w.new }
{
    text(w, b"net\t256\t2\n");
    for l in (0..c).rev() {
        link(w, l);
    }
    for i in 0..d {
        function(w, i);
    }
    text(w, more);
}

fn sized(rt: &impl Print, name: &[u8], out: &mut [u8], n: usize) -> io::Result<()> {
    if n <= out.len() {
        crate::one(rt, name, &out[..n])?;
    }
    Ok(())
}

pub fn large(rt: &impl Print, out: &mut [u8]) -> io::Result<()> {
    out.fill(b'x');
    text(&mut Writer::new(out), b"net\t1\t1\n");
    sized(rt, b"65536 bytes", out, 65536)?;
    sized(rt, b"65537 bytes", out, 65537)
}

// The records, told.
fn counted(
    rt: &impl Print,
    name: &[u8],
    out: &mut [u8],
    c: u32,
    d: u32,
    more: &[u8],
) -> io::Result<()> {
    let mut w = Writer::new(out);
    records(&mut w, c, d, more);
    let length = w.written();
    crate::one(rt, name, &out[..length])
}

pub fn link_records(rt: &impl Print, out: &mut [u8]) -> io::Result<()> {
    counted(rt, b"1024 links", out, 1024, 0, &[0u8; 0])?;
    counted(rt, b"1025 links", out, 1024, 0, b"link\t1024\t0\t0\t0\n")?;
    counted(
        rt,
        b"1025 links, the last number used",
        out,
        1024,
        0,
        b"link\t1023\t0\t0\t0\n",
    )?;
    counted(
        rt,
        b"1025 links, the last out of range",
        out,
        1024,
        0,
        b"link\t1023\t256\t0\t0\n",
    )
}

pub fn fun_records(rt: &impl Print, out: &mut [u8]) -> io::Result<()> {
    counted(rt, b"1024 functions", out, 0, 1024, &[0u8; 0])?;
    counted(
        rt,
        b"1025 functions",
        out,
        0,
        1024,
        b"fun\t0\twrap\t0\t0\t0\n",
    )?;
    counted(
        rt,
        b"1025 functions, the last given",
        out,
        0,
        1024,
        b"fun\t255\tconv\t1\t1\t0\n",
    )?;
    counted(
        rt,
        b"1024 links and 1024 functions",
        out,
        1024,
        1024,
        &[0u8; 0],
    )?;
    counted(
        rt,
        b"1024 links and 1025 functions",
        out,
        1024,
        1024,
        b"fun\t255\tunwrap\t1\t1\t0\n",
    )
}

// Files of document 01's lists, and damaged ones, read one after another.
// A line for each: what it is, number, line, n, p, links, functions, and the rows of the rooms where they are few.
// The file `cases` holds the small ones: a name, LF, the file's bytes, the byte 30, LF.
#![tactic(auto)]

ghost use Rattle.std.specs.Prelude.{◌≤◌, ◌<◌, length};
ghost use Rattle.std.specs.Option.{IfSome};
ghost use Rattle.network_records.specs.Columns.{link_room, fun_room};

use file_fields::find;
use network_records::{FUN_ROOM, FUN_WIDTH, LINK_ROOM, LINK_WIDTH, Size};
use program_io::read_full;
use std::rt::Files;
use std::{fs, io};

mod many;

fn tell(rt: &impl Print, n: u64) -> io::Result<()> {
    rt.write_all(b"\t")?;
    rt.print(n)
}

fn tell_size(rt: &impl Print, size: Size) -> io::Result<()> {
    tell(rt, size.nodes as u64)?;
    tell(rt, size.protocols as u64)?;
    tell(rt, size.links as u64)?;
    tell(rt, size.funs as u64)
}

// How many entries n records of a width take, where they are few.
fn few_entries(n: usize, width: usize) -> usize
    requires { width ≤ 5 }
{
    if n < 16 { n * width } else { 0 }
}

// The first k entries.
fn tell_entries(rt: &impl Print, room: &[u32], k: usize) -> io::Result<()> {
    for entry in room.iter().take(k) {
        tell(rt, u64::from(*entry))?;
    }
    Ok(())
}

fn with_rooms(rt: &impl Print, file: &[u8], links: &mut [u32], funs: &mut [u32]) -> io::Result<()>
    requires { (link_room ≤ length links.old) × (fun_room ≤ length funs.old) }
{
    match file_read::read(file, links, funs) {
        Ok(size) => {
            rt.write_all(b"\t0\t0")?;
            tell_size(rt, size)?;
            tell_entries(rt, links, few_entries(size.links, LINK_WIDTH))?;
            tell_entries(rt, funs, few_entries(size.funs, FUN_WIDTH))
        }
        Err(refusal) => {
            tell(rt, u64::from(refusal.fault.number()))?;
            tell(rt, u64::from(refusal.line))?;
            rt.write_all(b"\t0\t0\t0\t0")
        }
    }
}

pub fn one(rt: &impl Print, name: &[u8], file: &[u8]) -> io::Result<()> {
    let mut links = [0u32; LINK_ROOM];
    let mut funs = [0u32; FUN_ROOM];
    rt.write_all(name)?;
    with_rooms(rt, file, &mut links, &mut funs)?;
    rt.write_all(b"\n")
}

// The first case's name and bytes, and the cases after it.
fn first_case(cases: &[u8]) -> Option<(&[u8], &[u8], &[u8])>
    ensures { IfSome result (λ case. length case.2.now < length cases.now) }
{
    let end = find(cases, b'\n')?;
    let below = &cases[end + 1..];
    let mark = find(below, 30)?;
    let others = below.get(mark + 2..)?;
    Some((&cases[..end], &below[..mark], others))
}

// The cases, one after another.
fn all(rt: &impl Print, mut cases: &[u8]) -> io::Result<()> {
    while let Some((name, file, others)) = first_case(cases) {
        one(rt, name, file)?;
        cases = others;
    }
    Ok(())
}

fn small(rt: &(impl Files + Print), room: &mut [u8]) -> io::Result<()> {
    match fs::open(rt, "cases") {
        Ok(mut file) => {
            let (n, ended) = read_full(&mut file, room);
            ended?;
            all(rt, &room[0..n])
        }
        Err(_) => Ok(()),
    }
}

fn main(rt: HostRuntime) -> io::Result<()> {
    let mut room = [0u8; 65540];
    small(&rt, &mut room)?;
    one(&rt, b"NUL", b"net\t1\x00\t1\n")?;
    one(&rt, b"NUL line", b"net\t1\t1\n\x00\n")?;
    many::large(&rt, &mut room)?;
    many::link_records(&rt, &mut room)?;
    many::fun_records(&rt, &mut room)
}

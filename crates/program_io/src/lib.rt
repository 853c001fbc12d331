// What the programs share: net.tsv is loaded, and a reply that is no trace and no normal file is written.
#![tactic(auto)]

ghost use Rattle.std.specs.Prelude.{[], ◌∷◌, ◌≤◌, ◌<◌, OnOk, take, length};
ghost use Rattle.std.specs.Io.KnownBytes.{Consumes, IsAtEnd};
ghost use Rattle.paper.specs.Text.{decimal, written};
ghost use Rattle.digits.specs.Write.{Holds, Wrote};

use digits::write::Writer;
use std::io::Read;
use std::rt::Files;
use std::{fs, io};

// As much of the input as the room holds, how much that is, and whether a read failed, which ends the reading;
// the count stands after a failed read too, so that it is no part of the Result.
pub fn read_full<R: Read>(input: &mut R, room: &mut [u8]) -> (usize, io::Result<()>)
    ensures fits { result.0 ≤ length room.new }
    ensures bytes { Consumes (R.remaining input.old) (R.remaining input.new) (take result.0 room.new) }
    ensures end { OnOk result.1 (result.0 < length room.new → IsAtEnd (R.remaining input.new)) }
{
    let mut at: usize = 0;
    while at < room.len() {
        match input.read(&mut room[at..]) {
            Ok(n) => {
                if n == 0 {
                    break;
                }
                at += n;
            }
            Err(e) => return (at, Err(e)),
        }
    }
    (at, Ok(()))
}

// As much of net.tsv as the room holds, and how much that is; a file that cannot be opened counts as an empty one,
// and of one whose reading fails counts what was read.
pub fn load_file(rt: &impl Files, room: &mut [u8]) -> usize
    ensures { result ≤ length room.new }
{
    match fs::open(rt, "net.tsv") {
        Ok(mut file) => read_full(&mut file, room).0,
        Err(_) => 0,
    }
}

// A word, an outcome's number and a line.
#[tactic(auto, using(crate::proofs::Replies::reply_length))]
fn put_reply(w: &mut Writer, word: &[u8], number: u32, line: u32)
    requires { Holds w.old (written word.now (decimal number ∷ decimal line ∷ [])) }
    ensures { Wrote w.old w.new (written word.now (decimal number ∷ decimal line ∷ [])) }
{
    w.word(word);
    w.field(number);
    w.field(line);
    w.byte(b'\n');
}

// The word has at most seven letters, so that the room holds any such line.
#[tactic(auto, using(crate::proofs::Replies::reply_fits))]
pub fn write_reply(rt: &impl Print, word: &[u8], number: u32, line: u32) -> io::Result<()>
    requires { length word.now ≤ 7 }
{
    let mut reply = [0u8; 64];
    let mut w = Writer::new(&mut reply);
    put_reply(&mut w, word, number, line);
    let length = w.written();
    rt.write_all(&reply[..length])
}

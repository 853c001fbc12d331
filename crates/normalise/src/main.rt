// Reads net.tsv and writes its normal file, or the badnet line.
#![tactic(auto)]

use file_normal::file::normal_file;
use program_io::{load_file, write_reply};
use std::io;

// The text room has the length of the longest network file, which no normal file passes.
fn normalise(rt: &impl Print, file: &[u8], text: &mut [u8]) -> io::Result<()> {
    let outcome = normal_file(file, text);
    if outcome.number != 0 {
        return write_reply(rt, b"badnet", outcome.number, outcome.line);
    }
    rt.write_all(&text[0..outcome.length])
}

fn main(rt: HostRuntime) -> io::Result<()> {
    let mut file = [0u8; 65537];
    let mut text = [0u8; 65536];
    let n = load_file(&rt, &mut file);
    normalise(&rt, &file[..n], &mut text)
}

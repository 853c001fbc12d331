// The route program: the network of net.tsv, and an answer to each line of standard input. The tables are computed once for a run.
#![tactic(auto)]

ghost use Rattle.std.specs.Prelude.{◌≤◌, length};
ghost use Rattle.paper.specs.Answers.{outcome_given};
ghost use Rattle.route.specs.Serving.{ReadyIn, RepliesIn};

use enquiry::answer::in_range;
use enquiry::load::load;
use enquiry::travel::travel;
use file_cursor::Cursor;
use network::Network;
use network::size::ROOM;
use paper::fault::Fault;
use paper::limits::MOST_BYTES;
use paper::outcome::{Denial, Found, Outcome};
use paper::place::Enquiry;
use program_asks::read_ask;
use program_io::{load_file, read_full, write_reply};
use std::io;
use tables::fill;
use tables_costs::rooms::Tables;

// The places that the program lends room for.
const PLACES: usize = 64;

// The network, and its tables where the program lends room for them.
#[derive(Clone, Copy)]
struct Served<'a> {
    net: &'a Network<'a>,
    tables: Option<Tables<'a>>,
}

// One enquiry: outside the network, without tables, or what they say.
fn enquire(
    served: &Served,
    enquiry: Enquiry,
    choice: &mut [u16],
    step: &mut [u16],
    text: &mut [u8],
) -> Result<Found, Denial>
    requires { ReadyIn served.now.net.now served.now.tables choice.old }
    ensures replies { RepliesIn served.now.net.now served.now.tables enquiry step.old text.old (outcome_given result) step.new text.new }
    ensures ready { ReadyIn served.now.net.now served.now.tables choice.new }
{
    if !in_range(served.net, enquiry) {
        return Err(Denial::OutsideNetwork);
    }
    match &served.tables {
        Some(tables) => travel(served.net, tables, enquiry, choice, step, text),
        None => Err(Denial::RoomsTooShort),
    }
}

// The answer to one input line, written out.
fn respond(
    rt: &impl Print,
    served: &Served,
    line: &[u8],
    number: u32,
    choice: &mut [u16],
    step: &mut [u16],
    text: &mut [u8],
) -> io::Result<()>
    requires { ReadyIn served.now.net.now served.now.tables choice.old }
    ensures { ReadyIn served.now.net.now served.now.tables choice.new }
{
    let Some(enquiry) = read_ask(line) else {
        return write_reply(rt, b"refused", Fault::Misshapen.number(), number);
    };
    let o = Outcome::from(enquire(served, enquiry, choice, step, text));
    if o.number != 0 {
        return write_reply(rt, b"refused", o.number, number);
    }
    rt.write_all(&text[..o.length])
}

// Every input line in turn; the last one may lack its LF, and is misshapen then.
fn serve(rt: &impl Print, served: &Served, choice: &mut [u16], input: &[u8]) -> io::Result<()>
    requires ready { ReadyIn served.now.net.now served.now.tables choice.old }
    requires input_len_bound { length input.now ≤ 65536 }
{
    let mut step = [0u16; 16384];
    let mut text = [0u8; 65536];
    let mut cursor = Cursor::new(input);
    let mut number: u32 = 0;
    while cursor.at < input.len() {
        number += 1;
        let Some(line) = cursor.line() else {
            return write_reply(rt, b"refused", Fault::Misshapen.number(), number);
        };
        respond(rt, served, line.text, number, choice, &mut step, &mut text)?;
        cursor.move_to(line.next);
    }
    Ok(())
}

// The tables of a network that the rooms hold, and then the enquiries.
fn tabulate(rt: &impl Print, net: &Network, input: &[u8]) -> io::Result<()>
    requires { length input.now ≤ 65536 }
{
    let mut weight = [0u32; 4096];
    let mut count = [0u16; 4096];
    let mut choice = [0u16; 32768];
    if PLACES < net.places() {
        let served = Served { net, tables: None };
        return serve(rt, &served, &mut choice, input);
    }
    fill(net, &mut weight, &mut count, &mut choice);
    let tables = Tables {
        weight: &weight,
        count: &count,
    };
    let served = Served {
        net,
        tables: Some(tables),
    };
    serve(rt, &served, &mut choice, input)
}

fn listen(rt: &(impl Input + Print), net: &Network) -> io::Result<()> {
    let mut input = [0u8; 65537];
    let (k, ended) = read_full(&mut rt.reader(), &mut input);
    ended?;
    if MOST_BYTES < k {
        return write_reply(rt, b"badask", Fault::TooLong.number(), 0);
    }
    tabulate(rt, net, &input[..k])
}

// The network is judged before the input is read.
fn judge(rt: &(impl Input + Print), file: &[u8]) -> io::Result<()> {
    let mut room = [0u32; ROOM];
    match load(file, &mut room) {
        Ok(()) => listen(rt, &Network::new(&room)),
        Err(refusal) => write_reply(rt, b"badnet", refusal.fault.number(), refusal.line),
    }
}

fn main(rt: HostRuntime) -> io::Result<()> {
    let mut file = [0u8; 65537];
    let n = load_file(&rt, &mut file);
    judge(&rt, &file[..n])
}

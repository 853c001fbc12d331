// One step line: the key, the node reached, and the stack after the step, bottom first.
#![tactic(auto)]

ghost use Rattle.std.specs.Prelude.{◌≡◌, ◌∷◌, ◌≤◌, length};
ghost use Rattle.paper.specs.Trace.{dotted, step_line};
ghost use Rattle.digits.specs.Write.{Holds, Wrote};
ghost use Rattle.trace_stack.specs.Items.{below};
ghost use Rattle.trace_replay.specs.Keys.{key_of};
ghost use Rattle.trace_replay.specs.Packet.{whereabouts};
ghost use Rattle.trace_stepline.specs.Texts.{cell_text, key_text, end_text, Shown};

use digits::write::Writer;
use network_records::kind::Kind;
use trace_replay::packet::Packet;

// The protocol n of cell h: all but the lowest have a dot before them.
#[tactic(auto, using(crate::proofs::Dotted::cell_lowest, crate::proofs::Dotted::cell_above))]
fn put_cell(w: &mut Writer, h: usize, n: u32)
    requires { Holds w.old (cell_text h n) }
    ensures { Wrote w.old w.new (cell_text h n) }
{
    if h > 0 {
        w.byte(b'.');
    }
    w.number(n);
}

// The cells, from the bottom up.
fn put_cells(w: &mut Writer, cells: &[u8])
    requires { Holds w.old (dotted (below cells.now (length cells.now))) }
    ensures { Wrote w.old w.new (dotted (below cells.now (length cells.now))) }
{
    for (h, cell) in cells.iter().enumerate() {
        put_cell(w, h, u32::from(*cell));
    }
}

// A tab and the stack in the lowest cells.
#[tactic(auto, using(crate::proofs::Dotted::lowest))]
fn put_stack(w: &mut Writer, cells: &[u8], height: usize)
    requires { (height ≤ length cells.now) × Holds w.old (9 ∷ dotted (below cells.now height)) }
    ensures { Wrote w.old w.new (9 ∷ dotted (below cells.now height)) }
{
    w.byte(b'\t');
    put_cells(w, &cells[..height]);
}

#[tactic(auto, using(crate::proofs::Pieces::key_size))]
fn put_key(w: &mut Writer, key: [u16; 4])
    requires { Holds w.old (key_text (key_of key)) }
    ensures { Wrote w.old w.new (key_text (key_of key)) }
{
    let [link, kind, x, y] = key;
    w.word(b"step");
    w.field(u32::from(link));
    w.kind(Kind::from(kind));
    w.field(u32::from(x));
    w.field(u32::from(y));
}

#[tactic(auto, using(crate::proofs::Pieces::end_size))]
fn put_end(w: &mut Writer, p: Packet, cells: &[u8])
    requires { Shown p cells.now × Holds w.old (end_text (whereabouts p cells.now)) }
    ensures { Wrote w.old w.new (end_text (whereabouts p cells.now)) }
{
    w.field(p.node as u32);
    put_stack(w, cells, p.height);
    w.byte(b'\n');
}

// The line of the step that brought the packet where it is, its stack in these cells.
#[tactic(auto, using(crate::proofs::Pieces::step_size))]
pub fn put_step(w: &mut Writer, key: [u16; 4], p: Packet, cells: &[u8])
    requires { Shown p cells.now × Holds w.old (step_line (key_of key) (whereabouts p cells.now)) }
    ensures { Wrote w.old w.new (step_line (key_of key) (whereabouts p cells.now)) }
{
    put_key(w, key);
    put_end(w, p, cells);
}

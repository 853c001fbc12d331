// The packet's stack: one state, altered by each step of a replay. Cells are kept bottom first.
#![tactic(auto)]

ghost use Rattle.std.specs.Prelude.{◌≡◌, [], ◌∷◌, ◌≤◌};
ghost use Rattle.network_records.specs.Kinds.{named};
ghost use Rattle.trace_stack.specs.Items.{highest, height_after, cell_of, items, acted, Ready};

use network_records::kind::Kind;

// A route of 4,096 steps has at most 2,048 tunnels open at once.
pub const HIGHEST: usize = 2049;

#[derive(Drop)]
pub struct Stack {
    pub cells: [u8; HIGHEST],
    pub height: usize,
}

impl Stack {
    // The stack that holds only p.
    #[tactic(auto, unfolding(crate::specs::Items::items, crate::specs::Items::below))]
    pub fn holding(p: u8) -> Self
        ensures { items result ≡ p ∷ [] }
    {
        let mut cells = [0; HIGHEST];
        cells[0] = p;
        Stack { cells, height: 1 }
    }

    // The step function: of the stack that is lent to it, one cell and the height are stored.
    #[tactic(auto, using(crate::proofs::Cells::cell_in, crate::proofs::Cells::stored_acted))]
    pub fn step_in(&mut self, kind: Kind, y: u8)
        requires { Ready (named kind) y self.old }
        ensures { items self.new ≡ acted (named kind) y (items self.old) }
    {
        let at = cell_of(kind, self.height);
        self.cells[at] = y;
        self.height = height_after(kind, self.height);
    }
}

// The height after one function's work.
#[tactic(auto, unfolding(crate::specs::Items::height_after))]
pub fn height_after(kind: Kind, height: usize) -> usize
    requires { (1 ≤ height) × (height ≤ highest) }
    ensures { result ≡ height_after (named kind) height }
{
    match kind {
        Kind::Conv => height,
        Kind::Wrap => height + 1,
        Kind::Unwrap => height - 1,
    }
}

// The cell of a function's outer protocol, where `above` is the cell above the top: that one for wrap, else the top.
#[tactic(auto, unfolding(crate::specs::Items::cell_of))]
fn cell_of(kind: Kind, above: usize) -> usize
    requires { 1 ≤ above }
    ensures { result ≡ cell_of (named kind) above }
{
    match kind {
        Kind::Wrap => above,
        Kind::Conv | Kind::Unwrap => above - 1,
    }
}

// The records of the open levels in the choice room: one is written blank, its places are marked one by one, and its entries are read.
#![tactic(auto)]

ghost use Rattle.std.specs.Prelude.{◌≡◌, [], ◌∷◌, ◌+◌, ◌*◌, ◌/◌, ◌%◌, ◌^◌, ◌<◌, ◌≤◌, length, get_or, replicate};
ghost use Rattle.paper.specs.Rooms.{laid};
ghost use Rattle.unfold_frames.specs.Frames.{words_for, bit, blank, mark, with_mark};

// The words that hold a bit for each of `size` places.
pub fn words_for(size: usize) -> usize
    requires { size ≤ 1024 }
    ensures { (result ≡ words_for size) × (result ≤ 64) }
{
    (size + 15) / 16
}

// The record of a level that is read: it begins at entry `at` of the choice room.
#[derive(Clone, Copy)]
pub struct Record<'a> {
    pub choice: &'a [u16],
    pub at: usize,
}

impl<'a> Record<'a> {
    // The number of the place where its level begins.
    pub fn place(&self) -> usize
        requires { self.now.at < length self.now.choice.now }
        ensures { (result ≡ get_or self.now.choice.now self.now.at 0) × (result < 65536) }
    {
        usize::from(self.choice[self.at])
    }

    // The protocol that its level hides.
    pub fn hidden(&self) -> usize
        requires { self.now.at + 1 < length self.now.choice.now }
        ensures { (result ≡ get_or self.now.choice.now (self.now.at + 1) 0) × (result < 65536) }
    {
        usize::from(self.choice[self.at + 1])
    }

    // The weight left at the beginning of its level, and the steps.
    pub fn weight_left(&self) -> u32
        requires { self.now.at + 5 ≤ length self.now.choice.now }
        ensures { result ≡ get_or self.now.choice.now (self.now.at + 2) 0 + 65536 * get_or self.now.choice.now (self.now.at + 3) 0 }
    {
        u32::from(self.choice[self.at + 2]) + 65536 * u32::from(self.choice[self.at + 3])
    }

    pub fn steps_left(&self) -> u16
        requires { self.now.at + 5 ≤ length self.now.choice.now }
        ensures { result ≡ get_or self.now.choice.now (self.now.at + 4) 0 }
    {
        self.choice[self.at + 4]
    }

    // Word q of its marks.
    pub fn word(&self, q: usize) -> u16
        requires { self.now.at + 5 + q < length self.now.choice.now }
        ensures { result ≡ get_or self.now.choice.now (self.now.at + 5 + q) 0 }
    {
        self.choice[self.at + 5 + q]
    }

    // Whether place e, one of `size`, is marked.
    pub fn is_marked(&self, size: usize, e: usize) -> bool
        requires { (self.now.at + 5 + words_for size ≤ length self.now.choice.now) × (e < size) }
        ensures { result ≡ mark (words_for size) self.now.choice.now self.now.at e }
    {
        has_bit(self.word(e / 16), (e % 16) as u16)
    }
}

// Whether digit b of a word is set.
#[tactic(auto, unfolding(crate::specs::Frames::bit))]
pub fn has_bit(word: u16, b: u16) -> bool
    requires { b < 16 }
    ensures { result ≡ bit word b }
{
    (word >> b) % 2 == 1
}

// Lays m zeros over the room from entry o on.
pub fn clear(choice: &mut [u16], o: usize, m: usize)
    requires { o + m ≤ length choice.old }
    ensures { choice.new ≡ laid choice.old o (replicate m 0) }
{
    choice[o..o + m].fill(0);
}

fn head(choice: &mut [u16], o: usize, place: u16, hidden: u16, weight: u32, steps: u16)
    requires { o + 5 ≤ length choice.old }
    ensures { choice.new ≡ laid choice.old o (place ∷ hidden ∷ weight % 65536 ∷ weight / 65536 ∷ steps ∷ []) }
{
    let low = (weight % 65536) as u16;
    let high = (weight / 65536) as u16;
    choice[o..o + 5].copy_from_slice(&[place, hidden, low, high, steps]);
}

// A record with no place marked, from entry o on.
pub fn begin(
    choice: &mut [u16],
    o: usize,
    words: usize,
    place: u16,
    hidden: u16,
    weight: u32,
    steps: u16,
)
    requires { o + 5 + words ≤ length choice.old }
    ensures { choice.new ≡ laid choice.old o (blank words place hidden weight steps) }
{
    head(choice, o, place, hidden, weight, steps);
    clear(choice, o + 5, words);
}

// Marks place i in the record that begins at entry o.
pub fn add_mark(choice: &mut [u16], o: usize, i: usize)
    requires { o + 5 + i / 16 < length choice.old }
    ensures { choice.new ≡ with_mark choice.old o i }
{
    let at = o + 5 + i / 16;
    choice[at] = choice[at] | power(i % 16);
}

fn power(b: usize) -> u16
    requires { b < 16 }
    ensures { result ≡ 2 ^ b }
{
    1 << b
}

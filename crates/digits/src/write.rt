// Bytes, words, numbers and fields, written straight into a room, one after another.
ghost use Rattle.std.specs.Prelude.{◌≡◌, [], ◌∷◌, map, ◌+◌, ◌≤◌, ◌<◌, length};
ghost use Rattle.paper.specs.Text.{decimal, tabbed};
ghost use Rattle.paper.specs.Normal.{kind_word};
ghost use Rattle.network_records.specs.Kinds.{named};
ghost use Rattle.digits.specs.Digits.{digit_byte};

use crate::tens::ten;
use network_records::kind::Kind;

// The count of n's digits.
#[tactic(auto, using(crate::proofs::Digits::digit_count))]
pub fn width(n: u32) -> usize
    ensures value { result ≡ length (decimal n) }
    ensures lower_bound { (1 ≤ result) × (result ≤ 10) }
{
    for w in 1..10 {
        if n < ten(w) {
            return w;
        }
    }
    10
}

// The digit of n at the power 10 ^ k, as a byte.
#[tactic(auto, using(crate::proofs::Digits::ten_power_pos), unfolding(crate::specs::Digits::digit_byte))]
fn digit(n: u32, k: usize) -> u8
    requires { k < 10 }
    ensures { result ≡ digit_byte n k }
{
    (48 + n / ten(k) % 10) as u8
}

// A room that is written from its front on: the next byte goes to entry `at`, which is never past the room's end.
#[derive(Drop)]
pub struct Writer<'a> {
    out: &'a mut [u8],
    at: usize,
    ghost within: { at ≤ length out.now },
}

impl<'a> Writer<'a> {
    ghost use Rattle.digits.specs.Write.{Wrote, Holds};

    pub fn new(out: &'a mut [u8]) -> Writer<'a>
        ensures room { result.out.ghost_name ≡ out.entry.ghost_name }
        ensures empty { (result.out.now ≡ out.old) × (result.at ≡ 0) }
    {
        Writer { out, at: 0 }
    }

    // How many bytes are written.
    pub fn written(&self) -> usize
        ensures value { result ≡ self.now.at }
        ensures within { result ≤ length self.now.out.now }
    {
        self.at
    }

    // How many bytes still have room.
    pub fn space(&self) -> usize
        ensures { self.now.at + result ≡ length self.now.out.now }
    {
        self.out.len() - self.at
    }

    pub fn byte(&mut self, b: u8)
        requires { Holds self.old (b ∷ []) }
        ensures { Wrote self.old self.new (b ∷ []) }
    {
        self.out[self.at] = b;
        self.at += 1;
    }

    #[tactic(auto, using(crate::proofs::Writing::word_put))]
    pub fn word(&mut self, word: &[u8])
        requires { Holds self.old word.now }
        ensures { Wrote self.old self.new word.now }
    {
        let end = self.at + word.len();
        self.out[self.at..end].copy_from_slice(word);
        self.at = end;
    }

    // The highest digit first.
    #[tactic(auto, using(crate::proofs::Writing::number_leaves, crate::proofs::Writing::number_wrote, crate::proofs::Digits::length_digits))]
    pub fn number(&mut self, n: u32)
        requires { Holds self.old (decimal n) }
        ensures { Wrote self.old self.new (decimal n) }
    {
        for k in (0..width(n)).rev() {
            self.byte(digit(n, k));
        }
    }

    // A tab and a number.
    #[tactic(auto, using(crate::proofs::Writing::byte_then))]
    pub fn field(&mut self, n: u32)
        requires { Holds self.old (9 ∷ decimal n) }
        ensures { Wrote self.old self.new (9 ∷ decimal n) }
    {
        self.byte(b'\t');
        self.number(n);
    }

    // A tab and a word.
    #[tactic(auto, using(crate::proofs::Writing::byte_then))]
    pub fn word_field(&mut self, word: &[u8])
        requires { Holds self.old (9 ∷ word.now) }
        ensures { Wrote self.old self.new (9 ∷ word.now) }
    {
        self.byte(b'\t');
        self.word(word);
    }

    // The numbers, each with a tab before it.
    #[tactic(auto, using(crate::proofs::Writing::field_room, crate::proofs::Writing::fields_wrote))]
    pub fn fields(&mut self, numbers: &[u32])
        requires { Holds self.old (tabbed (map decimal numbers.now)) }
        ensures { Wrote self.old self.new (tabbed (map decimal numbers.now)) }
    {
        for n in numbers {
            self.field(*n);
        }
    }

    // A tab and the kind's word.
    #[tactic(auto, unfolding(paper::specs::Normal::kind_word, paper::specs::Text::conv_word, paper::specs::Text::wrap_word, paper::specs::Text::unwrap_word))]
    pub fn kind(&mut self, kind: Kind)
        requires { Holds self.old (9 ∷ kind_word (named kind)) }
        ensures { Wrote self.old self.new (9 ∷ kind_word (named kind)) }
    {
        match kind {
            Kind::Conv => self.word_field(b"conv"),
            Kind::Wrap => self.word_field(b"wrap"),
            Kind::Unwrap => self.word_field(b"unwrap"),
        }
    }
}

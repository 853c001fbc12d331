// The fields of a line, which has no LF, by their number; the word is field 0.
#![tactic(auto)]

ghost use Rattle.std.specs.Prelude.{◌≡◌, ◌∷◌, ◌==◌, ◌+◌, ◌≤◌, ◌<◌, eqb, length, drop, position, slice_get};
ghost use Rattle.std.specs.Option.{option_copied, option_map};
ghost use Rattle.paper.specs.Text.{number, fields, same};
ghost use Rattle.digits.specs.Read.{told};
ghost use Rattle.file_fields.specs.Fields.{field_of, left, numbers};

use digits::read::read_number;

// Where the byte first stands.
pub fn find(bytes: &[u8], c: u8) -> Option<usize>
    ensures { result ≡ position (λ b. b == c) bytes.now }
{
    bytes.iter().position(|byte| *byte == c)
}

// The first field, and the line behind its tab, if it has one.
fn cut(line: &[u8]) -> (&[u8], Option<&[u8]>)
    ensures { fields line.now ≡ result.0.now ∷ left result.1 }
{
    match find(line, b'\t') {
        Some(end) => (&line[..end], Some(&line[end + 1..])),
        None => (line, None),
    }
}

// The line from field k on, if it has so many.
fn from_field(line: &[u8], k: usize) -> Option<&[u8]>
    ensures { left result ≡ drop k (fields line.now) }
{
    let mut rest = Some(line);
    for _ in 0..k {
        rest = cut(rest?).1;
    }
    rest
}

// Field k, if the line has so many.
fn field(line: &[u8], k: usize) -> Option<&[u8]>
    ensures { option_copied result ≡ slice_get (fields line.now) k }
{
    let rest = from_field(line, k)?;
    Some(cut(rest).0)
}

// Whether the line has just k fields: none does without one, and what stands behind the k-th need not be read.
pub fn has_fields(line: &[u8], k: usize) -> bool
    ensures { result ≡ eqb (length (fields line.now)) k }
{
    if k == 0 {
        return false;
    }
    match from_field(line, k - 1) {
        Some(last) => cut(last).1.is_none(),
        None => false,
    }
}

// The number in field k.
#[tactic(auto, using(crate::proofs::Parts::numbers_there))]
pub fn number_at(line: &[u8], k: usize) -> Option<u32>
    ensures { result ≡ told (number (field_of line.now k)) }
{
    read_number(field(line, k)?)
}

// The numbers in field k and on, into all of out, if each of them is one: the line is cut once, however many are asked for.
pub fn gather(line: &[u8], k: usize, out: &mut [u32]) -> Option<()>
    ensures { option_map (λ _. out.new) result ≡ numbers line.now k (length out.old) }
{
    let mut rest = from_field(line, k);
    for i in 0..out.len() {
        let (part, behind) = cut(rest?);
        out[i] = read_number(part)?;
        rest = behind;
    }
    Some(())
}

// The numbers in field k and on, as many as asked for, if each of them is one.
pub fn numbers_at<const K: usize>(line: &[u8], k: usize) -> Option<[u32; K]>
    requires { k + K ≤ 6 }
    ensures { result ≡ numbers line.now k K }
{
    let mut out = [0; K];
    gather(line, k, &mut out)?;
    Some(out)
}

// Whether field k is the word, which is not empty.
pub fn field_is(line: &[u8], k: usize, word: &[u8]) -> bool
    requires { 0 < length word.now }
    ensures { result ≡ same (field_of line.now k) word.now }
{
    field(line, k) == Some(word)
}

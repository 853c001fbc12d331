// A number, read from its bytes: of any length, since its value is cut down as it grows.
ghost use Rattle.std.specs.Prelude.{◌≡◌, ◌+◌, ◌*◌, ◌≤◌};
ghost use Rattle.paper.specs.Text.{number};
ghost use Rattle.digits.specs.Read.{few, told, told_from, digit_of};

// Stands for every number above 1,000,000,000, which no range of the file reaches.
const LARGE: u64 = 1000000001;

// The value with one digit more, cut down.
fn more(value: u32, digit: u32) -> u32
    requires { (value ≤ 1000000001) × (digit ≤ 9) }
    ensures { (result ≡ few (value * 10 + digit)) × (result ≤ 1000000001) }
{
    (u64::from(value) * 10 + u64::from(digit)).min(LARGE) as u32
}

// The digit's value.
#[tactic(auto, unfolding(crate::specs::Read::digit_of, paper::specs::Text::digit))]
fn digit(byte: u8) -> Option<u32>
    ensures { result ≡ digit_of byte }
{
    match byte {
        b'0'..=b'9' => Some(u32::from(byte - b'0')),
        _ => None,
    }
}

// The number that digits spell, with leading zeros or none.
#[tactic(auto, using(crate::proofs::Reading::turns))]
fn read_digits(spelled: &[u8]) -> Option<u32>
    ensures { result ≡ told_from 0 spelled.now }
{
    let mut value: u32 = 0;
    for byte in spelled {
        value = more(value, digit(*byte)?);
    }
    Some(value)
}

// The number that the bytes spell, without a leading zero; one above 1,000,000,000 stands as 1,000,000,001.
#[tactic(auto, using(crate::proofs::Reading::first_byte))]
pub fn read_number(spelled: &[u8]) -> Option<u32>
    ensures { result ≡ told (number spelled.now) }
{
    match spelled {
        [] | [b'0', _, ..] => None,
        _ => read_digits(spelled),
    }
}

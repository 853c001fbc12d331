// The powers of ten that a number of 32 bits can reach, in a fixed table.
ghost use Rattle.std.specs.Prelude.{◌≡◌, ◌^◌, ◌<◌};

const TENS: [u32; 10] = [
    1, 10, 100, 1000, 10000, 100000, 1000000, 10000000, 100000000, 1000000000,
];

// The table's rule.
pub fn ten(k: usize) -> u32
    requires { k < 10 }
    ensures { result ≡ 10 ^ k }
{
    TENS[k]
}

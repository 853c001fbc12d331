// The step key: link number, kind, x, y; kinds are conv 0, wrap 1, unwrap 2.
ghost use Rattle.std.specs.Prelude.{◌≡◌, [], ◌∷◌};
ghost use Rattle.paper.specs.Net.{before};

pub fn step_key(link: u16, kind: u16, x: u16, y: u16) -> [u16; 4]
    ensures { result ≡ link ∷ kind ∷ x ∷ y ∷ [] }
{
    [link, kind, x, y]
}

// Whether a comes before b: it is smaller at the first place at which they differ.
pub fn key_before(a: [u16; 4], b: [u16; 4]) -> bool
    ensures { result ≡ before a b }
{
    for i in 0..4 {
        if a[i] != b[i] {
            return a[i] < b[i];
        }
    }
    false
}

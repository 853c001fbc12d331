// The choice room, left as zeros.
ghost use Rattle.std.specs.Prelude.{◌≡◌, ◌*◌, ◌≤◌, length, replicate};
ghost use Rattle.paper.specs.Rooms.{laid};

// Eight entries for each pair of `size` places become 0.
pub fn clear_choice(choice: &mut [u16], size: usize)
    requires { (size ≤ 1024) × (8 * (size * size) ≤ length choice.old) }
    ensures { choice.new ≡ laid choice.old 0 (replicate (8 * (size * size)) 0) }
{
    choice[..8 * (size * size)].fill(0);
}

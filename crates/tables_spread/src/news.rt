// Which rows have changed of late.
ghost use Rattle.std.specs.Prelude.{◌≡◌, ◌<◌, length, ltb, get_or};

// The stamp of each row's last change, and the stamp from which on a row counts as new.
#[derive(Clone, Copy)]
pub struct News<'a> {
    pub stamps: &'a [u32],
    pub since: u32,
}

impl News<'_> {
    // Whether row r has not changed since then.
    pub fn is_old(&self, r: usize) -> bool
        requires { r < length self.now.stamps.now }
        ensures { result ≡ ltb (get_or self.now.stamps.now r 0) self.now.since }
    {
        self.stamps[r] < self.since
    }
}

// A cursor that knows the file and its present place, and the line at a place. The functions over the cursor are thin: the work is done on the slice and the number.
#![tactic(auto)]

ghost use Rattle.std.specs.Prelude.{◌≡◌};
ghost use Rattle.std.specs.Option.{MatchOption};
ghost use Rattle.file_cursor.specs.Line.{Whole, Cut};

use file_fields::find;

// A line's text, without its LF, and where the next line starts.
#[derive(Clone, Copy)]
pub struct Line<'a> {
    pub text: &'a [u8],
    pub next: usize,
}

// The line at a place of the file, unless it lacks its LF or the file ends before it.
pub fn line_at(file: &[u8], at: usize) -> Option<Line<'_>>
    ensures { MatchOption result (Cut file.now at) (λ line. Whole file.now at line.text.now line.next) }
{
    let rest = file.get(at..)?;
    let end = find(rest, b'\n')?;
    Some(Line {
        text: &rest[..end],
        next: at + end + 1,
    })
}

#[derive(Clone, Copy)]
pub struct Cursor<'a> {
    pub file: &'a [u8],
    pub at: usize,
}

impl<'a> Cursor<'a> {
    // At the file's start.
    pub fn new(file: &'a [u8]) -> Self
        ensures { (result.file ≡ file.entry) × (result.at ≡ 0) }
    {
        Self { file, at: 0 }
    }

    // The line at its place.
    pub fn line(&self) -> Option<Line<'a>>
        ensures { MatchOption result (Cut self.now.file.now self.now.at) (λ line. Whole self.now.file.now self.now.at line.text.now line.next) }
    {
        line_at(self.file, self.at)
    }

    // To another place of its file.
    pub fn move_to(&mut self, at: usize)
        ensures { self.new ≡ record self.old { at = at } }
    {
        self.at = at;
    }
}

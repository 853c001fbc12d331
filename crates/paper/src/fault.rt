// Why a network file is refused, and at which line.
ghost use Rattle.std.specs.Prelude.{◌≡◌};
ghost use Rattle.paper.specs.Faults.{number_of};

#[derive(Clone, Copy, Debug, PartialEq, Eq)]
pub enum Fault {
    TooLong,
    Misshapen,
    OutOfRange,
    GivenAlready,
    TooMany,
}

impl Fault {
    // Its number in the outcome table.
    pub fn number(self) -> u32
        ensures { result ≡ number_of self }
    {
        match self {
            Fault::TooLong => 1,
            Fault::Misshapen => 2,
            Fault::OutOfRange => 3,
            Fault::GivenAlready => 4,
            Fault::TooMany => 5,
        }
    }
}

// The first bad line decides; a file that is too long is refused at line 0.
#[derive(Clone, Copy, Debug, PartialEq, Eq)]
pub struct Refusal {
    pub fault: Fault,
    pub line: u32,
}

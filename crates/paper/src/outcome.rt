// What an enquiry comes to, and the outcome as the C host gets it.
ghost use Rattle.std.specs.Prelude.{◌≡◌};
ghost use Rattle.paper.specs.Outcome.{outcome_of};
ghost use Rattle.paper.specs.Answers.{Tells, TellsRefusal, denial_number, handed_out};

use crate::fault::Refusal;

#[repr(C)]
#[derive(Clone, Copy)]
pub struct Outcome {
    pub number: u32,
    pub line: u32,
    pub weight: u32,
    pub steps: u32,
    pub length: usize,
}

// The best route, in the step room; its trace has this length, where it fits the text room.
#[derive(Clone, Copy, Debug, PartialEq, Eq)]
pub struct Found {
    pub weight: u32,
    pub steps: u32,
    pub length: Option<usize>,
}

// Why an enquiry of an accepted network has no route handed out.
#[derive(Clone, Copy, Debug, PartialEq, Eq)]
pub enum Denial {
    OutsideNetwork,
    RoomsTooShort,
    NoRoute,
    TooHeavy,
    TooLong,
}

impl Denial {
    // Its number in the outcome table.
    pub fn number(self) -> u32
        ensures { result ≡ denial_number self }
    {
        match self {
            Denial::OutsideNetwork => 6,
            Denial::RoomsTooShort => 7,
            Denial::NoRoute => 8,
            Denial::TooHeavy => 9,
            Denial::TooLong => 10,
        }
    }
}

impl Outcome {
    // 0 with the text's length where the text fits its room, else 11.
    pub fn handed_out(weight: u32, steps: u32, length: Option<usize>) -> Self
        ensures { outcome_of result ≡ handed_out weight steps length }
    {
        Outcome {
            number: if length.is_some() { 0 } else { 11 },
            line: 0,
            weight,
            steps,
            length: length.unwrap_or(0),
        }
    }
}

// A refusal has number and line, all else is 0.
impl From<Refusal> for Outcome {
    ghost from_gives = { TellsRefusal };

    fn from(refusal: Refusal) -> Self {
        Outcome {
            number: refusal.fault.number(),
            line: refusal.line,
            weight: 0,
            steps: 0,
            length: 0,
        }
    }
}

impl From<Result<Found, Denial>> for Outcome {
    ghost from_gives = { Tells };

    fn from(answer: Result<Found, Denial>) -> Self {
        match answer {
            Ok(found) => Outcome::handed_out(found.weight, found.steps, found.length),
            Err(denial) => Outcome {
                number: denial.number(),
                line: 0,
                weight: 0,
                steps: 0,
                length: 0,
            },
        }
    }
}

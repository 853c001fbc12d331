// What a function does to the stack; the columns and the step keys have it as its code.
ghost use Rattle.std.specs.Prelude.{◌≡◌};
ghost use Rattle.paper.specs.Net.{code};
ghost use Rattle.network_records.specs.Kinds.{named, Decodes};

#[derive(Clone, Copy, Debug, PartialEq, Eq)]
pub enum Kind {
    Conv,
    Wrap,
    Unwrap,
}

impl Kind {
    pub fn code(self) -> u32
        ensures { result ≡ code (named self) }
    {
        match self {
            Kind::Conv => 0,
            Kind::Wrap => 1,
            Kind::Unwrap => 2,
        }
    }
}

// Every number above 1 stands for unwrap.
impl From<u32> for Kind {
    ghost from_gives = { Decodes };

    #[tactic(auto, unfolding(crate::specs::Columns::kind_of_code))]
    fn from(code: u32) -> Self {
        match code {
            0 => Kind::Conv,
            1 => Kind::Wrap,
            _ => Kind::Unwrap,
        }
    }
}

impl From<u16> for Kind {
    ghost from_gives = { Decodes };

    fn from(code: u16) -> Self {
        Kind::from(u32::from(code))
    }
}

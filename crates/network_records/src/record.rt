// One record, as a line gives it; a number above 1,000,000,000 stands as 1,000,000,001.
use crate::kind::Kind;

#[derive(Clone, Copy, Debug, PartialEq, Eq)]
pub struct Link {
    pub number: u32,
    pub from: u32,
    pub to: u32,
    pub weight: u32,
}

#[derive(Clone, Copy, Debug, PartialEq, Eq)]
pub struct Fun {
    pub node: u32,
    pub kind: Kind,
    pub x: u32,
    pub y: u32,
    pub weight: u32,
}

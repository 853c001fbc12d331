// The weight and count rooms: before the first sweep, and lowered by a row.
#![tactic(auto)]

pub mod begin;
pub mod merge;

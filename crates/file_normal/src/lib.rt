// The writer of normal files.
#![tactic(auto)]

pub mod file;
pub mod lines;

// The exits of a level, each with the cost of finishing from it, and the least cost of finishing from a place over one of them.
#![tactic(auto)]

pub mod finish;
pub mod levels;
pub mod lists;
pub mod solved;
pub mod told;
pub mod tunnels;

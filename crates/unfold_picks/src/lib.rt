// The step that the unfolding takes next, and the record of a tunnel that it opens.
#![tactic(auto)]

pub mod looks;
pub mod opens;
pub mod pick;

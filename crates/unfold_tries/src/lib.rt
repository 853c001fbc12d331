// Steps under trial: of all that pass, the one of least key.
#![tactic(auto)]

pub mod funs;
mod links;
pub mod trial;

// Document 01's plain types: limits, places, step keys, faults, outcomes. Its definitions stand in specs/.
#![tactic(auto)]

pub mod fault;
pub mod key;
pub mod limits;
pub mod outcome;
pub mod place;

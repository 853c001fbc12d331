// Costs of routes: one number for what is reckoned, two entries for what the rooms hold.
#![tactic(auto)]

pub mod cost;
pub mod entry;
pub mod rooms;

// A route replayed step by step: the node that each step reaches, the stack's height there, and the weight spent.
#![tactic(auto)]

pub mod hops;
pub mod packet;
pub mod steps;

// What an accepted file means: the plan of a swap.
#![tactic(auto)]

pub mod plan;

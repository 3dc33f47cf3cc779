// A book of coins: a count for each ledger and holder.
#![tactic(auto)]

pub mod book;
pub mod ledger;

// A book of titles: the holder of each title, on each ledger.
#![tactic(auto)]

pub mod book;
pub mod ledger;
mod table;

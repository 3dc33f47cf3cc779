// The vocabulary of a swap: limits, assets, party sets, the records of a file, who holds what, what waits, and faults.
#![tactic(auto)]

pub mod assets;
pub mod faults;
pub mod limits;
pub mod records;
pub mod sets;
pub mod words;

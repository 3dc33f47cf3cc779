// Books by their meaning: four ledgers of one kind of asset, and who holds how much on each.
#![tactic(auto)]

pub mod books;
pub mod four;
pub mod kinds;
pub mod laws;
pub mod places;
pub mod refusals;

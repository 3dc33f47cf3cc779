// Mempools: transactions that wait for delivery.
#![tactic(auto)]

pub mod delivery;
pub mod oldest_first;
pub mod pace;
pub mod pool;
pub mod prompt;
pub mod refusal;
pub mod slow;
#[cfg(test)]
mod tests;

ghost use Rattle.std.specs.Prelude.{◌+◌, ◌≤◌, sum};
ghost use Rattle.swap.specs.Limits.{coin_ceiling};

use swap::limits::{MAX_LEGS, PARTIES};

pub mod calls;

// One ledger of coins: what each party and each escrow account has. Together they never have more than the ceiling.
#[derive(Clone, Copy)]
pub struct CoinLedger {
    parties: [u32; PARTIES],
    accounts: [u32; MAX_LEGS],
    ghost covered: { sum parties + sum accounts ≤ coin_ceiling },
}

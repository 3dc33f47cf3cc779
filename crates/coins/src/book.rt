ghost use Rattle.coins.specs.Coins.{coins_on};
ghost use Rattle.ledgers.specs.Calls.{Cleared};
ghost use Rattle.ledgers.specs.Rows.{stock_of};

use crate::ledger::CoinLedger;
use ledgers::four::{FourLedgers, empty_book};
use ledgers::kinds::Coins;

// A count for each ledger and holder.
pub type CoinBook = FourLedgers<CoinLedger>;

// A book without a coin.
pub fn coin_book() -> CoinBook
    ensures { Cleared (stock_of coins_on result.ledgers) }
{
    empty_book::<Coins, CoinLedger>()
}

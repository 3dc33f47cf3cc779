ghost use Rattle.titles.specs.Counts.{titles_on};
ghost use Rattle.ledgers.specs.Calls.{Cleared};
ghost use Rattle.ledgers.specs.Rows.{stock_of};

use crate::ledger::TitleLedger;
use ledgers::four::{FourLedgers, empty_book};
use ledgers::kinds::Titles;

// The holder of each title, on each ledger.
pub type TitleBook = FourLedgers<TitleLedger>;

// A book without a title.
pub fn title_book() -> TitleBook
    ensures { Cleared (stock_of titles_on result.ledgers) }
{
    empty_book::<Titles, TitleLedger>()
}

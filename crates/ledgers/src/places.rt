// Where a ledger, a party or an account stands in a table of them all. A number that none of them has is out of range.
ghost use Rattle.std.specs.Prelude.{◌≡◌, not, nat_lt, Ok};
ghost use Rattle.ledgers.specs.Calls.{refuse};
ghost use Rattle.ledgers.specs.Stocks.{is_account, is_ledger, is_party};
ghost use Rattle.ledgers.specs.declared.refusals.Refusal.TheVariants.{OutOfRange};

use crate::refusals::Refusal;
use swap::limits::{BOOK_LEDGERS, MAX_LEGS, PARTIES};

// The place of a number in a table of so many places, if the table has it.
pub fn place_in(number: usize, places: usize) -> Result<usize, Refusal>
    ensures { result ≡ refuse (not (nat_lt number places)) OutOfRange (Ok number) }
{
    if number < places {
        Ok(number)
    } else {
        Err(Refusal::OutOfRange)
    }
}

pub(crate) fn ledger_place(ledger: u8) -> Result<usize, Refusal>
    ensures { result ≡ refuse (not (is_ledger ledger)) OutOfRange (Ok ledger) }
{
    place_in(usize::from(ledger), usize::from(BOOK_LEDGERS))
}

pub fn party_place(party: u8) -> Result<usize, Refusal>
    ensures { result ≡ refuse (not (is_party party)) OutOfRange (Ok party) }
{
    place_in(usize::from(party), PARTIES)
}

pub fn account_place(account: u8) -> Result<usize, Refusal>
    ensures { result ≡ refuse (not (is_account account)) OutOfRange (Ok account) }
{
    place_in(usize::from(account), MAX_LEGS)
}

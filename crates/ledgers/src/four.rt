ghost use Rattle.std.specs.Prelude.{◌≡◌};
ghost use Rattle.ledgers.specs.Calls.{Cleared};
ghost use Rattle.ledgers.specs.Rows.{stock_of};

use crate::books::{EmptyLedger, Ledger, Ledgers};
use crate::kinds::Kind;
use crate::places::ledger_place;
use crate::refusals::Refusal;
use swap::limits::BOOK_LEDGERS;
use swap::records::Holder;

pub const LEDGERS: usize = BOOK_LEDGERS as usize;

// A book made of ledgers.
#[derive(Drop)]
pub struct FourLedgers<L> {
    ledgers: [L; LEDGERS],
}

impl<L> FourLedgers<L> {
    pub fn of(ledgers: [L; LEDGERS]) -> Self
        ensures { result.ledgers ≡ ledgers }
    {
        FourLedgers { ledgers }
    }
}

// A book of four empty ledgers.
pub fn empty_book<K: Kind, L: EmptyLedger<K> + Copy>() -> FourLedgers<L>
    ensures { Cleared (stock_of L.counts result.ledgers) }
{
    FourLedgers::of([L::empty(); LEDGERS])
}

impl<K: Kind, L: Ledger<K>> Ledgers<K> for FourLedgers<L> {
    ghost stock = { λ b. stock_of L.counts b.ledgers };

    fn clear(&mut self) {
        for ledger in self.ledgers.iter_mut() {
            ledger.clear();
        }
    }

    fn credit(&mut self, ledger: u8, party: u8, asset: u32) -> Result<(), Refusal> {
        self.ledgers[ledger_place(ledger)?].credit(party, asset)
    }

    fn deposit(&mut self, ledger: u8, party: u8, account: u8, asset: u32) -> Result<(), Refusal> {
        self.ledgers[ledger_place(ledger)?].deposit(party, account, asset)
    }

    fn release(&mut self, ledger: u8, account: u8, party: u8) -> Result<(), Refusal> {
        self.ledgers[ledger_place(ledger)?].release(account, party)
    }

    fn balance(&self, ledger: u8, holder: Holder, unit: u32) -> Result<u64, Refusal> {
        self.ledgers[ledger_place(ledger)?].balance(holder, unit)
    }
}

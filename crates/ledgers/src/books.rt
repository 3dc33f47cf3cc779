ghost use Rattle.std.specs.Prelude.{◌≡◌};
ghost use Rattle.ledgers.specs.Calls.{Cleared, Credited, Deposited, Released, Settles, Told};
ghost use Rattle.ledgers.specs.Calls.{balance_verdict, credit_verdict, credited, deposit_verdict, deposited, release_verdict, released};
ghost use Rattle.ledgers.specs.Stocks.{Counts, IsEmpty, Stock};

use crate::kinds::Kind;
use crate::refusals::Refusal;
use swap::records::Holder;

// A book: four ledgers of one kind of asset. The rest of the engine knows it by its stock alone.
// A call tells everything by number, as the rules do: ledger, party, account and asset stay parameters.
pub trait Ledgers<K: Kind> {
    ghost stock: { Self → Stock };

    // Sets every count to 0.
    fn clear(&mut self)
        ensures { Cleared (stock self.new) };

    // Adds an asset to what a party has.
    fn credit(&mut self, ledger: u8, party: u8, asset: u32) -> Result<(), Refusal>
        ensures { Credited K.rules ledger party asset (stock self.old) result (stock self.new) };

    // Moves an asset from a party to an empty escrow account.
    fn deposit(&mut self, ledger: u8, party: u8, account: u8, asset: u32) -> Result<(), Refusal>
        ensures { Deposited K.rules ledger party account asset (stock self.old) result (stock self.new) };

    // Moves all that an escrow account holds to a party.
    fn release(&mut self, ledger: u8, account: u8, party: u8) -> Result<(), Refusal>
        ensures { Released K.rules ledger account party (stock self.old) result (stock self.new) };

    // Returns one count.
    fn balance(&self, ledger: u8, holder: Holder, unit: u32) -> Result<u64, Refusal>
        ensures { Told K.rules ledger holder unit (stock self.now) result };
}

// One ledger, by its counts. Four of them make a book.
pub trait Ledger<K: Kind> {
    ghost counts: { Self → Counts };

    fn clear(&mut self)
        ensures { IsEmpty (counts self.new) };

    fn credit(&mut self, party: u8, asset: u32) -> Result<(), Refusal>
        ensures { Settles (credit_verdict K.rules party asset) (credited K.rules party asset) (counts self.old) result (counts self.new) };

    fn deposit(&mut self, party: u8, account: u8, asset: u32) -> Result<(), Refusal>
        ensures { Settles (deposit_verdict K.rules party account asset) (deposited K.rules party account asset)
            (counts self.old) result (counts self.new) };

    fn release(&mut self, account: u8, party: u8) -> Result<(), Refusal>
        ensures { Settles (release_verdict K.rules account party) (released account party) (counts self.old) result (counts self.new) };

    fn balance(&self, holder: Holder, unit: u32) -> Result<u64, Refusal>
        ensures { result ≡ balance_verdict K.rules holder unit (counts self.now) };
}

// A ledger that can begin with nothing on it.
pub trait EmptyLedger<K: Kind>: Ledger<K> {
    fn empty() -> Self
        ensures { IsEmpty (Self.counts result) };
}

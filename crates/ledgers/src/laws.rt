ghost use Rattle.std.specs.Prelude.{◌≡◌};
ghost use Rattle.ledgers.specs.Laws.{CallsAreSteps, CreditsRaiseTotals, DepositsComeBack, DepositsKeepTotals, ReleasesKeepTotals};
ghost use Rattle.ledgers.specs.Laws.{PaidThrough, SameTotals, Unmoved};

use crate::books::Ledgers;
use crate::kinds::Kind;
use crate::refusals::Refusal;

// What a call leaves is one step of the whole stock.
pub fn calls_are_steps()
    ensures { CallsAreSteps }
{}

// A deposit that is released to its payer gives back the stock.
pub fn deposits_come_back()
    ensures { DepositsComeBack }
{}

// Of the calls that change a stock, only clear and credit change a total.
pub fn totals_are_kept()
    ensures by_deposits { DepositsKeepTotals }
    ensures by_releases { ReleasesKeepTotals }
    ensures by_credits { CreditsRaiseTotals }
{}

// Pays an asset through an escrow account: from the payer into the account, and on to the receiver.
pub fn pay_through<K: Kind, B: Ledgers<K>>(
    book: &mut B,
    ledger: u8,
    payer: u8,
    account: u8,
    receiver: u8,
    asset: u32,
) -> Result<(), Refusal>
    ensures did { PaidThrough K.rules ledger payer account receiver asset (B.stock book.old) result (B.stock book.new) }
    ensures kept { SameTotals (B.stock book.old) (B.stock book.new) }
    ensures back { receiver ≡ payer → Unmoved K.rules (B.stock book.old) (B.stock book.new) }
{
    book.deposit(ledger, payer, account, asset)?;
    book.release(ledger, account, receiver)
}

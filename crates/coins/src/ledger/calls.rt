ghost use Rattle.std.specs.Prelude.{◌≡◌, ◌+◌, sum};
ghost use Rattle.coins.specs.Coins.{coins_on};
ghost use Rattle.ledgers.specs.Stocks.{total};

use crate::ledger::CoinLedger;
use ledgers::books::{EmptyLedger, Ledger};
use ledgers::kinds::Coins;
use ledgers::places::{account_place, party_place};
use ledgers::refusals::Refusal;
use swap::assets::is_coins;
use swap::limits::{COIN_CEILING, MAX_LEGS, PARTIES};
use swap::records::Holder;

impl CoinLedger {
    #[tactic(auto, using(crate::proofs::Held::total_held))]
    fn total(&self) -> u32
        ensures sums { result ≡ sum self.now.parties + sum self.now.accounts }
        ensures total { result ≡ total (coins_on self.now) 0 }
    {
        self.parties.iter().sum::<u32>() + self.accounts.iter().sum::<u32>()
    }
}

impl EmptyLedger<Coins> for CoinLedger {
    fn empty() -> Self {
        CoinLedger {
            parties: [0; PARTIES],
            accounts: [0; MAX_LEGS],
        }
    }
}

impl Ledger<Coins> for CoinLedger {
    ghost counts = { coins_on };

    fn clear(&mut self) {
        *self = CoinLedger::empty();
    }

    fn credit(&mut self, party: u8, asset: u32) -> Result<(), Refusal> {
        let party = party_place(party)?;
        if !is_coins(asset) {
            return Err(Refusal::OutOfRange);
        }
        if asset > COIN_CEILING - self.total() {
            return Err(Refusal::OverCeiling);
        }
        self.parties[party] += asset;
        Ok(())
    }

    fn deposit(&mut self, party: u8, account: u8, asset: u32) -> Result<(), Refusal> {
        let party = party_place(party)?;
        let account = account_place(account)?;
        if !is_coins(asset) {
            return Err(Refusal::OutOfRange);
        }
        if self.accounts[account] > 0 {
            return Err(Refusal::AccountTaken);
        }
        if self.parties[party] < asset {
            return Err(Refusal::TooLittle);
        }
        self.parties[party] -= asset;
        self.accounts[account] += asset;
        Ok(())
    }

    fn release(&mut self, account: u8, party: u8) -> Result<(), Refusal> {
        let account = account_place(account)?;
        let party = party_place(party)?;
        let content = self.accounts[account];
        if content == 0 {
            return Err(Refusal::AccountEmpty);
        }
        self.parties[party] += content;
        self.accounts[account] = 0;
        Ok(())
    }

    fn balance(&self, holder: Holder, unit: u32) -> Result<u64, Refusal> {
        if unit > 0 {
            return Err(Refusal::OutOfRange);
        }
        let count = match holder {
            Holder::Party(party) => self.parties[party_place(party)?],
            Holder::Escrow(account) => self.accounts[account_place(account)?],
        };
        Ok(u64::from(count))
    }
}

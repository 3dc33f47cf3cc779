ghost use Rattle.std.specs.Prelude.{◌≡◌, not, Ok};
ghost use Rattle.std.specs.List.{list_any};
ghost use Rattle.ledgers.specs.Calls.{refuse};
ghost use Rattle.ledgers.specs.declared.refusals.Refusal.TheVariants.{OutOfRange};
ghost use Rattle.swap.specs.Assets.{title_asset};
ghost use Rattle.swap.specs.declared.records.Holder.TheVariants.{Escrow};
ghost use Rattle.titles.specs.Counts.{titles_on};
ghost use Rattle.titles.specs.Titles.{held_by};

use crate::ledger::{COUNT, TitleLedger};
use crate::table::hand_over;
use ledgers::books::{EmptyLedger, Ledger};
use ledgers::kinds::Titles;
use ledgers::places::{account_place, party_place, place_in};
use ledgers::refusals::Refusal;
use swap::records::Holder;

// The place of a title on a ledger, if there is such a title.
fn title_place(title: u32) -> Result<usize, Refusal>
    ensures { result ≡ refuse (not (title_asset title)) OutOfRange (Ok title) }
{
    // usize has no `From` of u32; the check proves that `as` loses nothing
    place_in(title as usize, COUNT)
}

impl TitleLedger {
    // Does an escrow account hold a title?
    fn is_taken(&self, account: u8) -> bool
        ensures { result ≡ list_any (λ title. held_by title (Escrow account)) self.now.holders }
    {
        self.holders
            .iter()
            .any(|title| *title == Some(Holder::Escrow(account)))
    }
}

impl EmptyLedger<Titles> for TitleLedger {
    fn empty() -> Self {
        TitleLedger {
            holders: [None; COUNT],
        }
    }
}

// No table here has a line for each party or account: their places are asked for only to refuse a number that has none.
impl Ledger<Titles> for TitleLedger {
    ghost counts = { titles_on };

    fn clear(&mut self) {
        *self = TitleLedger::empty();
    }

    fn credit(&mut self, party: u8, asset: u32) -> Result<(), Refusal> {
        party_place(party)?;
        let title = title_place(asset)?;
        if self.holders[title].is_some() {
            return Err(Refusal::OverCeiling);
        }
        self.holders[title] = Some(Holder::Party(party));
        Ok(())
    }

    fn deposit(&mut self, party: u8, account: u8, asset: u32) -> Result<(), Refusal> {
        party_place(party)?;
        account_place(account)?;
        let title = title_place(asset)?;
        if self.is_taken(account) {
            return Err(Refusal::AccountTaken);
        }
        let holder = self.holders[title];
        if holder != Some(Holder::Party(party)) {
            return Err(Refusal::TooLittle);
        }
        self.holders[title] = Some(Holder::Escrow(account));
        Ok(())
    }

    fn release(&mut self, account: u8, party: u8) -> Result<(), Refusal> {
        account_place(account)?;
        party_place(party)?;
        if !self.is_taken(account) {
            return Err(Refusal::AccountEmpty);
        }
        hand_over(
            &mut self.holders,
            Holder::Escrow(account),
            Holder::Party(party),
        );
        Ok(())
    }

    fn balance(&self, holder: Holder, unit: u32) -> Result<u64, Refusal> {
        if !holder.exists() {
            return Err(Refusal::OutOfRange);
        }
        Ok(u64::from(self.holders[title_place(unit)?] == Some(holder)))
    }
}

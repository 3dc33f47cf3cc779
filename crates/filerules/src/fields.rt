// The rules on a record's own fields.
ghost use Rattle.std.specs.Prelude.{◌≡◌};
ghost use Rattle.filerules.specs.Fields.{within, terms_hold, holding_holds, leg_holds};

use swap::assets::is_asset_on;
use swap::limits::{FILE_LEDGERS, MAX_DELTA, MAX_PARTIES, MIN_PARTIES};
use swap::records::{Holding, Leg, Terms};
use swap::sets::PartySet;

// Is every party of the set one of the first `parties`?
// `PartySet::within` speaks of each member, and the rule tests one number: with `PartySet::within` alone in `terms_hold`
// no proof was found.
#[tactic(auto, using(crate::proofs::Sets::within_is))]
fn all_exist(set: PartySet, parties: u8) -> bool
    ensures { result ≡ within set.bits parties }
{
    set.within(parties)
}

pub fn terms_hold(terms: &Terms) -> bool
    ensures { result ≡ terms_hold terms.now }
{
    let parties = terms.parties;
    (MIN_PARTIES..=MAX_PARTIES).contains(&parties)
        && terms.leaders.bits != 0
        && all_exist(terms.leaders, parties)
        && all_exist(terms.outsiders, parties)
        && (1..=MAX_DELTA).contains(&terms.delta)
}

pub fn holding_holds(parties: u8, holding: &Holding) -> bool
    ensures { result ≡ holding_holds parties holding.now }
{
    holding.ledger < FILE_LEDGERS
        && holding.party < parties
        && is_asset_on(holding.ledger, holding.asset)
}

pub fn leg_holds(parties: u8, leg: &Leg) -> bool
    ensures { result ≡ leg_holds parties leg.now }
{
    leg.payer < parties
        && leg.receiver < parties
        && leg.payer != leg.receiver
        && leg.ledger < FILE_LEDGERS
        && is_asset_on(leg.ledger, leg.asset)
}

// Are the legs of a swap covered by what the parties hold?
#![tactic(auto)]

ghost use Rattle.std.specs.Prelude.{◌≡◌, ◌<◌, length, sum_by};
ghost use Rattle.std.specs.List.{list_any};
ghost use Rattle.coverage.specs.Coverage.{Uncovered, coins_of, coins_paid, is_title, names, covered};

use swap::assets::holds_coins;
use swap::records::{Holding, Leg};

// The coins of a holding, if it is the payer's of the leg, on its ledger; else 0.
fn coins_of(holding: &Holding, leg: &Leg) -> u32
    ensures { result ≡ coins_of holding.now leg.now.payer leg.now.ledger }
{
    if holding.party == leg.payer && holding.ledger == leg.ledger {
        holding.asset
    } else {
        0
    }
}

// The coins that the leg's payer holds on its ledger. The sum is wide enough for any slice.
fn coins_held(holdings: &[Holding], leg: &Leg) -> u128
    ensures { result ≡ sum_by (λ h. coins_of h leg.now.payer leg.now.ledger) holdings.now }
{
    holdings
        .iter()
        .map(|holding| u128::from(coins_of(holding, leg)))
        .sum()
}

// The coins of a leg, this one or another, if the payer of `leg` pays it on the same ledger; else 0.
// Not one function with `coins_of`: a leg names its payer, a holding its party, and a trait of both would be longer than the two.
fn coins_paid(other: &Leg, leg: &Leg) -> u32
    ensures { result ≡ coins_paid other.now leg.now.payer leg.now.ledger }
{
    if other.payer == leg.payer && other.ledger == leg.ledger {
        other.asset
    } else {
        0
    }
}

// The coins that the payer's legs among these come to, on the leg's ledger.
fn coins_owed(legs: &[Leg], leg: &Leg) -> u128
    ensures { result ≡ sum_by (λ l. coins_paid l leg.now.payer leg.now.ledger) legs.now }
{
    legs.iter()
        .map(|other| u128::from(coins_paid(other, leg)))
        .sum()
}

// Is the holding the leg's title, in its payer's hands?
fn is_title(holding: &Holding, leg: &Leg) -> bool
    ensures { result ≡ is_title holding.now leg.now.payer leg.now.ledger leg.now.asset }
{
    holding.party == leg.payer && holding.ledger == leg.ledger && holding.asset == leg.asset
}

fn holds_title(holdings: &[Holding], leg: &Leg) -> bool
    ensures { result ≡ list_any (λ h. is_title h leg.now.payer leg.now.ledger leg.now.asset) holdings.now }
{
    holdings.iter().any(|holding| is_title(holding, leg))
}

// Does a leg, this one or another, name the title of `leg`? Not one function with `is_title`, as above `coins_paid`.
fn names(other: &Leg, leg: &Leg) -> bool
    ensures { result ≡ names other.now leg.now.ledger leg.now.asset }
{
    other.ledger == leg.ledger && other.asset == leg.asset
}

// Does one of these legs name the leg's title?
fn names_title(legs: &[Leg], leg: &Leg) -> bool
    ensures { result ≡ list_any (λ l. names l leg.now.ledger leg.now.asset) legs.now }
{
    legs.iter().any(|other| names(other, leg))
}

// Is leg i covered?
fn covers(holdings: &[Holding], legs: &[Leg], i: usize) -> bool
    requires { i < length legs.now }
    ensures { result ≡ covered holdings.now legs.now i }
{
    let leg = &legs[i];
    if holds_coins(leg.ledger) {
        coins_owed(&legs[..=i], leg) <= coins_held(holdings, leg)
    } else {
        holds_title(holdings, leg) && !names_title(&legs[..i], leg)
    }
}

// The lowest leg that is not covered.
pub fn uncovered(holdings: &[Holding], legs: &[Leg]) -> Option<usize>
    ensures { Uncovered holdings.now legs.now result }
{
    (0..legs.len()).find(|i| !covers(holdings, legs, *i))
}

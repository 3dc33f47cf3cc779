// The two kinds of asset: coins on the first ledgers of a file, titles on the others.
ghost use Rattle.std.specs.Prelude.{◌≡◌};
ghost use Rattle.swap.specs.Assets.{asset_on, coin_asset, holds_coins, title_asset};

use crate::limits::{COIN_LEDGERS, MAX_COINS, TITLES};

// Does a ledger of a file hold coins? The others hold titles.
pub fn holds_coins(ledger: u8) -> bool
    ensures { result ≡ holds_coins ledger }
{
    ledger < COIN_LEDGERS
}

// Can a holding or a leg be of that many coins?
pub fn is_coins(asset: u32) -> bool
    ensures { result ≡ coin_asset asset }
{
    (1..=MAX_COINS).contains(&asset)
}

// Is there a title of that number?
pub fn is_title(asset: u32) -> bool
    ensures { result ≡ title_asset asset }
{
    asset < TITLES
}

// Can a ledger of a file hold the asset?
pub fn is_asset_on(ledger: u8, asset: u32) -> bool
    ensures { result ≡ asset_on ledger asset }
{
    if holds_coins(ledger) {
        is_coins(asset)
    } else {
        is_title(asset)
    }
}

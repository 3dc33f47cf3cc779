ghost use Rattle.std.specs.Prelude.{◌≡◌, ℕ, None, slice_index_or, IsTrue};
ghost use Rattle.titles.specs.Titles.{exists};

use swap::limits::TITLES;
use swap::records::Holder;

pub mod calls;

// places of a table that has one for each title; usize has no `From` of u32, and a constant calls no `try_from`
const COUNT: usize = TITLES as usize;

// One ledger of titles: who holds each. A title's holder is a party or an escrow account that exists.
#[derive(Clone, Copy)]
pub struct TitleLedger {
    holders: [Option<Holder>; COUNT],
    ghost held: { (title : ℕ) → IsTrue (exists (slice_index_or holders title None)) },
}

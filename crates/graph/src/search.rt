// The search for routes: depth first, over the parties that are still free.
ghost use Rattle.std.specs.Prelude.{◌≡◌, ℕ, ◌<◌, max, slice_index};
ghost use Rattle.graph.specs.Graphs.{Pays, count};
ghost use Rattle.graph.specs.Search.{Row, Merged, Besides, longer};
ghost use Rattle.swap.specs.Limits.{max_parties};

use route::ROOM;
use swap::records::Leg;
use swap::sets::PartySet;

// The parties of a swap but for those of a set.
// An array of truths and not a `PartySet`: the search sets one entry after another, and proofs read them by their places.
pub(crate) fn besides(parties: u8, out: PartySet) -> [bool; ROOM]
    ensures { Besides (count parties) out.bits result }
{
    // by `as`, since `From` knows no way from an index to a byte
    std::array::from_fn(|z| {
        let party = z as u8;
        party < parties && !out.has(party)
    })
}

// The better of two tables at each end. `further` counts without the party in front, so each of its routes gets one more.
fn merged(best: [u8; ROOM], further: [u8; ROOM]) -> [u8; ROOM]
    requires { (y : ℕ) → slice_index further y < 255 }
    ensures { Merged best further result }
{
    std::array::from_fn(|y| better(best[y], further[y]))
}

// The better of two lengths at one end, in the same way.
fn better(best: u8, further: u8) -> u8
    requires { further < 255 }
    ensures { result ≡ max best (longer further) }
{
    if further > 0 {
        best.max(further + 1)
    } else {
        best
    }
}

// For each end, the most parties on a way from x through free parties; 0 if there is no way.
#[tactic(auto, using(crate::proofs::Sizes::size_set, crate::proofs::Steps::ended))]
pub(crate) fn row(legs: &[Leg], free: [bool; ROOM], x: u8) -> [u8; ROOM]
    requires { x < max_parties }
    ensures { Row (Pays legs.now) free x result }
{
    let mut best = [0; ROOM];
    best[usize::from(x)] = 1;
    for leg in legs {
        let to = usize::from(leg.receiver);
        if leg.payer == x && to < ROOM && free[to] {
            let mut next = free;
            next[to] = false;
            best = merged(best, row(legs, next, leg.receiver));
        }
    }
    best
}

// Routes: lists of parties, one at least, none twice.
#![tactic(auto)]

use std::marker::Model;
use swap::limits::PARTIES;

mod methods;

// the most parties of a route: all of them
pub const ROOM: usize = PARTIES;

// A route: the first `len` of `parties`, and zeros behind.
// Plain numbers in an array with their count beside: no heap, and an `ArrayVec` is never `Copy`.
#[derive(Clone, Copy, Debug)]
pub struct Route {
    parties: [u8; ROOM],
    len: usize,
}

// Seen from outside a route is the list of its parties.
impl Model for Route {
    ghost use Rattle.std.specs.Prelude.{List, ℕ, length};
    ghost use Rattle.route.specs.Views.{parties_of, padded, IsRoute};

    ghost Value = { List ℕ };

    ghost view = { parties_of };

    ghost invariant = { IsRoute };

    ghost inverse = { λ parties. record { parties = padded parties; len = length parties } };
}

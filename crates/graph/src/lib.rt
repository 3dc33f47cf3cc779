// Joined routes over the legs of a swap: the longest ones, span, connection, leaderless cycles.
// Only parties that exist count: those below `parties` and below the limit. Legs of others are passed over.
#![tactic(auto)]

ghost use Rattle.std.specs.Prelude.{◌≡◌, ◌<◌, ◌≤◌, [], All, Contains, IfSome, MatchOption, nat_lt, slice_index};
ghost use Rattle.graph.specs.Graphs.{Pays, Table, Spanned, Connects, Leads};
ghost use Rattle.graph.specs.Search.{Round, Linked, Closes, Top};
ghost use Rattle.graph.specs.Sizes.{size, Paying};
ghost use Rattle.swap.specs.Limits.{max_parties};
ghost use Rattle.swap.specs.Routes.{Joined};
ghost use Rattle.swap.specs.Sets.{Exactly};

use crate::search::{besides, row};
use route::{ROOM, Route};
use swap::limits::MAX_PARTIES;
use swap::records::Leg;
use swap::sets::PartySet;

mod search;

// How many parties a swap has, and its legs.
#[derive(Clone, Copy, Debug)]
pub struct Graph<'a> {
    pub parties: u8,
    pub legs: &'a [Leg],
}

impl Graph<'_> {
    // Does x pay a leg to y?
    pub fn pays(&self, x: u8, y: u8) -> bool
        ensures { Exactly result (Pays self.now.legs.now x y) }
    {
        self.legs
            .iter()
            .any(|leg| leg.payer == x && leg.receiver == y)
    }

    // Does each party of the route but the last pay a leg to the next?
    pub fn joined(&self, route: &Route) -> bool
        ensures { Exactly result (Joined (Pays self.now.legs.now) route.now) }
    {
        let parties = route.parties();
        parties
            .iter()
            .zip(&parties[1..])
            .all(|(x, y)| self.pays(*x, *y))
    }

    // For each end, the most parties on a joined route from x; 0 if there is none.
    // A number, not an `Option`: 0 parties are on no route, and the span is the largest entry, with no case for an empty one.
    #[tactic(auto, using(crate::proofs::Statements::table))]
    pub fn longest(&self, x: u8) -> [u8; ROOM]
        ensures { Table (Paying self.now) (size self.now) x result }
    {
        let mut free = besides(self.parties, PartySet::from(0));
        let from = usize::from(x);
        if from >= ROOM || !free[from] {
            return [0; ROOM];
        }
        free[from] = false;
        row(self.legs, free, x)
    }

    // The most parties on a joined route.
    // A loop: what a table promises is a relation, and a chain of `map` and `max` keeps nothing of it for a proof.
    #[tactic(auto, using(crate::proofs::Statements::span_more, crate::proofs::Statements::span_all))]
    pub fn span(&self) -> u8
        ensures { Spanned (Paying self.now) (size self.now) result }
    {
        let mut most: u8 = 0;
        for x in 0..self.count() {
            most = most.max(top(&self.longest(x)));
        }
        most
    }

    // The lowest party that party 0 does not reach or that does not reach party 0.
    pub fn cut_off(&self) -> Option<u8>
        ensures { Connects (Paying self.now) (size self.now) result }
    {
        let there = self.longest(0);
        (0..self.count()).find(|p| !self.is_linked(&there, *p))
    }

    // Do party 0, from which `there` has the longest routes, and p reach each other?
    fn is_linked(&self, there: &[u8], p: u8) -> bool
        requires table { Table (Paying self.now) (size self.now) 0 there.now }
        requires exists { p < size self.now }
        ensures { Linked (Paying self.now) 0 p result }
    {
        leads(there, p) && leads(&self.longest(p), 0)
    }

    // The lowest party on a cycle that holds no leader.
    pub fn unled(&self, leaders: PartySet) -> Option<u8>
        ensures { Leads (Paying self.now) (size self.now) leaders.bits result }
    {
        let free = besides(self.parties, leaders);
        (0..self.count()).find(|p| round(self.legs, free, *p))
    }

    // How many parties there are: no more than the limit.
    fn count(&self) -> u8
        ensures { result ≡ size self.now }
    {
        self.parties.min(MAX_PARTIES)
    }
}

// Does a table have a route to this end?
fn leads(table: &[u8], end: u8) -> bool
    ensures { result ≡ nat_lt 0 (slice_index table.now end) }
{
    table.get(usize::from(end)).is_some_and(|len| *len > 0)
}

// The largest entry of a table, 0 if it has none.
fn top(table: &[u8]) -> u8
    ensures { Top table.now result }
{
    largest(table).unwrap_or(0)
}

// The largest entry of a table, if it has any.
fn largest(table: &[u8]) -> Option<u8>
    ensures all { MatchOption result (table.now ≡ []) (λ most. All (λ len. len ≤ most) table.now) }
    ensures some { IfSome result (Contains table.now) }
{
    table.iter().copied().max()
}

// Does a cycle of free parties go through p?
#[tactic(auto, using(crate::proofs::Statements::round_is))]
fn round(legs: &[Leg], free: [bool; ROOM], p: u8) -> bool
    requires { p < max_parties }
    ensures { Exactly result (Round (Pays legs.now) free p) }
{
    let at = usize::from(p);
    if !free[at] {
        return false;
    }
    let mut rest = free;
    rest[at] = false;
    let table = row(legs, rest, p);
    closes(legs, &table, p)
}

// Does a party that a table has a route to pay a leg to p?
fn closes(legs: &[Leg], table: &[u8], p: u8) -> bool
    ensures { Exactly result (Closes legs.now table.now p) }
{
    legs.iter()
        .any(|leg| leg.receiver == p && leads(table, leg.payer))
}

#[cfg(test)]
mod tests {
    use crate::*;
    use std::test::Fail;

    fn leg(payer: u8, receiver: u8) -> Leg {
        Leg {
            payer,
            receiver,
            ledger: 0,
            asset: 1,
        }
    }

    #[test]
    fn ring(rt: HostRuntime) -> Result<(), Fail> {
        let legs = [leg(0, 1), leg(1, 2), leg(2, 0)];
        let graph = Graph {
            parties: 3,
            legs: &legs,
        };
        assert_eq!(rt; graph.span(), 3);
        assert_eq!(rt; graph.cut_off(), None);
        assert_eq!(rt; graph.unled(PartySet { bits: 0 }), Some(0));
        let route = Route::from_parties(&[1, 2, 0]).ok_or(())?;
        assert!(rt; graph.joined(&route));
        Ok(())
    }

    #[test]
    fn star(rt: HostRuntime) {
        let legs = [
            leg(0, 1),
            leg(1, 0),
            leg(0, 2),
            leg(2, 0),
            leg(0, 3),
            leg(3, 0),
        ];
        let graph = Graph {
            parties: 4,
            legs: &legs,
        };
        assert_eq!(rt; graph.span(), 3);
        assert_eq!(rt; graph.unled(PartySet { bits: 1 }), None);
        assert_eq!(rt; graph.unled(PartySet { bits: 6 }), Some(0));
    }

    #[test]
    fn chain(rt: HostRuntime) {
        let legs = [leg(0, 1), leg(1, 2)];
        let graph = Graph {
            parties: 3,
            legs: &legs,
        };
        assert_eq!(rt; graph.cut_off(), Some(1));
    }
}

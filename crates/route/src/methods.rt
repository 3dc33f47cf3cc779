ghost use Rattle.std.specs.Prelude.{◌≡◌, ◌<◌, ◌==◌, [], ◌∷◌, length, position, if◌then◌else◌, Some, None, IsTrue, IsFalse};
ghost use Rattle.route.specs.Views.{proper, first_party, last_party, suffix};
ghost use Rattle.swap.specs.Limits.{max_parties};
ghost use Rattle.swap.specs.Routes.{mem, distinct};
ghost use Rattle.swap.specs.Sets.{Exactly};

use crate::{ROOM, Route};

impl Route {
    // The route with these parties.
    fn of(parties: &[u8]) -> Route
        requires { IsTrue (proper parties.now) }
        ensures { result ≡ parties.now }
    {
        let mut places = [0; ROOM];
        places[..parties.len()].copy_from_slice(parties);
        Route {
            parties: places,
            len: parties.len(),
        }
    }

    // The route of one party.
    pub fn alone(party: u8) -> Route
        ensures { result ≡ party ∷ [] }
    {
        Route::of(&[party])
    }

    // The route with these parties, if they can be one.
    pub fn from_parties(parties: &[u8]) -> Option<Route>
        ensures { result ≡ (if proper parties.now then Some parties.now else None) }
    {
        if parties.is_empty() || parties.len() > ROOM || !are_distinct(parties) {
            return None;
        }
        Some(Route::of(parties))
    }

    pub fn len(&self) -> usize
        ensures len { result ≡ length self.now }
        ensures proper { IsTrue (proper self.now) }
    {
        self.parties().len()
    }

    pub fn parties(&self) -> &[u8]
        ensures parties { result.now ≡ self.now }
        ensures proper { IsTrue (proper self.now) }
    {
        &self.parties[..self.len]
    }

    pub fn first(&self) -> u8
        ensures { result ≡ first_party self.now }
    {
        self.parties[0]
    }

    pub fn last(&self) -> u8
        ensures { result ≡ last_party self.now }
    {
        self.parties[self.len - 1]
    }

    pub fn contains(&self, party: u8) -> bool
        ensures { result ≡ mem party self.now }
    {
        self.parties().contains(&party)
    }

    // This route with one party more, in front.
    pub fn behind(self, party: u8) -> Route
        requires absent { IsFalse (mem party self) }
        requires room { length self < max_parties }
        ensures { result ≡ party ∷ self }
    {
        let mut parties = [party; ROOM];
        parties[1..=self.len].copy_from_slice(self.parties());
        Route::of(&parties[..=self.len])
    }

    // The part of the route from a party to its end, if the party is on it.
    pub fn tail(&self, party: u8) -> Option<Route>
        ensures { result ≡ suffix party self.now }
    {
        let place = self.place_of(party)?;
        Some(Route::of(&self.parties()[place..]))
    }

    // The place of a party on the route.
    fn place_of(&self, party: u8) -> Option<usize>
        ensures { result ≡ position (λ p. party == p) self.now }
    {
        self.parties().iter().position(|p| party == *p)
    }
}

// Two routes are the same when they have the same parties in the same order.
// By hand: a derive has no contract, and here `==` promises to be the equality of the lists.
impl PartialEq for Route {
    ghost use Rattle.std.proofs.Common.{rules};
    ghost use Rattle.std.specs.Str.{bytes_eq};
    ghost use Rattle.std.specs.Cmp.Rules.{comparing};

    ghost eq = { bytes_eq };

    ghost laws = { Prim.search (comparing, rules) };

    fn eq(&self, other: &Self) -> bool
        ensures eq { result ≡ bytes_eq self.now other.now }
        ensures same { Exactly result (self.now ≡ other.now) }
    {
        self.parties() == other.parties()
    }
}

impl Eq for Route {
    ghost use Rattle.std.proofs.Common.{rules};
    ghost use Rattle.std.specs.Cmp.Rules.{comparing};

    ghost laws = { Prim.search (comparing, rules) };
}

// Does no party stand twice?
fn are_distinct(parties: &[u8]) -> bool
    ensures { result ≡ distinct parties.now }
{
    match parties {
        [] => true,
        [first, rest @ ..] => !rest.contains(first) && are_distinct(rest),
    }
}

#[cfg(test)]
mod tests {
    use crate::Route;
    use std::test::Fail;

    #[test]
    fn tails(rt: HostRuntime) -> Result<(), Fail> {
        let route = Route::from_parties(&[2, 0, 5]).ok_or(())?;
        let tail = route.tail(0).ok_or(())?;
        assert_eq!(rt; tail.len(), 2);
        assert_eq!(rt; tail.first(), 0);
        assert_eq!(rt; tail.last(), 5);
        assert!(rt; route.tail(1).is_none());
        assert!(rt; route.contains(5) && !route.contains(3));
        assert!(rt; tail != route && route == route);
        Ok(())
    }

    #[test]
    fn refuses(rt: HostRuntime) {
        assert!(rt; Route::from_parties(&[]).is_none());
        assert!(rt; Route::from_parties(&[1, 2, 1]).is_none());
        assert!(rt; Route::from_parties(&[0, 1, 2, 3, 4, 5, 6, 7, 8]).is_none());
        assert!(rt; Route::from_parties(&[0, 1, 2, 3, 4, 5, 6, 7]).is_some());
    }
}

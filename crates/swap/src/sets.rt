ghost use Rattle.std.specs.Prelude.{◌≡◌, ℕ, ◌<◌, IsTrue};
ghost use Rattle.swap.specs.Sets.{member, Exactly};

use crate::limits::SET_BITS;

// A set of parties: party p is in it when the bit of value 2^p is set.
#[derive(Clone, Copy, PartialEq, Eq, Debug)]
pub struct PartySet {
    pub bits: u16,
}

// The set of a byte of a file.
impl From<u8> for PartySet {
    ghost from_gives = { λ byte set. set.bits ≡ byte };

    fn from(byte: u8) -> PartySet {
        PartySet {
            bits: u16::from(byte),
        }
    }
}

impl PartySet {
    pub fn has(&self, party: u8) -> bool
        ensures { result ≡ member self.now.bits party }
    {
        let bits = self.bits;
        party < SET_BITS && (bits >> party) & 1 == 1
    }

    // Is every member below `parties`?
    pub fn within(&self, parties: u8) -> bool
        ensures { Exactly result ((p : ℕ) → IsTrue (member self.now.bits p) → p < parties) }
    {
        let bits = self.bits;
        parties >= SET_BITS || bits >> parties == 0
    }
}

// What a swap file says, record by record; who holds assets; what waits for delivery.
ghost use Rattle.std.specs.Prelude.{◌≡◌};

use crate::limits::{MAX_LEGS, MAX_PARTIES};
use crate::sets::PartySet;

// The terms of a swap: how many parties, who leads, who is not bound to conform, and the delay of delivery in ticks.
#[derive(Clone, Copy, PartialEq, Eq, Debug)]
pub struct Terms {
    pub parties: u8,
    pub leaders: PartySet,
    pub outsiders: PartySet,
    pub delta: u8,
}

// What a party holds on a ledger before the swap.
#[derive(Clone, Copy, PartialEq, Eq, Debug)]
pub struct Holding {
    pub ledger: u8,
    pub party: u8,
    pub asset: u32,
}

// One payment of the swap: an asset on a ledger, from payer to receiver.
#[derive(Clone, Copy, PartialEq, Eq, Debug)]
pub struct Leg {
    pub payer: u8,
    pub receiver: u8,
    pub ledger: u8,
    pub asset: u32,
}

// Whose balance: a party's, or an escrow account's. Each leg has the account of its number.
#[derive(Clone, Copy, PartialEq, Eq, Debug)]
pub enum Holder {
    Party(u8),
    Escrow(u8),
}

impl Holder {
    ghost use Rattle.swap.specs.Holders.{is_holder};

    // Can there be such a party, or such an account?
    pub fn exists(&self) -> bool
        ensures { result ≡ is_holder self.now }
    {
        match self {
            Holder::Party(party) => *party < MAX_PARTIES,
            Holder::Escrow(account) => usize::from(*account) < MAX_LEGS,
        }
    }
}

// A transaction that waits for delivery: its number, who filed it, and the tick at which it was filed.
#[derive(Clone, Copy, PartialEq, Eq, Debug)]
pub struct Waiting {
    pub number: u32,
    pub filer: u8,
    pub tick: u32,
}

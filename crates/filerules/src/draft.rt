ghost use Rattle.std.specs.Prelude.{◌≡◌, MatchResult};
ghost use Rattle.filerules.specs.Said.{said, start, put, late, fields_hold, full, clash, held, fault_of};

use crate::fields::{holding_holds, leg_holds, terms_hold};
use records::record::{Kind, Statement};
use std::alloc::{AllocError, Global};
use swap::assets::holds_coins;
use swap::faults::Reason;
use swap::limits::{MAX_HOLDINGS, MAX_LEGS};
use swap::records::{Holding, Leg, Terms};

// What the records read so far say.
// Contracts see it through `said`. A `Model` would be no plainer: the reader of files takes the fields apart.
#[derive(Drop)]
pub struct Draft {
    // the kind byte of the last record, 0 before the first
    // a byte and no `Option<Kind>`: whoever makes a draft may say anything of what is ahead, and is answered
    pub ahead: u8,
    pub number: Option<u32>,
    pub terms: Option<Terms>,
    pub holdings: Vec<Holding>,
    pub legs: Vec<Leg>,
}

// Are both coins of one party on one ledger, or one title of one ledger?
fn clashes(before: &Holding, holding: &Holding) -> bool
    ensures { result ≡ clash before.now holding.now }
{
    before.ledger == holding.ledger
        && if holds_coins(holding.ledger) {
            before.party == holding.party
        } else {
            before.asset == holding.asset
        }
}

impl Draft {
    pub fn new(heap: Global) -> Self
        ensures { said result ≡ start }
    {
        Draft {
            ahead: 0,
            number: None,
            terms: None,
            holdings: Vec::new(heap),
            legs: Vec::new(heap),
        }
    }

    // Is the record's kind before the last one's, or is it a holding or a leg before the terms?
    fn is_late(&self, statement: &Statement) -> bool
        ensures { result ≡ late (said self.now) statement.now }
    {
        let kind = statement.kind();
        (kind as u8) < self.ahead || (kind > Kind::Terms && self.terms.is_none())
    }

    fn fields_hold(&self, statement: &Statement) -> bool
        ensures { result ≡ fields_hold (said self.now) statement.now }
    {
        // before the terms there are no parties
        let parties = self.terms.map_or(0, |terms| terms.parties);
        match statement {
            Statement::Heading(_) => true,
            Statement::Terms(terms) => terms_hold(terms),
            Statement::Holding(holding) => holding_holds(parties, holding),
            Statement::Leg(leg) => leg_holds(parties, leg),
        }
    }

    // May no more of its kind come?
    fn is_full(&self, statement: &Statement) -> bool
        ensures { result ≡ full (said self.now) statement.now }
    {
        match statement {
            Statement::Heading(_) => self.number.is_some(),
            Statement::Terms(_) => self.terms.is_some(),
            Statement::Holding(_) => self.holdings.len() >= MAX_HOLDINGS,
            Statement::Leg(_) => self.legs.len() >= MAX_LEGS,
        }
    }

    // Does an earlier holding stand for the same coins or the same title?
    fn is_held(&self, holding: &Holding) -> bool
        ensures { result ≡ held self.now.holdings.items holding.now }
    {
        self.holdings.iter().any(|before| clashes(before, holding))
    }

    // The rule that the record breaks: the one with the lowest number.
    pub fn judge(&self, statement: &Statement) -> Option<Reason>
        ensures { result ≡ fault_of (said self.now) statement.now }
    {
        if self.is_late(statement) {
            return Some(Reason::OutOfOrder);
        }
        if !self.fields_hold(statement) {
            return Some(Reason::BadField);
        }
        if self.is_full(statement) {
            return Some(Reason::TooMany);
        }
        match statement {
            Statement::Holding(holding) if self.is_held(holding) => Some(Reason::HeldTwice),
            _ => None,
        }
    }

    // Takes in one record more. If memory runs out, nothing changes.
    pub fn put(&mut self, statement: Statement) -> Result<(), AllocError>
        ensures { MatchResult result (λ _. said self.new ≡ put (said self.old) statement) (λ _. said self.new ≡ said self.old) }
    {
        let kind = statement.kind();
        match statement {
            Statement::Heading(number) => self.number = Some(number),
            Statement::Terms(terms) => self.terms = Some(terms),
            Statement::Holding(holding) => self.holdings.push(holding)?,
            Statement::Leg(leg) => self.legs.push(leg)?,
        }
        self.ahead = kind as u8;
        Ok(())
    }
}

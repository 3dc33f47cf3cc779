// The vocabulary in printed words.
use crate::assets::holds_coins;
use crate::faults::{Fault, Reason};
use crate::limits::{MAX_FILE, MAX_PARTIES};
use crate::records::{Holder, Holding, Leg, Terms, Waiting};
use crate::sets::PartySet;
use std::fmt;

// The parties of a set, lowest first, or `none`.
impl fmt::Display for PartySet {
    fn fmt<W: fmt::Write>(&self, f: &mut fmt::Formatter<W>) -> fmt::Result {
        let mut members = (0..MAX_PARTIES).filter(|party| self.has(*party));
        let Some(first) = members.next() else {
            return write!(f, "none");
        };
        write!(f, "{first}")?;
        for party in members {
            write!(f, " {party}")?;
        }
        Ok(())
    }
}

impl fmt::Display for Terms {
    fn fmt<W: fmt::Write>(&self, f: &mut fmt::Formatter<W>) -> fmt::Result {
        let Terms {
            parties,
            leaders,
            outsiders,
            delta,
        } = *self;
        write!(
            f,
            "{parties} parties, leaders {leaders}, outsiders {outsiders}, delta {delta}"
        )
    }
}

// An asset on a ledger of the file. Made only to be printed: records keep ledger and asset as two fields, as the file has them.
#[derive(Clone, Copy)]
struct Amount {
    ledger: u8,
    asset: u32,
}

impl fmt::Display for Amount {
    fn fmt<W: fmt::Write>(&self, f: &mut fmt::Formatter<W>) -> fmt::Result {
        let Amount { ledger, asset } = *self;
        if holds_coins(ledger) {
            write!(f, "{asset} coins on ledger {ledger}")
        } else {
            write!(f, "title {asset} on ledger {ledger}")
        }
    }
}

impl fmt::Display for Holding {
    fn fmt<W: fmt::Write>(&self, f: &mut fmt::Formatter<W>) -> fmt::Result {
        let Holding {
            ledger,
            party,
            asset,
        } = *self;
        let amount = Amount { ledger, asset };
        write!(f, "party {party} holds {amount}")
    }
}

impl fmt::Display for Leg {
    fn fmt<W: fmt::Write>(&self, f: &mut fmt::Formatter<W>) -> fmt::Result {
        let Leg {
            payer,
            receiver,
            ledger,
            asset,
        } = *self;
        let amount = Amount { ledger, asset };
        write!(f, "party {payer} pays party {receiver} {amount}")
    }
}

impl fmt::Display for Holder {
    fn fmt<W: fmt::Write>(&self, f: &mut fmt::Formatter<W>) -> fmt::Result {
        match self {
            Holder::Party(party) => write!(f, "party {party}"),
            Holder::Escrow(account) => write!(f, "account {account}"),
        }
    }
}

impl fmt::Display for Waiting {
    fn fmt<W: fmt::Write>(&self, f: &mut fmt::Formatter<W>) -> fmt::Result {
        let Waiting {
            number,
            filer,
            tick,
        } = *self;
        write!(f, "number {number} of party {filer}, filed at tick {tick}")
    }
}

// What is wrong, in words.
impl fmt::Display for Fault {
    fn fmt<W: fmt::Write>(&self, f: &mut fmt::Formatter<W>) -> fmt::Result {
        let Fault { reason, place } = *self;
        match reason {
            Reason::SwapHeld => write!(f, "a swap is under way"),
            Reason::FileSize => write!(f, "the file is empty or longer than {MAX_FILE} bytes"),
            Reason::UnknownKind => write!(f, "the record at byte {place} is of no known kind"),
            Reason::CutShort => write!(f, "the record at byte {place} is cut short"),
            Reason::OutOfOrder => write!(f, "the record at byte {place} is out of order"),
            Reason::BadField => write!(
                f,
                "the record at byte {place} has a field outside its range or against its rule"
            ),
            Reason::TooMany => write!(f, "the record at byte {place} is one too many of its kind"),
            Reason::HeldTwice => write!(f, "the holding at byte {place} stood before"),
            Reason::Missing => write!(
                f,
                "the file ends at byte {place} and lacks its terms or its legs"
            ),
            Reason::NotCovered => write!(f, "leg {place} is not covered by what its payer holds"),
            Reason::NotConnected => write!(
                f,
                "party {place} does not reach party 0, or party 0 does not reach it"
            ),
            Reason::NoLeader => write!(f, "party {place} is on a cycle that holds no leader"),
            Reason::NotRunning => write!(f, "at tick {place} no swap is under way"),
            Reason::NotOutsider => write!(f, "at tick {place} the filer is not an outsider"),
            Reason::JournalFull => write!(f, "at tick {place} the outsiders' lines are full"),
            Reason::BadRequest => write!(
                f,
                "at tick {place} the request names no such leg, asset or route"
            ),
        }
    }
}

ghost use Rattle.std.specs.Prelude.{◌≡◌, Some, length, MatchOption, ◌≢◌};
ghost use Rattle.records.specs.Records.{byte_of, body_size, kind_of, Formed, Holds, States};

use swap::faults::Reason;
use swap::records::{Holding, Leg, Terms};
use swap::sets::PartySet;

// The kinds of record, in the order in which a file has them, each with its kind byte.
#[derive(Clone, Copy, PartialEq, Eq, PartialOrd, Ord, Debug)]
pub enum Kind {
    Heading = 1,
    Terms = 2,
    Holding = 3,
    Leg = 4,
}

impl Kind {
    // How many bytes follow the kind byte?
    pub fn body_len(self) -> usize
        ensures { body_size (byte_of self) ≡ Some result }
    {
        match self {
            Kind::Heading | Kind::Terms => 4,
            Kind::Holding => 6,
            Kind::Leg => 7,
        }
    }
}

// The kind of a kind byte.
impl TryFrom<u8> for Kind {
    ghost use Rattle.records.specs.Records.{Decodes};

    type Error = Reason;

    ghost try_from_gives = { Decodes };

    fn try_from(byte: u8) -> Result<Kind, Reason> {
        match byte {
            1 => Ok(Kind::Heading),
            2 => Ok(Kind::Terms),
            3 => Ok(Kind::Holding),
            4 => Ok(Kind::Leg),
            _ => Err(Reason::UnknownKind),
        }
    }
}

// A record as it stands in the file, by its body.
// A body is a slice, and contracts say that it has the length of its kind: of an array no proof covers a rest as `asset @ ..`.
#[derive(Clone, Copy)]
pub enum Record<'a> {
    Heading(&'a [u8]),
    Terms(&'a [u8]),
    Holding(&'a [u8]),
    Leg(&'a [u8]),
}

// What a record states. A heading states the swap's number.
#[derive(Clone, Copy, PartialEq, Eq, Debug)]
pub enum Statement {
    Heading(u32),
    Terms(Terms),
    Holding(Holding),
    Leg(Leg),
}

impl Statement {
    pub fn kind(&self) -> Kind
        ensures { byte_of result ≡ kind_of self.now }
    {
        match self {
            Statement::Heading(_) => Kind::Heading,
            Statement::Terms(_) => Kind::Terms,
            Statement::Holding(_) => Kind::Holding,
            Statement::Leg(_) => Kind::Leg,
        }
    }
}

// The number of four bytes, the highest first.
fn number(bytes: &[u8]) -> Option<u32>
    ensures { MatchOption result (length bytes.now ≢ 4) (λ n. Holds bytes.now (Statement.Heading n)) }
{
    let bytes = <[u8; 4]>::try_from(bytes).ok()?;
    Some(u32::from_be_bytes(bytes))
}

fn terms(body: &[u8]) -> Option<Terms>
    ensures { MatchOption result (length body.now ≢ 4) (λ t. Holds body.now (Statement.Terms t)) }
{
    let [parties, leaders, outsiders, delta] = body else {
        return None;
    };
    Some(Terms {
        parties: *parties,
        leaders: PartySet::from(*leaders),
        outsiders: PartySet::from(*outsiders),
        delta: *delta,
    })
}

fn holding(body: &[u8]) -> Option<Holding>
    ensures { MatchOption result (length body.now ≢ 6) (λ h. Holds body.now (Statement.Holding h)) }
{
    let [ledger, party, asset @ ..] = body else {
        return None;
    };
    let asset = number(asset)?;
    Some(Holding {
        ledger: *ledger,
        party: *party,
        asset,
    })
}

fn leg(body: &[u8]) -> Option<Leg>
    ensures { MatchOption result (length body.now ≢ 7) (λ l. Holds body.now (Statement.Leg l)) }
{
    let [payer, receiver, ledger, asset @ ..] = body else {
        return None;
    };
    let asset = number(asset)?;
    Some(Leg {
        payer: *payer,
        receiver: *receiver,
        ledger: *ledger,
        asset,
    })
}

impl Record<'_> {
    // What the record states, where its body has the length of its kind.
    pub fn stated(&self) -> Option<Statement>
        ensures { MatchOption result (Formed self.now → ⊥) (λ s. States self.now s) }
    {
        let statement = match self {
            Record::Heading(body) => Statement::Heading(number(body)?),
            Record::Terms(body) => Statement::Terms(terms(body)?),
            Record::Holding(body) => Statement::Holding(holding(body)?),
            Record::Leg(body) => Statement::Leg(leg(body)?),
        };
        Some(statement)
    }
}

ghost use Rattle.std.specs.Prelude.{◌≡◌};
ghost use Rattle.records.specs.Reading.{Framed, Next, source, place};

use crate::reader::Reader;
use crate::record::{Kind, Record};
use swap::faults::{Fault, Reason};

// The record of that kind byte at the front of `tail`, and what follows it; `at` is the place of the kind byte.
fn framed(byte: u8, tail: &[u8], at: usize) -> Result<(Record<'_>, &[u8]), Fault>
    ensures { Framed byte tail.now at result }
{
    let Ok(kind) = Kind::try_from(byte) else {
        return Err(Reason::UnknownKind.at(at));
    };
    let Some((body, rest)) = tail.split_at_checked(kind.body_len()) else {
        return Err(Reason::CutShort.at(at));
    };
    let record = match kind {
        Kind::Heading => Record::Heading(body),
        Kind::Terms => Record::Terms(body),
        Kind::Holding => Record::Holding(body),
        Kind::Leg => Record::Leg(body),
    };
    Ok((record, rest))
}

impl<'a> Reader<'a> {
    pub fn new(bytes: &'a [u8]) -> Self
        ensures { (source result ≡ bytes.now) × (place result ≡ 0) }
    {
        Reader { bytes, at: 0 }
    }

    // The next record with the place of its kind byte; none at the end.
    // Not an `Iterator` of results, which would have to say what comes after a refusal.
    pub fn next(&mut self) -> Result<Option<(usize, Record<'a>)>, Fault>
        ensures same { source self.new ≡ source self.old }
        ensures found { Next (source self.old) (place self.old) (place self.new) result }
    {
        let at = self.at;
        let [byte, tail @ ..] = &self.bytes[at..] else {
            return Ok(None);
        };
        let (record, rest) = framed(*byte, tail, at)?;
        self.at = self.bytes.len() - rest.len();
        Ok(Some((at, record)))
    }
}

ghost use Rattle.std.specs.Prelude.{◌≡◌, ◌||◌, IfOk, ◌==◌, nat_lt};
ghost use Rattle.filerules.specs.Said.{said};
ghost use Rattle.records.specs.Records.{Formed};
ghost use Rattle.swap.specs.Limits.{max_file};
ghost use Rattle.swapfile.specs.Reads.{content_of, Taken, Finished, Reading};
ghost use Rattle.swapfile.specs.Ruled.{Ruled};

use crate::refusal::Refusal;
use filerules::draft::Draft;
use records::reader::Reader;
use records::record::Record;
use std::alloc::Global;
use swap::faults::{Fault, Reason};
use swap::limits::MAX_FILE;
use swap::records::{Holding, Leg, Terms};

// What an accepted file says.
#[derive(Drop)]
pub struct SwapFile {
    pub number: u32,
    pub terms: Terms,
    pub holdings: Vec<Holding>,
    pub legs: Vec<Leg>,
}

// Is a file of that length empty or too long?
fn is_unsized(len: usize) -> bool
    ensures { result ≡ (len == 0 || nat_lt max_file len) }
{
    !(1..=MAX_FILE).contains(&len)
}

// Takes the record at `at` into the draft, or says which rule it breaks and leaves the draft as it is.
fn take_in(draft: &mut Draft, at: usize, record: Record) -> Result<(), Refusal>
    requires { Formed «record» }
    ensures { Taken (said draft.old) at «record».entry (said draft.new) result }
{
    let statement = record.stated().unwrap();
    if let Some(reason) = draft.judge(&statement) {
        return Err(reason.at(at).into());
    }
    draft.put(statement)?;
    Ok(())
}

// What the draft says as a whole; `end` is the file's length.
fn finish(draft: Draft, end: usize) -> Result<SwapFile, Fault>
    ensures { Finished (said draft) end result }
{
    let Draft {
        number,
        terms,
        holdings,
        legs,
        ..
    } = draft;
    match terms {
        Some(terms) if !legs.is_empty() => Ok(SwapFile {
            number: number.unwrap_or(0),
            terms,
            holdings,
            legs,
        }),
        _ => Err(Reason::Missing.at(end)),
    }
}

// Reads any bytes as a swap file.
pub fn read(heap: Global, bytes: &[u8]) -> Result<SwapFile, Refusal>
    ensures answer { Reading bytes.now result }
    ensures ruled { IfOk result (λ f. Ruled (content_of f)) }
{
    if is_unsized(bytes.len()) {
        return Err(Reason::FileSize.at(0).into());
    }
    let mut reader = Reader::new(bytes);
    let mut draft = Draft::new(heap);
    while let Some((at, record)) = reader.next()? {
        take_in(&mut draft, at, record)?;
    }
    Ok(finish(draft, bytes.len())?)
}

#[cfg(test)]
mod tests {
    use super::*;
    use std::test::Fail;

    // terms; two holdings; two legs
    const PLAIN: [u8; 35] = *b"\x02\x02\x01\x00\x01\
        \x03\x00\x00\x00\x00\x00\x05\x03\x04\x01\x00\x00\x00\x07\
        \x04\x00\x01\x00\x00\x00\x00\x05\x04\x01\x00\x04\x00\x00\x00\x07";

    // the same behind a heading
    const HEADED: [u8; 40] = *b"\x01\x00\x00\x00\x2A\x02\x02\x01\x00\x01\
        \x03\x00\x00\x00\x00\x00\x05\x03\x04\x01\x00\x00\x00\x07\
        \x04\x00\x01\x00\x00\x00\x00\x05\x04\x01\x00\x04\x00\x00\x00\x07";

    #[test]
    fn two_parties(rt: HostRuntime) -> Result<(), Fail> {
        let file = read(rt.alloc(), &PLAIN)?;
        assert!(rt; file.number == 0 && file.terms.parties == 2 && file.terms.delta == 1);
        assert!(rt; file.holdings.len() == 2 && file.legs.len() == 2);
        assert!(rt;
            file.holdings[1]
                == Holding {
                    ledger: 4,
                    party: 1,
                    asset: 7,
                }
        );
        assert!(rt;
            file.legs[0]
                == Leg {
                    payer: 0,
                    receiver: 1,
                    ledger: 0,
                    asset: 5,
                }
        );
        Ok(())
    }

    #[test]
    fn only_the_number_changes(rt: HostRuntime) -> Result<(), Fail> {
        let plain = read(rt.alloc(), &PLAIN)?;
        let headed = read(rt.alloc(), &HEADED)?;
        assert!(rt; headed.number == 42 && headed.terms == plain.terms);
        assert!(rt; headed.holdings == plain.holdings && headed.legs == plain.legs);
        Ok(())
    }

    #[test]
    fn cut_short(rt: HostRuntime) -> Result<(), Fail> {
        match read(rt.alloc(), &PLAIN[0..34]) {
            Err(Refusal::Fault(fault)) => {
                assert!(rt; fault.number() == 4 && fault.place == 27);
                Ok(())
            },
            _ => Err(Fail::new("accepted")),
        }
    }
}

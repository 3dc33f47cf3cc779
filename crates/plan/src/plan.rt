ghost use Rattle.std.specs.Prelude.{◌≡◌, ◌≤◌};
ghost use Rattle.plan.specs.Check.{Checked};
ghost use Rattle.plan.specs.Meaning.{OneMeaning, MeansSound};
ghost use Rattle.plan.specs.Plans.{Reads, planned};
ghost use Rattle.swap.specs.Ticks.{last_tick};
ghost use Rattle.graph.specs.Graphs.{Inside};
ghost use Rattle.swap.specs.Limits.{max_parties};

use coverage::uncovered;
use graph::Graph;
use std::alloc::Global;
use swap::faults::{Fault, Reason};
use swap::records::{Holding, Leg, Terms};
use swapfile::file::SwapFile;
use swapfile::refusal::Refusal;

// A swap as planned: covered, connected, with a leader on every cycle. Only `read` makes one.
// Contracts see it through `planned`: a swap is made of functions of numbers, which the value of a `Model` cannot hold.
#[derive(Drop)]
pub struct Plan {
    file: SwapFile,
    span: u8,
}

// The span of the plan that a file holds, or the first rule of plans that it breaks.
fn check(file: &SwapFile) -> Result<u8, Fault>
    requires { (1 ≤ file.now.terms.parties) × (file.now.terms.parties ≤ max_parties) × Inside file.now.terms.parties file.now.legs.items }
    ensures { Checked file.now.terms file.now.holdings.items file.now.legs.items result }
{
    let terms = file.terms;
    let graph = Graph {
        parties: terms.parties,
        legs: &file.legs,
    };
    if let Some(leg) = uncovered(&file.holdings, graph.legs) {
        return Err(Reason::NotCovered.at(leg));
    }
    if let Some(party) = graph.cut_off() {
        return Err(Reason::NotConnected.at(usize::from(party)));
    }
    if let Some(party) = graph.unled(terms.leaders) {
        return Err(Reason::NoLeader.at(usize::from(party)));
    }
    Ok(graph.span())
}

impl Plan {
    // The plan in the bytes of a swap file.
    pub fn read(heap: Global, bytes: &[u8]) -> Result<Plan, Refusal>
        ensures { Reads bytes.now result }
    {
        let file = swapfile::file::read(heap, bytes)?;
        let span = check(&file)?;
        Ok(Plan { file, span })
    }

    pub fn number(&self) -> u32
        ensures { result ≡ (planned self.now).number }
    {
        self.file.number
    }

    pub fn terms(&self) -> Terms
        ensures { result ≡ self.now.file.terms }
    {
        self.file.terms
    }

    // Who holds what before the swap.
    pub fn holdings(&self) -> &[Holding]
        ensures { result.now ≡ self.now.file.holdings.items }
    {
        &self.file.holdings
    }

    // The legs, in the order of their numbers.
    pub fn legs(&self) -> &[Leg]
        ensures { result.now ≡ self.now.file.legs.items }
    {
        &self.file.legs
    }

    // The most parties on a joined route.
    pub fn span(&self) -> u8
        ensures { result ≡ (planned self.now).span }
    {
        self.span
    }

    pub fn last_tick(&self) -> u32
        ensures { result ≡ last_tick (planned self.now) }
    {
        let span = u32::from(self.span);
        let delta = u32::from(self.file.terms.delta);
        (2 * span + 1) * delta
    }
}

// No bytes mean two things: neither the plan nor a refusal's number and place can be another.
pub fn one_meaning()
    ensures { OneMeaning }
{}

// What an accepted file means has all the facts that the promises to the parties rest on.
pub fn means_sound()
    ensures { MeansSound }
{}

#[cfg(test)]
mod tests {
    use super::*;
    use std::test::Fail;

    // Terms of three parties with leader 0, and each party's 5 coins on ledger 0.
    const OPENING: [u8; 26] = *b"\x02\x03\x01\x00\x01\
        \x03\x00\x00\x00\x00\x00\x05\x03\x00\x01\x00\x00\x00\x05\x03\x00\x02\x00\x00\x00\x05";

    // Why a plan of 5 coins from each payer to each receiver is refused.
    fn refused(heap: Global, legs: &[(u8, u8)]) -> Result<Fault, Fail> {
        let mut bytes = OPENING.to_vec(heap)?;
        for (payer, receiver) in legs {
            bytes.extend_from_slice(&[4, *payer, *receiver, 0, 0, 0, 0, 5])?;
        }
        match Plan::read(heap, &bytes) {
            Err(Refusal::Fault(fault)) => Ok(fault),
            _ => Err(Fail::new("not refused")),
        }
    }

    #[test]
    fn refusals(rt: HostRuntime) -> Result<(), Fail> {
        let twice = refused(rt.alloc(), &[(0, 1), (1, 2), (2, 0), (0, 2)])?;
        assert_eq!(rt; (twice.number(), twice.place), (10, 3));
        let open = refused(rt.alloc(), &[(0, 1), (1, 2)])?;
        assert_eq!(rt; (open.number(), open.place), (11, 1));
        Ok(())
    }
}

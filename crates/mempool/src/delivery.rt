// What holds of every mempool, whatever it hands out.
ghost use Rattle.std.specs.Prelude.{OnOk, All};
ghost use Rattle.mempool.specs.Calls.{Drained, Fresh};
ghost use Rattle.mempool.specs.Deliveries.{delivered, DeliveredBy};
ghost use Rattle.mempool.specs.Laws.{Kept, Apart, Few, DrainedApart, OneOldest};

use crate::pool::Mempool;
use std::alloc::Global;
use swap::records::Waiting;
use thiserror::Error;

// Memory ran out for the list of what was handed out: the list so far, and the transaction that did not fit.
#[derive(Debug, Drop, Error)]
#[error("out of memory")]
pub struct Overrun {
    pub taken: Vec<Waiting>,
    pub last: Waiting,
}

// Takes until none is handed out. If memory runs out it stops, and hands over all that it took.
#[tactic(auto, using(crate::proofs::Keeping::draining))]
pub fn drain<M: Mempool>(
    heap: Global,
    pool: &mut M,
    tick: u32,
    delta: u32,
) -> Result<Vec<Waiting>, Overrun>
    ensures taken { Drained (delivered result) (M.waiting pool.old) (M.waiting pool.new) }
    ensures gives { DeliveredBy (M.take_gives tick delta) result pool.old pool.new }
    ensures rest { OnOk result (All (Fresh tick delta) (M.waiting pool.new)) }
{
    let mut taken = Vec::new(heap);
    while let Some(w) = pool.take(tick, delta) {
        if let Err(refused) = taken.push(w) {
            return Err(Overrun {
                taken,
                last: refused.value,
            });
        }
    }
    Ok(taken)
}

// A mempool in which no number waits twice stays so, whatever is called.
#[tactic(auto, using(crate::proofs::Promises::kept_apart))]
pub fn numbers_stay_apart()
    ensures { Kept Apart }
{}

// A mempool in which no more wait than may stays so.
#[tactic(auto, using(crate::proofs::Promises::kept_few))]
pub fn few_stay_few()
    ensures { Kept Few }
{}

// Of a mempool in which no number waits twice, none is handed out twice.
#[tactic(auto, using(crate::proofs::Keeping::drained_apart))]
pub fn drained_apart()
    ensures { DrainedApart }
{}

// Oldest first leaves no choice.
#[tactic(auto, using(crate::proofs::Promises::one_oldest))]
pub fn one_oldest()
    ensures { OneOldest }
{}

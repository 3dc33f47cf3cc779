// The slow mempool: hands out only what has waited delta ticks, oldest first.
ghost use Rattle.std.proofs.Common.{rules};
ghost use Rattle.std.specs.Prelude.{ℕ, List, Option, MatchOption, All};
ghost use Rattle.swap.specs.declared.records.Waiting.{Waiting};
ghost use Rattle.mempool.specs.Calls.{Due, Fresh, Oldest};

use crate::oldest_first::OldestFirst;
use crate::pace::Pace;
use crate::pool::Mempool;
use swap::records::Waiting;

pub type Slow = OldestFirst<OnceDue>;

#[derive(Drop)]
pub struct OnceDue;

impl Pace for OnceDue {
    ghost Ready = { Due };

    ghost due_is_ready = { λ _ _ _ due. due };

    ghost earlier_is_ready = { λ _ _ _ _ earlier due. Prim.search rules };

    // Was w filed `delta` or more ticks before?
    fn is_ready(w: Waiting, tick: u32, delta: u32) -> bool {
        u64::from(w.tick) + u64::from(delta) <= u64::from(tick)
    }
}

// It hands out the oldest of what waits, once it is due, and nothing only where all are fresh.
pub fn slow_hands_out_what_is_due()
    ensures { (tick delta : ℕ) (handed : Option Waiting) (old new : List Waiting)
        → ⟦<Slow as Mempool>⟧.take_gives tick delta old handed new
        → MatchOption handed (All (Fresh tick delta) old) (λ w. Oldest w old × Due tick delta w) }
{}

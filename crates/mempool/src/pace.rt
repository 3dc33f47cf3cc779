// The pace of a mempool: when it hands out what waits.
ghost use Rattle.std.specs.Prelude.{ℕ, ◌≤◌, MatchBool};
ghost use Rattle.swap.specs.declared.records.Waiting.{Waiting};
ghost use Rattle.mempool.specs.Calls.{Due};

use swap::records::Waiting;

pub trait Pace {
    // may w be handed out at this tick, where a delivery takes up to delta ticks?
    ghost Ready: { ℕ → ℕ → Waiting → Type 0 };

    fn is_ready(w: Waiting, tick: u32, delta: u32) -> bool
        ensures { MatchBool result (Ready tick delta w) (¬ Ready tick delta w) };

    // what is due is ready
    ghost due_is_ready: { (tick delta : ℕ) (w : Waiting) → Due tick delta w → Ready tick delta w };

    // and so is what was filed no later than what is ready
    ghost earlier_is_ready: { (tick delta : ℕ) (v w : Waiting) → w.tick ≤ v.tick → Ready tick delta v → Ready tick delta w };
}

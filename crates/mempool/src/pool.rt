// A mempool, known only by the list of transactions that wait in it.
ghost use Rattle.std.specs.Prelude.{◌≡◌, ℕ, List, [], Option, ⊤};
ghost use Rattle.swap.specs.declared.records.Waiting.{Waiting};
ghost use Rattle.mempool.specs.Calls.{Submitted, Handed};

use crate::refusal::Refusal;
use swap::records::Waiting;

pub trait Mempool {
    // what waits; in which order the list has it, each mempool decides
    ghost waiting: { Self → List Waiting };

    // what more a mempool says of a take: what it hands out at a tick and delta, and the mempool after it
    ghost take_gives: { ℕ → ℕ → Self → Option Waiting → Self → Type 0 } = { λ _ _ _ _ _. ⊤ };

    fn clear(&mut self)
        ensures { waiting self.new ≡ [] };

    // Adds a transaction, unless MAX_LINES wait or its number waits already.
    fn submit(&mut self, w: Waiting) -> Result<(), Refusal>
        ensures { Submitted w result (waiting self.old) (waiting self.new) };

    // Hands out one that waits, whichever it likes; or none, but only if none was filed `delta` or more ticks before.
    // Tick and delta stay two numbers: a struct would be made for each call, only to be taken apart at the one test.
    fn take(&mut self, tick: u32, delta: u32) -> Option<Waiting>
        ensures handed { Handed tick delta result (waiting self.old) (waiting self.new) }
        ensures gives { take_gives tick delta self.old result self.new };
}

// The prompt mempool: hands out everything, oldest first.
ghost use Rattle.std.specs.Prelude.{◌≡◌, ℕ, List, [], Option, MatchOption, ⊤};
ghost use Rattle.swap.specs.declared.records.Waiting.{Waiting};
ghost use Rattle.mempool.specs.Calls.{Oldest, OldestReady};

use crate::oldest_first::OldestFirst;
use crate::pace::Pace;
use crate::pool::Mempool;
use swap::records::Waiting;

pub type Prompt = OldestFirst<AtOnce>;

#[derive(Drop)]
pub struct AtOnce;

impl Pace for AtOnce {
    ghost Ready = { λ _ _ _. ⊤ };

    ghost due_is_ready = { λ _ _ _ _. tt };

    ghost earlier_is_ready = { λ _ _ _ _ _ _. tt };

    fn is_ready(_w: Waiting, _tick: u32, _delta: u32) -> bool {
        true
    }
}

// What is ready at once is handed out at once: the oldest of what waits, and nothing only where nothing waits.
pub fn prompt_hands_out_all()
    ensures all { (handed : Option Waiting) (old : List Waiting)
        → OldestReady (λ _. ⊤) handed old → MatchOption handed (old ≡ []) (λ w. Oldest w old) }
    ensures prompt { (tick delta : ℕ) (handed : Option Waiting) (old new : List Waiting)
        → ⟦<Prompt as Mempool>⟧.take_gives tick delta old handed new
        → MatchOption handed (old ≡ []) (λ w. Oldest w old) }
{}

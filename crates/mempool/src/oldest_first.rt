// The shipped mempools: of what waits, the oldest is handed out as soon as the pace allows it.
ghost use Rattle.std.specs.List.{position};
ghost use Rattle.std.specs.Prelude.{◌≡◌, ◌<◌, ◌≤◌, ◌==◌, [], length, slice_index_or, Contains, IfOk, MatchOption, is_some};
ghost use Rattle.mempool.specs.Calls.{Oldest, OldestReady};
ghost use Rattle.swap.specs.Limits.{max_lines};

use crate::pace::Pace;
use crate::pool::Mempool;
use crate::refusal::Refusal;
use std::alloc::{AllocError, Global};
use std::marker::{Model, PhantomData};
use swap::limits::MAX_LINES;
use swap::records::Waiting;

// What waits, in the order of submission, with memory for all that may wait.
#[derive(Drop)]
pub struct OldestFirst<P> {
    lines: Vec<Waiting>,
    pace: PhantomData<P>,
}

impl<P> Model for OldestFirst<P> {
    ghost use Rattle.std.specs.Prelude.{List, length, ◌≤◌, vec_items, vec_capacity};
    ghost use Rattle.swap.specs.Limits.{max_lines};
    ghost use Rattle.swap.specs.declared.records.Waiting.{Waiting};

    ghost Value = { List Waiting };

    ghost view = { λ pool. vec_items pool.lines };

    ghost invariant = { λ pool. (length (vec_items pool.lines) ≤ max_lines) × (max_lines ≤ vec_capacity pool.lines) };
}

impl<P> OldestFirst<P> {
    pub fn new(heap: Global) -> Result<OldestFirst<P>, AllocError>
        ensures { IfOk result (λ pool. pool ≡ []) }
    {
        Ok(OldestFirst {
            lines: Vec::with_capacity(heap, MAX_LINES)?,
            pace: PhantomData,
        })
    }

    // What waits, in the order of submission: never more than may.
    pub fn lines(&self) -> &[Waiting]
        ensures waiting { result.now ≡ self.now }
        ensures few { length self.now ≤ max_lines }
    {
        &self.lines
    }

    // How many have memory already: all that may wait.
    pub fn capacity(&self) -> usize
        ensures { max_lines ≤ result }
    {
        self.lines.capacity()
    }

    // By its place: over a full mempool the loop that `any` makes was slower.
    fn holds(&self, number: u32) -> bool
        ensures { result ≡ is_some (position (λ w. number == w.number) self.now) }
    {
        self.place_of_number(number).is_some()
    }

    fn place_of_number(&self, number: u32) -> Option<usize>
        ensures { result ≡ position (λ w. number == w.number) self.now }
    {
        self.lines.iter().position(|w| number == w.number)
    }

    // The oldest, if any waits.
    fn oldest(&self) -> Option<Waiting>
        ensures { MatchOption result (self.now ≡ []) (λ w. Contains self.now w × Oldest w self.now) }
    {
        self.lines
            .iter()
            .copied()
            .min_by_key(|w| (w.tick, w.number))
    }

    fn place_of(&self, w: Waiting) -> Option<usize>
        ensures { MatchOption result (¬ Contains self.now w) (λ i. (i < length self.now) × (slice_index_or self.now i w ≡ w)) }
    {
        self.lines.iter().position(|v| *v == w)
    }
}

impl<P: Pace> Mempool for OldestFirst<P> {
    ghost waiting = { λ pool. pool };

    ghost take_gives = { λ tick delta old result new. OldestReady (P.Ready tick delta) result old };

    fn clear(&mut self) {
        self.lines.clear();
    }

    #[tactic(auto, using(crate::proofs::Waits::taken_push, crate::proofs::Waits::waits_placed))]
    fn submit(&mut self, w: Waiting) -> Result<(), Refusal> {
        if self.lines.len() >= MAX_LINES {
            return Err(Refusal::Full);
        }
        if self.holds(w.number) {
            return Err(Refusal::Duplicate);
        }
        self.lines.push_reserved(w);
        Ok(())
    }

    #[tactic(auto, using(crate::proofs::Waits::taken_remove, crate::proofs::Waits::not_older))]
    fn take(&mut self, tick: u32, delta: u32) -> Option<Waiting> {
        // two passes, for the oldest and for its place: of one pass over pairs of both no proof was found
        let oldest = self.oldest()?;
        if !P::is_ready(oldest, tick, delta) {
            return None;
        }
        let place = self.place_of(oldest)?;
        Some(self.lines.remove(place))
    }
}

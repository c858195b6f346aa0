// Worklists: the edges that wait for a trial, by their numbers.
#![tactic(auto)]

ghost use Rattle.std.specs.Prelude.{◌≡◌, ℕ, true, List, [], length};
ghost use Rattle.worklist.specs.Orders.{LawfulOrder, limit, different, below, Put, TakenFirst};

pub mod lowest;
mod marks;
mod queue;
pub mod serving;

pub use lowest::Lowest;
pub use queue::{Fifo, Lifo};

// How many numbers can wait, and the least that cannot: all that wait are below it.
pub const CAPACITY: usize = 6126;

// The numbers that wait for a trial: different, below `CAPACITY`, in an order of their own.
pub trait Worklist {
    // The numbers that wait, the next one first.
    ghost waiting: { Self → List ℕ };

    // Where a new number goes.
    ghost order: { List ℕ → ℕ → List ℕ → Type 0 };

    fn clear(&mut self)
        ensures emptied { waiting self.new ≡ [] };

    fn put(&mut self, k: u32) -> bool
        ensures after { Put order (waiting self.old) k result (waiting self.new) };

    fn take(&mut self) -> Option<u32>
        ensures after { TakenFirst (waiting self.old) result (waiting self.new) };

    fn count(&self) -> usize
        ensures value { result ≡ length (waiting self.now) };

    ghost lawful: { LawfulOrder order };

    ghost apart: { (l : Self) → different (waiting l) ≡ true };

    ghost small: { (l : Self) → below limit (waiting l) ≡ true };
}

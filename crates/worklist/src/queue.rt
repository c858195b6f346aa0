// The two worklists that take their numbers in at one end: first in first out, and last in first out. `as` stands where Rust has no `From`.
ghost use Rattle.std.specs.Prelude.{◌≡◌, ℕ, ◌<◌, ◌≤◌, true, false, List, [], length, IfOk, slice_index_or};
ghost use Rattle.std.specs.VecDeque.{deque_capacity, deque_len};
ghost use Rattle.worklist.specs.Orders.{LawfulOrder, limit, among, different, fifo, lifo};
ghost use Rattle.worklist.specs.Lawful.{fifo_lawful, lifo_lawful};
ghost use Rattle.worklist.specs.Marked.{below_told};

use crate::marks::mark;
use crate::{CAPACITY, Worklist};
use std::alloc::{AllocError, Global};
use std::collections::VecDeque;
use std::marker::PhantomData;

// The end of a queue at which a new number goes in.
pub trait End {
    // Where that is.
    ghost order: { List ℕ → ℕ → List ℕ → Type 0 };

    // Puts k in there, where there is room for it.
    fn push(numbers: &mut VecDeque<u32>, k: u32)
        requires room { deque_len numbers.old < deque_capacity numbers.old }
        ensures items { order numbers.old.items k numbers.new.items }
        ensures capacity { deque_capacity numbers.new ≡ deque_capacity numbers.old };

    ghost lawful: { LawfulOrder order };
}

// Behind all that wait.
#[derive(Clone, Copy)]
pub struct Back;

impl End for Back {
    ghost order = { fifo };

    ghost lawful = { fifo_lawful };

    fn push(numbers: &mut VecDeque<u32>, k: u32) {
        numbers.push_back_reserved(k);
    }
}

// Before all that wait.
#[derive(Clone, Copy)]
pub struct Front;

impl End for Front {
    ghost order = { lifo };

    ghost lawful = { lifo_lawful };

    fn push(numbers: &mut VecDeque<u32>, k: u32) {
        numbers.push_front_reserved(k);
    }
}

// First in, first out.
pub type Fifo = Queue<Back>;

// Last in, first out.
pub type Lifo = Queue<Front>;

// The table says of each number whether it waits, so that a put need not look through the queue. A byte each and no
// set: the memory is fixed, and a put must not allocate.
#[derive(Drop)]
pub struct Queue<E: End> {
    numbers: VecDeque<u32>,
    listed: [bool; CAPACITY],
    end: PhantomData<E>,
    ghost room: { limit ≤ deque_capacity numbers },
    ghost alone: { different numbers.items ≡ true },
    ghost wide: { length listed ≡ limit },
    ghost told: { (k : ℕ) → slice_index_or listed k false ≡ among numbers.items k },
}

impl<E: End> Queue<E> {
    // A worklist in which nothing waits, with room for all it can ever hold.
    pub fn new(heap: Global) -> Result<Queue<E>, AllocError>
        ensures empty { IfOk result (λ q. ⟦<Queue<E> as Worklist>⟧.waiting q ≡ []) }
    {
        let numbers = VecDeque::with_capacity(heap, CAPACITY)?;
        Ok(Queue {
            numbers,
            listed: [false; CAPACITY],
            end: PhantomData,
        })
    }
}

impl<E: End> Worklist for Queue<E> {
    ghost waiting = { λ q. q.numbers.items };

    ghost order = { E.order };

    ghost lawful = { E.lawful };

    ghost apart = { λ q. q.alone };

    ghost small = { λ q. below_told limit q.listed q.numbers.items q.wide q.told };

    fn clear(&mut self) {
        self.numbers.clear();
        self.listed = [false; CAPACITY];
    }

    fn put(&mut self, k: u32) -> bool {
        if !mark(&mut self.listed, k) {
            return false;
        }
        E::push(&mut self.numbers, k);
        true
    }

    fn take(&mut self) -> Option<u32> {
        let k = self.numbers.pop_front()?;
        self.listed[k as usize] = false;
        Some(k)
    }

    fn count(&self) -> usize {
        self.numbers.len()
    }
}

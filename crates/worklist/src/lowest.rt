// The worklist that gives the lowest number first. `as` stands where Rust has no `From`.
ghost use Rattle.std.specs.Prelude.{◌≡◌, ℕ, ◌<◌, false, [], length, slice_index_or};
ghost use Rattle.worklist.specs.Orders.{limit, marked, lowest};
ghost use Rattle.worklist.specs.Lawful.{lowest_lawful};
ghost use Rattle.worklist.specs.Marked.{different_marked, below_marked};

use crate::marks::{mark, next_mark};
use crate::{CAPACITY, Worklist};

// A table of marks: nothing below `from` is marked, so the takes between two refills go over the table at most once.
// A byte each and no set: the memory is fixed, and a put must not allocate. With the count beside it, counting and a
// take where nothing waits look at no entry.
#[derive(Drop)]
pub struct Lowest {
    listed: [bool; CAPACITY],
    count: usize,
    from: usize,
    ghost wide: { length listed ≡ limit },
    ghost counted: { count ≡ length (marked 0 listed) },
    ghost passed: { (k : ℕ) → k < from → slice_index_or listed k false ≡ false },
}

impl Lowest {
    // A worklist in which nothing waits.
    pub fn new() -> Lowest
        ensures empty { ⟦<Lowest as Worklist>⟧.waiting result ≡ [] }
    {
        Lowest {
            listed: [false; CAPACITY],
            count: 0,
            from: 0,
        }
    }
}

impl Worklist for Lowest {
    ghost waiting = { λ l. marked 0 l.listed };

    ghost order = { lowest };

    ghost lawful = { lowest_lawful };

    ghost apart = { λ l. different_marked 0 l.listed };

    ghost small = { λ l. below_marked limit l.listed l.wide };

    fn clear(&mut self) {
        self.listed = [false; CAPACITY];
        self.count = 0;
        self.from = 0;
    }

    fn put(&mut self, k: u32) -> bool {
        if !mark(&mut self.listed, k) {
            return false;
        }
        self.count += 1;
        self.from = self.from.min(k as usize);
        true
    }

    fn take(&mut self) -> Option<u32> {
        let left = self.count.checked_sub(1)?;
        let k = next_mark(&self.listed, self.from)?;
        self.listed[k] = false;
        self.count = left;
        self.from = k + 1;
        Some(k as u32)
    }

    fn count(&self) -> usize {
        self.count
    }
}

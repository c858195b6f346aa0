// Whole lists of puts and takes, carried out one after the other, and what a record of them says.
ghost use Rattle.std.specs.Prelude.{◌≡◌, MatchResult};
ghost use Rattle.worklist.specs.Histories.{Precedence, Keeps, Step, Served, first_come, last_come, least, asking};
ghost use Rattle.worklist.specs.Precedences.{fifo_keeps, lifo_keeps, lowest_keeps};

use crate::{Fifo, Lifo, Lowest, Worklist};
use std::alloc::{AllocError, Global};

// What is asked of a worklist. Data and no closure, so that a record can say what it answers to.
#[derive(Clone, Copy, PartialEq, Eq, Debug)]
pub enum Ask {
    Clear,
    Put(u32),
    Take,
}

// What was asked of a worklist, with what it answered.
#[derive(Clone, Copy, PartialEq, Eq, Debug)]
pub enum Event {
    Cleared,
    Offered(u32, bool),
    Took(Option<u32>),
}

// A worklist whose order is seen from outside.
pub trait Ordered: Worklist {
    // Of two numbers that wait, which is handed back first.
    ghost precedence: { Precedence };

    // A record of what was asked and answered shows that.
    ghost keeps: { Keeps Self.Worklist.order precedence };
}

// One for each: a single impl for both queues would want the precedence and its law of the end, where they say nothing.
impl Ordered for Fifo {
    ghost precedence = { first_come };

    ghost keeps = { fifo_keeps };
}

impl Ordered for Lifo {
    ghost precedence = { last_come };

    ghost keeps = { lifo_keeps };
}

impl Ordered for Lowest {
    ghost precedence = { least };

    ghost keeps = { lowest_keeps };
}

// Carries out one ask.
fn answer_one<L: Worklist>(worklist: &mut L, ask: Ask) -> Event
    ensures answers { asking result ≡ ask }
    ensures happens { Step L.order (L.waiting worklist.old) result (L.waiting worklist.new) }
{
    match ask {
        Ask::Clear => {
            worklist.clear();
            Event::Cleared
        }
        Ask::Put(k) => Event::Offered(k, worklist.put(k)),
        Ask::Take => Event::Took(worklist.take()),
    }
}

// Carries out the asks in their order, and answers what happened; for want of memory nothing is done.
pub fn serve<L: Ordered>(
    heap: Global,
    worklist: &mut L,
    asks: &[Ask],
) -> Result<Vec<Event>, AllocError>
    ensures served { MatchResult result
        (λ v. Served L.Worklist.order L.precedence (L.Worklist.waiting worklist.old) asks.now v.items (L.Worklist.waiting worklist.new))
        (λ _. worklist.new ≡ worklist.old) }
{
    // A `for` and no `collect`: that could run out of memory halfway, and its contract is silent on the worklist's end.
    let mut events = Vec::with_capacity(heap, asks.len())?;
    for ask in asks {
        events.push_reserved(answer_one(worklist, *ask));
    }
    Ok(events)
}

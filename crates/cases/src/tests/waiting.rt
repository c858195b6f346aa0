// The three orders of waiting, by whole lists of puts and takes.
use std::alloc::Global;
use std::process::Abort;
use std::test::*;
use worklist::serving::{Ask, Event, Ordered, serve};
use worklist::{Fifo, Lifo, Lowest, Worklist};

// Checks which numbers come back, where 5, 3 and 9 wait at the first take, and 4 too at the second.
fn hands_back<L: Ordered + Drop>(
    rt: &impl Abort,
    heap: Global,
    mut worklist: L,
    taken: [u32; 4],
) -> Result<(), Fail> {
    let asks = [
        Ask::Take,
        Ask::Put(5),
        Ask::Put(3),
        Ask::Put(5),
        Ask::Put(9),
        Ask::Take,
        Ask::Put(4),
        Ask::Take,
        Ask::Take,
        Ask::Take,
        Ask::Take,
    ];
    let [first, second, third, fourth] = taken;
    let events = [
        Event::Took(None),
        Event::Offered(5, true),
        Event::Offered(3, true),
        Event::Offered(5, false),
        Event::Offered(9, true),
        Event::Took(Some(first)),
        Event::Offered(4, true),
        Event::Took(Some(second)),
        Event::Took(Some(third)),
        Event::Took(Some(fourth)),
        Event::Took(None),
    ];
    assert_eq!(rt; serve(heap, &mut worklist, &asks)?, events.to_vec(heap)?);
    Ok(())
}

#[test]
fn each_order_hands_back_its_own(rt: HostRuntime) -> Result<(), Fail> {
    let heap = rt.alloc();
    hands_back(&rt, heap, Fifo::new(heap)?, [5, 3, 9, 4])?;
    hands_back(&rt, heap, Lifo::new(heap)?, [9, 4, 3, 5])?;
    hands_back(&rt, heap, Lowest::new(), [3, 4, 5, 9])
}

// Checks the highest number that is put, one that comes back, and clearing.
fn keeps_to_its_range<L: Ordered + Drop>(
    rt: &impl Abort,
    heap: Global,
    mut worklist: L,
) -> Result<(), Fail> {
    let asks = [
        Ask::Put(6126),
        Ask::Put(u32::MAX),
        Ask::Put(6125),
        Ask::Take,
        Ask::Put(6125),
        Ask::Put(0),
        Ask::Clear,
        Ask::Take,
        Ask::Put(0),
    ];
    let events = [
        Event::Offered(6126, false),
        Event::Offered(u32::MAX, false),
        Event::Offered(6125, true),
        Event::Took(Some(6125)),
        Event::Offered(6125, true),
        Event::Offered(0, true),
        Event::Cleared,
        Event::Took(None),
        Event::Offered(0, true),
    ];
    assert_eq!(rt; serve(heap, &mut worklist, &asks)?, events.to_vec(heap)?);
    assert_eq!(rt; worklist.count(), 1);
    Ok(())
}

#[test]
fn each_order_keeps_to_its_range(rt: HostRuntime) -> Result<(), Fail> {
    let heap = rt.alloc();
    keeps_to_its_range(&rt, heap, Fifo::new(heap)?)?;
    keeps_to_its_range(&rt, heap, Lifo::new(heap)?)?;
    keeps_to_its_range(&rt, heap, Lowest::new())
}

// Puts every number, from the highest down, and checks that the numbers come back rising or falling. A flag: a closure for the one `if` would be longer.
fn fills<L: Worklist + Drop>(rt: &impl Abort, mut worklist: L, rising: bool) -> Result<(), Fail> {
    for k in (0..6126).rev() {
        assert!(rt; worklist.put(k));
    }
    assert_eq!(rt; worklist.count(), 6126);
    for k in 0..6126 {
        let next = if rising { k } else { 6125 - k };
        assert_eq!(rt; worklist.take(), Some(next));
    }
    assert_eq!(rt; worklist.take(), None);
    Ok(())
}

#[test]
fn each_order_has_room_for_all(rt: HostRuntime) -> Result<(), Fail> {
    let heap = rt.alloc();
    fills(&rt, Fifo::new(heap)?, false)?;
    fills(&rt, Lifo::new(heap)?, true)?;
    fills(&rt, Lowest::new(), true)
}

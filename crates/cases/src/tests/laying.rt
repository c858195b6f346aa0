// What lay refuses, and what it writes.
use super::site::*;
use mesh::Plan;
use std::test::*;

#[test]
fn lay_refuses(rt: HostRuntime) -> Result<(), Fail> {
    let good = flat(4, 4);
    let high = Plan { ne: 32768, ..good };
    for (plan, vertices, half_edges, number) in [
        (flat(1, 4), 8, 30, 1),
        (flat(4, 1), 8, 30, 1),
        (flat(32768, 4), 8, 30, 1),
        (flat(4, 32768), 8, 30, 1),
        (Plan { width: 1, ..high }, 8, 30, 1),
        (flat(1, 4), 3, 5, 1),
        (Plan { sw: 32768, ..good }, 8, 30, 2),
        (Plan { se: 32768, ..good }, 8, 30, 2),
        (high, 8, 30, 2),
        (Plan { nw: 32768, ..good }, 8, 30, 2),
        (high, 3, 5, 2),
        (good, 3, 30, 3),
        (good, 8, 5, 3),
        (good, 0, 0, 3),
    ] {
        Site::blank(rt.alloc(), vertices, half_edges)?.refuses_plan(&rt, plan, number)?;
    }
    Site::laid(rt.alloc(), 4, 6)?.refuses_plan(&rt, high, 2)
}

#[test]
fn lay_empties_the_worklist(rt: HostRuntime) -> Result<(), Fail> {
    let mut site = Site::blank(rt.alloc(), 4, 6)?;
    assert_eq!(rt; site.waiting()?.as_slice(), [5, 3].as_slice());
    site.lay(flat(32767, 2))?;
    assert_eq!(rt; site.waiting()?.as_slice(), [2].as_slice());
    assert!(rt; site.mesh().is_sound());
    Ok(())
}

#[test]
fn entries_past_those_in_use_stay(rt: HostRuntime) -> Result<(), Fail> {
    let mut site = Site::laid(rt.alloc(), 8, 25)?;
    site.is_blank_past(&rt, 4, 6)?;
    site.takes(&rt, vertex(2, 2, 0), 4)?;
    site.is_blank_past(&rt, 5, 12)?;
    site.takes(&rt, vertex(2, 1, 0), 5)?;
    site.is_blank_past(&rt, 6, 18)
}

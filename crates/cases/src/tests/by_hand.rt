// Edits by hand: flips, pins and unpins.
use super::site::*;
use mesh::Plan;
use std::alloc::Global;
use std::process::Abort;
use std::test::*;

// The 4 by 4 mesh with its northwest corner at height 4 and a vertex at (1, 2) of height 3, in lists of these lengths.
pub(super) fn dotted(
    rt: &impl Abort,
    heap: Global,
    vertices: usize,
    half_edges: usize,
) -> Result<Site, Fail> {
    let plan = Plan {
        nw: 4,
        ..flat(4, 4)
    };
    let mut site = Site::laid_as(heap, vertices, half_edges, plan)?;
    site.takes(rt, vertex(1, 2, 3), 4)?;
    Ok(site)
}

#[test]
fn flips_go_round(rt: HostRuntime) -> Result<(), Fail> {
    let mut site = dotted(&rt, rt.alloc(), 8, 20)?;
    let at_first = site.state()?;
    assert_eq!(rt; site.flip(2), Ok((144, 96)));
    assert!(rt; site.mesh().is_sound());
    let flipped = site.state()?;
    assert_eq!(rt; site.flip(2), Ok((96, 144)));
    assert_eq!(rt; site.flip(2), Ok((144, 96)));
    assert_eq!(rt; site.flip(2), Ok((96, 144)));
    assert_eq!(rt; site.state()?, at_first);
    // From the other half-edge the same mesh.
    assert_eq!(rt; site.flip(3), Ok((144, 96)));
    assert_eq!(rt; site.state()?, flipped);
    site.is_blank_past(&rt, 5, 12)
}

#[test]
fn a_number_that_is_no_edge_is_9(rt: HostRuntime) -> Result<(), Fail> {
    // The lists reach past 65,535, the number of no twin.
    let mut site = dotted(&rt, rt.alloc(), 8, 70000)?;
    for s in [0, 1, 6, 9, 12, 13, 65535, 65536, 69999, u32::MAX] {
        site.refuses_edits(&rt, s, 9)?;
    }
    Ok(())
}

#[test]
fn a_flip_wants_a_convex_quadrilateral(rt: HostRuntime) -> Result<(), Fail> {
    let heap = rt.alloc();
    let mut site = dotted(&rt, heap, 8, 20)?;
    let before = site.state()?;
    for s in [4, 5, 7, 8, 10, 11] {
        assert_eq!(rt; refused(site.flip(s)), Some(11));
    }
    assert_eq!(rt; site.state()?, before);
    // With a vertex on the diagonal the new faces would be flat.
    let mut site = Site::laid(heap, 8, 20)?;
    site.takes(&rt, vertex(2, 2, 0), 4)?;
    assert_eq!(rt; refused(site.flip(0)), Some(11));
    Ok(())
}

#[test]
fn a_pin_holds_until_it_is_taken_out(rt: HostRuntime) -> Result<(), Fail> {
    let mut site = dotted(&rt, rt.alloc(), 8, 20)?;
    let free = site.state()?;
    assert_eq!(rt; refused(site.unpin(2)), Some(10));
    assert_eq!(rt; site.take(), Some(2));
    assert_eq!(rt; site.pin(3), Ok(2));
    assert!(rt; site.mesh().is_sound());
    // A pin does not refill the worklist.
    assert_eq!(rt; site.waiting()?.len(), 3);
    assert_eq!(rt; refused(site.pin(2)), Some(10));
    assert_eq!(rt; refused(site.flip(3)), Some(10));
    assert_eq!(rt; site.waiting()?.len(), 3);
    // An unpin does, and gives the half-edges back.
    assert_eq!(rt; site.unpin(2), Ok(2));
    assert_eq!(rt; site.state()?, free);
    Ok(())
}

// Meshes that are none, one for each fact of soundness: every edit by hand is refused by 4 and changes nothing.
use super::by_hand::dotted;
use super::site::*;
use mesh::Header;
use std::test::*;

#[test]
fn a_header_out_of_range(rt: HostRuntime) -> Result<(), Fail> {
    let heap = rt.alloc();
    // Width, depth and count out of range, a list of vertices that is too short for the count, and one of half-edges.
    for (width, depth, count) in [
        (1, 4, 5),
        (32768, 4, 5),
        (4, 1, 5),
        (4, 32768, 5),
        (4, 4, 3),
        (4, 4, 1025),
        (4, 4, 9),
        (4, 4, 7),
    ] {
        let mut site = dotted(&rt, heap, 8, 20)?;
        site.header = Header {
            width,
            depth,
            count,
        };
        site.refuses_edits(&rt, 2, 4)?;
    }
    Ok(())
}

#[test]
fn a_vertex_out_of_place(rt: HostRuntime) -> Result<(), Fail> {
    let heap = rt.alloc();
    // Each corner elsewhere, the inner vertex on each border, and a height out of range.
    for (v, east, north, height) in [
        (0, 1, 0, 0),
        (1, 4, 1, 0),
        (2, 3, 4, 0),
        (3, 0, 3, 4),
        (4, 0, 2, 3),
        (4, 4, 2, 3),
        (4, 1, 0, 3),
        (4, 1, 4, 3),
        (4, 1, 2, 32768),
    ] {
        let mut site = dotted(&rt, heap, 8, 20)?;
        site.set_vertex(&rt, v, vertex(east, north, height))?;
        site.refuses_edits(&rt, 2, 4)?;
    }
    Ok(())
}

#[test]
fn a_half_edge_that_does_not_fit(rt: HostRuntime) -> Result<(), Fail> {
    let heap = rt.alloc();
    // In this order: an origin, a twin and a pin out of range, a twin that is another's, one that runs another way,
    // a pin that its twin has not, an inner half-edge with no twin, a border with one, and a pinned border.
    for (s, origin, twin, pin) in [
        (7, 5, 11, 0),
        (7, 3, 12, 0),
        (7, 3, 11, 2),
        (7, 3, 10, 0),
        (7, 2, 11, 0),
        (7, 3, 11, 1),
        (7, 3, 65535, 0),
        (0, 0, 1, 0),
        (0, 0, 65535, 1),
    ] {
        let mut site = dotted(&rt, heap, 8, 20)?;
        site.set_half_edge(&rt, s, half_edge(origin, twin, pin))?;
        site.refuses_edits(&rt, 2, 4)?;
    }
    Ok(())
}

#[test]
fn a_face_that_does_not_turn(rt: HostRuntime) -> Result<(), Fail> {
    let heap = rt.alloc();
    // The inner vertex on the diagonal makes the face 0, 2, 4 flat; beyond it, the face turns clockwise.
    for (east, north) in [(2, 2), (3, 1)] {
        let mut site = dotted(&rt, heap, 8, 20)?;
        site.set_vertex(&rt, 4, vertex(east, north, 3))?;
        site.refuses_edits(&rt, 2, 4)?;
    }
    Ok(())
}

#[test]
fn more_than_four_borders(rt: HostRuntime) -> Result<(), Fail> {
    // The two faces of the rectangle twice over: all but the number of borders is in order.
    let mut site = dotted(&rt, rt.alloc(), 8, 20)?;
    let twice = [
        (0, 65535),
        (1, 65535),
        (2, 3),
        (0, 2),
        (2, 65535),
        (3, 65535),
        (0, 65535),
        (1, 65535),
        (2, 9),
        (0, 8),
        (2, 65535),
        (3, 65535),
    ];
    for (s, (origin, twin)) in twice.into_iter().enumerate() {
        site.set_half_edge(&rt, s, half_edge(origin, twin, 0))?;
    }
    site.refuses_edits(&rt, 2, 4)
}

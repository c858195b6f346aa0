// What add refuses, and what it writes.
use super::site::*;
use mesh::Header;
use std::test::*;

#[test]
fn add_refuses_no_mesh(rt: HostRuntime) -> Result<(), Fail> {
    Site::blank(rt.alloc(), 8, 30)?.refuses_vertex(&rt, vertex(2, 1, 0), 4)?;
    for (s, wrong) in [
        (2, half_edge(2, 65535, 0)),
        (2, half_edge(2, 4, 0)),
        (2, half_edge(2, 6, 0)),
        (2, half_edge(2, 3, 1)),
        (0, half_edge(0, 65535, 1)),
        (0, half_edge(4, 65535, 0)),
        (4, half_edge(1, 65535, 0)),
    ] {
        let mut site = Site::laid(rt.alloc(), 8, 30)?;
        site.set_half_edge(&rt, s, wrong)?;
        site.refuses_vertex(&rt, vertex(2, 1, 0), 4)?;
        site.refuses_vertex(&rt, vertex(0, 0, 32768), 4)?;
    }
    Ok(())
}

#[test]
fn add_refuses_a_wrong_header(rt: HostRuntime) -> Result<(), Fail> {
    for (width, depth, count) in [
        (0, 0, 0),
        (4, 4, 3),
        (4, 4, 5),
        (4, 4, 1025),
        (4, 4, u32::MAX),
        (5, 4, 4),
        (4, 32768, 4),
    ] {
        let mut site = Site::laid(rt.alloc(), 4, 6)?;
        site.header = Header {
            width,
            depth,
            count,
        };
        site.refuses_vertex(&rt, vertex(2, 1, 0), 4)?;
    }
    Ok(())
}

#[test]
fn add_refuses_cut_lists(rt: HostRuntime) -> Result<(), Fail> {
    for (vertices, half_edges) in [(4, 12), (5, 11)] {
        let mut site = Site::laid(rt.alloc(), 5, 12)?;
        site.takes(&rt, vertex(2, 1, 0), 4)?;
        site.vertices.truncate(vertices);
        site.half_edges.truncate(half_edges);
        site.refuses_vertex(&rt, vertex(2, 2, 0), 4)?;
    }
    Ok(())
}

#[test]
fn add_refuses_a_pin_of_two(rt: HostRuntime) -> Result<(), Fail> {
    let mut site = Site::laid(rt.alloc(), 8, 30)?;
    site.set_half_edge(&rt, 2, half_edge(2, 3, 2))?;
    site.set_half_edge(&rt, 3, half_edge(0, 2, 2))?;
    site.refuses_vertex(&rt, vertex(2, 1, 0), 4)
}

#[test]
fn add_refuses_places(rt: HostRuntime) -> Result<(), Fail> {
    let mut site = Site::laid(rt.alloc(), 8, 30)?;
    site.takes(&rt, vertex(2, 1, 7), 4)?;
    for (east, north, height, number) in [
        (2, 2, 32768, 2),
        (4, 2, 32768, 2),
        (2, 1, u32::MAX, 2),
        (4, 2, 0, 5),
        (0, 1, 0, 5),
        (2, 0, 0, 5),
        (2, 4, 0, 5),
        (0, 0, 0, 5),
        (4, 4, 0, 5),
        (u32::MAX, 2, 0, 5),
        (2, u32::MAX, 0, 5),
        (u32::MAX - 1, u32::MAX, 0, 5),
        (2, 1, 0, 6),
        (2, 1, 7, 6),
    ] {
        site.refuses_vertex(&rt, vertex(east, north, height), number)?;
    }
    site.takes(&rt, vertex(2, 2, 32767), 5)
}

#[test]
fn add_refuses_full_lists(rt: HostRuntime) -> Result<(), Fail> {
    for (vertices, half_edges) in [(5, 11), (4, 12), (4, 6)] {
        Site::laid(rt.alloc(), vertices, half_edges)?.refuses_vertex(&rt, vertex(2, 1, 0), 7)?;
    }
    let mut site = Site::laid(rt.alloc(), 5, 12)?;
    site.takes(&rt, vertex(2, 1, 0), 4)?;
    site.refuses_vertex(&rt, vertex(1, 1, 0), 7)?;
    site.refuses_vertex(&rt, vertex(2, 1, 0), 6)?;
    site.refuses_vertex(&rt, vertex(0, 1, 0), 5)?;
    site.refuses_vertex(&rt, vertex(1, 1, 32768), 2)
}

#[test]
fn every_inner_point_is_taken(rt: HostRuntime) -> Result<(), Fail> {
    let mut site = Site::blank(rt.alloc(), 5, 12)?;
    for east in 1..6 {
        for north in 1..5 {
            site.lay(flat(6, 5))?;
            site.takes(&rt, vertex(east, north, 0), 4)?;
        }
    }
    Ok(())
}

#[test]
fn all_inner_points_are_taken(rt: HostRuntime) -> Result<(), Fail> {
    let mut site = Site::blank(rt.alloc(), 24, 126)?;
    site.lay(flat(6, 5))?;
    for east in 1..6 {
        for north in 1..5 {
            site.takes(&rt, vertex(east, north, 0), 4 * east + north - 1)?;
        }
    }
    Ok(())
}

#[test]
fn a_pinned_edge_stays_pinned(rt: HostRuntime) -> Result<(), Fail> {
    let mut site = Site::laid(rt.alloc(), 5, 12)?;
    site.set_half_edge(&rt, 2, half_edge(2, 3, 1))?;
    site.set_half_edge(&rt, 3, half_edge(0, 2, 1))?;
    site.takes(&rt, vertex(2, 2, 0), 4)?;
    for (s, found) in site.half_edges.iter().enumerate() {
        assert_eq!(rt; found.pin == 1, matches!(s, 2 | 3 | 6 | 9));
    }
    assert_eq!(rt; site.waiting()?.as_slice(), [0, 2, 3, 4].as_slice());
    Ok(())
}

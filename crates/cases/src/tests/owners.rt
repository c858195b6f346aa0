// Every point of a mesh off its south and east borders belongs to exactly one face. `as` stands where Rust has no `From`.
use super::site::*;
use mesh::{HalfEdge, MeshRef, Point, Vertex};
use std::alloc::Global;
use std::process::Abort;
use std::test::*;
use tiling::locate;

// Whether w lies left of a → b, or on it if it runs south or exactly west: the rule once more, on small numbers.
fn admits(a: Vertex, b: Vertex, w: Point) -> bool {
    let east = i64::from(b.east).wrapping_sub(i64::from(a.east));
    let north = i64::from(b.north).wrapping_sub(i64::from(a.north));
    let to_east = i64::from(w.east).wrapping_sub(i64::from(a.east));
    let to_north = i64::from(w.north).wrapping_sub(i64::from(a.north));
    let area = east
        .wrapping_mul(to_north)
        .wrapping_sub(north.wrapping_mul(to_east));
    area > 0 || (area == 0 && (north < 0 || (north == 0 && east < 0)))
}

// The vertex where a half-edge starts.
fn start(mesh: MeshRef, half_edge: &HalfEdge) -> Result<Vertex, Fail> {
    let Some(vertex) = mesh.vertices.get(usize::from(half_edge.origin)) else {
        return Err(Fail::new("no such vertex")); // no `ok_or`, which wants an error that may be dropped
    };
    Ok(*vertex)
}

// How many of the faces own w, and the last that does.
fn owners(mesh: MeshRef, faces: usize, w: Point) -> Result<(u32, usize), Fail> {
    let mut found = (0u32, 0);
    for (f, sides) in mesh.half_edges.chunks(3).take(faces).enumerate() {
        let [a, b, c] = sides else {
            return Err(Fail::new("no such face"));
        };
        let (a, b, c) = (start(mesh, a)?, start(mesh, b)?, start(mesh, c)?);
        if admits(a, b, w) && admits(b, c, w) && admits(c, a, w) {
            found = (found.0.saturating_add(1), f);
        }
    }
    Ok(found)
}

// Checks who owns one point, by all faces and by locate.
fn owned(rt: &impl Abort, site: &Site, w: Point) -> Result<(), Fail> {
    let mesh = site.mesh();
    let faces = (site.header.count as usize)
        .saturating_sub(3)
        .saturating_mul(2);
    let (count, face) = owners(mesh, faces, w)?;
    if w.north == 0 || w.east >= site.header.width {
        assert_eq!(rt; count, 0);
        assert_eq!(rt; refused(locate(mesh, w)), Some(8));
        return Ok(());
    }
    assert_eq!(rt; count, 1);
    assert_eq!(rt; locate(mesh, w), Ok(face));
    Ok(())
}

// A mesh of at most 20 by 20, with vertices added and edges flipped here and there.
fn grown(rt: &impl Abort, heap: Global, width: u32, depth: u32, seed: u32) -> Result<Site, Fail> {
    let mut site = Site::blank(heap, 40, 240)?;
    site.lay(flat(width, depth))?;
    let mut x = seed;
    for _ in 0..40 {
        x = x.wrapping_mul(1103515245).wrapping_add(12345);
        let (east, north) = (x / 65536 % width.max(1), x / 1024 % depth.max(1));
        let _ = site.add(vertex(east, north, 0));
        let _ = site.flip(x / 256 % 240);
    }
    assert!(rt; site.mesh().is_sound());
    Ok(site)
}

// Checks every point of a row of the mesh.
fn row(rt: &impl Abort, site: &Site, north: u32) -> Result<(), Fail> {
    for east in 0..=site.header.width.min(20) {
        owned(rt, site, Point { east, north })?;
    }
    Ok(())
}

fn tiled(rt: &impl Abort, site: &Site) -> Result<(), Fail> {
    for north in 0..=site.header.depth.min(20) {
        row(rt, site, north)?;
    }
    Ok(())
}

#[test]
fn every_point_has_one_owner(rt: HostRuntime) -> Result<(), Fail> {
    let heap = rt.alloc();
    for (width, depth, seed) in [
        (2, 2, 1),
        (2, 20, 2),
        (20, 2, 3),
        (3, 3, 4),
        (5, 4, 5),
        (7, 9, 6),
        (10, 10, 7),
        (13, 5, 8),
        (16, 16, 9),
        (19, 20, 10),
        (20, 20, 11),
        (20, 20, 12),
    ] {
        tiled(&rt, &grown(&rt, heap, width, depth, seed)?)?;
    }
    Ok(())
}

#[test]
fn no_point_of_an_unsound_mesh_is_located(rt: HostRuntime) -> Result<(), Fail> {
    let mut site = Site::laid(rt.alloc(), 4, 6)?;
    site.header.count = 3;
    let w = Point { east: 1, north: 1 };
    assert_eq!(rt; refused(locate(site.mesh(), w)), Some(4));
    Ok(())
}

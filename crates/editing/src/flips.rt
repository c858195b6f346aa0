// Flipping an edge, pinning it and taking the pin out again.
ghost use Rattle.std.specs.Prelude.{◌≡◌, ℕ, ◌%◌, ◌<◌, ◌≤◌, length, ◌≢◌};
ghost use Rattle.mesh.specs.Meshes.{seen, half_at, used as in_use, twin_of};
ghost use Rattle.editing.specs.Flips.{is_interior as interior_edge, convex, turned, with_pin};

use mesh::edits::put;
use mesh::geometry::{Side, Triangle};
use mesh::views::{PlacedMesh, RoomyMesh};
use mesh::{HalfEdge, next, previous};

// Whether s is a half-edge in use with a twin.
pub fn is_interior(roomy: RoomyMesh, s: usize) -> bool
    ensures { result ≡ interior_edge (seen roomy.entry.mesh) s }
{
    s < roomy.used() && roomy.mesh.half_edges[s].twin().is_some()
}

// Whether the other diagonal of the quadrilateral round the edge of s makes two faces that go round counterclockwise.
#[tactic(auto, unfolding(crate::specs::Flips::convex))]
pub fn is_convex(placed: PlacedMesh, s: usize) -> bool
    requires within { s < in_use (seen placed.mesh) }
    requires twin { twin_of (seen placed.mesh) s < in_use (seen placed.mesh) }
    ensures { result ≡ convex (seen placed.entry.mesh) s }
{
    let t = usize::from(placed.mesh.half_edges[s].twin);
    let Side { from: p, to: q } = placed.side(s);
    let r = placed.origin_point(previous(s));
    let u = placed.origin_point(previous(t));
    Triangle { a: u, b: q, c: r }.turns() && Triangle { a: r, b: p, c: u }.turns()
}

// The edge of s becomes the other diagonal of its quadrilateral; n half-edges are in use. That their twins are too is a
// premise and no fact of a type, since between two writes it does not hold.
pub fn flip(half_edges: &mut [HalfEdge], s: usize, n: usize)
    requires whole { n % 3 ≡ 0 }
    requires room { n ≤ length half_edges.old }
    requires few { n ≤ 65535 }
    requires within { s < n }
    requires twin { (half_at half_edges.old s).twin < n }
    requires twins { (k : ℕ) → k < n → (half_at half_edges.old k).twin ≢ 65535 → (half_at half_edges.old k).twin < n }
    ensures { half_edges.new ≡ turned half_edges.old s (half_at half_edges.old s).twin }
{
    let t = usize::from(half_edges[s].twin);
    let (after_s, before_s) = (next(s), previous(s));
    let (after_t, before_t) = (next(t), previous(t));
    let (from_q, from_r) = (half_edges[after_s], half_edges[before_s]);
    let (from_p, from_u) = (half_edges[after_t], half_edges[before_t]);
    half_edges[s].origin = from_u.origin;
    half_edges[t].origin = from_r.origin;
    put(half_edges, from_r, after_s);
    put(half_edges, from_p, before_s);
    put(half_edges, from_u, after_t);
    put(half_edges, from_q, before_t);
}

// Gives both half-edges of the edge of s this pin, a number as in the caller's memory, which may be any.
pub fn set_pin(half_edges: &mut [HalfEdge], s: usize, pin: u8)
    requires within { s < length half_edges.old }
    requires twin { (half_at half_edges.old s).twin < length half_edges.old }
    ensures { half_edges.new ≡ with_pin pin (with_pin pin half_edges.old s) (half_at half_edges.old s).twin }
{
    let t = usize::from(half_edges[s].twin);
    half_edges[s].pin = pin;
    half_edges[t].pin = pin;
}

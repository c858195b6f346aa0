// What lay and add write into the lists. What the half-edges hold is a premise and no fact of a type: between two writes
// it does not hold, and what borrows the list to be written has to keep its facts at each. `as` stands where Rust has no `From`.
ghost use Rattle.std.specs.Prelude.{◌≡◌, ℕ, ◌+◌, ◌%◌, ◌<◌, ◌≤◌, true, length, Some, ◌≢◌};
ghost use Rattle.mesh.specs.Edits.{half_edge, moved, corners, two_faces, laid, split_face, split_edge, added_in};
ghost use Rattle.mesh.specs.Meshes.{lent, SameLoan, half_at, faces as face_count, used as in_use};
ghost use Rattle.mesh.specs.Geometry.{place};
ghost use Rattle.mesh.specs.Sound.{Sound, strictly_inside};

use crate::views::SoundMesh;
use crate::{HalfEdge, Header, MeshMut, NO_TWIN, Plan, Vertex, next, previous};

// A half-edge; the number of no twin is one of a twin here.
fn half(origin: u16, twin: usize, pin: u8) -> HalfEdge
    requires { twin < 65536 }
    ensures { result ≡ half_edge origin twin pin }
{
    HalfEdge {
        origin,
        twin: twin as u16,
        pin,
    }
}

fn lay_vertices(vertices: &mut [Vertex], p: Plan)
    requires { 4 ≤ length vertices.old }
    ensures { vertices.new ≡ corners vertices.old p }
{
    let (width, depth) = (p.width, p.depth);
    vertices[0] = Vertex {
        east: 0,
        north: 0,
        height: p.sw,
    };
    vertices[1] = Vertex {
        east: width,
        north: 0,
        height: p.se,
    };
    vertices[2] = Vertex {
        east: width,
        north: depth,
        height: p.ne,
    };
    vertices[3] = Vertex {
        east: 0,
        north: depth,
        height: p.nw,
    };
}

fn lay_half_edges(half_edges: &mut [HalfEdge])
    requires { 6 ≤ length half_edges.old }
    ensures { half_edges.new ≡ two_faces half_edges.old }
{
    let none = usize::from(NO_TWIN);
    half_edges[0] = half(0, none, 0);
    half_edges[1] = half(1, none, 0);
    half_edges[2] = half(2, 3, 0);
    half_edges[3] = half(0, 2, 0);
    half_edges[4] = half(2, none, 0);
    half_edges[5] = half(3, none, 0);
}

// The rectangle with its four corners, cut along the diagonal from corner 2 to corner 0.
pub fn lay(mesh: &mut MeshMut, p: Plan)
    requires vertices { 4 ≤ length mesh.old.vertices.now }
    requires half_edges { 6 ≤ length mesh.old.half_edges.now }
    ensures after { lent mesh.new ≡ laid (lent mesh.old) p }
    ensures loan { SameLoan mesh.old mesh.new }
{
    *mesh.header = Header {
        width: p.width,
        depth: p.depth,
        count: 4,
    };
    lay_vertices(mesh.vertices, p);
    lay_half_edges(mesh.half_edges);
}

// Writes `one` to the place `to`, and the place into its twin.
pub fn put(half_edges: &mut [HalfEdge], one: HalfEdge, to: usize)
    requires within { to < length half_edges.old }
    requires few { to < 65536 }
    requires twin { (one.twin ≢ 65535) → one.twin < length half_edges.old }
    ensures { half_edges.new ≡ moved half_edges.old one to }
{
    half_edges[to] = one;
    if let Some(twin) = one.twin() {
        half_edges[twin].twin = to as u16;
    }
}

// The face of half-edges s, s + 1, s + 2 is split into three at the new vertex w, with new half-edges from n on.
fn split_face(half_edges: &mut [HalfEdge], s: usize, n: usize, w: u16)
    requires room { n + 6 ≤ length half_edges.old }
    requires few { n + 6 ≤ 65535 }
    requires within { s + 2 < n }
    requires twins { (k : ℕ) → k < n → ((half_at half_edges.old k).twin ≢ 65535) → (half_at half_edges.old k).twin < n }
    ensures { half_edges.new ≡ split_face half_edges.old s n w }
{
    let a = half_edges[s].origin;
    let b = half_edges[s + 1];
    let c = half_edges[s + 2];
    put(half_edges, b, n);
    put(half_edges, c, n + 3);
    half_edges[s + 1] = half(b.origin, n + 2, 0);
    half_edges[s + 2] = half(w, n + 4, 0);
    half_edges[n + 1] = half(c.origin, n + 5, 0);
    half_edges[n + 2] = half(w, s + 1, 0);
    half_edges[n + 4] = half(a, s + 2, 0);
    half_edges[n + 5] = half(w, n + 1, 0);
}

// The edge p → q of half-edge s is split at the new vertex w, and with it the two faces beside it, with new half-edges from n on.
fn split_edge(half_edges: &mut [HalfEdge], s: usize, n: usize, w: u16)
    requires whole { n % 3 ≡ 0 }
    requires room { n + 6 ≤ length half_edges.old }
    requires few { n + 6 ≤ 65535 }
    requires within { s < n }
    requires twin { (half_at half_edges.old s).twin < n }
    requires twins { (k : ℕ) → k < n → ((half_at half_edges.old k).twin ≢ 65535) → (half_at half_edges.old k).twin < n }
    ensures { half_edges.new ≡ split_edge half_edges.old s n w }
{
    let there = half_edges[s];
    let t = usize::from(there.twin);
    let back = half_edges[t].origin;
    let (after_s, after_t) = (next(s), next(t));
    let r = half_edges[previous(s)].origin;
    let u = half_edges[previous(t)].origin;
    let (beyond_s, beyond_t) = (half_edges[after_s], half_edges[after_t]);
    put(half_edges, beyond_s, n + 1);
    put(half_edges, beyond_t, n + 4);
    half_edges[s] = half(there.origin, n + 3, there.pin);
    half_edges[t] = half(back, n, there.pin);
    half_edges[after_s] = half(w, n + 2, 0);
    half_edges[after_t] = half(w, n + 5, 0);
    half_edges[n] = half(w, t, there.pin);
    half_edges[n + 2] = half(r, after_s, 0);
    half_edges[n + 3] = half(w, s, there.pin);
    half_edges[n + 5] = half(u, after_t, 0);
}

// One more vertex w, strictly inside the rectangle, in face f.
pub fn add(mesh: &mut MeshMut, w: Vertex, f: usize)
    requires sound { Sound (lent mesh.old) }
    requires inside { strictly_inside mesh.old.header.now (place w) ≡ true }
    requires within { f < face_count (lent mesh.old) }
    requires few { mesh.old.header.now.count < 1024 }
    requires vertices { mesh.old.header.now.count < length mesh.old.vertices.now }
    requires half_edges { in_use (lent mesh.old) + 6 ≤ length mesh.old.half_edges.now }
    ensures after { lent mesh.new ≡ added_in (lent mesh.old) w (Some f) }
    ensures loan { SameLoan mesh.old mesh.new }
{
    let seen = SoundMesh {
        mesh: mesh.as_ref(),
    };
    let n = seen.roomy().used();
    let crossed = seen.placed().crossed(w.point(), f);
    let v = mesh.header.count;
    match crossed {
        Some(s) => split_edge(mesh.half_edges, s, n, v as u16),
        None => split_face(mesh.half_edges, 3 * f, n, v as u16),
    }
    mesh.vertices[v as usize] = w;
    mesh.header.count += 1;
}

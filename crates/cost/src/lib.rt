// Costs of a mesh: a part for each face and a part for each interior edge.
#![tactic(auto)]

ghost use Rattle.std.specs.Prelude.{◌≡◌, ◌<◌, ◌≢◌, if◌then◌else◌};
ghost use Rattle.mesh.specs.Meshes.{seen, used, faces, twin_of, is_edge_number};
ghost use Rattle.cost.specs.Costs.{Parts, LawfulCost, fold, end as checked_end, face_cost as cost_of_face, edge_cost as cost_of_edge, face_sum as sum_of_faces, edge_sum as sum_of_edges, total as whole};
ghost use Rattle.cost.specs.Lawful.{fold_lawful};

pub mod combined;
pub mod corners;
pub mod laws;
pub mod length;
pub mod misfit;

use corners::{Edge, Face};
use mesh::checked::CheckedVertex;
use mesh::views::IndexedMesh;
use mesh::{next, previous};

// What a mesh is to have little of: a part for each face, and one for each interior edge.
pub trait Cost {
    ghost parts: { Self → Parts };

    fn face_part(&self, face: Face) -> u64
        ensures value { result ≡ (parts self.now).face face.a face.b face.c };

    fn edge_part(&self, edge: Edge) -> u64
        ensures value { result ≡ (parts self.now).edge edge.from edge.to edge.left edge.right };

    ghost lawful: { (c : Self) → LawfulCost (parts c) };
}

// How sharply the ground folds at the edges: six times the volume of the tetrahedron over each edge's four vertices.
#[derive(Drop, Clone, Copy)]
pub struct Fold {}

impl Cost for Fold {
    ghost parts = { λ _. fold };

    ghost lawful = { λ c. fold_lawful };

    fn face_part(&self, face: Face) -> u64 {
        0
    }

    fn edge_part(&self, edge: Edge) -> u64 {
        edge.volume().unsigned_abs()
    }
}

// Cost and mesh go side by side from here on: two borrows of two owners, and a struct of both would be made at each call.

// The vertex where half-edge s starts: as a cost gets it, so that the mesh need not stand in the plan, as for `origin_point`.
fn end(mesh: IndexedMesh, s: usize) -> CheckedVertex
    requires { s < used (seen mesh.mesh) }
    ensures { result ≡ checked_end (seen mesh.entry.mesh) s }
{
    let origin = mesh.mesh.half_edges[s].origin;
    mesh.mesh.vertices[usize::from(origin)].checked()
}

// What face f costs.
fn face_cost<C: Cost>(cost: &C, mesh: IndexedMesh, f: usize) -> u64
    requires { f < faces (seen mesh.mesh) }
    ensures { result ≡ cost_of_face (C.parts cost.now) (seen mesh.entry.mesh) f }
{
    cost.face_part(Face {
        a: end(mesh, 3 * f),
        b: end(mesh, 3 * f + 1),
        c: end(mesh, 3 * f + 2),
    })
}

// What the edge of half-edge s and its twin costs.
fn edge_cost<C: Cost>(cost: &C, mesh: IndexedMesh, s: usize) -> u64
    requires within { s < used (seen mesh.mesh) }
    requires twinned { twin_of (seen mesh.mesh) s ≢ 65535 }
    ensures { result ≡ cost_of_edge (C.parts cost.now) (seen mesh.entry.mesh) s }
{
    let twin = usize::from(mesh.mesh.half_edges[s].twin);
    let left = end(mesh, previous(s));
    let right = end(mesh, previous(twin));
    cost.edge_part(Edge {
        from: end(mesh, s),
        to: end(mesh, next(s)),
        left,
        right,
    })
}

// What half-edge s adds to the cost: an edge counts at the lower of its two numbers.
fn edge_share<C: Cost>(cost: &C, mesh: IndexedMesh, s: usize) -> u64
    requires { s < used (seen mesh.mesh) }
    ensures { result ≡ (if is_edge_number (seen mesh.entry.mesh) s then cost_of_edge (C.parts cost.now) (seen mesh.entry.mesh) s else 0) }
{
    if !mesh.roomy().is_edge_number(s) {
        return 0;
    }
    edge_cost(cost, mesh, s)
}

// What the faces cost.
pub fn face_sum<C: Cost>(cost: &C, mesh: IndexedMesh) -> u64
    ensures value { result ≡ sum_of_faces (C.parts cost.now) (seen mesh.entry.mesh) }
{
    (0..mesh.roomy().faces())
        .map(|f| face_cost(cost, mesh, f))
        .sum()
}

// What the interior edges cost.
pub fn edge_sum<C: Cost>(cost: &C, mesh: IndexedMesh) -> u64
    ensures value { result ≡ sum_of_edges (C.parts cost.now) (seen mesh.entry.mesh) }
{
    (0..mesh.roomy().used())
        .map(|s| edge_share(cost, mesh, s))
        .sum()
}

// What the mesh costs.
pub fn total<C: Cost>(cost: &C, mesh: IndexedMesh) -> u64
    ensures value { result ≡ whole (C.parts cost.now) (seen mesh.entry.mesh) }
{
    let of_faces = face_sum(cost, mesh);
    let of_edges = edge_sum(cost, mesh);
    of_faces + of_edges
}

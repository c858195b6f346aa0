// A triangulated rectangle in memory that the caller lends with each call.
#![tactic(auto)]

ghost use Rattle.std.specs.Prelude.{◌≡◌, ◌/◌, ◌<◌, not, ◌==◌};
ghost use Rattle.mesh.specs.Geometry.{checked as clamped, place, point as at};
ghost use Rattle.mesh.specs.Meshes.{mesh as of_parts, seen, next as after, previous as before, twin_if_any};
ghost use Rattle.mesh.specs.Refusals.{number as numbered};

pub mod checked;
pub mod edits;
pub mod geometry;
pub mod search;
pub mod soundness;
pub mod views;

use checked::CheckedVertex;

// The rectangle's extent and the number of vertices in use.
#[derive(Clone, Copy, PartialEq, Eq, Debug, Default)]
pub struct Header {
    pub width: u32,
    pub depth: u32,
    pub count: u32,
}

// A place in the plan.
#[derive(Clone, Copy, PartialEq, Eq, Debug)]
pub struct Point {
    pub east: u32,
    pub north: u32,
}

// A measured point of the ground.
#[derive(Clone, Copy, PartialEq, Eq, Debug, Default)]
pub struct Vertex {
    pub east: u32,
    pub north: u32,
    pub height: u32,
}

// The twin of a half-edge that has none.
pub const NO_TWIN: u16 = 65535;

// A directed side of a face: the vertex it starts from, the half-edge that runs back (65,535 for none), 1 if its edge is pinned.
// Twin and pin are numbers, since these are the caller's bytes, and a call may find any there.
#[derive(Clone, Copy, PartialEq, Eq, Debug, Default)]
pub struct HalfEdge {
    pub origin: u16,
    pub twin: u16,
    pub pin: u8,
}

// What a lay is asked for: the rectangle, and the heights of its corners.
#[derive(Clone, Copy, PartialEq, Eq, Debug)]
pub struct Plan {
    pub width: u32,
    pub depth: u32,
    pub sw: u32,
    pub se: u32,
    pub ne: u32,
    pub nw: u32,
}

// A mesh that is only looked at.
#[derive(Clone, Copy)]
pub struct MeshRef<'a> {
    pub header: &'a Header,
    pub vertices: &'a [Vertex],
    pub half_edges: &'a [HalfEdge],
}

// The three parts of a mesh, lent to be written. Each has a lifetime of its own: with one for all three, no call that lends them on is proved.
// Each function that takes one says by `SameLoan` that the lists lent stay the same, since a struct could have others put into it.
#[derive(Drop)]
pub struct MeshMut<'h, 'v, 'e> {
    pub header: &'h mut Header,
    pub vertices: &'v mut [Vertex],
    pub half_edges: &'e mut [HalfEdge],
}

impl MeshMut<'_, '_, '_> {
    // The same mesh, only looked at.
    pub fn as_ref(&self) -> MeshRef<'_>
        ensures { seen result ≡ of_parts self.now.header.now self.now.vertices.now self.now.half_edges.now }
    {
        MeshRef {
            header: self.header,
            vertices: self.vertices,
            half_edges: self.half_edges,
        }
    }
}

// Why a call is not carried out, each with the number by which it is known.
#[derive(Clone, Copy, PartialEq, Eq, Debug)]
pub enum Refusal {
    // Width or depth is outside 2 to 32,767.
    Extent = 1,
    // A height is above 32,767.
    Height = 2,
    // The lists have no room for the four corners or the six half-edges.
    TooShort = 3,
    // Header and lists are no mesh.
    Unsound = 4,
    // The point is not strictly inside the rectangle.
    Outside = 5,
    // A vertex stands there.
    Occupied = 6,
    // There is no room for one more vertex.
    Full = 7,
    // No face owns the point.
    Unowned = 8,
    // The number is no half-edge in use with a twin.
    NotInterior = 9,
    // The edge to flip or pin is pinned, or the one to unpin is not.
    PinState = 10,
    // The quadrilateral round the edge has no other diagonal inside.
    NotConvex = 11,
    // A names line is wrong, missing or unended.
    Names = 12,
    // A value line is missing, unended, or has a wrong count of fields or a bad value.
    Values = 13,
    // The buffer for a text is too short.
    Buffer = 14,
}

impl Refusal {
    // The number by which a refusal is known. A method and no `From`: the contract says which number. Rust
    // turns an enum's own number by `as` alone.
    pub fn number(self) -> u32
        ensures { result ≡ numbered self }
    {
        self as u32
    }
}

impl HalfEdge {
    // The half-edge that runs back, if there is one. An `if`, than which `then_some` would be no plainer.
    pub fn twin(self) -> Option<usize>
        ensures { result ≡ twin_if_any self }
    {
        if self.twin == NO_TWIN {
            None
        } else {
            Some(usize::from(self.twin))
        }
    }

    // Whether its edge is pinned.
    pub fn is_pinned(self) -> bool
        ensures { result ≡ not (self.pin == 0) }
    {
        self.pin != 0
    }
}

impl Vertex {
    // Where the vertex stands. A method and no `From`, here and below: a point is a part of a vertex and no other form of it.
    pub fn point(self) -> Point
        ensures { result ≡ place self }
    {
        Point {
            east: self.east,
            north: self.north,
        }
    }

    // The vertex as a cost gets it; no number of a sound mesh is cut. A `From` would not say that numbers may be cut.
    pub fn checked(self) -> CheckedVertex
        ensures { result ≡ clamped self }
    {
        CheckedVertex {
            east: self.east.min(32767),
            north: self.north.min(32767),
            height: self.height.min(32767),
        }
    }
}

impl CheckedVertex {
    // Where the vertex stands. One line for each type that has a place; a trait would be no shorter.
    pub fn point(self) -> Point
        ensures { result ≡ at self.east self.north }
    {
        let CheckedVertex { east, north, .. } = self;
        Point { east, north }
    }
}

// The next half-edge of the same face. This and `previous` differ in where they turn back, and not in a constant alone.
pub fn next(s: usize) -> usize
    requires { s < 65536 }
    ensures value { result ≡ after s }
    ensures face { result / 3 ≡ s / 3 }
{
    if s % 3 == 2 { s - 2 } else { s + 1 }
}

// The one before.
pub fn previous(s: usize) -> usize
    requires { s < 65536 }
    ensures value { result ≡ before s }
    ensures face { result / 3 ≡ s / 3 }
{
    if s % 3 == 0 { s + 2 } else { s - 1 }
}

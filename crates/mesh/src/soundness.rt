// Whether header, vertices and half-edges are a mesh of the rectangle. Each test reads only what the ones before it have shown to be there. `as` stands where Rust has no `From`.
ghost use Rattle.std.specs.Prelude.{◌≡◌, ◌+◌, ◌*◌, ◌<◌, ◌≤◌, true, false, not, T, length, is_some, is_ok, IfSome, MatchResult};
ghost use Rattle.mesh.specs.Meshes.{seen, used as in_use};
ghost use Rattle.arith.specs.Ranges.{every, tally};
ghost use Rattle.mesh.specs.Geometry.{InPlan};
ghost use Rattle.mesh.specs.Meshes.{origin_point, next as after, has_twin, is_edge_number, faces as face_count};
ghost use Rattle.mesh.specs.declared.Refusal.TheVariants.{Unsound};
ghost use Rattle.mesh.specs.Sound.{extent_fits, lists_fit, stands_at, strictly_inside, corners_stand, vertex_fits, origin_fits, pin_fits, on_border, along_border, border_agrees, twins_agree, twin_fits, face_turns, is_placed, is_joined, is_sound, Sound};

use crate::geometry::{Side, Triangle};
use crate::views::{PlacedMesh, RoomyMesh, SoundMesh};
use crate::{MeshRef, Point, Refusal, next};

// Whether width and depth are 2 to 32,767.
pub fn extent_fits(width: u32, depth: u32) -> bool
    ensures { result ≡ extent_fits width depth }
{
    2 <= width && width <= 32767 && 2 <= depth && depth <= 32767
}

impl<'a> MeshRef<'a> {
    // Whether a count of 4 to 1,024 vertices and their half-edges lie in the lists.
    fn lists_fit(self) -> bool
        ensures { result ≡ lists_fit (seen self.entry).header (length (seen self.entry).vertices) (length (seen self.entry).half_edges) }
    {
        let count = self.header.count;
        4 <= count
            && count <= 1024
            && count as usize <= self.vertices.len()
            && 6 * (count as usize - 3) <= self.half_edges.len()
    }

    // Whether w lies strictly inside the rectangle.
    pub fn strictly_inside(self, w: Point) -> bool
        ensures { result ≡ strictly_inside (seen self.entry).header w }
    {
        0 < w.east && w.east < self.header.width && 0 < w.north && w.north < self.header.depth
    }

    // Whether vertex v stands at w.
    pub(crate) fn stands_at(self, w: Point, v: usize) -> bool
        requires { v < length (seen self).vertices }
        ensures { result ≡ stands_at (seen self.entry) w v }
    {
        self.vertices[v].point() == w
    }

    // Whether the height of vertex v is in range, and v is a corner or strictly inside.
    fn vertex_fits(self, v: usize) -> bool
        requires { v < length (seen self).vertices }
        ensures { result ≡ vertex_fits (seen self.entry) v }
    {
        let vertex = self.vertices[v];
        vertex.height <= 32767 && (v < 4 || self.strictly_inside(vertex.point()))
    }

    // Whether half-edge s starts from a vertex in use.
    fn origin_fits(self, s: usize) -> bool
        requires { s < length (seen self).half_edges }
        ensures { result ≡ origin_fits (seen self.entry) s }
    {
        u32::from(self.half_edges[s].origin) < self.header.count
    }

    // Whether the pin of half-edge s is 0 or 1, and 0 if it has no twin.
    fn pin_fits(self, s: usize) -> bool
        requires { s < length (seen self).half_edges }
        ensures { result ≡ pin_fits (seen self.entry) s }
    {
        let half = self.half_edges[s];
        half.pin <= 1 && (half.twin().is_some() || !half.is_pinned())
    }

    // Whether both points lie on one border of the rectangle.
    fn on_border(self, a: Point, b: Point) -> bool
        ensures { result ≡ on_border (seen self.entry).header a b }
    {
        let width = self.header.width;
        let depth = self.header.depth;
        (a.east == 0 && b.east == 0)
            || (a.east == width && b.east == width)
            || (a.north == 0 && b.north == 0)
            || (a.north == depth && b.north == depth)
    }

    // The mesh with what the header and the lengths of the lists show, if they are in order. An `if`, here and in `placed`:
    // what the mesh then keeps is known in its branch.
    fn roomy(self) -> Option<RoomyMesh<'a>>
        ensures shown { is_some result ≡ lists_fit (seen self.entry).header (length (seen self.entry).vertices) (length (seen self.entry).half_edges) }
        ensures same { IfSome result (λ r. r.mesh ≡ self.entry) }
    {
        if self.lists_fit() {
            Some(RoomyMesh { mesh: self })
        } else {
            None
        }
    }

    // The mesh, if its vertices are in order and each half-edge starts from one.
    fn placed(self) -> Option<PlacedMesh<'a>>
        ensures shown { is_some result ≡ is_placed (seen self.entry) }
        ensures same { IfSome result (λ p. p.mesh ≡ self.entry) }
    {
        if !extent_fits(self.header.width, self.header.depth) {
            return None;
        }
        let roomy = self.roomy()?;
        if roomy.corners_stand() && roomy.vertices_fit() && roomy.origins_fit() {
            Some(PlacedMesh { mesh: self })
        } else {
            None
        }
    }

    // The mesh as one that is sound, or that it is not.
    pub fn sound(self) -> Result<SoundMesh<'a>, Refusal>
        ensures test { is_ok result ≡ is_sound (seen self.entry) }
        ensures cases { MatchResult result (λ s. s.mesh ≡ self.entry) (λ r. r ≡ Unsound) }
        ensures decides { (T (is_ok result) → Sound (seen self.entry)) × (Sound (seen self.entry) → T (is_ok result)) }
    {
        // No `ok_or`: the two ways to be refused stand side by side.
        let Some(placed) = self.placed() else {
            return Err(Refusal::Unsound); // the rest would read outside the lists
        };
        if !placed.is_joined() {
            return Err(Refusal::Unsound);
        }
        Ok(SoundMesh { mesh: self })
    }

    // Whether this is a mesh of the rectangle.
    pub fn is_sound(self) -> bool
        ensures test { result ≡ is_sound (seen self.entry) }
        ensures decides { (T result → Sound (seen self.entry)) × (Sound (seen self.entry) → T result) }
    {
        self.sound().is_ok()
    }
}

impl<'a> RoomyMesh<'a> {
    // How many half-edges are in use. That and the number of faces are no method with a constant: each is a number of its own.
    pub fn used(self) -> usize
        ensures { result ≡ in_use (seen self.entry.mesh) }
    {
        6 * (self.mesh.header.count as usize - 3)
    }

    // How many faces there are.
    pub fn faces(self) -> usize
        ensures { result ≡ face_count (seen self.entry.mesh) }
    {
        2 * (self.mesh.header.count as usize - 3)
    }

    // Whether s is the number of an interior edge: it has a twin, and the twin's number is higher. None counts as 0, which
    // no number is below, so that one comparison tells both.
    pub fn is_edge_number(self, s: usize) -> bool
        requires { s < in_use (seen self.mesh) }
        ensures { result ≡ is_edge_number (seen self.entry.mesh) s }
    {
        s < self.mesh.half_edges[s].twin().unwrap_or(0)
    }

    // Whether vertices 0 to 3 stand at the corners.
    fn corners_stand(self) -> bool
        ensures { result ≡ corners_stand (seen self.entry.mesh) }
    {
        let mesh = self.mesh;
        let width = mesh.header.width;
        let depth = mesh.header.depth;
        mesh.stands_at(Point { east: 0, north: 0 }, 0)
            && mesh.stands_at(
                Point {
                    east: width,
                    north: 0,
                },
                1,
            )
            && mesh.stands_at(
                Point {
                    east: width,
                    north: depth,
                },
                2,
            )
            && mesh.stands_at(
                Point {
                    east: 0,
                    north: depth,
                },
                3,
            )
    }

    fn vertices_fit(self) -> bool
        ensures { result ≡ every (vertex_fits (seen self.entry.mesh)) (seen self.entry.mesh).header.count }
    {
        (0..self.mesh.header.count as usize).all(|v| self.mesh.vertex_fits(v))
    }

    fn origins_fit(self) -> bool
        ensures { result ≡ every (origin_fits (seen self.entry.mesh)) (in_use (seen self.entry.mesh)) }
    {
        (0..self.used()).all(|s| self.mesh.origin_fits(s))
    }

    fn pins_fit(self) -> bool
        ensures { result ≡ every (pin_fits (seen self.entry.mesh)) (in_use (seen self.entry.mesh)) }
    {
        (0..self.used()).all(|s| self.mesh.pin_fits(s))
    }

    // Whether half-edges s and t are twins: each names the other, they run opposite ways, their pins agree.
    fn twins_agree(self, s: usize, t: usize) -> bool
        requires within { s < in_use (seen self.mesh) }
        requires other { t < in_use (seen self.mesh) }
        ensures { result ≡ twins_agree (seen self.entry.mesh) s t }
    {
        let half_edges = self.mesh.half_edges;
        let there = half_edges[s];
        let back = half_edges[t];
        usize::from(back.twin) == s
            && back.origin == half_edges[next(s)].origin
            && half_edges[next(t)].origin == there.origin
            && back.pin == there.pin
    }

    // Whether half-edge s has no twin, or one that agrees with it.
    fn twin_fits(self, s: usize) -> bool
        requires { s < in_use (seen self.mesh) }
        ensures { result ≡ twin_fits (seen self.entry.mesh) s }
    {
        match self.mesh.half_edges[s].twin() {
            Some(t) => t < self.used() && self.twins_agree(s, t),
            None => true,
        }
    }

    // Not inlined: beside the other passes its loop runs short of registers.
    #[inline(never)]
    fn twins_fit(self) -> bool
        ensures { result ≡ every (twin_fits (seen self.entry.mesh)) (in_use (seen self.entry.mesh)) }
    {
        (0..self.used()).all(|s| self.twin_fits(s))
    }

    // How many half-edges have no twin.
    fn border_count(self) -> usize
        ensures { result ≡ tally (λ s. not (has_twin (seen self.entry.mesh) s)) (in_use (seen self.entry.mesh)) }
    {
        (0..self.used())
            .filter(|s| self.mesh.half_edges[*s].twin().is_none())
            .count()
    }
}

impl<'a> PlacedMesh<'a> {
    // Where half-edge s starts.
    pub fn origin_point(self, s: usize) -> Point
        requires { s < in_use (seen self.mesh) }
        ensures value { result ≡ origin_point (seen self.entry.mesh) s }
        ensures in_plan { InPlan result }
    {
        let origin = self.mesh.half_edges[s].origin;
        self.mesh.vertices[usize::from(origin)].point()
    }

    // Half-edge s in the plan.
    pub fn side(self, s: usize) -> Side
        requires { s < in_use (seen self.mesh) }
        ensures from { result.from ≡ origin_point (seen self.entry.mesh) s }
        ensures to { result.to ≡ origin_point (seen self.entry.mesh) (after s) }
    {
        Side {
            from: self.origin_point(s),
            to: self.origin_point(next(s)),
        }
    }

    // Face f in the plan.
    pub(crate) fn triangle(self, f: usize) -> Triangle
        requires { f < face_count (seen self.mesh) }
        ensures a { result.a ≡ origin_point (seen self.entry.mesh) (3 * f) }
        ensures b { result.b ≡ origin_point (seen self.entry.mesh) (3 * f + 1) }
        ensures c { result.c ≡ origin_point (seen self.entry.mesh) (3 * f + 2) }
    {
        Triangle {
            a: self.origin_point(3 * f),
            b: self.origin_point(3 * f + 1),
            c: self.origin_point(3 * f + 2),
        }
    }

    // Whether half-edge s has no twin exactly if it runs along a border.
    fn border_agrees(self, s: usize) -> bool
        requires { s < in_use (seen self.mesh) }
        ensures { result ≡ border_agrees (seen self.entry.mesh) s }
    {
        let Side { from, to } = self.side(s);
        self.mesh.half_edges[s].twin().is_none() == self.mesh.on_border(from, to)
    }

    fn borders_agree(self) -> bool
        ensures { result ≡ every (border_agrees (seen self.entry.mesh)) (in_use (seen self.entry.mesh)) }
    {
        (0..self.roomy().used()).all(|s| self.border_agrees(s))
    }

    fn faces_turn(self) -> bool
        ensures { result ≡ every (face_turns (seen self.entry.mesh)) (face_count (seen self.entry.mesh)) }
    {
        (0..self.roomy().faces()).all(|f| self.triangle(f).turns())
    }

    // Whether the faces turn, and fit together along their half-edges.
    fn is_joined(self) -> bool
        ensures { result ≡ is_joined (seen self.entry.mesh) }
    {
        let roomy = self.roomy();
        roomy.pins_fit()
            && self.borders_agree()
            && roomy.twins_fit()
            && self.faces_turn()
            && roomy.border_count() == 4
    }
}

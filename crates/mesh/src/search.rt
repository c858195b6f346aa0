// Where a point lies in a mesh. `as` stands where Rust has no `From`.
ghost use Rattle.std.specs.Prelude.{◌≡◌, ◌<◌};
ghost use Rattle.mesh.specs.Edits.{on_line, crossed as crossed_side};
ghost use Rattle.mesh.specs.Meshes.{seen, faces as face_count, used as in_use, face_owns, owner as first_owner};
ghost use Rattle.mesh.specs.Sound.{is_occupied};

use crate::Point;
use crate::views::{PlacedMesh, RoomyMesh};

impl<'a> RoomyMesh<'a> {
    // Whether a vertex stands at w.
    pub fn is_occupied(self, w: Point) -> bool
        ensures { result ≡ is_occupied (seen self.entry.mesh) w }
    {
        (0..self.mesh.header.count as usize).any(|v| self.mesh.stands_at(w, v))
    }
}

impl<'a> PlacedMesh<'a> {
    // Whether face f owns w.
    fn face_owns(self, w: Point, f: usize) -> bool
        requires { f < face_count (seen self.mesh) }
        ensures { result ≡ face_owns (seen self.entry.mesh) w f }
    {
        self.triangle(f).owns(w)
    }

    // The first face that owns w.
    pub fn owner(self, w: Point) -> Option<usize>
        ensures { result ≡ first_owner (seen self.entry.mesh) w }
    {
        (0..self.roomy().faces()).find(|f| self.face_owns(w, *f))
    }

    // Whether w lies on the line of half-edge s.
    fn on_line(self, w: Point, s: usize) -> bool
        requires { s < in_use (seen self.mesh) }
        ensures { result ≡ on_line (seen self.entry.mesh) w s }
    {
        self.side(s).orientation(w) == 0
    }

    // The half-edge of face f on whose line w lies.
    pub(crate) fn crossed(self, w: Point, f: usize) -> Option<usize>
        requires { f < face_count (seen self.mesh) }
        ensures { result ≡ crossed_side (seen self.entry.mesh) w f }
    {
        (3 * f..3 * f + 3).find(|s| self.on_line(w, *s))
    }
}

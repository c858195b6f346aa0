// How far the faces of a mesh lie from readings of the ground. `as` stands where Rust has no `From`.
ghost use Rattle.std.specs.Prelude.{◌≡◌, ◌≤◌, true, List};
ghost use Rattle.cost.specs.declared.misfit.Reading.{Reading};
ghost use Rattle.cost.specs.Costs.{weight as weighs, face_owns as owning, face_height as height_at, reading_point, misfit_at as adds, misfit as misfit_of};
ghost use Rattle.cost.specs.Misfits.{misfit_lawful};

use crate::Cost;
use crate::corners::{Edge, Face, side};
use crate::length::square_gap;
use mesh::Point;
use mesh::checked::CheckedVertex;

// A reading above this height does not count.
const HIGHEST: u32 = 32767;

// A measured height that is no vertex of the mesh, and no `Vertex` either, so that none is taken for the other. Its numbers may be any.
#[derive(Clone, Copy, PartialEq, Eq, Debug)]
pub struct Reading {
    pub east: u32,
    pub north: u32,
    pub height: u32,
}

// Where readings are kept.
pub trait Readings {
    ghost list: { Self → List Reading };

    // The readings, in order.
    fn lent(&self) -> &[Reading]
        ensures value { result.now ≡ list self.now };
}

impl<'a> Readings for &'a [Reading] {
    ghost list = { λ s. s.now };

    fn lent(&self) -> &[Reading] {
        *self
    }
}

// The squared differences between the readings and the faces that own them; only the first 4,096 readings count.
// Generic in where the readings are kept: for a slice alone a cost could not own what it reads.
#[derive(Drop)]
pub struct Misfit<R: Readings> {
    pub readings: R,
}

// How much the corner opposite the side a → b weighs at w.
fn weight(a: CheckedVertex, b: CheckedVertex, w: Point) -> u64
    ensures { result ≡ weighs a b w }
{
    side(a, b).orientation(w).unsigned_abs()
}

impl Face {
    // Whether the face owns the point w.
    fn owns(self, w: Point) -> bool
        ensures { result ≡ owning self.a self.b self.c w }
    {
        self.plan().owns(w)
    }

    // The height of the face at a point that it owns, rounded down.
    fn height_at(self, w: Point) -> u32
        requires { owning self.a self.b self.c w ≡ true }
        ensures value { result ≡ height_at self.a self.b self.c w }
        ensures low { result ≤ 32767 }
    {
        let Face { a, b, c } = self;
        let sum = u64::from(a.height) * weight(b, c, w)
            + u64::from(b.height) * weight(c, a, w)
            + u64::from(c.height) * weight(a, b, w);
        let whole = weight(a, b, c.point());
        (sum / whole) as u32
    }
}

impl Reading {
    // Where the reading was taken. A vertex has a `point` too, of one line as well; a trait would be no shorter.
    fn point(self) -> Point
        ensures { result ≡ reading_point self }
    {
        Point {
            east: self.east,
            north: self.north,
        }
    }

    // What the reading adds to a face.
    fn misfit(self, face: Face) -> u64
        ensures value { result ≡ adds face.a face.b face.c self }
        ensures small { result ≤ 1073676289 }
    {
        let w = self.point();
        if self.height > HIGHEST || !face.owns(w) {
            return 0;
        }
        square_gap(self.height, face.height_at(w))
    }
}

impl<R: Readings> Cost for Misfit<R> {
    ghost parts = { λ m. misfit_of (R.Readings.list m.readings) };

    ghost lawful = { λ m. misfit_lawful (R.Readings.list m.readings) };

    // A loop over the lent elements, which counts no index; that it stays below 2^48 is shown step by step.
    fn face_part(&self, face: Face) -> u64 {
        let mut sum = 0;
        for reading in self.readings.lent().iter().take(4096) {
            sum += reading.misfit(face);
        }
        sum
    }

    fn edge_part(&self, edge: Edge) -> u64 {
        0
    }
}

// Which side of a line a point lies on, and which face owns it.
ghost use Rattle.std.specs.Prelude.{◌≡◌};
ghost use Rattle.mesh.specs.Geometry.{InPlan, orientation as oriented, positive, keeps as keeping, admits as admitting, owns as owning};

use crate::Point;
use arith::{determinant, difference};

// A directed side of a face; no coordinate of its ends is above 32,767.
#[derive(Clone, Copy)]
pub struct Side {
    pub from: Point,
    pub to: Point,
    ghost start: { InPlan from },
    ghost end: { InPlan to },
}

impl Side {
    // Twice the signed area of the triangle over the side at w: above 0 if w lies left of it.
    pub fn orientation(self, w: Point) -> i64
        ensures { result ≡ oriented self.from self.to w }
    {
        let Side { from, to } = self;
        determinant(
            difference(from.east, to.east),
            difference(from.north, w.north),
            difference(from.north, to.north),
            difference(from.east, w.east),
        )
    }

    // Whether the side keeps the points on it: it runs south, or exactly west.
    fn keeps(self) -> bool
        ensures { result ≡ keeping self.from self.to }
    {
        let Side { from, to } = self;
        to.north < from.north || (to.north == from.north && to.east < from.east)
    }

    // Whether w lies left of the side, or on its line if the side keeps its points.
    fn admits(self, w: Point) -> bool
        ensures { result ≡ admitting self.from self.to w }
    {
        let area = self.orientation(w);
        area > 0 || (area == 0 && self.keeps())
    }
}

// A triangle in the plan; no coordinate of its corners is above 32,767.
#[derive(Clone, Copy)]
pub struct Triangle {
    pub a: Point,
    pub b: Point,
    pub c: Point,
    ghost first: { InPlan a },
    ghost second: { InPlan b },
    ghost third: { InPlan c },
}

impl Triangle {
    // Whether the corners go round counterclockwise.
    pub fn turns(self) -> bool
        ensures { result ≡ positive (oriented self.a self.b self.c) }
    {
        let Triangle { a, b, c } = self;
        Side { from: a, to: b }.orientation(c) > 0
    }

    // Whether the triangle owns the point w. Always inlined: a caller asks one triangle of many points, or many of one.
    #[inline(always)]
    pub fn owns(self, w: Point) -> bool
        ensures { result ≡ owning self.a self.b self.c w }
    {
        let Triangle { a, b, c } = self;
        self.turns()
            && Side { from: a, to: b }.admits(w)
            && Side { from: b, to: c }.admits(w)
            && Side { from: c, to: a }.admits(w)
    }
}

// What a cost is asked about: a face or an edge, by its vertices.
ghost use Rattle.std.specs.Prelude.{◌≡◌, ◌^◌, ◌≤◌, ℤ, ◌+ℤ◌, ◌*ℤ◌, unsigned_abs};
ghost use Rattle.cost.specs.Costs.{distance, plan_point, area as plan_area, volume as six_volume};

use arith::{determinant, difference};
use mesh::checked::CheckedVertex;
use mesh::geometry::{Side, Triangle};

// The corners of a face, in its order.
#[derive(Clone, Copy)]
pub struct Face {
    pub a: CheckedVertex,
    pub b: CheckedVertex,
    pub c: CheckedVertex,
}

// The two ends of an edge, and the third corners left and right of it.
#[derive(Clone, Copy)]
pub struct Edge {
    pub from: CheckedVertex,
    pub to: CheckedVertex,
    pub left: CheckedVertex,
    pub right: CheckedVertex,
}

// The side from a to b in the plan.
pub(crate) fn side(a: CheckedVertex, b: CheckedVertex) -> Side
    ensures from { result.from ≡ plan_point a }
    ensures to { result.to ≡ plan_point b }
{
    Side {
        from: a.point(),
        to: b.point(),
    }
}

// How far b lies above a.
fn rise(a: CheckedVertex, b: CheckedVertex) -> i64
    ensures value { result ≡ distance a.height b.height }
    ensures small { unsigned_abs result ≤ 32767 }
{
    difference(a.height, b.height)
}

// The sum and a product.
fn plus_product(sum: i64, p: i64, q: i64) -> i64
    requires sum { unsigned_abs sum ≤ 2 ^ 49 }
    requires p { unsigned_abs p ≤ 32767 }
    requires q { unsigned_abs q ≤ 2 ^ 32 }
    ensures value { result ≡ sum +ℤ p *ℤ q }
{
    sum + p * q
}

impl Face {
    // The face in the plan.
    pub(crate) fn plan(self) -> Triangle
        ensures a { result.a ≡ plan_point self.a }
        ensures b { result.b ≡ plan_point self.b }
        ensures c { result.c ≡ plan_point self.c }
    {
        Triangle {
            a: self.a.point(),
            b: self.b.point(),
            c: self.c.point(),
        }
    }

    // Twice the signed area of the face in the plan.
    fn area(self) -> i64
        ensures value { result ≡ plan_area self.a self.b self.c }
        ensures small { unsigned_abs result ≤ 2 ^ 32 }
    {
        side(self.a, self.b).orientation(self.c.point())
    }
}

impl Edge {
    // Six times the signed volume of the tetrahedron over the four vertices.
    pub(crate) fn volume(self) -> i64
        ensures value { result ≡ six_volume self.from self.to self.left self.right }
    {
        let Edge {
            from: a,
            to: b,
            left: l,
            right: r,
        } = self;
        let two = determinant(
            rise(a, b),
            Face { a, b: l, c: r }.area(),
            rise(a, l),
            Face { a, b, c: r }.area(),
        );
        plus_product(two, rise(a, r), Face { a, b, c: l }.area())
    }
}

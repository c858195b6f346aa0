// The squared plan distance of an edge's ends.
ghost use Rattle.std.specs.Prelude.{◌≡◌, ◌≤◌};
ghost use Rattle.cost.specs.Costs.{square_gap, length as plan_length};
ghost use Rattle.cost.specs.Lawful.{length_lawful};

use crate::Cost;
use crate::corners::{Edge, Face};

#[derive(Drop, Clone, Copy)]
pub struct Length {}

pub(crate) fn square_gap(x: u32, y: u32) -> u64
    requires x { x ≤ 32767 }
    requires y { y ≤ 32767 }
    ensures value { result ≡ square_gap x y }
    ensures small { result ≤ 1073676289 }
{
    let gap = u64::from(x.abs_diff(y));
    gap * gap
}

impl Cost for Length {
    ghost parts = { λ _. plan_length };

    ghost lawful = { λ _. length_lawful };

    fn face_part(&self, face: Face) -> u64 {
        0
    }

    fn edge_part(&self, edge: Edge) -> u64 {
        let Edge { from, to, .. } = edge;
        square_gap(from.east, to.east) + square_gap(from.north, to.north)
    }
}

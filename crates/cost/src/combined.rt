// Costs made of other costs.
ghost use Rattle.cost.specs.Costs.{joint, scaled};
ghost use Rattle.cost.specs.Lawful.{joint_lawful, scaled_lawful};

use crate::Cost;
use crate::corners::{Edge, Face};

const CAP: u64 = 1 << 48;

// The sum of two costs, each part at most 2^48.
#[derive(Drop)]
pub struct Joint<A: Cost, B: Cost> {
    pub first: A,
    pub second: B,
}

impl<A: Cost, B: Cost> Cost for Joint<A, B> {
    ghost parts = { λ j. joint (A.Cost.parts j.first) (B.Cost.parts j.second) };

    ghost lawful = { λ j. joint_lawful (A.Cost.lawful j.first) (B.Cost.lawful j.second) };

    fn face_part(&self, face: Face) -> u64 {
        let sum = self.first.face_part(face) + self.second.face_part(face);
        sum.min(CAP)
    }

    fn edge_part(&self, edge: Edge) -> u64 {
        let sum = self.first.edge_part(edge) + self.second.edge_part(edge);
        sum.min(CAP)
    }
}

// A cost times a weight, each part at most 2^48; a weight above 16 counts as 16.
#[derive(Drop)]
pub struct Scaled<C: Cost> {
    pub cost: C,
    pub weight: u32,
}

impl<C: Cost> Cost for Scaled<C> {
    ghost parts = { λ s. scaled s.weight (C.Cost.parts s.cost) };

    ghost lawful = { λ s. scaled_lawful s.weight (C.Cost.lawful s.cost) };

    fn face_part(&self, face: Face) -> u64 {
        let part = u64::from(self.weight.min(16)) * self.cost.face_part(face);
        part.min(CAP)
    }

    fn edge_part(&self, edge: Edge) -> u64 {
        let part = u64::from(self.weight.min(16)) * self.cost.edge_part(edge);
        part.min(CAP)
    }
}

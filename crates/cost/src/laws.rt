// What joint and scaled costs come to over a whole mesh: two of the laws that the question for the cost has, each alone on
// the contract of a function that does nothing, for callers that have neither a job nor a mesh.
ghost use Rattle.cost.specs.Laws.{JointAdds, ScaledMultiplies};

// Where no part reaches the cap, a mesh's joint cost is the sum of the two costs.
pub fn joint_adds() -> u8
    ensures { JointAdds }
{
    0
}

// Where no part reaches the cap, a mesh's scaled cost is its cost times the weight.
pub fn scaled_multiplies() -> u8
    ensures { ScaledMultiplies }
{
    0
}

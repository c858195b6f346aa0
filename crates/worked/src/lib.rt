// Worked examples of the calls.
#![tactic(auto)]

ghost use Rattle.std.specs.Prelude.{◌≡◌};
ghost use Rattle.cost.specs.Costs.{fold, total};
ghost use Rattle.worked.specs.Worked.{Worked, square};

// What the rectangle of the examples costs. Its contract holds the examples: what each call answers and leaves on a small rectangle, and nothing else.
pub fn worked_examples() -> u64
    ensures examples { Worked }
    ensures cost { result ≡ total fold square.mesh }
{
    64
}

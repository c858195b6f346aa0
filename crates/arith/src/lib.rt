// Signed arithmetic on coordinates, in numbers that cannot overflow.
#![tactic(auto)]

ghost use Rattle.std.specs.Prelude.{◌≡◌, ◌^◌, ◌≤◌, ℤ, pos, ◌-ℤ◌, ◌*ℤ◌, unsigned_abs};

// How far `to` lies beyond `from`: below 0 if it falls short.
pub fn difference(from: u32, to: u32) -> i64
    ensures { result ≡ pos to -ℤ pos from }
{
    i64::from(to) - i64::from(from)
}

// The determinant p q − r s, whose left column is short.
pub fn determinant(p: i64, q: i64, r: i64, s: i64) -> i64
    requires p { unsigned_abs p ≤ 32767 }
    requires q { unsigned_abs q ≤ 2 ^ 32 }
    requires r { unsigned_abs r ≤ 32767 }
    requires s { unsigned_abs s ≤ 2 ^ 32 }
    ensures { result ≡ p *ℤ q -ℤ r *ℤ s }
{
    p * q - r * s
}

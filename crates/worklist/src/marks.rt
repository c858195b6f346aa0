// Tables of marks, one for each number. `as` stands where Rust has no `From`.
ghost use Rattle.std.specs.Prelude.{◌≡◌, ◌+◌, true, drop, if◌then◌else◌, option_map, position, slice_set};
ghost use Rattle.worklist.specs.Orders.{unmarked};

// Marks k, and answers whether that is new: a number past the table's end has no mark.
pub(crate) fn mark(listed: &mut [bool], k: u32) -> bool
    ensures value { result ≡ unmarked listed.old k }
    ensures after { listed.new ≡ (if result then slice_set listed.old k true else listed.old) }
{
    let at = k as usize;
    let new = listed.get(at) == Some(&false);
    if new {
        listed[at] = true;
    }
    new
}

// The first marked number.
fn first_mark(listed: &[bool]) -> Option<usize>
    ensures value { result ≡ position (λ marked. marked) listed.now }
{
    listed.iter().position(|marked| *marked)
}

// The first marked number from `from` on.
pub(crate) fn next_mark(listed: &[bool], from: usize) -> Option<usize>
    ensures value { result ≡ option_map (λ k. from + k) (position (λ marked. marked) (drop from listed.now)) }
{
    let rest = listed.get(from..)?;
    Some(from + first_mark(rest)?)
}

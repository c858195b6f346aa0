// A line cut into fields, and the numbers in them. `as` stands where Rust has no `From`.
ghost use Rattle.std.specs.Prelude.{◌≡◌, ℕ, ◌+◌, ◌-◌, ◌<◌, ◌≤◌, length, if◌then◌else◌, Ok, Err, MatchResult};
ghost use Rattle.std.specs.Option.{ok_or};
ghost use Rattle.mesh.specs.declared.Refusal.TheVariants.{Values};
ghost use Rattle.text.specs.Pieces.{pieces};
ghost use Rattle.text.specs.Values.{is_digit, all_digits, read_on, value, values_from, values};

use crate::LineFault;
use crate::pieces::piece_count;
use mesh::Refusal;

// The number that a byte writes. A pattern: the library's `to_digit` is one of characters.
fn digit(b: u8) -> Result<u32, Refusal>
    ensures { result ≡ (if is_digit b then Ok (b - 48) else Err Values) }
{
    match b {
        b'0'..=b'9' => Ok(u32::from(b - b'0')),
        _ => Err(Refusal::Values),
    }
}

// The number that digits write after n.
fn read_on(mut n: u32, digits: &[u8]) -> Result<u32, Refusal>
    requires small { n ≤ 9 }
    requires few { length digits.now ≤ 4 }
    ensures { result ≡ (if all_digits digits.now then Ok (read_on n digits.now) else Err Values) }
{
    for b in digits {
        n = 10 * n + digit(*b)?;
    }
    Ok(n)
}

// The number in a field.
pub fn value(field: &[u8]) -> Result<u32, Refusal>
    ensures { result ≡ ok_or (value field.now) Values }
{
    let [first, rest @ ..] = field else {
        return Err(Refusal::Values);
    };
    if rest.len() > 4 || (*first == b'0' && rest.len() > 0) {
        return Err(Refusal::Values);
    }
    read_on(digit(*first)?, rest)
}

// The values of the fields of a line, which are as many as the places of `out`. They are written there and not answered
// as an array, since no loop over an iterator that borrows is proved in a function with a const parameter.
fn read_fields(line: &[u8], out: &mut [u32]) -> Result<(), LineFault>
    requires few { length out.old ≤ 6 }
    requires count { length (pieces 32 line.now) ≡ length out.old }
    ensures { MatchResult result (λ _. values_from 1 (pieces 32 line.now) ≡ Ok out.new) (λ fault. values_from 1 (pieces 32 line.now) ≡ Err fault) }
{
    for (i, bytes) in line.split(|b| *b == b' ').enumerate() {
        let field = i as u32 + 1;
        out[i] = value(bytes).map_err(|refusal| LineFault { field, refusal })?;
    }
    Ok(())
}

// The values of a line of N fields.
#[tactic(auto, unfolding(crate::specs::Values::values))]
pub fn values<const N: usize>(line: &[u8]) -> Result<[u32; N], LineFault>
    requires { N ≤ 6 }
    ensures { result ≡ values N line.now }
{
    if piece_count(line, b' ') != N {
        return Err(LineFault::of_line(Refusal::Values));
    }
    let mut out = [0; N];
    read_fields(line, &mut out)?;
    Ok(out)
}

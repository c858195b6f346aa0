// A text cut at its separators.
ghost use Rattle.std.specs.Prelude.{◌≡◌, ℕ, ◌+◌, ◌<◌, ◌∷◌, ◌++◌, length, MatchOption};
ghost use Rattle.text.specs.Pieces.{pieces, Lacks};

// The bytes before the first separator and those after it, if there is one.
pub fn cut(bytes: &[u8], separator: u8) -> Option<(&[u8], &[u8])>
    ensures { MatchOption result (Lacks separator bytes.now) (λ p. Lacks separator p.0.now × (bytes.now ≡ p.0.now ++ (separator ∷ p.1.now))) }
{
    let at = bytes.iter().position(|b| *b == separator)?;
    Some((&bytes[..at], &bytes[at + 1..]))
}

// How many pieces there are: one more than separators.
pub fn piece_count(bytes: &[u8], separator: u8) -> usize
    ensures { result ≡ length (pieces separator bytes.now) }
{
    bytes.iter().filter(|b| **b == separator).count() + 1
}

// Parts of a line.
ghost use Rattle.std.specs.Prelude.{MatchOption, Contains};
ghost use Rattle.text.specs.Lines.{IsAbsent, IsFirst, IsCut};

// The place of the first such byte.
pub fn find(s: &[u8], byte: u8) -> Option<usize>
    ensures { MatchOption result (IsAbsent byte s.now) (IsFirst byte s.now) }
{
    s.iter().position(|b| *b == byte)
}

// What stands before the first such byte, and what stands after it.
pub fn split_once(s: &[u8], byte: u8) -> Option<(&[u8], &[u8])>
    ensures { MatchOption result (Contains s.now byte → ⊥) (λ p. IsCut byte s.now p.0.now p.1.now) }
{
    let at = find(s, byte)?;
    Some((&s[..at], &s[at + 1..]))
}

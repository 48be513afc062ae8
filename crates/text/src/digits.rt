// Decimal numbers.
ghost use Rattle.std.specs.Prelude.{◌≡◌, cond, ◌-◌};
ghost use Rattle.text.specs.Decimal.{is_digit, decimal_of};

// A number from its decimal digits, up to 2^64 - 1.
pub fn decimal(s: &[u8]) -> Option<u64>
    ensures { result ≡ decimal_of s.now }
{
    if s.is_empty() {
        return None;
    }
    let mut x: u64 = 0;
    for b in s {
        x = x.checked_mul(10)?.checked_add(digit(*b)?)?;
    }
    Some(x)
}

// A decimal digit's number.
#[tactic(auto, unfolding(crate::specs::Decimal::is_digit))]
fn digit(b: u8) -> Option<u64>
    ensures { result ≡ cond (is_digit b) (Some (b - 48)) None }
{
    match b {
        b'0'..=b'9' => Some(u64::from(b - b'0')),
        _ => None,
    }
}

// Bytes in hex, two digits each.
ghost use Rattle.std.specs.Prelude.{◌≡◌, ◌<◌, IfSome};
ghost use Rattle.std.specs.Result.{result_map_both};
ghost use Rattle.text.specs.Buffer.{buffer_bytes};
ghost use Rattle.text.specs.Hex.{digit_of, pair_of, bytes_of, within};

use crate::buffer::Buffer;

// A hex digit's number, in either case.
#[tactic(auto, unfolding(crate::specs::Hex::digit_of))]
fn digit(b: u8) -> Option<u8>
    ensures number { result ≡ digit_of b }
    ensures below { IfSome result (λ x. x < 16) }
{
    match b {
        b'0'..=b'9' => Some(b - b'0'),
        b'a'..=b'f' => Some(b - b'a' + 10),
        b'A'..=b'F' => Some(b - b'A' + 10),
        _ => None,
    }
}

// The byte of two digits.
#[tactic(auto, unfolding(crate::specs::Hex::pair_of, crate::specs::Hex::both))]
pub(crate) fn pair(high: u8, low: u8) -> Option<u8>
    ensures { result ≡ pair_of high low }
{
    Some(16 * digit(high)? + digit(low)?)
}

// Why a text gives no bytes: it is no hex, or its bytes are more than there is room for.
#[derive(Clone, Copy, PartialEq, Eq)]
pub enum HexError {
    NotHex,
    TooLong,
}

// The bytes of a hex text, at least one and at most N.
pub fn bytes_within<const N: usize>(s: &[u8]) -> Result<Buffer<N>, HexError>
    ensures { result_map_both buffer_bytes (λ e. e) result ≡ within N (bytes_of s.now) }
{
    if s.is_empty() {
        return Err(HexError::NotHex);
    }
    let mut room = [0; N];
    let mut count = 0;
    let mut rest = s;
    while let [high, low, after @ ..] = rest {
        let Some(byte) = pair(*high, *low) else {
            return Err(HexError::NotHex);
        };
        if count < N {
            room[count] = byte;
        }
        count += 1;
        rest = after;
    }
    if rest.is_empty() {
        if count > N {
            return Err(HexError::TooLong);
        }
        Ok(Buffer { room, count })
    } else {
        Err(HexError::NotHex)
    }
}

#[cfg(test)]
mod tests {
    use super::*;
    use std::test::Fail;

    #[test]
    fn bytes_of_a_text(rt: HostRuntime) -> Result<(), Fail> {
        let read = bytes_within::<2>(b"0aFf").ok().ok_or("no bytes")?;
        assert_eq!(rt; read.as_slice(), [0x0a, 0xff].as_slice());
        Ok(())
    }

    #[test]
    fn no_bytes(rt: HostRuntime) {
        assert!(rt; bytes_within::<2>(b"").err() == Some(HexError::NotHex));
        assert!(rt; bytes_within::<2>(b"0").err() == Some(HexError::NotHex));
        assert!(rt; bytes_within::<2>(b"0g").err() == Some(HexError::NotHex));
    }

    #[test]
    fn too_many_bytes(rt: HostRuntime) {
        assert!(rt; bytes_within::<2>(b"012345").err() == Some(HexError::TooLong));
        assert!(rt; bytes_within::<2>(b"0123450").err() == Some(HexError::NotHex));
        assert!(rt; bytes_within::<2>(b"01234g").err() == Some(HexError::NotHex));
    }
}

// Bytes in hex on the heap, of a text of any length.
ghost use Rattle.std.specs.Prelude.{◌≡◌, IfOk, option_map};
ghost use Rattle.text.specs.Hex.{bytes_of};

use crate::hex::pair;
use std::alloc::{AllocError, Global};

// The bytes of a hex text, at least one.
pub fn bytes(alloc: Global, s: &[u8]) -> Result<Option<Vec<u8>>, AllocError>
    ensures { IfOk result (λ o. option_map (λ v. v.items) o ≡ bytes_of s.now) }
{
    if s.is_empty() {
        return Ok(None);
    }
    let mut out = Vec::new(alloc);
    let mut rest = s;
    while let [high, low, after @ ..] = rest {
        let Some(byte) = pair(*high, *low) else {
            return Ok(None);
        };
        out.push(byte)?;
        rest = after;
    }
    if rest.is_empty() {
        Ok(Some(out))
    } else {
        Ok(None)
    }
}

#[cfg(test)]
mod tests {
    use super::*;
    use std::test::Fail;

    #[test]
    fn bytes_of_a_text(rt: HostRuntime) -> Result<(), Fail> {
        let read = bytes(rt.alloc(), b"0aFf")?.ok_or("no bytes")?;
        assert_eq!(rt; read.as_slice(), [0x0a, 0xff].as_slice());
        Ok(())
    }

    #[test]
    fn bytes_of_a_long_text(rt: HostRuntime) -> Result<(), Fail> {
        let read = bytes(rt.alloc(), &[b'5'; 2050])?.ok_or("no bytes")?;
        assert_eq!(rt; read.as_slice(), [0x55; 1025].as_slice());
        Ok(())
    }

    #[test]
    fn no_bytes(rt: HostRuntime) -> Result<(), Fail> {
        assert!(rt; bytes(rt.alloc(), b"")?.is_none());
        assert!(rt; bytes(rt.alloc(), b"0")?.is_none());
        assert!(rt; bytes(rt.alloc(), b"0g")?.is_none());
        Ok(())
    }
}

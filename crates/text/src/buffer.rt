// Bytes in a room of fixed size.
ghost use Rattle.std.specs.Prelude.{◌≤◌};

use std::ops::DerefSlice;

// At most N bytes, kept in the value itself: the first ones of the room.
#[derive(Clone, Copy)]
pub struct Buffer<const N: usize> {
    pub(crate) room: [u8; N],
    pub(crate) count: usize,
    ghost fits: { count ≤ N },
}

impl<const N: usize> Buffer<N> {
    ghost use Rattle.std.specs.Prelude.{◌≡◌, []};
    ghost use Rattle.text.specs.Buffer.{buffer_bytes};

    pub fn new() -> Buffer<N>
        ensures { buffer_bytes result ≡ [] }
    {
        Buffer {
            room: [0; N],
            count: 0,
        }
    }

    pub fn as_slice(&self) -> &[u8]
        ensures { result.now ≡ buffer_bytes self.now }
    {
        &self.room[..self.count]
    }
}

impl<const N: usize> DerefSlice for Buffer<N> {
    ghost use Rattle.std.specs.Prelude.{◌≡◌};
    ghost use Rattle.text.specs.Buffer.{buffer_bytes};

    type Elem = u8;

    ghost deref_gives = { λ b s. s ≡ buffer_bytes b };

    fn deref(&self) -> &[u8] {
        self.as_slice()
    }
}

// Text: numbers, hex bytes and parts, read from a line.
#![tactic(auto)]

mod buffer;
mod digits;
mod heap;
mod hex;
mod lines;
mod patterns;

pub use buffer::Buffer;
pub use digits::decimal;
pub use heap::bytes;
pub use hex::{HexError, bytes_within};
pub use lines::{find, split_once};
pub use patterns::{float_of, pattern_of};

// The bitmap: a part of the carrier's own buffer, and its forty bits as a number.
#![tactic(auto)]

ghost use Rattle.std.specs.Prelude.{◌≡◌, cond, eqb};
ghost use Rattle.bitmap.specs.Bitmap.{bytes_of, listed_length, bad_bitmap};
ghost use Rattle.bitmap.specs.Quick.{BitmapFits, Loaded};

// Forty ones.
const ALL: u64 = 0xff_ffff_ffff;

// Ten bits, four times.
const FOUR_TIMES: u64 = 0x4010_0401;

// The carrier's own buffer.
pub fn own<'a>(carrier: u64, anchor: &'a [u8], other: &'a [u8]) -> &'a [u8]
    ensures { result.now ≡ cond (eqb carrier 0) anchor.now other.now }
{
    if carrier == 0 { anchor } else { other }
}

#[tactic(auto, unfolding(crate::specs::Bitmap::bytes_of))]
pub fn bytes(bits: u64) -> usize
    ensures { result ≡ bytes_of bits }
{
    match bits {
        0 => 0,
        10 => 2,
        _ => 5,
    }
}

#[tactic(auto, unfolding(crate::specs::Bitmap::listed_length))]
fn listed(bits: u64) -> bool
    ensures { result ≡ listed_length bits }
{
    matches!(bits, 0 | 10 | 40)
}

// Length not listed, buffer too short, or spare bits set.
#[tactic(auto, using(crate::proofs::Forty::two_bytes), unfolding(crate::specs::Bitmap::bad_bitmap))]
pub fn is_bad(bits: u64, b: &[u8]) -> bool
    ensures { result ≡ bad_bitmap bits b.now }
{
    !listed(bits) || b.len() < bytes(bits) || (bits == 10 && b[1] % 64 != 0)
}

// The forty bits of a bitmap as a number, the first the highest of forty digits.
pub fn load(bits: u64, b: &[u8]) -> u64
    requires { BitmapFits bits b.now }
    ensures { Loaded b.now bits result }
{
    match bits {
        0 => ALL,
        10 => (u64::from(b[0]) * 4 + u64::from(b[1]) / 64) * FOUR_TIMES,
        _ => u64::from_be_bytes([0, 0, 0, b[0], b[1], b[2], b[3], b[4]]),
    }
}

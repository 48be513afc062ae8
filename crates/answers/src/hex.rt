// Bytes and patterns of numbers in hex digits.
ghost use Rattle.std.specs.Prelude.{◌≡◌, ◌≤◌, ◌+◌, ◌*◌, ◌++◌, OnOk, IsOk, IsAscii, length};
ghost use Rattle.std.specs.Prelude.{string_bytes, string_capacity};
ghost use Rattle.std.specs.List.{flat_map};
ghost use Rattle.answers.specs.Line.{hex};
ghost use Rattle.answers.specs.Answers.{number_text};

use std::alloc::AllocError;
use std::str;

// Each byte in two digits, one byte after the other.
const PAIRS: [u8; 512] = *b"\
    000102030405060708090a0b0c0d0e0f101112131415161718191a1b1c1d1e1f\
    202122232425262728292a2b2c2d2e2f303132333435363738393a3b3c3d3e3f\
    404142434445464748494a4b4c4d4e4f505152535455565758595a5b5c5d5e5f\
    606162636465666768696a6b6c6d6e6f707172737475767778797a7b7c7d7e7f\
    808182838485868788898a8b8c8d8e8f909192939495969798999a9b9c9d9e9f\
    a0a1a2a3a4a5a6a7a8a9aaabacadaeafb0b1b2b3b4b5b6b7b8b9babbbcbdbebf\
    c0c1c2c3c4c5c6c7c8c9cacbcccdcecfd0d1d2d3d4d5d6d7d8d9dadbdcdddedf\
    e0e1e2e3e4e5e6e7e8e9eaebecedeeeff0f1f2f3f4f5f6f7f8f9fafbfcfdfeff";

// How many numbers are written at a time.
const GROUP: usize = 8;

// A byte in two digits.
fn byte_digits(b: u8) -> [u8; 2]
    ensures value { result ≡ hex 2 b }
    ensures ascii { IsAscii result }
{
    let at = 2 * b as usize;
    [PAIRS[at], PAIRS[at + 1]]
}

// A number below 2^32 in eight, byte by byte.
fn word_digits(x: u32) -> [u8; 8]
    ensures value { result ≡ hex 8 x }
    ensures ascii { IsAscii result }
{
    let [a, b] = byte_digits((x / 0x100_0000) as u8);
    let [c, d] = byte_digits((x / 0x1_0000 % 0x100) as u8);
    let [e, f] = byte_digits((x / 0x100 % 0x100) as u8);
    let [g, h] = byte_digits((x % 0x100) as u8);
    [a, b, c, d, e, f, g, h]
}

pub(crate) fn write_byte(b: u8, out: &mut String) -> Result<(), AllocError>
    ensures text { OnOk result (string_bytes out.new ≡ string_bytes out.old ++ hex 2 b) }
    ensures room { OnOk result (length (string_bytes out.new) ≤ length (string_bytes out.old) + 2) }
    ensures succeeds { length (string_bytes out.old) + 2 ≤ string_capacity out.old → IsOk result }
    ensures capacity { string_capacity out.old ≤ string_capacity out.new }
{
    let [high, low] = byte_digits(b);
    out.push(char::from(high))?;
    out.push(char::from(low))
}

pub(crate) fn write_word(x: u32, out: &mut String) -> Result<(), AllocError>
    ensures text { OnOk result (string_bytes out.new ≡ string_bytes out.old ++ hex 8 x) }
    ensures room { OnOk result (length (string_bytes out.new) ≤ length (string_bytes out.old) + 8) }
    ensures succeeds { length (string_bytes out.old) + 8 ≤ string_capacity out.old → IsOk result }
    ensures capacity { string_capacity out.old ≤ string_capacity out.new }
{
    out.push_str(str::from_utf8(&word_digits(x)).unwrap())
}

// A space, and a number's pattern.
fn spaced_pattern(x: f32) -> [u8; 9]
    ensures value { result ≡ number_text x }
    ensures ascii { IsAscii result }
{
    let [a, b, c, d, e, f, g, h] = word_digits(text::pattern_of(x));
    [b' ', a, b, c, d, e, f, g, h]
}

fn write_group(numbers: &[f32], out: &mut String) -> Result<(), AllocError>
    requires { length numbers.now ≤ 8 }
    ensures text { OnOk result (string_bytes out.new ≡ string_bytes out.old ++ flat_map number_text numbers.now) }
    ensures room { OnOk result
        (length (string_bytes out.new) ≤ length (string_bytes out.old) + length numbers.now * 9) }
    ensures succeeds { length (string_bytes out.old) + length numbers.now * 9 ≤ string_capacity out.old → IsOk result }
    ensures capacity { string_capacity out.old ≤ string_capacity out.new }
{
    let mut patterns = [[b' '; 9]; GROUP];
    for (i, x) in numbers.iter().enumerate() {
        patterns[i] = spaced_pattern(*x);
    }
    let digits = patterns[..numbers.len()].as_flattened();
    out.push_str(str::from_utf8(digits).unwrap())
}

// Numbers' patterns, each after a space.
pub(crate) fn write_patterns(numbers: &[f32], out: &mut String) -> Result<(), AllocError>
    ensures text { OnOk result (string_bytes out.new ≡ string_bytes out.old ++ flat_map number_text numbers.now) }
    ensures room { OnOk result
        (length (string_bytes out.new) ≤ length (string_bytes out.old) + length numbers.now * 9) }
    ensures succeeds { length (string_bytes out.old) + length numbers.now * 9 ≤ string_capacity out.old → IsOk result }
    ensures capacity { string_capacity out.old ≤ string_capacity out.new }
{
    for group in numbers.chunks(GROUP) {
        write_group(group, out)?;
    }
    Ok(())
}

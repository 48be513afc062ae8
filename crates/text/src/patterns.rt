// An f32 and its bit pattern. All NaN patterns are one NaN, whose own pattern is 7fc00000.
ghost use Rattle.std.specs.Prelude.{◌≡◌};
ghost use Rattle.std.specs.Float.{binary32};
ghost use Rattle.std.specs.Float.Ieee.{of_bits, to_bits};

// The digits below the leading one, and the exponent's digits above them.
const FRACTION: u32 = 0x80_0000;

const SIGN: u32 = 0x8000_0000;

pub fn float_of(pattern: u32) -> f32
    ensures { result ≡ of_bits binary32 pattern }
{
    if (pattern % SIGN / FRACTION == 255) & !(pattern % FRACTION == 0) {
        return f32::NAN;
    }
    f32::from_bits(pattern)
}

pub fn pattern_of(x: f32) -> u32
    ensures { result ≡ to_bits binary32 x }
{
    if x.is_nan() {
        return 0x7fc0_0000;
    }
    x.to_bits()
}

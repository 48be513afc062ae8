// Uplink slots by subcarrier spacing.
#![tactic(auto)]

ghost use Rattle.std.specs.Prelude.{◌≡◌, ◌^◌, ◌<◌};
ghost use Rattle.numerology.specs.Numerology.{by_spacing, slots_in, first_after, group_of, group_ms, narrow_tones};

// One number at 3.75 kHz, another at 15 kHz.
pub fn by_spacing(spacing: u64, narrow: u64, wide: u64) -> u64
    ensures { result ≡ by_spacing spacing narrow wide }
{
    if spacing == 0 { narrow } else { wide }
}

// The first slot that begins after the end of a subframe.
#[tactic(auto, using(crate::proofs::Spacing::first_narrow, crate::proofs::Spacing::first_wide))]
pub fn first_after(spacing: u64, subframe: u64) -> u64
    requires { subframe < 2 ^ 32 }
    ensures { result ≡ first_after spacing subframe }
{
    if spacing == 0 {
        (subframe + 2) / 2
    } else {
        2 * (subframe + 1)
    }
}

// Slots of 256 ms, and of 40 ms.
pub fn block(spacing: u64) -> u64
    ensures { result ≡ slots_in spacing 256 }
{
    by_spacing(spacing, 128, 512)
}

pub fn gap(spacing: u64) -> u64
    ensures { result ≡ slots_in spacing 40 }
{
    by_spacing(spacing, 20, 80)
}

// Slots of a group.
pub fn group(spacing: u64) -> u64
    ensures { result ≡ group_of spacing }
{
    by_spacing(spacing, 1, 2)
}

// The milliseconds that a group lasts.
pub fn group_ms(spacing: u64) -> u64
    ensures { result ≡ group_ms spacing }
{
    by_spacing(spacing, 2, 1)
}

// The tones at 3.75 kHz that a tone covers.
pub fn narrow_tones(spacing: u64) -> u64
    ensures { result ≡ narrow_tones spacing }
{
    by_spacing(spacing, 1, 4)
}

// What the anchor leaves of its subframes, and what takes the others.
#![tactic(auto)]

ghost use Rattle.std.specs.Prelude.{◌≡◌, ◌&&◌, ltb, ◌<◌};
ghost use Rattle.sync.specs.Quick.{anchor_pattern};
ghost use Rattle.sync.specs.Sync.{even, npbch, npss, nsss, sib1_copies, sib1_place, sib1};

use spans::Pattern;

// The forty subframes of a span without NPBCH, NPSS and NSSS; and without SIB1 in the even frames, or in the odd ones.
const USUAL: u64 = 0x7b_9ef7_b9ef;

const NOT_EVEN: u64 = 0x73_9ef7_39ef;

const NOT_ODD: u64 = 0x7b_9cf7_b9cf;

fn four(log: u64, first: u64, sib1: u64) -> Pattern
    ensures { result ≡ record { log = log; first = first; usual = 0x7b_9ef7_b9ef; sib1 = sib1 } }
{
    Pattern {
        log,
        first,
        usual: USUAL,
        sib1,
    }
}

// The pattern of an anchor whose bitmap allows all.
#[tactic(auto, unfolding(crate::specs::Quick::anchor_pattern))]
pub fn pattern(identity: u64, schedule: u64) -> Pattern
    ensures { result ≡ anchor_pattern identity schedule }
{
    match schedule % 3 {
        0 => four(4, 4 * (identity % 4), NOT_EVEN),
        1 => four(3, 4 * (identity % 2), NOT_EVEN),
        _ if identity % 2 == 0 => four(2, 0, NOT_EVEN),
        _ => four(2, 0, NOT_ODD),
    }
}

pub fn is_npbch(t: u64) -> bool
    ensures { result ≡ npbch t }
{
    t % 10 == 0
}

pub fn is_npss(t: u64) -> bool
    ensures { result ≡ npss t }
{
    t % 10 == 5
}

pub fn is_nsss(t: u64) -> bool
    ensures { result ≡ nsss t }
{
    (t % 10 == 9) & (t / 10 % 1024 % 2 == 0)
}

// SIB1's copies in 256 frames.
pub fn sib1_copies(schedule: u64) -> u64
    ensures { result ≡ sib1_copies schedule }
{
    match schedule % 3 {
        0 => 4,
        1 => 8,
        _ => 16,
    }
}

// Frame f has SIB1: by its place among 64, 32 or 16 frames, from SIB1's first frame on, every other of sixteen.
fn has_sib1(identity: u64, schedule: u64, f: u64) -> bool
    requires { f < 1024 }
    ensures { result ≡ (even (sib1_place identity schedule f) && ltb (sib1_place identity schedule f) 16) }
{
    let x = match schedule % 3 {
        0 => (f + 256 - 16 * (identity % 4)) % 64,
        1 => (f + 256 - 16 * (identity % 2)) % 32,
        _ => (f + 256 - identity % 2) % 16,
    };
    (x % 2 == 0) & (x < 16)
}

pub fn is_sib1(identity: u64, schedule: u64, t: u64) -> bool
    ensures { result ≡ sib1 identity schedule t }
{
    t % 10 == 4 && has_sib1(identity, schedule, t / 10 % 1024)
}

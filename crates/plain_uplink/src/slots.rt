// The slots, one at a time from the one that the grant first names.
ghost use Rattle.std.specs.Prelude.{◌≡◌, ◌+◌, ◌^◌, ◌<◌};
ghost use Rattle.uplink.specs.Fits.{Fits, OpenRepeats};
ghost use Rattle.uplink.specs.Timing.{group_at, slot_at};
ghost use Rattle.plain_uplink.specs.Obstacles.{clear_of, any_stands, AllSound};

use super::obstacles;
use super::obstacles::Obstacles;
use uplink::Shape;

// What may be sent repeats after so many gap periods; at least one slot in them may be.
const GAP_PERIODS: u64 = 320;

// The group of slot x from the first on is clear; `any` says whether a window stands at all.
fn is_open(s: Shape, os: Obstacles, any: bool, x: u64) -> bool
    requires { Fits s × AllSound os × (any ≡ any_stands os) × (x < 2 ^ 60) }
    ensures { result ≡ clear_of os (group_at s (s.first + x)) }
{
    !any || obstacles::is_clear(os, (s.first + x) / s.group)
}

// Transmitted slot i: the last of the first i + 1 whose group is clear among the first 256 of each 296 ms.
pub fn nth(s: Shape, os: Obstacles, i: u64) -> u64
    requires { Fits s × AllSound os × OpenRepeats s (clear_of os) × (i < 2 ^ 32) }
    ensures { result ≡ slot_at s (clear_of os) i }
{
    let period = s.block + s.gap;
    let any = obstacles::any_stands(os);
    s.first
        + (0..(i + 1) * GAP_PERIODS)
            .flat_map(|k| k * period..k * period + s.block)
            .filter(|&x| is_open(s, os, any, x))
            .take(i as usize + 1)
            .last()
            .unwrap()
}

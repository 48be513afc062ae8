// Random access windows that stand in a grant's way, asked one group at a time.
ghost use Rattle.std.specs.Prelude.{true, ◌≡◌, ◌/◌, ◌^◌, ◌<◌, ◌≤◌, ltb};
ghost use Rattle.counting.specs.Counting.{rank};
ghost use Rattle.refusals.specs.Refusal.{refused_by};
ghost use Rattle.uplink.specs.Fits.{Fits};
ghost use Rattle.nprach.specs.Windows.{is_listed, are_listed, all_periods};
ghost use Rattle.postponed.specs.Beside.{refusal_beside, AtSpacing};
ghost use Rattle.plain_uplink.specs.Obstacles.{obstacle_of, obstacles_of, obstacles_on, any_stands, blocks, clear_of};
ghost use Rattle.plain_uplink.specs.Obstacles.{Sound, AllSound};

use nprach::{Window, Windows};
use refusals::Refusal;
use uplink::Shape;

// A window that stands in the way: its start and period; in units, how long before a group's end it begins at most if
// it ends past the group's begin.
#[derive(Clone, Copy)]
pub struct Obstacle {
    pub start: u64,
    pub period: u64,
    pub reach: u64,
}

// Of each window what stands in the way, if anything, and the ms that a group lasts. No ghost field for AllSound:
// obstacles_of (specs) builds the value without a proof.
#[derive(Clone, Copy)]
pub struct Obstacles {
    pub ms: u64,
    pub windows: [Option<Obstacle>; 4],
}

// A window to `tones` tones from `tone` on, counted at 3.75 kHz; none if it is not read or has none of them.
fn one(ms: u64, tone: u64, tones: u64, read: bool, w: Window) -> Option<Obstacle>
    requires { (ms ≤ 2) × (tone ≤ 48) × (tones ≤ 48) × (read ≡ true → is_listed w ≡ true) }
    ensures { (result ≡ obstacle_of ms tone tones read w) × Sound result }
{
    if !nprach::concerns(tone, tones, read, w) {
        return None;
    }
    Some(Obstacle {
        start: w.start,
        period: w.period,
        reach: w.length + nprach::UNITS_OF_MS * ms,
    })
}

fn all(ms: u64, tone: u64, tones: u64, ws: Windows) -> Obstacles
    requires { (1 ≤ ms) × (ms ≤ 2) × (tone ≤ 48) × (tones ≤ 48) × (are_listed ws ≡ true) }
    ensures { (result ≡ obstacles_of ms tone tones ws) × AllSound result }
{
    let w1 = one(ms, tone, tones, 1 <= ws.count, ws.w1);
    let w2 = one(ms, tone, tones, 2 <= ws.count, ws.w2);
    let w3 = one(ms, tone, tones, 3 <= ws.count, ws.w3);
    let w4 = one(ms, tone, tones, 4 <= ws.count, ws.w4);
    Obstacles {
        ms,
        windows: [w1, w2, w3, w4],
    }
}

// Listed windows to the tones of a shape.
pub fn beside(spacing: u64, s: Shape, ws: Windows) -> Obstacles
    requires { Fits s × AtSpacing spacing s × (are_listed ws ≡ true) }
    ensures { (result ≡ obstacles_on spacing s ws) × AllSound result }
{
    let tone = s.tone;
    let tones = s.tones;
    let scale = numerology::narrow_tones(spacing);
    let ms = numerology::group_ms(spacing);
    all(ms, scale * tone, scale * tones, ws)
}

// Some window stands.
pub fn any_stands(os: Obstacles) -> bool
    ensures { result ≡ any_stands os }
{
    os.windows.iter().any(|w| w.is_some())
}

// A group that ends at time `end`, in ms, overlaps a window that stands: the last one that begins before that ends
// past the group's begin.
fn blocks(w: Option<Obstacle>, end: u64) -> bool
    requires { Sound w × (end < 2 ^ 63) }
    ensures { result ≡ blocks w end }
{
    match w {
        None => false,
        Some(o) => {
            let since = (end + nprach::ALL_PERIODS - 1 - o.start) % o.period + 1;
            nprach::UNITS_OF_MS * since < o.reach
        }
    }
}

// Group u is blocked by none.
pub fn is_clear(os: Obstacles, u: u64) -> bool
    requires { AllSound os × (u < 2 ^ 61) }
    ensures { result ≡ clear_of os u }
{
    let end = os.ms * u + os.ms;
    !os.windows.iter().any(|&w| blocks(w, end))
}

// Some group of 2,560 ms is clear: one group at a time.
fn is_ever_clear(os: Obstacles) -> bool
    requires { AllSound os }
    ensures { result ≡ ltb 0 (rank (clear_of os) (all_periods / os.ms)) }
{
    let many = nprach::ALL_PERIODS / os.ms;
    (0..many).any(|u| is_clear(os, u))
}

// Whether the windows refuse.
pub fn judge(spacing: u64, s: Shape, ws: Windows) -> Result<(), Refusal>
    requires { Fits s × AtSpacing spacing s }
    ensures { refused_by result ≡ refusal_beside spacing s ws }
{
    if !nprach::are_listed(ws) {
        return Err(Refusal::WindowsNotListed);
    }
    if !is_ever_clear(beside(spacing, s, ws)) {
        return Err(Refusal::NeverFree);
    }
    Ok(())
}

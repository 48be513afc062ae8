// Random access windows, which postpone uplink slots: their numbers, and the groups of slots that they close.
#![tactic(auto)]

ghost use Rattle.std.specs.Prelude.{true, ◌&&◌, ◌≡◌, ◌+◌, ◌/◌, ◌^◌, ◌<◌, ◌≤◌};
ghost use Rattle.numerology.specs.Numerology.{group_ms};
ghost use Rattle.nprach.specs.Windows.{is_one_of, periods, starts, repetitions, is_listed, are_listed, shares_tone};
ghost use Rattle.nprach.specs.Windows.{open_to};
ghost use Rattle.nprach.specs.Quick.{closure_of, closures_of, NestedFor};
ghost use Rattle.grid.specs.Grid.{uplink_subcarriers};

use closures::{Closure, Closures, Nested};

// Windows begin at every t (in ms) equal to the start modulo the period; the length is in units of 1/30720 ms; twelve
// tones at 3.75 kHz from `tone` on.
#[derive(Clone, Copy)]
pub struct Window {
    pub period: u64,
    pub start: u64,
    pub length: u64,
    pub tone: u64,
}

// How many windows there are, and the windows; those past the count are not read.
// No array: are_listed, is_clear and closures_of (specs) name the four fields.
#[derive(Clone, Copy)]
pub struct Windows {
    pub count: u64,
    pub w1: Window,
    pub w2: Window,
    pub w3: Window,
    pub w4: Window,
}

// The shortest period, which divides every other.
const SHORTEST: u64 = 40;

// A multiple of every period, and above every start.
pub const ALL_PERIODS: u64 = 2560;

pub const UNITS_OF_MS: u64 = 30_720;

const TONES: u64 = 12;

fn is_period(x: u64) -> bool
    ensures { result ≡ is_one_of periods x }
{
    matches!(x, 40 | 80 | 160 | 320 | 640 | 1280 | 2560)
}

fn is_start(x: u64) -> bool
    ensures { result ≡ is_one_of starts x }
{
    matches!(x, 8 | 16 | 32 | 64 | 128 | 256 | 512 | 1024)
}

// One repetition of a preamble format, or 2, 4, .. 64 of them.
fn is_repeated(x: u64, one: u64) -> bool
    requires { one < 2 ^ 32 }
    ensures { result ≡ is_one_of (repetitions one) x }
{
    (0_u64..7).any(|i| x == one << i)
}

#[tactic(auto, unfolding(crate::specs::Windows::is_listed))]
fn is_listed(w: Window) -> bool
    ensures { result ≡ is_listed w }
{
    is_period(w.period)
        && is_start(w.start)
        && (is_repeated(w.length, 172_032) || is_repeated(w.length, 196_608))
        && w.tone <= 36
}

// At most four windows, and each that is read is listed.
#[tactic(auto, unfolding(crate::specs::Windows::are_listed))]
pub fn are_listed(ws: Windows) -> bool
    ensures { result ≡ are_listed ws }
{
    let count = ws.count;
    let front = (count < 1 || is_listed(ws.w1)) && (count < 2 || is_listed(ws.w2));
    let back = (count < 3 || is_listed(ws.w3)) && (count < 4 || is_listed(ws.w4));
    count <= 4 && front && back
}

// A window that is read has one of `tones` tones from `tone` on.
// No Option in place of the flag: meets and closure_of (specs) take the flag and the window.
pub fn concerns(tone: u64, tones: u64, read: bool, w: Window) -> bool
    requires { (tone ≤ 48) × (tones ≤ 48) × (read ≡ true → is_listed w ≡ true) }
    ensures { result ≡ (read && shares_tone tone tones w) }
{
    read && tone < w.tone + TONES && w.tone < tone + tones
}

// The tones of a grant, `tones` of them from `tone` on, counted at 3.75 kHz; a group of its slots lasts `ms`
// milliseconds.
#[derive(Clone, Copy)]
struct Granted {
    ms: u64,
    tone: u64,
    tones: u64,
    ghost lasting: { (1 ≤ ms) × (ms ≤ 2) },
    ghost inside: { (tone ≤ 48) × (tones ≤ 48) },
}

impl Granted {
    // x over the milliseconds of a group.
    fn over_ms(self, x: u64) -> u64
        ensures { result ≡ x / self.ms }
    {
        if self.ms == 1 { x } else { x / 2 }
    }

    // The groups that a window closes to the tones.
    fn closure(self, read: bool, w: Window) -> Closure
        requires { read ≡ true → is_listed w ≡ true }
        ensures { result ≡ closure_of self.ms self.tone self.tones read w }
    {
        if concerns(self.tone, self.tones, read, w) {
            let unit = UNITS_OF_MS * self.ms;
            Closure {
                period: self.over_ms(w.period),
                phase: self.over_ms(ALL_PERIODS - w.start),
                closed: self.over_ms((w.length + (unit - 1)) / UNITS_OF_MS),
            }
        } else {
            Closure {
                period: self.over_ms(SHORTEST),
                phase: 0,
                closed: 0,
            }
        }
    }

    // The groups that the windows close.
    fn closures(self, ws: Windows) -> Closures
        requires { are_listed ws ≡ true }
        ensures { result ≡ closures_of self.ms self.tone self.tones ws }
    {
        let count = ws.count;
        Closures {
            b1: self.closure(1 <= count, ws.w1),
            b2: self.closure(2 <= count, ws.w2),
            b3: self.closure(3 <= count, ws.w3),
            b4: self.closure(4 <= count, ws.w4),
        }
    }
}

// The groups that listed windows close to the tones of a grant, by its spacing, as nested closures.
pub fn nested_closures(spacing: u64, tone: u64, tones: u64, ws: Windows) -> Nested
    requires { (tone + tones ≤ uplink_subcarriers spacing) × (are_listed ws ≡ true) }
    ensures { NestedFor (group_ms spacing) (open_to spacing tone tones ws) result }
{
    let scale = numerology::narrow_tones(spacing);
    let granted = Granted {
        ms: numerology::group_ms(spacing),
        tone: scale * tone,
        tones: scale * tones,
    };
    closures::nest(granted.closures(ws))
}

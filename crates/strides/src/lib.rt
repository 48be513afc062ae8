// Units passed at once: those in which no window is open, and a window that meets no other; others one by one. And how
// many subframes of them remain.
#![tactic(auto)]

ghost use Rattle.std.specs.Prelude.{true, false, ◌≡◌, ℕ, ◌+◌, ◌^◌, ◌<◌, ◌≤◌};
ghost use Rattle.counting.specs.Counting.{rank};
ghost use Rattle.spans.specs.Pattern.{allows};
ghost use Rattle.units.specs.Quick.{Ranged, Sized, begin_of, place_of, lane_at, Seen, Allowing};
ghost use Rattle.strides.specs.Quick.{Quiet, Stretches, Strode, past_of, Leaps, Apart, alone_of, Keeps};

use spans::Pattern;
use units::{Lane, Sight, Timetable};

// Units passed at once: the unit that follows them, what is wanted and how many are free before it, and how many
// subframes of them remain.
#[derive(Clone, Copy)]
pub struct Stride {
    pub n: u64,
    pub wants: [u64; 4],
    pub free: u64,
    pub remaining: u64,
}

// What may be passed at once from a unit on: so many units in which no window is open; the window of an entry, counted
// from 0, which opens there and meets no other; or, unit by unit, so many until a window closes.
#[derive(Clone, Copy)]
pub enum Stretch {
    Quiet(u64),
    Alone(usize),
    Busy(u64),
}

// What a window of each entry leaves that meets no other, if it was counted.
pub type Kept = [Option<u64>; 4];

// Where the k-th is; whether its subframe is at hand there: what remains does so evenly. No Option: the sight is asked
// either way.
#[derive(Clone, Copy)]
pub struct Reached {
    pub sight: Sight,
    pub even: bool,
}

// Past a stretch, or to where the k-th is in it.
#[derive(Clone, Copy)]
pub enum Leap {
    Past(Sight),
    To(Reached),
}

// The lane of entry i. No index: a table that is read at a variable place would be copied at each stride.
fn lane(table: Timetable, i: usize) -> Lane
    requires { i < 4 }
    ensures { result ≡ lane_at table i }
{
    match i {
        0 => table.lanes[0],
        1 => table.lanes[1],
        2 => table.lanes[2],
        _ => table.lanes[3],
    }
}

// How many units from unit n on have no window of the lane open.
fn quiet(l: Lane, n: u64) -> u64
    requires { Ranged l × (n < 2 ^ 40) }
    ensures { ((i : ℕ) → i < result → l.window ≤ place_of l (n + i)) × (result ≤ 2048) }
{
    if l.window == 0 {
        return 2048;
    }
    let x = units::place(l, n);
    if x < l.window {
        0
    } else {
        counting::power_of_two(l.log) - x
    }
}

// A window opens at unit n that lasts at most so many units.
fn opens(l: Lane, n: u64, units: u64) -> bool
    requires { Ranged l × (n < 2 ^ 40) }
    ensures { result ≡ true → (place_of l n ≡ 0) × (0 < l.window) × (l.window ≤ units) }
{
    (units::place(l, n) == 0) & ((0 < l.window) & (l.window <= units))
}

// How many units from unit n on the window lasts that is open there.
fn lasts(l: Lane, n: u64) -> u64
    requires { Ranged l × (n < 2 ^ 40) }
    ensures { 0 < result }
{
    let x = units::place(l, n);
    if x < l.window { l.window - x } else { 2048 }
}

// How many until one closes.
fn busy(table: Timetable, n: u64) -> u64
    requires { Sized table × (n < 2 ^ 40) }
    ensures { 0 < result }
{
    let front = lasts(table.lanes[0], n).min(lasts(table.lanes[1], n));
    front.min(lasts(table.lanes[2], n).min(lasts(table.lanes[3], n)))
}

// What may be passed at once from unit n on; a window by itself, if it may go so far.
fn stretch_at(table: Timetable, n: u64, far: bool) -> Stretch
    requires { Sized table × (n < 2 ^ 40) }
    ensures { Stretches table n far result }
{
    let q0 = quiet(table.lanes[0], n);
    let q1 = quiet(table.lanes[1], n);
    let q2 = quiet(table.lanes[2], n);
    let q3 = quiet(table.lanes[3], n);
    let back = q2.min(q3);
    let front = q0.min(q1);
    let d = front.min(back);
    if 0 < d {
        Stretch::Quiet(d)
    } else if !far {
        Stretch::Busy(busy(table, n))
    } else if opens(table.lanes[0], n, q1.min(back)) {
        Stretch::Alone(0)
    } else if opens(table.lanes[1], n, q0.min(back)) {
        Stretch::Alone(1)
    } else if opens(table.lanes[2], n, q3.min(front)) {
        Stretch::Alone(2)
    } else if opens(table.lanes[3], n, q2.min(front)) {
        Stretch::Alone(3)
    } else {
        Stretch::Busy(busy(table, n))
    }
}

// How many subframes of a window of the lane remain if it meets no other, counted from unit `start` on.
fn alone(table: Timetable, p: Pattern, l: Lane) -> u64
    requires { Sized table × Allowing p × Ranged l }
    ensures { (result ≡ alone_of table (allows p) l) × (result < 2 ^ 29) }
{
    let mut want = 0;
    let mut rest = 0;
    let mut free = units::free_before(p, units::begin(table, l.start));
    for i in 0..l.window {
        let next = units::free_before(p, units::begin(table, l.start + i + 1));
        let r = units::lay(l, l.start + i, want, next - free);
        rest += r.free;
        want = r.want;
        free = next;
    }
    rest
}

// What a window of entry i leaves that meets no other; it is counted once.
fn rest_of(table: Timetable, p: Pattern, kept: &mut Kept, i: usize) -> u64
    requires { Sized table × Allowing p × Keeps table (allows p) kept.old × (i < 4) }
    ensures { Keeps table (allows p) kept.new × (result ≡ alone_of table (allows p) (lane_at table i)) }
{
    if let Some(rest) = kept[i] {
        return rest;
    }
    let rest = alone(table, p, lane(table, i));
    kept[i] = Some(rest);
    rest
}

// Over d units in which no window is open, but not past `end`.
fn stride_quiet(table: Timetable, p: Pattern, n: u64, free: u64, d: u64, end: u64) -> Stride
    requires { Sized table × Allowing p × (free ≡ rank (allows p) (begin_of table n)) × (n < end) × (end < 2 ^ 19)
        × (0 < d) × ((i : ℕ) → i < d → Quiet table (n + i)) }
    ensures { Strode table (allows p) n end true result }
{
    let to = n + d.min(end - n);
    let then = units::free_before(p, units::begin(table, to));
    Stride {
        n: to,
        wants: [0; 4],
        free: then,
        remaining: then - free,
    }
}

// Over a window of entry i of so many units that meets no other and leaves `rest`.
fn stride_alone(table: Timetable, p: Pattern, n: u64, i: usize, units: u64, rest: u64) -> Stride
    requires { Sized table × Allowing p × (n + units < 2 ^ 19) × (0 < units) × (i < 4) × Apart table i units n
        × (rest ≡ alone_of table (allows p) (lane_at table i)) }
    ensures { Strode table (allows p) n (n + units) false result }
{
    let to = n + units;
    Stride {
        n: to,
        wants: [0; 4],
        free: units::free_before(p, units::begin(table, to)),
        remaining: rest,
    }
}

// Past a stride, or the k-th is in it.
#[tactic(auto, unfolding(crate::specs::Quick::past_of))]
fn past(s: Sight, r: Stride, even: bool) -> Leap
    ensures { result ≡ past_of s r even }
{
    if s.k < r.remaining {
        Leap::To(Reached { sight: s, even })
    } else {
        let wants = r.wants;
        Leap::Past(Sight {
            n: r.n,
            wants,
            free: r.free,
            k: s.k - r.remaining,
        })
    }
}

// Unit by unit, so many of them, but not past `end`.
fn run_over(table: Timetable, p: Pattern, s: Sight, d: u64, end: u64) -> Leap
    requires { Sized table × Allowing p × Seen table (allows p) s × (s.n < end) × (end < 2 ^ 19) × (0 < d) }
    ensures { Leaps table (allows p) s end false result }
{
    let to = s.n + d.min(end - s.n);
    let sight = units::run(table, p, s, to);
    if sight.n < to {
        Leap::To(Reached { sight, even: true })
    } else {
        Leap::Past(sight)
    }
}

// Past the stretch that begins where the sight is, but not past `end`; or to where the k-th is in it.
pub fn leap_from(
    table: Timetable,
    p: Pattern,
    s: Sight,
    kept: &mut Kept,
    end: u64,
    far: bool,
) -> Leap
    requires { Sized table × Allowing p × Seen table (allows p) s × (s.n < end) × (end < 2 ^ 19)
        × Keeps table (allows p) kept.old }
    ensures { Leaps table (allows p) s end far result × Keeps table (allows p) kept.new }
{
    match stretch_at(table, s.n, far) {
        Stretch::Quiet(d) => past(s, stride_quiet(table, p, s.n, s.free, d, end), true),
        Stretch::Alone(i) => {
            let units = lane(table, i).window;
            if units <= end - s.n {
                let rest = rest_of(table, p, kept, i);
                past(s, stride_alone(table, p, s.n, i, units, rest), false)
            } else {
                run_over(table, p, s, units, end)
            }
        }
        Stretch::Busy(d) => run_over(table, p, s, d, end),
    }
}

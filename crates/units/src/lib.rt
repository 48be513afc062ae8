// Messages in units: time counted in stretches in which no window opens or closes and no copy begins but where one
// begins. What the entries want where a unit begins, and what they need of it.
#![tactic(auto)]

ghost use Rattle.std.specs.Prelude.{true, ◌≡◌, ◌+◌, ◌-◌, ◌*◌, ◌^◌, ◌<◌, ◌≤◌};
ghost use Rattle.std.specs.Int.Count.{ones};
ghost use Rattle.counting.specs.Counting.{rank, count};
ghost use Rattle.spans.specs.Pattern.{allows};
ghost use Rattle.messages.specs.Messages.{are_listed};
ghost use Rattle.units.specs.Quick.{HasLog, logs_with, logs_of, InUnits, lane_of, timetable_of, Ranged, Sized};
ghost use Rattle.units.specs.Quick.{begin_of};
ghost use Rattle.units.specs.Quick.{place_of, need_of, lane_step_of, unit_step_of, unit_need, Small, Seen, Ran};
ghost use Rattle.units.specs.Quick.{opened_of, wants_in, Allowing, SpotAt};

use messages::{Messages, Schedule};
use spans::Pattern;

// The shortest distance of copies that is read is 2^shortest frames, the longest period 2^longest.
#[derive(Clone, Copy)]
struct Logs {
    shortest: u64,
    longest: u64,
}

// Which power of two x is.
fn log_of(x: u64) -> u64
    requires { HasLog x }
    ensures { result ≡ ones (x - 1) }
{
    u64::trailing_zeros(x) as u64
}

// The same with one more schedule, if it is read. No Option: Messages has four schedules in any case, and its count
// says which are read.
#[tactic(auto, unfolding(crate::specs::Quick::logs_with))]
fn with_schedule(logs: Logs, read: bool, s: Schedule) -> Logs
    requires { read ≡ true → HasLog s.every × HasLog s.period }
    ensures { result ≡ logs_with logs read s }
{
    if !read {
        return logs;
    }
    Logs {
        shortest: logs.shortest.min(log_of(s.every)),
        longest: logs.longest.max(log_of(s.period)),
    }
}

#[tactic(auto, unfolding(crate::specs::Quick::logs_of))]
fn logs_of(ms: Messages) -> Logs
    requires { are_listed ms ≡ true }
    ensures { result ≡ logs_of ms }
{
    let count = ms.count;
    let none = Logs {
        shortest: 4,
        longest: 6,
    };
    let one = with_schedule(none, 1 <= count, ms.s1);
    let two = with_schedule(one, 2 <= count, ms.s2);
    let three = with_schedule(two, 3 <= count, ms.s3);
    with_schedule(three, 4 <= count, ms.s4)
}

// A schedule in units: its windows last `window` units and repeat after 2^log units, one opens at unit `start`; a
// copy of `size` subframes begins at every 2^every-th unit of a window. One that is not read has windows of no unit.
#[derive(Clone, Copy)]
pub struct Lane {
    pub log: u64,
    pub start: u64,
    pub window: u64,
    pub every: u64,
    pub size: u64,
}

// An entry with so many before it, in units of 2^k frames.
#[tactic(auto, unfolding(crate::specs::Quick::lane_of))]
fn lane_of(read: bool, s: Schedule, before: u64, window: u64, k: u64) -> Lane
    requires { (before ≤ 3) × (window ≤ 160) × (k ≤ 4) × (read ≡ true → InUnits s k) }
    ensures { result ≡ lane_of read s before window k }
{
    if !read {
        return Lane {
            log: 6 - k,
            start: 0,
            window: 0,
            every: 0,
            size: 0,
        };
    }
    let log = log_of(s.period) - k;
    Lane {
        log,
        start: counting::low(before * window, log),
        window,
        every: log_of(s.every) - k,
        size: s.size,
    }
}

// Units of `unit` subframes from subframe `first` on: no window opens or closes and no copy begins but where one
// begins. All repeats after `units` units.
#[derive(Clone, Copy)]
pub struct Timetable {
    pub first: u64,
    pub unit: u64,
    pub units: u64,
    pub lanes: [Lane; 4],
}

// Listed messages in units.
pub fn timetable_of(ms: Messages) -> Timetable
    requires { are_listed ms ≡ true }
    ensures { (result ≡ timetable_of ms) × Sized result }
{
    let count = ms.count;
    let logs = logs_of(ms);
    let k = logs.shortest;
    let window = ms.window / 10 / counting::power_of_two(k);
    Timetable {
        first: 10 * ms.offset,
        unit: 10 * counting::power_of_two(k),
        units: counting::power_of_two(logs.longest - k),
        lanes: [
            lane_of(1 <= count, ms.s1, 0, window, k),
            lane_of(2 <= count, ms.s2, 1, window, k),
            lane_of(3 <= count, ms.s3, 2, window, k),
            lane_of(4 <= count, ms.s4, 3, window, k),
        ],
    }
}

// How many units before unit n the last window opened.
pub fn place(l: Lane, n: u64) -> u64
    requires { (l.log ≤ 11) × (l.start < 2 ^ l.log) × (n < 2 ^ 40) }
    ensures { (result ≡ place_of l n) × (result < 2 ^ l.log) × (result < 2048) }
{
    let log = l.log;
    counting::low(n + counting::power_of_two(log) - l.start, log)
}

// What is needed at unit n of a lane that wants so many, with the copy that begins there.
#[tactic(auto, using(crate::proofs::Lanes::need_most), unfolding(crate::specs::Quick::need_of))]
fn need(l: Lane, n: u64, want: u64) -> u64
    requires { Ranged l × (n < 2 ^ 40) × (want ≤ 8 * place_of l n) }
    ensures { (result ≡ need_of l n want) × (result ≤ 8 * place_of l n + 8) }
{
    let x = place(l, n);
    if x >= l.window {
        0
    } else if counting::low(x, l.every) == 0 {
        want + l.size
    } else {
        want
    }
}

// One entry of a unit: what it wants at the next one, and how many subframes are free after it.
#[derive(Clone, Copy)]
pub struct LaneStep {
    pub want: u64,
    pub free: u64,
}

// One lane of a unit of which so many subframes are free.
#[tactic(auto, using(crate::proofs::Lanes::step_most), unfolding(crate::specs::Quick::lane_step_of))]
pub fn lay(l: Lane, n: u64, want: u64, free: u64) -> LaneStep
    requires { Ranged l × (n < 2 ^ 40) × (want ≤ 8 * place_of l n) }
    ensures { (result ≡ lane_step_of l n want free) × (result.want ≤ 8 * place_of l (n + 1)) }
{
    let b = need(l, n, want);
    let rest = free.saturating_sub(b);
    if place(l, n) + 1 >= l.window {
        LaneStep {
            want: 0,
            free: rest,
        }
    } else {
        LaneStep {
            want: b.saturating_sub(free),
            free: rest,
        }
    }
}

// A unit: what the entries want at the next one, before copies begin there, and how many subframes of it remain.
#[derive(Clone, Copy)]
pub struct UnitStep {
    pub wants: [u64; 4],
    pub remaining: u64,
}

// A unit of which so many subframes are free before messages.
#[tactic(auto, unfolding(crate::specs::Quick::unit_step_of))]
pub fn pass(table: Timetable, n: u64, w: [u64; 4], free: u64) -> UnitStep
    requires { Sized table × (n < 2 ^ 40) × Small table n w }
    ensures { (result ≡ unit_step_of table n w free) × Small table (n + 1) result.wants }
{
    let a = lay(table.lanes[0], n, w[0], free);
    let b = lay(table.lanes[1], n, w[1], a.free);
    let c = lay(table.lanes[2], n, w[2], b.free);
    let d = lay(table.lanes[3], n, w[3], c.free);
    UnitStep {
        wants: [a.want, b.want, c.want, d.want],
        remaining: d.free,
    }
}

// What all need at unit n.
#[tactic(auto, using(crate::proofs::Lanes::place_below), unfolding(crate::specs::Quick::unit_need))]
pub fn all_need(table: Timetable, n: u64, w: [u64; 4]) -> u64
    requires { Sized table × (n < 2 ^ 40) × Small table n w }
    ensures { (result ≡ unit_need table n w) × (result < 2 ^ 17) }
{
    let front = need(table.lanes[0], n, w[0]) + need(table.lanes[1], n, w[1]);
    front + need(table.lanes[2], n, w[2]) + need(table.lanes[3], n, w[3])
}

// The subframe in which unit n begins.
pub fn begin(table: Timetable, n: u64) -> u64
    requires { Sized table × (n < 2 ^ 20) }
    ensures { (result ≡ begin_of table n) × (result < 2 ^ 29) }
{
    table.first + table.unit * n
}

// How many subframes before t the pattern allows.
pub fn free_before(p: Pattern, t: u64) -> u64
    requires { Allowing p × (t < 2 ^ 31) }
    ensures { result ≡ rank (allows p) t }
{
    spans::Counted::new(p).rank_of(t)
}

// The unit in which the window opened that is open at unit n; else n.
#[tactic(auto, unfolding(crate::specs::Quick::opened_of))]
fn opened(l: Lane, n: u64) -> u64
    requires { Ranged l × (n < 2 ^ 40) × (2 ^ l.log ≤ n) }
    ensures { (result ≡ opened_of l n) × (result ≤ n) × (n ≤ result + 2 ^ l.log) }
{
    let x = place(l, n);
    if x < l.window { n - x } else { n }
}

// The k-th remaining subframe from where unit n begins, with what is wanted there and how many are free before it.
#[derive(Clone, Copy)]
pub struct Sight {
    pub n: u64,
    pub wants: [u64; 4],
    pub free: u64,
    pub k: u64,
}

// Unit by unit from a sight on: to unit `to`, or to where the k-th is.
pub fn run(table: Timetable, p: Pattern, s: Sight, to: u64) -> Sight
    requires { Sized table × Allowing p × Seen table (allows p) s × (s.n ≤ to) × (to < 2 ^ 19) }
    ensures { Ran table (allows p) s to result }
{
    let mut wants = s.wants;
    let mut free = s.free;
    let mut k = s.k;
    for n in s.n..to {
        let next = free_before(p, begin(table, n + 1));
        let r = pass(table, n, wants, next - free);
        if k < r.remaining {
            return Sight { n, wants, free, k };
        }
        k -= r.remaining;
        wants = r.wants;
        free = next;
    }
    Sight {
        n: to,
        wants,
        free,
        k,
    }
}

// Where unit n begins: what the entries want, from where the first entry's window opened that bears on the second's,
// and so on.
pub fn sight_at(table: Timetable, p: Pattern, n: u64) -> Sight
    requires { Sized table × Allowing p × (4 * table.units ≤ n) × (n < 2 ^ 19) }
    ensures { (result.n ≡ n) × (result.wants ≡ wants_in table (allows p) n) × Seen table (allows p) result }
{
    let a4 = opened(table.lanes[3], n);
    let a3 = opened(table.lanes[2], a4);
    let a2 = opened(table.lanes[1], a3);
    let a1 = opened(table.lanes[0], a2);
    let from = Sight {
        n: a1,
        wants: [0; 4],
        free: free_before(p, begin(table, a1)),
        k: 0x8000_0000,
    };
    if a1 == n {
        from
    } else {
        run(table, p, from, n)
    }
}

// Subframe y of unit n.
#[derive(Clone, Copy)]
pub struct Spot {
    pub n: u64,
    pub y: u64,
}

// Where subframe t of the first two periods lies, five periods on, so that four periods may be walked back.
pub fn spot_of(table: Timetable, t: u64) -> Spot
    requires { Sized table × (t < 2 * (table.unit * table.units)) }
    ensures { SpotAt table t result }
{
    let x = t + 5 * (table.unit * table.units) - table.first;
    let n = counting::quotient(x, table.unit);
    Spot {
        n,
        y: x - n * table.unit,
    }
}

// How many of the first y subframes of unit n are free before messages; so many are before it.
#[tactic(auto, using(counting::proofs::Rank::rank_count))]
pub fn free_first(table: Timetable, p: Pattern, n: u64, free: u64, y: u64) -> u64
    requires { Sized table × Allowing p × (n < 2 ^ 20) × (y ≤ 160) × (free ≡ rank (allows p) (begin_of table n)) }
    ensures { result ≡ count (allows p) (begin_of table n) y }
{
    free_before(p, begin(table, n) + y) - free
}

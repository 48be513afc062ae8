// The search among the subframes that messages leave of those that a pattern allows: by strides over units, and whole
// periods by division.
#![tactic(auto)]

ghost use Rattle.std.specs.Prelude.{true, false, ◌≡◌, ℕ, ◌+◌, ◌*◌, ◌%◌, ◌^◌, ◌<◌, ◌≤◌, eqb};
ghost use Rattle.counting.specs.Counting.{rank, select};
ghost use Rattle.counting.specs.Scaffold.{Nth};
ghost use Rattle.spans.specs.Pattern.{allows, Regular};
ghost use Rattle.spans.specs.Found.{found_among};
ghost use Rattle.messages.specs.Messages.{all_periods, are_listed, remaining};
ghost use Rattle.units.specs.Quick.{Sized, begin_of, Seen, Allowing, Serves, Exact};
ghost use Rattle.strides.specs.Quick.{Here, Keeps};
ghost use Rattle.timetable.specs.Quick.{Scanned, Sighted, SightAt, Exactly, Counted, Ahead, Served, Hits};
ghost use Rattle.timetable.specs.Quick.{Struck, SoughtAt, moved, Parted};

use messages::Messages;
use spans::{Ends, Found, Pattern};
use strides::{Kept, Leap, Reached};
use units::{Sight, Timetable};

// The subframe that is at hand where a sight is, so many subframes later.
#[derive(Clone, Copy)]
struct Hit {
    sight: Sight,
    later: u64,
}

// Where a search begins.
#[derive(Clone, Copy)]
struct Sought {
    table: Timetable,
    sight: Sight,
}

// How many remain before a subframe, and whether it remains. No Option: `before` counts for one that doesn't too.
#[derive(Clone, Copy)]
struct Count {
    before: u64,
    remains: bool,
}

// The same of a part of a period; where its unit begins, with what remains before it as k.
#[derive(Clone, Copy)]
struct Part {
    before: u64,
    remains: bool,
    here: Sight,
}

// Whether subframe t remains.
pub fn is_remaining(ms: Messages, p: Pattern, t: u64) -> bool
    requires { (are_listed ms ≡ true) × Regular p }
    ensures { result ≡ remaining ms (allows p) t }
{
    if !spans::is_allowed(p, t) {
        return false;
    }
    let table = units::timetable_of(ms);
    let period = table.unit * table.units;
    let spot = units::spot_of(table, t % period);
    let s = units::sight_at(table, p, spot.n);
    let needed = units::all_need(table, s.n, s.wants);
    let free = units::free_first(table, p, s.n, s.free, spot.y);
    needed <= free
}

// By strides to where the k-th is, or to `end`.
fn scan(table: Timetable, p: Pattern, s: Sight, kept: &mut Kept, end: u64, far: bool) -> Reached
    requires { Sized table × Allowing p × Seen table (allows p) s × (s.n ≤ end) × (end < 2 ^ 19)
        × Keeps table (allows p) kept.old }
    ensures { (result.sight.n ≤ end) × Seen table (allows p) result.sight × (result.sight.k ≤ s.k)
        × (result.sight.n < end → result.sight.k < 2 ^ 29)
        × ((ms : Messages) → Serves ms table → Exact ms (allows p) table s.n s.wants
        → Scanned ms (allows p) table s end result.even result.sight)
        × Keeps table (allows p) kept.new × (far ≡ false → result.even ≡ true) }
{
    let mut at = s;
    // No for: a step is as long as the stretch that is passed.
    while at.n < end {
        match strides::leap_from(table, p, at, kept, end, far) {
            Leap::To(reached) => return reached,
            Leap::Past(sight) => at = sight,
        }
    }
    Reached {
        sight: at,
        even: true,
    }
}

// To where the k-th is, or to `end`: by windows, then by units.
fn reach(table: Timetable, p: Pattern, s: Sight, kept: &mut Kept, end: u64) -> Sight
    requires { Sized table × Allowing p × Seen table (allows p) s × (s.n ≤ end) × (end < 2 ^ 19)
        × Keeps table (allows p) kept.old }
    ensures { (result.n ≤ end) × Seen table (allows p) result × (result.k ≤ s.k) × (result.n < end → result.k < 2 ^ 29)
        × ((ms : Messages) → Serves ms table → Exact ms (allows p) table s.n s.wants
        → Scanned ms (allows p) table s end true result)
        × Keeps table (allows p) kept.new }
{
    let far = scan(table, p, s, kept, end, true);
    if far.even {
        far.sight
    } else {
        scan(table, p, far.sight, kept, end, false).sight
    }
}

// The k-th remaining subframe, in the units at hand.
fn land(table: Timetable, p: Pattern, s: Sight) -> u64
    requires { Sized table × Allowing p × Seen table (allows p) s × (s.n < 2 ^ 19) × (s.k < 2 ^ 29) }
    ensures { (result < 2 ^ 42)
        × ((ms : Messages) → Serves ms table → Exact ms (allows p) table s.n s.wants
        → Here ms (allows p) table s.n s.wants s.k
        → Nth (remaining ms (allows p)) (begin_of table s.n) s.k result) }
{
    spans::Counted::new(p).at(s.free + units::all_need(table, s.n, s.wants) + s.k)
}

// To where the subframe is at hand that follows the sight's after j more: in one period, or whole periods by division.
fn find(table: Timetable, p: Pattern, s: Sight, j: u64, kept: &mut Kept) -> Hit
    requires { Sized table × Allowing p × Seen table (allows p) s × (s.n < 2 ^ 15) × (s.k < 2 ^ 30)
        × (j < 2 ^ 31) × Sighted table (allows p) s.n s.wants × Keeps table (allows p) kept.old }
    ensures { Seen table (allows p) result.sight × (result.sight.n < s.n + table.units)
        × (result.sight.k < 2 ^ 29) × (result.later ≤ 2 ^ 49)
        × ((ms : Messages) → Serves ms table → Exact ms (allows p) table s.n s.wants
        → Hits ms (allows p) table (moved s j) result)
        × Keeps table (allows p) kept.new }
{
    let mut from = s;
    from.k = s.k + j;
    let k = from.k;
    let end = s.n + table.units;
    let once = reach(table, p, from, kept, end);
    if once.n < end {
        return Hit {
            sight: once,
            later: 0,
        };
    }
    let left = once.k;
    let whole = counting::quotient(left, k - left);
    from.k = left - whole * (k - left);
    Hit {
        sight: reach(table, p, from, kept, end),
        later: (whole + 1) * (table.unit * table.units),
    }
}

// Subframe t of the first period, five periods on, as what follows its unit's first k remaining ones.
fn sight_of(table: Timetable, p: Pattern, t: u64) -> Sight
    requires { Sized table × Allowing p × (t < table.unit * table.units) }
    ensures { Seen table (allows p) result × (result.n < 2 ^ 14) × (result.k ≤ 160)
        × (begin_of table result.n ≤ t + 5 * (table.unit * table.units))
        × (t + 5 * (table.unit * table.units) < begin_of table result.n + table.unit)
        × ((ms : Messages) → Serves ms table → SightAt ms (allows p) table t result) }
{
    let spot = units::spot_of(table, t);
    let mut s = units::sight_at(table, p, spot.n);
    let free = units::free_first(table, p, s.n, s.free, spot.y);
    s.k = free.saturating_sub(units::all_need(table, s.n, s.wants));
    s
}

// The subframe that was hit, in the period of the one from which it was looked for.
fn hit_of(table: Timetable, p: Pattern, h: Hit, from: u64) -> u64
    requires { Sized table × Allowing p × Seen table (allows p) h.sight × (h.sight.n < 2 ^ 19)
        × (h.sight.k < 2 ^ 29) × (h.later ≤ 2 ^ 50) × (from < 2 ^ 31) × Struck table (allows p) from h }
    ensures { (ms : Messages) → Serves ms table → (s : Sight) (j : ℕ)
        → SightAt ms (allows p) table (from % (table.unit * table.units)) s → Hits ms (allows p) table (moved s j) h
        → Nth (remaining ms (allows p)) from j result }
{
    let period = table.unit * table.units;
    let whole = counting::quotient(from, period);
    land(table, p, h.sight) + h.later + whole * period - 5 * period
}

// The table of the messages, and the sight of a subframe in it.
fn seek_from(ms: Messages, p: Pattern, from: u64) -> Sought
    requires { (are_listed ms ≡ true) × Regular p × (0 < rank (remaining ms (allows p)) all_periods) }
    ensures { SoughtAt ms p from result }
{
    let table = units::timetable_of(ms);
    let period = table.unit * table.units;
    let sight = sight_of(table, p, from % period);
    Sought { table, sight }
}

// The j-th remaining subframe from a given one on, counted from 0.
pub fn nth(ms: Messages, p: Pattern, from: u64, j: u64) -> u64
    requires { (are_listed ms ≡ true) × Regular p × (0 < rank (remaining ms (allows p)) all_periods) × (from < 2 ^ 31)
        × (j < 2 ^ 31) }
    ensures { result ≡ select (remaining ms (allows p)) all_periods from j }
{
    let g = seek_from(ms, p, from);
    let hit = find(g.table, p, g.sight, j, &mut [None; 4]);
    hit_of(g.table, p, hit, from)
}

// The first remaining subframe from a given one on.
pub fn next(ms: Messages, p: Pattern, from: u64) -> u64
    requires { (are_listed ms ≡ true) × Regular p × (0 < rank (remaining ms (allows p)) all_periods)
        × (from < 2 ^ 31) }
    ensures { result ≡ select (remaining ms (allows p)) all_periods from 0 }
{
    nth(ms, p, from, 0)
}

// The j-th from a given one on, and the one that follows it after `more`.
pub fn first_and_last(ms: Messages, p: Pattern, from: u64, j: u64, more: u64) -> Ends
    requires { (are_listed ms ≡ true) × Regular p × (0 < rank (remaining ms (allows p)) all_periods) × (from < 2 ^ 31)
        × (j + more < 2 ^ 31) }
    ensures { (result.first ≡ select (remaining ms (allows p)) all_periods from j)
        × (result.last ≡ select (remaining ms (allows p)) all_periods from (j + more)) }
{
    let g = seek_from(ms, p, from);
    let mut kept = [None; 4];
    let a = find(g.table, p, g.sight, j, &mut kept);
    let mut b = find(g.table, p, a.sight, more, &mut kept);
    b.later += a.later;
    Ends {
        first: hit_of(g.table, p, a, from),
        last: hit_of(g.table, p, b, from),
    }
}

// No subframe remains.
pub fn is_empty(ms: Messages, p: Pattern) -> bool
    requires { (are_listed ms ≡ true) × Regular p }
    ensures { result ≡ eqb (rank (remaining ms (allows p)) all_periods) 0 }
{
    if spans::is_empty(p) {
        return true;
    }
    let table = units::timetable_of(ms);
    let n = 4 * table.units + ms.count * table.lanes[0].window;
    let mut s = units::sight_at(table, p, n);
    s.k = 0;
    let end = s.n + table.units;
    scan(table, p, s, &mut [None; 4], end, false).sight.n == end
}

// The sight of unit `end`: how many remain before it from the sight's unit on, as k.
fn counted(table: Timetable, p: Pattern, s: Sight, end: u64) -> Sight
    requires { Sized table × Allowing p × Seen table (allows p) s × (s.n ≤ end) × (end < 2 ^ 15)
        × Exactly table (allows p) s.n s.wants }
    ensures { (result.n ≡ end) × Seen table (allows p) result × (result.k ≤ 2 ^ 31)
        × ((ms : Messages) → Serves ms table → Exact ms (allows p) table s.n s.wants
        → Counted ms (allows p) table s.n result) }
{
    let mut from = s;
    from.k = 0x8000_0000;
    let mut r = scan(table, p, from, &mut [None; 4], end, true).sight;
    r.k = 0x8000_0000 - r.k;
    r
}

// How many remain from the sight's subframe on before subframe t.
fn part_of(table: Timetable, p: Pattern, s: Sight, t: u64) -> Part
    requires { Sized table × Allowing p × Seen table (allows p) s × (t < 2 * (table.unit * table.units))
        × (begin_of table s.n ≤ t + 5 * (table.unit * table.units)) × Ahead table (allows p) s t }
    ensures { (result.before < 2 ^ 32) × Seen table (allows p) result.here × (result.here.k ≤ 2 ^ 31)
        × (begin_of table result.here.n ≤ t + 5 * (table.unit * table.units))
        × ((ms : Messages) → Serves ms table → Exact ms (allows p) table s.n s.wants
        → Parted ms (allows p) table s t result) }
{
    let spot = units::spot_of(table, t);
    let here = counted(table, p, s, spot.n);
    let free = units::free_first(table, p, here.n, here.free, spot.y);
    let needed = units::all_need(table, here.n, here.wants);
    Part {
        before: here.k + free.saturating_sub(needed) - s.k,
        remains: spans::is_allowed(p, t) & (needed <= free),
        here,
    }
}

// How many remain in a period from unit n on, of which those before a later unit are counted.
fn in_period(table: Timetable, p: Pattern, n: u64, here: Sight) -> u64
    requires { Sized table × Allowing p × Seen table (allows p) here × (n < 2 ^ 14) × (here.k ≤ 2 ^ 31)
        × (here.n ≤ n + table.units) × Exactly table (allows p) here.n here.wants }
    ensures { (ms : Messages) → Serves ms table → Counted ms (allows p) table n here
        → result ≡ rank (remaining ms (allows p)) (table.unit * table.units) }
{
    here.k + counted(table, p, here, n + table.units).k
}

// How many remain from one subframe on before another, and whether it remains: a part of a period, and whole periods.
fn count_from(table: Timetable, p: Pattern, from: u64, t: u64) -> Count
    requires { Sized table × Allowing p × (from ≤ t) × Served table }
    ensures { (ms : Messages) → Serves ms table
        → (rank (remaining ms (allows p)) from + result.before ≡ rank (remaining ms (allows p)) t)
        × (result.remains ≡ remaining ms (allows p) t) }
{
    let period = table.unit * table.units;
    let start = from % period;
    let whole = (t - from) / period;
    let rest = (t - from) % period;
    let s = sight_of(table, p, start);
    let part = part_of(table, p, s, start + rest);
    let before = part.before;
    let remains = part.remains;
    if whole == 0 {
        Count { before, remains }
    } else {
        Count {
            before: before + whole * in_period(table, p, s.n, part.here),
            remains,
        }
    }
}

// Where subframe t stands to the first `many` remaining ones that follow the `skip`-th from a given one on.
pub fn locate(ms: Messages, p: Pattern, from: u64, skip: u64, many: u64, t: u64) -> Found
    requires { (are_listed ms ≡ true) × Regular p × (0 < rank (remaining ms (allows p)) all_periods) }
    ensures { result ≡ found_among (remaining ms (allows p)) all_periods
        (select (remaining ms (allows p)) all_periods from skip) many t }
{
    if t < from {
        return Found::Nothing;
    }
    let part = count_from(units::timetable_of(ms), p, from, t);
    match part.before.checked_sub(skip) {
        Some(index) if index < many => {
            if part.remains {
                Found::At(index)
            } else if index == 0 {
                Found::Nothing
            } else {
                Found::Between
            }
        }
        _ => Found::Nothing,
    }
}

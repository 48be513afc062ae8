// Numbers left free by closures, each of which closes some of every period. What four closures leave is counted and
// found without a search, closure over closure; beside a fifth, whose period fits none of theirs, the search goes by
// its periods, whole cycles by division.
#![tactic(auto)]

ghost use Rattle.std.specs.Prelude.{true, ◌≡◌, ℕ, ◌+◌, ◌-◌, ◌*◌, ◌/◌, ◌%◌, min, max, ◌^◌, ◌<◌, ◌≤◌};
ghost use Rattle.counting.specs.Counting.{rank, select};
ghost use Rattle.closures.specs.Closures.{leaves_open, clear, is_free, idle, no_closures};
ghost use Rattle.closures.specs.Quick.{Usable, AllUsable, Chained, capped_of, lower_of, upper_of, Sorted};
ghost use Rattle.closures.specs.Quick.{OneOfTheirs, count_before, Slow, CountsOver, Ranged, AllRanged};
ghost use Rattle.closures.specs.Quick.{WellNested, NestedOf, descend_of, ascend_of, CanAscend, Reached, Begins};
ghost use Rattle.closures.specs.Quick.{GapPeriodAt, Repeats, Scanned, FreeIndexAt};

// Number t is closed if (t + phase) mod period is below `closed`.
#[derive(Clone, Copy)]
pub struct Closure {
    pub period: u64,
    pub phase: u64,
    pub closed: u64,
}

// Four closures; a number is clear if none of them closes it. No array: nprach's definition `closures_of` names the
// four, and so do the laws of both links on it.
#[derive(Clone, Copy)]
pub struct Closures {
    pub b1: Closure,
    pub b2: Closure,
    pub b3: Closure,
    pub b4: Closure,
}

// What a closure leaves of what those below it leave: `per` in a period. Those below are counted from `shift` on,
// where a period begins, and from `least` on, their count where it is open.
#[derive(Clone, Copy)]
pub struct PeriodCount {
    pub shift: u64,
    pub per: u64,
    pub least: u64,
}

// Closures by their periods, each of which divides the next one's, and their counts; and how many numbers of the
// longest period are clear.
#[derive(Clone, Copy)]
pub struct Nested {
    pub closures: Closures,
    pub counts: [PeriodCount; 4],
    pub clear: u64,
}

// On the way down through the closures, the longest period first: a number, and what was counted.
#[derive(Clone, Copy)]
struct Descent {
    at: u64,
    sum: u64,
}

// The same for a number that is looked for: its count, and what is to be added to it and taken off.
#[derive(Clone, Copy)]
struct Ascent {
    n: u64,
    add: u64,
    back: u64,
}

// A period of the fifth closure: the count before it, how many of it are free, and how long it is.
#[derive(Clone, Copy)]
struct GapPeriod {
    from: u64,
    here: u64,
    length: u64,
}

// The count of the first free number, and the number looked for; or, if there are too few, how many are left to pass.
// No enum: each caller knows which it is, and would have an arm that cannot be reached.
#[derive(Clone, Copy)]
struct SearchResult {
    first: u64,
    at: u64,
    left: u64,
}

// After so many numbers the same ones are free again, and how many of those are.
#[derive(Clone, Copy)]
pub struct Cycle {
    pub length: u64,
    pub free: u64,
}

// The first and the last of a run of numbers. Not the type of spans: closures know nothing of subframes.
#[derive(Clone, Copy)]
pub struct Ends {
    pub first: u64,
    pub last: u64,
}

// Whether a number is free, and how many free ones lie before it. No Option: the index counts for one that isn't too.
#[derive(Clone, Copy)]
pub struct FreeIndex {
    pub free: bool,
    pub index: u64,
}

// A closure that closes nothing.
fn idle() -> Closure
    ensures { result ≡ idle }
{
    Closure {
        period: 1,
        phase: 0,
        closed: 0,
    }
}

fn none() -> Closures
    ensures { result ≡ no_closures }
{
    Closures {
        b1: idle(),
        b2: idle(),
        b3: idle(),
        b4: idle(),
    }
}

// A closure closes no more than all.
fn capped(b: Closure) -> Closure
    ensures { result ≡ capped_of b }
{
    Closure {
        period: b.period,
        phase: b.phase,
        closed: b.closed.min(b.period),
    }
}

// Of two closures the one with the smaller period, and the other.
#[tactic(auto, unfolding(crate::specs::Quick::lower_of))]
fn lower(a: Closure, b: Closure) -> Closure
    ensures { result ≡ lower_of a b }
{
    if a.period <= b.period { a } else { b }
}

#[tactic(auto, unfolding(crate::specs::Quick::upper_of))]
fn upper(a: Closure, b: Closure) -> Closure
    ensures { result ≡ upper_of a b }
{
    if a.period <= b.period { b } else { a }
}

// The closures by their periods.
fn ordered(b: Closures) -> Closures
    requires { AllUsable b × Chained b }
    ensures { Sorted result × ((t : ℕ) → clear result t ≡ clear b t) × OneOfTheirs b result.b4.period }
{
    let b1 = capped(b.b1);
    let b2 = capped(b.b2);
    let b3 = capped(b.b3);
    let b4 = capped(b.b4);
    let low1 = lower(b1, b2);
    let low2 = lower(b3, b4);
    let high1 = upper(b1, b2);
    let high2 = upper(b3, b4);
    let mid1 = upper(low1, low2);
    let mid2 = lower(high1, high2);
    Closures {
        b1: lower(low1, low2),
        b2: lower(mid1, mid2),
        b3: upper(mid1, mid2),
        b4: upper(high1, high2),
    }
}

// One closure on the way down. One that closes nothing counts nothing.
#[tactic(auto, unfolding(crate::specs::Quick::descend_of))]
fn descend(b: Closure, c: PeriodCount, m: Descent) -> Descent
    requires { Ranged b c × (m.at < 2 ^ 50) × (m.sum < 2 ^ 56) }
    ensures { (result ≡ descend_of b c m) × (result.at < 2 ^ 50) × (result.sum < m.sum + 2 ^ 51) }
{
    if b.closed == 0 {
        return m;
    }
    let y = m.at + b.phase;
    Descent {
        at: (y % b.period).max(b.closed) + c.shift,
        sum: m.sum + y / b.period * c.per,
    }
}

// The count before t.
fn before(nested: Nested, t: u64) -> u64
    requires { AllRanged nested × (t < 2 ^ 50) }
    ensures { (result ≡ count_before nested t) × (result < 2 ^ 56) }
{
    let m4 = descend(
        nested.closures.b4,
        nested.counts[3],
        Descent { at: t, sum: 0 },
    );
    let m3 = descend(nested.closures.b3, nested.counts[2], m4);
    let m2 = descend(nested.closures.b2, nested.counts[1], m3);
    let m1 = descend(nested.closures.b1, nested.counts[0], m2);
    m1.sum + m1.at
}

fn no_count() -> PeriodCount
    ensures { result ≡ record { shift = 0; per = 0; least = 0 } }
{
    PeriodCount {
        shift: 0,
        per: 0,
        least: 0,
    }
}

// What a closure leaves of what those below it leave.
fn count_over(b: Closure, below: Nested) -> PeriodCount
    requires { Usable b × (b.closed ≤ b.period) × AllRanged below × Slow (count_before below) }
    ensures { Ranged b result × (0 < b.closed → CountsOver b (count_before below) result) }
{
    if b.closed == 0 {
        return no_count();
    }
    let shift = b.period - b.phase % b.period;
    let least = before(below, b.closed + shift);
    PeriodCount {
        shift,
        per: before(below, b.period + shift) - least,
        least,
    }
}

// How many numbers of the longest period are clear.
fn in_longest(nested: Nested) -> u64
    requires { WellNested nested }
    ensures { result ≡ rank (clear nested.closures) nested.closures.b4.period }
{
    let longest = nested.closures.b4.period;
    before(nested, longest) - before(nested, 0)
}

// Closures in order, with their counts.
fn with_counts(b: Closures) -> Nested
    requires { Sorted b }
    ensures { WellNested result × (result.closures ≡ b) }
{
    let mut nested = Nested {
        closures: none(),
        counts: [no_count(); 4],
        clear: 0,
    };
    nested.counts[0] = count_over(b.b1, nested);
    nested.closures.b1 = b.b1;
    nested.counts[1] = count_over(b.b2, nested);
    nested.closures.b2 = b.b2;
    nested.counts[2] = count_over(b.b3, nested);
    nested.closures.b3 = b.b3;
    nested.counts[3] = count_over(b.b4, nested);
    nested.closures.b4 = b.b4;
    nested
}

// Closures nested by their periods.
pub fn nest(b: Closures) -> Nested
    requires { AllUsable b × Chained b }
    ensures { NestedOf b result }
{
    let mut nested = with_counts(ordered(b));
    let clear = in_longest(nested);
    nested.clear = clear;
    nested
}

// One closure on the way to a number that is looked for: whole periods by division.
#[tactic(auto, unfolding(crate::specs::Quick::ascend_of))]
fn ascend(b: Closure, c: PeriodCount, g: Ascent) -> Ascent
    requires { Ranged b c × CanAscend b c g }
    ensures { result ≡ ascend_of b c g }
{
    if b.closed == 0 {
        return g;
    }
    let whole = (g.n - c.least) / c.per;
    Ascent {
        n: g.n - whole * c.per,
        add: g.add + whole * b.period,
        back: g.back + (c.shift + b.phase),
    }
}

// The clear number whose count is n.
fn find(nested: Nested, n: u64) -> u64
    requires { WellNested nested × Reached nested n }
    ensures { (t : ℕ) → clear nested.closures t ≡ true → count_before nested t ≡ n → t < 2 ^ 48 → result ≡ t }
{
    let g4 = ascend(
        nested.closures.b4,
        nested.counts[3],
        Ascent { n, add: 0, back: 0 },
    );
    let g3 = ascend(nested.closures.b3, nested.counts[2], g4);
    let g2 = ascend(nested.closures.b2, nested.counts[1], g3);
    let g1 = ascend(nested.closures.b1, nested.counts[0], g2);
    g1.n + g1.add - g1.back
}

fn leaves_open_at(b: Closure, t: u64) -> bool
    requires { Usable b × (t < 2 ^ 48) }
    ensures { result ≡ leaves_open b t }
{
    (t + b.phase) % b.period >= b.closed
}

fn is_free(gap: Closure, b: Closures, t: u64) -> bool
    requires { Usable gap × AllUsable b × (t < 2 ^ 48) }
    ensures { result ≡ is_free gap b t }
{
    let front = leaves_open_at(b.b1, t) & leaves_open_at(b.b2, t);
    let back = leaves_open_at(b.b3, t) & leaves_open_at(b.b4, t);
    leaves_open_at(gap, t) & (front & back)
}

// One period of the gap from `at` on, where it is open, but not past `end`.
fn gap_period_at(gap: Closure, nested: Nested, at: u64, end: u64) -> GapPeriod
    requires { Usable gap × Begins gap at × WellNested nested × (at < end) × (end < 2 ^ 48) }
    ensures { GapPeriodAt gap nested at end result }
{
    let rest = end - at;
    let from = before(nested, at);
    let to = before(nested, at + (gap.period - gap.closed).min(rest));
    GapPeriod {
        from,
        here: to - from,
        length: gap.period.min(rest),
    }
}

// The j-th free number among the n from t on, where the gap is open: by its periods, each counted as a whole. As long
// as all j are left, nothing free was passed, and the first one may be in the period at hand.
fn scan(gap: Closure, nested: Nested, t: u64, n: u64, j: u64) -> SearchResult
    requires { Usable gap × Begins gap t × WellNested nested × (t < 2 ^ 47) × (n < 2 ^ 47) }
    ensures { Scanned gap nested t n j result }
{
    let end = t + n;
    let mut at = t;
    let mut left = j;
    let mut first = 0;
    // No for: a step is as long as the gap's period, or what is left of it.
    while at < end {
        let gap_period = gap_period_at(gap, nested, at, end);
        if left == j {
            first = gap_period.from;
        }
        if left < gap_period.here {
            return SearchResult {
                first,
                at: find(nested, gap_period.from + left),
                left: 0,
            };
        }
        left -= gap_period.here;
        at += gap_period.length;
    }
    SearchResult {
        first,
        at: end,
        left,
    }
}

// How many of the n numbers from t on are free.
fn count_free(gap: Closure, nested: Nested, t: u64, n: u64) -> u64
    requires { Usable gap × Begins gap t × WellNested nested × (t < 2 ^ 47) × (n < 2 ^ 47) }
    ensures { (rank (is_free gap nested.closures) t + result ≡ rank (is_free gap nested.closures) (t + n))
        × (result ≤ n) }
{
    n - scan(gap, nested, t, n, n).left
}

// The j-th free number from t on, counted from 0.
pub fn nth(gap: Closure, nested: Nested, cycle: Cycle, t: u64, j: u64) -> u64
    requires { Usable gap × Begins gap t × WellNested nested × Repeats (is_free gap nested.closures) cycle
        × (t < 2 ^ 47) × (j < 2 ^ 33) }
    ensures { result ≡ select (is_free gap nested.closures) cycle.length t j }
{
    let whole = j / cycle.free;
    scan(gap, nested, t, cycle.length, j - whole * cycle.free).at + whole * cycle.length
}

// The first free number from t on and the j-th, by one search.
pub fn first_and_last(gap: Closure, nested: Nested, cycle: Cycle, t: u64, j: u64) -> Ends
    requires { Usable gap × Begins gap t × WellNested nested × Repeats (is_free gap nested.closures) cycle
        × (t < 2 ^ 47) × (j < 2 ^ 33) }
    ensures { (result.first ≡ select (is_free gap nested.closures) cycle.length t 0)
        × (result.last ≡ select (is_free gap nested.closures) cycle.length t j) }
{
    let whole = j / cycle.free;
    let rest = j - whole * cycle.free;
    let found = scan(gap, nested, t, cycle.length, rest);
    let last = found.at + whole * cycle.length;
    if rest == 0 {
        Ends {
            first: found.at,
            last,
        }
    } else {
        Ends {
            first: find(nested, found.first),
            last,
        }
    }
}

// Of the number that is y past t: whether it is free, and how many free ones lie from t on before it.
pub fn free_index(gap: Closure, nested: Nested, cycle: Cycle, t: u64, y: u64) -> FreeIndex
    requires { Usable gap × Begins gap t × WellNested nested × Repeats (is_free gap nested.closures) cycle
        × (t < 2 ^ 46) }
    ensures { FreeIndexAt (is_free gap nested.closures) t y result }
{
    let whole = y / cycle.length;
    let rest = y - whole * cycle.length;
    let before = count_free(gap, nested, t, rest);
    FreeIndex {
        free: is_free(gap, nested.closures, t + rest),
        index: whole * cycle.free + before,
    }
}

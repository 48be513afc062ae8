// Which slots a shape may send, counted from the slot that the grant first names.
ghost use Rattle.std.specs.Prelude.{◌≡◌, ◌/◌, ◌^◌, ◌<◌};
ghost use Rattle.counting.specs.Counting.{select};
ghost use Rattle.closures.specs.Closures.{clear, is_free};
ghost use Rattle.closures.specs.Quick.{Repeats};
ghost use Rattle.uplink.specs.Fits.{Fits, OpenRepeats};
ghost use Rattle.uplink.specs.Timing.{active, period, slot_at};
ghost use Rattle.uplink.specs.Scaffold.{all_open};
ghost use Rattle.uplink.specs.Quick.{gap_closure, Searchable, SearchOf, active_index};

use super::Shape;
use closures::{Closure, Cycle, Ends, Nested};

// The first slot's group, the groups of the gaps, and after how many groups all repeats.
#[derive(Clone, Copy)]
pub struct GroupSearch {
    from: u64,
    gap: Closure,
    cycle: Cycle,
}

// n over the slots of a gap period, without a division by them if they are 148 or 592: 37 times 4 or 16.
fn over_gap_period(period: u64, n: u64) -> u64
    requires { 0 < period }
    ensures { result ≡ n / period }
{
    match period {
        148 => (n / 37) >> 2,
        592 => (n / 37) >> 4,
        _ => n / period,
    }
}

// The i-th slot that may be sent, where there is no window.
pub fn active_at(s: Shape, i: u64) -> u64
    requires { Fits s × (i < 2 ^ 32) }
    ensures { (result ≡ select (active s all_open) (period s) 0 i) × (result < 2 ^ 49) }
{
    i + s.gap * (i / s.block)
}

// n slots in groups, without a division if they have one slot or two.
fn over_group(group: u64, n: u64) -> u64
    requires { 0 < group }
    ensures { result ≡ n / group }
{
    match group {
        1 => n,
        2 => n / 2,
        _ => n / group,
    }
}

// The groups of the gaps, from the first slot's group on.
fn gap_closure(s: Shape, from: u64) -> Closure
    requires { Fits s × (from ≡ s.first / s.group) }
    ensures { result ≡ gap_closure s }
{
    let closed = over_group(s.group, s.gap);
    let period = over_group(s.group, s.block + s.gap);
    Closure {
        period,
        phase: closed + (period - from % period),
        closed,
    }
}

// After 37 of the longest period the same groups may be sent again. In it each group of that period comes at each of
// a gap period's 37 places once, and may be sent at 32 of them.
fn cycle(s: Shape, nested: Nested) -> Cycle
    requires { Fits s × OpenRepeats s (clear nested.closures) × Searchable s nested }
    ensures { Repeats (is_free (gap_closure s) nested.closures) result }
{
    Cycle {
        length: 37 * nested.closures.b4.period,
        free: 32 * nested.clear,
    }
}

// How a shape's slots go on around the windows.
pub fn group_search(s: Shape, nested: Nested) -> GroupSearch
    requires { Fits s × OpenRepeats s (clear nested.closures) × Searchable s nested }
    ensures { SearchOf s nested result }
{
    let from = over_group(s.group, s.first);
    GroupSearch {
        from,
        gap: gap_closure(s, from),
        cycle: cycle(s, nested),
    }
}

// Transmitted slot i, around the windows.
pub fn open_slot_at(s: Shape, nested: Nested, search: GroupSearch, i: u64) -> u64
    requires { Fits s × OpenRepeats s (clear nested.closures) × Searchable s nested × SearchOf s nested search
        × (i < 2 ^ 32) }
    ensures { result ≡ slot_at s (clear nested.closures) i }
{
    let group = s.group;
    let j = over_group(group, i);
    let at = closures::nth(search.gap, nested, search.cycle, search.from, j);
    at * group + (i - j * group)
}

// Transmitted slots 0 and i, around the windows, by one search.
pub fn open_ends(s: Shape, nested: Nested, search: GroupSearch, i: u64) -> Ends
    requires { Fits s × OpenRepeats s (clear nested.closures) × Searchable s nested × SearchOf s nested search
        × (i < 2 ^ 32) }
    ensures { (result.first ≡ slot_at s (clear nested.closures) 0)
        × (result.last ≡ slot_at s (clear nested.closures) i) }
{
    let group = s.group;
    let j = over_group(group, i);
    let ends = closures::first_and_last(search.gap, nested, search.cycle, search.from, j);
    Ends {
        first: ends.first * group,
        last: ends.last * group + (i - j * group),
    }
}

// If slot number x, counted from the first, may be sent: how many before it may.
pub fn open_index(s: Shape, nested: Nested, search: GroupSearch, x: u64) -> Option<u64>
    requires { Fits s × OpenRepeats s (clear nested.closures) × Searchable s nested × SearchOf s nested search }
    ensures { result ≡ active_index s (clear nested.closures) x }
{
    let group = s.group;
    let y = over_group(group, x);
    let at = closures::free_index(search.gap, nested, search.cycle, search.from, y);
    if at.free {
        Some(at.index * group + (x - y * group))
    } else {
        None
    }
}

// The same, where there is no window.
pub fn active_index(s: Shape, x: u64) -> Option<u64>
    requires { Fits s }
    ensures { result ≡ active_index s all_open x }
{
    let block = s.block;
    let period = block + s.gap;
    let whole = over_gap_period(period, x);
    let rest = x - whole * period;
    if rest < block {
        Some(whole * block + rest)
    } else {
        None
    }
}

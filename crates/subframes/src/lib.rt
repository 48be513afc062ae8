// The search among the subframes that a pattern allows and that messages, where they are laid, leave. With no message
// it is the pattern's own. Messages are lent as their numbers, `si`, and read where they are laid: a record of them
// would be copied from call to call.
#![tactic(auto)]

ghost use Rattle.std.specs.Prelude.{true, ◌≡◌, ◌+◌, ◌<◌, ◌^◌, eqb, length, ◌≤◌};
ghost use Rattle.counting.specs.Counting.{rank, select};
ghost use Rattle.spans.specs.Found.{found_among};
ghost use Rattle.messages.specs.Messages.{all_periods};
ghost use Rattle.messages.specs.Quick.{is_silent};
ghost use Rattle.subframes.specs.Subframes.{schedule_at, messages_in};
ghost use Rattle.subframes.specs.Scaffold.{numbers_of, left_in, Laid, Searchable};

use messages::{Messages, Schedule};
use spans::{Ends, Found, Pattern};

// Window, offset, count, and three numbers of each of four schedules.
const NUMBERS: usize = 15;

fn schedule_at(si: &[u64], i: usize) -> Schedule
    requires { i + 3 ≤ length si.now }
    ensures { result ≡ schedule_at si.now i }
{
    Schedule {
        period: si[i],
        every: si[i + 1],
        size: si[i + 2],
    }
}

// The messages of fifteen lent numbers; fewer name none.
pub fn messages_in(si: &[u64]) -> Messages
    ensures { result ≡ messages_in si.now }
{
    if si.len() < NUMBERS {
        return messages::none();
    }
    Messages {
        window: si[0],
        offset: si[1],
        count: si[2],
        s1: schedule_at(si, 3),
        s2: schedule_at(si, 6),
        s3: schedule_at(si, 9),
        s4: schedule_at(si, 12),
    }
}

// The numbers of messages, to be lent.
pub fn numbers(ms: Messages) -> [u64; 15]
    ensures { result ≡ numbers_of ms }
{
    [
        ms.window,
        ms.offset,
        ms.count,
        ms.s1.period,
        ms.s1.every,
        ms.s1.size,
        ms.s2.period,
        ms.s2.every,
        ms.s2.size,
        ms.s3.period,
        ms.s3.every,
        ms.s3.size,
        ms.s4.period,
        ms.s4.every,
        ms.s4.size,
    ]
}

// Too few numbers for messages.
pub fn are_none(si: &[u64]) -> bool
    ensures { result ≡ true → is_silent (messages_in si.now) ≡ true }
{
    si.len() < NUMBERS
}

// No messages, or such as change nothing.
pub fn is_silent(si: &[u64]) -> bool
    ensures { result ≡ is_silent (messages_in si.now) }
{
    are_none(si) || messages::is_silent(messages_in(si))
}

// Whether subframe t is left.
pub fn is_left(p: Pattern, laid: bool, si: &[u64], t: u64) -> bool
    requires { Laid p laid (messages_in si.now) }
    ensures { result ≡ left_in p laid (messages_in si.now) t }
{
    if laid {
        timetable::is_remaining(messages_in(si), p, t)
    } else {
        spans::is_allowed(p, t)
    }
}

// No subframe is left.
pub fn is_empty(p: Pattern, laid: bool, si: &[u64]) -> bool
    requires { Laid p laid (messages_in si.now) }
    ensures { result ≡ eqb (rank (left_in p laid (messages_in si.now)) all_periods) 0 }
{
    if laid {
        timetable::is_empty(messages_in(si), p)
    } else {
        spans::is_empty(p)
    }
}

// The j-th that is left from a given subframe on, counted from 0.
pub fn nth(p: Pattern, laid: bool, si: &[u64], from: u64, j: u64) -> u64
    requires { Searchable p laid (messages_in si.now) × (from < 2 ^ 31) × (j < 2 ^ 31) }
    ensures { result ≡ select (left_in p laid (messages_in si.now)) all_periods from j }
{
    if laid {
        timetable::nth(messages_in(si), p, from, j)
    } else {
        spans::nth(p, from, j)
    }
}

// The j-th from a given one on, and the one that follows it after `more`.
pub fn first_and_last(p: Pattern, laid: bool, si: &[u64], from: u64, j: u64, more: u64) -> Ends
    requires { Searchable p laid (messages_in si.now) × (from < 2 ^ 31) × (j + more < 2 ^ 31) }
    ensures { (result.first ≡ select (left_in p laid (messages_in si.now)) all_periods from j)
        × (result.last ≡ select (left_in p laid (messages_in si.now)) all_periods from (j + more)) }
{
    if laid {
        timetable::first_and_last(messages_in(si), p, from, j, more)
    } else {
        spans::first_and_last(p, from, j, more)
    }
}

// Where subframe t stands to the first `many` left ones that follow the `skip`-th from a given one on.
pub fn locate(p: Pattern, laid: bool, si: &[u64], from: u64, skip: u64, many: u64, t: u64) -> Found
    requires { Searchable p laid (messages_in si.now) }
    ensures { result
        ≡ found_among (left_in p laid (messages_in si.now)) all_periods
        (select (left_in p laid (messages_in si.now)) all_periods from skip) many t }
{
    if laid {
        timetable::locate(messages_in(si), p, from, skip, many, t)
    } else {
        spans::locate(p, from, skip, many, t)
    }
}

// System information messages: their numbers, and refusal 21's test of them.
#![tactic(auto)]

ghost use Rattle.std.specs.Prelude.{◌≡◌};
ghost use Rattle.counting.specs.Listed.{is_one_of};
ghost use Rattle.messages.specs.Messages.{windows, periods, distances, sizes, is_listed, are_listed};
ghost use Rattle.messages.specs.Messages.{no_messages};
ghost use Rattle.messages.specs.Quick.{is_silent};

// A window every `period` frames, in it a copy of `size` subframes at every `every`-th frame.
#[derive(Clone, Copy, Default)]
pub struct Schedule {
    pub period: u64,
    pub every: u64,
    pub size: u64,
}

// The window's length in ms, its offset in frames, and up to four schedules; those past the count are not read.
// No array: the definitions of specs/Messages and AllLaid name the four fields.
#[derive(Clone, Copy)]
pub struct Messages {
    pub window: u64,
    pub offset: u64,
    pub count: u64,
    pub s1: Schedule,
    pub s2: Schedule,
    pub s3: Schedule,
    pub s4: Schedule,
}

fn is_window(x: u64) -> bool
    ensures { result ≡ is_one_of windows x }
{
    matches!(x, 160 | 320 | 480 | 640 | 960 | 1280 | 1600)
}

fn is_period(x: u64) -> bool
    ensures { result ≡ is_one_of periods x }
{
    matches!(x, 64 | 128 | 256 | 512 | 1024 | 2048 | 4096)
}

fn is_distance(x: u64) -> bool
    ensures { result ≡ is_one_of distances x }
{
    matches!(x, 2 | 4 | 8 | 16)
}

fn is_size(x: u64) -> bool
    ensures { result ≡ is_one_of sizes x }
{
    matches!(x, 2 | 8)
}

// The numbers of a schedule are listed, and a window of so many frames is no longer than its period.
#[tactic(auto, unfolding(crate::specs::Messages::is_listed))]
fn is_listed(frames: u64, s: Schedule) -> bool
    ensures { result ≡ is_listed frames s }
{
    is_period(s.period) && is_distance(s.every) && is_size(s.size) && frames <= s.period
}

// What a cell has for which no messages are named.
pub fn none() -> Messages
    ensures { result ≡ no_messages }
{
    let s = Schedule::default();
    Messages {
        window: 160,
        offset: 0,
        count: 0,
        s1: s,
        s2: s,
        s3: s,
        s4: s,
    }
}

// No schedule is counted, and the numbers that are judged always are listed. One test at a time: where a caller names
// no messages, the compiler decides them.
#[tactic(auto, unfolding(crate::specs::Quick::is_silent))]
pub fn is_silent(ms: Messages) -> bool
    ensures { result ≡ is_silent ms }
{
    ms.count == 0 && ms.offset <= 15 && is_window(ms.window)
}

// Refusal 21: window, offset and count are judged always, a schedule if it is read.
#[tactic(auto, unfolding(crate::specs::Messages::are_listed))]
pub fn are_listed(ms: Messages) -> bool
    ensures { result ≡ are_listed ms }
{
    let count = ms.count;
    let frames = ms.window / 10;
    let own = is_window(ms.window) && ms.offset <= 15 && count <= 4;
    let front = (count < 1 || is_listed(frames, ms.s1)) && (count < 2 || is_listed(frames, ms.s2));
    let back = (count < 3 || is_listed(frames, ms.s3)) && (count < 4 || is_listed(frames, ms.s4));
    own && front && back
}

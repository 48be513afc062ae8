// The UE-specific search space of NPDCCH: where it starts, and its candidates from there on.
#![tactic(auto)]

ghost use Rattle.std.specs.Prelude.{◌≡◌, true, ℕ, ◌*◌, ◌+◌, ◌≤◌, ◌<◌, ◌^◌, length, get_or};
ghost use Rattle.refusals.specs.Refusal.{number_of, refused_by};
ghost use Rattle.counting.specs.Counting.{next, rank, select};
ghost use Rattle.grid.specs.Grid.{last_subframe};
ghost use Rattle.grid.specs.Tables.{is_repetition};
ghost use Rattle.spans.specs.Pattern.{allows, period_of, Regular};
ghost use Rattle.messages.specs.Messages.{all_periods, are_listed, remaining};
ghost use Rattle.cell.specs.Quick.{lent_cell};
ghost use Rattle.subframes.specs.Scaffold.{left_in, Searchable};
ghost use Rattle.search_space.specs.Starts.{hyperframe, doubled_period, is_start};
ghost use Rattle.search_space.specs.Refusals.{space_refusal};
ghost use Rattle.search_space.specs.Candidates.{blank};
ghost use Rattle.search_space.specs.Questions.{refused_search, monitored_in, search_of};
ghost use Rattle.search_space.specs.Quick.{FirstFrom, cut_of, CutFits, BlocksOf, digit_of, entry_in, JudgedSpace};

use cell::{Cell, CellConfig, Verdict};
use messages::Messages;
use refusals::Refusal;
use spans::{Counted, Ends, Pattern};

// Subframes of a hyperframe.
const HYPERFRAME: u64 = 10240;

// 2G by field.
const DOUBLED_G: [u8; 8] = [3, 4, 8, 16, 32, 64, 96, 128];

// Of each candidate the first and the last block of the smallest R: candidate k has digit k of sixteen, the lowest is
// digit 0. A row for Rmax 1, 2, 4 and from 8 up.
const BLOCK_ROWS: [(u64, u64); 4] = [
    (0, 0),
    (0x100, 0x110),
    (0x322_1000, 0x332_1310),
    (0x766_5444_3221_0000, 0x776_5754_3321_7310),
];

// Asked from subframe n on: Rmax, and the fields of G and of the offset.
#[derive(Clone, Copy)]
pub struct SearchSpace {
    pub n: u64,
    pub rmax: u64,
    pub g: u64,
    pub alpha: u64,
}

// r copies in usable subframes, from the first to the last.
#[derive(Clone, Copy)]
pub struct Candidate {
    pub first: u64,
    pub r: u64,
    pub last: u64,
}

const BLANK: Candidate = Candidate {
    first: 0,
    r: 0,
    last: 0,
};

// The answer: the refusal number; the start; how many candidates there are, and these, zeros past the count. No Result:
// `search_of` and the C interface speak of these fields.
#[derive(Clone, Copy)]
pub struct SearchAnswer {
    pub no: u64,
    pub start: u64,
    pub count: u64,
    pub list: [Candidate; 15],
}

// Rmax in blocks of the smallest R: their size, how many, how many candidates, and the row of the tables.
#[derive(Clone, Copy)]
struct Cut {
    size: u64,
    many: u64,
    count: u64,
    row: u64,
}

// A block not looked for yet.
const NO_BLOCK: Ends = Ends { first: 0, last: 0 };

// 2T.
fn doubled_period(s: SearchSpace) -> u64
    requires { (is_repetition s.rmax ≡ true) × (s.g < 8) }
    ensures { (result ≡ doubled_period s) × (result ≤ 2 ^ 18) }
{
    let g = s.g as usize;
    s.rmax * u64::from(DOUBLED_G[g])
}

// The first number from x on that is `part` mod `period`.
fn first_from(x: u64, period: u64, part: u64) -> u64
    requires { (x < hyperframe) × (part < period) × (period < 2 ^ 20) }
    ensures { FirstFrom period part x result × (result < 2 ^ 22) }
{
    if x <= part {
        return part;
    }
    (x - part + (period - 1)) / period * period + part
}

// The first start from subframe n on: in the hyperframe of n, or the first of the next.
fn start_from(n: u64, period: u64, part: u64) -> u64
    requires { (n ≤ last_subframe) × (part < period) × (period < 2 ^ 20) × (part < hyperframe) }
    ensures { (result ≡ next (is_start period part) hyperframe n) × (result < 2 ^ 30 + hyperframe) }
{
    let x = n % HYPERFRAME;
    let y = first_from(x, period, part);
    if y < HYPERFRAME {
        return n - x + y;
    }
    n - x + HYPERFRAME + part
}

fn cut_of(rmax: u64) -> Cut
    requires { is_repetition rmax ≡ true }
    ensures { (result ≡ cut_of rmax) × CutFits result }
{
    if rmax < 8 {
        return Cut {
            size: 1,
            many: rmax,
            count: 2 * rmax - 1,
            row: rmax / 2,
        };
    }
    Cut {
        size: rmax / 8,
        many: 8,
        count: 15,
        row: 3,
    }
}

// A block: the j-th subframe that messages leave from a given one on, and the last of the `more` that follow it.
fn block(ms: Messages, p: Pattern, from: u64, j: u64, more: u64) -> Ends
    requires { (are_listed ms ≡ true) × Regular p × (0 < rank (remaining ms (allows p)) all_periods) × (from < 2 ^ 31)
        × (j + more < 2 ^ 31) }
    ensures { (result.first ≡ select (remaining ms (allows p)) all_periods from j)
        × (result.last ≡ select (remaining ms (allows p)) all_periods from (j + more)) }
{
    if more == 0 {
        let t = timetable::nth(ms, p, from, j);
        return Ends { first: t, last: t };
    }
    timetable::first_and_last(ms, p, from, j, more)
}

// The blocks from the start on, each looked for from the end of the one before it: so no one function fills these and
// those of blocks_alone, which are found by rank.
fn blocks_beside(ms: Messages, p: Pattern, start: u64, x: Cut) -> [Ends; 8]
    requires { (are_listed ms ≡ true) × Regular p × (0 < rank (remaining ms (allows p)) all_periods)
        × (start < 2 ^ 30 + hyperframe) × CutFits x }
    ensures { BlocksOf (select (remaining ms (allows p)) all_periods start) x result }
{
    let size = x.size;
    let mut list = [NO_BLOCK; 8];
    let mut from = start;
    let mut skip = 0;
    for i in 0..x.many {
        let ends = block(ms, p, from, skip, size - 1);
        list[i as usize] = ends;
        from = ends.last;
        skip = 1;
    }
    list
}

// The subframe before which k allowed ones lie, and the last of the `more` that follow it.
fn ends_at(counted: Counted, k: u64, more: u64) -> Ends
    requires { (0 < rank (allows counted.pattern) (period_of counted.pattern)) × (k + more < 2 ^ 32) }
    ensures { ((allows counted.pattern result.first ≡ true) × (rank (allows counted.pattern) result.first ≡ k))
        × ((allows counted.pattern result.last ≡ true)
        × (rank (allows counted.pattern) result.last ≡ k + more)) }
{
    let first = counted.at(k);
    if more == 0 {
        return Ends { first, last: first };
    }
    let last = counted.at(k + more);
    Ends { first, last }
}

// The same blocks in a pattern on which no message is laid, all by the rank of the start.
fn blocks_alone(p: Pattern, start: u64, x: Cut) -> [Ends; 8]
    requires { Regular p × (0 < rank (allows p) (period_of p)) × (start < 2 ^ 30 + hyperframe) × CutFits x }
    ensures { BlocksOf (select (allows p) (period_of p) start) x result }
{
    let size = x.size;
    let counted = Counted::new(p);
    let first = counted.rank_of(start);
    let mut list = [NO_BLOCK; 8];
    for i in 0..x.many {
        list[i as usize] = ends_at(counted, first + i * size, size - 1);
    }
    list
}

// The blocks from the start on, with and without messages.
fn all_blocks(p: Pattern, laid: bool, ms: Messages, start: u64, x: Cut) -> [Ends; 8]
    requires { Searchable p laid ms × (start < 2 ^ 30 + hyperframe) × CutFits x }
    ensures { BlocksOf (select (left_in p laid ms) all_periods start) x result }
{
    if laid {
        return blocks_beside(ms, p, start, x);
    }
    blocks_alone(p, start, x)
}

// Digit k of sixteen.
fn digit(x: u64, k: u64) -> u64
    requires { k < 16 }
    ensures { result ≡ digit_of x k }
{
    (x >> (4 * k)) % 16
}

// All of them, in order; zeros past the count.
fn listed(b: [Ends; 8], x: Cut) -> [Candidate; 15]
    requires { CutFits x }
    ensures { (length result ≡ 15) × ((k : ℕ) → k < 15 → get_or result k blank ≡ entry_in b x k) }
{
    let (firsts, lasts) = BLOCK_ROWS[x.row as usize];
    let size = x.size;
    let mut list = [BLANK; 15];
    for k in 0..x.count {
        let i = digit(firsts, k);
        let j = digit(lasts, k);
        list[k as usize] = Candidate {
            first: b[i as usize].first,
            r: (j + 1 - i) * size,
            last: b[j as usize].last,
        };
    }
    list
}

// 9, 10, 12, 22 and 23.
fn space_refusal(s: SearchSpace) -> Result<(), Refusal>
    ensures { refused_by result ≡ space_refusal s }
{
    downlink::fields_refusal(s.n, (s.g > 7) | (s.alpha > 3), s.rmax)?;
    let doubled = doubled_period(s);
    if doubled < 8 {
        return Err(Refusal::ShortPeriod);
    }
    if HYPERFRAME <= s.alpha * (doubled / 2) / 8 {
        return Err(Refusal::LateOffset);
    }
    Ok(())
}

fn refused(refusal: Refusal) -> SearchAnswer
    ensures { result ≡ refused_search (number_of refusal) }
{
    SearchAnswer {
        no: refusal.number(),
        start: 0,
        count: 0,
        list: [BLANK; 15],
    }
}

// The candidates of an accepted search space, in what messages leave of pattern p.
fn monitored(p: Pattern, laid: bool, ms: Messages, s: SearchSpace) -> SearchAnswer
    requires { Searchable p laid ms × (space_refusal s ≡ 0) }
    ensures { result ≡ monitored_in (left_in p laid ms) s }
{
    let period = doubled_period(s) / 2;
    let start = start_from(s.n, period, s.alpha * period / 8);
    let x = cut_of(s.rmax);
    let list = listed(all_blocks(p, laid, ms, start, x), x);
    SearchAnswer {
        no: 0,
        start,
        count: x.count,
        list,
    }
}

// A search space judged: by the cell, then by itself.
fn judged(
    c: CellConfig,
    si: &[u64],
    anchor: &[u8],
    other: &[u8],
    s: SearchSpace,
) -> Result<Verdict, Refusal>
    ensures { JudgedSpace (lent_cell c si.now) anchor.now other.now s result }
{
    let v = cell::judged_lent(c, si, anchor, other)?;
    space_refusal(s)?;
    Ok(v)
}

// Where control may start: the first start from subframe n on, and all candidates by first subframe, then R.
pub fn search_lent(
    c: CellConfig,
    si: &[u64],
    anchor: &[u8],
    other: &[u8],
    s: SearchSpace,
) -> SearchAnswer
    ensures { result ≡ search_of (lent_cell c si.now) anchor.now other.now s }
{
    match judged(c, si, anchor, other, s) {
        Ok(v) => monitored(v.pattern, v.laid, subframes::messages_in(si), s),
        Err(refusal) => refused(refusal),
    }
}

// The same on a cell, which lends its messages.
pub fn search(c: Cell, anchor: &[u8], other: &[u8], s: SearchSpace) -> SearchAnswer
    ensures { result ≡ search_of c anchor.now other.now s }
{
    let si = subframes::numbers(c.messages);
    search_lent(c.config, &si, anchor, other, s)
}

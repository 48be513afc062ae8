// The quick search among usable subframes: whole periods by division, spans of forty by a count of ones, the last
// span by its digits.
#![tactic(auto)]

ghost use Rattle.std.specs.Prelude.{true, ◌≡◌, ◌+◌, ◌*◌, ◌/◌, ◌<◌, ◌≤◌, ◌^◌, eqb};
ghost use Rattle.std.specs.Int.Count.{ones};
ghost use Rattle.counting.specs.Counting.{rank, select};
ghost use Rattle.spans.specs.Pattern.{span, with_sib1, mask_at, allows, period_of, Regular, OnesOf, Landed};
ghost use Rattle.spans.specs.Pattern.{Picked};
ghost use Rattle.spans.specs.Found.{found_among};

// Spans of forty subframes, the first subframe at the highest of forty digits of a mask. The pattern repeats after
// 2^log spans; in the four from `first` on SIB1 stands and `sib1` is their mask, `usual` is that of the others.
// No ghost field for Regular: anchor_pattern (sync) and the cell's definitions build patterns as plain records.
#[derive(Clone, Copy)]
pub struct Pattern {
    pub log: u64,
    pub first: u64,
    pub usual: u64,
    pub sib1: u64,
}

// A pattern, and how many ones its two masks have.
#[derive(Clone, Copy)]
pub struct Counted {
    pub pattern: Pattern,
    pub sib1_ones: u64,
    pub usual_ones: u64,
    ghost regular: { Regular pattern },
    ghost counts: { OnesOf pattern sib1_ones usual_ones },
}

// The first and the last of a run of allowed subframes.
#[derive(Clone, Copy)]
pub struct Ends {
    pub first: u64,
    pub last: u64,
}

// Where a subframe stands to a run of allowed ones: its index in it, not allowed but between the first and the last,
// or neither. No Option: a subframe between is neither in the run nor outside it.
#[derive(Clone, Copy)]
pub enum Found {
    At(u64),
    Between,
    Nothing,
}

// How many spans before span s have SIB1.
fn sib1_before(p: Pattern, s: u64) -> u64
    requires { Regular p }
    ensures { result ≡ rank (with_sib1 p) s }
{
    let whole = (s >> p.log) * 4;
    let x = counting::low(s, p.log);
    whole + x.saturating_sub(p.first).min(4)
}

// The mask of span s.
fn mask_at(p: Pattern, s: u64) -> u64
    requires { Regular p }
    ensures { result ≡ mask_at p s }
{
    let first = p.first;
    let x = counting::low(s, p.log);
    if (first <= x) & (x < first + 4) {
        p.sib1
    } else {
        p.usual
    }
}

// Whether subframe t is allowed.
pub fn is_allowed(p: Pattern, t: u64) -> bool
    requires { Regular p }
    ensures { result ≡ allows p t }
{
    let i = t % 40;
    (mask_at(p, t / 40) >> (39 - i)) % 2 == 1
}

// No subframe is allowed.
pub fn is_empty(p: Pattern) -> bool
    requires { Regular p }
    ensures { result ≡ eqb (rank (allows p) (period_of p)) 0 }
{
    (p.sib1 == 0) & ((p.log == 2) | (p.usual == 0))
}

// The k-th allowed subframe of a stretch of spans from span s on, all with one mask of n ones.
fn in_stretch(mask: u64, n: u64, s: u64, k: u64) -> u64
    requires { (n ≡ ones mask) × (0 < n) × (mask < 2 ^ 40) × (k < 2 ^ 32) × (s + k / n < 16) }
    ensures { Landed mask n s k result }
{
    let q = counting::quotient(k, n);
    let rest = k - q * n;
    40 * (s + q) + (39 - counting::nth_one(mask, n - 1 - rest))
}

impl Counted {
    pub fn new(pattern: Pattern) -> Counted
        requires { Regular pattern }
        ensures { result.pattern ≡ pattern }
    {
        Counted {
            pattern,
            sib1_ones: counting::ones_of(pattern.sib1),
            usual_ones: counting::ones_of(pattern.usual),
        }
    }

    // How many allowed subframes lie before span s.
    fn whole_spans(self, s: u64) -> u64
        requires { span * s < 2 ^ 64 }
        ensures { result ≡ rank (allows self.pattern) (span * s) }
    {
        let h = sib1_before(self.pattern, s);
        h * self.sib1_ones + (s - h) * self.usual_ones
    }

    // How many allowed subframes lie before subframe t.
    pub fn rank_of(self, t: u64) -> u64
        ensures { result ≡ rank (allows self.pattern) t }
    {
        let s = t / 40;
        let part = counting::ones_of(mask_at(self.pattern, s) >> (40 - t % 40));
        self.whole_spans(s) + part
    }

    // How many subframes of a period are allowed.
    fn in_period(self) -> u64
        ensures { (result ≡ rank (allows self.pattern) (period_of self.pattern)) × (result ≤ 640) }
    {
        4 * self.sib1_ones + (counting::power_of_two(self.pattern.log) - 4) * self.usual_ones
    }

    // The subframe of the first period before which k allowed ones lie.
    fn pick(self, k: u64) -> u64
        requires { k < rank (allows self.pattern) (period_of self.pattern) }
        ensures { Picked self.pattern k result }
    {
        let p = self.pattern;
        let a = self.sib1_ones;
        let b = self.usual_ones;
        let lead = p.first * b;
        if k < lead {
            return in_stretch(p.usual, b, 0, k);
        }
        let j = k - lead;
        if j < 4 * a {
            in_stretch(p.sib1, a, p.first, j)
        } else {
            in_stretch(p.usual, b, p.first + 4, j - 4 * a)
        }
    }

    // The allowed subframe before which k allowed ones lie: whole periods, then the rest.
    pub fn at(self, k: u64) -> u64
        requires { (0 < rank (allows self.pattern) (period_of self.pattern)) × (k < 2 ^ 32) }
        ensures { (allows self.pattern result ≡ true) × (rank (allows self.pattern) result ≡ k) }
    {
        let per = self.in_period();
        let q = counting::quotient(k, per);
        let period = 40 * counting::power_of_two(self.pattern.log);
        q * period + self.pick(k - q * per)
    }
}

// The j-th allowed subframe from a given one on, counted from 0.
pub fn nth(p: Pattern, from: u64, j: u64) -> u64
    requires { Regular p × (0 < rank (allows p) (period_of p)) × (from < 2 ^ 31) × (j < 2 ^ 31) }
    ensures { result ≡ select (allows p) (period_of p) from j }
{
    let counted = Counted::new(p);
    counted.at(counted.rank_of(from) + j)
}

// The j-th from a given one on, and the one that follows it after `more`.
pub fn first_and_last(p: Pattern, from: u64, j: u64, more: u64) -> Ends
    requires { Regular p × (0 < rank (allows p) (period_of p)) × (from < 2 ^ 31) × (j + more < 2 ^ 31) }
    ensures { (result.first ≡ select (allows p) (period_of p) from j)
        × (result.last ≡ select (allows p) (period_of p) from (j + more)) }
{
    let counted = Counted::new(p);
    let k = counted.rank_of(from) + j;
    let first = counted.at(k);
    let last = counted.at(k + more);
    Ends { first, last }
}

// Where subframe t stands to the first `many` allowed ones that follow the `skip`-th from a given one on.
pub fn locate(p: Pattern, from: u64, skip: u64, many: u64, t: u64) -> Found
    requires { Regular p × (0 < rank (allows p) (period_of p)) }
    ensures { result ≡ found_among (allows p) (period_of p) (select (allows p) (period_of p) from skip) many t }
{
    if t < from {
        return Found::Nothing;
    }
    let counted = Counted::new(p);
    let i = counted.rank_of(t) - counted.rank_of(from);
    if i < skip {
        return Found::Nothing;
    }
    let index = i - skip;
    if index >= many {
        return Found::Nothing;
    }
    if is_allowed(p, t) {
        Found::At(index)
    } else if index == 0 {
        Found::Nothing
    } else {
        Found::Between
    }
}

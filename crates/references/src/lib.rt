// Six subcarriers, after which the references repeat: where these lie, and how many elements carry data.
#![tactic(auto)]

ghost use Rattle.std.specs.Prelude.{◌≡◌, ◌<◌, ◌≤◌};
ghost use Rattle.references.specs.Quick.{taken_at_0, taken_at_1, closed_count, marks_of};

// Where references lie among six subcarriers: one of the first three, one of the last three; 8 more for none.
#[derive(Clone, Copy)]
pub struct Marks {
    pub low: u64,
    pub high: u64,
}

// References in six subcarriers of symbols 0 and 4, and of symbol 1.
pub fn taken_at_0(cports: u64) -> u64
    ensures { (result ≡ taken_at_0 cports) × (result ≤ 2) }
{
    cports.min(2)
}

pub fn taken_at_1(cports: u64) -> u64
    ensures { (result ≡ taken_at_1 cports) × (result ≤ 2) }
{
    if cports < 4 { 0 } else { 2 }
}

// E of one NCCE: of fourteen symbols those outside the control region, less their references. Cell references lie on
// symbols 0 and 4, and for four ports on symbol 1; of the first slot's, those on symbols 0 and 1 as far as the
// control region leaves them.
pub fn closed_count(nports: u64, cports: u64, control: u64) -> u64
    requires { (nports ≤ 2) × (control ≤ 3) }
    ensures { result ≡ closed_count nports cports control }
{
    let at_0 = (4 - u64::from(1 <= control)) * taken_at_0(cports);
    let at_1 = (2 - u64::from(2 <= control)) * taken_at_1(cports);
    84 - 6 * control - (4 * nports + at_0 + at_1)
}

// The references of symbol l, so many of six: first the near ones, at v, but on symbols 4 and 6 the far ones.
pub fn marks_on(v: u64, l: u64, taken: u64) -> Marks
    requires { (v < 6) × (taken ≤ 2) }
    ensures { result ≡ marks_of v l taken }
{
    let upper = u64::from(3 <= v);
    let low = v - 3 * upper;
    let far = u64::from((l == 4) | (l == 6));
    let first = u64::from(far == upper);
    Marks {
        low: low + 8 * u64::from(taken + first < 2),
        high: low + 3 + 8 * u64::from(taken < 1 + first),
    }
}

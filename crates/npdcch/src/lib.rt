// NPDCCH: plan, forward and backward of control sent in usable subframes.
#![tactic(auto)]

ghost use Rattle.std.specs.Prelude.{◌≡◌, ◌≤◌};
ghost use Rattle.cell.specs.Quick.{lent_cell};
ghost use Rattle.npdcch.specs.Ncce.{first_subcarrier, used_subcarriers};
ghost use Rattle.npdcch.specs.Refusals.{above_largest, grant_refusal};
ghost use Rattle.npdcch.specs.Questions.{burst_of, plan_of, forward_of, backward_of};

use cell::{Cell, CellConfig};
use downlink::{Burst, DownlinkBack, DownlinkGrant, DownlinkPlace, DownlinkPlan};
use grid::Grid;
use refusals::Refusal;

// r copies from subframe n on; format 0 uses the NCCE, format 1 both.
#[derive(Clone, Copy)]
pub struct NpdcchGrant {
    pub n: u64,
    pub r: u64,
    pub format: u64,
    pub ncce: u64,
}

// A field is above its largest number, or NCCE 1 with format 1.
fn above_largest(g: NpdcchGrant) -> bool
    ensures { result ≡ above_largest g }
{
    (g.format > 1) | ((g.ncce > 1) | ((g.format == 1) & (g.ncce == 1)))
}

// Format 0 uses one NCCE, format 1 both: the first subcarrier, and how many.
fn first_subcarrier(format: u64, ncce: u64) -> u64
    requires { ncce ≤ 1 }
    ensures { result ≡ first_subcarrier format ncce }
{
    if format == 0 {
        return elements::NCCE_WIDTH * ncce;
    }
    0
}

fn used_subcarriers(format: u64) -> u64
    ensures { result ≡ used_subcarriers format }
{
    if format == 0 {
        return elements::NCCE_WIDTH;
    }
    Grid::SUBCARRIERS
}

// The burst of an accepted grant.
fn burst(c: CellConfig, g: NpdcchGrant) -> Burst
    requires { grant_refusal g ≡ 0 }
    ensures { result ≡ burst_of c g }
{
    let layout = cell::layout(c);
    let low = first_subcarrier(g.format, g.ncce);
    let width = used_subcarriers(g.format);
    Burst {
        layout,
        low,
        width,
        from: g.n,
        skip: 0,
        codeword: 1,
        copies: g.r,
        consecutive: 1,
    }
}

impl DownlinkGrant for NpdcchGrant {
    ghost refusal = { grant_refusal };

    ghost burst_of = { burst_of };

    fn judged(self, c: CellConfig) -> Result<Burst, Refusal> {
        downlink::fields_refusal(self.n, above_largest(self), self.r)?;
        Ok(burst(c, self))
    }
}

// First and last subframe, copies and places.
pub fn plan_lent(
    c: CellConfig,
    si: &[u64],
    anchor: &[u8],
    other: &[u8],
    g: NpdcchGrant,
) -> DownlinkPlan
    ensures { result ≡ plan_of (lent_cell c si.now) anchor.now other.now g }
{
    downlink::plan_lent(c, si, anchor, other, g)
}

// The place of position p, and the symbol there.
pub fn forward_lent(
    c: CellConfig,
    si: &[u64],
    anchor: &[u8],
    other: &[u8],
    g: NpdcchGrant,
    p: u64,
) -> DownlinkPlace
    ensures { result ≡ forward_of (lent_cell c si.now) anchor.now other.now g p }
{
    downlink::forward_lent(c, si, anchor, other, g, p)
}

// What stands at symbol l and subcarrier k of a slot of subframe t, and why the subframe was skipped.
pub fn backward_lent(
    c: CellConfig,
    si: &[u64],
    anchor: &[u8],
    other: &[u8],
    g: NpdcchGrant,
    t: u64,
    slot: u64,
    l: u64,
    k: u64,
) -> DownlinkBack
    ensures { result
        ≡ backward_of (lent_cell c si.now) anchor.now other.now g t slot l k }
{
    downlink::backward_lent(c, si, anchor, other, g, t, slot, l, k)
}

// ---- the same on a cell

pub fn plan(c: Cell, anchor: &[u8], other: &[u8], g: NpdcchGrant) -> DownlinkPlan
    ensures { result ≡ plan_of c anchor.now other.now g }
{
    downlink::plan(c, anchor, other, g)
}

pub fn forward(c: Cell, anchor: &[u8], other: &[u8], g: NpdcchGrant, p: u64) -> DownlinkPlace
    ensures { result ≡ forward_of c anchor.now other.now g p }
{
    downlink::forward(c, anchor, other, g, p)
}

pub fn backward(
    c: Cell,
    anchor: &[u8],
    other: &[u8],
    g: NpdcchGrant,
    t: u64,
    slot: u64,
    l: u64,
    k: u64,
) -> DownlinkBack
    ensures { result ≡ backward_of c anchor.now other.now g t slot l k }
{
    downlink::backward(c, anchor, other, g, t, slot, l, k)
}

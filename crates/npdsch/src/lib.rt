// NPDSCH: plan, forward and backward of data sent in usable subframes.
#![tactic(auto)]

ghost use Rattle.std.specs.Prelude.{◌≡◌};
ghost use Rattle.cell.specs.Quick.{lent_cell};
ghost use Rattle.npdsch.specs.Refusals.{above_largest, grant_refusal};
ghost use Rattle.npdsch.specs.Questions.{burst_of, plan_of, forward_of, backward_of};

use cell::{Cell, CellConfig};
use downlink::{Burst, DownlinkBack, DownlinkGrant, DownlinkPlace, DownlinkPlan};
use grid::Grid;
use refusals::Refusal;

// A grant that ends in subframe n; delay, subframes and copies are fields of its tables, rmax the number itself.
#[derive(Clone, Copy)]
pub struct NpdschGrant {
    pub n: u64,
    pub delay: u64,
    pub rmax: u64,
    pub subframes: u64,
    pub copies: u64,
}

// A field is above its largest number.
fn above_largest(g: NpdschGrant) -> bool
    ensures { result ≡ above_largest g }
{
    (g.delay > 7) | ((g.subframes > 7) | (g.copies > 15))
}

// The burst of an accepted grant.
fn burst(c: CellConfig, g: NpdschGrant) -> Burst
    requires { grant_refusal g ≡ 0 }
    ensures { result ≡ burst_of c g }
{
    let layout = cell::layout(c);
    let skip = grid::downlink_delay(g.rmax, g.delay);
    let codeword = grid::length(g.subframes);
    let copies = grid::downlink_copies(g.copies);
    let consecutive = grid::up_to_four(copies);
    Burst {
        layout,
        low: 0,
        width: Grid::SUBCARRIERS,
        from: g.n + 5,
        skip,
        codeword,
        copies,
        consecutive,
    }
}

impl DownlinkGrant for NpdschGrant {
    ghost refusal = { grant_refusal };

    ghost burst_of = { burst_of };

    fn judged(self, c: CellConfig) -> Result<Burst, Refusal> {
        downlink::fields_refusal(self.n, above_largest(self), self.rmax)?;
        Ok(burst(c, self))
    }
}

// First and last subframe, copies and places.
pub fn plan_lent(
    c: CellConfig,
    si: &[u64],
    anchor: &[u8],
    other: &[u8],
    g: NpdschGrant,
) -> DownlinkPlan
    ensures { result ≡ plan_of (lent_cell c si.now) anchor.now other.now g }
{
    downlink::plan_lent(c, si, anchor, other, g)
}

// The place of position p, and the symbol there.
pub fn forward_lent(
    c: CellConfig,
    si: &[u64],
    anchor: &[u8],
    other: &[u8],
    g: NpdschGrant,
    p: u64,
) -> DownlinkPlace
    ensures { result ≡ forward_of (lent_cell c si.now) anchor.now other.now g p }
{
    downlink::forward_lent(c, si, anchor, other, g, p)
}

// What stands at symbol l and subcarrier k of a slot of subframe t, and why the subframe was skipped.
pub fn backward_lent(
    c: CellConfig,
    si: &[u64],
    anchor: &[u8],
    other: &[u8],
    g: NpdschGrant,
    t: u64,
    slot: u64,
    l: u64,
    k: u64,
) -> DownlinkBack
    ensures { result
        ≡ backward_of (lent_cell c si.now) anchor.now other.now g t slot l k }
{
    downlink::backward_lent(c, si, anchor, other, g, t, slot, l, k)
}

// ---- the same on a cell

pub fn plan(c: Cell, anchor: &[u8], other: &[u8], g: NpdschGrant) -> DownlinkPlan
    ensures { result ≡ plan_of c anchor.now other.now g }
{
    downlink::plan(c, anchor, other, g)
}

pub fn forward(c: Cell, anchor: &[u8], other: &[u8], g: NpdschGrant, p: u64) -> DownlinkPlace
    ensures { result ≡ forward_of c anchor.now other.now g p }
{
    downlink::forward(c, anchor, other, g, p)
}

pub fn backward(
    c: Cell,
    anchor: &[u8],
    other: &[u8],
    g: NpdschGrant,
    t: u64,
    slot: u64,
    l: u64,
    k: u64,
) -> DownlinkBack
    ensures { result ≡ backward_of c anchor.now other.now g t slot l k }
{
    downlink::backward(c, anchor, other, g, t, slot, l, k)
}

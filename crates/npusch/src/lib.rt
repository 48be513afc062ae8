// NPUSCH format 1: an uplink grant's refusals, its shape, and the questions on it.
#![tactic(auto)]

ghost use Rattle.std.specs.Prelude.{◌≡◌};
ghost use Rattle.nprach.specs.Windows.{none};
ghost use Rattle.npusch.specs.Refusals.{above_largest, fields_refusal};
ghost use Rattle.npusch.specs.Shaping.{shape_of, grant_size, grant_order};
ghost use Rattle.npusch.specs.Questions.{plan_of, forward_of, backward_of};

use grid::UplinkGrid;
use nprach::Windows;
use refusals::Refusal;
use sending::Back;
use uplink::{Shape, UplinkPlace, UplinkPlan};
use uplink_grant::{Block, UplinkGrant};

mod fields;

// The grant ends in subframe n; the rest are fields.
#[derive(Clone, Copy)]
pub struct NpuschGrant {
    pub n: u64,
    pub spacing: u64,
    pub subcarrier: u64,
    pub units: u64,
    pub copies: u64,
    pub delay: u64,
    pub mcs: u64,
}

// A field is above its largest number.
fn above_largest(g: NpuschGrant) -> bool
    ensures { result ≡ above_largest g }
{
    (g.spacing > 1)
        | ((g.subcarrier > 63)
            | ((g.units > 7) | ((g.copies > 7) | ((g.delay > 3) | (g.mcs > 15)))))
}

impl UplinkGrant for NpuschGrant {
    ghost refusal_of = { fields_refusal };

    ghost spacing_of = { λ g. g.spacing };

    ghost shape_of = { shape_of };

    ghost size_of = { grant_size };

    ghost order_of = { grant_order };

    #[tactic(auto, unfolding(crate::specs::Refusals::fields_refusal))]
    fn judge(self) -> Result<(), Refusal> {
        if self.n > grid::LAST_SUBFRAME {
            return Err(Refusal::LateSubframe);
        }
        if above_largest(self) {
            return Err(Refusal::LargeField);
        }
        if self.subcarrier >= fields::tone_fields(self.spacing) {
            return Err(Refusal::SubcarrierField);
        }
        if self.mcs > 4 {
            return Err(Refusal::Mcs);
        }
        Ok(())
    }

    fn spacing(self) -> u64 {
        self.spacing
    }

    fn shape(self) -> Shape {
        let spacing = self.spacing;
        let units = self.units;
        let tones = fields::tones(spacing, self.subcarrier);
        let copies = grid::uplink_copies(self.copies);
        Shape {
            first: fields::start(spacing, self.n, self.delay),
            subcarriers: UplinkGrid::subcarriers(spacing),
            block: numerology::block(spacing),
            gap: numerology::gap(spacing),
            tone: fields::first_tone(spacing, self.subcarrier),
            tones,
            codeword: fields::codeword(tones, units),
            copies,
            consecutive: fields::consecutive(tones, copies),
            group: numerology::group(spacing),
            reference: fields::reference(spacing),
            references: 1,
        }
    }

    fn block(self) -> Block {
        let tones = fields::tones(self.spacing, self.subcarrier);
        Block {
            size: fields::block_size(tones, self.mcs, self.units),
            order: fields::order(tones, self.mcs),
        }
    }
}

// First and last slot, copies, places, size and order.
pub fn plan(g: NpuschGrant) -> UplinkPlan
    ensures { result ≡ plan_of g none }
{
    uplink_grant::plan(g)
}

pub fn plan_beside(g: NpuschGrant, ws: Windows) -> UplinkPlan
    ensures { result ≡ plan_of g ws }
{
    uplink_grant::plan_beside(g, ws)
}

// The place of position p, and the symbol there.
pub fn forward(g: NpuschGrant, p: u64) -> UplinkPlace
    ensures { result ≡ forward_of g none p }
{
    uplink_grant::forward(g, p)
}

pub fn forward_beside(g: NpuschGrant, ws: Windows, p: u64) -> UplinkPlace
    ensures { result ≡ forward_of g ws p }
{
    uplink_grant::forward_beside(g, ws, p)
}

// What stands at symbol l and subcarrier k of a slot.
pub fn backward(g: NpuschGrant, slot: u64, l: u64, k: u64) -> Back
    ensures { result ≡ backward_of g none slot l k }
{
    uplink_grant::backward(g, slot, l, k)
}

pub fn backward_beside(g: NpuschGrant, ws: Windows, slot: u64, l: u64, k: u64) -> Back
    ensures { result ≡ backward_of g ws slot l k }
{
    uplink_grant::backward_beside(g, ws, slot, l, k)
}

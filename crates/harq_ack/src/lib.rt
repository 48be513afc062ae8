// Acknowledgements on NPUSCH format 2: the grant's refusals, its shape, and the questions on it.
#![tactic(auto)]

ghost use Rattle.std.specs.Prelude.{◌≡◌, ◌≤◌};
ghost use Rattle.nprach.specs.Windows.{none};
ghost use Rattle.harq_ack.specs.Fields.{tone_of, delay_of};
ghost use Rattle.harq_ack.specs.Refusals.{above_largest, fields_refusal};
ghost use Rattle.harq_ack.specs.Shaping.{reference_of, shape_of};
ghost use Rattle.harq_ack.specs.Scaffold.{start_of, grant_size, grant_order};
ghost use Rattle.harq_ack.specs.Questions.{plan_of, forward_of, backward_of};

use grid::UplinkGrid;
use nprach::Windows;
use refusals::Refusal;
use sending::Back;
use uplink::{Shape, UplinkPlace, UplinkPlan};
use uplink_grant::{Block, UplinkGrant};

// The NPDSCH that is acknowledged ends in subframe n; the rest are fields, one of them the 4-bit field of tone and
// delay.
#[derive(Clone, Copy)]
pub struct HarqAckGrant {
    pub n: u64,
    pub spacing: u64,
    pub field: u64,
    pub copies: u64,
}

// The last subframe in which the NPDSCH may end.
const LAST_NPDSCH_SUBFRAME: u64 = 2_147_483_647;

// The delays of either spacing, in subframes: an entry for every four numbers of the field.
const NARROW_DELAYS: [u8; 4] = [13, 13, 21, 21];

const WIDE_DELAYS: [u8; 4] = [13, 15, 17, 18];

// A field is above its largest number.
fn above_largest(g: HarqAckGrant) -> bool
    ensures { result ≡ above_largest g }
{
    (g.spacing > 1) | ((g.field > 15) | (g.copies > 7))
}

// The tone that the field names.
fn tone(spacing: u64, field: u64) -> u64
    ensures { result ≡ tone_of spacing field }
{
    numerology::by_spacing(spacing, 38 + field % 8, field % 4)
}

// The delay that it names, in subframes.
fn delay(spacing: u64, field: u64) -> u64
    requires { field ≤ 15 }
    ensures { result ≡ delay_of spacing field }
{
    let i = (field / 4) as usize;
    numerology::by_spacing(
        spacing,
        u64::from(NARROW_DELAYS[i]),
        u64::from(WIDE_DELAYS[i]),
    )
}

// The first slot.
fn start(g: HarqAckGrant) -> u64
    requires { fields_refusal g ≡ 0 }
    ensures { result ≡ start_of g }
{
    numerology::first_after(g.spacing, g.n + delay(g.spacing, g.field) - 1)
}

// The first reference symbol.
fn reference(spacing: u64) -> u64
    ensures { result ≡ reference_of spacing }
{
    numerology::by_spacing(spacing, 0, 2)
}

impl UplinkGrant for HarqAckGrant {
    ghost refusal_of = { fields_refusal };

    ghost spacing_of = { λ g. g.spacing };

    ghost shape_of = { shape_of };

    ghost size_of = { λ _. grant_size };

    ghost order_of = { λ _. grant_order };

    #[tactic(auto, unfolding(crate::specs::Refusals::fields_refusal))]
    fn judge(self) -> Result<(), Refusal> {
        if self.n > LAST_NPDSCH_SUBFRAME {
            return Err(Refusal::LateSubframe);
        }
        if above_largest(self) {
            return Err(Refusal::LargeField);
        }
        Ok(())
    }

    fn spacing(self) -> u64 {
        self.spacing
    }

    fn shape(self) -> Shape {
        let spacing = self.spacing;
        Shape {
            first: start(self),
            subcarriers: UplinkGrid::subcarriers(spacing),
            block: numerology::block(spacing),
            gap: numerology::gap(spacing),
            tone: tone(spacing, self.field),
            tones: 1,
            codeword: 4,
            copies: grid::uplink_copies(self.copies),
            consecutive: 1,
            group: numerology::group(spacing),
            reference: reference(spacing),
            references: 3,
        }
    }

    fn block(self) -> Block {
        Block { size: 1, order: 1 }
    }
}

// First and last slot, copies, places, size and order.
pub fn plan(g: HarqAckGrant) -> UplinkPlan
    ensures { result ≡ plan_of g none }
{
    uplink_grant::plan(g)
}

pub fn plan_beside(g: HarqAckGrant, ws: Windows) -> UplinkPlan
    ensures { result ≡ plan_of g ws }
{
    uplink_grant::plan_beside(g, ws)
}

// The place of position p, and the symbol there.
pub fn forward(g: HarqAckGrant, p: u64) -> UplinkPlace
    ensures { result ≡ forward_of g none p }
{
    uplink_grant::forward(g, p)
}

pub fn forward_beside(g: HarqAckGrant, ws: Windows, p: u64) -> UplinkPlace
    ensures { result ≡ forward_of g ws p }
{
    uplink_grant::forward_beside(g, ws, p)
}

// What stands at symbol l and subcarrier k of a slot.
pub fn backward(g: HarqAckGrant, slot: u64, l: u64, k: u64) -> Back
    ensures { result ≡ backward_of g none slot l k }
{
    uplink_grant::backward(g, slot, l, k)
}

pub fn backward_beside(g: HarqAckGrant, ws: Windows, slot: u64, l: u64, k: u64) -> Back
    ensures { result ≡ backward_of g ws slot l k }
{
    uplink_grant::backward_beside(g, ws, slot, l, k)
}

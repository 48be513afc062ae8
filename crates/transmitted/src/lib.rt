// A transmitted subframe of an NPDSCH on one port: the call judged, and what goes out at an element.
#![tactic(auto)]

ghost use Rattle.std.specs.Prelude.{◌≡◌, ◌%◌, ◌^◌, ◌<◌};
ghost use Rattle.refusals.specs.Refusal.{refused_by};
ghost use Rattle.grid.specs.Grid.{subcarriers, symbols, slots, element_of};
ghost use Rattle.elements.specs.Elements.{count_of};
ghost use Rattle.elements.specs.Scaffold.{Valid};
ghost use Rattle.downlink.specs.Fits.{Fits};
ghost use Rattle.cell.specs.Layout.{layout_of};
ghost use Rattle.cell.specs.Quick.{lent_cell};
ghost use Rattle.transmitted.specs.Refusals.{late_refusal};
ghost use Rattle.transmitted.specs.Element.{element_answer};
ghost use Rattle.transmitted.specs.Quick.{goes_in, CallFor};

use cell::{Cell, CellConfig};
use downlink::{Burst, DownlinkGrant};
use elements::{ElementKind, ElementUse, Layout};
use grid::Grid;
use npdsch::NpdschGrant;
use refusals::Refusal;
use symbol::{Element, Outgoing};

// An accepted call: the codeword symbol that goes out first in the subframe, and the shift of the references.
#[derive(Clone, Copy)]
pub struct Call {
    pub first: u64,
    pub v: u64,
}

// Refusals 14 to 17; w is the number of used elements.
fn late_refusal(
    b: Burst,
    w: u64,
    i: u64,
    outside: bool,
    bits: &[u8],
    wrong: bool,
    level: f32,
) -> Result<(), Refusal>
    requires { Fits b × (w ≡ count_of b.layout b.low b.width) }
    ensures { refused_by result ≡ late_refusal b i outside bits.now wrong level }
{
    if (i >= downlink::sent_subframes(b)) | outside {
        return Err(Refusal::NoSuchPlace);
    }
    let codeword = b.codeword;
    if (bits.len() as u64 != (codeword * w + 3) / 4) | wrong {
        return Err(Refusal::Length);
    }
    if !symbol::in_range(level) {
        return Err(Refusal::Level);
    }
    if b.layout.nports == 2 {
        return Err(Refusal::TwoPorts);
    }
    Ok(())
}

// The call judged, for the fill and for one element alike.
pub fn judged(
    c: CellConfig,
    si: &[u64],
    anchor: &[u8],
    other: &[u8],
    g: NpdschGrant,
    i: u64,
    outside: bool,
    bits: &[u8],
    wrong: bool,
    level: f32,
) -> Result<Call, Refusal>
    ensures { CallFor (lent_cell c si.now) anchor.now other.now g i outside
        bits.now wrong level result }
{
    cell::judged_lent(c, si, anchor, other)?;
    let b = g.judged(c)?;
    let w = downlink::used_elements(b);
    late_refusal(b, w, i, outside, bits, wrong, level)?;
    let unit = downlink::carried_by(b, i);
    Ok(Call {
        first: unit * w,
        v: b.layout.v,
    })
}

// The layout of a cell by its shift.
pub fn layout(c: CellConfig, v: u64) -> Layout
    requires { v ≡ c.identity % 6 }
    ensures { result ≡ layout_of c }
{
    Layout {
        v,
        nports: c.nports,
        cports: c.cports,
        control: c.control,
    }
}

// What goes out at an element.
fn outgoing(layout: Layout, first: u64, slot: u64, l: u64, k: u64) -> Outgoing
    requires { Valid layout × (first < 2 ^ 32) × (slot < slots) × (l < symbols) × (k < subcarriers) }
    ensures { result ≡ goes_in layout first (element_of slot l k) }
{
    let at = elements::use_at(layout, 0, Grid::SUBCARRIERS, slot, l, k);
    match at {
        ElementUse::Used(e) => Outgoing::Ours(first + e),
        ElementUse::Unused(kind) => match kind {
            ElementKind::Plain => Outgoing::Silent,
            _ => Outgoing::Reference(kind.number()),
        },
    }
}

// One element of transmitted subframe i.
pub fn element_lent(
    c: CellConfig,
    si: &[u64],
    anchor: &[u8],
    other: &[u8],
    g: NpdschGrant,
    i: u64,
    slot: u64,
    l: u64,
    k: u64,
    bits: &[u8],
    level: f32,
) -> Element
    ensures { result
        ≡ element_answer (lent_cell c si.now) anchor.now other.now
        g i slot l k bits.now level }
{
    let inside = downlink::is_inside(slot, l, k);
    match judged(c, si, anchor, other, g, i, !inside, bits, false, level) {
        Ok(call) => {
            let o = outgoing(layout(c, call.v), call.first, slot, l, k);
            symbol::answer(o, bits, level)
        }
        Err(refusal) => Element::Refused(refusal.number()),
    }
}

// The same on a cell, which lends its messages.
pub fn element(
    c: Cell,
    anchor: &[u8],
    other: &[u8],
    g: NpdschGrant,
    i: u64,
    slot: u64,
    l: u64,
    k: u64,
    bits: &[u8],
    level: f32,
) -> Element
    ensures { result
        ≡ element_answer c anchor.now other.now g i slot l k bits.now level }
{
    let si = subframes::numbers(c.messages);
    element_lent(c.config, &si, anchor, other, g, i, slot, l, k, bits, level)
}

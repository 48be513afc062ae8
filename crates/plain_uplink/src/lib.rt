// The plain engine's uplink half: forward, and the number of places, of NPUSCH and of acknowledgements. It uses none
// of the quick search: it goes one slot and one element at a time.
#![tactic(auto)]

ghost use Rattle.std.specs.Prelude.{◌≡◌, ℕ};
ghost use Rattle.refusals.specs.Refusal.{number_of};
ghost use Rattle.uplink.specs.Fits.{Fits, OpenRepeats};
ghost use Rattle.uplink.specs.Elements.{slot_data};
ghost use Rattle.uplink.specs.Mapping.{sending_of};
ghost use Rattle.uplink.specs.Scaffold.{places, place_in};
ghost use Rattle.uplink.specs.Answers.{refused_plan, plan_answer, forward_answer};
ghost use Rattle.postponed.specs.Beside.{question_beside, AtSpacing};
ghost use Rattle.uplink_grant.specs.Grant.{question};
ghost use Rattle.npusch.specs.Questions as up;
ghost use Rattle.harq_ack.specs.Questions as ack;
ghost use Rattle.plain_uplink.specs.Obstacles.{clear_of, AllSound};
ghost use Rattle.plain_uplink.specs.Places.{of_plan};

use harq_ack::HarqAckGrant;
use nprach::Windows;
use npusch::NpuschGrant;
use obstacles::Obstacles;
use refusals::Refusal;
use sending::Total;
use uplink::{Shape, UplinkPlace};
use uplink_grant::UplinkGrant;

mod elements;
mod obstacles;
mod slots;

// How many places a shape has, w of them in each slot.
fn total(s: Shape, w: u64) -> u64
    requires { Fits s × (w ≡ slot_data s) }
    ensures { result ≡ places s }
{
    s.copies * s.codeword * w
}

// The place of position p, and the symbol there, in the slots that the windows leave.
fn place(s: Shape, os: Obstacles, p: u64) -> UplinkPlace
    requires { Fits s × AllSound os × OpenRepeats s (clear_of os) }
    ensures { result ≡ place_in s.subcarriers (sending_of s (clear_of os)) p }
{
    let w = elements::slot_data(s);
    if p >= total(s, w) {
        return uplink::refused_place(Refusal::NoSuchPlace);
    }
    let i = p / w;
    let e = p % w;
    let at = elements::nth(s, e);
    let unit = sending::carried(s.consecutive, s.group, s.codeword, i);
    UplinkPlace {
        no: 0,
        slot: slots::nth(s, os, i),
        l: at.l,
        k: at.k,
        symbol: sending::item(unit, w, e),
    }
}

fn forward(spacing: u64, s: Shape, ws: Windows, p: u64) -> UplinkPlace
    requires { Fits s × AtSpacing spacing s }
    ensures { result ≡ forward_answer s.subcarriers (question_beside spacing s ws) p }
{
    if let Err(refusal) = obstacles::judge(spacing, s, ws) {
        return uplink::refused_place(refusal);
    }
    place(s, obstacles::beside(spacing, s, ws), p)
}

// What is refused has no place.
fn no_place(refusal: Refusal) -> Total
    ensures { result ≡ of_plan (refused_plan (number_of refusal)) }
{
    Total {
        no: refusal.number(),
        places: 0,
    }
}

fn count(spacing: u64, s: Shape, ws: Windows) -> Total
    requires { Fits s × AtSpacing spacing s }
    ensures { (size order : ℕ) → result ≡ of_plan (plan_answer size order (question_beside spacing s ws)) }
{
    if let Err(refusal) = obstacles::judge(spacing, s, ws) {
        return no_place(refusal);
    }
    Total {
        no: 0,
        places: total(s, elements::slot_data(s)),
    }
}

// The place of position p of a grant, and the symbol there.
fn forward_of<G: UplinkGrant>(g: G, ws: Windows, p: u64) -> UplinkPlace
    ensures { result ≡ forward_answer (G.shape_of g).subcarriers
        (question (G.refusal_of g) (G.spacing_of g) (G.shape_of g) ws) p }
{
    if let Err(refusal) = g.judge() {
        return uplink::refused_place(refusal);
    }
    forward(g.spacing(), g.shape(), ws, p)
}

// Plan's refusal number and number of places, of a grant.
fn places_of<G: UplinkGrant>(g: G, ws: Windows) -> Total
    ensures { result ≡ of_plan (plan_answer (G.size_of g) (G.order_of g)
        (question (G.refusal_of g) (G.spacing_of g) (G.shape_of g) ws)) }
{
    if let Err(refusal) = g.judge() {
        return no_place(refusal);
    }
    count(g.spacing(), g.shape(), ws)
}

// The place of position p of NPUSCH format 1, and the symbol there.
pub fn forward_npusch(g: NpuschGrant, ws: Windows, p: u64) -> UplinkPlace
    ensures { result ≡ up.forward_of g ws p }
{
    forward_of(g, ws, p)
}

// The same of an acknowledgement.
pub fn forward_harq_ack(g: HarqAckGrant, ws: Windows, p: u64) -> UplinkPlace
    ensures { result ≡ ack.forward_of g ws p }
{
    forward_of(g, ws, p)
}

// Plan's refusal number and number of places, of either.
pub fn places_npusch(g: NpuschGrant, ws: Windows) -> Total
    ensures { (result.no ≡ (up.plan_of g ws).no) × (result.places ≡ (up.plan_of g ws).places) }
{
    places_of(g, ws)
}

pub fn places_harq_ack(g: HarqAckGrant, ws: Windows) -> Total
    ensures { (result.no ≡ (ack.plan_of g ws).no) × (result.places ≡ (ack.plan_of g ws).places) }
{
    places_of(g, ws)
}

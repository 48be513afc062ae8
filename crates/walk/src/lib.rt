// The walk: the places of a grant one after the other, by a record of the caller's own. What a step asks; `inplace`
// moves the record.
#![tactic(auto)]

ghost use Rattle.std.specs.Prelude.{◌≡◌};
ghost use Rattle.walk.specs.Step.{from_uplink, from_downlink, refused_step, finished_step, asked_of};
ghost use Rattle.walk.specs.Quick.{walk_at, end_of, stopped_at};

use cell::Cell;
use downlink::{DownlinkPlace, DownlinkPlan};
use harq_ack::HarqAckGrant;
use npdcch::NpdcchGrant;
use npdsch::NpdschGrant;
use nprach::Windows;
use npusch::NpuschGrant;
use refusals::Refusal;
use sending::Total;
use uplink::{UplinkPlace, UplinkPlan};

// Who answers: the quick engine, or the plain one, which goes one subframe or slot at a time. Their answers are equal.
#[derive(Clone, Copy)]
pub enum Engine {
    Quick,
    Plain,
}

// An uplink grant stands beside the random access windows that it keeps clear of.
#[derive(Clone, Copy)]
pub enum Grant {
    Npusch(NpuschGrant, Windows),
    HarqAck(HarqAckGrant, Windows),
    Npdsch(NpdschGrant),
    Npdcch(NpdcchGrant),
}

// A grant, its cell, and the position whose turn it is. An uplink grant has no use for the cell.
#[derive(Clone, Copy)]
pub struct Walk {
    pub cell: Cell,
    pub grant: Grant,
    pub p: u64,
}

// A step's answer: the refusal number; 1 at the end; else the place and the codeword symbol there. In the uplink t is
// 0. No Result: the theorem `course`, and C, speak of these numbers.
#[derive(Clone, Copy, Default, PartialEq, Eq)]
pub struct WalkPlace {
    pub no: u64,
    pub finished: u64,
    pub t: u64,
    pub slot: u64,
    pub l: u64,
    pub k: u64,
    pub symbol: u64,
}

// A step's answer, and the record after it.
#[derive(Clone, Copy)]
pub struct Stepped {
    pub answer: WalkPlace,
    pub walk: Walk,
}

impl From<UplinkPlace> for WalkPlace {
    ghost from_gives = { λ a r. r ≡ from_uplink a };

    fn from(a: UplinkPlace) -> WalkPlace {
        WalkPlace {
            no: a.no,
            finished: 0,
            t: 0,
            slot: a.slot,
            l: a.l,
            k: a.k,
            symbol: a.symbol,
        }
    }
}

impl From<DownlinkPlace> for WalkPlace {
    ghost from_gives = { λ a r. r ≡ from_downlink a };

    fn from(a: DownlinkPlace) -> WalkPlace {
        WalkPlace {
            no: a.no,
            finished: 0,
            t: a.t,
            slot: a.slot,
            l: a.l,
            k: a.k,
            symbol: a.symbol,
        }
    }
}

impl WalkPlace {
    // The step at the end.
    pub const FINISHED: WalkPlace = WalkPlace {
        no: 0,
        finished: 1,
        t: 0,
        slot: 0,
        l: 0,
        k: 0,
        symbol: 0,
    };
}

// A refused step: its number, and zeros.
pub fn refused_step(no: u64) -> WalkPlace
    ensures { result ≡ refused_step no }
{
    WalkPlace {
        no,
        ..WalkPlace::default()
    }
}

// What forward answers at p.
#[tactic(auto, unfolding(crate::specs::Step::asked))]
pub fn forward(w: Walk, anchor: &[u8], other: &[u8], engine: Engine) -> WalkPlace
    ensures { result ≡ walk_at w anchor.now other.now }
{
    let Walk { cell: c, grant, p } = w;
    match (engine, grant) {
        (Engine::Quick, Grant::Npusch(g, ws)) => npusch::forward_beside(g, ws, p).into(),
        (Engine::Quick, Grant::HarqAck(g, ws)) => harq_ack::forward_beside(g, ws, p).into(),
        (Engine::Quick, Grant::Npdsch(g)) => npdsch::forward(c, anchor, other, g, p).into(),
        (Engine::Quick, Grant::Npdcch(g)) => npdcch::forward(c, anchor, other, g, p).into(),
        (Engine::Plain, Grant::Npusch(g, ws)) => plain_uplink::forward_npusch(g, ws, p).into(),
        (Engine::Plain, Grant::HarqAck(g, ws)) => plain_uplink::forward_harq_ack(g, ws, p).into(),
        (Engine::Plain, Grant::Npdsch(g)) => {
            plain_downlink::forward_npdsch(c, anchor, other, g, p).into()
        }
        (Engine::Plain, Grant::Npdcch(g)) => {
            plain_downlink::forward_npdcch(c, anchor, other, g, p).into()
        }
    }
}

// How many places a planned grant has. No From: each type belongs to a crate below.
pub fn uplink_total(u: UplinkPlan) -> Total
    ensures { (result.no ≡ u.no) × (result.places ≡ u.places) }
{
    Total {
        no: u.no,
        places: u.places,
    }
}

pub fn downlink_total(d: DownlinkPlan) -> Total
    ensures { (result.no ≡ d.no) × (result.places ≡ d.places) }
{
    Total {
        no: d.no,
        places: d.places,
    }
}

// The same of the walk's grant; the plain engine asks no plan.
#[tactic(auto, unfolding(crate::specs::Step::asked))]
fn total_of(w: Walk, anchor: &[u8], other: &[u8], engine: Engine) -> Total
    ensures { (result.no ≡ (asked_of w anchor.now other.now).no)
        × (result.places ≡ (asked_of w anchor.now other.now).places) }
{
    let c = w.cell;
    match (engine, w.grant) {
        (Engine::Quick, Grant::Npusch(g, ws)) => uplink_total(npusch::plan_beside(g, ws)),
        (Engine::Quick, Grant::HarqAck(g, ws)) => uplink_total(harq_ack::plan_beside(g, ws)),
        (Engine::Quick, Grant::Npdsch(g)) => downlink_total(npdsch::plan(c, anchor, other, g)),
        (Engine::Quick, Grant::Npdcch(g)) => downlink_total(npdcch::plan(c, anchor, other, g)),
        (Engine::Plain, Grant::Npusch(g, ws)) => plain_uplink::places_npusch(g, ws),
        (Engine::Plain, Grant::HarqAck(g, ws)) => plain_uplink::places_harq_ack(g, ws),
        (Engine::Plain, Grant::Npdsch(g)) => plain_downlink::places_npdsch(c, anchor, other, g),
        (Engine::Plain, Grant::Npdcch(g)) => plain_downlink::places_npdcch(c, anchor, other, g),
    }
}

// Position p is the end of an accepted grant.
pub fn is_end(total: Total, p: u64) -> bool
    ensures { result ≡ end_of total.no total.places p }
{
    (total.no == 0) & (p == total.places)
}

// The step at a position that forward refuses with a number.
#[tactic(auto, unfolding(crate::specs::Quick::stopped_at))]
pub fn stopped(w: Walk, anchor: &[u8], other: &[u8], engine: Engine, no: u64) -> WalkPlace
    ensures { result ≡ stopped_at (asked_of w anchor.now other.now) w.p no }
{
    if no == Refusal::NoSuchPlace.number() && is_end(total_of(w, anchor, other, engine), w.p) {
        return WalkPlace::FINISHED;
    }
    refused_step(no)
}

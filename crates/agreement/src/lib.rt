// That both engines answer alike. Each function asks the quick engine and the plain one the same, compares every number
// of the two answers, and is proved to answer true on any input.
#![tactic(auto)]

ghost use Rattle.std.specs.Prelude.{true, ◌≡◌};
ghost use Rattle.agreement.specs.Telling.{Tells};

use cell::Cell;
use downlink::DownlinkPlace;
use harq_ack::HarqAckGrant;
use npdcch::NpdcchGrant;
use npdsch::NpdschGrant;
use nprach::Windows;
use npusch::NpuschGrant;
use uplink::UplinkPlace;
use walk::{Engine, Walk, WalkPlace};

// ---- two answers compared, every number of them (`==` is derived)

fn same_uplink(a: UplinkPlace, b: UplinkPlace) -> bool
    ensures { Tells a b result }
{
    a == b
}

fn same_downlink(a: DownlinkPlace, b: DownlinkPlace) -> bool
    ensures { Tells a b result }
{
    a == b
}

fn same_step(quick: WalkPlace, plain: WalkPlace) -> bool
    ensures { Tells quick plain result }
{
    quick == plain
}

// ---- forward of each kind of grant

pub fn forward_up(g: NpuschGrant, ws: Windows, p: u64) -> bool
    ensures { result ≡ true }
{
    let a = npusch::forward_beside(g, ws, p);
    let b = plain_uplink::forward_npusch(g, ws, p);
    same_uplink(a, b)
}

pub fn forward_ack(g: HarqAckGrant, ws: Windows, p: u64) -> bool
    ensures { result ≡ true }
{
    let a = harq_ack::forward_beside(g, ws, p);
    let b = plain_uplink::forward_harq_ack(g, ws, p);
    same_uplink(a, b)
}

pub fn forward_down(c: Cell, anchor: &[u8], other: &[u8], g: NpdschGrant, p: u64) -> bool
    ensures { result ≡ true }
{
    let a = npdsch::forward(c, anchor, other, g, p);
    let b = plain_downlink::forward_npdsch(c, anchor, other, g, p);
    same_downlink(a, b)
}

pub fn forward_control(c: Cell, anchor: &[u8], other: &[u8], g: NpdcchGrant, p: u64) -> bool
    ensures { result ≡ true }
{
    let a = npdcch::forward(c, anchor, other, g, p);
    let b = plain_downlink::forward_npdcch(c, anchor, other, g, p);
    same_downlink(a, b)
}

// ---- a step of a walk of any grant

// The position after it is compared too; nothing else of the record ever moves.
pub fn step(w: Walk, anchor: &[u8], other: &[u8]) -> bool
    ensures { result ≡ true }
{
    let a = inplace::step_value(w, anchor, other, Engine::Quick);
    let b = inplace::step_value(w, anchor, other, Engine::Plain);
    same_step(a.answer, b.answer) & (a.walk.p == b.walk.p)
}

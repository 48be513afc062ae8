// Uplink questions on a shape beside random access windows: refusals 19 and 20, and the slots that the windows leave.
// Where there is none, the shape is asked by itself, which is quicker.
#![tactic(auto)]

ghost use Rattle.std.specs.Prelude.{◌≡◌, IfOk};
ghost use Rattle.refusals.specs.Refusal.{refused_by};
ghost use Rattle.uplink.specs.Fits.{Fits};
ghost use Rattle.uplink.specs.Answers.{plan_answer, forward_answer, backward_answer};
ghost use Rattle.postponed.specs.Beside.{refusal_beside, question_beside, AtSpacing, Leaves};

use closures::Nested;
use nprach::Windows;
use refusals::Refusal;
use sending::Back;
use uplink::{AllOpen, Shape, UplinkPlace, UplinkPlan};

// What the windows close to the shape's tones, as nested closures, if they leave something.
fn nested(spacing: u64, s: Shape, ws: Windows) -> Result<Nested, Refusal>
    requires { Fits s × AtSpacing spacing s }
    ensures { (refused_by result ≡ refusal_beside spacing s ws) × IfOk result (Leaves spacing s ws) }
{
    if !nprach::are_listed(ws) {
        return Err(Refusal::WindowsNotListed);
    }
    let nested = nprach::nested_closures(spacing, s.tone, s.tones, ws);
    if nested.clear == 0 {
        return Err(Refusal::NeverFree);
    }
    Ok(nested)
}

pub fn plan(spacing: u64, s: Shape, ws: Windows, size: u64, order: u64) -> UplinkPlan
    requires { Fits s × AtSpacing spacing s }
    ensures { result ≡ plan_answer size order (question_beside spacing s ws) }
{
    if ws.count == 0 {
        return uplink::plan(s, AllOpen, size, order);
    }
    match nested(spacing, s, ws) {
        Ok(nested) => uplink::plan(s, nested, size, order),
        Err(refusal) => uplink::refused_plan(refusal),
    }
}

pub fn forward(spacing: u64, s: Shape, ws: Windows, p: u64) -> UplinkPlace
    requires { Fits s × AtSpacing spacing s }
    ensures { result ≡ forward_answer s.subcarriers (question_beside spacing s ws) p }
{
    let at = uplink::taken_apart(s, p);
    if ws.count == 0 {
        return uplink::forward(s, p, at, uplink::slot_at(s, AllOpen, at.i));
    }
    match nested(spacing, s, ws) {
        Ok(nested) => uplink::forward(s, p, at, uplink::slot_at(s, nested, at.i)),
        Err(refusal) => uplink::refused_place(refusal),
    }
}

pub fn backward(spacing: u64, s: Shape, ws: Windows, slot: u64, l: u64, k: u64) -> Back
    requires { Fits s × AtSpacing spacing s }
    ensures { result ≡ backward_answer s.subcarriers (question_beside spacing s ws) slot l k }
{
    if ws.count == 0 {
        return uplink::backward(s, slot, uplink::locate(s, AllOpen, slot), l, k);
    }
    match nested(spacing, s, ws) {
        Ok(nested) => uplink::backward(s, slot, uplink::locate(s, nested, slot), l, k),
        Err(refusal) => sending::refused(refusal),
    }
}

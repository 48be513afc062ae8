// The questions on an uplink grant of either kind, alone and beside random access windows. The fields are judged first,
// then the windows; an accepted grant is asked by its shape.
#![tactic(auto)]

ghost use Rattle.std.specs.Prelude.{◌≡◌, ℕ};
ghost use Rattle.refusals.specs.Refusal.{refused_by};
ghost use Rattle.uplink.specs.declared.Shape.{Shape};
ghost use Rattle.uplink.specs.Fits.{Fits};
ghost use Rattle.uplink.specs.Answers.{plan_answer, forward_answer, backward_answer};
ghost use Rattle.nprach.specs.Windows.{none};
ghost use Rattle.postponed.specs.Beside.{AtSpacing};
ghost use Rattle.uplink_grant.specs.Grant.{question};

use nprach::Windows;
use refusals::Refusal;
use sending::Back;
use uplink::{AllOpen, Shape, UplinkPlace, UplinkPlan};

// The size of the transport block, and the modulation order.
#[derive(Clone, Copy)]
pub struct Block {
    pub size: u64,
    pub order: u64,
}

pub trait UplinkGrant: Copy {
    // The number with which the fields are refused, or 0; and what they name.
    ghost refusal_of: { Self → ℕ };

    ghost spacing_of: { Self → ℕ };

    ghost shape_of: { Self → Shape };

    ghost size_of: { Self → ℕ };

    ghost order_of: { Self → ℕ };

    // Whether the fields are refused.
    fn judge(self) -> Result<(), Refusal>
        ensures { refused_by result ≡ refusal_of self };

    fn spacing(self) -> u64
        ensures { result ≡ spacing_of self };

    // The shape of an accepted grant, which can be asked. No law says so: its term could not cite the proofs of the
    // grant's crate.
    fn shape(self) -> Shape
        requires { refusal_of self ≡ 0 }
        ensures { (result ≡ shape_of self) × Fits result × AtSpacing (spacing_of self) result };

    fn block(self) -> Block
        requires { refusal_of self ≡ 0 }
        ensures { (result.size ≡ size_of self) × (result.order ≡ order_of self) };
}

// First and last slot, copies, places, size and order.
pub fn plan<G: UplinkGrant>(g: G) -> UplinkPlan
    ensures { result ≡ plan_answer (G.size_of g) (G.order_of g)
        (question (G.refusal_of g) (G.spacing_of g) (G.shape_of g) none) }
{
    if let Err(refusal) = g.judge() {
        return uplink::refused_plan(refusal);
    }
    let block = g.block();
    uplink::plan(g.shape(), AllOpen, block.size, block.order)
}

// Beside windows. With none, `plan` is the quicker way, and C calls both; forward and backward alike.
pub fn plan_beside<G: UplinkGrant>(g: G, ws: Windows) -> UplinkPlan
    ensures { result ≡ plan_answer (G.size_of g) (G.order_of g)
        (question (G.refusal_of g) (G.spacing_of g) (G.shape_of g) ws) }
{
    if let Err(refusal) = g.judge() {
        return uplink::refused_plan(refusal);
    }
    let block = g.block();
    postponed::plan(g.spacing(), g.shape(), ws, block.size, block.order)
}

// The place of position p, and the symbol there.
pub fn forward<G: UplinkGrant>(g: G, p: u64) -> UplinkPlace
    ensures { result ≡ forward_answer (G.shape_of g).subcarriers
        (question (G.refusal_of g) (G.spacing_of g) (G.shape_of g) none) p }
{
    if let Err(refusal) = g.judge() {
        return uplink::refused_place(refusal);
    }
    let s = g.shape();
    let at = uplink::taken_apart(s, p);
    uplink::forward(s, p, at, uplink::slot_at(s, AllOpen, at.i))
}

pub fn forward_beside<G: UplinkGrant>(g: G, ws: Windows, p: u64) -> UplinkPlace
    ensures { result ≡ forward_answer (G.shape_of g).subcarriers
        (question (G.refusal_of g) (G.spacing_of g) (G.shape_of g) ws) p }
{
    if let Err(refusal) = g.judge() {
        return uplink::refused_place(refusal);
    }
    postponed::forward(g.spacing(), g.shape(), ws, p)
}

// What stands at symbol l and subcarrier k of a slot.
pub fn backward<G: UplinkGrant>(g: G, slot: u64, l: u64, k: u64) -> Back
    ensures { result ≡ backward_answer (G.shape_of g).subcarriers
        (question (G.refusal_of g) (G.spacing_of g) (G.shape_of g) none) slot l k }
{
    if let Err(refusal) = g.judge() {
        return sending::refused(refusal);
    }
    let s = g.shape();
    uplink::backward(s, slot, uplink::locate(s, AllOpen, slot), l, k)
}

pub fn backward_beside<G: UplinkGrant>(g: G, ws: Windows, slot: u64, l: u64, k: u64) -> Back
    ensures { result ≡ backward_answer (G.shape_of g).subcarriers
        (question (G.refusal_of g) (G.spacing_of g) (G.shape_of g) ws) slot l k }
{
    if let Err(refusal) = g.judge() {
        return sending::refused(refusal);
    }
    postponed::backward(g.spacing(), g.shape(), ws, slot, l, k)
}

// The step of a walk in place: the caller's own record is moved.
#![tactic(auto)]

ghost use Rattle.std.specs.Prelude.{◌≡◌};
ghost use Rattle.walk.specs.Step.{stepped_of};

use walk::{Engine, Stepped, Walk, WalkPlace};

// One step, asked of an engine: the answer at p, and p moved on. A refused or finished walk stays as it is.
pub fn step(w: &mut Walk, anchor: &[u8], other: &[u8], engine: Engine) -> WalkPlace
    ensures { (result ≡ (stepped_of w.old anchor.now other.now).answer)
        × (w.new ≡ (stepped_of w.old anchor.now other.now).walk) }
{
    let v = *w;
    let place = walk::forward(v, anchor, other, engine);
    if place.no == 0 {
        w.p = v.p + 1;
        return place;
    }
    walk::stopped(v, anchor, other, engine, place.no)
}

// The step of a record by value, for callers that lend none.
pub fn step_value(w: Walk, anchor: &[u8], other: &[u8], engine: Engine) -> Stepped
    ensures { result ≡ stepped_of w anchor.now other.now }
{
    let mut v = w;
    let answer = step(&mut v, anchor, other, engine);
    Stepped { answer, walk: v }
}

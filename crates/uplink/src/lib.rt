// Uplink questions on a shape: the numbers that place a grant's codeword on uplink slots, whatever kind of grant they
// are made from.
#![tactic(auto)]

ghost use Rattle.std.specs.Prelude.{Bool, ◌≡◌, ℕ, ◌^◌, ◌<◌};
ghost use Rattle.refusals.specs.Refusal.{number_of};
ghost use Rattle.sending.specs.CopyOrder.{carried};
ghost use Rattle.sending.specs.Answer.{extent_of};
ghost use Rattle.uplink.specs.Fits.{Fits};
ghost use Rattle.uplink.specs.Timing.{sent_slots, slot_at};
ghost use Rattle.uplink.specs.Scaffold.{places, place_in, back_in};
ghost use Rattle.uplink.specs.Mapping.{sending_of};
ghost use Rattle.uplink.specs.Quick.{split_of, Counted, Located};
ghost use Rattle.uplink.specs.Answers.{refused_plan, refused_place, plan_shown};

use grid::UplinkGrid;
use refusals::Refusal;
use sending::Back;

mod data;
mod groups;
mod timing;

pub use data::{is_granted, is_reference, split as taken_apart};
pub use groups::{AllOpen, OpenGroups};

// Slots from `first` on, in blocks of sending with a gap after each; `tones` of the grid's `subcarriers` from `tone`
// on; `codeword` slots, sent `copies` times, each group of `group` slots `consecutive` times in a row; `references`
// reference symbols from `reference` on.
// No ghost field keeps `Fits`: definitions of `specs/` write shapes as records of these numbers alone (`shape_of`).
#[derive(Clone, Copy)]
pub struct Shape {
    pub first: u64,
    pub subcarriers: u64,
    pub block: u64,
    pub gap: u64,
    pub tone: u64,
    pub tones: u64,
    pub codeword: u64,
    pub copies: u64,
    pub consecutive: u64,
    pub group: u64,
    pub reference: u64,
    pub references: u64,
}

// Plan's answer: the refusal number; the first and last slot, the copies, the places, the transport block's size and
// the modulation order. No Result: `plan_shown`, `refused_plan` and the C interface speak of these fields.
#[derive(Clone, Copy, PartialEq, Eq)]
pub struct UplinkPlan {
    pub no: u64,
    pub first: u64,
    pub last: u64,
    pub copies: u64,
    pub places: u64,
    pub size: u64,
    pub order: u64,
}

// Forward's answer: the refusal number; slot, symbol and subcarrier of the place, and the codeword symbol there. No
// Result, as above.
#[derive(Clone, Copy, PartialEq, Eq)]
pub struct UplinkPlace {
    pub no: u64,
    pub slot: u64,
    pub l: u64,
    pub k: u64,
    pub symbol: u64,
}

// A position taken apart: the transmitted slot, the data element in it, and that element's symbol and subcarrier.
#[derive(Clone, Copy)]
pub struct Split {
    pub i: u64,
    pub e: u64,
    pub l: u64,
    pub k: u64,
}

pub fn refused_plan(refusal: Refusal) -> UplinkPlan
    ensures { result ≡ refused_plan (number_of refusal) }
{
    UplinkPlan {
        no: refusal.number(),
        first: 0,
        last: 0,
        copies: 0,
        places: 0,
        size: 0,
        order: 0,
    }
}

pub fn refused_place(refusal: Refusal) -> UplinkPlace
    ensures { result ≡ refused_place (number_of refusal) }
{
    UplinkPlace {
        no: refusal.number(),
        slot: 0,
        l: 0,
        k: 0,
        symbol: 0,
    }
}

// How many slots are sent.
fn sent_slots(s: Shape) -> u64
    requires { Fits s }
    ensures { (result ≡ sent_slots s) × (0 < result) × (result < 2 ^ 32) }
{
    s.copies * s.codeword
}

// Transmitted slot i, where there is one.
pub fn slot_at<O: OpenGroups>(s: Shape, groups: O, i: u64) -> u64
    requires { Fits s × O.Searches s groups }
    ensures { i < sent_slots s → result ≡ slot_at s (O.is_open groups) i }
{
    if i >= sent_slots(s) {
        return 0;
    }
    groups.slot(s, i)
}

// Which transmitted slot a slot is, if it is sent.
pub fn locate<O: OpenGroups>(s: Shape, groups: O, slot: u64) -> Option<u64>
    requires { Fits s × O.Searches s groups }
    ensures { Located s (O.is_open groups) slot result }
{
    if slot < s.first {
        return None;
    }
    let i = groups.index(s, slot - s.first)?;
    if i < sent_slots(s) { Some(i) } else { None }
}

// The codeword slot that transmitted slot i carries.
fn carried_by(s: Shape, i: u64) -> u64
    requires { Fits s }
    ensures { (result ≡ carried s.consecutive s.group s.codeword i) × (result < 2 ^ 16) }
{
    sending::carried(s.consecutive, s.group, s.codeword, i)
}

// How many places there are.
fn places(s: Shape) -> u64
    requires { Fits s }
    ensures { result ≡ places s }
{
    sent_slots(s) * data::slot_data(s)
}

// First and last slot, copies, places, size and order.
pub fn plan<O: OpenGroups>(s: Shape, groups: O, size: u64, order: u64) -> UplinkPlan
    requires { Fits s × O.Searches s groups }
    ensures { result ≡ plan_shown size order (extent_of (sending_of s (O.is_open groups))) }
{
    let ends = groups.ends(s, sent_slots(s) - 1);
    UplinkPlan {
        no: 0,
        first: ends.first,
        last: ends.last,
        copies: s.copies,
        places: places(s),
        size,
        order,
    }
}

// The place of position p, which `at` is taken apart and which is in `slot`, and the symbol there. Whoever asks takes
// it apart and finds the slot: one function of all would be too long for the compiler to put into either kind of
// grant's.
pub fn forward(s: Shape, p: u64, at: Split, slot: u64) -> UplinkPlace
    requires { Fits s × (at ≡ split_of s p) }
    ensures { (is_open : ℕ → Bool) → (at.i < sent_slots s → slot ≡ slot_at s is_open at.i)
        → result ≡ place_in s.subcarriers (sending_of s is_open) p }
{
    if at.i >= sent_slots(s) {
        return refused_place(Refusal::NoSuchPlace);
    }
    let w = data::slot_data(s);
    let unit = carried_by(s, at.i);
    UplinkPlace {
        no: 0,
        slot,
        l: at.l,
        k: at.k,
        symbol: sending::item(unit, w, at.e),
    }
}

// What stands at symbol l and subcarrier k of a slot, which is located at `found`, as forward has its position.
pub fn backward(s: Shape, slot: u64, found: Option<u64>, l: u64, k: u64) -> Back
    requires { Fits s × Counted s found }
    ensures { (is_open : ℕ → Bool) → Located s is_open slot found
        → result ≡ back_in s.subcarriers (sending_of s is_open) slot l k }
{
    let inside = (l < UplinkGrid::SYMBOLS) & (k < s.subcarriers);
    if !inside {
        return sending::refused(Refusal::NoSuchPlace);
    }
    let Some(i) = found else {
        return sending::not_ours(0);
    };
    if !data::is_granted(s, k) {
        return sending::not_ours(0);
    }
    if data::is_reference(s, l) {
        return sending::not_ours(1);
    }
    let w = data::slot_data(s);
    let e = data::number_of(s, l, k);
    let unit = carried_by(s, i);
    sending::ours(sending::item(unit, w, e), sending::item(i, w, e))
}

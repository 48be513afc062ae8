// The public questions, and nothing else. Each may be asked with any numbers and any lent buffers: its contract, in
// the crate named here (that of `bitmap` stands here), has no `requires` and says by a definition what is answered and
// left. Refused input gets document 01's number and zeros.
#![tactic(auto)]

ghost use Rattle.std.specs.Prelude.{◌≡◌};
ghost use Rattle.cell.specs.Judge.{in_force_of};

use cell::Cell;

// A cell: its refusal number, or 0; why subframe t is not usable; E, the eligible elements of a subframe.
pub use cell::{cause_at as cause, element_count as count, judge};

// The bitmap in force, a part of the carrier's own buffer.
pub fn bitmap<'a>(c: Cell, anchor: &'a [u8], other: &'a [u8]) -> &'a [u8]
    ensures { result.now ≡ in_force_of c anchor.now other.now }
{
    cell::in_force(c, anchor, other)
}

// NPUSCH format 1, alone and beside random access windows.
pub use npusch::{
    backward as backward_up, backward_beside as backward_up_beside, forward as forward_up,
    forward_beside as forward_up_beside, plan as plan_up, plan_beside as plan_up_beside,
};

// Acknowledgements on NPUSCH format 2, alone and beside random access windows.
pub use harq_ack::{
    backward as backward_ack, backward_beside as backward_ack_beside, forward as forward_ack,
    forward_beside as forward_ack_beside, plan as plan_ack, plan_beside as plan_ack_beside,
};

// NPDSCH.
pub use npdsch::{backward as backward_down, forward as forward_down, plan as plan_down};

// NPDCCH.
pub use npdcch::{backward as backward_control, forward as forward_control, plan as plan_control};

// Where NPDCCH may start: the first start of the UE-specific search space from subframe n on, and its candidates.
pub use search_space::search;

// NPBCH and SIB1, which an anchor broadcasts by itself: the places of one period, and any subframe by its number in it.
pub use broadcast::{backward_npbch, backward_sib1, forward_npbch, forward_sib1};

// Forward of the plain engine, which goes one subframe or slot at a time; of an uplink grant beside windows. Its
// answers are the quick one's (`agreement`).
pub use plain_downlink::{
    forward_npdcch as forward_control_plain, forward_npdsch as forward_down_plain,
};
pub use plain_uplink::{forward_harq_ack as forward_ack_plain, forward_npusch as forward_up_plain};

// One step of a walk, asked of the engine that is named, the caller's record moved in place; and the same of a record
// by value.
pub use inplace::{step, step_value};

// The numbers of one transmitted subframe of an NPDSCH on one port, and what goes out at one of its elements.
pub use fill::fill;
pub use transmitted::element;

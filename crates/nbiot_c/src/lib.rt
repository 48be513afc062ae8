// The public questions for C: numbers and slices in, answers into lent buffers, in the order of
// include/nbiot_numbers.h. What follows a cell's eight numbers is lent on as its messages.
// A buffer that is too short gets 255, before anything else is judged, and nothing is written.
// An exported function is C's, with no type parameter: so each question stands once for each kind of grant.
#![tactic(auto)]

ghost use Rattle.std.specs.Prelude.{[], ◌≡◌};
ghost use Rattle.npusch.specs.Questions as up;
ghost use Rattle.harq_ack.specs.Questions as ack;
ghost use Rattle.broadcast.specs.Channels.{npbch_of, sib1_of};
ghost use Rattle.buffers.specs.Buffers.{windows_of};
ghost use Rattle.nbiot_c.specs.Calls as calls;

use harq_ack::HarqAckGrant;
use npusch::NpuschGrant;
use refusals::Refusal;
use uplink::{UplinkPlace, UplinkPlan};
use walk::{Engine, WalkPlace};

// The interface's own number: a buffer is too short.
const TOO_SHORT: u64 = 255;

// Where forward answers this, a walk may be at its end.
const NO_SUCH_PLACE: u64 = Refusal::NoSuchPlace as u64;

// ---- a cell

// Judge a cell: the refusal number, or 0.
#[unsafe(no_mangle)]
pub extern "C" fn nbiot_judge(cell: &[u64], anchor: &[u8], other: &[u8]) -> u64
    ensures { result ≡ calls.judge cell.now anchor.now other.now }
{
    if cell.len() < 8 {
        return TOO_SHORT;
    }
    cell::judge_lent(buffers::config_at(cell, 0), &cell[8..], anchor, other)
}

// The bitmap in force: the buffer that it is a part of, and its bytes, counted without a second verdict.
#[unsafe(no_mangle)]
pub extern "C" fn nbiot_bitmap(cell: &[u64], anchor: &[u8], other: &[u8], answer: &mut [u64]) -> u64
    ensures { (result, answer.new)
        ≡ calls.bitmap cell.now anchor.now other.now answer.old }
{
    if cell.len() < 8 || answer.len() < 3 {
        return TOO_SHORT;
    }
    let c = buffers::config_at(cell, 0);
    let no = cell::judge_lent(c, &cell[8..], anchor, other);
    if no != 0 {
        return buffers::put(answer, [no, 0, 0]);
    }
    let n = cell::bitmap_bytes(c.bits);
    buffers::put(answer, [0, c.carrier, n as u64])
}

// Why subframe t is not usable.
#[unsafe(no_mangle)]
pub extern "C" fn nbiot_cause(
    cell: &[u64],
    anchor: &[u8],
    other: &[u8],
    t: u64,
    answer: &mut [u64],
) -> u64
    ensures { (result, answer.new)
        ≡ calls.cause cell.now anchor.now other.now t answer.old }
{
    if cell.len() < 8 || answer.len() < 2 {
        return TOO_SHORT;
    }
    let a = cell::cause_lent(buffers::config_at(cell, 0), &cell[8..], anchor, other, t);
    buffers::put_cause(answer, a)
}

// E: how many elements of a subframe are eligible.
#[unsafe(no_mangle)]
pub extern "C" fn nbiot_count(cell: &[u64], anchor: &[u8], other: &[u8], answer: &mut [u64]) -> u64
    ensures { (result, answer.new)
        ≡ calls.count cell.now anchor.now other.now answer.old }
{
    if cell.len() < 8 || answer.len() < 2 {
        return TOO_SHORT;
    }
    let a = cell::count_lent(buffers::config_at(cell, 0), &cell[8..], anchor, other);
    buffers::put_count(answer, a)
}

// ---- NPUSCH format 1

// Plan and forward beside windows. A call and a step ask each of them, so that the compiler leaves it a function of
// its own: it reads the windows itself, and they are not copied for it.
fn plan_up_beside(g: NpuschGrant, windows: &[u64]) -> UplinkPlan
    ensures { result ≡ up.plan_of g (windows_of windows.now) }
{
    nbiot::plan_up_beside(g, buffers::windows_of(windows))
}

fn forward_up_beside(g: NpuschGrant, windows: &[u64], p: u64) -> UplinkPlace
    ensures { result ≡ up.forward_of g (windows_of windows.now) p }
{
    nbiot::forward_up_beside(g, buffers::windows_of(windows), p)
}

// First and last slot, copies, places, size and order.
#[unsafe(no_mangle)]
pub extern "C" fn nbiot_plan_up(grant: &[u64], answer: &mut [u64]) -> u64
    ensures { (result, answer.new) ≡ calls.plan_up grant.now [] answer.old }
{
    if grant.len() < 7 || answer.len() < 7 {
        return TOO_SHORT;
    }
    let a = nbiot::plan_up(buffers::npusch_at(grant, 0));
    buffers::put_uplink_plan(answer, a)
}

// The same beside windows.
#[unsafe(no_mangle)]
pub extern "C" fn nbiot_plan_up_windows(grant: &[u64], windows: &[u64], answer: &mut [u64]) -> u64
    ensures { (result, answer.new)
        ≡ calls.plan_up grant.now windows.now answer.old }
{
    if buffers::windows_short(windows) || grant.len() < 7 || answer.len() < 7 {
        return TOO_SHORT;
    }
    let a = plan_up_beside(buffers::npusch_at(grant, 0), windows);
    buffers::put_uplink_plan(answer, a)
}

// The place of position p, and the symbol there.
#[unsafe(no_mangle)]
pub extern "C" fn nbiot_forward_up(grant: &[u64], p: u64, answer: &mut [u64]) -> u64
    ensures { (result, answer.new) ≡ calls.forward_up grant.now [] p answer.old }
{
    if grant.len() < 7 || answer.len() < 5 {
        return TOO_SHORT;
    }
    let a = nbiot::forward_up(buffers::npusch_at(grant, 0), p);
    buffers::put_uplink_place(answer, a)
}

// The same beside windows.
#[unsafe(no_mangle)]
pub extern "C" fn nbiot_forward_up_windows(
    grant: &[u64],
    windows: &[u64],
    p: u64,
    answer: &mut [u64],
) -> u64
    ensures { (result, answer.new)
        ≡ calls.forward_up grant.now windows.now p answer.old }
{
    if buffers::windows_short(windows) || grant.len() < 7 || answer.len() < 5 {
        return TOO_SHORT;
    }
    let a = forward_up_beside(buffers::npusch_at(grant, 0), windows, p);
    buffers::put_uplink_place(answer, a)
}

// What stands at symbol l and subcarrier k of a slot.
#[unsafe(no_mangle)]
pub extern "C" fn nbiot_backward_up(
    grant: &[u64],
    slot: u64,
    l: u64,
    k: u64,
    answer: &mut [u64],
) -> u64
    ensures { (result, answer.new)
        ≡ calls.backward_up grant.now [] slot l k answer.old }
{
    if grant.len() < 7 || answer.len() < 5 {
        return TOO_SHORT;
    }
    let a = nbiot::backward_up(buffers::npusch_at(grant, 0), slot, l, k);
    buffers::put_back(answer, a)
}

// The same beside windows.
#[unsafe(no_mangle)]
pub extern "C" fn nbiot_backward_up_windows(
    grant: &[u64],
    windows: &[u64],
    slot: u64,
    l: u64,
    k: u64,
    answer: &mut [u64],
) -> u64
    ensures { (result, answer.new)
        ≡ calls.backward_up grant.now windows.now slot l k answer.old }
{
    if buffers::windows_short(windows) || grant.len() < 7 || answer.len() < 5 {
        return TOO_SHORT;
    }
    let a = nbiot::backward_up_beside(
        buffers::npusch_at(grant, 0),
        buffers::windows_of(windows),
        slot,
        l,
        k,
    );
    buffers::put_back(answer, a)
}

// One step of a walk: the answer at its position, which moves on.
#[unsafe(no_mangle)]
pub extern "C" fn nbiot_step_up(walk: &mut [u64], answer: &mut [u64]) -> u64
    ensures { (result, walk.new, answer.new)
        ≡ calls.step_up walk.old [] answer.old }
{
    if walk.len() < 8 || answer.len() < 7 {
        return TOO_SHORT;
    }
    let p = walk[0];
    let g = buffers::npusch_at(walk, 1);
    let a = WalkPlace::from(nbiot::forward_up(g, p));
    let end = a.no == NO_SUCH_PLACE && walk::is_end(walk::uplink_total(plan_up_beside(g, &[])), p);
    buffers::put_step(walk, answer, end, a)
}

// The same beside windows.
#[unsafe(no_mangle)]
pub extern "C" fn nbiot_step_up_windows(
    walk: &mut [u64],
    windows: &[u64],
    answer: &mut [u64],
) -> u64
    ensures { (result, walk.new, answer.new)
        ≡ calls.step_up walk.old windows.now answer.old }
{
    if buffers::windows_short(windows) || walk.len() < 8 || answer.len() < 7 {
        return TOO_SHORT;
    }
    let p = walk[0];
    let g = buffers::npusch_at(walk, 1);
    let a = WalkPlace::from(forward_up_beside(g, windows, p));
    let end = a.no == NO_SUCH_PLACE
        && walk::is_end(walk::uplink_total(plan_up_beside(g, windows)), p);
    buffers::put_step(walk, answer, end, a)
}

// ---- acknowledgements on NPUSCH format 2

// The same of an acknowledgement, and each again a function of its own.
fn plan_ack_beside(g: HarqAckGrant, windows: &[u64]) -> UplinkPlan
    ensures { result ≡ ack.plan_of g (windows_of windows.now) }
{
    nbiot::plan_ack_beside(g, buffers::windows_of(windows))
}

fn forward_ack_beside(g: HarqAckGrant, windows: &[u64], p: u64) -> UplinkPlace
    ensures { result ≡ ack.forward_of g (windows_of windows.now) p }
{
    nbiot::forward_ack_beside(g, buffers::windows_of(windows), p)
}

// First and last slot, copies, places, size and order.
#[unsafe(no_mangle)]
pub extern "C" fn nbiot_plan_ack(grant: &[u64], answer: &mut [u64]) -> u64
    ensures { (result, answer.new) ≡ calls.plan_ack grant.now [] answer.old }
{
    if grant.len() < 4 || answer.len() < 7 {
        return TOO_SHORT;
    }
    let a = nbiot::plan_ack(buffers::harq_ack_at(grant, 0));
    buffers::put_uplink_plan(answer, a)
}

// The same beside windows.
#[unsafe(no_mangle)]
pub extern "C" fn nbiot_plan_ack_windows(grant: &[u64], windows: &[u64], answer: &mut [u64]) -> u64
    ensures { (result, answer.new)
        ≡ calls.plan_ack grant.now windows.now answer.old }
{
    if buffers::windows_short(windows) || grant.len() < 4 || answer.len() < 7 {
        return TOO_SHORT;
    }
    let a = plan_ack_beside(buffers::harq_ack_at(grant, 0), windows);
    buffers::put_uplink_plan(answer, a)
}

// The place of position p, and the symbol there.
#[unsafe(no_mangle)]
pub extern "C" fn nbiot_forward_ack(grant: &[u64], p: u64, answer: &mut [u64]) -> u64
    ensures { (result, answer.new) ≡ calls.forward_ack grant.now [] p answer.old }
{
    if grant.len() < 4 || answer.len() < 5 {
        return TOO_SHORT;
    }
    let a = nbiot::forward_ack(buffers::harq_ack_at(grant, 0), p);
    buffers::put_uplink_place(answer, a)
}

// The same beside windows.
#[unsafe(no_mangle)]
pub extern "C" fn nbiot_forward_ack_windows(
    grant: &[u64],
    windows: &[u64],
    p: u64,
    answer: &mut [u64],
) -> u64
    ensures { (result, answer.new)
        ≡ calls.forward_ack grant.now windows.now p answer.old }
{
    if buffers::windows_short(windows) || grant.len() < 4 || answer.len() < 5 {
        return TOO_SHORT;
    }
    let a = forward_ack_beside(buffers::harq_ack_at(grant, 0), windows, p);
    buffers::put_uplink_place(answer, a)
}

// What stands at symbol l and subcarrier k of a slot.
#[unsafe(no_mangle)]
pub extern "C" fn nbiot_backward_ack(
    grant: &[u64],
    slot: u64,
    l: u64,
    k: u64,
    answer: &mut [u64],
) -> u64
    ensures { (result, answer.new)
        ≡ calls.backward_ack grant.now [] slot l k answer.old }
{
    if grant.len() < 4 || answer.len() < 5 {
        return TOO_SHORT;
    }
    let a = nbiot::backward_ack(buffers::harq_ack_at(grant, 0), slot, l, k);
    buffers::put_back(answer, a)
}

// The same beside windows.
#[unsafe(no_mangle)]
pub extern "C" fn nbiot_backward_ack_windows(
    grant: &[u64],
    windows: &[u64],
    slot: u64,
    l: u64,
    k: u64,
    answer: &mut [u64],
) -> u64
    ensures { (result, answer.new)
        ≡ calls.backward_ack grant.now windows.now slot l k answer.old }
{
    if buffers::windows_short(windows) || grant.len() < 4 || answer.len() < 5 {
        return TOO_SHORT;
    }
    let a = nbiot::backward_ack_beside(
        buffers::harq_ack_at(grant, 0),
        buffers::windows_of(windows),
        slot,
        l,
        k,
    );
    buffers::put_back(answer, a)
}

// One step of a walk: the answer at its position, which moves on.
#[unsafe(no_mangle)]
pub extern "C" fn nbiot_step_ack(walk: &mut [u64], answer: &mut [u64]) -> u64
    ensures { (result, walk.new, answer.new)
        ≡ calls.step_ack walk.old [] answer.old }
{
    if walk.len() < 5 || answer.len() < 7 {
        return TOO_SHORT;
    }
    let p = walk[0];
    let g = buffers::harq_ack_at(walk, 1);
    let a = WalkPlace::from(nbiot::forward_ack(g, p));
    let end = a.no == NO_SUCH_PLACE && walk::is_end(walk::uplink_total(plan_ack_beside(g, &[])), p);
    buffers::put_step(walk, answer, end, a)
}

// The same beside windows.
#[unsafe(no_mangle)]
pub extern "C" fn nbiot_step_ack_windows(
    walk: &mut [u64],
    windows: &[u64],
    answer: &mut [u64],
) -> u64
    ensures { (result, walk.new, answer.new)
        ≡ calls.step_ack walk.old windows.now answer.old }
{
    if buffers::windows_short(windows) || walk.len() < 5 || answer.len() < 7 {
        return TOO_SHORT;
    }
    let p = walk[0];
    let g = buffers::harq_ack_at(walk, 1);
    let a = WalkPlace::from(forward_ack_beside(g, windows, p));
    let end = a.no == NO_SUCH_PLACE
        && walk::is_end(walk::uplink_total(plan_ack_beside(g, windows)), p);
    buffers::put_step(walk, answer, end, a)
}

// ---- NPDSCH

// First and last subframe, copies and places.
#[unsafe(no_mangle)]
pub extern "C" fn nbiot_plan_down(
    cell: &[u64],
    anchor: &[u8],
    other: &[u8],
    grant: &[u64],
    answer: &mut [u64],
) -> u64
    ensures { (result, answer.new)
        ≡ calls.plan_down cell.now anchor.now other.now grant.now
        answer.old }
{
    if cell.len() < 8 || grant.len() < 5 || answer.len() < 5 {
        return TOO_SHORT;
    }
    let c = buffers::config_at(cell, 0);
    let g = buffers::npdsch_at(grant, 0);
    let a = npdsch::plan_lent(c, &cell[8..], anchor, other, g);
    buffers::put_downlink_plan(answer, a)
}

// The place of position p, and the symbol there.
#[unsafe(no_mangle)]
pub extern "C" fn nbiot_forward_down(
    cell: &[u64],
    anchor: &[u8],
    other: &[u8],
    grant: &[u64],
    p: u64,
    answer: &mut [u64],
) -> u64
    ensures { (result, answer.new)
        ≡ calls.forward_down cell.now anchor.now other.now grant.now
        p answer.old }
{
    if cell.len() < 8 || grant.len() < 5 || answer.len() < 6 {
        return TOO_SHORT;
    }
    let c = buffers::config_at(cell, 0);
    let g = buffers::npdsch_at(grant, 0);
    let a = npdsch::forward_lent(c, &cell[8..], anchor, other, g, p);
    buffers::put_downlink_place(answer, a)
}

// What stands at symbol l and subcarrier k of a slot of subframe t, and why the subframe was skipped.
#[unsafe(no_mangle)]
pub extern "C" fn nbiot_backward_down(
    cell: &[u64],
    anchor: &[u8],
    other: &[u8],
    grant: &[u64],
    t: u64,
    slot: u64,
    l: u64,
    k: u64,
    answer: &mut [u64],
) -> u64
    ensures { (result, answer.new)
        ≡ calls.backward_down cell.now anchor.now other.now grant.now
        t slot l k answer.old }
{
    if cell.len() < 8 || grant.len() < 5 || answer.len() < 6 {
        return TOO_SHORT;
    }
    let c = buffers::config_at(cell, 0);
    let g = buffers::npdsch_at(grant, 0);
    let a = npdsch::backward_lent(c, &cell[8..], anchor, other, g, t, slot, l, k);
    buffers::put_downlink_back(answer, a)
}

// One step of a walk: the answer at its position, which moves on.
#[unsafe(no_mangle)]
pub extern "C" fn nbiot_step_down(
    walk: &mut [u64],
    anchor: &[u8],
    other: &[u8],
    answer: &mut [u64],
) -> u64
    ensures { (result, walk.new, answer.new)
        ≡ calls.step_down walk.old anchor.now other.now answer.old }
{
    if walk.len() < 14 || answer.len() < 7 {
        return TOO_SHORT;
    }
    let p = walk[0];
    let c = buffers::config_at(walk, 1);
    let g = buffers::npdsch_at(walk, 9);
    let a = WalkPlace::from(npdsch::forward_lent(c, &walk[14..], anchor, other, g, p));
    let end = a.no == NO_SUCH_PLACE
        && walk::is_end(
            walk::downlink_total(npdsch::plan_lent(c, &walk[14..], anchor, other, g)),
            p,
        );
    buffers::put_step(walk, answer, end, a)
}

// ---- NPDCCH

// First and last subframe, copies and places.
#[unsafe(no_mangle)]
pub extern "C" fn nbiot_plan_control(
    cell: &[u64],
    anchor: &[u8],
    other: &[u8],
    grant: &[u64],
    answer: &mut [u64],
) -> u64
    ensures { (result, answer.new)
        ≡ calls.plan_control cell.now anchor.now other.now grant.now
        answer.old }
{
    if cell.len() < 8 || grant.len() < 4 || answer.len() < 5 {
        return TOO_SHORT;
    }
    let c = buffers::config_at(cell, 0);
    let g = buffers::npdcch_at(grant, 0);
    let a = npdcch::plan_lent(c, &cell[8..], anchor, other, g);
    buffers::put_downlink_plan(answer, a)
}

// The place of position p, and the symbol there.
#[unsafe(no_mangle)]
pub extern "C" fn nbiot_forward_control(
    cell: &[u64],
    anchor: &[u8],
    other: &[u8],
    grant: &[u64],
    p: u64,
    answer: &mut [u64],
) -> u64
    ensures { (result, answer.new)
        ≡ calls.forward_control cell.now anchor.now other.now grant.now
        p answer.old }
{
    if cell.len() < 8 || grant.len() < 4 || answer.len() < 6 {
        return TOO_SHORT;
    }
    let c = buffers::config_at(cell, 0);
    let g = buffers::npdcch_at(grant, 0);
    let a = npdcch::forward_lent(c, &cell[8..], anchor, other, g, p);
    buffers::put_downlink_place(answer, a)
}

// What stands at symbol l and subcarrier k of a slot of subframe t, and why the subframe was skipped.
#[unsafe(no_mangle)]
pub extern "C" fn nbiot_backward_control(
    cell: &[u64],
    anchor: &[u8],
    other: &[u8],
    grant: &[u64],
    t: u64,
    slot: u64,
    l: u64,
    k: u64,
    answer: &mut [u64],
) -> u64
    ensures { (result, answer.new)
        ≡ calls.backward_control cell.now anchor.now other.now grant.now
        t slot l k answer.old }
{
    if cell.len() < 8 || grant.len() < 4 || answer.len() < 6 {
        return TOO_SHORT;
    }
    let c = buffers::config_at(cell, 0);
    let g = buffers::npdcch_at(grant, 0);
    let a = npdcch::backward_lent(c, &cell[8..], anchor, other, g, t, slot, l, k);
    buffers::put_downlink_back(answer, a)
}

// One step of a walk: the answer at its position, which moves on.
#[unsafe(no_mangle)]
pub extern "C" fn nbiot_step_control(
    walk: &mut [u64],
    anchor: &[u8],
    other: &[u8],
    answer: &mut [u64],
) -> u64
    ensures { (result, walk.new, answer.new)
        ≡ calls.step_control walk.old anchor.now other.now answer.old }
{
    if walk.len() < 13 || answer.len() < 7 {
        return TOO_SHORT;
    }
    let p = walk[0];
    let c = buffers::config_at(walk, 1);
    let g = buffers::npdcch_at(walk, 9);
    let a = WalkPlace::from(npdcch::forward_lent(c, &walk[13..], anchor, other, g, p));
    let end = a.no == NO_SUCH_PLACE
        && walk::is_end(
            walk::downlink_total(npdcch::plan_lent(c, &walk[13..], anchor, other, g)),
            p,
        );
    buffers::put_step(walk, answer, end, a)
}

// ---- where NPDCCH may start

// The first start of the search space, and its candidates.
#[unsafe(no_mangle)]
pub extern "C" fn nbiot_search(
    cell: &[u64],
    anchor: &[u8],
    other: &[u8],
    space: &[u64],
    answer: &mut [u64],
) -> u64
    ensures { (result, answer.new)
        ≡ calls.search cell.now anchor.now other.now space.now
        answer.old }
{
    if cell.len() < 8 || space.len() < 4 || answer.len() < 48 {
        return TOO_SHORT;
    }
    let c = buffers::config_at(cell, 0);
    let s = buffers::search_space_at(space, 0);
    let a = search_space::search_lent(c, &cell[8..], anchor, other, s);
    buffers::put_search(answer, a)
}

// ---- the broadcast

// The place of position p of NPBCH, and the symbol there.
#[unsafe(no_mangle)]
pub extern "C" fn nbiot_forward_npbch(
    cell: &[u64],
    anchor: &[u8],
    other: &[u8],
    p: u64,
    answer: &mut [u64],
) -> u64
    ensures { (result, answer.new)
        ≡ calls.forward_on npbch_of cell.now anchor.now other.now p
        answer.old }
{
    if cell.len() < 8 || answer.len() < 6 {
        return TOO_SHORT;
    }
    let a = nbiot::forward_npbch(buffers::cell_in(cell, 0, 8), anchor, other, p);
    buffers::put_downlink_place(answer, a)
}

// What NPBCH has at symbol l and subcarrier k of a slot of subframe t.
#[unsafe(no_mangle)]
pub extern "C" fn nbiot_backward_npbch(
    cell: &[u64],
    anchor: &[u8],
    other: &[u8],
    t: u64,
    slot: u64,
    l: u64,
    k: u64,
    answer: &mut [u64],
) -> u64
    ensures { (result, answer.new)
        ≡ calls.backward_on npbch_of cell.now anchor.now other.now t slot l k
        answer.old }
{
    if cell.len() < 8 || answer.len() < 5 {
        return TOO_SHORT;
    }
    let a = nbiot::backward_npbch(buffers::cell_in(cell, 0, 8), anchor, other, t, slot, l, k);
    buffers::put_back(answer, a)
}

// The place of position p of SIB1, and the symbol there.
#[unsafe(no_mangle)]
pub extern "C" fn nbiot_forward_sib1(
    cell: &[u64],
    anchor: &[u8],
    other: &[u8],
    p: u64,
    answer: &mut [u64],
) -> u64
    ensures { (result, answer.new)
        ≡ calls.forward_on sib1_of cell.now anchor.now other.now p
        answer.old }
{
    if cell.len() < 8 || answer.len() < 6 {
        return TOO_SHORT;
    }
    let a = nbiot::forward_sib1(buffers::cell_in(cell, 0, 8), anchor, other, p);
    buffers::put_downlink_place(answer, a)
}

// What SIB1 has at symbol l and subcarrier k of a slot of subframe t.
#[unsafe(no_mangle)]
pub extern "C" fn nbiot_backward_sib1(
    cell: &[u64],
    anchor: &[u8],
    other: &[u8],
    t: u64,
    slot: u64,
    l: u64,
    k: u64,
    answer: &mut [u64],
) -> u64
    ensures { (result, answer.new)
        ≡ calls.backward_on sib1_of cell.now anchor.now other.now t slot l k
        answer.old }
{
    if cell.len() < 8 || answer.len() < 5 {
        return TOO_SHORT;
    }
    let a = nbiot::backward_sib1(buffers::cell_in(cell, 0, 8), anchor, other, t, slot, l, k);
    buffers::put_back(answer, a)
}

// ---- the numbers of a transmitted subframe

// The 336 numbers of transmitted subframe i.
#[unsafe(no_mangle)]
pub extern "C" fn nbiot_fill(
    cell: &[u64],
    anchor: &[u8],
    other: &[u8],
    grant: &[u64],
    i: u64,
    bits: &[u8],
    level: f32,
    output: &mut [f32],
) -> u64
    ensures { (result, output.new)
        ≡ calls.fill cell.now anchor.now other.now grant.now
        i bits.now level output.old }
{
    if cell.len() < 8 || grant.len() < 5 {
        return TOO_SHORT;
    }
    let c = buffers::config_at(cell, 0);
    let g = buffers::npdsch_at(grant, 0);
    fill::fill_lent(c, &cell[8..], anchor, other, g, i, bits, level, output)
}

// One element of transmitted subframe i.
#[unsafe(no_mangle)]
pub extern "C" fn nbiot_element(
    cell: &[u64],
    anchor: &[u8],
    other: &[u8],
    grant: &[u64],
    i: u64,
    slot: u64,
    l: u64,
    k: u64,
    bits: &[u8],
    level: f32,
    answer: &mut [u64],
    amplitudes: &mut [f32],
) -> u64
    ensures { (result, answer.new, amplitudes.new)
        ≡ calls.element cell.now anchor.now other.now grant.now
        i slot l k bits.now level answer.old amplitudes.old }
{
    if cell.len() < 8 || grant.len() < 5 || answer.len() < 2 || amplitudes.len() < 2 {
        return TOO_SHORT;
    }
    let c = buffers::config_at(cell, 0);
    let g = buffers::npdsch_at(grant, 0);
    let e = transmitted::element_lent(c, &cell[8..], anchor, other, g, i, slot, l, k, bits, level);
    buffers::put_element(answer, amplitudes, e)
}

// ---- the plain engine: the same answers, one subframe or slot at a time

// Forward of NPUSCH format 1 beside windows.
#[unsafe(no_mangle)]
pub extern "C" fn nbiot_forward_up_plain(
    grant: &[u64],
    windows: &[u64],
    p: u64,
    answer: &mut [u64],
) -> u64
    ensures { (result, answer.new)
        ≡ calls.forward_up grant.now windows.now p answer.old }
{
    if buffers::windows_short(windows) || grant.len() < 7 || answer.len() < 5 {
        return TOO_SHORT;
    }
    let ws = buffers::windows_of(windows);
    let a = nbiot::forward_up_plain(buffers::npusch_at(grant, 0), ws, p);
    buffers::put_uplink_place(answer, a)
}

// One step of its walk beside windows.
#[unsafe(no_mangle)]
pub extern "C" fn nbiot_step_up_plain(walk: &mut [u64], windows: &[u64], answer: &mut [u64]) -> u64
    ensures { (result, walk.new, answer.new)
        ≡ calls.step_up walk.old windows.now answer.old }
{
    if buffers::windows_short(windows) || walk.len() < 8 || answer.len() < 7 {
        return TOO_SHORT;
    }
    let s = nbiot::step_value(buffers::npusch_walk(walk, windows), &[], &[], Engine::Plain);
    buffers::put_stepped(walk, answer, s)
}

// Forward of an acknowledgement beside windows.
#[unsafe(no_mangle)]
pub extern "C" fn nbiot_forward_ack_plain(
    grant: &[u64],
    windows: &[u64],
    p: u64,
    answer: &mut [u64],
) -> u64
    ensures { (result, answer.new)
        ≡ calls.forward_ack grant.now windows.now p answer.old }
{
    if buffers::windows_short(windows) || grant.len() < 4 || answer.len() < 5 {
        return TOO_SHORT;
    }
    let ws = buffers::windows_of(windows);
    let a = nbiot::forward_ack_plain(buffers::harq_ack_at(grant, 0), ws, p);
    buffers::put_uplink_place(answer, a)
}

// One step of its walk beside windows.
#[unsafe(no_mangle)]
pub extern "C" fn nbiot_step_ack_plain(walk: &mut [u64], windows: &[u64], answer: &mut [u64]) -> u64
    ensures { (result, walk.new, answer.new)
        ≡ calls.step_ack walk.old windows.now answer.old }
{
    if buffers::windows_short(windows) || walk.len() < 5 || answer.len() < 7 {
        return TOO_SHORT;
    }
    let s = nbiot::step_value(
        buffers::harq_ack_walk(walk, windows),
        &[],
        &[],
        Engine::Plain,
    );
    buffers::put_stepped(walk, answer, s)
}

// Forward of NPDSCH.
#[unsafe(no_mangle)]
pub extern "C" fn nbiot_forward_down_plain(
    cell: &[u64],
    anchor: &[u8],
    other: &[u8],
    grant: &[u64],
    p: u64,
    answer: &mut [u64],
) -> u64
    ensures { (result, answer.new)
        ≡ calls.forward_down cell.now anchor.now other.now grant.now
        p answer.old }
{
    if cell.len() < 8 || grant.len() < 5 || answer.len() < 6 {
        return TOO_SHORT;
    }
    let c = buffers::cell_in(cell, 0, 8);
    let g = buffers::npdsch_at(grant, 0);
    let a = nbiot::forward_down_plain(c, anchor, other, g, p);
    buffers::put_downlink_place(answer, a)
}

// One step of its walk.
#[unsafe(no_mangle)]
pub extern "C" fn nbiot_step_down_plain(
    walk: &mut [u64],
    anchor: &[u8],
    other: &[u8],
    answer: &mut [u64],
) -> u64
    ensures { (result, walk.new, answer.new)
        ≡ calls.step_down walk.old anchor.now other.now answer.old }
{
    if walk.len() < 14 || answer.len() < 7 {
        return TOO_SHORT;
    }
    let s = nbiot::step_value(buffers::npdsch_walk(walk), anchor, other, Engine::Plain);
    buffers::put_stepped(walk, answer, s)
}

// Forward of NPDCCH.
#[unsafe(no_mangle)]
pub extern "C" fn nbiot_forward_control_plain(
    cell: &[u64],
    anchor: &[u8],
    other: &[u8],
    grant: &[u64],
    p: u64,
    answer: &mut [u64],
) -> u64
    ensures { (result, answer.new)
        ≡ calls.forward_control cell.now anchor.now other.now grant.now
        p answer.old }
{
    if cell.len() < 8 || grant.len() < 4 || answer.len() < 6 {
        return TOO_SHORT;
    }
    let c = buffers::cell_in(cell, 0, 8);
    let g = buffers::npdcch_at(grant, 0);
    let a = nbiot::forward_control_plain(c, anchor, other, g, p);
    buffers::put_downlink_place(answer, a)
}

// One step of its walk.
#[unsafe(no_mangle)]
pub extern "C" fn nbiot_step_control_plain(
    walk: &mut [u64],
    anchor: &[u8],
    other: &[u8],
    answer: &mut [u64],
) -> u64
    ensures { (result, walk.new, answer.new)
        ≡ calls.step_control walk.old anchor.now other.now answer.old }
{
    if walk.len() < 13 || answer.len() < 7 {
        return TOO_SHORT;
    }
    let s = nbiot::step_value(buffers::npdcch_walk(walk), anchor, other, Engine::Plain);
    buffers::put_stepped(walk, answer, s)
}

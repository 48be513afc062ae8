// NPBCH and SIB1, which the anchor broadcasts by itself: forward and backward within a period.
#![tactic(auto)]

ghost use Rattle.std.specs.Prelude.{◌≡◌, ℕ, true, Some, MatchOption, MatchResult, cond, ◌*◌, ◌^◌, ◌<◌, ◌≤◌, ltb};
ghost use Rattle.refusals.specs.declared.Refusal.TheVariants as refusal;
ghost use Rattle.refusals.specs.Refusal.{refused_by};
ghost use Rattle.counting.specs.Counting.{rank};
ghost use Rattle.grid.specs.Grid.{element_of};
ghost use Rattle.sync.specs.Sync.{npbch, sib1_copies, sib1};
ghost use Rattle.sending.specs.Sending.{Content};
ghost use Rattle.sending.specs.Answer.{back_of};
ghost use Rattle.downlink.specs.Fits.{Fits};
ghost use Rattle.downlink.specs.Mapping.{places};
ghost use Rattle.downlink.specs.Cells.{question_refusal};
ghost use Rattle.downlink.specs.Answers.{refused_place, inside_grid};
ghost use Rattle.downlink.specs.Quick.{content_in, told};
ghost use Rattle.broadcast.specs.Channels.{eight_on, npbch_of, sib1_of, sib1_frame};
ghost use Rattle.broadcast.specs.Questions.{carrier_refusal, forward_of, backward_of};
ghost use Rattle.broadcast.specs.Quick.{LiesAt, IsIndex, place_refusal};

use cell::{Cell, CellConfig};
use downlink::{Burst, DownlinkPlace};
use elements::Layout;
use grid::Grid;
use refusals::Refusal;
use sending::Back;

// The subframes after which each repeats: 64 and 256 frames.
const NPBCH_PERIOD: u64 = 640;

const SIB1_PERIOD: u64 = 2560;

// Eight codeword subframes on all subcarriers, from subframe 0 on.
fn burst(layout: Layout, copies: u64, consecutive: u64) -> Burst
    ensures { result ≡ eight_on layout copies consecutive }
{
    Burst {
        layout,
        low: 0,
        width: Grid::SUBCARRIERS,
        from: 0,
        skip: 0,
        codeword: 8,
        copies,
        consecutive,
    }
}

// NPBCH goes out as if there were two narrowband ports, four cell ports and a control region of three symbols.
fn npbch_burst(c: CellConfig) -> Burst
    ensures { result ≡ (npbch_of c).burst }
{
    let layout = Layout {
        v: c.identity % 6,
        nports: 2,
        cports: 4,
        control: 3,
    };
    burst(layout, 8, 8)
}

// The control region of SIB1's subframes: three symbols in-band.
fn sib1_control(mode: u64) -> u64
    ensures { result ≡ cond (ltb mode 2) 3 0 }
{
    if mode < 2 {
        return 3;
    }
    0
}

fn sib1_burst(c: CellConfig) -> Burst
    ensures { result ≡ (sib1_of c).burst }
{
    let control = sib1_control(c.mode);
    let copies = sync::sib1_copies(c.sib1);
    let layout = Layout {
        v: c.identity % 6,
        nports: c.nports,
        cports: c.cports,
        control,
    };
    burst(layout, copies, 1)
}

// The frame of SIB1's i-th subframe.
fn sib1_frame(identity: u64, schedule: u64, i: u64) -> u64
    requires { i < sib1_copies schedule * 8 }
    ensures { result ≡ sib1_frame identity schedule i }
{
    let k = schedule % 3;
    if k == 0 {
        return 16 * (identity % 4) + 64 * (i / 8) + 2 * (i % 8);
    }
    if k == 1 {
        return 16 * (identity % 2) + 32 * (i / 8) + 2 * (i % 8);
    }
    identity % 2 + 16 * (i / 8) + 2 * (i % 8)
}

// How many of SIB1's subframes come before t, which is one of them: eight a copy, in every other frame.
fn sib1_index(identity: u64, schedule: u64, t: u64) -> u64
    requires { (t < 2560) × (sib1 identity schedule t ≡ true) }
    ensures { (result ≡ rank (sib1 identity schedule) t) × (result ≤ 2 ^ 20) }
{
    let frame = t / 10;
    let k = schedule % 3;
    if k == 0 {
        let x = frame - 16 * (identity % 4);
        return 8 * (x / 64) + x % 64 / 2;
    }
    if k == 1 {
        let x = frame - 16 * (identity % 2);
        return 8 * (x / 32) + x % 32 / 2;
    }
    let x = frame - identity % 2;
    8 * (x / 16) + x % 16 / 2
}

// The refusals of a question: the cell's, then 25 for a non-anchor.
fn refusal(c: Cell, anchor: &[u8], other: &[u8]) -> Result<(), Refusal>
    ensures { refused_by result ≡ question_refusal c anchor.now other.now (carrier_refusal c.config) }
{
    cell::accept(c, anchor, other)?;
    if c.config.carrier != 0 {
        return Err(Refusal::NoBroadcast);
    }
    Ok(())
}

// Where a position of a burst lies: the transmitted subframe and the element of it, with the symbol there.
#[derive(Clone, Copy)]
struct Position {
    i: u64,
    x: u64,
    symbol: u64,
}

// The compiler puts this in where it is asked, since the layout of NPBCH is a constant.
#[inline(always)]
fn located(b: Burst, p: u64) -> Result<Position, Refusal>
    requires { Fits b }
    ensures { MatchResult result (LiesAt b p) (λ e. (e ≡ refusal.NoSuchPlace) × (places b ≤ p)) }
{
    let w = downlink::used_elements(b);
    let total = downlink::sent_subframes(b) * w;
    if p >= total {
        return Err(Refusal::NoSuchPlace);
    }
    let i = counting::quotient(p, w);
    let e = p - i * w;
    let unit = downlink::carried_by(b, i);
    Ok(Position {
        i,
        x: elements::element_at(b.layout, b.low, b.width, e),
        symbol: sending::item(unit, w, e),
    })
}

fn placed_npbch(c: Cell, anchor: &[u8], other: &[u8], p: u64) -> Result<DownlinkPlace, Refusal>
    ensures { told refused_place result ≡ forward_of c anchor.now other.now (npbch_of c.config) p }
{
    refusal(c, anchor, other)?;
    let b = npbch_burst(c.config);
    let at = located(b, p)?;
    Ok(downlink::place(10 * at.i, at.x, at.symbol))
}

// The place of position p of NPBCH in its 64 frames, and the symbol there.
pub fn forward_npbch(c: Cell, anchor: &[u8], other: &[u8], p: u64) -> DownlinkPlace
    ensures { result ≡ forward_of c anchor.now other.now (npbch_of c.config) p }
{
    placed_npbch(c, anchor, other, p).unwrap_or_else(downlink::place_refused)
}

fn placed_sib1(c: Cell, anchor: &[u8], other: &[u8], p: u64) -> Result<DownlinkPlace, Refusal>
    ensures { told refused_place result ≡ forward_of c anchor.now other.now (sib1_of c.config) p }
{
    refusal(c, anchor, other)?;
    let b = sib1_burst(c.config);
    let at = located(b, p)?;
    let frame = sib1_frame(c.config.identity, c.config.sib1, at.i);
    Ok(downlink::place(10 * frame + 4, at.x, at.symbol))
}

// The place of position p of SIB1 in its 256 frames, and the symbol there.
pub fn forward_sib1(c: Cell, anchor: &[u8], other: &[u8], p: u64) -> DownlinkPlace
    ensures { result ≡ forward_of c anchor.now other.now (sib1_of c.config) p }
{
    placed_sib1(c, anchor, other, p).unwrap_or_else(downlink::place_refused)
}

// The refusals of a question on a place.
fn place_refusal(
    c: Cell,
    anchor: &[u8],
    other: &[u8],
    slot: u64,
    l: u64,
    k: u64,
) -> Result<(), Refusal>
    ensures { refused_by result
        ≡ place_refusal (question_refusal c anchor.now other.now (carrier_refusal c.config))
        (inside_grid slot l k) }
{
    refusal(c, anchor, other)?;
    if !downlink::is_inside(slot, l, k) {
        return Err(Refusal::NoSuchPlace);
    }
    Ok(())
}

// Which of NPBCH's subframes of a period t is.
fn npbch_found(t: u64) -> Option<u64>
    ensures { IsIndex npbch 640 t result }
{
    let at = t % NPBCH_PERIOD;
    if !sync::is_npbch(at) {
        return None;
    }
    Some(at / 10)
}

// Which of SIB1's subframes of a period t is.
fn sib1_found(identity: u64, schedule: u64, t: u64) -> Option<u64>
    ensures { IsIndex (sib1 identity schedule) 2560 t result }
{
    let at = t % SIB1_PERIOD;
    if !sync::is_sib1(identity, schedule, at) {
        return None;
    }
    Some(sib1_index(identity, schedule, at))
}

// What stands at an element of the i-th subframe of a burst, or of one that is not the burst's.
#[inline(always)]
fn standing(b: Burst, i: Option<u64>, slot: u64, l: u64, k: u64) -> Back
    requires { Fits b × (inside_grid slot l k ≡ true) × ((n : ℕ) → i ≡ Some n → n ≤ 2 ^ 20) }
    ensures { MatchOption i (result ≡ back_of (Content.not_ours 0))
        (λ n. result ≡ back_of (content_in b n (element_of slot l k))) }
{
    match i {
        Some(n) => {
            let x = elements::use_at(b.layout, b.low, b.width, slot, l, k);
            downlink::in_use(b, n, x)
        }
        None => sending::not_ours(0),
    }
}

// What NPBCH has at symbol l and subcarrier k of a slot of subframe t.
pub fn backward_npbch(
    c: Cell,
    anchor: &[u8],
    other: &[u8],
    t: u64,
    slot: u64,
    l: u64,
    k: u64,
) -> Back
    ensures { result
        ≡ backward_of c anchor.now other.now (npbch_of c.config) t slot l k }
{
    match place_refusal(c, anchor, other, slot, l, k) {
        Ok(()) => standing(npbch_burst(c.config), npbch_found(t), slot, l, k),
        Err(refusal) => sending::refused(refusal),
    }
}

// What SIB1 has at symbol l and subcarrier k of a slot of subframe t.
pub fn backward_sib1(
    c: Cell,
    anchor: &[u8],
    other: &[u8],
    t: u64,
    slot: u64,
    l: u64,
    k: u64,
) -> Back
    ensures { result
        ≡ backward_of c anchor.now other.now (sib1_of c.config) t slot l k }
{
    match place_refusal(c, anchor, other, slot, l, k) {
        Ok(()) => {
            let i = sib1_found(c.config.identity, c.config.sib1, t);
            standing(sib1_burst(c.config), i, slot, l, k)
        }
        Err(refusal) => sending::refused(refusal),
    }
}

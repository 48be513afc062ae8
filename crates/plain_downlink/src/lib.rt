// The plain engine's forward, and where its walk ends, of NPDSCH and NPDCCH: one subframe at a time and one element at
// a time, with running counts and none of the quick search. Its time grows with the way it goes.
#![tactic(auto)]

ghost use Rattle.std.specs.Prelude.{Bool, true, false, not, eqb, ◌&&◌, ◌||◌, ◌≡◌, ◌+◌, ◌*◌, ◌%◌, ◌^◌, ◌≤◌, ◌<◌};
ghost use Rattle.counting.specs.Counting.{count, select};
ghost use Rattle.sending.specs.Answer.{place_at};
ghost use Rattle.grid.specs.Grid.{elements};
ghost use Rattle.messages.specs.Messages.{all_periods};
ghost use Rattle.subframes.specs.Subframes.{messages_in};
ghost use Rattle.subframes.specs.Scaffold.{left_in, Laid, Searchable};
ghost use Rattle.cell.specs.Quick.{lent_cell};
ghost use Rattle.elements.specs.Elements.{nrs_on, crs_on, reference, used, count_of, element_at};
ghost use Rattle.elements.specs.Scaffold.{Valid, Part};
ghost use Rattle.downlink.specs.Fits.{Fits};
ghost use Rattle.downlink.specs.Cells.{question_on};
ghost use Rattle.downlink.specs.Quick.{told};
ghost use Rattle.downlink.specs.Mapping.{sending_of};
ghost use Rattle.downlink.specs.Answers.{refused_place, place_of, plan_answer, forward_answer};
ghost use Rattle.npdsch.specs.Questions as npdsch;
ghost use Rattle.npdcch.specs.Questions as npdcch;
ghost use Rattle.plain_downlink.specs.Places.{total_of, total_in};

use cell::{Cause, Cell, CellConfig};
use downlink::{Burst, DownlinkGrant, DownlinkPlace};
use elements::Layout;
use grid::Grid;
use npdcch::NpdcchGrant;
use npdsch::NpdschGrant;
use refusals::Refusal;
use sending::Total;
use spans::Pattern;

// A time after which the usable subframes repeat; at least one in it is usable.
const ALL_PERIODS: u64 = 40960;

// A row is a symbol of a slot.
const ROWS: u64 = Grid::SLOTS * Grid::SYMBOLS;

// Which references a row has: at its near subcarriers, and at its far ones.
#[derive(Clone, Copy)]
struct References {
    near: bool,
    far: bool,
}

// A row by its number, from 0 in a subframe, and the references that it has.
#[derive(Clone, Copy)]
struct Row {
    number: u64,
    references: References,
}

// An element's row and subcarrier.
#[derive(Clone, Copy)]
struct Element {
    row: u64,
    k: u64,
}

// A narrowband reference stands at symbol l of a slot: port 2000 at l = 5 near and at l = 6 far, port 2001 the other
// way round. Near: k mod 6 is v; far: it is (v + 3) mod 6.
fn is_nrs(g: Layout, l: u64, near: bool, far: bool) -> bool
    ensures { result ≡ nrs_on g l near far }
{
    let second = 2 <= g.nports;
    if l == 5 {
        return near | (second & far);
    }
    if l == 6 {
        return far | (second & near);
    }
    false
}

// A cell reference stands there: port 0 at l = 0 near and at l = 4 far, port 1 the other way round, ports 2 and 3 at
// l = 1.
fn is_crs(g: Layout, l: u64, near: bool, far: bool) -> bool
    ensures { result ≡ crs_on g l near far }
{
    let first = 1 <= g.cports;
    let second = 2 <= g.cports;
    if l == 0 {
        return (first & near) | (second & far);
    }
    if l == 4 {
        return (first & far) | (second & near);
    }
    if l == 1 {
        return (4 <= g.cports) & (near | far);
    }
    false
}

// Which references a row has, symbol l of a slot: at its near subcarriers, and at its far ones.
fn references_of(g: Layout, l: u64) -> References
    ensures { (result.near ≡ (nrs_on g l true false || crs_on g l true false))
        × (result.far ≡ (nrs_on g l false true || crs_on g l false true)) }
{
    References {
        near: is_nrs(g, l, true, false) | is_crs(g, l, true, false),
        far: is_nrs(g, l, false, true) | is_crs(g, l, false, true),
    }
}

// A reference of either kind stands at symbol l and subcarrier k of a slot.
fn is_reference(g: Layout, l: u64, k: u64) -> bool
    requires { Valid g }
    ensures { result ≡ reference g l k }
{
    let row = references_of(g, l);
    (row.near && k % 6 == g.v) || (row.far && k % 6 == (g.v + 3) % 6)
}

// Subcarrier k of a row is free: no reference stands there. `near` and `far` are those k mod 6.
fn is_free(row: References, near: u64, far: u64, k: u64) -> bool
    ensures { result ≡ not ((row.near && eqb (k % 6) near) || (row.far && eqb (k % 6) far)) }
{
    !((row.near & (k % 6 == near)) | (row.far & (k % 6 == far)))
}

// How many of `width` subcarriers from `low` on carry no reference at symbol l of a slot.
fn count_in_row(g: Layout, low: u64, width: u64, l: u64) -> u64
    requires { Valid g × Part low width }
    ensures { result ≡ count (λ k. not (reference g l k)) low width }
{
    (low..low + width)
        .filter(|&k| !is_reference(g, l, k))
        .count() as u64
}

// How many elements of a subframe are used: those outside the control region, with no reference, on `width`
// subcarriers from `low` on.
fn count_used(g: Layout, low: u64, width: u64) -> u64
    requires { Valid g × Part low width }
    ensures { (result ≡ count_of g low width) × (0 < result) × (result ≤ elements) }
{
    (g.control..ROWS)
        .map(|row| count_in_row(g, low, width, row % Grid::SYMBOLS))
        .sum()
}

// The e-th used element of a subframe: row by row, along the subcarriers.
fn used_at(g: Layout, low: u64, width: u64, e: u64) -> u64
    requires { Valid g × Part low width × (e < count_of g low width) }
    ensures { result ≡ element_at g low width e }
{
    let end = low + width;
    let far = (g.v + 3) % 6;
    let at = (g.control..ROWS)
        .map(|number| Row {
            number,
            references: references_of(g, number % Grid::SYMBOLS),
        })
        .flat_map(|r| {
            (low..end)
                .filter(move |&k| is_free(r.references, g.v, far, k))
                .map(move |k| Element { row: r.number, k })
        })
        .nth(e as usize)
        .unwrap();
    at.row * Grid::SUBCARRIERS + at.k
}

// No cause stands against subframe t.
fn is_usable(c: CellConfig, si: &[u64], p: Pattern, laid: bool, t: u64) -> bool
    requires { Laid p laid (messages_in si.now) }
    ensures { result ≡ left_in p laid (messages_in si.now) t }
{
    matches!(cell::why(c, si, p, laid, t), Cause::None)
}

// The usable subframe before which exactly k usable ones lie, counting from `from`.
fn usable_at(c: CellConfig, si: &[u64], p: Pattern, laid: bool, from: u64, k: u64) -> u64
    requires { Searchable p laid (messages_in si.now) × (from < 2 ^ 31) × (k ≤ 2 ^ 21) }
    ensures { result ≡ select (left_in p laid (messages_in si.now)) all_periods from k }
{
    (from..from + (k + 1) * ALL_PERIODS)
        .filter(|&t| is_usable(c, si, p, laid, t))
        .nth(k as usize)
        .unwrap()
}

// The place of a position, and the symbol there.
fn burst_forward(
    c: CellConfig,
    si: &[u64],
    p: Pattern,
    laid: bool,
    b: Burst,
    position: u64,
) -> DownlinkPlace
    requires { Searchable p laid (messages_in si.now) × Fits b }
    ensures { result
        ≡ place_at refused_place place_of
        (sending_of (left_in p laid (messages_in si.now)) all_periods b) position }
{
    let w = count_used(b.layout, b.low, b.width);
    let total = downlink::sent_subframes(b) * w;
    if position >= total {
        return downlink::place_refused(Refusal::NoSuchPlace);
    }
    let i = position / w;
    let e = position % w;
    let t = usable_at(c, si, p, laid, b.from, b.skip + i);
    let x = used_at(b.layout, b.low, b.width, e);
    let unit = downlink::carried_by(b, i);
    downlink::place(t, x, sending::item(unit, w, e))
}

// The place of a position of a grant's, and the symbol there; the cell's messages are lent.
fn forwarded<G: DownlinkGrant>(
    c: CellConfig,
    si: &[u64],
    anchor: &[u8],
    other: &[u8],
    g: G,
    p: u64,
) -> Result<DownlinkPlace, Refusal>
    ensures { told refused_place result
        ≡ forward_answer
        (question_on (lent_cell c si.now) anchor.now other.now (G.refusal g) (G.burst_of c g)) p }
{
    let v = cell::judged_lent(c, si, anchor, other)?;
    let b = g.judged(c)?;
    Ok(burst_forward(c, si, v.pattern, v.laid, b, p))
}

fn forward_lent<G: DownlinkGrant>(
    c: CellConfig,
    si: &[u64],
    anchor: &[u8],
    other: &[u8],
    g: G,
    p: u64,
) -> DownlinkPlace
    ensures { result
        ≡ forward_answer
        (question_on (lent_cell c si.now) anchor.now other.now (G.refusal g) (G.burst_of c g)) p }
{
    forwarded(c, si, anchor, other, g, p).unwrap_or_else(downlink::place_refused)
}

// The same on a cell, which lends its messages.
fn forward<G: DownlinkGrant>(c: Cell, anchor: &[u8], other: &[u8], g: G, p: u64) -> DownlinkPlace
    ensures { result
        ≡ forward_answer (question_on c anchor.now other.now (G.refusal g) (G.burst_of c.config g)) p }
{
    let si = subframes::numbers(c.messages);
    forward_lent(c.config, &si, anchor, other, g, p)
}

// How many places a grant has.
fn counted<G: DownlinkGrant>(c: Cell, anchor: &[u8], other: &[u8], g: G) -> Result<u64, Refusal>
    ensures { total_of result
        ≡ total_in
        (plan_answer (question_on c anchor.now other.now (G.refusal g) (G.burst_of c.config g))) }
{
    cell::judged(c, anchor, other)?;
    let b = g.judged(c.config)?;
    Ok(downlink::sent_subframes(b) * count_used(b.layout, b.low, b.width))
}

fn total<G: DownlinkGrant>(c: Cell, anchor: &[u8], other: &[u8], g: G) -> Total
    ensures { result
        ≡ total_in
        (plan_answer (question_on c anchor.now other.now (G.refusal g) (G.burst_of c.config g))) }
{
    match counted(c, anchor, other, g) {
        Ok(places) => Total { no: 0, places },
        Err(refusal) => Total {
            no: refusal.number(),
            places: 0,
        },
    }
}

// Forward of an NPDSCH.
pub fn forward_npdsch(c: Cell, anchor: &[u8], other: &[u8], g: NpdschGrant, p: u64) -> DownlinkPlace
    ensures { result ≡ npdsch.forward_of c anchor.now other.now g p }
{
    forward(c, anchor, other, g, p)
}

// Forward of an NPDCCH.
pub fn forward_npdcch(c: Cell, anchor: &[u8], other: &[u8], g: NpdcchGrant, p: u64) -> DownlinkPlace
    ensures { result ≡ npdcch.forward_of c anchor.now other.now g p }
{
    forward(c, anchor, other, g, p)
}

// The refusal of an NPDSCH, and its places.
pub fn places_npdsch(c: Cell, anchor: &[u8], other: &[u8], g: NpdschGrant) -> Total
    ensures { (result.no ≡ (npdsch.plan_of c anchor.now other.now g).no)
        × (result.places ≡ (npdsch.plan_of c anchor.now other.now g).places) }
{
    total(c, anchor, other, g)
}

// The refusal of an NPDCCH, and its places.
pub fn places_npdcch(c: Cell, anchor: &[u8], other: &[u8], g: NpdcchGrant) -> Total
    ensures { (result.no ≡ (npdcch.plan_of c anchor.now other.now g).no)
        × (result.places ≡ (npdcch.plan_of c anchor.now other.now g).places) }
{
    total(c, anchor, other, g)
}

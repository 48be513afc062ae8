// Which elements of a downlink subframe carry data, counted row by row.
#![tactic(auto)]

ghost use Rattle.std.specs.Prelude.{false, ◌≡◌, ◌+◌, ◌/◌, ◌^◌, ◌<◌, ◌≤◌};
ghost use Rattle.grid.specs.Grid.{subcarriers, symbols, slots, elements, element_of};
ghost use Rattle.counting.specs.Counting.{in_range};
ghost use Rattle.elements.specs.Elements.{ncce_width};
ghost use Rattle.elements.specs.Elements.{control_region, count_of, element_at, number_of};
ghost use Rattle.elements.specs.Scaffold.{kind_number, kind_with, element_use_of, Valid, Part};
ghost use Rattle.elements.specs.Quick.{rows, sums_of, six_before, free_of, six_in_rows, nth_free, nth_in};
ghost use Rattle.elements.specs.Quick.{place_in, reference_kind, SpotOf, RowOf, has_in};

use grid::Grid;
use references::Marks;

// Subcarriers of an NCCE.
pub const NCCE_WIDTH: u64 = 6;

// The layout of a subframe, apart from the cell: identity mod 6, narrowband and cell reference ports, control region.
// No ghost field for Valid: layout_of and the bursts of specs/ build layouts as plain records.
#[derive(Clone, Copy)]
pub struct Layout {
    pub v: u64,
    pub nports: u64,
    pub cports: u64,
    pub control: u64,
}

// The kind of an element: none of the references, a narrowband reference, or a cell reference.
#[derive(Clone, Copy, PartialEq, Eq)]
pub enum ElementKind {
    Plain = 0,
    Narrowband = 1,
    Cell = 2,
}

impl ElementKind {
    // The number that answers carry.
    pub fn number(self) -> u64
        ensures { result ≡ kind_number self }
    {
        self as u64
    }
}

// What an element of a subframe is: used, by its number among the used ones; or not, by its kind.
#[derive(Clone, Copy)]
pub enum ElementUse {
    Used(u64),
    Unused(ElementKind),
}

// A layout, and by bytes l = 0 to 7: how many of six subcarriers carry no reference, in all symbols of a slot before l.
#[derive(Clone, Copy)]
struct Summed {
    layout: Layout,
    sums: u64,
    ghost valid: { Valid layout },
    ghost summed: { sums ≡ sums_of layout.nports layout.cports },
}

// The subcarriers that are used: `width` of them from the first on, one NCCE or both.
#[derive(Clone, Copy)]
struct Ncces {
    from: u64,
    width: u64,
    ghost part: { Part from width },
}

// A row: its slot and symbol; and one of its subcarriers, by how many of six before it carry no reference.
#[derive(Clone, Copy)]
struct Spot {
    slot: u64,
    l: u64,
    rest: u64,
}

// Used subcarriers of a row of all twelve: none where the row is shut, else all but the marks. No Option: has_in, of
// each element of a fill, takes the flag and the marks without a branch.
#[derive(Clone, Copy)]
pub struct Row {
    pub shut: bool,
    pub low: u64,
    pub high: u64,
}

// By bytes: of six subcarriers, how many lie in the symbols of a slot before l = 0 to 7. All of them; one at symbols
// 0 and 4; one at symbol 1; one at symbols 5 and 6.
const ALL: u64 = 0x2a24_1e18_120c_0600;

const AT_0_AND_4: u64 = 0x0202_0201_0101_0100;

const AT_1: u64 = 0x0101_0101_0101_0000;

const AT_5_AND_6: u64 = 0x0201_0000_0000_0000;

// In bytes 1 to 6: 1, and the highest digit.
const ONCE: u64 = 0x0001_0101_0101_0100;

const HIGHEST: u64 = 0x0080_8080_8080_8000;

fn in_control(g: Layout, slot: u64, l: u64) -> bool
    ensures { result ≡ control_region g slot l }
{
    (slot == 0) & (l < g.control)
}

// By bytes: how many of six subcarriers carry no reference, in all symbols of a slot before l = 0 to 7.
#[tactic(auto, unfolding(crate::specs::Quick::sums_of))]
fn sums(g: Layout) -> u64
    requires { Valid g }
    ensures { result ≡ sums_of g.nports g.cports }
{
    let n = g.nports;
    let c = references::taken_at_0(g.cports);
    let d = references::taken_at_1(g.cports);
    ALL - c * AT_0_AND_4 - d * AT_1 - n * AT_5_AND_6
}

impl Ncces {
    fn count(self) -> u64
        ensures { (result ≡ self.width / ncce_width) × (0 < result) × (result ≤ 2) }
    {
        if self.width == NCCE_WIDTH { 1 } else { 2 }
    }

    // e over their number.
    fn share(self, e: u64) -> u64
        ensures { result ≡ e / (self.width / ncce_width) }
    {
        if self.width == NCCE_WIDTH { e } else { e / 2 }
    }

    fn has(self, k: u64) -> bool
        ensures { result ≡ in_range self.from self.width k }
    {
        (self.from <= k) & (k < self.from + self.width)
    }
}

impl Summed {
    // How many of six subcarriers carry no reference, in all symbols of a slot before l.
    fn before(self, l: u64) -> u64
        requires { l ≤ symbols }
        ensures { (result ≡ six_before self.layout.nports self.layout.cports l) × (result < 256) }
    {
        (self.sums >> (8 * l)) % 256
    }

    // How many of six subcarriers of symbol l carry no reference.
    fn free_in(self, l: u64) -> u64
        requires { l < symbols }
        ensures { (result ≡ free_of self.layout.nports self.layout.cports l) × (4 ≤ result) × (result ≤ 6) }
    {
        self.before(l + 1) - self.before(l)
    }

    // The symbol of a slot with the y-th of the subcarriers that are counted: all bytes compared at once, and the
    // passed ones counted.
    fn symbol_with(self, y: u64) -> u64
        requires { y < six_before self.layout.nports self.layout.cports symbols }
        ensures { (result < symbols) × (six_before self.layout.nports self.layout.cports result ≤ y)
            × (y < six_before self.layout.nports self.layout.cports (result + 1)) }
    {
        let passed = ((y * ONCE + HIGHEST - self.sums % (1 << 56)) & HIGHEST) >> 15;
        let two = passed + (passed >> 24);
        (two + (two >> 8) + (two >> 16)) % 8
    }

    // The row with the q-th of the subcarriers that are counted, control region left out, and which one of the row it
    // is.
    fn row_with(self, q: u64) -> Spot
        requires { q < six_in_rows self.layout rows }
        ensures { SpotOf self.layout q result }
    {
        let y = q + self.before(self.layout.control);
        let whole = self.before(Grid::SYMBOLS);
        let slot = u64::from(whole <= y);
        let z = y - whole * slot;
        let l = self.symbol_with(z);
        Spot {
            slot,
            l,
            rest: z - self.before(l),
        }
    }

    // The number of a row's first used element; the row is no control region.
    fn row_start(self, ncces: Ncces, slot: u64, l: u64) -> u64
        requires { (slot < slots) × (l < symbols) × (control_region self.layout slot l ≡ false) }
        ensures { (result ≡ number_of self.layout ncces.from ncces.width (element_of slot l 0)) × (result ≤ elements) }
    {
        let six = slot * self.before(Grid::SYMBOLS) + self.before(l)
            - self.before(self.layout.control);
        ncces.count() * six
    }
}

// E: how many elements are used.
pub fn count(g: Layout, from: u64, width: u64) -> u64
    requires { Valid g × Part from width }
    ensures { result ≡ count_of g from width }
{
    Ncces { from, width }.count() * references::closed_count(g.nports, g.cports, g.control)
}

// The j-th of six subcarriers that carry no reference.
fn nth_free(m: Marks, j: u64) -> u64
    requires { j < 2 ^ 32 }
    ensures { (result ≡ nth_free m j) × (result ≤ j + 2) }
{
    let k = j + u64::from(m.low <= j);
    k + u64::from(m.high <= k)
}

// The subcarrier with the j-th used element of a row; `free` of six are.
fn nth_in(m: Marks, free: u64, from: u64, j: u64) -> u64
    requires { (free ≤ 6) × (from ≤ 6) × (j < 2 ^ 32) }
    ensures { result ≡ nth_in m free from j }
{
    let upper = u64::from(free <= j);
    from + NCCE_WIDTH * upper + nth_free(m, j - free * upper)
}

// The e-th used element.
pub fn element_at(g: Layout, from: u64, width: u64, e: u64) -> u64
    requires { Valid g × Part from width × (e < count_of g from width) }
    ensures { result ≡ element_at g from width e }
{
    let summed = Summed {
        layout: g,
        sums: sums(g),
    };
    let ncces = Ncces { from, width };
    let n = ncces.count();
    let q = ncces.share(e);
    let spot = summed.row_with(q);
    let l = spot.l;
    let free = summed.free_in(l);
    let j = n * spot.rest + (e - n * q);
    let k = nth_in(references::marks_on(g.v, l, 6 - free), free, from, j);
    Grid::element(spot.slot, l, k)
}

// How many used elements of a row come before subcarrier k, number `six` of its six.
fn before_in(m: Marks, free: u64, from: u64, k: u64, six: u64) -> u64
    requires { (free ≤ 6) × (from ≤ 6) × (six < 6) × (3 ≤ m.high) }
    ensures { (result ≡ place_in m free from k six) × (result ≤ 12) }
{
    let past = u64::from(from + NCCE_WIDTH <= k);
    past * free + six - u64::from(m.low < six) - u64::from(m.high < six)
}

// Narrowband references lie on symbols 5 and 6, cell references before.
fn reference_kind(l: u64) -> ElementKind
    ensures { result ≡ kind_with (reference_kind l) }
{
    if l < 5 {
        ElementKind::Cell
    } else {
        ElementKind::Narrowband
    }
}

// An element: used, with its number; or not, with its kind.
pub fn use_at(g: Layout, from: u64, width: u64, slot: u64, l: u64, k: u64) -> ElementUse
    requires { Valid g × Part from width × (slot < slots) × (l < symbols) × (k < subcarriers) }
    ensures { result ≡ element_use_of g from width (element_of slot l k) }
{
    let summed = Summed {
        layout: g,
        sums: sums(g),
    };
    let ncces = Ncces { from, width };
    let free = summed.free_in(l);
    let m = references::marks_on(g.v, l, 6 - free);
    let six = k - NCCE_WIDTH * u64::from(NCCE_WIDTH <= k);
    if (six == m.low) | (six == m.high) {
        return ElementUse::Unused(reference_kind(l));
    }
    if in_control(g, slot, l) | !ncces.has(k) {
        return ElementUse::Unused(ElementKind::Plain);
    }
    let start = summed.row_start(ncces, slot, l);
    ElementUse::Used(start + before_in(m, free, from, k, six))
}

// The used subcarriers of a row of all twelve.
pub fn used_row(g: Layout, slot: u64, l: u64) -> Row
    requires { Valid g × (slot < slots) × (l < symbols) }
    ensures { RowOf g slot l result }
{
    let summed = Summed {
        layout: g,
        sums: sums(g),
    };
    let free = summed.free_in(l);
    let m = references::marks_on(g.v, l, 6 - free);
    Row {
        shut: in_control(g, slot, l),
        low: m.low,
        high: m.high,
    }
}

pub fn has(r: Row, k: u64) -> bool
    ensures { result ≡ has_in r k }
{
    let six = k % NCCE_WIDTH;
    !r.shut & ((six != r.low) & (six != r.high))
}

// NPDSCH on one port: the numbers of one transmitted subframe.
#![tactic(auto)]

ghost use Rattle.std.specs.Prelude.{◌≡◌, ◌++◌, ◌+◌, ◌*◌, ◌^◌, ◌≤◌, ◌<◌, length, take, set};
ghost use Rattle.counting.specs.Counting.{rank, count};
ghost use Rattle.grid.specs.Grid.{subcarriers, slots, slot_elements};
ghost use Rattle.grid.specs.Scaffold.{slot_numbers};
ghost use Rattle.elements.specs.Elements.{used};
ghost use Rattle.elements.specs.Scaffold.{Valid};
ghost use Rattle.elements.specs.Quick.{has_in};
ghost use Rattle.cell.specs.Quick.{lent_cell};
ghost use Rattle.fill.specs.Refusals.{fill_refusal};
ghost use Rattle.fill.specs.Fill.{laid, output_of};
ghost use Rattle.fill.specs.Quick.{written_in_row, written_in};

use cell::{Cell, CellConfig};
use elements::{Layout, Row};
use grid::Grid;
use npdsch::NpdschGrant;
use symbol::Symbol;

const SLOT_NUMBERS: usize = Grid::SLOT_NUMBERS as usize;

// A symbol's two numbers, at twice the place of its element.
fn put(out: &mut [f32], at: u64, s: Symbol)
    requires { 2 * at + 1 < length out.old }
    ensures { out.new ≡ set (set out.old (2 * at) s.re) (2 * at + 1) s.im }
{
    let n = (2 * at) as usize;
    out[n] = s.re;
    out[n + 1] = s.im;
}

// The numbers of one row, from element `start` of a slot on; symbol c is the next to go out. Answers the one after
// the row.
fn write_row(out: &mut [f32], start: u64, row: Row, c: u64, bits: &[u8], four: [Symbol; 4]) -> u64
    requires { (2 * (start + subcarriers) ≤ length out.old) × (length out.old ≡ slot_numbers) × (c < 2 ^ 41)
        × (c + rank (has_in row) subcarriers ≤ 4 * length bits.now) }
    ensures { (result ≡ c + rank (has_in row) subcarriers) × (length out.new ≡ slot_numbers)
        × (take (2 * (start + subcarriers)) out.new
        ≡ take (2 * start) out.old ++ laid (written_in_row row c bits.now four) subcarriers) }
{
    let mut n = c;
    for k in 0..Grid::SUBCARRIERS {
        let ours = elements::has(row, k);
        put(out, start + k, symbol::written(ours, four, bits, n));
        n += ours as u64;
    }
    n
}

// The numbers of one slot, row by row; symbol c is the next to go out. Answers the one after the slot.
fn write_slot(
    out: &mut [f32],
    layout: Layout,
    slot: u64,
    c: u64,
    bits: &[u8],
    four: [Symbol; 4],
) -> u64
    requires { (length out.old ≡ slot_numbers) × (slot < slots) × Valid layout × (c < 2 ^ 40)
        × (c + count (used layout 0 subcarriers) (slot * slot_elements) slot_elements ≤ 4 * length bits.now) }
    ensures { (result ≡ c + count (used layout 0 subcarriers) (slot * slot_elements) slot_elements)
        × (out.new ≡ laid (written_in layout c bits.now four (slot * slot_elements)) slot_elements) }
{
    let mut n = c;
    for l in 0..Grid::SYMBOLS {
        let row = elements::used_row(layout, slot, l);
        n = write_row(out, Grid::SUBCARRIERS * l, row, n, bits, four);
    }
    n
}

// The 336 numbers of transmitted subframe i; answers the refusal number, or 0: a number, since it is C's answer.
pub fn fill_lent(
    c: CellConfig,
    si: &[u64],
    anchor: &[u8],
    other: &[u8],
    g: NpdschGrant,
    i: u64,
    bits: &[u8],
    level: f32,
    out: &mut [f32],
) -> u64
    ensures { (result
        ≡ fill_refusal (lent_cell c si.now) anchor.now other.now
        g i bits.now level out.old)
        × (out.new
        ≡ output_of (lent_cell c si.now) anchor.now other.now
        g i bits.now level out.old) }
{
    let wrong = out.len() as u64 != Grid::NUMBERS;
    match transmitted::judged(c, si, anchor, other, g, i, false, bits, wrong, level) {
        Ok(call) => {
            let layout = transmitted::layout(c, call.v);
            let four = symbol::symbols(level);
            let next = write_slot(&mut out[0..SLOT_NUMBERS], layout, 0, call.first, bits, four);
            write_slot(&mut out[SLOT_NUMBERS..], layout, 1, next, bits, four);
            0
        }
        Err(refusal) => refusal.number(),
    }
}

// The same on a cell, which lends its messages.
pub fn fill(
    c: Cell,
    anchor: &[u8],
    other: &[u8],
    g: NpdschGrant,
    i: u64,
    bits: &[u8],
    level: f32,
    out: &mut [f32],
) -> u64
    ensures { (result
        ≡ fill_refusal c anchor.now other.now g i bits.now level out.old)
        × (out.new
        ≡ output_of c anchor.now other.now g i bits.now level out.old) }
{
    let si = subframes::numbers(c.messages);
    fill_lent(c.config, &si, anchor, other, g, i, bits, level, out)
}

// The elements of a slot: symbol l, subcarrier k. Data elements are counted along the subcarriers, then along the
// symbols.
ghost use Rattle.std.specs.Prelude.{◌≡◌, true, ◌+◌, ◌/◌, ◌^◌, ◌<◌};
ghost use Rattle.counting.specs.Counting.{rank};
ghost use Rattle.grid.specs.Grid.{symbols, uplink_element_of};
ghost use Rattle.uplink.specs.Fits.{Fits};
ghost use Rattle.uplink.specs.Elements.{is_reference, is_granted, is_data_symbol, carries_data, slot_data, number_of};
ghost use Rattle.uplink.specs.Quick.{symbol_of_line, split_of};

use super::{Shape, Split};
use grid::UplinkGrid;

pub fn is_reference(s: Shape, l: u64) -> bool
    requires { Fits s }
    ensures { result ≡ is_reference s l }
{
    (s.reference <= l) & (l < s.reference + s.references)
}

pub fn is_granted(s: Shape, k: u64) -> bool
    requires { Fits s }
    ensures { result ≡ is_granted s k }
{
    (s.tone <= k) & (k < s.tone + s.tones)
}

// How many elements of a slot carry data.
pub fn slot_data(s: Shape) -> u64
    requires { Fits s }
    ensures { (result ≡ slot_data s) × (0 < result) × (result < 2 ^ 19) }
{
    (UplinkGrid::SYMBOLS - s.references) * s.tones
}

// The symbol of a line of data elements.
fn symbol_at(s: Shape, line: u64) -> u64
    requires { Fits s × (line + s.references < symbols) }
    ensures { result ≡ symbol_of_line s line }
{
    if line < s.reference {
        line
    } else {
        line + s.references
    }
}

// Where position p is: lines of `tones` elements, as many a slot as there are symbols with data.
pub fn split(s: Shape, p: u64) -> Split
    requires { Fits s }
    ensures { result ≡ split_of s p }
{
    let tones = s.tones;
    let lines = UplinkGrid::SYMBOLS - s.references;
    let line = p / tones;
    let i = line / lines;
    let l = symbol_at(s, line - i * lines);
    Split {
        i,
        e: p - i * (lines * tones),
        l,
        k: s.tone + (p - line * tones),
    }
}

// How many symbols before l carry data.
fn data_symbols_before(s: Shape, l: u64) -> u64
    requires { Fits s × (is_data_symbol s l ≡ true) }
    ensures { result ≡ rank (is_data_symbol s) l }
{
    if l < s.reference { l } else { l - s.references }
}

// Which data element stands at symbol l and subcarrier k.
pub fn number_of(s: Shape, l: u64, k: u64) -> u64
    requires { Fits s × (k < s.subcarriers) × (carries_data s (uplink_element_of s.subcarriers l k) ≡ true) }
    ensures { (result ≡ number_of s (uplink_element_of s.subcarriers l k)) × (result < slot_data s) }
{
    data_symbols_before(s, l) * s.tones + (k - s.tone)
}

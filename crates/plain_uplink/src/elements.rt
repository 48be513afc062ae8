// The elements of a slot that carry data, one at a time: symbol by symbol, along the granted tones.
ghost use Rattle.std.specs.Prelude.{◌≡◌, ◌^◌, ◌<◌};
ghost use Rattle.grid.specs.Grid.{uplink_symbol_of, uplink_subcarrier_of};
ghost use Rattle.uplink.specs.Fits.{Fits};
ghost use Rattle.uplink.specs.Elements.{slot_data, element_at};

use grid::UplinkGrid;
use uplink::Shape;

// An element's symbol and subcarrier.
#[derive(Clone, Copy)]
pub struct Element {
    pub l: u64,
    pub k: u64,
}

// How many elements of a slot carry data.
pub fn slot_data(s: Shape) -> u64
    requires { Fits s }
    ensures { (result ≡ slot_data s) × (0 < result) × (result < 2 ^ 19) }
{
    let past = s.tone + s.tones;
    (0..UplinkGrid::SYMBOLS)
        .filter(|&l| !uplink::is_reference(s, l))
        .flat_map(|l| (s.tone..past).map(move |k| Element { l, k }))
        .count() as u64
}

// The e-th element that carries data.
pub fn nth(s: Shape, e: u64) -> Element
    requires { Fits s × (e < slot_data s) }
    ensures { (result.l ≡ uplink_symbol_of s.subcarriers (element_at s e))
        × (result.k ≡ uplink_subcarrier_of s.subcarriers (element_at s e)) }
{
    let past = s.tone + s.tones;
    (0..UplinkGrid::SYMBOLS)
        .filter(|&l| !uplink::is_reference(s, l))
        .flat_map(|l| (s.tone..past).map(move |k| Element { l, k }))
        .nth(e as usize)
        .unwrap()
}

// The grids' sizes and element numbers, and the constant tables.
#![tactic(auto)]

ghost use Rattle.std.specs.Prelude.{◌≡◌, ◌<◌, ◌≤◌};
ghost use Rattle.grid.specs.Grid.{subcarriers, symbols, slots, elements, element_of, slot_of, symbol_of};
ghost use Rattle.grid.specs.Grid.{subcarrier_of, uplink_subcarriers};

mod tables;

pub use tables::{
    downlink_copies, downlink_delay, is_repetition, length, single_tone_order, single_tone_row,
    size, up_to_four, uplink_copies, uplink_delay,
};

// The last subframe that a grant may name.
pub const LAST_SUBFRAME: u64 = 0x3fff_ffff;

// The downlink grid of one subframe.
#[derive(Clone, Copy)]
pub struct Grid;

impl Grid {
    pub const SUBCARRIERS: u64 = 12;

    pub const SYMBOLS: u64 = 7;

    pub const SLOTS: u64 = 2;

    pub const SLOT_ELEMENTS: u64 = Self::SYMBOLS * Self::SUBCARRIERS;

    pub const ELEMENTS: u64 = Self::SLOTS * Self::SLOT_ELEMENTS;

    // Real and imaginary numbers of a slot and of a subframe.
    pub const SLOT_NUMBERS: u64 = 2 * Self::SLOT_ELEMENTS;

    pub const NUMBERS: u64 = 2 * Self::ELEMENTS;

    // The number of an element, by slot, then symbol, then subcarrier.
    pub fn element(slot: u64, l: u64, k: u64) -> u64
        requires { (slot < slots) × (l < symbols) × (k < subcarriers) }
        ensures { (result ≡ element_of slot l k) × (result < elements) }
    {
        (slot * Self::SYMBOLS + l) * Self::SUBCARRIERS + k
    }

    // An element's slot, symbol and subcarrier.
    pub fn slot(x: u64) -> u64
        ensures { result ≡ slot_of x }
    {
        x / Self::SLOT_ELEMENTS
    }

    pub fn symbol(x: u64) -> u64
        ensures { result ≡ symbol_of x }
    {
        x / Self::SUBCARRIERS % Self::SYMBOLS
    }

    pub fn subcarrier(x: u64) -> u64
        ensures { result ≡ subcarrier_of x }
    {
        x % Self::SUBCARRIERS
    }
}

// The uplink grid of one slot.
#[derive(Clone, Copy)]
pub struct UplinkGrid;

impl UplinkGrid {
    pub const SUBCARRIERS_3_75: u64 = 48;

    pub const SUBCARRIERS_15: u64 = 12;

    pub const SYMBOLS: u64 = 7;

    pub fn subcarriers(spacing: u64) -> u64
        ensures { (result ≡ uplink_subcarriers spacing) × (result ≤ 48) }
    {
        if spacing == 0 {
            Self::SUBCARRIERS_3_75
        } else {
            Self::SUBCARRIERS_15
        }
    }
}

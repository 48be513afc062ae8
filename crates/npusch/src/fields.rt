// What an uplink grant's fields name.
ghost use Rattle.std.specs.Prelude.{◌≡◌, ◌+◌, ◌*◌, ◌^◌, ◌<◌, ◌≤◌};
ghost use Rattle.grid.specs.Tables.{entry, lengths, uplink_delays};
ghost use Rattle.numerology.specs.Numerology.{first_after};
ghost use Rattle.npusch.specs.Fields.{tones_of, first_tone, unit_slots, consecutive_of, reference_of, block_size};
ghost use Rattle.npusch.specs.Fields.{order_of};
ghost use Rattle.npusch.specs.Scaffold.{tone_fields};
ghost use Rattle.npusch.specs.Quick.{first_field};

use grid::UplinkGrid;

const THREE_TONES: u64 = 12;

const SIX_TONES: u64 = 16;

const ALL_TONES: u64 = 18;

// How many subcarrier fields name tones.
pub fn tone_fields(spacing: u64) -> u64
    ensures { result ≡ tone_fields spacing }
{
    numerology::by_spacing(spacing, 48, 19)
}

// How many tones the subcarrier field names, and the first of them.
#[tactic(auto, unfolding(crate::specs::Fields::tones_of))]
pub fn tones(spacing: u64, field: u64) -> u64
    ensures { result ≡ tones_of spacing field }
{
    let subcarriers = UplinkGrid::subcarriers(spacing);
    if field < subcarriers {
        1
    } else if field < SIX_TONES {
        3
    } else if field < ALL_TONES {
        6
    } else {
        subcarriers
    }
}

pub fn first_tone(spacing: u64, field: u64) -> u64
    requires { (spacing ≤ 1) × (field < tone_fields spacing) }
    ensures { result ≡ first_tone spacing field }
{
    let from = first_field(spacing, field);
    tones(spacing, field) * (field - from)
}

// The first field that names as many tones.
#[tactic(auto, unfolding(crate::specs::Quick::first_field))]
fn first_field(spacing: u64, field: u64) -> u64
    ensures { result ≡ first_field spacing field }
{
    if field < UplinkGrid::subcarriers(spacing) {
        0
    } else if field < SIX_TONES {
        THREE_TONES
    } else if field < ALL_TONES {
        SIX_TONES
    } else {
        ALL_TONES
    }
}

// The slot that a grant first names.
pub fn start(spacing: u64, n: u64, delay: u64) -> u64
    requires { (n < 2 ^ 31) × (delay < 4) }
    ensures { result ≡ first_after spacing (n + entry uplink_delays delay) }
{
    numerology::first_after(spacing, n + grid::uplink_delay(delay))
}

// Slots of a resource unit.
#[tactic(auto, unfolding(crate::specs::Fields::unit_slots))]
fn unit_slots(tones: u64) -> u64
    ensures { (result ≡ unit_slots tones) × (result ≤ 16) }
{
    match tones {
        1 => 16,
        3 => 8,
        6 => 4,
        _ => 2,
    }
}

// Slots of the codeword.
pub fn codeword(tones: u64, units: u64) -> u64
    requires { units < 8 }
    ensures { result ≡ entry lengths units * unit_slots tones }
{
    grid::length(units) * unit_slots(tones)
}

// How often a group of slots goes out in a row.
#[tactic(auto, unfolding(crate::specs::Fields::consecutive_of))]
pub fn consecutive(tones: u64, copies: u64) -> u64
    requires { copies < 2 ^ 16 }
    ensures { result ≡ consecutive_of tones copies }
{
    let half = (copies + 1) / 2;
    match tones {
        1 => 1,
        _ => grid::up_to_four(half),
    }
}

// The reference symbol.
pub fn reference(spacing: u64) -> u64
    ensures { result ≡ reference_of spacing }
{
    numerology::by_spacing(spacing, 4, 3)
}

// The size of the transport block, and the modulation order.
#[tactic(auto, unfolding(crate::specs::Fields::block_size))]
pub fn block_size(tones: u64, mcs: u64, units: u64) -> u64
    requires { (mcs < 5) × (units < 8) }
    ensures { result ≡ block_size tones mcs units }
{
    let row = if tones == 1 {
        grid::single_tone_row(mcs)
    } else {
        mcs
    };
    grid::size(row, units)
}

#[tactic(auto, unfolding(crate::specs::Fields::order_of))]
pub fn order(tones: u64, mcs: u64) -> u64
    requires { mcs < 5 }
    ensures { result ≡ order_of tones mcs }
{
    if tones == 1 {
        grid::single_tone_order(mcs)
    } else {
        2
    }
}

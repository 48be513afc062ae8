// The constant tables of 01, and what stands in them.
ghost use Rattle.std.specs.Prelude.{◌≡◌, ◌<◌};
ghost use Rattle.grid.specs.Tables.{entry, lengths, downlink_copies, downlink_delay, uplink_copies, uplink_delays};
ghost use Rattle.grid.specs.Tables.{size_of, single_tone_rows, single_tone_orders, up_to_four, is_repetition};

const LENGTHS: [u8; 8] = [1, 2, 3, 4, 5, 6, 8, 10];

const DOWNLINK_COPIES: [u16; 16] = [
    1, 2, 4, 8, 16, 32, 64, 128, 192, 256, 384, 512, 768, 1024, 1536, 2048,
];

const SHORT_DELAYS: [u8; 8] = [0, 4, 8, 12, 16, 32, 64, 128];

const LONG_DELAYS: [u16; 8] = [0, 16, 32, 64, 128, 256, 512, 1024];

const UPLINK_COPIES: [u8; 8] = [1, 2, 4, 8, 16, 32, 64, 128];

const UPLINK_DELAYS: [u8; 4] = [8, 16, 32, 64];

const SIZES: [[u16; 8]; 5] = [
    [16, 32, 56, 88, 120, 152, 208, 256],
    [24, 56, 88, 144, 176, 208, 256, 344],
    [32, 72, 144, 176, 208, 256, 328, 424],
    [40, 104, 176, 208, 256, 328, 440, 568],
    [56, 120, 208, 256, 328, 408, 552, 680],
];

const SINGLE_TONE_ROWS: [u8; 5] = [0, 2, 1, 3, 4];

const SINGLE_TONE_ORDERS: [u8; 5] = [1, 1, 2, 2, 2];

// Subframes of an NPDSCH, resource units of an NPUSCH.
pub fn length(field: u64) -> u64
    requires { field < 8 }
    ensures { result ≡ entry lengths field }
{
    u64::from(LENGTHS[field as usize])
}

pub fn downlink_copies(field: u64) -> u64
    requires { field < 16 }
    ensures { result ≡ entry downlink_copies field }
{
    u64::from(DOWNLINK_COPIES[field as usize])
}

// The delay in usable subframes.
#[tactic(auto, unfolding(crate::specs::Tables::downlink_delay))]
pub fn downlink_delay(rmax: u64, field: u64) -> u64
    requires { field < 8 }
    ensures { result ≡ downlink_delay rmax field }
{
    if rmax < 128 {
        u64::from(SHORT_DELAYS[field as usize])
    } else {
        u64::from(LONG_DELAYS[field as usize])
    }
}

pub fn uplink_copies(field: u64) -> u64
    requires { field < 8 }
    ensures { result ≡ entry uplink_copies field }
{
    u64::from(UPLINK_COPIES[field as usize])
}

// The delay in subframes.
pub fn uplink_delay(field: u64) -> u64
    requires { field < 4 }
    ensures { result ≡ entry uplink_delays field }
{
    u64::from(UPLINK_DELAYS[field as usize])
}

// The size of a transport block.
pub fn size(row: u64, units: u64) -> u64
    requires { (row < 5) × (units < 8) }
    ensures { result ≡ size_of row units }
{
    u64::from(SIZES[row as usize][units as usize])
}

pub fn single_tone_row(mcs: u64) -> u64
    requires { mcs < 5 }
    ensures { result ≡ entry single_tone_rows mcs }
{
    u64::from(SINGLE_TONE_ROWS[mcs as usize])
}

pub fn single_tone_order(mcs: u64) -> u64
    requires { mcs < 5 }
    ensures { result ≡ entry single_tone_orders mcs }
{
    u64::from(SINGLE_TONE_ORDERS[mcs as usize])
}

pub fn up_to_four(x: u64) -> u64
    ensures { result ≡ up_to_four x }
{
    x.min(4)
}

// A power of two, 1 to 2048.
pub fn is_repetition(x: u64) -> bool
    ensures { result ≡ is_repetition x }
{
    x <= 2048 && x.is_power_of_two()
}

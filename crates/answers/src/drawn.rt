// The words over and under what is drawn: a transmitted subframe or slot, and a grant's frames.
ghost use Rattle.std.specs.Prelude.{◌≡◌, ◌≤◌, ◌+◌, ◌++◌, OnOk, IsOk, length, string_bytes, string_capacity};
ghost use Rattle.answers.specs.Drawn.{place_text, subframe_text, slot_text, unit_text, tones_text};
ghost use Rattle.answers.specs.Drawn.{slot_columns_text, more_text};

use crate::value::write_value;
use std::alloc::AllocError;

const FRAMES: u64 = 1024;

// A transmitted subframe or slot: its number, the subframe in which it begins; that it is number i of those sent; the
// codeword subframe or slot that it carries.
#[derive(Clone, Copy)]
pub struct Shown {
    pub unit: u64,
    pub subframe: u64,
    pub i: u64,
    pub sent: u64,
    pub codeword: u64,
}

// The frame of the subframe, its number in it, and which of those sent it is.
#[tactic(auto, using(crate::proofs::Room::rooms), unfolding(crate::specs::Drawn::place_text))]
fn write_place(x: Shown, out: &mut String) -> Result<(), AllocError>
    ensures text { OnOk result (string_bytes out.new ≡ string_bytes out.old ++ place_text x) }
    ensures room { OnOk result (length (string_bytes out.new) ≤ length (string_bytes out.old) + 160) }
    ensures succeeds { length (string_bytes out.old) + 160 ≤ string_capacity out.old → IsOk result }
    ensures capacity { string_capacity out.old ≤ string_capacity out.new }
{
    let frame = x.subframe / 10 % FRAMES;
    let within = x.subframe % 10;
    write_value("frame ", frame, out)?;
    write_value(", subframe ", within, out)?;
    write_value(" of it, i=", x.i, out)?;
    write_value(" of ", x.sent, out)?;
    out.push_str(" transmitted, codeword ")
}

// The title of a subframe, the legend and the columns.
pub fn write_subframe(x: Shown, out: &mut String) -> Result<(), AllocError>
    ensures text { OnOk result (string_bytes out.new ≡ string_bytes out.old ++ subframe_text x) }
    ensures room { OnOk result (length (string_bytes out.new) ≤ length (string_bytes out.old) + 384) }
    ensures succeeds { length (string_bytes out.old) + 384 ≤ string_capacity out.old → IsOk result }
    ensures capacity { string_capacity out.old ≤ string_capacity out.new }
{
    write_value("subframe ", x.unit, out)?;
    out.push_str(": ")?;
    write_place(x, out)?;
    write_value("subframe ", x.codeword, out)?;
    out.push_str(
        "
o ours, N narrowband reference, C cell reference, # control region, . anything else
     slot 0  slot 1
   l 0123456 0123456
",
    )
}

// The title of a slot, up to its codeword slot.
pub fn write_slot(x: Shown, out: &mut String) -> Result<(), AllocError>
    ensures text { OnOk result (string_bytes out.new ≡ string_bytes out.old ++ slot_text x) }
    ensures room { OnOk result (length (string_bytes out.new) ≤ length (string_bytes out.old) + 256) }
    ensures succeeds { length (string_bytes out.old) + 256 ≤ string_capacity out.old → IsOk result }
    ensures capacity { string_capacity out.old ≤ string_capacity out.new }
{
    write_value("slot ", x.unit, out)?;
    write_value(": from subframe ", x.subframe, out)?;
    out.push_str(", ")?;
    write_place(x, out)?;
    write_value("slot ", x.codeword, out)
}

// The resource unit of a slot's title.
pub fn write_unit(unit: u64, out: &mut String) -> Result<(), AllocError>
    ensures text { OnOk result (string_bytes out.new ≡ string_bytes out.old ++ unit_text unit) }
    ensures room { OnOk result (length (string_bytes out.new) ≤ length (string_bytes out.old) + 64) }
    ensures succeeds { length (string_bytes out.old) + 64 ≤ string_capacity out.old → IsOk result }
    ensures capacity { string_capacity out.old ≤ string_capacity out.new }
{
    write_value(", resource unit ", unit, out)
}

// The granted tones, the last words of a slot's title.
pub fn write_tones(first: u64, last: u64, out: &mut String) -> Result<(), AllocError>
    ensures text { OnOk result (string_bytes out.new ≡ string_bytes out.old ++ tones_text first last) }
    ensures room { OnOk result (length (string_bytes out.new) ≤ length (string_bytes out.old) + 64) }
    ensures succeeds { length (string_bytes out.old) + 64 ≤ string_capacity out.old → IsOk result }
    ensures capacity { string_capacity out.old ≤ string_capacity out.new }
{
    write_value(", tones ", first, out)?;
    write_value(" to ", last, out)?;
    out.push_str("\n")
}

// The legend of a slot, and its columns.
pub fn write_slot_columns(slot: u64, out: &mut String) -> Result<(), AllocError>
    ensures text { OnOk result (string_bytes out.new ≡ string_bytes out.old ++ slot_columns_text slot) }
    ensures room { OnOk result (length (string_bytes out.new) ≤ length (string_bytes out.old) + 128) }
    ensures succeeds { length (string_bytes out.old) + 128 ≤ string_capacity out.old → IsOk result }
    ensures capacity { string_capacity out.old ≤ string_capacity out.new }
{
    write_value(
        "o data, R reference, . tone not granted\n     slot ",
        slot,
        out,
    )?;
    out.push_str("\n   l 0123456\n")
}

// How many frames are past the last row.
pub fn write_more(frames: u64, out: &mut String) -> Result<(), AllocError>
    ensures text { OnOk result (string_bytes out.new ≡ string_bytes out.old ++ more_text frames) }
    ensures room { OnOk result (length (string_bytes out.new) ≤ length (string_bytes out.old) + 64) }
    ensures succeeds { length (string_bytes out.old) + 64 ≤ string_capacity out.old → IsOk result }
    ensures capacity { string_capacity out.old ≤ string_capacity out.new }
{
    write_value("more frames: ", frames, out)?;
    out.push_str("\n")
}

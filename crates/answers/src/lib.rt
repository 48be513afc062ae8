// The answers' lines, written to a text.
#![tactic(auto, using(crate::proofs::Room::rooms))]

ghost use Rattle.std.specs.Prelude.{◌≡◌, ◌≤◌, ◌+◌, ◌*◌, [], ◌∷◌, ◌++◌, OnOk, IsOk, codes, length};
ghost use Rattle.std.specs.Prelude.{string_bytes, string_capacity};
ghost use Rattle.answers.specs.Line.{hex_of, values_then, plan_then, place_then};
ghost use Rattle.answers.specs.Answers.{fault_text, cell_text, bitmap_text, downlink_plan_text, uplink_plan_text};
ghost use Rattle.answers.specs.Answers.{downlink_place_text, uplink_place_text, cause_text, count_text, back_then};
ghost use Rattle.answers.specs.Answers.{candidates_text, search_text, downlink_back_text, skipped_text, unlisted_text};
ghost use Rattle.answers.specs.Answers.{uplink_step_text, downlink_step_text, element_text, fill_text};
ghost use Rattle.answers.specs.Words.{cause_word, fault_word};

use crate::hex::{write_byte, write_patterns, write_word};
use crate::value::{write_number, write_value};
use cell::{Cause, CauseAnswer, ElementCount};
use downlink::{DownlinkBack, DownlinkPlace, DownlinkPlan};
use questions::Fault;
use search_space::{Candidate, SearchAnswer};
use sending::Back;
use std::alloc::AllocError;
use symbol::ElementNumbers;
use uplink::{UplinkPlace, UplinkPlan};
use walk::WalkPlace;

mod drawn;
mod hex;
#[cfg(test)]
mod tests;
mod told;
mod value;

pub use drawn::{
    Shown, write_more, write_slot, write_slot_columns, write_subframe, write_tones, write_unit,
};
pub use told::{write_help, write_meaning};
pub use value::write_aligned;

fn fault_word(fault: Fault) -> &'static str
    ensures word { result.now ≡ fault_word fault }
    ensures room { length result.now ≤ 16 }
{
    match fault {
        Fault::Long => "long",
        Fault::Question => "question",
        Fault::Kind => "kind",
        Fault::Value => "value",
        Fault::Name => "name",
        Fault::Number => "number",
        Fault::Hex => "hex",
        Fault::Size => "size",
    }
}

fn cause_word(cause: Cause) -> &'static str
    ensures word { result.now ≡ cause_word cause }
    ensures room { length result.now ≤ 7 }
{
    match cause {
        Cause::None => "none",
        Cause::Npbch => "npbch",
        Cause::Npss => "npss",
        Cause::Nsss => "nsss",
        Cause::Sib1 => "sib1",
        Cause::Message => "message",
        Cause::Bitmap => "bitmap",
    }
}

// A fault, by the numbers of its line and its word.
pub fn write_fault(fault: Fault, line: u64, word: usize, out: &mut String) -> Result<(), AllocError>
    ensures text { OnOk result (string_bytes out.new ≡ string_bytes out.old ++ fault_text fault line word) }
    ensures room { OnOk result (length (string_bytes out.new) ≤ length (string_bytes out.old) + 320) }
    ensures succeeds { length (string_bytes out.old) + 320 ≤ string_capacity out.old → IsOk result }
    ensures capacity { string_capacity out.old ≤ string_capacity out.new }
{
    out.push_str("error=")?;
    out.push_str(fault_word(fault))?;
    write_value(" line=", line, out)?;
    write_value(" word=", word as u64, out)?;
    out.push_str("\n")
}

pub fn write_cell(no: u64, out: &mut String) -> Result<(), AllocError>
    ensures text { OnOk result (string_bytes out.new ≡ string_bytes out.old ++ cell_text no) }
    ensures room { OnOk result (length (string_bytes out.new) ≤ length (string_bytes out.old) + 320) }
    ensures succeeds { length (string_bytes out.old) + 320 ≤ string_capacity out.old → IsOk result }
    ensures capacity { string_capacity out.old ≤ string_capacity out.new }
{
    write_value("no=", no, out)?;
    out.push_str("\n")
}

// Bytes in hex, a minus for none.
fn write_hex(bytes: &[u8], out: &mut String) -> Result<(), AllocError>
    ensures text { OnOk result (string_bytes out.new ≡ string_bytes out.old ++ hex_of bytes.now) }
    ensures room { OnOk result
        (length (string_bytes out.new) ≤ length (string_bytes out.old) + (length bytes.now * 2 + 1)) }
    ensures succeeds { length (string_bytes out.old) + (length bytes.now * 2 + 1) ≤ string_capacity out.old
        → IsOk result }
    ensures capacity { string_capacity out.old ≤ string_capacity out.new }
{
    if bytes.is_empty() {
        return out.push_str("-");
    }
    for b in bytes {
        write_byte(*b, out)?;
    }
    Ok(())
}

pub fn write_bitmap(no: u64, part: &[u8], out: &mut String) -> Result<(), AllocError>
    ensures text { OnOk result (string_bytes out.new ≡ string_bytes out.old ++ bitmap_text no part.now) }
    ensures room { length part.now ≤ 64 →
        OnOk result (length (string_bytes out.new) ≤ length (string_bytes out.old) + 320) }
    ensures succeeds { length part.now ≤ 64 →
        length (string_bytes out.old) + 320 ≤ string_capacity out.old → IsOk result }
    ensures capacity { string_capacity out.old ≤ string_capacity out.new }
{
    write_value("no=", no, out)?;
    out.push_str(" part=")?;
    write_hex(part, out)?;
    out.push_str("\n")
}

// What each plan's line begins with.
fn write_plan(
    no: u64,
    first: u64,
    last: u64,
    copies: u64,
    places: u64,
    out: &mut String,
) -> Result<(), AllocError>
    ensures text { OnOk result
        (string_bytes out.new ≡ string_bytes out.old ++ plan_then no first last copies places []) }
    ensures room { OnOk result (length (string_bytes out.new) ≤ length (string_bytes out.old) + 192) }
    ensures succeeds { length (string_bytes out.old) + 192 ≤ string_capacity out.old → IsOk result }
    ensures capacity { string_capacity out.old ≤ string_capacity out.new }
{
    write_value("no=", no, out)?;
    write_value(" first=", first, out)?;
    write_value(" last=", last, out)?;
    write_value(" copies=", copies, out)?;
    write_value(" places=", places, out)
}

pub fn write_downlink_plan(x: DownlinkPlan, out: &mut String) -> Result<(), AllocError>
    ensures text { OnOk result (string_bytes out.new ≡ string_bytes out.old ++ downlink_plan_text x) }
    ensures room { OnOk result (length (string_bytes out.new) ≤ length (string_bytes out.old) + 320) }
    ensures succeeds { length (string_bytes out.old) + 320 ≤ string_capacity out.old → IsOk result }
    ensures capacity { string_capacity out.old ≤ string_capacity out.new }
{
    let DownlinkPlan {
        no,
        first,
        last,
        copies,
        places,
    } = x;
    write_plan(no, first, last, copies, places, out)?;
    out.push_str("\n")
}

pub fn write_uplink_plan(x: UplinkPlan, out: &mut String) -> Result<(), AllocError>
    ensures text { OnOk result (string_bytes out.new ≡ string_bytes out.old ++ uplink_plan_text x) }
    ensures room { OnOk result (length (string_bytes out.new) ≤ length (string_bytes out.old) + 320) }
    ensures succeeds { length (string_bytes out.old) + 320 ≤ string_capacity out.old → IsOk result }
    ensures capacity { string_capacity out.old ≤ string_capacity out.new }
{
    let UplinkPlan {
        no,
        first,
        last,
        copies,
        places,
        size,
        order,
    } = x;
    write_plan(no, first, last, copies, places, out)?;
    write_value(" size=", size, out)?;
    write_value(" order=", order, out)?;
    out.push_str("\n")
}

// What each place's line ends with.
fn write_element_place(
    slot: u64,
    l: u64,
    k: u64,
    symbol: u64,
    out: &mut String,
) -> Result<(), AllocError>
    ensures text { OnOk result
        (string_bytes out.new ≡ string_bytes out.old ++ place_then slot l k symbol (codes "\n")) }
    ensures room { OnOk result (length (string_bytes out.new) ≤ length (string_bytes out.old) + 128) }
    ensures succeeds { length (string_bytes out.old) + 128 ≤ string_capacity out.old → IsOk result }
    ensures capacity { string_capacity out.old ≤ string_capacity out.new }
{
    write_value(" slot=", slot, out)?;
    write_value(" l=", l, out)?;
    write_value(" k=", k, out)?;
    write_value(" symbol=", symbol, out)?;
    out.push_str("\n")
}

pub fn write_downlink_place(x: DownlinkPlace, out: &mut String) -> Result<(), AllocError>
    ensures text { OnOk result (string_bytes out.new ≡ string_bytes out.old ++ downlink_place_text x) }
    ensures room { OnOk result (length (string_bytes out.new) ≤ length (string_bytes out.old) + 320) }
    ensures succeeds { length (string_bytes out.old) + 320 ≤ string_capacity out.old → IsOk result }
    ensures capacity { string_capacity out.old ≤ string_capacity out.new }
{
    let DownlinkPlace {
        no,
        t,
        slot,
        l,
        k,
        symbol,
    } = x;
    write_value("no=", no, out)?;
    write_value(" t=", t, out)?;
    write_element_place(slot, l, k, symbol, out)
}

pub fn write_uplink_place(x: UplinkPlace, out: &mut String) -> Result<(), AllocError>
    ensures text { OnOk result (string_bytes out.new ≡ string_bytes out.old ++ uplink_place_text x) }
    ensures room { OnOk result (length (string_bytes out.new) ≤ length (string_bytes out.old) + 320) }
    ensures succeeds { length (string_bytes out.old) + 320 ≤ string_capacity out.old → IsOk result }
    ensures capacity { string_capacity out.old ≤ string_capacity out.new }
{
    let UplinkPlace {
        no,
        slot,
        l,
        k,
        symbol,
    } = x;
    write_value("no=", no, out)?;
    write_element_place(slot, l, k, symbol, out)
}

pub fn write_cause(x: CauseAnswer, out: &mut String) -> Result<(), AllocError>
    ensures text { OnOk result (string_bytes out.new ≡ string_bytes out.old ++ cause_text x) }
    ensures room { OnOk result (length (string_bytes out.new) ≤ length (string_bytes out.old) + 320) }
    ensures succeeds { length (string_bytes out.old) + 320 ≤ string_capacity out.old → IsOk result }
    ensures capacity { string_capacity out.old ≤ string_capacity out.new }
{
    let CauseAnswer { no, cause } = x;
    write_value("no=", no, out)?;
    out.push_str(" cause=")?;
    out.push_str(cause_word(cause))?;
    out.push_str("\n")
}

pub fn write_count(x: ElementCount, out: &mut String) -> Result<(), AllocError>
    ensures text { OnOk result (string_bytes out.new ≡ string_bytes out.old ++ count_text x) }
    ensures room { OnOk result (length (string_bytes out.new) ≤ length (string_bytes out.old) + 320) }
    ensures succeeds { length (string_bytes out.old) + 320 ≤ string_capacity out.old → IsOk result }
    ensures capacity { string_capacity out.old ≤ string_capacity out.new }
{
    let ElementCount { no, e } = x;
    write_value("no=", no, out)?;
    write_value(" e=", e, out)?;
    out.push_str("\n")
}

// The candidates before the count.
fn write_candidates(x: SearchAnswer, out: &mut String) -> Result<(), AllocError>
    ensures text { OnOk result (string_bytes out.new ≡ string_bytes out.old ++ candidates_text x) }
    ensures room { OnOk result (length (string_bytes out.new) ≤ length (string_bytes out.old) + 1440) }
    ensures succeeds { length (string_bytes out.old) + 1440 ≤ string_capacity out.old → IsOk result }
    ensures capacity { string_capacity out.old ≤ string_capacity out.new }
{
    let listed = x.list.len().min(x.count as usize);
    for candidate in &x.list[..listed] {
        let Candidate { first, r, last } = *candidate;
        out.push(' ')?;
        write_number(first, out)?;
        out.push(',')?;
        write_number(r, out)?;
        out.push(',')?;
        write_number(last, out)?;
    }
    Ok(())
}

pub fn write_search(x: SearchAnswer, out: &mut String) -> Result<(), AllocError>
    ensures text { OnOk result (string_bytes out.new ≡ string_bytes out.old ++ search_text x) }
    ensures room { OnOk result (length (string_bytes out.new) ≤ length (string_bytes out.old) + 2048) }
    ensures succeeds { length (string_bytes out.old) + 2048 ≤ string_capacity out.old → IsOk result }
    ensures capacity { string_capacity out.old ≤ string_capacity out.new }
{
    write_value("no=", x.no, out)?;
    write_value(" start=", x.start, out)?;
    write_value(" count=", x.count, out)?;
    write_candidates(x, out)?;
    out.push_str("\n")
}

fn write_back_values(x: Back, out: &mut String) -> Result<(), AllocError>
    ensures text { OnOk result (string_bytes out.new ≡ string_bytes out.old ++ back_then x []) }
    ensures room { OnOk result (length (string_bytes out.new) ≤ length (string_bytes out.old) + 160) }
    ensures succeeds { length (string_bytes out.old) + 160 ≤ string_capacity out.old → IsOk result }
    ensures capacity { string_capacity out.old ≤ string_capacity out.new }
{
    let Back {
        no,
        ours,
        symbol,
        position,
        kind,
    } = x;
    write_value("no=", no, out)?;
    write_value(" ours=", ours, out)?;
    write_value(" symbol=", symbol, out)?;
    write_value(" p=", position, out)?;
    write_value(" kind=", kind, out)
}

pub fn write_back(x: Back, out: &mut String) -> Result<(), AllocError>
    ensures text { OnOk result (string_bytes out.new ≡ string_bytes out.old ++ back_then x (codes "\n")) }
    ensures room { OnOk result (length (string_bytes out.new) ≤ length (string_bytes out.old) + 320) }
    ensures succeeds { length (string_bytes out.old) + 320 ≤ string_capacity out.old → IsOk result }
    ensures capacity { string_capacity out.old ≤ string_capacity out.new }
{
    write_back_values(x, out)?;
    out.push_str("\n")
}

pub fn write_downlink_back(x: DownlinkBack, out: &mut String) -> Result<(), AllocError>
    ensures text { OnOk result (string_bytes out.new ≡ string_bytes out.old ++ downlink_back_text x) }
    ensures room { OnOk result (length (string_bytes out.new) ≤ length (string_bytes out.old) + 320) }
    ensures succeeds { length (string_bytes out.old) + 320 ≤ string_capacity out.old → IsOk result }
    ensures capacity { string_capacity out.old ≤ string_capacity out.new }
{
    let DownlinkBack { back, cause } = x;
    write_back_values(back, out)?;
    out.push_str(" cause=")?;
    out.push_str(cause_word(cause))?;
    out.push_str("\n")
}

// A skipped subframe of a picture's last line, and why.
pub fn write_skipped(
    is_first: bool,
    t: u64,
    cause: Cause,
    out: &mut String,
) -> Result<(), AllocError>
    ensures text { OnOk result (string_bytes out.new ≡ string_bytes out.old ++ skipped_text is_first t cause) }
    ensures room { OnOk result (length (string_bytes out.new) ≤ length (string_bytes out.old) + 32) }
    ensures succeeds { length (string_bytes out.old) + 32 ≤ string_capacity out.old → IsOk result }
    ensures capacity { string_capacity out.old ≤ string_capacity out.new }
{
    let comma = if is_first { "" } else { "," };
    out.push_str(comma)?;
    write_value(" ", t, out)?;
    out.push_str(" ")?;
    out.push_str(cause_word(cause))
}

// How many more were skipped than are listed.
pub fn write_unlisted(n: u64, out: &mut String) -> Result<(), AllocError>
    ensures text { OnOk result (string_bytes out.new ≡ string_bytes out.old ++ unlisted_text n) }
    ensures room { OnOk result (length (string_bytes out.new) ≤ length (string_bytes out.old) + 64) }
    ensures succeeds { length (string_bytes out.old) + 64 ≤ string_capacity out.old → IsOk result }
    ensures capacity { string_capacity out.old ≤ string_capacity out.new }
{
    write_value(" and ", n, out)?;
    out.push_str(" more\n")
}

// What each step's line ends with.
fn write_step_place(
    slot: u64,
    l: u64,
    k: u64,
    symbol: u64,
    p: u64,
    out: &mut String,
) -> Result<(), AllocError>
    ensures text { OnOk result (string_bytes out.new
        ≡ string_bytes out.old ++ place_then slot l k symbol (values_then ((codes " p=", p) ∷ []) (codes "\n"))) }
    ensures room { OnOk result (length (string_bytes out.new) ≤ length (string_bytes out.old) + 160) }
    ensures succeeds { length (string_bytes out.old) + 160 ≤ string_capacity out.old → IsOk result }
    ensures capacity { string_capacity out.old ≤ string_capacity out.new }
{
    write_value(" slot=", slot, out)?;
    write_value(" l=", l, out)?;
    write_value(" k=", k, out)?;
    write_value(" symbol=", symbol, out)?;
    write_value(" p=", p, out)?;
    out.push_str("\n")
}

pub fn write_uplink_step(x: WalkPlace, p: u64, out: &mut String) -> Result<(), AllocError>
    ensures text { OnOk result (string_bytes out.new ≡ string_bytes out.old ++ uplink_step_text x p) }
    ensures room { OnOk result (length (string_bytes out.new) ≤ length (string_bytes out.old) + 320) }
    ensures succeeds { length (string_bytes out.old) + 320 ≤ string_capacity out.old → IsOk result }
    ensures capacity { string_capacity out.old ≤ string_capacity out.new }
{
    let WalkPlace {
        no,
        finished,
        slot,
        l,
        k,
        symbol,
        ..
    } = x;
    write_value("no=", no, out)?;
    write_value(" finished=", finished, out)?;
    write_step_place(slot, l, k, symbol, p, out)
}

pub fn write_downlink_step(x: WalkPlace, p: u64, out: &mut String) -> Result<(), AllocError>
    ensures text { OnOk result (string_bytes out.new ≡ string_bytes out.old ++ downlink_step_text x p) }
    ensures room { OnOk result (length (string_bytes out.new) ≤ length (string_bytes out.old) + 320) }
    ensures succeeds { length (string_bytes out.old) + 320 ≤ string_capacity out.old → IsOk result }
    ensures capacity { string_capacity out.old ≤ string_capacity out.new }
{
    let WalkPlace {
        no,
        finished,
        t,
        slot,
        l,
        k,
        symbol,
    } = x;
    write_value("no=", no, out)?;
    write_value(" finished=", finished, out)?;
    write_value(" t=", t, out)?;
    write_step_place(slot, l, k, symbol, p, out)
}

pub fn write_element(x: ElementNumbers, out: &mut String) -> Result<(), AllocError>
    ensures text { OnOk result (string_bytes out.new ≡ string_bytes out.old ++ element_text x) }
    ensures room { OnOk result (length (string_bytes out.new) ≤ length (string_bytes out.old) + 320) }
    ensures succeeds { length (string_bytes out.old) + 320 ≤ string_capacity out.old → IsOk result }
    ensures capacity { string_capacity out.old ≤ string_capacity out.new }
{
    let re = text::pattern_of(x.re);
    let im = text::pattern_of(x.im);
    write_value("no=", x.no, out)?;
    write_value(" case=", x.state, out)?;
    out.push_str(" re=")?;
    write_word(re, out)?;
    out.push_str(" im=")?;
    write_word(im, out)?;
    out.push_str("\n")
}

// The patterns of a fill's numbers.
pub fn write_fill(no: u64, numbers: &[f32], out: &mut String) -> Result<(), AllocError>
    ensures text { OnOk result (string_bytes out.new ≡ string_bytes out.old ++ fill_text no numbers.now) }
    ensures room { length numbers.now ≤ 1024 →
        OnOk result (length (string_bytes out.new) ≤ length (string_bytes out.old) + 16384) }
    ensures succeeds { length numbers.now ≤ 1024 →
        length (string_bytes out.old) + 16384 ≤ string_capacity out.old → IsOk result }
    ensures capacity { string_capacity out.old ≤ string_capacity out.new }
{
    write_value("no=", no, out)?;
    write_patterns(numbers, out)?;
    out.push_str("\n")
}

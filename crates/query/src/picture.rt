// A picture of one transmitted subframe or slot, drawn from what backward answers at each place of it, and the
// subframes skipped after it.
ghost use Rattle.std.specs.Prelude.{◌≡◌, ◌+◌, ◌<◌, ◌≤◌, length, string_bytes, string_capacity, OnOk, IsOk};

use crate::asked::{Asked, Place};
use answers::Shown;
use downlink::DownlinkPlace;
use questions::Kind;
use sending::Back;
use std::alloc::AllocError;
use walk::Engine;

// So many of the skipped subframes are listed.
const LISTED: u64 = 200;

// What a grant sends, a channel in its period: so many places, and in each subframe or slot so many of them.
#[derive(Clone, Copy)]
struct Sent {
    places: u64,
    width: u64,
}

impl Sent {
    // How many subframes or slots before so many places.
    fn units(self, places: u64) -> u64 {
        places.checked_div(self.width).unwrap_or(0)
    }

    // The first position of transmitted subframe or slot i; past all places where it is not sent.
    fn first_position(self, i: u64) -> u64 {
        if i < self.units(self.places) {
            i.saturating_mul(self.width)
        } else {
            u64::MAX
        }
    }
}

// How many slots a resource unit of NPUSCH has, by the places of ours in a slot.
pub fn slots_in_unit(width: u64) -> u64
    ensures { 1 ≤ result }
{
    match width / 6 {
        1 => 16,
        3 => 8,
        6 => 4,
        _ => 2,
    }
}

fn mark(b: Back, reference: char, in_control: bool) -> char
    requires { reference < 128 }
    ensures { result < 128 }
{
    match (b.ours, b.kind) {
        (1, _) => 'o',
        (_, 1) => reference,
        (_, 2) => 'C',
        _ => { if in_control { '#' } else { '.' } }
    }
}

// The end of the line of skipped subframes: how many are not listed.
fn put_end(skipped: u64, out: &mut String) -> Result<(), AllocError>
    ensures room { OnOk result (length (string_bytes out.new) ≤ length (string_bytes out.old) + 64) }
    ensures succeeds { length (string_bytes out.old) + 64 ≤ string_capacity out.old → IsOk result }
    ensures capacity { string_capacity out.old ≤ string_capacity out.new }
{
    if skipped == 0 {
        out.push_str(" none\n")
    } else if skipped <= LISTED {
        out.push_str("\n")
    } else {
        answers::write_unlisted(skipped - LISTED, out)
    }
}

impl<'a> Asked<'a> {
    // The control region of the subframe that is drawn; a slot of the uplink has none.
    fn drawn_control(self) -> u64 {
        match self.kind {
            Kind::Up | Kind::Ack => 0,
            Kind::Npbch => 3,
            Kind::Sib1 => self.values.sib1_control(),
            Kind::Down | Kind::Control => self.values.control_region(),
        }
    }

    // The signs of one subcarrier in a slot.
    fn put_signs(self, t: u64, slot: u64, k: u64, out: &mut String) -> Result<(), AllocError>
        ensures signs { OnOk result (length (string_bytes out.new) ≡ length (string_bytes out.old) + 7) }
        ensures succeeds { length (string_bytes out.old) + 7 ≤ string_capacity out.old → IsOk result }
        ensures capacity { string_capacity out.old ≤ string_capacity out.new }
    {
        let reference = if self.kind.is_uplink() { 'R' } else { 'N' };
        let control = self.drawn_control();
        for l in 0..7 {
            let b = self.standing(Place { t, slot, l, k });
            out.push(mark(b, reference, slot == 0 && l < control))?;
        }
        Ok(())
    }

    // One subcarrier: its number, and its signs, first slot first.
    fn put_row(self, t: u64, k: u64, out: &mut String) -> Result<(), AllocError>
        ensures room { OnOk result (length (string_bytes out.new) ≤ length (string_bytes out.old) + 40) }
        ensures succeeds { length (string_bytes out.old) + 40 ≤ string_capacity out.old → IsOk result }
        ensures capacity { string_capacity out.old ≤ string_capacity out.new }
    {
        let slots = if self.kind.is_uplink() { 1 } else { 2 };
        out.push_str("k ")?;
        answers::write_aligned(k, 2, out)?;
        for slot in 0..slots {
            out.push(' ')?;
            self.put_signs(t, slot, k, out)?;
        }
        out.push_str("\n")
    }

    // How many subcarriers the grid has.
    fn subcarriers(self) -> u64
        ensures { result ≤ 48 }
    {
        if self.kind.is_uplink() && !self.values.is_15_khz() {
            48
        } else {
            12
        }
    }

    // The rows, the highest subcarrier on top.
    fn put_rows(self, t: u64, out: &mut String) -> Result<(), AllocError>
        ensures room { OnOk result (length (string_bytes out.new) ≤ length (string_bytes out.old) + 1920) }
        ensures succeeds { length (string_bytes out.old) + 1920 ≤ string_capacity out.old → IsOk result }
        ensures capacity { string_capacity out.old ≤ string_capacity out.new }
    {
        for k in (0..self.subcarriers()).rev() {
            self.put_row(t, k, out)?;
        }
        Ok(())
    }

    // The last subframe before the next one that is sent after t, number i; t itself where none is.
    fn last_skipped(self, sent: Sent, t: u64) -> u64 {
        let next = self.values.i.saturating_add(1);
        let place = self.forward(Engine::Quick, sent.first_position(next));
        place.t.saturating_sub(1).max(t)
    }

    // The subframes after t up to the last, each with its cause, as far as they are listed.
    fn put_skips(self, t: u64, last: u64, out: &mut String) -> Result<(), AllocError>
        ensures room { OnOk result (length (string_bytes out.new) ≤ length (string_bytes out.old) + 6408) }
        ensures succeeds { length (string_bytes out.old) + 6408 ≤ string_capacity out.old → IsOk result }
        ensures capacity { string_capacity out.old ≤ string_capacity out.new }
    {
        let v = self.values;
        let c = v.cell();
        out.push_str("skipped:")?;
        for before in t..last.min(t.saturating_add(LISTED)) {
            let now = before + 1;
            let x = nbiot::cause(c, &v.anchor, &v.other, now);
            answers::write_skipped(before == t, now, x.cause, out)?;
        }
        Ok(())
    }

    // What stands at place x of a subframe or slot.
    fn standing_at(self, t: u64, x: u64) -> Back {
        let place = if self.kind.is_uplink() {
            Place {
                t,
                slot: 0,
                l: x / 48,
                k: x % 48,
            }
        } else {
            Place {
                t,
                slot: x / 84,
                l: x / 12 % 7,
                k: x % 12,
            }
        };
        self.standing(place)
    }

    // How many places of ours stand in the transmitted subframe or slot t.
    pub fn places_in(self, t: u64) -> u64
        ensures { result ≤ 336 }
    {
        let mut places = 0;
        for x in 0..336 {
            if self.standing_at(t, x).ours == 1 {
                places += 1;
            }
        }
        places
    }

    // How many places a grant has, a channel in its period: it sends 32, 64 or 128 subframes of width places.
    fn places_of(self, width: u64) -> u64
        requires { width ≤ 336 }
    {
        if !self.kind.is_broadcast() {
            return self.plan().places;
        }
        if self.forward(Engine::Quick, 32 * width).no != 0 {
            return 32 * width;
        }
        if self.forward(Engine::Quick, 64 * width).no != 0 {
            return 64 * width;
        }
        128 * width
    }

    // The subframe in which a subframe or slot begins.
    fn begun_in(self, t: u64) -> u64 {
        if !self.kind.is_uplink() {
            t
        } else if self.values.is_15_khz() {
            t / 2
        } else {
            t.saturating_mul(2)
        }
    }

    // The last granted tone, by the first: all symbols of a slot carry data but the references, one of NPUSCH format 1,
    // three of format 2.
    fn last_tone(self, width: u64, first: u64) -> u64 {
        let tones = if self.kind == Kind::Up {
            width / 6
        } else {
            width / 4
        };
        first.saturating_add(tones.saturating_sub(1))
    }

    // A slot, whose first granted tone is named.
    fn put_slot(self, x: Shown, width: u64, tone: u64, out: &mut String) -> Result<(), AllocError>
        ensures room { OnOk result (length (string_bytes out.new) ≤ length (string_bytes out.old) + 8192) }
        ensures succeeds { length (string_bytes out.old) + 8192 ≤ string_capacity out.old → IsOk result }
        ensures capacity { string_capacity out.old ≤ string_capacity out.new }
    {
        answers::write_slot(x, out)?;
        if self.kind == Kind::Up {
            answers::write_unit(x.codeword / slots_in_unit(width), out)?;
        }
        answers::write_tones(tone, self.last_tone(width, tone), out)?;
        answers::write_slot_columns(x.unit, out)?;
        self.put_rows(x.unit, out)
    }

    // A subframe, and what is skipped after it by a grant.
    fn put_subframe(self, x: Shown, sent: Sent, out: &mut String) -> Result<(), AllocError>
        ensures room { OnOk result (length (string_bytes out.new) ≤ length (string_bytes out.old) + 12288) }
        ensures succeeds { length (string_bytes out.old) + 12288 ≤ string_capacity out.old → IsOk result }
        ensures capacity { string_capacity out.old ≤ string_capacity out.new }
    {
        answers::write_subframe(x, out)?;
        self.put_rows(x.unit, out)?;
        if self.kind.is_broadcast() {
            return Ok(());
        }
        let last = self.last_skipped(sent, x.unit);
        self.put_skips(x.unit, last, out)?;
        put_end(last.saturating_sub(x.unit), out)
    }

    // The subframe or slot at a place, its first.
    fn put_shown(self, sent: Sent, place: DownlinkPlace, out: &mut String) -> Result<(), AllocError>
        ensures room { OnOk result (length (string_bytes out.new) ≤ length (string_bytes out.old) + 12288) }
        ensures succeeds { length (string_bytes out.old) + 12288 ≤ string_capacity out.old → IsOk result }
        ensures capacity { string_capacity out.old ≤ string_capacity out.new }
    {
        let x = Shown {
            unit: place.t,
            subframe: self.begun_in(place.t),
            i: self.values.i,
            sent: sent.units(sent.places),
            codeword: sent.units(place.symbol),
        };
        if self.kind.is_uplink() {
            self.put_slot(x, sent.width, place.k, out)
        } else {
            self.put_subframe(x, sent, out)
        }
    }
}

// A picture of transmitted subframe or slot i.
pub fn put_picture(asked: Asked, out: &mut String) -> Result<(), AllocError>
    ensures room { OnOk result (length (string_bytes out.new) ≤ length (string_bytes out.old) + 16384) }
    ensures succeeds { length (string_bytes out.old) + 16384 ≤ string_capacity out.old → IsOk result }
    ensures capacity { string_capacity out.old ≤ string_capacity out.new }
{
    let first = asked.forward(Engine::Quick, 0);
    let width = asked.places_in(first.t);
    let places = asked.places_of(width);
    let sent = Sent { places, width };
    let place = asked.forward(Engine::Quick, sent.first_position(asked.values.i));
    answers::write_cell(place.no, out)?;
    if place.no != 0 {
        return Ok(());
    }
    asked.put_shown(sent, place, out)
}

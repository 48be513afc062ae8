// A timeline of a grant: a row for each frame, drawn from what backward answers at one place of each subframe or slot.
ghost use Rattle.std.specs.Prelude.{◌+◌, ◌^◌, ◌≤◌, ◌<◌, length, string_bytes, string_capacity, OnOk, IsOk};

use crate::asked::{Asked, Place};
use crate::picture;
use cell::Cause;
use questions::Kind;
use std::alloc::AllocError;
use walk::Engine;

// So many frames are drawn.
const ROWS: u64 = 64;

const FRAMES: u64 = 1024;

// More frames than any grant reaches.
const NO_FRAME: u64 = 0x1_0000_0000;

// What a sign stands for: a subframe, a slot at 15 kHz, or one at 3.75 kHz.
#[derive(Clone, Copy)]
enum Unit {
    Subframe,
    Slot,
    LongSlot,
}

impl Unit {
    // How many a frame has.
    fn in_frame(self) -> u64
        ensures { (1 ≤ result) × (result ≤ 20) }
    {
        match self {
            Unit::Subframe => 10,
            Unit::Slot => 20,
            Unit::LongSlot => 5,
        }
    }

    // The first of a frame.
    fn first_of(self, frame: u64) -> u64
        requires { frame < 2 ^ 33 }
        ensures { result < 2 ^ 40 }
    {
        match self {
            Unit::Subframe => frame * 10,
            Unit::Slot => frame * 20,
            Unit::LongSlot => frame * 5,
        }
    }

    // The frame in which one begins.
    fn frame_of(self, t: u64) -> u64
        ensures { result < 2 ^ 32 }
    {
        t / self.in_frame() % NO_FRAME
    }

    fn columns(self) -> &'static str
        ensures { length result.now ≤ 64 }
    {
        match self {
            Unit::Subframe => "         t frame 0123456789\n",
            Unit::Slot => "      slot frame 0 1 2 3 4 5 6 7 8 9\n",
            Unit::LongSlot => "      slot frame 02468\n",
        }
    }
}

// The first and the last that is sent; the place of the first symbol in the first; how many symbols each carries, and
// how many codeword subframes or slots one number stands for; the slot from which an uplink grant's gaps are counted.
#[derive(Clone, Copy)]
struct Course<'a> {
    asked: Asked<'a>,
    unit: Unit,
    first: u64,
    last: u64,
    place: Place,
    width: u64,
    part: u64,
    named: u64,
}

fn cause_sign(cause: Cause) -> char
    ensures { result < 128 }
{
    match cause {
        Cause::None => '.',
        Cause::Npbch => 'B',
        Cause::Npss => 'P',
        Cause::Nsss => 'S',
        Cause::Sib1 => 'I',
        Cause::Message => 'M',
        Cause::Bitmap => 'x',
    }
}

impl<'a> Asked<'a> {
    fn unit(self) -> Unit {
        if !self.kind.is_uplink() {
            Unit::Subframe
        } else if self.values.is_15_khz() {
            Unit::Slot
        } else {
            Unit::LongSlot
        }
    }

    // How many codeword subframes or slots one number stands for: of NPUSCH those of a resource unit.
    fn part(self, width: u64) -> u64
        ensures { 1 ≤ result }
    {
        if self.kind == Kind::Up {
            picture::slots_in_unit(width)
        } else {
            1
        }
    }

    fn course(self, first: u64, last: u64) -> Course<'a> {
        let x = self.forward(Engine::Quick, 0);
        let width = self.places_in(first);
        Course {
            asked: self,
            unit: self.unit(),
            first,
            last,
            place: Place {
                t: first,
                slot: x.slot,
                l: x.l,
                k: x.k,
            },
            width,
            part: self.part(width),
            named: self.first_named(),
        }
    }

    fn legend(self) -> &'static str
        ensures { length result.now ≤ 512 }
    {
        match self.kind {
            Kind::Up => {
                "0 to 9 resource unit, G gap, W random access window, . before the first or after the last
slot is the row's first slot, over the signs is the subframe of the frame in which each begins
"
            }
            Kind::Ack => {
                "0 to 3 codeword slot, G gap, W random access window, . before the first or after the last
slot is the row's first slot, over the signs is the subframe of the frame in which each begins
"
            }
            _ => {
                "0 to 9 codeword subframe, B NPBCH, P NPSS, S NSSS, I SIB1, M message, x bitmap, \
. before the first or after the last
t is the row's first subframe, over the signs is the subframe of the frame
"
            }
        }
    }
}

impl<'a> Course<'a> {
    // A slot that is not sent: in the 40 ms after each 256 ms from the slot first named, else in a window.
    fn postponed_sign(self, slot: u64) -> char
        ensures { result < 128 }
    {
        let Some(since) = slot.checked_sub(self.named) else {
            return 'W';
        };
        let is_gap = if self.asked.values.is_15_khz() {
            since % 592 >= 512
        } else {
            since % 148 >= 128
        };
        if is_gap { 'G' } else { 'W' }
    }

    // Why a subframe or slot between the first and the last is not sent.
    fn skipped_sign(self, t: u64) -> char
        ensures { result < 128 }
    {
        if self.asked.kind.is_uplink() {
            return self.postponed_sign(t);
        }
        let v = self.asked.values;
        cause_sign(nbiot::cause(v.cell(), &v.anchor, &v.other, t).cause)
    }

    fn sign(self, t: u64) -> char
        ensures { result < 128 }
    {
        if t < self.first || t > self.last {
            return '.';
        }
        let b = self.asked.standing(Place { t, ..self.place });
        if b.ours != 1 {
            return self.skipped_sign(t);
        }
        let codeword = b.symbol.checked_div(self.width).unwrap_or(0);
        let number = codeword.checked_div(self.part).unwrap_or(0);
        char::from(b'0' + (number % 10) as u8)
    }

    // The row of a frame, counted from subframe 0.
    fn put_row(self, frame: u64, out: &mut String) -> Result<(), AllocError>
        requires { frame < 2 ^ 33 }
        ensures room { OnOk result (length (string_bytes out.new) ≤ length (string_bytes out.old) + 64) }
        ensures succeeds { length (string_bytes out.old) + 64 ≤ string_capacity out.old → IsOk result }
        ensures capacity { string_capacity out.old ≤ string_capacity out.new }
    {
        let t = self.unit.first_of(frame);
        answers::write_aligned(t, 10, out)?;
        out.push(' ')?;
        answers::write_aligned(frame % FRAMES, 5, out)?;
        out.push(' ')?;
        for i in 0..self.unit.in_frame() {
            out.push(self.sign(t + i))?;
        }
        out.push_str("\n")
    }

    // A row for each frame from the first to the last, as far as they are drawn, and how many are past these.
    fn put_frames(self, out: &mut String) -> Result<(), AllocError>
        ensures room { OnOk result (length (string_bytes out.new) ≤ length (string_bytes out.old) + 4160) }
        ensures succeeds { length (string_bytes out.old) + 4160 ≤ string_capacity out.old → IsOk result }
        ensures capacity { string_capacity out.old ≤ string_capacity out.new }
    {
        let first = self.unit.frame_of(self.first);
        let frames = (self.unit.frame_of(self.last) + 1).saturating_sub(first);
        for frame in first..first + frames.min(ROWS) {
            self.put_row(frame, out)?;
        }
        if frames <= ROWS {
            return Ok(());
        }
        answers::write_more(frames - ROWS, out)
    }
}

pub fn put_timeline(asked: Asked, out: &mut String) -> Result<(), AllocError>
    ensures room { OnOk result (length (string_bytes out.new) ≤ length (string_bytes out.old) + 16384) }
    ensures succeeds { length (string_bytes out.old) + 16384 ≤ string_capacity out.old → IsOk result }
    ensures capacity { string_capacity out.old ≤ string_capacity out.new }
{
    let x = asked.plan();
    answers::write_cell(x.no, out)?;
    if x.no != 0 {
        return Ok(());
    }
    let course = asked.course(x.first, x.last);
    out.push_str(course.unit.columns())?;
    course.put_frames(out)?;
    out.push_str(asked.legend())
}

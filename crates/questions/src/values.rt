// The values kept from line to line, by their names.
use crate::question::Kind;
use cell::{Cell, CellConfig};
use harq_ack::HarqAckGrant;
use messages::{Messages, Schedule};
use npdcch::NpdcchGrant;
use npdsch::NpdschGrant;
use nprach::{Window, Windows};
use npusch::NpuschGrant;
use search_space::SearchSpace;
use text::Buffer;
use walk::{Engine, Grant, Walk};

const LARGEST_ROOM: u64 = 1024;

const LARGEST_ENGINE: u64 = 1;

// The most bytes of a bitmap, and of the data of a fill.
const BITMAP_BYTES: usize = 64;

const DATA_BYTES: usize = 1024;

const NO_SCHEDULE: Schedule = Schedule {
    period: 0,
    every: 0,
    size: 0,
};

const NO_WINDOW: Window = Window {
    period: 0,
    start: 0,
    length: 0,
    tone: 0,
};

#[derive(Clone, Copy)]
pub struct Values {
    pub mode: u64,
    pub carrier: u64,
    pub identity: u64,
    pub nports: u64,
    pub cports: u64,
    pub control: u64,
    pub sib1: u64,
    pub bits: u64,
    pub anchor: Buffer<BITMAP_BYTES>,
    pub other: Buffer<BITMAP_BYTES>,
    pub siwindow: u64,
    pub sioffset: u64,
    pub message_count: u64,
    pub schedules: [Schedule; 4],
    pub n: u64,
    pub delay: u64,
    pub rmax: u64,
    pub subframes: u64,
    pub copies: u64,
    pub r: u64,
    pub format: u64,
    pub ncce: u64,
    pub spacing: u64,
    pub subcarrier: u64,
    pub units: u64,
    pub mcs: u64,
    pub field: u64,
    pub window_count: u64,
    pub windows: [Window; 4],
    pub g: u64,
    pub alpha: u64,
    pub p: u64,
    pub t: u64,
    pub slot: u64,
    pub l: u64,
    pub k: u64,
    pub i: u64,
    pub engine: u64,
    // The bit pattern of an f32.
    pub level: u32,
    pub data: Buffer<DATA_BYTES>,
    pub room: u64,
    pub no: u64,
}

// Where the value of a name is kept, and how large it may be.
#[derive(Drop)]
pub(crate) enum Place<'a> {
    Number(&'a mut u64),
    Limited(&'a mut u64, u64),
    Pattern(&'a mut u32),
    Bitmap(&'a mut Buffer<BITMAP_BYTES>),
    Bytes(&'a mut Buffer<DATA_BYTES>),
    Window(&'a mut Window),
    Schedule(&'a mut Schedule),
}

impl Values {
    ghost use Rattle.std.specs.Prelude.{◌≡◌, ◌<◌, ◌↔◌, IsTrue, cond, eqb, ltb};
    ghost use Rattle.std.specs.Float.{binary32};
    ghost use Rattle.std.specs.Float.Ieee.{of_bits};
    ghost use Rattle.walk.specs.declared.Engine.TheVariants.{Quick, Plain};
    ghost use Rattle.questions.specs.Values.{IsStart, cell_of, npdsch_of, npdcch_of, search_space_of, npusch_of};
    ghost use Rattle.questions.specs.Values.{harq_ack_of, windows_of, walk_of};

    // All 0 or empty, but the room and the messages' window.
    pub fn new() -> Values
        ensures { IsStart result }
    {
        Values {
            mode: 0,
            carrier: 0,
            identity: 0,
            nports: 0,
            cports: 0,
            control: 0,
            sib1: 0,
            bits: 0,
            anchor: Buffer::new(),
            other: Buffer::new(),
            siwindow: 160,
            sioffset: 0,
            message_count: 0,
            schedules: [NO_SCHEDULE; 4],
            n: 0,
            delay: 0,
            rmax: 0,
            subframes: 0,
            copies: 0,
            r: 0,
            format: 0,
            ncce: 0,
            spacing: 0,
            subcarrier: 0,
            units: 0,
            mcs: 0,
            field: 0,
            window_count: 0,
            windows: [NO_WINDOW; 4],
            g: 0,
            alpha: 0,
            p: 0,
            t: 0,
            slot: 0,
            l: 0,
            k: 0,
            i: 0,
            engine: 0,
            level: 0,
            data: Buffer::new(),
            room: 336,
            no: 0,
        }
    }

    // Where a value is kept: one of the cell, else one of the grants and of search, else one of what is asked.
    pub(crate) fn place(&mut self, name: &[u8]) -> Option<Place<'_>> {
        let place = match name {
            b"mode" => Place::Number(&mut self.mode),
            b"carrier" => Place::Number(&mut self.carrier),
            b"identity" => Place::Number(&mut self.identity),
            b"nports" => Place::Number(&mut self.nports),
            b"cports" => Place::Number(&mut self.cports),
            b"control" => Place::Number(&mut self.control),
            b"sib1" => Place::Number(&mut self.sib1),
            b"bits" => Place::Number(&mut self.bits),
            b"anchor" => Place::Bitmap(&mut self.anchor),
            b"other" => Place::Bitmap(&mut self.other),
            b"siwindow" => Place::Number(&mut self.siwindow),
            b"sioffset" => Place::Number(&mut self.sioffset),
            b"messages" => Place::Number(&mut self.message_count),
            b"m1" => Place::Schedule(&mut self.schedules[0]),
            b"m2" => Place::Schedule(&mut self.schedules[1]),
            b"m3" => Place::Schedule(&mut self.schedules[2]),
            b"m4" => Place::Schedule(&mut self.schedules[3]),
            _ => return self.grant_place(name),
        };
        Some(place)
    }

    fn grant_place(&mut self, name: &[u8]) -> Option<Place<'_>> {
        let place = match name {
            b"n" => Place::Number(&mut self.n),
            b"delay" => Place::Number(&mut self.delay),
            b"rmax" => Place::Number(&mut self.rmax),
            b"subframes" => Place::Number(&mut self.subframes),
            b"copies" => Place::Number(&mut self.copies),
            b"r" => Place::Number(&mut self.r),
            b"format" => Place::Number(&mut self.format),
            b"ncce" => Place::Number(&mut self.ncce),
            b"spacing" => Place::Number(&mut self.spacing),
            b"subcarrier" => Place::Number(&mut self.subcarrier),
            b"units" => Place::Number(&mut self.units),
            b"mcs" => Place::Number(&mut self.mcs),
            b"field" => Place::Number(&mut self.field),
            b"windows" => Place::Number(&mut self.window_count),
            b"w1" => Place::Window(&mut self.windows[0]),
            b"w2" => Place::Window(&mut self.windows[1]),
            b"w3" => Place::Window(&mut self.windows[2]),
            b"w4" => Place::Window(&mut self.windows[3]),
            b"g" => Place::Number(&mut self.g),
            b"alpha" => Place::Number(&mut self.alpha),
            _ => return self.asked_place(name),
        };
        Some(place)
    }

    fn asked_place(&mut self, name: &[u8]) -> Option<Place<'_>> {
        let place = match name {
            b"p" => Place::Number(&mut self.p),
            b"t" => Place::Number(&mut self.t),
            b"slot" => Place::Number(&mut self.slot),
            b"l" => Place::Number(&mut self.l),
            b"k" => Place::Number(&mut self.k),
            b"i" => Place::Number(&mut self.i),
            b"engine" => Place::Limited(&mut self.engine, LARGEST_ENGINE),
            b"level" => Place::Pattern(&mut self.level),
            b"data" => Place::Bytes(&mut self.data),
            b"room" => Place::Limited(&mut self.room, LARGEST_ROOM),
            b"no" => Place::Number(&mut self.no),
            _ => return None,
        };
        Some(place)
    }

    pub fn cell(&self) -> Cell
        ensures { result ≡ cell_of self.now }
    {
        let config = CellConfig {
            mode: self.mode,
            carrier: self.carrier,
            identity: self.identity,
            nports: self.nports,
            cports: self.cports,
            control: self.control,
            sib1: self.sib1,
            bits: self.bits,
        };
        let [s1, s2, s3, s4] = self.schedules;
        let messages = Messages {
            window: self.siwindow,
            offset: self.sioffset,
            count: self.message_count,
            s1,
            s2,
            s3,
            s4,
        };
        Cell { config, messages }
    }

    pub fn npdsch_grant(&self) -> NpdschGrant
        ensures { result ≡ npdsch_of self.now }
    {
        NpdschGrant {
            n: self.n,
            delay: self.delay,
            rmax: self.rmax,
            subframes: self.subframes,
            copies: self.copies,
        }
    }

    pub fn npdcch_grant(&self) -> NpdcchGrant
        ensures { result ≡ npdcch_of self.now }
    {
        NpdcchGrant {
            n: self.n,
            r: self.r,
            format: self.format,
            ncce: self.ncce,
        }
    }

    pub fn search_space(&self) -> SearchSpace
        ensures { result ≡ search_space_of self.now }
    {
        SearchSpace {
            n: self.n,
            rmax: self.rmax,
            g: self.g,
            alpha: self.alpha,
        }
    }

    pub fn npusch_grant(&self) -> NpuschGrant
        ensures { result ≡ npusch_of self.now }
    {
        NpuschGrant {
            n: self.n,
            spacing: self.spacing,
            subcarrier: self.subcarrier,
            units: self.units,
            copies: self.copies,
            delay: self.delay,
            mcs: self.mcs,
        }
    }

    pub fn harq_ack_grant(&self) -> HarqAckGrant
        ensures { result ≡ harq_ack_of self.now }
    {
        HarqAckGrant {
            n: self.n,
            spacing: self.spacing,
            field: self.field,
            copies: self.copies,
        }
    }

    pub fn windows(&self) -> Windows
        ensures { result ≡ windows_of self.now }
    {
        let [w1, w2, w3, w4] = self.windows;
        Windows {
            count: self.window_count,
            w1,
            w2,
            w3,
            w4,
        }
    }

    // The record of a walk at the position p; a kind of the broadcast is taken as control.
    pub fn walk(&self, kind: Kind) -> Walk
        ensures { result ≡ walk_of self.now kind }
    {
        let grant = match kind {
            Kind::Up => Grant::Npusch(self.npusch_grant(), self.windows()),
            Kind::Ack => Grant::HarqAck(self.harq_ack_grant(), self.windows()),
            Kind::Down => Grant::Npdsch(self.npdsch_grant()),
            _ => Grant::Npdcch(self.npdcch_grant()),
        };
        Walk {
            cell: self.cell(),
            grant,
            p: self.p,
        }
    }

    // The engine that forward and step of a grant ask.
    pub fn engine(&self) -> Engine
        ensures { result ≡ cond (eqb self.now.engine 0) Quick Plain }
    {
        if self.engine == 0 {
            Engine::Quick
        } else {
            Engine::Plain
        }
    }

    pub fn level(&self) -> f32
        ensures { result ≡ of_bits binary32 self.now.level }
    {
        text::float_of(self.level)
    }

    pub fn control_region(&self) -> u64
        ensures { result ≡ self.now.control }
    {
        self.control
    }

    // SIB1's own: three symbols in-band.
    pub fn sib1_control(&self) -> u64
        ensures { result ≡ cond (ltb self.now.mode 2) 3 0 }
    {
        if self.mode < 2 { 3 } else { 0 }
    }

    // The uplink's spacing is 15 kHz.
    pub fn is_15_khz(&self) -> bool
        ensures { IsTrue result ↔ (self.now.spacing ≡ 1) }
    {
        self.spacing == 1
    }
}

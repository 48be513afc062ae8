// Buffers of numbers: cells and grants read from them, answers put at their front.
#![tactic(auto)]

ghost use Rattle.std.specs.Prelude.{[], ◌≡◌, ◌+◌, ◌^◌, ◌≤◌, ◌<◌, length, get_or, drop};
ghost use Rattle.std.proofs.lemmas.List.Edits.{sets};
ghost use Rattle.nprach.specs.Windows.{none};
ghost use Rattle.search_space.specs.Candidates.{room};
ghost use Rattle.subframes.specs.Subframes.{messages_in};
ghost use Rattle.symbol.specs.Outgoing.{numbers_of};
ghost use Rattle.buffers.specs.Buffers.{config_at, cell_in, window_at, windows_of};
ghost use Rattle.buffers.specs.Buffers.{npusch_at, harq_ack_at, npdsch_at, npdcch_at, search_space_at};
ghost use Rattle.buffers.specs.Buffers.{npusch_walk, harq_ack_walk, npdsch_walk, npdcch_walk};
ghost use Rattle.buffers.specs.Buffers.{cause_numbers, count_numbers, uplink_plan_numbers, downlink_plan_numbers};
ghost use Rattle.buffers.specs.Buffers.{uplink_place_numbers, downlink_place_numbers, back_numbers};
ghost use Rattle.buffers.specs.Buffers.{downlink_back_numbers, candidate_numbers, search_numbers, step_numbers};
ghost use Rattle.buffers.specs.Buffers.{windows_short, put, put_stepped, put_element};
ghost use Rattle.buffers.specs.Scaffold.{put_moved, moved_by};

use cell::{CauseAnswer, Cell, CellConfig, ElementCount};
use downlink::{DownlinkBack, DownlinkPlace, DownlinkPlan};
use harq_ack::HarqAckGrant;
use messages::Messages;
use npdcch::NpdcchGrant;
use npdsch::NpdschGrant;
use nprach::{Window, Windows};
use npusch::NpuschGrant;
use search_space::{Candidate, SearchAnswer, SearchSpace};
use sending::Back;
use symbol::Element;
use uplink::{UplinkPlace, UplinkPlan};
use walk::{Grant, Stepped, Walk, WalkPlace};

// The numbers of windows: the count, and four of four.
const WINDOWS: usize = 17;

// The windows' buffer has some numbers, and fewer than it needs.
pub fn windows_short(windows: &[u64]) -> bool
    ensures { result ≡ windows_short windows.now }
{
    !windows.is_empty() && windows.len() < WINDOWS
}

// ---- what is asked: records whose numbers stand from a place of a buffer on

// No slice patterns: each wants an arm for a shorter buffer, which the contract rules out.

pub fn config_at(s: &[u64], i: usize) -> CellConfig
    requires { i + 8 ≤ length s.now }
    ensures { result ≡ config_at s.now i }
{
    CellConfig {
        mode: s[i],
        carrier: s[i + 1],
        identity: s[i + 2],
        nports: s[i + 3],
        cports: s[i + 4],
        control: s[i + 5],
        sib1: s[i + 6],
        bits: s[i + 7],
    }
}

// Messages whose numbers stand from a place on; a buffer that ends before has none.
#[tactic(auto, unfolding(subframes::specs::Subframes::messages_in))]
fn messages_from(s: &[u64], j: usize) -> Messages
    ensures { result ≡ messages_in (drop j s.now) }
{
    if s.len() < j {
        return messages::none();
    }
    subframes::messages_in(&s[j..])
}

// A cell, its eight numbers from one place on and its messages from another.
pub fn cell_in(s: &[u64], i: usize, j: usize) -> Cell
    requires { i + 8 ≤ length s.now }
    ensures { result ≡ cell_in s.now i j }
{
    Cell {
        config: config_at(s, i),
        messages: messages_from(s, j),
    }
}

fn window_at(s: &[u64], i: usize) -> Window
    requires { i + 4 ≤ length s.now }
    ensures { result ≡ window_at s.now i }
{
    Window {
        period: s[i],
        start: s[i + 1],
        length: s[i + 2],
        tone: s[i + 3],
    }
}

fn no_windows() -> Windows
    ensures { result ≡ none }
{
    let w = Window {
        period: 0,
        start: 0,
        length: 0,
        tone: 0,
    };
    Windows {
        count: 0,
        w1: w,
        w2: w,
        w3: w,
        w4: w,
    }
}

#[tactic(auto, unfolding(crate::specs::Buffers::windows_of))]
pub fn windows_of(windows: &[u64]) -> Windows
    ensures { result ≡ windows_of windows.now }
{
    if windows.len() < WINDOWS {
        return no_windows();
    }
    let w1 = window_at(windows, 1);
    let w2 = window_at(windows, 5);
    let w3 = window_at(windows, 9);
    let w4 = window_at(windows, 13);
    Windows {
        count: windows[0],
        w1,
        w2,
        w3,
        w4,
    }
}

pub fn npusch_at(s: &[u64], i: usize) -> NpuschGrant
    requires { i + 7 ≤ length s.now }
    ensures { result ≡ npusch_at s.now i }
{
    NpuschGrant {
        n: s[i],
        spacing: s[i + 1],
        subcarrier: s[i + 2],
        units: s[i + 3],
        copies: s[i + 4],
        delay: s[i + 5],
        mcs: s[i + 6],
    }
}

pub fn harq_ack_at(s: &[u64], i: usize) -> HarqAckGrant
    requires { i + 4 ≤ length s.now }
    ensures { result ≡ harq_ack_at s.now i }
{
    HarqAckGrant {
        n: s[i],
        spacing: s[i + 1],
        field: s[i + 2],
        copies: s[i + 3],
    }
}

pub fn npdsch_at(s: &[u64], i: usize) -> NpdschGrant
    requires { i + 5 ≤ length s.now }
    ensures { result ≡ npdsch_at s.now i }
{
    NpdschGrant {
        n: s[i],
        delay: s[i + 1],
        rmax: s[i + 2],
        subframes: s[i + 3],
        copies: s[i + 4],
    }
}

pub fn npdcch_at(s: &[u64], i: usize) -> NpdcchGrant
    requires { i + 4 ≤ length s.now }
    ensures { result ≡ npdcch_at s.now i }
{
    NpdcchGrant {
        n: s[i],
        r: s[i + 1],
        format: s[i + 2],
        ncce: s[i + 3],
    }
}

pub fn search_space_at(s: &[u64], i: usize) -> SearchSpace
    requires { i + 4 ≤ length s.now }
    ensures { result ≡ search_space_at s.now i }
{
    SearchSpace {
        n: s[i],
        rmax: s[i + 1],
        g: s[i + 2],
        alpha: s[i + 3],
    }
}

// ---- a walk's record

// No generic one: each kind of grant has its variant, and its count of numbers.

// An uplink walk's cell, which is not looked at.
fn no_cell() -> Cell
    ensures { result ≡ cell_in [] 0 8 }
{
    cell_in(&[0; 8], 0, 8)
}

pub fn npusch_walk(walk: &[u64], windows: &[u64]) -> Walk
    requires { 8 ≤ length walk.now }
    ensures { result ≡ npusch_walk walk.now windows.now }
{
    Walk {
        cell: no_cell(),
        grant: Grant::Npusch(npusch_at(walk, 1), windows_of(windows)),
        p: walk[0],
    }
}

pub fn harq_ack_walk(walk: &[u64], windows: &[u64]) -> Walk
    requires { 5 ≤ length walk.now }
    ensures { result ≡ harq_ack_walk walk.now windows.now }
{
    Walk {
        cell: no_cell(),
        grant: Grant::HarqAck(harq_ack_at(walk, 1), windows_of(windows)),
        p: walk[0],
    }
}

pub fn npdsch_walk(walk: &[u64]) -> Walk
    requires { 14 ≤ length walk.now }
    ensures { result ≡ npdsch_walk walk.now }
{
    Walk {
        cell: cell_in(walk, 1, 14),
        grant: Grant::Npdsch(npdsch_at(walk, 9)),
        p: walk[0],
    }
}

pub fn npdcch_walk(walk: &[u64]) -> Walk
    requires { 13 ≤ length walk.now }
    ensures { result ≡ npdcch_walk walk.now }
{
    Walk {
        cell: cell_in(walk, 1, 13),
        grant: Grant::Npdcch(npdcch_at(walk, 9)),
        p: walk[0],
    }
}

// ---- what is answered, put at the front of a buffer

// Numbers at the front; the first is returned.
pub fn put<const N: usize>(s: &mut [u64], numbers: [u64; N]) -> u64
    requires { (1 ≤ N) × (N ≤ length s.old) }
    ensures { (result, s.new) ≡ put numbers.entry s.old }
{
    s[..N].copy_from_slice(&numbers);
    numbers[0]
}

pub fn put_count(s: &mut [u64], a: ElementCount) -> u64
    requires { 2 ≤ length s.old }
    ensures { (result, s.new) ≡ put (count_numbers a) s.old }
{
    put(s, [a.no, a.e])
}

pub fn put_cause(s: &mut [u64], a: CauseAnswer) -> u64
    requires { 2 ≤ length s.old }
    ensures { (result, s.new) ≡ put (cause_numbers a) s.old }
{
    put(s, [a.no, cell::cause_number(a.cause)])
}

pub fn put_uplink_plan(s: &mut [u64], a: UplinkPlan) -> u64
    requires { 7 ≤ length s.old }
    ensures { (result, s.new) ≡ put (uplink_plan_numbers a) s.old }
{
    put(
        s,
        [a.no, a.first, a.last, a.copies, a.places, a.size, a.order],
    )
}

pub fn put_downlink_plan(s: &mut [u64], a: DownlinkPlan) -> u64
    requires { 5 ≤ length s.old }
    ensures { (result, s.new) ≡ put (downlink_plan_numbers a) s.old }
{
    put(s, [a.no, a.first, a.last, a.copies, a.places])
}

pub fn put_uplink_place(s: &mut [u64], a: UplinkPlace) -> u64
    requires { 5 ≤ length s.old }
    ensures { (result, s.new) ≡ put (uplink_place_numbers a) s.old }
{
    put(s, [a.no, a.slot, a.l, a.k, a.symbol])
}

pub fn put_downlink_place(s: &mut [u64], a: DownlinkPlace) -> u64
    requires { 6 ≤ length s.old }
    ensures { (result, s.new) ≡ put (downlink_place_numbers a) s.old }
{
    put(s, [a.no, a.t, a.slot, a.l, a.k, a.symbol])
}

pub fn put_back(s: &mut [u64], a: Back) -> u64
    requires { 5 ≤ length s.old }
    ensures { (result, s.new) ≡ put (back_numbers a) s.old }
{
    put(s, [a.no, a.ours, a.symbol, a.position, a.kind])
}

pub fn put_downlink_back(s: &mut [u64], a: DownlinkBack) -> u64
    requires { 6 ≤ length s.old }
    ensures { (result, s.new) ≡ put (downlink_back_numbers a) s.old }
{
    let b = a.back;
    let cause = cell::cause_number(a.cause);
    put(s, [b.no, b.ours, b.symbol, b.position, b.kind, cause])
}

// Three numbers of each candidate, from the fourth number on.
fn put_candidates(s: &mut [u64], list: [Candidate; 15])
    requires { 48 ≤ length s.old }
    ensures { s.new ≡ sets s.old 3 (candidate_numbers list 0 room) }
{
    for (k, x) in list.iter().enumerate() {
        let i = 3 * k + 3;
        s[i] = x.first;
        s[i + 1] = x.r;
        s[i + 2] = x.last;
    }
}

pub fn put_search(s: &mut [u64], a: SearchAnswer) -> u64
    requires { 48 ≤ length s.old }
    ensures { (result, s.new) ≡ put (search_numbers a) s.old }
{
    let no = put(s, [a.no, a.start, a.count]);
    put_candidates(s, a.list);
    no
}

// The state, and the amplitudes beside it.
pub fn put_element(s: &mut [u64], amplitudes: &mut [f32], e: Element) -> u64
    requires { (2 ≤ length s.old) × (2 ≤ length amplitudes.old) }
    ensures { (result, s.new, amplitudes.new)
        ≡ put_element (numbers_of e) s.old amplitudes.old }
{
    let a = symbol::numbers(e);
    amplitudes[0] = a.re;
    amplitudes[1] = a.im;
    put(s, [a.no, a.state])
}

// ---- a step

fn put_answer(s: &mut [u64], a: WalkPlace) -> u64
    requires { 7 ≤ length s.old }
    ensures { (result, s.new) ≡ put (step_numbers a) s.old }
{
    put(s, [a.no, a.finished, a.t, a.slot, a.l, a.k, a.symbol])
}

// A step by what forward answers at the walk's position, which moves on where that is a place; `end`: it is the end.
pub fn put_step(walk: &mut [u64], s: &mut [u64], end: bool, a: WalkPlace) -> u64
    requires { (1 ≤ length walk.old) × (7 ≤ length s.old) × (a.no ≡ 0 → get_or walk.old 0 0 < 2 ^ 63) }
    ensures { (result, walk.new, s.new)
        ≡ put_moved (moved_by end a (get_or walk.old 0 0)) walk.old s.old }
{
    if a.no == 0 {
        walk[0] += 1;
        return put_answer(s, a);
    }
    if end {
        return put_answer(s, WalkPlace::FINISHED);
    }
    put_answer(s, walk::refused_step(a.no))
}

// A step's answer, and the position after it.
pub fn put_stepped(walk: &mut [u64], s: &mut [u64], x: Stepped) -> u64
    requires { (1 ≤ length walk.old) × (7 ≤ length s.old) }
    ensures { (result, walk.new, s.new) ≡ put_stepped x walk.old s.old }
{
    walk[0] = x.walk.p;
    put_answer(s, x.answer)
}

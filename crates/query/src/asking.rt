// The questions, asked of the values, and their answers written.
ghost use Rattle.std.specs.Prelude.{◌+◌, ◌≤◌, length, string_bytes, string_capacity, OnOk, IsOk};

use crate::asked::{Asked, Place};
use crate::{picture, timeline};
use questions::{Kind, Question, Values};
use std::alloc::AllocError;

fn bitmap(v: &Values, out: &mut String) -> Result<(), AllocError>
    ensures room { OnOk result (length (string_bytes out.new) ≤ length (string_bytes out.old) + 320) }
    ensures succeeds { length (string_bytes out.old) + 320 ≤ string_capacity out.old → IsOk result }
    ensures capacity { string_capacity out.old ≤ string_capacity out.new }
{
    let c = v.cell();
    let no = nbiot::judge(c, &v.anchor, &v.other);
    answers::write_bitmap(no, nbiot::bitmap(c, &v.anchor, &v.other), out)
}

fn search(v: &Values, out: &mut String) -> Result<(), AllocError>
    ensures room { OnOk result (length (string_bytes out.new) ≤ length (string_bytes out.old) + 2048) }
    ensures succeeds { length (string_bytes out.old) + 2048 ≤ string_capacity out.old → IsOk result }
    ensures capacity { string_capacity out.old ≤ string_capacity out.new }
{
    let x = nbiot::search(v.cell(), &v.anchor, &v.other, v.search_space());
    answers::write_search(x, out)
}

fn plan(asked: Asked, out: &mut String) -> Result<(), AllocError>
    ensures room { OnOk result (length (string_bytes out.new) ≤ length (string_bytes out.old) + 320) }
    ensures succeeds { length (string_bytes out.old) + 320 ≤ string_capacity out.old → IsOk result }
    ensures capacity { string_capacity out.old ≤ string_capacity out.new }
{
    if asked.kind.is_uplink() {
        answers::write_uplink_plan(asked.plan_slots(), out)
    } else {
        answers::write_downlink_plan(asked.plan(), out)
    }
}

fn forward(asked: Asked, out: &mut String) -> Result<(), AllocError>
    ensures room { OnOk result (length (string_bytes out.new) ≤ length (string_bytes out.old) + 320) }
    ensures succeeds { length (string_bytes out.old) + 320 ≤ string_capacity out.old → IsOk result }
    ensures capacity { string_capacity out.old ≤ string_capacity out.new }
{
    let p = asked.values.p;
    let engine = asked.values.engine();
    if asked.kind.is_uplink() {
        answers::write_uplink_place(asked.forward_slots(engine, p), out)
    } else {
        answers::write_downlink_place(asked.forward(engine, p), out)
    }
}

fn backward(asked: Asked, out: &mut String) -> Result<(), AllocError>
    ensures room { OnOk result (length (string_bytes out.new) ≤ length (string_bytes out.old) + 320) }
    ensures succeeds { length (string_bytes out.old) + 320 ≤ string_capacity out.old → IsOk result }
    ensures capacity { string_capacity out.old ≤ string_capacity out.new }
{
    let v = asked.values;
    let (slot, l, k) = (v.slot, v.l, v.k);
    match asked.kind {
        Kind::Up | Kind::Ack => {
            let x = Place {
                t: slot,
                slot: 0,
                l,
                k,
            };
            answers::write_back(asked.standing(x), out)
        }
        Kind::Npbch | Kind::Sib1 => {
            let x = Place { t: v.t, slot, l, k };
            answers::write_back(asked.standing(x), out)
        }
        Kind::Down | Kind::Control => {
            let x = Place { t: v.t, slot, l, k };
            answers::write_downlink_back(asked.backward(x), out)
        }
    }
}

// The position after the step is kept.
fn step(kind: Kind, v: &mut Values, out: &mut String) -> Result<(), AllocError>
    ensures room { OnOk result (length (string_bytes out.new) ≤ length (string_bytes out.old) + 320) }
    ensures succeeds { length (string_bytes out.old) + 320 ≤ string_capacity out.old → IsOk result }
    ensures capacity { string_capacity out.old ≤ string_capacity out.new }
{
    let s = nbiot::step_value(v.walk(kind), &v.anchor, &v.other, v.engine());
    v.p = s.walk.p;
    if kind.is_uplink() {
        answers::write_uplink_step(s.answer, v.p, out)
    } else {
        answers::write_downlink_step(s.answer, v.p, out)
    }
}

// The most numbers that are lent to a fill.
const LENT: usize = 1024;

// A fill of the room lent, whose numbers are all 42 before, shown as it stands afterwards.
fn fill(v: &Values, out: &mut String) -> Result<(), AllocError>
    ensures room { OnOk result (length (string_bytes out.new) ≤ length (string_bytes out.old) + 16384) }
    ensures succeeds { length (string_bytes out.old) + 16384 ≤ string_capacity out.old → IsOk result }
    ensures capacity { string_capacity out.old ≤ string_capacity out.new }
{
    let mut numbers = [42.0f32; LENT];
    let room = &mut numbers[..LENT.min(v.room as usize)];
    let c = v.cell();
    let g = v.npdsch_grant();
    let no = nbiot::fill(c, &v.anchor, &v.other, g, v.i, &v.data, v.level(), room);
    answers::write_fill(no, room, out)
}

fn element(v: &Values, out: &mut String) -> Result<(), AllocError>
    ensures room { OnOk result (length (string_bytes out.new) ≤ length (string_bytes out.old) + 320) }
    ensures succeeds { length (string_bytes out.old) + 320 ≤ string_capacity out.old → IsOk result }
    ensures capacity { string_capacity out.old ≤ string_capacity out.new }
{
    let c = v.cell();
    let g = v.npdsch_grant();
    let level = v.level();
    let e = nbiot::element(
        c, &v.anchor, &v.other, g, v.i, v.slot, v.l, v.k, &v.data, level,
    );
    answers::write_element(symbol::numbers(e), out)
}

// Asks a question of the values and writes its answer.
pub fn ask(question: Question, values: &mut Values, out: &mut String) -> Result<(), AllocError>
    ensures room { OnOk result (length (string_bytes out.new) ≤ length (string_bytes out.old) + 16384) }
    ensures succeeds { length (string_bytes out.old) + 16384 ≤ string_capacity out.old → IsOk result }
    ensures capacity { string_capacity out.old ≤ string_capacity out.new }
{
    let v = &*values;
    match question {
        Question::Set => Ok(()),
        Question::Cell => answers::write_cell(nbiot::judge(v.cell(), &v.anchor, &v.other), out),
        Question::Bitmap => bitmap(v, out),
        Question::Cause => {
            answers::write_cause(nbiot::cause(v.cell(), &v.anchor, &v.other, v.t), out)
        }
        Question::Count => answers::write_count(nbiot::count(v.cell(), &v.anchor, &v.other), out),
        Question::Search => search(v, out),
        Question::Fill => fill(v, out),
        Question::Element => element(v, out),
        Question::Meaning => answers::write_meaning(v.no, out),
        Question::Plan(kind) => plan(Asked { kind, values: v }, out),
        Question::Forward(kind) => forward(Asked { kind, values: v }, out),
        Question::Backward(kind) => backward(Asked { kind, values: v }, out),
        Question::Step(kind) => step(kind, values, out),
        Question::Picture(kind) => picture::put_picture(Asked { kind, values: v }, out),
        Question::Timeline(kind) => timeline::put_timeline(Asked { kind, values: v }, out),
    }
}

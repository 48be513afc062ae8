// What is told in words: help, and the meanings of the refusal numbers.
ghost use Rattle.std.specs.Prelude.{◌≡◌, ◌≤◌, ◌+◌, ◌++◌, List, None, ℕ, OnOk, codes, length, string_bytes};
ghost use Rattle.std.specs.Prelude.{IsOk, string_capacity};
ghost use Rattle.answers.specs.Answers.{meaning_text};

use crate::value::write_value;
use std::alloc::AllocError;

// The text of docs/help.txt.
const HELP: &str =
    "A line is a question, for some a kind, then name=value words, with one space between words. A value stays until it is given anew.
Ask help WORD for one word, meaning no=7 for the words of refusal 7. An answer begins with no=, the refusal number, or 0.
Questions:
set        keeps values and asks nothing; no answer
cell       is the cell accepted? no=
bitmap     the bitmap in force: no= part= (hex)
cause      why subframe t is not usable: no= cause= (none npbch npss nsss sib1 message bitmap)
count      the elements of a subframe that may carry data: no= e=
search     where control may start, by n rmax g alpha: no= start= count= and first,r,last of each candidate
plan       of up ack down control, where it begins and ends: no= first= last= copies= places=, of up and ack size= order=
forward    of up ack down control npbch sib1, where position p stands: no= t= slot= l= k= symbol=, of up and ack without t=
backward   of up ack down control npbch sib1, what stands at t slot l k (up, ack: slot l k): no= ours= symbol= p= kind=
backward   kind is 1 narrowband or uplink reference, 2 cell reference, 0 other; of down and control cause= follows
step       of up ack down control, forward at p, which is then one more: no= finished=, the place as forward, p=
fill       the numbers of transmitted subframe i of down, by level data room: no= and room numbers of 8 hex digits
element    one of them, by i slot l k level data: no= case= re= im= (case 0 silent, 1 narrowband and 2 cell reference, 4 symbol)
picture    of up ack down control npbch sib1, transmitted subframe or slot i: no= and rows of signs with a legend
timeline   of up ack down control, from the first to the last frame: no= and rows of signs with a legend
meaning    the words of refusal number no: no= meaning=
help       this list; help WORD tells of one question, kind or value
Kinds:
up         NPUSCH format 1, by n spacing subcarrier units copies delay mcs windows w1 w2 w3 w4
ack        acknowledgement on NPUSCH format 2, by n spacing field copies windows w1 w2 w3 w4
down       NPDSCH, by the cell and n delay rmax subframes copies
control    NPDCCH, by the cell and n r format ncce
npbch      NPBCH of an anchor, 64 frames from frame 0, by the cell
sib1       SIB1 of an anchor, 256 frames from frame 0, by the cell
Values of the cell:
mode       0 in-band same identity, 1 in-band other identity, 2 guard band, 3 standalone; starts at 0
carrier    0 anchor, 1 non-anchor; starts at 0
identity   of the narrowband cell, 0 to 503; starts at 0
nports     narrowband reference ports, 1 or 2; starts at 0
cports     cell reference ports: in-band 1, 2 or 4 (in mode 0 as nports), else 0; starts at 0
control    control region: in-band 1 to 3 symbols, else 0; starts at 0
sib1       SIB1 schedule, 0 to 11; starts at 0
bits       length of the bitmap: 0 (none), 10 or 40 bits; starts at 0
anchor     bitmap of the anchor, hex, two digits a byte, up to 64 bytes, - for empty; starts empty
other      bitmap of the non-anchor, as anchor; starts empty
siwindow   window of messages: 160, 320, 480, 640, 960, 1280 or 1600 ms; starts at 160
sioffset   its offset, 0 to 15 frames; starts at 0
messages   how many of m1 to m4 hold, 0 to 4; starts at 0
m1         schedule T,every,size: T 64, 128, .. 4096 frames, every 2, 4, 8 or 16 frames, size 2 or 8 subframes; starts at 0,0,0
m2         the second schedule, as m1; starts at 0,0,0
m3         the third schedule, as m1; starts at 0,0,0
m4         the fourth schedule, as m1; starts at 0,0,0
Values of grants and of search:
n          subframe, 0 to 2^30-1: in which the order of up or down ends, from which on control or search looks; starts at 0
n          of ack the last subframe of the NPDSCH, 0 to 2^31-1
delay      field: of up 0 to 3 (8, 16, 32, 64 subframes), of down 0 to 7; starts at 0
delay      of down, usable subframes: rmax below 128: 0, 4, 8, 12, 16, 32, 64, 128; else 0, 16, 32, 64, 128, 256, 512, 1024
rmax       most copies of NPDCCH, a power of two, 1 to 2048; starts at 0
subframes  field 0 to 7: 1, 2, 3, 4, 5, 6, 8, 10 subframes; starts at 0
copies     field: of up and ack 0 to 7: 1, 2, 4, .. 128 copies; of down 0 to 15; starts at 0
copies     of down: 1, 2, 4, 8, 16, 32, 64, 128, 192, 256, 384, 512, 768, 1024, 1536, 2048
r          copies of control, a power of two, 1 to 2048; starts at 0
format     of control: 0 one NCCE, 1 both; starts at 0
ncce       of control: 0 subcarriers 0 to 5, 1 subcarriers 6 to 11, with format 1 only 0; starts at 0
spacing    0 3.75 kHz, 1 15 kHz; starts at 0
subcarrier field of up: at 3.75 kHz 0 to 47 the tone; at 15 kHz 0 to 11 the tone, 12 to 15 three, 16 and 17 six, 18 twelve; starts at 0
units      field of up 0 to 7: 1, 2, 3, 4, 5, 6, 8, 10 resource units; starts at 0
mcs        of up, 0 to 4; starts at 0
field      of ack, 0 to 15, tone and delay; starts at 0
windows    how many random access windows of w1 to w4 hold, 0 to 4; starts at 0
w1         period,start,length,tone: period 40, 80, .. 2560 ms, start 8, 16, .. 1024 ms, length in 1/30720 ms, tone 0 to 36
w1         length 172032 or 196608 times 1, 2, 4, .. 64; twelve tones of 3.75 kHz; starts at 0,0,0,0
w2         the second window, as w1; starts at 0,0,0,0
w3         the third window, as w1; starts at 0,0,0,0
w4         the fourth window, as w1; starts at 0,0,0,0
g          field of search 0 to 7: G is 1.5, 2, 4, 8, 16, 32, 48, 64; starts at 0
alpha      field of search 0 to 3: offset 0, 1/8, 1/4, 3/8 of the period; starts at 0
Values of places and of what is asked:
p          position in the grant, from 0; starts at 0
t          subframe, any; starts at 0
slot       of down and control 0 or 1 in the subframe, of up and ack the slot's own number; starts at 0
l          symbol in the slot, 0 to 6; starts at 0
k          subcarrier, 0 to 11, at 3.75 kHz 0 to 47; starts at 0
i          transmitted subframe or slot, from 0; starts at 0
engine     of forward and step of a grant: 0 the quick one, 1 the plain one, with the same answers; starts at 0
level      of a fill: an f32 as 8 hex digits, 2^-20 to 2^20; starts at 00000000
data       bits of a fill's codeword, hex as anchor, up to 1024 bytes; starts empty
room       numbers of output lent to a fill, 0 to 1024; a fill wants 336; starts at 336
no         refusal number, of meaning; starts at 0
";

// The text of docs/refusals.txt: a number, a space and its words on each line.
const REFUSALS: &str = "0 accepted
1 mode above 3 or carrier above 1
2 identity above 503
3 narrowband ports not 1 or 2
4 cell ports not 1, 2 or 4 in-band, or not 0 in the other modes
5 control region not 1 to 3 in-band, or not 0 in the other modes
24 mode 0 with cell ports other than the narrowband ports
6 SIB1 schedule above 11
7 bitmap length not 0, 10 or 40, its buffer too short, or spare bits set
21 a number of the messages not listed, a fifth schedule, or a window longer than its period
8 the bitmap alone allows no subframe
18 the bitmap allows some subframes, and the anchor or its messages take them all
25 the broadcast of a non-anchor
9 n above 2^30 - 1, of an acknowledgement above 2^31 - 1
10 a field above its largest number, or NCCE 1 with format 1
11 subcarrier field 48 to 63 at 3.75 kHz, 19 to 63 at 15 kHz
12 Rmax or NPDCCH copies not a power of two, 1 to 2048
22 a search space whose period is below 4 subframes
23 a search space whose offset is not below a hyperframe, 10240 subframes
13 MCS 5 to 15
19 a fifth random access window, a number of a window not listed, or its tones past 47
20 the windows leave no group of slots free on the granted tones
14 position, transmitted subframe or slot past the end, or a place outside the grid
15 data not ceil(N * E / 4) bytes, or output not 336 numbers
16 level not from 2^-20 to 2^20
17 two ports, where a fill or one element is of one
255 a buffer too short, in C alone
";

// The lines of help that begin with a word and a space: at most twice the bytes of HELP, since none is empty.
fn write_lines_of(word: &[u8], out: &mut String) -> Result<(), AllocError>
    ensures lines { OnOk result ((lines : List ℕ) × (string_bytes out.new ≡ string_bytes out.old ++ lines)) }
    ensures room { OnOk result (length (string_bytes out.new) ≤ length (string_bytes out.old) + 12634) }
    ensures succeeds { length (string_bytes out.old) + 12634 ≤ string_capacity out.old → IsOk result }
    ensures capacity { string_capacity out.old ≤ string_capacity out.new }
{
    for line in HELP.lines() {
        if let Some((first, _)) = line.split_once(' ') {
            if first.as_bytes() == word {
                out.push_str(line)?;
                out.push_str("\n")?;
            }
        }
    }
    Ok(())
}

// Help on a word, on all without one.
pub fn write_help(word: Option<&[u8]>, out: &mut String) -> Result<(), AllocError>
    ensures all { word.entry ≡ None →
        OnOk result (string_bytes out.new ≡ string_bytes out.old ++ (codes "no=0\n" ++ HELP.now)) }
    ensures begun { OnOk result ((rest : List ℕ) ×
        (string_bytes out.new ≡ string_bytes out.old ++ (codes "no=0\n" ++ rest))) }
    ensures room { OnOk result (length (string_bytes out.new) ≤ length (string_bytes out.old) + 16384) }
    ensures succeeds { length (string_bytes out.old) + 16384 ≤ string_capacity out.old → IsOk result }
    ensures capacity { string_capacity out.old ≤ string_capacity out.new }
{
    out.push_str("no=0\n")?;
    match word {
        Some(word) => write_lines_of(word, out),
        None => out.push_str(HELP),
    }
}

// The words of a refusal number.
fn words_of(no: u64) -> &'static str
    ensures { length result.now ≤ length REFUSALS.now }
{
    REFUSALS
        .lines()
        .filter_map(|line| line.split_once(' '))
        .find(|(number, _)| number.parse::<u64>() == Ok(no))
        .map_or("none", |(_, words)| words)
}

// The words of a refusal number.
pub fn write_meaning(no: u64, out: &mut String) -> Result<(), AllocError>
    ensures text { OnOk result ((words : List ℕ) ×
        (string_bytes out.new ≡ string_bytes out.old ++ meaning_text no words)) }
    ensures room { OnOk result (length (string_bytes out.new) ≤ length (string_bytes out.old) + 16384) }
    ensures succeeds { length (string_bytes out.old) + 16384 ≤ string_capacity out.old → IsOk result }
    ensures capacity { string_capacity out.old ≤ string_capacity out.new }
{
    write_value("no=", no, out)?;
    out.push_str(" meaning=")?;
    out.push_str(words_of(no))?;
    out.push_str("\n")
}

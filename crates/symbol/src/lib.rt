// QPSK symbols from lent bits, and what an element of the grid gets: a symbol, a reference or nothing.
#![tactic(auto)]

ghost use Rattle.std.specs.Prelude.{true, cond, ◌≡◌, ◌*◌, ◌<◌, length};
ghost use Rattle.symbol.specs.Symbol.{signed, level_in_range};
ghost use Rattle.symbol.specs.Scaffold.{qpsk_of, Within};
ghost use Rattle.symbol.specs.Outgoing.{answer_of, numbers_of};
ghost use Rattle.symbol.specs.Quick.{symbols_of, silence, picked_of};

// A real and an imaginary number.
#[derive(Clone, Copy)]
pub struct Symbol {
    pub re: f32,
    pub im: f32,
}

// What goes out at an element: nothing, a reference of a kind, or a symbol of the codeword by its number.
// The kind stays a number: it is the one of backward's answer, which C gets.
#[derive(Clone, Copy)]
pub enum Outgoing {
    Silent,
    Reference(u64),
    Ours(u64),
}

// The answer for one element; the last case has the symbol's two numbers.
// No Result and no enum of kinds: numbers_of, which promises cite, reads refusal and kind off it for C.
#[derive(Clone, Copy)]
pub enum Element {
    Refused(u64),
    Silent,
    Reference(u64),
    Sent { re: f32, im: f32 },
}

// An element's answer in numbers: the refusal; 0 silent, 1 or 2 a reference of that kind, 4 a symbol; the symbol's
// two numbers. Numbers: they are what C is answered.
#[derive(Clone, Copy)]
pub struct ElementNumbers {
    pub no: u64,
    pub state: u64,
    pub re: f32,
    pub im: f32,
}

// The f32 with pattern 0x3F3504F3.
const ROOT_HALF: f32 = 0.70710677;

// 2^-20 and 2^20, patterns 0x35800000 and 0x49800000.
const LOWEST: f32 = 0.00000095367431640625;

const HIGHEST: f32 = 1048576.0;

// Plus for bit 0, minus for bit 1.
fn sign(bit: bool, x: f32) -> f32
    ensures { result ≡ signed bit x }
{
    if bit {
        return -x;
    }
    x
}

// The symbol of two bits at a level.
fn qpsk(first: bool, second: bool, level: f32) -> Symbol
    ensures { result ≡ qpsk_of first second level }
{
    let x = level * ROOT_HALF;
    Symbol {
        re: sign(first, x),
        im: sign(second, x),
    }
}

// The four symbols at a level, by their two bits: to look one up takes no branch, and the bits of a codeword are hard
// to foresee.
pub fn symbols(level: f32) -> [Symbol; 4]
    ensures { result ≡ symbols_of level }
{
    let a = qpsk(false, false, level);
    let b = qpsk(false, true, level);
    let c = qpsk(true, false, level);
    let d = qpsk(true, true, level);
    [a, b, c, d]
}

// Symbol c of the codeword, of four: bits 2c and 2c + 1, the first bit the highest of its byte.
fn symbol_at(four: [Symbol; 4], bits: &[u8], c: u64) -> Symbol
    requires { c < 4 * length bits.now }
    ensures { result ≡ picked_of four bits.now c }
{
    let b = bits[(c / 4) as usize];
    let pair = (b >> (6 - 2 * (c % 4))) % 4;
    four[pair as usize]
}

// From 2^-20 to 2^20; a NaN is not.
pub fn in_range(level: f32) -> bool
    ensures { result ≡ level_in_range level }
{
    (LOWEST <= level) & (level <= HIGHEST)
}

// The two numbers that a fill writes: symbol c, of four, at an element that is ours, +0 elsewhere.
pub fn written(ours: bool, four: [Symbol; 4], bits: &[u8], c: u64) -> Symbol
    requires { ours ≡ true → c < 4 * length bits.now }
    ensures { result ≡ cond ours (picked_of four bits.now c) silence }
{
    if ours {
        return symbol_at(four, bits, c);
    }
    Symbol { re: 0.0, im: 0.0 }
}

// The answer for one element.
pub fn answer(o: Outgoing, bits: &[u8], level: f32) -> Element
    requires { Within bits.now o }
    ensures { result ≡ answer_of bits.now level o }
{
    match o {
        Outgoing::Silent => Element::Silent,
        Outgoing::Reference(kind) => Element::Reference(kind),
        Outgoing::Ours(c) => {
            let s = symbol_at(symbols(level), bits, c);
            Element::Sent { re: s.re, im: s.im }
        }
    }
}

// An answer in document 01's numbers.
pub fn numbers(e: Element) -> ElementNumbers
    ensures { result ≡ numbers_of e }
{
    match e {
        Element::Refused(no) => ElementNumbers {
            no,
            state: 0,
            re: 0.0,
            im: 0.0,
        },
        Element::Silent => ElementNumbers {
            no: 0,
            state: 0,
            re: 0.0,
            im: 0.0,
        },
        Element::Reference(kind) => ElementNumbers {
            no: 0,
            state: kind,
            re: 0.0,
            im: 0.0,
        },
        Element::Sent { re, im } => ElementNumbers {
            no: 0,
            state: 4,
            re,
            im,
        },
    }
}

// A cell: its refusals, its bitmap in force, its free subframes as a pattern of spans, and why another is not usable.
// What ends in `_lent` has the cell's eight numbers and, as lent numbers `si`, its messages: these are read where they
// are needed, and a cell without any pays nothing for them. The questions on a `Cell` lend its messages to these.
// The numbers, the messages and the two buffers stay four parameters, as C lends them: a record of them would be copied
// from call to call.
#![tactic(auto)]

ghost use Rattle.std.specs.Prelude.{◌≡◌, true};
ghost use Rattle.std.specs.Int.Bits.{bit_and};
ghost use Rattle.refusals.specs.Refusal.{refused_by};
ghost use Rattle.spans.specs.Pattern.{Regular};
ghost use Rattle.messages.specs.declared.Messages.{Messages};
ghost use Rattle.messages.specs.Quick.{is_silent};
ghost use Rattle.subframes.specs.Subframes.{messages_in};
ghost use Rattle.subframes.specs.Scaffold.{Laid};
ghost use Rattle.cell.specs.Bitmap.{own_buffer};
ghost use Rattle.cell.specs.Judge.{numbers_refusal, config_refusal, form_refusal, cell_refusal, judge_of, in_force_of};
ghost use Rattle.cell.specs.Judge.{cause_of};
ghost use Rattle.cell.specs.Quick.{band_refusal, why_not_free, why_not, seen, ShowsLoaded};
ghost use Rattle.cell.specs.Quick.{with_messages, lent_cell, VerdictOn, VerdictAlone, cause_answer, cause_on};
ghost use Rattle.cell.specs.Quick.{count_after};
ghost use Rattle.cell.specs.Quick.{WellFormed};
ghost use Rattle.cell.specs.Usable.{cause_number};
ghost use Rattle.cell.specs.Layout.{layout_of, element_count_of};

pub use bitmap::bytes as bitmap_bytes;
use elements::Layout;
use grid::Grid;
use messages::Messages;
use refusals::Refusal;
use spans::Pattern;

// The eight numbers of a cell: mode 0 in-band with the same identity, 1 in-band with another, 2 guard band, 3
// standalone; carrier 0 anchor, 1 non-anchor; identity; narrowband and cell reference ports; control region; SIB1
// schedule; length of the bitmap.
#[derive(Clone, Copy)]
pub struct CellConfig {
    pub mode: u64,
    pub carrier: u64,
    pub identity: u64,
    pub nports: u64,
    pub cports: u64,
    pub control: u64,
    pub sib1: u64,
    pub bits: u64,
}

// A cell: its numbers, and its system information messages.
#[derive(Clone, Copy)]
pub struct Cell {
    pub config: CellConfig,
    pub messages: Messages,
}

// Why a subframe is not usable.
#[derive(Clone, Copy, PartialEq, Eq)]
pub enum Cause {
    None = 0,
    Npbch = 1,
    Npss = 2,
    Nsss = 3,
    Sib1 = 4,
    Message = 5,
    Bitmap = 6,
}

// The answer on one subframe: the refusal number, and why the subframe is not usable. No Result: `cause_of` and the C
// interface speak of these fields.
#[derive(Clone, Copy)]
pub struct CauseAnswer {
    pub no: u64,
    pub cause: Cause,
}

// An accepted cell: the pattern of its free subframes, and whether messages are laid. No Option: the pattern is asked
// either way.
#[derive(Clone, Copy)]
pub struct Verdict {
    pub laid: bool,
    pub pattern: Pattern,
}

// Refusals 4, 5 and 24. In-band there are 1, 2 or 4 cell reference ports, in mode 0 as many as narrowband ports, and a
// control region of 1 to 3 symbols; else neither.
fn band_refusal(c: CellConfig) -> Result<(), Refusal>
    ensures { refused_by result ≡ band_refusal c }
{
    if c.mode < 2 {
        if !((c.cports == 1) | ((c.cports == 2) | (c.cports == 4))) {
            return Err(Refusal::CellPorts);
        }
        if !((1 <= c.control) & (c.control <= 3)) {
            return Err(Refusal::ControlRegion);
        }
        if (c.mode == 0) & (c.cports != c.nports) {
            return Err(Refusal::PortsDiffer);
        }
        return Ok(());
    }
    if c.cports != 0 {
        return Err(Refusal::CellPorts);
    }
    if c.control != 0 {
        return Err(Refusal::ControlRegion);
    }
    Ok(())
}

// Refusals 1 to 6 and 24.
fn numbers_refusal(c: CellConfig) -> Result<(), Refusal>
    ensures { refused_by result ≡ numbers_refusal c }
{
    if (c.mode > 3) | (c.carrier > 1) {
        return Err(Refusal::Carrier);
    }
    if c.identity > 503 {
        return Err(Refusal::Identity);
    }
    if !((c.nports == 1) | (c.nports == 2)) {
        return Err(Refusal::NarrowbandPorts);
    }
    band_refusal(c)?;
    if c.sib1 > 11 {
        return Err(Refusal::Sib1Schedule);
    }
    Ok(())
}

// Refusals 1 to 7 and 24.
fn config_refusal(c: CellConfig, own: &[u8]) -> Result<(), Refusal>
    ensures { refused_by result ≡ config_refusal c own.now }
{
    numbers_refusal(c)?;
    if bitmap::is_bad(c.bits, own) {
        return Err(Refusal::BadBitmap);
    }
    Ok(())
}

// Refusals 1 to 7, 24 and 21.
fn form_refusal(c: CellConfig, si: &[u64], own: &[u8]) -> Result<(), Refusal>
    ensures { refused_by result ≡ form_refusal (lent_cell c si.now) own.now }
{
    config_refusal(c, own)?;
    if !messages::are_listed(subframes::messages_in(si)) {
        return Err(Refusal::MessagesNotListed);
    }
    Ok(())
}

// What a pattern and a mask of forty both allow.
fn withheld(p: Pattern, m: u64) -> Pattern
    ensures { result
        ≡ record { log = p.log; first = p.first; usual = bit_and m p.usual; sib1 = bit_and m p.sib1 } }
{
    Pattern {
        log: p.log,
        first: p.first,
        usual: m & p.usual,
        sib1: m & p.sib1,
    }
}

// The free subframes of a well-formed cell, m its bitmap as a number.
fn pattern(c: CellConfig, m: u64) -> Pattern
    ensures { ShowsLoaded c m result }
{
    if c.carrier == 0 {
        return withheld(sync::pattern(c.identity, c.sib1), m);
    }
    Pattern {
        log: 2,
        first: 0,
        usual: m,
        sib1: m,
    }
}

// 8, 18 or the pattern, of eight numbers with none of the refusals before, beside which no message stands. Some
// questions ask for both in turn: one function of them is too long for the compiler to put into each.
fn formed_alone(c: CellConfig, own: &[u8]) -> Result<Verdict, Refusal>
    requires { config_refusal c own.now ≡ 0 }
    ensures { VerdictAlone c own.now result }
{
    let m = bitmap::load(c.bits, own);
    if m == 0 {
        return Err(Refusal::EmptyBitmap);
    }
    let p = pattern(c, m);
    if spans::is_empty(p) {
        return Err(Refusal::NeverUsable);
    }
    Ok(Verdict {
        laid: false,
        pattern: p,
    })
}

// 8, 18 or the pattern, of a cell with none of the refusals before.
fn formed(c: CellConfig, si: &[u64], own: &[u8]) -> Result<Verdict, Refusal>
    requires { form_refusal (lent_cell c si.now) own.now ≡ 0 }
    ensures { VerdictOn (lent_cell c si.now) own.now result }
{
    let m = bitmap::load(c.bits, own);
    if m == 0 {
        return Err(Refusal::EmptyBitmap);
    }
    let p = pattern(c, m);
    let ms = subframes::messages_in(si);
    let laid = (c.carrier == 0) & (0 < ms.count);
    if subframes::is_empty(p, laid, si) {
        return Err(Refusal::NeverUsable);
    }
    Ok(Verdict { laid, pattern: p })
}

// Eight numbers judged by their own buffer.
fn judged_own(c: CellConfig, own: &[u8]) -> Result<Verdict, Refusal>
    ensures { VerdictAlone c own.now result }
{
    config_refusal(c, own)?;
    formed_alone(c, own)
}

fn judged_alone(c: CellConfig, anchor: &[u8], other: &[u8]) -> Result<Verdict, Refusal>
    ensures { VerdictAlone c (own_buffer c anchor.now other.now) result }
{
    if c.carrier == 0 {
        return judged_own(c, anchor);
    }
    judged_own(c, other)
}

// A cell judged by its own buffer.
fn judged_with(c: CellConfig, si: &[u64], own: &[u8]) -> Result<Verdict, Refusal>
    ensures { VerdictOn (lent_cell c si.now) own.now result }
{
    form_refusal(c, si, own)?;
    formed(c, si, own)
}

// The compiler puts this in where it is asked, and what it passes on is then copied there, on the way with messages
// alone.
fn judged_beside(c: CellConfig, si: &[u64], anchor: &[u8], other: &[u8]) -> Result<Verdict, Refusal>
    ensures { VerdictOn (lent_cell c si.now)
        (own_buffer c anchor.now other.now) result }
{
    if c.carrier == 0 {
        return judged_with(c, si, anchor);
    }
    judged_with(c, si, other)
}

// A cell's refusal, or the pattern of an accepted one. With no message the eight numbers are asked by themselves, here
// and below: what stands twice, alone and beside messages, spares them the copies.
pub fn judged_lent(
    c: CellConfig,
    si: &[u64],
    anchor: &[u8],
    other: &[u8],
) -> Result<Verdict, Refusal>
    ensures { VerdictOn (lent_cell c si.now)
        (own_buffer c anchor.now other.now) result }
{
    if subframes::is_silent(si) {
        return judged_alone(c, anchor, other);
    }
    judged_beside(c, si, anchor, other)
}

// The same on a cell, which lends its messages.
pub fn judged(c: Cell, anchor: &[u8], other: &[u8]) -> Result<Verdict, Refusal>
    ensures { VerdictOn c (own_buffer c.config anchor.now other.now) result }
{
    let si = subframes::numbers(c.messages);
    judged_lent(c.config, &si, anchor, other)
}

// The number of a refusal; 0 for what is not refused.
fn number<A: Drop>(r: Result<A, Refusal>) -> u64
    ensures { result ≡ refused_by r }
{
    match r {
        Ok(_) => 0,
        Err(refusal) => refusal.number(),
    }
}

// Whether eight numbers are accepted, by their own buffer.
fn accept_own(c: CellConfig, own: &[u8]) -> Result<(), Refusal>
    ensures { (ms : Messages) → is_silent ms ≡ true → refused_by result ≡ cell_refusal (with_messages c ms) own.now }
{
    config_refusal(c, own)?;
    formed_alone(c, own)?;
    Ok(())
}

// Whether a cell is accepted. The test is the shortest, so that the compiler puts this in where it is asked.
fn accept_lent(c: CellConfig, si: &[u64], anchor: &[u8], other: &[u8]) -> Result<(), Refusal>
    ensures { refused_by result ≡ judge_of (lent_cell c si.now) anchor.now other.now }
{
    if subframes::are_none(si) {
        if c.carrier == 0 {
            return accept_own(c, anchor);
        }
        return accept_own(c, other);
    }
    judged_beside(c, si, anchor, other)?;
    Ok(())
}

// The refusal of a cell, if it is refused: for those who ask nothing else of it.
pub fn accept(c: Cell, anchor: &[u8], other: &[u8]) -> Result<(), Refusal>
    ensures { refused_by result ≡ judge_of c anchor.now other.now }
{
    let si = subframes::numbers(c.messages);
    accept_lent(c.config, &si, anchor, other)
}

// The refusal number of eight numbers, by their own buffer. The same as a Result costs a judge a tenth more.
fn judge_alone(c: CellConfig, own: &[u8]) -> u64
    ensures { (ms : Messages) → is_silent ms ≡ true → result ≡ cell_refusal (with_messages c ms) own.now }
{
    if let Err(refusal) = config_refusal(c, own) {
        return refusal.number();
    }
    number(formed_alone(c, own))
}

// Judge a cell: its refusal number, or 0, as C hands it on. The test is the shortest, so that the compiler puts this in
// where it is asked.
pub fn judge_lent(c: CellConfig, si: &[u64], anchor: &[u8], other: &[u8]) -> u64
    ensures { result ≡ judge_of (lent_cell c si.now) anchor.now other.now }
{
    if subframes::are_none(si) {
        if c.carrier == 0 {
            return judge_alone(c, anchor);
        }
        return judge_alone(c, other);
    }
    number(judged_beside(c, si, anchor, other))
}

pub fn judge(c: Cell, anchor: &[u8], other: &[u8]) -> u64
    ensures { result ≡ judge_of c anchor.now other.now }
{
    let si = subframes::numbers(c.messages);
    judge_lent(c.config, &si, anchor, other)
}

// The bitmap in force: the first 0, 2 or 5 bytes of the carrier's own buffer; an empty part for a refused cell.
pub fn in_force<'a>(c: Cell, anchor: &'a [u8], other: &'a [u8]) -> &'a [u8]
    ensures { result.now ≡ in_force_of c anchor.now other.now }
{
    let own = bitmap::own(c.config.carrier, anchor, other);
    if judge(c, anchor, other) == 0 {
        let n = bitmap::bytes(c.config.bits);
        return &own[0..n];
    }
    &own[0..0]
}

// Why subframe t, which is not free, is not: the first of NPBCH, NPSS, NSSS and SIB1 that takes it, else the bitmap.
fn why_not_free(c: CellConfig, t: u64) -> Cause
    ensures { result ≡ why_not_free c t }
{
    if c.carrier != 0 {
        return Cause::Bitmap;
    }
    if sync::is_npbch(t) {
        return Cause::Npbch;
    }
    if sync::is_npss(t) {
        return Cause::Npss;
    }
    if sync::is_nsss(t) {
        return Cause::Nsss;
    }
    if sync::is_sib1(c.identity, c.sib1, t) {
        return Cause::Sib1;
    }
    Cause::Bitmap
}

// Why subframe t, which is not usable, is not, p the pattern of the free ones: a free one is a message's.
pub fn why_not(c: CellConfig, p: Pattern, laid: bool, t: u64) -> Cause
    requires { Regular p }
    ensures { result ≡ why_not c p laid t }
{
    if laid {
        if spans::is_allowed(p, t) {
            return Cause::Message;
        }
    }
    why_not_free(c, t)
}

// Why subframe t is not usable, p the pattern of the free ones.
pub fn why(c: CellConfig, si: &[u64], p: Pattern, laid: bool, t: u64) -> Cause
    requires { Laid p laid (messages_in si.now) }
    ensures { result ≡ seen (lent_cell c si.now) p laid t }
{
    if subframes::is_left(p, laid, si, t) {
        return Cause::None;
    }
    why_not(c, p, laid, t)
}

// Why subframe t is not usable to eight numbers, by their own buffer.
fn cause_own(c: CellConfig, own: &[u8], t: u64) -> Result<Cause, Refusal>
    ensures { (ms : Messages) → is_silent ms ≡ true
        → cause_answer result ≡ cause_on (with_messages c ms) own.now t }
{
    config_refusal(c, own)?;
    let v = formed_alone(c, own)?;
    if spans::is_allowed(v.pattern, t) {
        return Ok(Cause::None);
    }
    Ok(why_not_free(c, t))
}

fn cause_alone(c: CellConfig, anchor: &[u8], other: &[u8], t: u64) -> Result<Cause, Refusal>
    ensures { (ms : Messages) → is_silent ms ≡ true
        → cause_answer result ≡ cause_of (with_messages c ms) anchor.now other.now t }
{
    if c.carrier == 0 {
        return cause_own(c, anchor, t);
    }
    cause_own(c, other, t)
}

// Why subframe t is not usable, beside messages.
fn cause_beside(
    c: CellConfig,
    si: &[u64],
    anchor: &[u8],
    other: &[u8],
    t: u64,
) -> Result<Cause, Refusal>
    ensures { cause_answer result ≡ cause_of (lent_cell c si.now) anchor.now other.now t }
{
    let v = judged_beside(c, si, anchor, other)?;
    Ok(why(c, si, v.pattern, v.laid, t))
}

// The answer: a refusal has its number and no cause.
fn cause_answer(judged: Result<Cause, Refusal>) -> CauseAnswer
    ensures { result ≡ cause_answer judged }
{
    match judged {
        Ok(cause) => CauseAnswer { no: 0, cause },
        Err(refusal) => CauseAnswer {
            no: refusal.number(),
            cause: Cause::None,
        },
    }
}

// Why subframe t is not usable: the first cause, or none.
pub fn cause_lent(c: CellConfig, si: &[u64], anchor: &[u8], other: &[u8], t: u64) -> CauseAnswer
    ensures { result ≡ cause_of (lent_cell c si.now) anchor.now other.now t }
{
    if subframes::is_silent(si) {
        return cause_answer(cause_alone(c, anchor, other, t));
    }
    cause_answer(cause_beside(c, si, anchor, other, t))
}

pub fn cause_at(c: Cell, anchor: &[u8], other: &[u8], t: u64) -> CauseAnswer
    ensures { result ≡ cause_of c anchor.now other.now t }
{
    let si = subframes::numbers(c.messages);
    cause_lent(c.config, &si, anchor, other, t)
}

// The number of a cause.
pub fn cause_number(cause: Cause) -> u64
    ensures { result ≡ cause_number cause }
{
    cause as u64
}

// The layout of a subframe of a cell.
pub fn layout(c: CellConfig) -> Layout
    ensures { result ≡ layout_of c }
{
    Layout {
        v: c.identity % 6,
        nports: c.nports,
        cports: c.cports,
        control: c.control,
    }
}

// The answer: the refusal number; E. No Result: `element_count_of` and the C interface speak of these fields.
#[derive(Clone, Copy)]
pub struct ElementCount {
    pub no: u64,
    pub e: u64,
}

// E of a cell, judged.
fn counted(c: CellConfig, judged: Result<Verdict, Refusal>) -> ElementCount
    requires { refused_by judged ≡ 0 → WellFormed c }
    ensures { result ≡ count_after (refused_by judged) c }
{
    match judged {
        Ok(_) => ElementCount {
            no: 0,
            e: elements::count(layout(c), 0, Grid::SUBCARRIERS),
        },
        Err(refusal) => ElementCount {
            no: refusal.number(),
            e: 0,
        },
    }
}

// E of eight numbers, by their own buffer.
fn count_own(c: CellConfig, own: &[u8]) -> ElementCount
    ensures { (ms : Messages) → is_silent ms ≡ true
        → result ≡ count_after (cell_refusal (with_messages c ms) own.now) c }
{
    if let Err(refusal) = config_refusal(c, own) {
        return ElementCount {
            no: refusal.number(),
            e: 0,
        };
    }
    counted(c, formed_alone(c, own))
}

fn count_alone(c: CellConfig, anchor: &[u8], other: &[u8]) -> ElementCount
    ensures { (ms : Messages) → is_silent ms ≡ true
        → result ≡ element_count_of (with_messages c ms) anchor.now other.now }
{
    if c.carrier == 0 {
        return count_own(c, anchor);
    }
    count_own(c, other)
}

// E of a cell: the eligible elements of a subframe.
pub fn count_lent(c: CellConfig, si: &[u64], anchor: &[u8], other: &[u8]) -> ElementCount
    ensures { result ≡ element_count_of (lent_cell c si.now) anchor.now other.now }
{
    if subframes::is_silent(si) {
        return count_alone(c, anchor, other);
    }
    counted(c, judged_beside(c, si, anchor, other))
}

pub fn element_count(c: Cell, anchor: &[u8], other: &[u8]) -> ElementCount
    ensures { result ≡ element_count_of c anchor.now other.now }
{
    let si = subframes::numbers(c.messages);
    count_lent(c.config, &si, anchor, other)
}

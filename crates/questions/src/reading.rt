// A line read: the question that it asks, or why it is none; and its values, kept.
ghost use Rattle.std.specs.Prelude.{◌≡◌, ◌≢◌, ◌<◌, false, length, slice_get};
ghost use Rattle.std.specs.Str.Lines.{strip_carriage_return};
ghost use Rattle.questions.specs.Line.{asks};
ghost use Rattle.questions.specs.declared.reading.Line.TheVariants.{Nothing, Wrong};
ghost use Rattle.questions.specs.declared.question.Fault.TheVariants.{Long};

use crate::question::{Fault, Kind, Question};
use crate::values::{Place, Values};
use messages::Schedule;
use nprach::Window;
use text::{Buffer, HexError};

// The longest line, its end aside.
const LONGEST: usize = 4096;

// What a line says: nothing; nothing that is a question, with what is at fault and the number of the word; that help
// is asked of a word, or of all; a question.
#[derive(Clone, Copy, PartialEq, Eq)]
pub enum Line<'a> {
    Nothing,
    Wrong(Fault, usize),
    Help(Option<&'a [u8]>),
    Asked(Question),
}

impl From<HexError> for Fault {
    fn from(error: HexError) -> Fault {
        match error {
            HexError::NotHex => Fault::Hex,
            HexError::TooLong => Fault::Size,
        }
    }
}

fn read_number(word: &[u8], largest: u64) -> Result<u64, Fault> {
    let number = text::decimal(word).ok_or(Fault::Number)?;
    if number > largest {
        return Err(Fault::Size);
    }
    Ok(number)
}

// As many numbers, with commas between them.
fn read_numbers<const N: usize>(word: &[u8]) -> Result<[u64; N], Fault> {
    let mut numbers = [0; N];
    let mut parts = word.split(|b| *b == b',');
    for number in numbers.iter_mut() {
        let part = parts.next().ok_or(Fault::Number)?;
        *number = text::decimal(part).ok_or(Fault::Number)?;
    }
    if parts.next().is_some() {
        return Err(Fault::Number);
    }
    Ok(numbers)
}

fn read_window(word: &[u8]) -> Result<Window, Fault> {
    let [period, start, length, tone] = read_numbers::<4>(word)?;
    Ok(Window {
        period,
        start,
        length,
        tone,
    })
}

fn read_schedule(word: &[u8]) -> Result<Schedule, Fault> {
    let [period, every, size] = read_numbers::<3>(word)?;
    Ok(Schedule {
        period,
        every,
        size,
    })
}

fn read_bytes<const N: usize>(word: &[u8]) -> Result<Buffer<N>, Fault> {
    if matches!(word, b"-") {
        return Ok(Buffer::new());
    }
    Ok(text::bytes_within(word)?)
}

// By itself, so that the memory of many bytes is cleared for such values alone.
fn keep_bytes<const N: usize>(word: &[u8], bytes: &mut Buffer<N>) -> Result<(), Fault> {
    *bytes = read_bytes(word)?;
    Ok(())
}

// Four bytes, the highest first.
fn read_pattern(word: &[u8]) -> Result<u32, Fault> {
    let bytes = text::bytes_within::<4>(word)?;
    match bytes.as_slice() {
        [a, b, c, d] => Ok(u32::from_be_bytes([*a, *b, *c, *d])),
        _ => Err(Fault::Size),
    }
}

// A value's name, and what stands after its equals sign; none of a word with a tab or carriage return in it.
fn split_value(word: &[u8]) -> Option<(&[u8], &[u8])> {
    if word.iter().any(|b| matches!(*b, b'\t' | b'\r')) {
        return None;
    }
    text::split_once(word, b'=')
}

// Keeps the value of a word.
fn keep_word(word: &[u8], values: &mut Values) -> Result<(), Fault> {
    let (name, value) = split_value(word).ok_or(Fault::Value)?;
    match values.place(name).ok_or(Fault::Name)? {
        Place::Number(number) => *number = read_number(value, u64::MAX)?,
        Place::Limited(number, largest) => *number = read_number(value, largest)?,
        Place::Pattern(pattern) => *pattern = read_pattern(value)?,
        Place::Bitmap(bitmap) => keep_bytes(value, bitmap)?,
        Place::Bytes(bytes) => keep_bytes(value, bytes)?,
        Place::Window(window) => *window = read_window(value)?,
        Place::Schedule(schedule) => *schedule = read_schedule(value)?,
    }
    Ok(())
}

// A word that help tells of: a question, a kind or a name.
fn is_known(word: &[u8]) -> bool {
    matches!(word, b"help")
        || Question::of(word, None) != Err(Fault::Question)
        || Kind::of(word).is_some()
        || Values::new().place(word).is_some()
}

// Help, by the word after that one, and whether more follow.
fn read_help(word: Option<&[u8]>, more: bool) -> Line<'_> {
    match word {
        None => Line::Help(None),
        Some(word) if !is_known(word) => Line::Wrong(Fault::Name, 2),
        Some(_) if more => Line::Wrong(Fault::Value, 3),
        Some(word) => Line::Help(Some(word)),
    }
}

// A line's words, with spaces between them, of which the last are values.
fn read_words<'a>(line: &'a [u8], values: &mut Values) -> Line<'a>
    ensures kept { asks result ≡ false → values.new ≡ values.old }
{
    let mut words = line.split(|b| *b == b' ');
    let Some(first) = words.next() else {
        return Line::Nothing;
    };
    let second = words.next();
    let third = words.next();
    if matches!(first, b"help") {
        return read_help(second, third.is_some());
    }
    let kind = second.and_then(|word| Kind::of(word));
    match Question::of(first, kind) {
        Err(Fault::Kind) => Line::Wrong(Fault::Kind, 2),
        Err(fault) => Line::Wrong(fault, 1),
        Ok(question) => {
            let (number, value) = if question.kind().is_some() {
                (3, third)
            } else {
                (2, second)
            };
            // a first word that is no value is told before all values are copied
            match value {
                None => Line::Asked(question),
                Some(word) if split_value(word).is_none() => Line::Wrong(Fault::Value, number),
                Some(_) => keep_words(line, question, values),
            }
        }
    }
}

// Keeps the values of the words of a question's line, if each of them is good.
fn keep_words<'a>(line: &'a [u8], question: Question, values: &mut Values) -> Line<'a>
    ensures kept { asks result ≡ false → values.new ≡ values.old }
{
    let named = if question.kind().is_some() { 2 } else { 1 };
    let mut kept = *values;
    let words = line.split(|b| *b == b' ');
    for (number, word) in (1..).zip(words).skip(named) {
        if let Err(fault) = keep_word(word, &mut kept) {
            return Line::Wrong(fault, number);
        }
    }
    *values = kept;
    Line::Asked(question)
}

// Reads a line, and keeps its values if it asks a question.
pub fn take_line<'a>(line: &'a [u8], values: &mut Values) -> Line<'a>
    ensures kept { asks result ≡ false → values.new ≡ values.old }
    ensures nothing { length line.now ≡ 0 → result ≡ Nothing }
    ensures remark { slice_get line.now 0 ≡ Some 35 → result ≡ Nothing }
    ensures long { 4096 < length line.now → slice_get line.now 0 ≢ Some 35 → result ≡ Wrong Long 0 }
{
    if matches!(line, [] | [b'#', ..]) {
        return Line::Nothing;
    }
    if line.len() > LONGEST {
        return Line::Wrong(Fault::Long, 0);
    }
    read_words(line, values)
}

// A line without the carriage return at its end.
pub fn without_return(line: &[u8]) -> &[u8]
    ensures { result.now ≡ strip_carriage_return line.now }
{
    line.strip_suffix(b"\r").unwrap_or(line)
}

#[cfg(test)]
mod tests {
    use super::*;

    #[test]
    fn questions(rt: HostRuntime) {
        let mut values = Values::new();
        let cases: [(&[u8], Line); 12] = [
            (b"", Line::Nothing),
            (b"# plan", Line::Nothing),
            (b" ", Line::Wrong(Fault::Question, 1)),
            (b"cell up", Line::Wrong(Fault::Kind, 2)),
            (b"plan", Line::Wrong(Fault::Kind, 2)),
            (b"plan sib1", Line::Wrong(Fault::Kind, 2)),
            (b"picture sib1", Line::Asked(Question::Picture(Kind::Sib1))),
            (b"help", Line::Help(None)),
            (b"help room", Line::Help(Some(b"room"))),
            (b"help ", Line::Wrong(Fault::Name, 2)),
            (b"help n bar", Line::Wrong(Fault::Value, 3)),
            (b"plan up ", Line::Wrong(Fault::Value, 3)),
        ];
        for (line, read) in cases {
            let answer = take_line(line, &mut values);
            assert!(rt; answer == read);
        }
    }

    #[test]
    fn faults_of_values(rt: HostRuntime) {
        let mut values = Values::new();
        let cases: [(&[u8], Fault); 14] = [
            (b"set n=1 n", Fault::Value),
            (b"set n=1 n=\t1", Fault::Value),
            (b"set n=1 q=1", Fault::Name),
            (b"set n=1 n=", Fault::Number),
            (b"set n=1 n=18446744073709551616", Fault::Number),
            (b"set n=1 room=1025", Fault::Size),
            (b"set n=1 anchor=abc", Fault::Hex),
            (b"set n=1 level=-", Fault::Hex),
            (b"set n=1 level=0011", Fault::Size),
            (b"set n=1 level=0011223344", Fault::Size),
            (b"set n=1 level=001122334g", Fault::Hex),
            (b"set n=1 w1=1,2,3", Fault::Number),
            (b"set n=1 w1=1,2,3,4,5", Fault::Number),
            (b"set n=1 m1=1,2", Fault::Number),
        ];
        for (line, fault) in cases {
            let answer = take_line(line, &mut values);
            assert!(rt; answer == Line::Wrong(fault, 3));
        }
        assert_eq!(rt; values.n, 0);
    }

    #[test]
    fn values_kept(rt: HostRuntime) {
        let mut values = Values::new();
        let line =
            b"plan up n=1 n=7 w4=1,2,3,4 m2=5,6,7 anchor=0aFF level=3f800000 room=1024 other=-";
        let answer = take_line(line, &mut values);
        assert!(rt; answer == Line::Asked(Question::Plan(Kind::Up)));
        assert_eq!(rt; values.n, 7);
        assert_eq!(rt; values.windows[3].tone, 4);
        assert_eq!(rt; values.schedules[1].size, 7);
        assert_eq!(rt; values.anchor.as_slice(), [0x0a, 0xff].as_slice());
        assert_eq!(rt; values.level, 0x3f80_0000);
        assert_eq!(rt; values.room, 1024);
        assert_eq!(rt; values.siwindow, 160);
    }

    #[test]
    fn bytes_that_fit(rt: HostRuntime) {
        let mut values = Values::new();
        let mut line = [b'0'; 145];
        line[..15].copy_from_slice(b"set n=1 anchor=");
        assert!(rt; take_line(&line, &mut values) == Line::Wrong(Fault::Size, 3));
        assert!(rt; take_line(&line[..144], &mut values) == Line::Wrong(Fault::Hex, 3));
        assert!(rt; take_line(&line[..143], &mut values) == Line::Asked(Question::Set));
        assert_eq!(rt; values.anchor.as_slice(), [0; 64].as_slice());
    }

    #[test]
    fn returns(rt: HostRuntime) {
        assert_eq!(rt; without_return(b"cell\r\r"), b"cell\r".as_slice());
        assert_eq!(rt; without_return(b"cell"), b"cell".as_slice());
    }
}

// Reads questions on standard input, one a line, and writes an answer line for each on standard output.
#![tactic(auto)]

ghost use Rattle.std.specs.Prelude.{◌≡◌, ◌+◌, ◌≤◌, length, string_bytes, IfOk, OnErr, OnOk};

use questions::{Line, Values};
use std::alloc::{AllocError, AllocFailed, Global};
use std::fmt;
use std::io::Read;

mod asked;
mod asking;
mod picture;
mod timeline;

// Answers of more bytes than this are written before the next line is answered.
const FULL: usize = 49_152;

// No answer has more bytes than this.
const LONGEST: usize = 16_384;

// So many bytes of a line are kept: two more than the longest has, since it is too long without a carriage return too.
const KEPT: usize = 4098;

// Why the program ends before its input does.
#[derive(Clone, Copy, Debug, PartialEq, Eq)]
enum Failure {
    Input,
    Output,
    Memory,
}

impl fmt::Display for Failure {
    fn fmt<W: fmt::Write>(&self, f: &mut fmt::Formatter<W>) -> fmt::Result {
        match self {
            Failure::Input => write!(f, "the input could not be read"),
            Failure::Output => write!(f, "answers could not be written"),
            Failure::Memory => write!(f, "no memory is left"),
        }
    }
}

impl From<AllocError> for Failure {
    fn from(_error: AllocError) -> Failure {
        Failure::Memory
    }
}

impl<T: Drop> From<AllocFailed<T>> for Failure {
    fn from(_error: AllocFailed<T>) -> Failure {
        Failure::Memory
    }
}

// Where the input stands: the line begun, and how many ended before it; the values kept, the answer begun, and the
// whole answers that are not yet written. There is room for all of them from the begin.
#[derive(Drop)]
struct Session {
    line: Vec<u8>,
    lines: u64,
    values: Values,
    begun: String,
    answers: String,
}

impl Session {
    fn new(alloc: Global) -> Result<Session, AllocError>
        ensures { IfOk result (λ session. length (string_bytes session.answers) ≡ 0) }
    {
        Ok(Session {
            line: Vec::with_capacity(alloc, KEPT)?,
            lines: 0,
            values: Values::new(),
            begun: String::with_capacity(alloc, LONGEST)?,
            answers: String::with_capacity(alloc, FULL + LONGEST)?,
        })
    }

    // Answers the line, which ends here; where no memory is left, it has no answer.
    fn answer(&mut self) -> Result<(), AllocError>
        ensures room { OnOk result
            (length (string_bytes self.new.answers) ≤ length (string_bytes self.old.answers) + 16384) }
        ensures kept { OnErr result (string_bytes self.new.answers ≡ string_bytes self.old.answers) }
    {
        // No input has more lines than are counted.
        self.lines = self.lines.saturating_add(1);
        // An empty line has no answer.
        if self.line.is_empty() {
            return Ok(());
        }
        let line = questions::without_return(&self.line);
        self.begun.clear();
        let out = &mut self.begun;
        match questions::take_line(line, &mut self.values) {
            Line::Nothing => {}
            Line::Wrong(fault, word) => answers::write_fault(fault, self.lines, word, out)?,
            Line::Help(word) => answers::write_help(word, out)?,
            Line::Asked(question) => asking::ask(question, &mut self.values, out)?,
        }
        if !self.begun.is_empty() {
            self.answers.push_str(&self.begun)?;
        }
        self.line.clear();
        Ok(())
    }

    fn write_out(&mut self, rt: &impl Print) -> Result<(), Failure>
        ensures { OnOk result (length (string_bytes self.new.answers) ≡ 0) }
    {
        rt.write_all(self.answers.as_bytes())
            .map_err(|_| Failure::Output)?;
        self.answers.clear();
        Ok(())
    }

    // Takes a block of input, byte by byte, and answers each line that ends in it.
    fn answer_lines(&mut self, rt: &(impl Print + AllocGlobal), block: &[u8]) -> Result<(), Failure>
        requires { length (string_bytes self.old.answers) ≤ 65536 }
        ensures { OnOk result (length (string_bytes self.new.answers) ≤ 65536) }
    {
        for b in block {
            if *b == b'\n' {
                if self.answers.len() > FULL {
                    self.write_out(rt)?;
                }
                self.answer()?;
            } else if self.line.len() < KEPT {
                self.line.push(*b)?;
            }
        }
        Ok(())
    }

    // Takes a block of input and writes its answers; where no memory is left for a line, those of the lines before it.
    fn take(&mut self, rt: &(impl Print + AllocGlobal), block: &[u8]) -> Result<(), Failure>
        requires { length (string_bytes self.old.answers) ≤ 65536 }
        ensures { OnOk result (length (string_bytes self.new.answers) ≤ 65536) }
    {
        let answered = self.answer_lines(rt, block);
        if matches!(answered, Err(Failure::Output)) {
            return answered;
        }
        self.write_out(rt)?;
        answered
    }
}

// Answers the input to its end. The blocks are counted up to a number that no input uses up, so that the loop is seen
// to end. A last line with no newline is taken as if it had one.
fn run(rt: &(impl Input + Print + AllocGlobal)) -> Result<(), Failure> {
    let mut session = Session::new(rt.alloc())?;
    let mut block = [0u8; 65536];
    for _ in 0..u64::MAX {
        let n = rt.reader().read(&mut block).map_err(|_| Failure::Input)?;
        if n == 0 {
            break;
        }
        session.take(rt, &block[..n])?;
    }
    session.take(rt, b"\n")
}

// What cannot be complained of is let go.
fn main(rt: HostRuntime) {
    if let Err(failure) = run(&rt) {
        let _ = eprintln!(rt; "query: {failure}");
    }
}

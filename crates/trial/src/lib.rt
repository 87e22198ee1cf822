// What the test program is made of: the cases of an input, slices lent with a known content, and printing.
#![tactic(auto)]

ghost use Rattle.std.specs.Prelude.{◌≡◌, ◌<◌, ◌&&◌, ◌++◌, length, take, drop, MatchOption};
ghost use Rattle.trial.specs.Case.{Within};
ghost use Rattle.trial.specs.Lent.{lent};

use model::{Forecast, Log, Refusal};
use std::fmt;

// The bytes in front of a case.
pub const HEAD: usize = 10;

// What lent slices hold before a call.
pub const LENT: u8 = 165;

// A case of an input. Its first ten bytes are a letter, the question number, the length of the cut, 1 if the bar space is to be one
// cell short, and in two bytes each the cells of the workspace, the size of the output and the length of the log, logs or list. The cut,
// or what is said in its place, stands behind them, and the log, logs or list behind that.
#[derive(Clone, Copy)]
pub struct Case<'a> {
    pub letter: u8,
    pub question: usize,
    pub short: bool,
    pub cells: usize,
    pub size: usize,
    pub cut: &'a [u8],
    pub data: &'a [u8],
}

// As many bytes as are asked for, or as there are, and the others.
fn front(bytes: &[u8], len: usize) -> (&[u8], &[u8])
    ensures parts { (result.0.now ≡ take len bytes.now) × (result.1.now ≡ drop len bytes.now) }
    ensures whole { bytes.now ≡ result.0.now ++ result.1.now }
{
    bytes.split_at(len.min(bytes.len()))
}

// The case in front, and what stands behind it; the input's end is also its end.
pub fn first_case(input: &[u8]) -> Option<(Case, &[u8])>
    ensures { MatchOption result (length input.now < HEAD) (λ p. Within input.now p.0 p.1.now) }
{
    let (head, rest) = input.split_first_chunk::<HEAD>()?;
    let (cut, rest) = front(rest, usize::from(head[2]));
    let (data, rest) = front(rest, usize::from(u16::from_be_bytes([head[8], head[9]])));
    let case = Case {
        letter: head[0],
        question: usize::from(head[1]),
        short: head[3] % 2 == 1,
        cells: usize::from(u16::from_be_bytes([head[4], head[5]])),
        size: usize::from(u16::from_be_bytes([head[6], head[7]])),
        cut,
        data,
    };
    Some((case, rest))
}

// Are all bytes as lent?
fn as_lent(bytes: &[u8]) -> bool
    ensures { result ≡ lent bytes.now }
{
    bytes.iter().all(|b| *b == LENT)
}

// PRINTING

// What the test program prints of a value: each number after a blank.
#[derive(Clone, Copy)]
pub struct Shown<T>(pub T);

// A refusal's number and line.
impl fmt::Display for Shown<Refusal> {
    fn fmt<W: fmt::Write>(&self, f: &mut fmt::Formatter<W>) -> fmt::Result {
        let Refusal { fault, line } = self.0;
        write!(f, " refused {} {line}", u8::from(fault))
    }
}

// The counts of an accepted log, and the length of its list.
impl fmt::Display for Shown<Log> {
    fn fmt<W: fmt::Write>(&self, f: &mut fmt::Formatter<W>) -> fmt::Result {
        let Log {
            stations,
            events,
            questions,
            list,
        } = self.0;
        write!(f, " {stations} {events} {questions} {list}")
    }
}

// The figures of a forecast.
impl fmt::Display for Shown<Forecast> {
    fn fmt<W: fmt::Write>(&self, f: &mut fmt::Formatter<W>) -> fmt::Result {
        let Forecast {
            width,
            bars,
            held,
            cells,
            ceiling,
        } = self.0;
        write!(f, " {width} {bars} {held} {cells} {ceiling}")
    }
}

// The bytes as numbers.
impl fmt::Display for Shown<&[u8]> {
    fn fmt<W: fmt::Write>(&self, f: &mut fmt::Formatter<W>) -> fmt::Result {
        for byte in self.0 {
            write!(f, " {byte}")?;
        }
        Ok(())
    }
}

// Whether what was not to be written is as lent.
#[derive(Clone, Copy)]
pub struct Kept(bool);

impl Kept {
    // Where none of these was.
    pub fn all(ws: &[u8], bs: &[u8], out: &[u8]) -> Kept
        ensures { result.0 ≡ (lent ws.now && lent bs.now && lent out.now) }
    {
        Kept(as_lent(ws) && as_lent(bs) && as_lent(out))
    }
}

impl fmt::Display for Kept {
    fn fmt<W: fmt::Write>(&self, f: &mut fmt::Formatter<W>) -> fmt::Result {
        f.write_str(if self.0 { " kept" } else { " touched" })
    }
}

// An output: what was written in front, and whether the bytes past it are as lent.
#[derive(Clone, Copy)]
pub struct Output<'a> {
    pub written: &'a [u8],
    pub kept: Kept,
}

impl Output<'_> {
    // Where so many bytes were written.
    pub fn of(out: &[u8], len: usize) -> Output
        ensures { (result.written.now ≡ take len out.now) × (result.kept.0 ≡ lent (drop len out.now)) }
    {
        let (written, rest) = front(out, len);
        Output {
            written,
            kept: Kept(as_lent(rest)),
        }
    }
}

// The written bytes as digits.
impl fmt::Display for Output<'_> {
    fn fmt<W: fmt::Write>(&self, f: &mut fmt::Formatter<W>) -> fmt::Result {
        write!(f, " ")?;
        for byte in self.written {
            write!(f, "{byte:02x}")?;
        }
        write!(f, "{}", self.kept)
    }
}

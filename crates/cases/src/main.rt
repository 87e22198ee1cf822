// Runs the operations and the program on the cases of standard input, and prints what each hands back and leaves in what was lent to it.
// A case's letter says what is run: R for Read, W for Write, M for Merge, F for Forecast, A for Answer, H for Holds, P for the program, E
// for the program and then each question by its forecast, L for the walk over a line, and any other the bases.
#![tactic(auto)]

use host::{read_input, write_bytes};
use model::Log;
use std::io;
use trial::{Case, Kept, Output, Shown};
use walk::{Frame, Malformed};

// The most that a case may lend as output.
const OUTPUT: usize = Log::BYTES + 8;

// The most that is read.
const INPUT: usize = 0x0048_0000;

// Cells for every question of every accepted log.
const WORKSPACE: usize = Log::HELD * Log::STATIONS * (Log::EVENTS + 1);

// Reads the log of a case.
fn read_case(rt: &HostRuntime, log: &[u8], out: &mut [u8]) -> io::Result<()> {
    match op_read_write::read(log, out) {
        Ok(read) => println!(rt; "{}{}", Shown(read), Output::of(out, read.list)),
        Err(refusal) => println!(rt; "{}{}", Shown(refusal), Output::of(out, 0)),
    }
}

// Writes the frame list of a case.
fn write_case(rt: &HostRuntime, list: &[u8], out: &mut [u8]) -> io::Result<()> {
    match op_read_write::write(list, out) {
        Ok(len) => println!(rt; " {len}{}", Output::of(out, len)),
        Err(refusal) => println!(rt; "{}{}", Shown(refusal), Output::of(out, 0)),
    }
}

// Merges the two logs of a case: `length` says in two bytes how many bytes the first has, and the second stands behind them.
fn merge_case(rt: &HostRuntime, logs: &[u8], length: &[u8], out: &mut [u8]) -> io::Result<()> {
    let &[high, low] = length else {
        return Ok(());
    };
    let first = usize::from(u16::from_be_bytes([high, low]));
    let Some((log, second)) = logs.split_at_checked(first) else {
        return Ok(());
    };
    match op_merge::merge(log, second, out) {
        Ok(len) => println!(rt; " {len}{}", Output::of(out, len)),
        Err(refusal) => println!(rt; "{}{}", Shown(refusal), Output::of(out, 0)),
    }
}

// Answers a question of the log: prints the line as it is.
fn answer_case(
    rt: &HostRuntime,
    log: &[u8],
    question: usize,
    ws: &mut [u8],
    bs: &mut [u8],
    out: &mut [u8],
) -> io::Result<()> {
    match answer::answer(log, question, ws, bs, out) {
        Ok(len) => {
            let Output { written, kept } = Output::of(out, len);
            println!(rt; "{kept}")?;
            write_bytes(rt, written)
        }
        Err(refusal) => println!(rt; "{}{}", Shown(refusal), Kept::all(ws, bs, out)),
    }
}

// Tests a question at a cut.
fn holds_case(
    rt: &HostRuntime,
    log: &[u8],
    question: usize,
    cut: &[u8],
    ws: &mut [u8],
    bs: &mut [u8],
    out: &[u8],
) -> io::Result<()> {
    match holds::holds(log, question, cut, ws, bs) {
        Ok(true) => println!(rt; " yes"),
        Ok(false) => println!(rt; " no"),
        Err(refusal) => println!(rt; "{}{}", Shown(refusal), Kept::all(ws, bs, out)),
    }
}

// Walks over a line of the log: `line` says in two bytes each where it starts and how many bytes it has. Of a line whose form is wrong
// it says whether more was looked at than it has.
fn walk_case(rt: &HostRuntime, log: &[u8], line: &[u8], out: &mut [u8]) -> io::Result<()> {
    let &[at_high, at_low, own_high, own_low] = line else {
        return Ok(());
    };
    let at = usize::from(u16::from_be_bytes([at_high, at_low]));
    let own = usize::from(u16::from_be_bytes([own_high, own_low]));
    if out.len() != 100 || log.len() <= at {
        return Ok(());
    }
    match walk::walk_line(log, at, out) {
        Ok(Frame { length, sum, looks }) => {
            println!(rt; " {length} {sum} {looks}{}", Output::of(out, length))
        }
        Err(Malformed { looks }) if looks <= own => println!(rt; " malformed"),
        Err(_) => println!(rt; " malformed, more was looked at"),
    }
}

// Runs the program on the log.
fn print_case(rt: &HostRuntime, log: &[u8]) -> io::Result<()> {
    println!(rt)?;
    let mut out = [0u8; print::PRINTED];
    let size = print::print_log(log, &mut out);
    write_bytes(rt, &out[..size])
}

// Forecasts a question of the log: hands back the cells, or none if it is refused.
fn forecast_case(rt: &HostRuntime, log: &[u8], question: usize) -> io::Result<Option<usize>> {
    match forecast::forecast(log, question) {
        Ok(figures) => {
            println!(rt; "{}", Shown(figures))?;
            Ok(Some(figures.cells))
        }
        Err(refusal) => {
            println!(rt; "{}", Shown(refusal))?;
            Ok(None)
        }
    }
}

// Answers a question of the log in a workspace of so many cells.
fn answer_within(rt: &HostRuntime, log: &[u8], question: usize, cells: usize) -> io::Result<()> {
    if WORKSPACE < cells {
        return Ok(());
    }
    let mut ws = filled::<WORKSPACE>(trial::LENT);
    let mut bs = filled::<{ Log::BARSPACE }>(trial::LENT);
    let mut out = filled::<OUTPUT>(trial::LENT);
    answer_case(rt, log, question, &mut ws[..cells], &mut bs, &mut out)
}

// Forecasts each question of the log, and answers it lent one cell less than forecast, and lent just these cells.
fn each_case(rt: &HostRuntime, log: &[u8]) -> io::Result<()> {
    for question in 0..=Log::QUESTIONS {
        let Some(cells @ 1..) = forecast_case(rt, log, question)? else {
            return Ok(());
        };
        answer_within(rt, log, question, cells - 1)?;
        answer_within(rt, log, question, cells)?;
    }
    Ok(())
}

// Runs a case in what is lent to it.
fn run_case(
    rt: &HostRuntime,
    case: Case,
    ws: &mut [u8],
    bs: &mut [u8],
    out: &mut [u8],
) -> io::Result<()> {
    let Case {
        letter,
        question,
        cut,
        data,
        ..
    } = case;
    write_bytes(rt, &[letter])?;
    // By the letters themselves: no other place asks what one means.
    match letter {
        b'R' => read_case(rt, data, out),
        b'W' => write_case(rt, data, out),
        b'M' => merge_case(rt, data, cut, out),
        b'F' => {
            forecast_case(rt, data, question)?;
            Ok(())
        }
        b'A' => answer_case(rt, data, question, ws, bs, out),
        b'H' => holds_case(rt, data, question, cut, ws, bs, out),
        b'P' => print_case(rt, data),
        b'E' => {
            print_case(rt, data)?;
            each_case(rt, data)
        }
        b'L' => walk_case(rt, data, cut, out),
        _ => bases::print_case(rt, data),
    }
}

// The spaces and the input's room are made here, so that no other proof has to look at their cells.
fn filled<const N: usize>(byte: u8) -> [u8; N] {
    [byte; N]
}

// Lends a case spaces of the sizes that it names.
fn lend(rt: &HostRuntime, case: Case) -> io::Result<()> {
    let Case {
        short,
        cells,
        size,
        ..
    } = case;
    if OUTPUT < size || WORKSPACE < cells {
        return Ok(());
    }
    let mut ws = filled::<WORKSPACE>(trial::LENT);
    let mut bs = filled::<{ Log::BARSPACE }>(trial::LENT);
    let mut out = filled::<OUTPUT>(trial::LENT);
    let bars = Log::BARSPACE - usize::from(short);
    run_case(
        rt,
        case,
        &mut ws[..cells],
        &mut bs[..bars],
        &mut out[..size],
    )
}

// Runs the cases of the input one after the other.
fn run_cases(rt: &HostRuntime, input: &[u8]) -> io::Result<()> {
    let mut rest = input;
    // By what is left: how long a case is stands in its own first bytes.
    while let Some((case, behind)) = trial::first_case(rest) {
        lend(rt, case)?;
        rest = behind;
    }
    Ok(())
}

fn main(rt: HostRuntime) -> io::Result<()> {
    let mut room = filled::<INPUT>(0);
    let n = read_input(&rt, &mut room)?;
    run_cases(&rt, &room[..n])
}

// The lines of a log.
ghost use Rattle.std.specs.Prelude.{◌≡◌, ◌∷◌, ◌+◌, ◌≤◌, ◌<◌, length};
ghost use Rattle.model.specs.Limits.{limits};
ghost use Rattle.codec.specs.Limits.{NoLarger};
ghost use Rattle.cells.specs.Put.{put_of};
ghost use Rattle.frame.specs.State.{Bounded};
ghost use Rattle.load.specs.Loading.{Tries, Within, Reads, Left, Loads, written};

use crate::{List, Loaded, Position, Unread};
use admit::admit;
use model::{Fault, Limits, Refusal};
use table::Store;
use walk::{Frame, walk_line};

// Puts a frame's length and the frame into the list from `at` on.
fn put_entry(frame: &[u8], list: &mut [u8], at: usize)
    requires { (length frame.now ≤ 99) × (at + length frame.now + 1 ≤ length list.old) }
    ensures { list.new ≡ put_of list.old at (length frame.now ∷ frame.now) }
{
    list[at] = frame.len() as u8;
    cells::put(frame, list, at + 1);
}

// Tries the frame at p; the next line starts at `next`.
fn load_frame(
    m: Limits,
    p: Position,
    frame: &[u8],
    next: usize,
    list: &mut List,
    store: &mut Store,
) -> Result<Position, Fault>
    requires no_larger { NoLarger m limits × Bounded m p.state }
    requires in_bounds { (1 ≤ length frame.now) × (length frame.now ≤ 99) × (p.length + length frame.now + 1 ≤ limits.list) × (p.line ≤ limits.bytes + 1) }
    ensures { Tries m p frame.now next list.old store.old result list.new store.new }
{
    let state = admit(m, p.state, frame, store)?;
    put_entry(frame, list, p.length);
    Ok(Position {
        at: next,
        line: p.line + 1,
        length: p.length + frame.len() + 1,
        state,
    })
}

// Reads the line at p.
fn load_line(
    m: Limits,
    log: &[u8],
    p: Position,
    list: &mut List,
    store: &mut Store,
) -> Result<Position, Fault>
    requires no_larger { NoLarger m limits × Within m log.now p }
    requires at_in_bounds { (p.at < length log.now) × (length log.now ≤ m.bytes) }
    ensures { Reads m log.now p list.old store.old result list.new store.new }
{
    let mut bytes = [0u8; 100];
    let Ok(Frame { length, sum, looks }) = walk_line(log, p.at, &mut bytes) else {
        return Err(Fault::LineForm);
    };
    if sum != 0 {
        return Err(Fault::CheckByte);
    }
    load_frame(m, p, &bytes[..length - 1], p.at + looks, list, store)
}

// Reads the lines of a log that is not too long.
pub(crate) fn load_lines(
    m: Limits,
    log: &[u8],
    list: &mut List,
    store: &mut Store,
) -> Result<Loaded, Unread>
    requires no_larger { NoLarger m limits }
    requires log_len_bound { length log.now ≤ m.bytes }
    ensures loads { Loads m log.now result list.new store.new }
    ensures left { Left (written result) list.old list.new }
{
    let mut p = Position::first();
    // By a position: where a line ends is known only once it is read.
    while p.at < log.len() {
        p = match load_line(m, log, p, list, store) {
            Ok(next) => next,
            Err(fault) => return Err(p.unread(fault)),
        };
    }
    if p.state.stations == 0 {
        return Err(Unread {
            refusal: Refusal {
                fault: Fault::Kind,
                line: 1,
            },
            length: p.length,
        });
    }
    Ok(Loaded {
        state: p.state,
        length: p.length,
    })
}

// The entries of a frame list: their lengths tested, their frames tried one after the other, their lines written.
#![tactic(auto)]

ghost use Rattle.std.specs.Prelude.{◌≡◌, ◌+◌, ◌≤◌, ◌<◌, length};
ghost use Rattle.model.specs.Limits.{limits};
ghost use Rattle.model.specs.Frames.{frames_of, log_of};
ghost use Rattle.codec.specs.Limits.{NoLarger};
ghost use Rattle.cells.specs.Put.{put_of};
ghost use Rattle.codec.specs.Entries.{formed, Formed, entries};
ghost use Rattle.entries.specs.Entries.{Partly, Entered, Tried};

use admit::admit;
use load::Position;
use model::{Fault, Limits, Refusal};
use table::Store;

// Is each length from 1 to 99, and no frame past the end?
pub fn lengths_ok(list: &[u8]) -> bool
    ensures { result ≡ formed (frames_of list.now) }
{
    let mut rest = list;
    // By what is left: each entry's first byte tells its end. No iterator of the library steps so, and a closure that does is no plainer.
    while let [k, behind @ ..] = rest {
        let k = usize::from(*k);
        if k < 1 || 99 < k || behind.len() < k {
            return false;
        }
        rest = &behind[k..];
    }
    true
}

// Tries the frame of the list that stands at p.
fn try_entry(m: Limits, list: &[u8], p: Position, store: &mut Store) -> Result<Position, Fault>
    requires no_larger { NoLarger m limits × Partly m list.now p store.old }
    requires length_in_bounds { (p.length < length list.now) × (length list.now ≤ m.list) }
    ensures { Entered m list.now p result store.new }
{
    let start = p.length + 1;
    let end = start + usize::from(list[p.length]);
    let state = admit(m, p.state, &list[start..end], store)?;
    Ok(Position {
        at: end,
        line: p.line + 1,
        length: end,
        state,
    })
}

// Tries all frames of a list.
pub fn try_entries(m: Limits, list: &[u8], store: &mut Store) -> Result<(), Refusal>
    requires no_larger { NoLarger m limits × Formed list.now }
    requires list_len_bound { length list.now ≤ m.list }
    ensures { Tried m result list.now }
{
    let mut p = Position::first();
    // By a position: where a frame ends is known only by its length byte.
    while p.length < list.len() {
        p = match try_entry(m, list, p, store) {
            Ok(next) => next,
            Err(fault) => return Err(Refusal {
                fault,
                line: p.line,
            }),
        };
    }
    if p.state.stations == 0 {
        return Err(Refusal {
            fault: Fault::Kind,
            line: 1,
        });
    }
    Ok(())
}

// Writes the lines of all frames of a list; hands back where they end.
pub fn put_lines(list: &[u8], out: &mut [u8]) -> usize
    requires formed { Formed list.now }
    requires list_in_bounds { length (log_of (entries list.now)) ≤ length out.old }
    ensures value { result ≡ length (log_of (entries list.now)) }
    ensures out_after { out.new ≡ put_of out.old 0 (log_of (entries list.now)) }
{
    let mut rest = list;
    let mut end = 0;
    // By what is left: each entry's first byte tells its end. No iterator of the library steps so, and a closure that does is no plainer.
    while let [k, behind @ ..] = rest {
        let (frame, others) = behind.split_at(usize::from(*k));
        end = wire::put_line(frame, out, end);
        rest = others;
    }
    end
}

// An event, a message or a question, as it stands in the merged log.
ghost use Rattle.std.specs.Prelude.{◌≡◌, ◌+◌, ◌≤◌, length, get_or, take, drop};
ghost use Rattle.model.specs.Bytes.{line};
ghost use Rattle.cells.specs.Put.{put_of};
ghost use Rattle.write_beside.specs.declared.Part.TheVariants.{Events, Messages};
ghost use Rattle.write_beside.specs.Moved.{Covered, kind, moved, Fits};

use crate::report::{put_bytes, put_report, put_zeros};
use crate::{EVENT, Part, Side};
use model::Kind;
use table::report_size;

// Makes the event at the front of `event`: its station numbered on, its clock with zeros for the stations of the other log. Hands back its
// length.
fn moved_event(side: Side, frame: &[u8], event: &mut [u8; EVENT]) -> usize
    requires { Covered side × Fits Events side (drop 1 frame.now) }
    ensures { (result ≡ length (moved Events side (drop 1 frame.now))) × (take result event.new ≡ moved Events side (drop 1 frame.now)) }
{
    event[0] = u8::from(Kind::Event);
    event[1] = side.before as u8 + frame[1];
    let clock = put_report(side, &frame[2..], event, 2);
    let own = put_zeros(side.before, event, clock);
    let end = put_bytes(&frame[2 + report_size(side.panelled)..], event, own);
    put_zeros(side.behind, event, end)
}

// Writes the line of an event.
fn put_event(side: Side, frame: &[u8], out: &mut [u8], at: usize) -> usize
    requires covered { Covered side × Fits Events side (drop 1 frame.now) }
    requires frame_in_bounds { at + length (line (moved Events side (drop 1 frame.now))) ≤ length out.old }
    ensures { (result ≡ at + length (line (moved Events side (drop 1 frame.now)))) × (out.new ≡ put_of out.old at (line (moved Events side (drop 1 frame.now)))) }
{
    let mut event = [0u8; EVENT];
    let k = moved_event(side, frame, &mut event);
    wire::put_line(&event[..k], out, at)
}

// Writes the line of a message, its stations numbered on.
fn put_message(side: Side, frame: &[u8], out: &mut [u8], at: usize) -> usize
    requires fits { Fits Messages side (drop 1 frame.now) }
    requires frame_in_bounds { at + length (line (moved Messages side (drop 1 frame.now))) ≤ length out.old }
    ensures { (result ≡ at + length (line (moved Messages side (drop 1 frame.now)))) × (out.new ≡ put_of out.old at (line (moved Messages side (drop 1 frame.now)))) }
{
    let a = side.before as u8;
    let message = [
        u8::from(Kind::Message),
        a + frame[1],
        frame[2],
        a + frame[3],
        frame[4],
    ];
    wire::put_line(&message, out, at)
}

// Writes the line of a frame of a part.
// By the part: the contract goes by it, and a closure for each would need one of its own.
pub(crate) fn put_moved(part: Part, side: Side, frame: &[u8], out: &mut [u8], at: usize) -> usize
    requires covered { Covered side × (1 ≤ length frame.now) × (get_or frame.now 0 0 ≡ kind part) × Fits part side (drop 1 frame.now) }
    requires frame_in_bounds { at + length (line (moved part side (drop 1 frame.now))) ≤ length out.old }
    ensures { (result ≡ at + length (line (moved part side (drop 1 frame.now)))) × (out.new ≡ put_of out.old at (line (moved part side (drop 1 frame.now)))) }
{
    match part {
        Part::Events => put_event(side, frame, out, at),
        Part::Messages => put_message(side, frame, out, at),
        Part::Questions => wire::put_line(frame, out, at),
    }
}

// The operation Merge: two logs written as one.
#![tactic(auto)]

ghost use Rattle.std.specs.Prelude.{◌≡◌, ◌+◌, ◌≤◌, ltb, ◌||◌, length};
ghost use Rattle.model.specs.Limits.{limits};
ghost use Rattle.model.specs.Reading.{Reading};
ghost use Rattle.model.specs.Reply.{write_reply};
ghost use Rattle.model.specs.Operations.{merge_op, merged_log};
ghost use Rattle.model.specs.Promise.{Merges};
ghost use Rattle.cells.specs.Put.{put_of};
ghost use Rattle.op_merge.specs.Opened.{Opened, Within, Fitting};

use frame::State;
use frames::frame_at;
use limits::limits;
use load::load;
use model::{Fault, Log, Refusal};
use write_beside::{Part, Side, put_header, put_part};

// Do the reports of the merged log carry a panel? If those of one of the two logs do.
fn carried(s: State, t: State) -> bool
    ensures { result ≡ (s.panelled || t.panelled) }
{
    s.panelled || t.panelled
}

// Writes the frames of both logs: the header, the events and the messages of both, the questions of the first. Hands back the length.
fn put_frames(s: State, list: &[u8], t: State, more: &[u8], out: &mut [u8]) -> usize
    requires fitting { Fitting s list.now t more.now }
    requires bytes_in_bounds { limits.bytes ≤ length out.old }
    ensures { (x y : Reading) → Opened x s list.now → Opened y t more.now → (result ≡ length (merged_log x y)) × (out.new ≡ put_of out.old 0 (merged_log x y)) }
{
    let carried = carried(s, t);
    // The stations of the second log stand behind those of the first.
    let one = Side {
        panelled: s.panelled,
        carried,
        before: 0,
        behind: t.stations,
    };
    let two = Side {
        panelled: t.panelled,
        carried,
        before: s.stations,
        behind: 0,
    };
    let header = put_header(one, frame_at(list, 0), two, frame_at(more, 0), out);
    let first = put_part(Part::Events, one, list, out, header);
    let events = put_part(Part::Events, two, more, out, first);
    let sent = put_part(Part::Messages, one, list, out, events);
    let messages = put_part(Part::Messages, two, more, out, sent);
    put_part(Part::Questions, one, list, out, messages)
}

// More stations together than a log may have?
fn too_wide(s: State, t: State) -> bool
    requires { Within s × Within t }
    ensures { result ≡ ltb limits.stations (s.stations + t.stations) }
{
    Log::STATIONS < s.stations + t.stations
}

// More events, or more messages?
fn too_many(s: State, t: State) -> bool
    requires { Within s × Within t }
    ensures { result ≡ (ltb limits.events (s.events + t.events) || ltb limits.messages (s.messages + t.messages)) }
{
    Log::EVENTS < s.events + t.events || Log::MESSAGES < s.messages + t.messages
}

// Writes two logs as one; nothing lent is touched before the last check has passed.
pub fn merge(first: &[u8], second: &[u8], out: &mut [u8]) -> Result<usize, Refusal>
    ensures result_value { write_reply result ≡ (merge_op limits first.now second.now out.old).reply }
    ensures out_after { out.new ≡ (merge_op limits first.now second.now out.old).output }
    ensures merges { Merges limits first.now second.now (write_reply result) out.new }
{
    let mut list = [0u8; Log::LIST];
    let mut store = [0u8; Log::STORE];
    let one = load(limits(), first, &mut list, &mut store)?;
    // Made here: a log that is refused pays for no second list.
    let mut more = [0u8; Log::LIST];
    let two = load(limits(), second, &mut more, &mut store)?;
    let s = one.state;
    let t = two.state;
    let wide = too_wide(s, t);
    let many = too_many(s, t);
    if wide {
        return Err(Fault::TooWide.into());
    }
    if many {
        return Err(Fault::TooMany.into());
    }
    if out.len() < Log::BYTES {
        return Err(Fault::Output.into());
    }
    Ok(put_frames(s, &list[..one.length], t, &more[..two.length], out))
}

// The operations Read and Write.
#![tactic(auto)]

ghost use Rattle.std.specs.Prelude.{◌≡◌, cond, ◌≤◌, leb, length};
ghost use Rattle.model.specs.Limits.{limits};
ghost use Rattle.model.specs.Reply.{read_reply, write_reply};
ghost use Rattle.model.specs.Operations.{read_op, write_op};
ghost use Rattle.model.specs.Promise.{Rewritten, Reread};
ghost use Rattle.cells.specs.Put.{put_of};

use entries::{lengths_ok, put_lines, try_entries};
use limits::limits;
use load::{Loaded, load};
use model::{Fault, Log, Refusal};

// Puts the frame list of a log at the front of the output, if that has room for any list; tells whether it has.
// A function of its own: its contract says that an output without room stays as it was.
fn put_list(list: &[u8], out: &mut [u8]) -> bool
    requires { length list.now ≤ limits.list }
    ensures value { result ≡ leb limits.list (length out.old) }
    ensures out_after { out.new ≡ cond (leb limits.list (length out.old)) (put_of out.old 0 list.now) out.old }
{
    if Log::LIST <= out.len() {
        cells::put(list, out, 0);
    }
    Log::LIST <= out.len()
}

// Reads a log into the frame list; nothing lent is touched before the last check has passed.
pub fn read(log: &[u8], out: &mut [u8]) -> Result<Log, Refusal>
    ensures result_value { read_reply result ≡ (read_op limits log.now out.old).reply }
    ensures out_after { out.new ≡ (read_op limits log.now out.old).output }
    ensures rewritten { Rewritten limits log.now (read_reply result) out.new }
{
    let mut list = [0u8; Log::LIST];
    let mut store = [0u8; Log::STORE];
    let Loaded { state, length } = load(limits(), log, &mut list, &mut store)?;
    if !put_list(&list[..length], out) {
        return Err(Fault::Output.into());
    }
    Ok(Log {
        stations: state.stations,
        events: state.events,
        questions: state.questions,
        list: length,
    })
}

// Writes the log of a frame list; nothing lent is touched before the last check has passed.
pub fn write(list: &[u8], out: &mut [u8]) -> Result<usize, Refusal>
    ensures result_value { write_reply result ≡ (write_op limits list.now out.old).reply }
    ensures out_after { out.new ≡ (write_op limits list.now out.old).output }
    ensures reread { Reread limits list.now (write_reply result) out.new }
{
    if Log::LIST < list.len() || !lengths_ok(list) {
        return Err(Fault::FrameList.into());
    }
    let mut store = [0u8; Log::STORE];
    try_entries(limits(), list, &mut store)?;
    if out.len() < Log::BYTES {
        return Err(Fault::Output.into());
    }
    Ok(put_lines(list, out))
}

// The message frame, tried after what has been read.
#![tactic(auto)]

ghost use Rattle.std.specs.Prelude.{◌≡◌, ◌≤◌, length, get_or};
ghost use Rattle.model.specs.Limits.{limits};
ghost use Rattle.model.specs.Codes.{kind_byte};
ghost use Rattle.model.specs.declared.Kind.TheVariants.{Message};
ghost use Rattle.codec.specs.Limits.{NoLarger};
ghost use Rattle.frame.specs.State.{Bounded, Admits};

use frame::State;
use model::{Fault, Limits, Log};
use table::message::message_ok;
use table::{Store, message_slot};

// Admits a message, within the limits m.
pub fn message(m: Limits, s: State, frame: &[u8], store: &mut Store) -> Result<State, Fault>
    requires no_larger { NoLarger m limits × Bounded m s }
    requires in_bounds { (1 ≤ length frame.now) × (get_or frame.now 0 0 ≡ kind_byte Message) }
    ensures { Admits m s frame.now store.old result store.new }
{
    if !s.is_open() || m.messages <= s.messages {
        return Err(Fault::Kind);
    }
    let bytes = &frame[1..];
    if bytes.len() != Log::MESSAGE || !message_ok(bytes, s.stations, &s.counts, store) {
        return Err(Fault::Message);
    }
    cells::put(bytes, store, message_slot(s.messages));
    Ok(s.with_message())
}

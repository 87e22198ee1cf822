// A frame of any kind, tried after what has been read: the choice by kind, and the event frame.
#![tactic(auto)]

mod event;

ghost use Rattle.std.specs.Prelude.{◌≤◌, length};
ghost use Rattle.model.specs.Limits.{limits};
ghost use Rattle.codec.specs.Limits.{NoLarger};
ghost use Rattle.frame.specs.State.{Bounded, Admits};

use crate::event::event;
use frame::State;
use frame::header::header;
use frame::question::question;
use messages::message;
use model::{Fault, Kind, Limits};
use table::Store;

// Admits a frame without its check byte, within the limits m, or names its fault.
pub fn admit(m: Limits, s: State, frame: &[u8], store: &mut Store) -> Result<State, Fault>
    requires no_larger { NoLarger m limits × Bounded m s }
    requires in_bounds { (1 ≤ length frame.now) × (length frame.now ≤ 99) }
    ensures { Admits m s frame.now store.old result store.new }
{
    match Kind::try_from(frame[0])? {
        Kind::Header { panelled } => header(m, s, panelled, frame, store),
        Kind::Event => event(m, s, frame, store),
        Kind::Message => message(m, s, frame, store),
        Kind::Question => question(m, s, frame),
    }
}

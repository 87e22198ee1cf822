// The event frame.
ghost use Rattle.std.specs.Prelude.{◌≡◌, ◌+◌, ◌≤◌, ◌<◌, true, length, get_or, drop};
ghost use Rattle.model.specs.Limits.{limits};
ghost use Rattle.model.specs.Codes.{kind_byte};
ghost use Rattle.model.specs.declared.Kind.TheVariants.{Event};
ghost use Rattle.model.specs.Reading.{report_size, event_form};
ghost use Rattle.codec.specs.Limits.{NoLarger};
ghost use Rattle.frame.specs.State.{Bounded, Admits};

use frame::State;
use model::{Fault, Limits};
use table::clock::clock_ok;
use table::{Store, put_slot, report_size, slot};

// Has an event its length, and is its station there?
fn well_formed(s: State, frame: &[u8]) -> bool
    requires { (1 ≤ length frame.now) × (s.stations ≤ limits.stations) }
    ensures value { result ≡ event_form s.panelled s.stations (drop 1 frame.now) }
    ensures formed { result ≡ true → (length frame.now ≡ report_size s.panelled + 2 + s.stations) × (get_or frame.now 1 0 < s.stations) }
{
    let before = report_size(s.panelled) + 2;
    frame.len() == before + s.stations && usize::from(frame[1]) < s.stations
}

// Admits an event, within the limits m.
pub(crate) fn event(m: Limits, s: State, frame: &[u8], store: &mut Store) -> Result<State, Fault>
    requires no_larger { NoLarger m limits × Bounded m s }
    requires in_bounds { (1 ≤ length frame.now) × (get_or frame.now 0 0 ≡ kind_byte Event) }
    ensures { Admits m s frame.now store.old result store.new }
{
    if !s.is_open() || s.messages != 0 || m.events <= s.events {
        return Err(Fault::Kind);
    }
    if !well_formed(s, frame) {
        return Err(Fault::Event);
    }
    let j = usize::from(frame[1]);
    let clock = &frame[report_size(s.panelled) + 2..];
    if !clock_ok(j, clock, &s.counts, store) {
        return Err(Fault::Clock);
    }
    let k = usize::from(s.counts[j]) + 1;
    put_slot(frame, 2, s.panelled, clock, store, slot(j, k));
    Ok(s.with_event(j))
}

// The header frame.
ghost use Rattle.std.specs.Prelude.{◌≡◌, ◌≤◌, length, get_or};
ghost use Rattle.model.specs.Limits.{limits};
ghost use Rattle.model.specs.Codes.{kind_byte};
ghost use Rattle.model.specs.declared.Kind.TheVariants.{Header};
ghost use Rattle.codec.specs.Limits.{NoLarger};
ghost use Rattle.frame.specs.State.{Bounded, Admits};
ghost use Rattle.frame.specs.Header.{Counted};

use crate::State;
use model::{Fault, Limits};
use table::{Store, open_stations, report_size};

// The station count of a header whose form is right.
#[tactic(auto, using(crate::proofs::Headers::forms))]
fn station_count(m: Limits, panelled: bool, frame: &[u8]) -> Option<usize>
    requires { 1 ≤ length frame.now }
    ensures { Counted m panelled frame.now result }
{
    let n = usize::from(*frame.get(1)?);
    if n == 0 || m.stations < n || frame.len() != n * report_size(panelled) + 2 {
        return None;
    }
    Some(n)
}

// Admits a header, within the limits m; panelled: one of kind 11.
pub fn header(
    m: Limits,
    s: State,
    panelled: bool,
    frame: &[u8],
    store: &mut Store,
) -> Result<State, Fault>
    requires no_larger { NoLarger m limits × Bounded m s }
    requires in_bounds { (1 ≤ length frame.now) × (get_or frame.now 0 0 ≡ kind_byte (Header panelled)) }
    ensures { Admits m s frame.now store.old result store.new }
{
    if s.stations != 0 {
        return Err(Fault::Kind);
    }
    let n = station_count(m, panelled, frame).ok_or(Fault::Header)?;
    open_stations(frame, panelled, n, store);
    Ok(s.with_header(panelled, n))
}

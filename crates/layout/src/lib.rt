// The store of a loaded log laid out for the basis, and the test whether a cut is consistent.
#![tactic(auto)]

pub mod consistent;
mod messages;
mod reports;
mod starts;

ghost use Rattle.std.specs.Prelude.{◌≡◌, ◌≤◌, ◌<◌, length, take};
ghost use Rattle.model.specs.Limits.{limits, starts_size, facts_size};
ghost use Rattle.model.specs.Lists.{total};
ghost use Rattle.model.specs.Computation.{Computation};
ghost use Rattle.structure.specs.Laid.{Laid, Facts};
ghost use Rattle.layout.specs.StoredValid.{StoredValid};

use crate::messages::lay_messages;
use crate::reports::lay_reports;
use crate::starts::lay_starts;
use offsets::offsets;
use structure::Shape;
use table::Store;

// Lays the store of n stations, e events and k messages out in starts and facts, and gives its shape.
pub fn lay(
    store: &Store,
    n: usize,
    e: usize,
    k: usize,
    counts: [u8; 8],
    starts: &mut [u8],
    facts: &mut [u16],
) -> Shape
    requires sizes { (0 < n) × (n ≤ limits.stations) × (starts_size ≤ length starts.old) × (facts_size ≤ length facts.old) }
    requires counted { (total (take n counts) ≡ e) × (e ≤ limits.events) × (k ≤ limits.messages) }
    ensures { (result.n ≡ n) × (result.e ≡ e) × ((K : Computation) → StoredValid K n k counts store.now → Laid K result starts.new × Facts K result facts.new) }
{
    let offs = offsets(counts, n);
    let x = Shape { n, e, counts, offs };
    lay_starts(store, x, starts);
    lay_reports(store, x, facts);
    lay_messages(store, k, facts);
    x
}

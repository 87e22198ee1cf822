// The rule for the clock of an event, and the test of one event, which cuts share.
ghost use Rattle.std.specs.Prelude.{◌≡◌, ℕ, ◌+◌, ◌≤◌, ◌<◌, length, get_or};
ghost use Rattle.model.specs.Limits.{limits};
ghost use Rattle.model.specs.Computation.{Computation, known, counted, clock_ok};
ghost use Rattle.table.specs.Table.{Stored};

use crate::{Store, slot};
use cells::inside;

// The event of station j that the clock v of an event of station s counts last: of s itself the one before.
#[tactic(auto, unfolding(model::specs::Computation::counted))]
fn last_counted(s: usize, j: usize, v: &[u8]) -> usize
    requires { j < length v.now }
    ensures { result ≡ counted s v.now j }
{
    let x = usize::from(v[j]);
    if j == s { x.saturating_sub(1) } else { x }
}

// Is event k of station j in the store, or k 0, and its clock nowhere above v?
pub fn known(v: &[u8], j: usize, k: usize, counts: &[u8; 8], store: &Store) -> bool
    requires j_in_bounds { (j < length v.now) × (length v.now ≤ limits.stations) }
    requires by_index { (i : ℕ) → get_or counts.now i 0 ≤ limits.events }
    ensures { (K : Computation) → Stored K (length v.now) counts.now store.now → result ≡ known K v.now j k }
{
    if usize::from(counts[j]) < k {
        return false;
    }
    let at = slot(j, k) + model::Log::REPORT;
    inside(&store[at..at + v.len()], v)
}

// Does the clock v fit the next event of station s?
pub fn clock_ok(s: usize, v: &[u8], counts: &[u8; 8], store: &Store) -> bool
    requires s_in_bounds { (s < length v.now) × (length v.now ≤ limits.stations) }
    requires by_index { (i : ℕ) → get_or counts.now i 0 ≤ limits.events }
    ensures { (K : Computation) → Stored K (length v.now) counts.now store.now → result ≡ clock_ok K s v.now }
{
    if usize::from(v[s]) != usize::from(counts[s]) + 1 {
        return false;
    }
    for j in 0..v.len() {
        if !known(v, j, last_counted(s, j, v), counts, store) {
            return false;
        }
    }
    true
}

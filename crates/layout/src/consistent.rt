// The test whether a cut is consistent.
ghost use Rattle.std.specs.Prelude.{◌≡◌, ℕ, ◌≤◌, get_or};
ghost use Rattle.model.specs.Limits.{limits};
ghost use Rattle.model.specs.Computation.{Computation, is_consistent};
ghost use Rattle.table.specs.Table.{Stored};

use table::Store;
use table::clock::known;

// Is the cut consistent?
pub fn consistent(cut: &[u8], store: &Store, n: usize, counts: &[u8; 8]) -> bool
    requires n_le_stations { n ≤ limits.stations }
    requires by_index { (i : ℕ) → get_or counts.now i 0 ≤ limits.events }
    ensures { (K : Computation) → Stored K n counts.now store.now → result ≡ is_consistent K cut.now }
{
    if cut.len() != n {
        return false;
    }
    for j in 0..n {
        if !known(cut, j, usize::from(cut[j]), counts, store) {
            return false;
        }
    }
    true
}

// The empty cut and the clocks of all events, as the cells of a structure.
ghost use Rattle.std.specs.Prelude.{◌≡◌, ◌++◌, ◌+◌, ◌*◌, ◌≤◌, ◌<◌, length, take};
ghost use Rattle.model.specs.Limits.{limits, starts_size};
ghost use Rattle.layout.specs.Rows.{clocks_in, starts_in};

use cells::copy;
use model::Log;
use structure::Shape;
use table::{Store, slot};

// Copies the clocks of the m events of station j, one of n, to `at` in starts.
fn station_clocks(store: &Store, n: usize, j: usize, m: usize, starts: &mut [u8], at: usize)
    requires { (n ≤ limits.stations) × (j < limits.stations) × (m ≤ limits.events) × (at + m * n ≤ length starts.old) }
    ensures { take (at + m * n) starts.new ≡ take at starts.old ++ clocks_in store.now n j m }
{
    for k in 0..m {
        copy(starts, at + k * n, store, slot(j, k + 1) + Log::REPORT, n);
    }
}

// Copies the empty cut and all clocks to the front of starts.
pub(crate) fn lay_starts(store: &Store, x: Shape, starts: &mut [u8])
    requires { starts_size ≤ length starts.old }
    ensures { take ((x.e + 1) * x.n) starts.new ≡ starts_in store.now x.n x.counts x.n }
{
    let Shape {
        n,
        counts,
        offs,
        ..
    } = x;
    copy(starts, 0, store, Log::REPORT, n);
    for j in 0..n {
        station_clocks(
            store,
            n,
            j,
            usize::from(counts[j]),
            starts,
            (usize::from(offs[j]) + 1) * n,
        );
    }
}

// The values of all stations, before and after each event; their panels likewise.
ghost use Rattle.std.specs.Prelude.{◌≡◌, ◌++◌, suc, ◌+◌, ◌≤◌, ◌<◌, length, take, drop};
ghost use Rattle.model.specs.Limits.{limits, reports_size, facts_size};
ghost use Rattle.model.specs.declared.Aspect.{Aspect};
ghost use Rattle.structure.specs.Laid.{aspect_at};
ghost use Rattle.layout.specs.Rows.{byte_of, values_of, values_in};

use cells::word;
use model::{Aspect, Log};
use structure::Shape;
use table::{Store, slot};

// Puts the first m values of station j at `at` in values. They stand at byte b of their slots: values at 0, panels at 2.
fn station_values(store: &Store, b: usize, j: usize, m: usize, values: &mut [u16], at: usize)
    requires { (b ≤ 2) × (j < limits.stations) × (m ≤ suc limits.events) × (at + m ≤ length values.old) }
    ensures { take (at + m) values.new ≡ take at values.old ++ values_of b store.now j m }
{
    for k in 0..m {
        values[at + k] = word(store, slot(j, k) + b);
    }
}

// At which byte of a slot what is looked at stands.
fn byte_of(aspect: Aspect) -> usize
    ensures { (result ≡ byte_of aspect) × (result ≤ 2) }
{
    match aspect {
        Aspect::Value => 0,
        Aspect::Panel => 2,
    }
}

// Puts the values, or the panels, of all stations at the front of values.
fn lay_values(store: &Store, aspect: Aspect, x: Shape, values: &mut [u16])
    requires { reports_size ≤ length values.old }
    ensures { take (x.e + x.n) values.new ≡ values_in (byte_of aspect) store.now x.counts x.n }
{
    let Shape {
        n,
        counts,
        offs,
        ..
    } = x;
    let b = byte_of(aspect);
    for j in 0..n {
        station_values(
            store,
            b,
            j,
            usize::from(counts[j]) + 1,
            values,
            usize::from(offs[j]) + j,
        );
    }
}

// Puts the values of all stations at the front of the facts, and the panels behind them.
pub(crate) fn lay_reports(store: &Store, x: Shape, facts: &mut [u16])
    requires { facts_size ≤ length facts.old }
    ensures { (a : Aspect) → take (x.e + x.n) (drop (aspect_at a) facts.new) ≡ values_in (byte_of a) store.now x.counts x.n }
{
    lay_values(store, Aspect::Value, x, facts);
    lay_values(store, Aspect::Panel, x, &mut facts[Log::REPORTS..]);
}

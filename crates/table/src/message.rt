// The rule for a message.
ghost use Rattle.std.specs.Prelude.{◌≡◌, ◌&&◌, ℕ, ◌+◌, ◌≤◌, ◌<◌, leb, ltb, length, get_or};
ghost use Rattle.model.specs.Limits.{limits, message_size};
ghost use Rattle.model.specs.Computation.{Computation, stations, count, message_ok};
ghost use Rattle.model.specs.Reading.{message_of};
ghost use Rattle.table.specs.Table.{Stored};

use crate::{Store, slot};

// Is station j there, and its event k, or k 0?
fn there(j: usize, k: usize, n: usize, counts: &[u8; 8]) -> bool
    requires { n ≤ limits.stations }
    ensures { result ≡ (ltb j n && leb k (get_or counts.now j 0)) }
{
    j < n && k <= usize::from(counts[j])
}

// Is it a message that a log of n stations may name? Its bytes are sender, number of its event, receiver, number of its event.
pub fn message_ok(bytes: &[u8], n: usize, counts: &[u8; 8], store: &Store) -> bool
    requires bytes_len { (length bytes.now ≡ message_size) × (n ≤ limits.stations) }
    requires by_index { (i : ℕ) → get_or counts.now i 0 ≤ limits.events }
    ensures { (K : Computation) → Stored K n counts.now store.now → result ≡ message_ok K (message_of bytes.now) }
{
    let i = usize::from(bytes[0]);
    let x = usize::from(bytes[1]);
    let j = usize::from(bytes[2]);
    let k = usize::from(bytes[3]);
    if x == 0 {
        return false;
    }
    if !there(i, x, n, counts) {
        return false;
    }
    if !there(j, k, n, counts) {
        return false;
    }
    if i == j {
        return false;
    }
    if k == 0 {
        return true;
    }
    let at = slot(j, k);
    x <= usize::from(store[at + model::Log::REPORT + i])
}

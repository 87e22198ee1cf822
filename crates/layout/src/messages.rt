// The messages, behind the values.
ghost use Rattle.std.specs.Prelude.{◌≡◌, ◌+◌, ◌≤◌, length, get_or};
ghost use Rattle.model.specs.Limits.{limits, values_size, facts_size, message_size, store_size};
ghost use Rattle.layout.specs.Messages.{Copied, Filled};

use model::Log;
use table::{Store, message_slot};

// Puts the message at `from` of the store at `at` in the facts: its pair, the event that sends it, the event that receives it.
fn lay_message(store: &Store, from: usize, facts: &mut [u16], at: usize)
    requires { (from + message_size ≤ store_size) × (at + 3 ≤ length facts.old) × (at + 3 ≤ facts_size) }
    ensures { Copied store.now from facts.old facts.new at }
{
    facts[at] = 256 * u16::from(store[from]) + u16::from(store[from + 2]);
    facts[at + 1] = u16::from(store[from + 1]);
    facts[at + 2] = u16::from(store[from + 3]);
}

// Puts the number k of messages behind the values in the facts, and the messages of the store behind it.
pub(crate) fn lay_messages(store: &Store, k: usize, facts: &mut [u16])
    requires { (k ≤ limits.messages) × (facts_size ≤ length facts.old) }
    ensures { (get_or facts.new values_size 0 ≡ k) × Filled store.now k facts.old facts.new }
{
    for q in 0..k {
        lay_message(store, message_slot(q), facts, Log::VALUES + 1 + 3 * q);
    }
    facts[Log::VALUES] = k as u16;
}

// The table of 07: for each count of the sender, the event of the receiver by which all that is sent is received.
#![tactic(auto)]

ghost use Rattle.std.specs.Prelude.{◌≡◌, List, ℕ, ◌+◌, ◌*◌, ◌≤◌, ◌<◌, get_or, replicate};
ghost use Rattle.model.specs.Limits.{limits};
ghost use Rattle.model.specs.Computation.{Computation, Message};
ghost use Rattle.structure.specs.Laid.{AllFiled, Given};
ghost use Rattle.arrivals.specs.Table.{receipt, latest, highest, settled, Known, Arrivals};

use cells::NONE;
use model::Log;
use structure::{Run, Shape, event_row};

// The event that receives a message, or 255 if it never came.
// A byte, not an Option: entries of this table and of those for ranges are read alike, as cells of a structure are.
#[tactic(auto, unfolding(crate::specs::Table::receipt))]
fn receipt(k: u16) -> u8
    requires { k < 256 }
    ensures { result ≡ receipt k }
{
    if k == 0 { NONE } else { k as u8 }
}

// Each message of the pair is marked at the event that sends it, by the event that receives it: of several the last.
fn mark(table: &mut [u8; 256], facts: &[u16], pair: u16)
    requires { (table.old ≡ replicate 256 0) × ((l : List Message) × AllFiled l facts.now) }
    ensures { (l : List Message) → AllFiled l facts.now → (x : ℕ) → x < 256 → get_or table.new x 0 ≡ latest pair x l }
{
    for q in (0..usize::from(facts[Log::VALUES])).rev() {
        let at = Log::VALUES + 1 + 3 * q;
        if facts[at] == pair {
            let x = usize::from(facts[at + 1]);
            table[x] = table[x].max(receipt(facts[at + 2]));
        }
    }
}

// What was sent before is due too.
fn gather(table: &mut [u8; 256], count: usize)
    requires { count < 256 }
    ensures { ((x : ℕ) → x ≤ count → get_or table.new x 0 ≡ highest table.old x) × ((x : ℕ) → count < x → get_or table.new x 0 ≡ get_or table.old x 0) }
{
    for x in 0..count {
        table[x + 1] = table[x + 1].max(table[x]);
    }
}

// The entry at count x where those above it are settled.
#[tactic(auto, unfolding(crate::specs::Table::settled, crate::specs::Table::onward, crate::specs::Table::brought))]
fn entry(table: &[u8; 256], x: usize, starts: &[u8], n: usize, i: usize, off: usize) -> u8
    requires { (x < 256) × (off ≤ limits.events) × Known n i off starts.now table.now x }
    ensures { result ≡ settled n i off starts.now table.now x (get_or table.now x 0) }
{
    let k = table[x];
    if k == NONE {
        return NONE;
    }
    let y = usize::from(starts[event_row(off, k) * n + i]);
    if x < y { table[y] } else { k }
}

// From the last count down: an event of the receiver can bring in later ones of the sender, and with these more is due.
fn settle(table: &mut [u8; 256], count: usize, starts: &[u8], n: usize, i: usize, off: usize)
    requires { (count < 256) × (off ≤ limits.events) × ((x : ℕ) → x ≤ count → Known n i off starts.now table.old x) }
    ensures { ((x : ℕ) → x ≤ count → get_or table.new x 0 ≡ settled n i off starts.now table.new x (get_or table.old x 0)) × ((x : ℕ) → count < x → get_or table.new x 0 ≡ get_or table.old x 0) }
{
    for x in (0..count + 1).rev() {
        table[x] = entry(table, x, starts, n, i, off);
    }
}

// The table of 07 for the sender i and the receiver j.
pub fn fill(table: &mut [u8; 256], run: &Run<'_>, i: usize, j: usize)
    requires laid { (K : Computation) × Given K run.now }
    requires i_lt_n { (i < run.now.x.n) × (j < run.now.x.n) × (table.old ≡ replicate 256 0) }
    ensures { (K : Computation) (given : Given K run.now) → Arrivals K given.0.valid i j table.new }
{
    let Run { x, starts, facts } = *run;
    let Shape {
        n,
        counts,
        offs,
        ..
    } = x;
    let count = usize::from(counts[i]);
    mark(table, facts, (256 * i + j) as u16);
    gather(table, count);
    settle(table, count, starts, n, i, usize::from(offs[j]));
}

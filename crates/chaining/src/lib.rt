// The tables of entries for a pair of a set A that raises cuts by an event of one station s, and any other set B: what the rounds from a cut of B
// come to once A has found event k of s for it, for each k, made from the last event downwards. `above` and `under` have the two cuts of an
// entry as the row of its event, `rounds` its rounds less one. `picks` says which entry a cut looks up: 255 if A finds no event for it, 0 if it
// holds the event.
#![tactic(auto)]

ghost use Rattle.std.specs.Prelude.{◌≡◌, ℕ, suc, ◌+◌, ◌≤◌, ◌<◌};
ghost use Rattle.std.proofs.Math.Option.{some};
ghost use Rattle.model.specs.Computation.{Computation, count};
ghost use Rattle.model.specs.Structure.{Structure};
ghost use Rattle.lattice.specs.OfStation.{own_row};
ghost use Rattle.lattice.specs.Chains.{Entry, entry_at, entries};
ghost use Rattle.slots.specs.Slots.{number};
ghost use Rattle.picking.specs.Formed.{Formed};
ghost use Rattle.chaining.specs.Table.{Tells, Chained, Given, Low, Wrote};

use cells::NONE;
pub use picking::Station;
use slots::Table;

// The tables: for the number of an event the cut to join, the cut a round before, and the rounds less one. At 0 there is nothing to look up, and at
// 255 stands the entry for no event found.
#[derive(Drop)]
pub struct Chain {
    pub under: Table,
    pub above: Table,
    pub rounds: [u8; 256],
}

// An entry.
#[derive(Clone, Copy)]
struct Cells {
    above: [u8; 8],
    under: [u8; 8],
    rounds: u8,
}

// The entry of event v, by those of later events. B stands in a table, the clocks in `first`. Rows are joined before it is asked whether B has one,
// so that the compiler reads its eight cells at once; the entry is the caller's, since one handed back would be joined cell by cell.
fn make_entry(
    entry: &mut Cells,
    chain: &Chain,
    picks: &[u8; 256],
    table: &Table,
    first: &Table,
    v: usize,
    q: Station,
)
    requires { (v < 256) × Low 254 chain.now }
    ensures tells { (K : Computation) (A B : Structure) (E : ℕ → Entry) (k : ℕ) → Given K A B q.s picks.now table.now first.now
        → Chained K q.right q.s E (suc k) chain.now → k ≤ count K q.s → v ≡ number K q.s k
        → Tells K (some (entry_at K q.right q.s (own_row A q.s) B E k)) entry.new.above entry.new.under entry.new.rounds }
    ensures few_rounds { (m : ℕ) → Low m chain.now → entry.new.rounds ≤ suc m }
{
    let p = usize::from(picks[usize::from(table[v * 8 + q.s])]);
    picking::join_row(&mut entry.above, table, v, &chain.above, p);
    if p == 0 {
        let clock = if q.right { v } else { 0 };
        cells::copy(&mut entry.under, 0, first, clock * 8, 8);
    } else {
        picking::join_row(&mut entry.under, table, v, &chain.under, p);
    }
    if table[v * 8] == NONE {
        entry.above = [NONE; 8];
        entry.under = [NONE; 8];
        entry.rounds = 1;
    } else {
        entry.rounds = chain.rounds[p] + 1;
    }
}

// An entry at place v.
fn put_entry(chain: &mut Chain, v: usize, entry: &Cells)
    requires { v < 256 }
    ensures { Wrote v entry.now.above entry.now.under entry.now.rounds chain.old chain.new }
{
    picking::put_row(&mut chain.above, v, &entry.above);
    picking::put_row(&mut chain.under, v, &entry.under);
    chain.rounds[v] = entry.rounds;
}

// The tables of entries. Where A finds no event for a start, its second round changes nothing if A is the right set.
pub fn fill(chain: &mut Chain, picks: &[u8; 256], table: &Table, first: &Table, q: Station)
    requires { Low 0 chain.old }
    ensures chained { (K : Computation) (A B : Structure) → Formed K q.x → Given K A B q.s picks.now table.now first.now
        → Chained K q.right q.s (entries K q.right q.s (own_row A q.s) B (suc (count K q.s))) 1 chain.new }
    ensures few_rounds { Low (q.x.e + 1) chain.new }
{
    let mut entry = Cells {
        above: [0; 8],
        under: [0; 8],
        rounds: 0,
    };
    put_entry(chain, 0, &entry);
    entry = Cells {
        above: [NONE; 8],
        under: [NONE; 8],
        rounds: u8::from(!q.right),
    };
    put_entry(chain, 255, &entry);
    let before = usize::from(q.x.offs[q.s]);
    let most = usize::from(q.x.counts[q.s]);
    for k in (1..most + 1).rev() {
        let v = picking::number(before, k);
        make_entry(&mut entry, chain, picks, table, first, v, q);
        put_entry(chain, v, &entry);
    }
}

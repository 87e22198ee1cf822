// The entries that cuts look up, for a set that raises cuts by an event of one station s: for each event of s a byte that says the number of
// the event whose entry is looked up by a cut with this event for its last of s, 255 if the set finds no event for it, 0 if it holds the event.
// What is looked up is joined row by row.
#![tactic(auto)]

ghost use Rattle.std.specs.Prelude.{◌≡◌, ℕ, ◌+◌, ◌*◌, ◌≤◌, ◌<◌, length, get_or, take, Option, Some, None};
ghost use Rattle.std.proofs.Math.Seq.{paste};
ghost use Rattle.model.specs.Lists.{total};
ghost use Rattle.model.specs.Cut.{join};
ghost use Rattle.model.specs.Computation.{Computation, count, full};
ghost use Rattle.model.specs.Structure.{Structure, row};
ghost use Rattle.lattice.specs.OfStation.{count_in};
ghost use Rattle.slots.specs.Slots.{number, Slots, Rows};
ghost use Rattle.picking.specs.Formed.{Formed, Picks, Numbers, entry_of};
ghost use Rattle.picking.specs.Rows.{row_of};

use cells::NONE;
use slots::Table;
use structure::Shape;

// A station, and whether the set that is of it is the right one of a pair.
#[derive(Clone, Copy)]
pub struct Station {
    pub x: Shape,
    pub s: usize,
    // A bool, as in the laws: a side would be turned into one in each clause.
    pub right: bool,
    pub ghost there: { s < x.n },
}

// The number of event k of a station, from the events of all stations before it.
pub fn number(before: usize, k: usize) -> usize
    requires { before + k ≤ 254 }
    ensures { (result ≤ before + k) × ((K : Computation) (s : ℕ) → before ≡ total (take s (full K)) → result ≡ number K s k) }
{
    if k == 0 { 0 } else { before + k }
}

// The number that a count of a station with `most` events says, if there is such an event.
fn number_of(count: u8, before: usize, most: usize) -> Option<u8>
    requires { before + most ≤ 254 }
    ensures { ((K : Computation) (s : ℕ) → before ≡ total (take s (full K)) → count ≤ most → result ≡ Some (number K s count)) × (most < count → result ≡ None) }
{
    let k = usize::from(count);
    if most < k {
        None
    } else {
        Some(number(before, k) as u8)
    }
}

// The entry to look up for event v, for which this event is found.
fn entry_of(found: Option<u8>, v: usize) -> u8
    ensures { result ≡ entry_of found v }
{
    match found {
        Some(i) => if usize::from(i) == v { 0 } else { i },
        None => NONE,
    }
}

// The entries to look up for each event of a station, if `found` says for an event's number the number of the event that the set finds.
fn pick<F: Fn(usize) -> Option<u8>>(q: Station, found: F) -> [u8; 256]
    requires { (v : ℕ) → v ≤ q.x.e → F.pre found v }
    ensures { (K : Computation) (A : Structure) → Formed K q.x
        → ((k : ℕ) (o : Option ℕ) → k ≤ count K q.s → F.post found (number K q.s k) o → Numbers K q.s (count_in q.s (row A q.s k)) o) → Picks K q.s A result }
{
    let before = usize::from(q.x.offs[q.s]);
    let most = usize::from(q.x.counts[q.s]);
    let mut picks = [0u8; 256];
    for k in 0..most + 1 {
        let v = number(before, k);
        picks[v] = entry_of(found(v), v);
    }
    picks
}

// The entries to look up by a set that stands in a table.
pub fn pick_numbers(table: &Table, q: Station) -> [u8; 256]
    ensures { (K : Computation) (A : Structure) → Formed K q.x → Slots K (row A) table.now → Picks K q.s A result }
{
    let s = q.s;
    pick(
        q,
        |v: usize| -> Option<u8>
            requires { (v ≤ 254) × (s < 8) }
            ensures none { get_or table.entry.now (v * 8) 0 ≡ 255 → result ≡ None }
            ensures some { (get_or table.entry.now (v * 8) 0 ≡ 255 → ⊥) → result ≡ Some (get_or table.entry.now (v * 8 + s) 0) }
        {
            let i = table[v * 8 + s];
            if table[v * 8] == NONE { None } else { Some(i) }
        },
    )
}

// The same by a set that stands at a place of ws.
pub fn pick_counts(ws: &[u8], from: usize, q: Station) -> [u8; 256]
    requires { from + (q.x.e + 1) * q.x.n ≤ length ws.now }
    ensures { (K : Computation) (A : Structure) → Formed K q.x → Rows K (row A) q.x.n from ws.now → Picks K q.s A result }
{
    let n = q.x.n;
    let s = q.s;
    let before = usize::from(q.x.offs[s]);
    let most = usize::from(q.x.counts[s]);
    pick(
        q,
        |v: usize| -> Option<u8>
            requires { (from + v * n + n ≤ length ws.now) × (s < n) × (before + most ≤ 254) }
            ensures none { get_or ws.entry.now (from + v * n) 0 ≡ 255 → result ≡ None }
            ensures some { (K : Computation) → before ≡ total (take s (full K)) → get_or ws.entry.now (from + v * n + s) 0 ≤ most
                → (get_or ws.entry.now (from + v * n) 0 ≡ 255 → ⊥) → result ≡ Some (number K s (get_or ws.entry.now (from + v * n + s) 0)) }
        {
            let at = from + v * n;
            let i = number_of(ws[at + s], before, most);
            if ws[at] == NONE { None } else { i }
        },
    )
}

// Row i of a table.
pub fn row_at(table: &Table, i: usize) -> &[u8; 8]
    requires { i < 256 }
    ensures { result.now ≡ row_of table.now i }
{
    table[i * 8..i * 8 + 8].first_chunk::<8>().unwrap()
}

// Row i of a table, written.
pub fn put_row(table: &mut Table, i: usize, row: &[u8; 8])
    requires { i < 256 }
    ensures { table.new ≡ paste table.old (i * 8) row.now 8 }
{
    cells::copy(table, i * 8, row, 0, 8);
}

// Row i of one table joined with row k of another. It goes to cells of the caller's, since eight handed back would be joined one by one.
pub fn join_row(out: &mut [u8; 8], a: &Table, i: usize, b: &Table, k: usize)
    requires { (i < 256) × (k < 256) }
    ensures { out.new ≡ join (row_of a.now i) (row_of b.now k) }
{
    cells::copy(out, 0, a, i * 8, 8);
    cells::join_eight(out, b, k * 8);
}

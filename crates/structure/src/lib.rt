// Structures in a workspace: raising a cut, the bars, whether a cut belongs.
#![tactic(auto)]

ghost use Rattle.std.specs.Prelude.{◌≡◌, List, ℕ, ◌+◌, ◌*◌, ◌≤◌, ◌<◌, length, get_or, take, drop};
ghost use Rattle.model.specs.Limits.{limits};
ghost use Rattle.model.specs.Lists.{total};
ghost use Rattle.model.specs.Cut.{inside_any};
ghost use Rattle.model.specs.Structure.{raise, belongs};
ghost use Rattle.structure.specs.Layout.{decoded, event_row, bars_at, structure_at};
ghost use Rattle.structure.specs.Added.{Added};

use cells::{NONE, contained, join_at};

// The stations and events of a log: how many there are, how many events each station has, and how many all stations before it.
// They keep their limits, and agree.
#[derive(Clone, Copy)]
pub struct Shape {
    pub n: usize,
    pub e: usize,
    pub counts: [u8; 8],
    pub offs: [u8; 8],
    pub ghost some_station: { 0 < n },
    pub ghost few_stations: { n ≤ limits.stations },
    pub ghost few_events: { e ≤ limits.events },
    pub ghost events_are: { total (take n counts) ≡ e },
    pub ghost offs_are: { (j : ℕ) → j < n → get_or offs j 0 ≡ total (take j (take n counts)) },
}

// A run laid out: its shape, the empty cut and each event's clock, and what its atoms look at.
#[derive(Clone, Copy)]
pub struct Run<'a> {
    pub x: Shape,
    pub starts: &'a [u8],
    pub facts: &'a [u16],
}

// Structures one behind the other: how many, and for each the station by whose events alone its set raises cuts, where that is said.
// An array with its count beside it: there is no heap, and sixteen at most are marked.
#[derive(Clone, Copy)]
pub struct Sets {
    pub count: usize,
    pub stations: [Option<u8>; 16],
}

// The row of event k of a station that off events stand before; at 0 the row of the empty cut.
#[tactic(auto, unfolding(crate::specs::Layout::event_row))]
pub fn event_row(off: usize, k: u8) -> usize
    requires { off ≤ limits.events }
    ensures { result ≡ event_row off k }
{
    if k == 0 { 0 } else { off + usize::from(k) }
}

// The row of the last event that a cut has of station j is joined; none is where the first byte comes to 255.
fn add_station(ws: &[u8], x: Shape, j: usize, count: u8, acc: &mut [u8; 8])
    requires { (j < x.n) × ((x.e + 1) * x.n ≤ length ws.now) }
    ensures { (bs : List ℕ) → Added (structure_at x.n (take x.n x.counts) ws.now bs) j count (decoded (take x.n acc.old)) (decoded (take x.n acc.new)) }
{
    let Shape {
        n,
        counts,
        offs,
        ..
    } = x;
    if count == 0 {
        return;
    }
    if counts[j] < count {
        *acc = [NONE; 8];
        return;
    }
    let k = usize::from(offs[j]) + usize::from(count);
    join_at(acc, ws, k * n, n);
}

// The least cut of a set that contains a cut, or none where the first byte is 255, as in a row: none stays none where rows are joined to it.
fn raise(ws: &[u8], x: Shape, cut: &[u8; 8]) -> [u8; 8]
    requires { ((x.e + 1) * x.n ≤ length ws.now) × (get_or ws.now 0 0 ≡ 255 → ⊥) }
    ensures { (bs : List ℕ) → decoded (take x.n result) ≡ raise (structure_at x.n (take x.n x.counts) ws.now bs) (take x.n cut.now) }
{
    let mut acc = [0u8; 8];
    join_at(&mut acc, ws, 0, x.n);
    for j in 0..x.n {
        add_station(ws, x, j, cut[j], &mut acc);
    }
    acc
}

// Is a cut contained in one of the bars?
pub fn barred(cut: &[u8], bars: &[u8], n: usize) -> bool
    requires { (0 < n) × (n ≤ length cut.now) × (16 * n ≤ length bars.now) }
    ensures { result ≡ inside_any (take n cut.now) (bars_at n 16 bars.now) }
{
    for i in 0..16 {
        if bars[i * n] == NONE {
            return false;
        }
        if contained(cut, 0, bars, i * n, n) {
            return true;
        }
    }
    false
}

// Does a cut belong to a structure: in its set, and contained in no bar?
pub fn belongs(ws: &[u8], bars: &[u8], x: Shape, cut: &[u8; 8]) -> bool
    requires fits { ((x.e + 1) * x.n ≤ length ws.now) × (16 * x.n ≤ length bars.now) }
    requires least_there { get_or ws.now 0 0 ≡ 255 → ⊥ }
    ensures { result ≡ belongs (structure_at x.n (take x.n x.counts) ws.now bars.now) (take x.n cut.now) }
{
    let raised = raise(ws, x, cut);
    if raised[0] == NONE {
        return false;
    }
    contained(&raised, 0, cut, 0, x.n) && !barred(cut, bars, x.n)
}

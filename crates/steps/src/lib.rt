// The step for an atom, either sign, and the writing of cells and bars that the other steps share.
#![tactic(auto)]

ghost use Rattle.std.specs.Prelude.{◌≡◌, true, [], ℕ, ◌+◌, ◌*◌, ◌≤◌, ◌<◌, length, get_or, take, drop, replicate};
ghost use Rattle.std.proofs.Math.Option.{Option};
ghost use Rattle.std.proofs.Math.Seq.{paste};
ghost use Rattle.model.specs.Limits.{limits};
ghost use Rattle.model.specs.Cut.{Cut, join};
ghost use Rattle.model.specs.Computation.{Computation, full};
ghost use Rattle.model.specs.Structure.{build};
ghost use Rattle.model.specs.Atom.{passes, raise_atom};
ghost use Rattle.model.specs.Atom.Atom.{in_range, clear};
ghost use Rattle.structure.specs.Layout.{event_row, standing};
ghost use Rattle.structure.specs.declared.Shape.{Shape};
ghost use Rattle.structure.specs.Laid.{Laid, aspect_at, Given};
ghost use Rattle.steps.specs.Rows.{row_at, entry, joined_row, atom_row, Tabled, Leads, Ended};

use cells::{NONE, copy, fill};
use model::{Aspect, Log};
use structure::{Run, Shape, event_row};

// What is looked at of a station, and a range of it, ends included; through zero where lo is above hi.
#[derive(Clone, Copy)]
pub struct Interval {
    pub aspect: Aspect,
    pub station: usize,
    pub lo: u16,
    pub hi: u16,
}

// The eight cells of src from a on joined with those from b on, written at `at`: all are read before the first is written.
fn join_eight(ws: &mut [u8], at: usize, src: &[u8], a: usize, b: usize)
    requires { (at + 8 ≤ length ws.old) × (a + 8 ≤ length src.now) × (b + 8 ≤ length src.now) }
    ensures { ws.new ≡ paste ws.old at (join (take 8 (drop a src.now)) (take 8 (drop b src.now))) 8 }
{
    let mut t = cells::cut_at(src, a, 8);
    cells::join_eight(&mut t, src, b);
    copy(ws, at, &t, 0, 8);
}

// The same of len cells.
fn join_cells(ws: &mut [u8], at: usize, src: &[u8], a: usize, b: usize, len: usize)
    requires { (at + len ≤ length ws.old) × (a + len ≤ length src.now) × (b + len ≤ length src.now) }
    ensures { ws.new ≡ paste ws.old at (join (take len (drop a src.now)) (take len (drop b src.now))) len }
{
    if len == 8 {
        join_eight(ws, at, src, a, b);
        return;
    }
    for i in 0..len {
        ws[at + i] = src[a + i].max(src[b + i]);
    }
}

// The end of the count bars at a place: the first slot that is not used begins with 255.
pub fn end_bars(bs: &mut [u8], at: usize, count: usize, n: usize)
    requires { (0 < n) × (n ≤ 8) × (count ≤ 16) × (at + 16 * n ≤ length bs.old) }
    ensures { Ended at count n bs.old bs.new }
{
    if count < 16 {
        bs[at + count * n] = NONE;
    }
}

// Where the numbers that a range looks at begin in the facts: values at the front, panels behind them.
fn aspect_at(a: Aspect) -> usize
    ensures { result ≡ aspect_at a }
{
    match a {
        Aspect::Value => 0,
        Aspect::Panel => Log::REPORTS,
    }
}

// The table of a station with count events whose values, or panels, stand from at on: entry k is the first count from k on whose value
// passes, or 255.
fn table_of(values: &[u16], at: usize, count: u8, r: Interval, sign: bool) -> [u8; 256]
    requires { (count ≤ limits.events) × (at + count < length values.now) }
    ensures { (k : ℕ) → k < 256 → get_or result k 0 ≡ entry (λ j. passes sign r.aspect r.lo r.hi (get_or values.now (at + j) 0)) count k }
{
    let mut table = [NONE; 256];
    let mut last = NONE;
    for k in (0..=count).rev() {
        let i = usize::from(k);
        if ranges::passes(sign, r.aspect, r.lo, r.hi, values[at + i]) {
            last = k;
        }
        table[i] = last;
    }
    table
}

// How many cells are written for a row: eight where there are as many from the last row on, so that each row is one operation.
fn width(n: usize, e: usize, a: usize, b: usize) -> usize
    requires { (n ≤ limits.stations) × (e ≤ limits.events) × ((e + 1) * n ≤ a) × ((e + 1) * n ≤ b) }
    ensures { (n ≤ result) × (e * n + result ≤ a) × (e * n + result ≤ b) }
{
    let last = e * n;
    if a - last < 8 || b - last < 8 { n } else { 8 }
}

// Row i of an atom whose table names event k for it: w cells are written, those past the row for rows to come.
fn atom_row(ws: &mut [u8], i: usize, n: usize, w: usize, off: usize, k: u8, starts: &[u8])
    requires { (off ≤ limits.events) × (n ≤ w) × (i * n + w ≤ length ws.old) × (i * n + w ≤ length starts.now) × ((k ≡ 255 → ⊥) → event_row off k * n + w ≤ length starts.now) }
    ensures { (take (i * n) ws.new ≡ take (i * n) ws.old) × (row_at n i ws.new ≡ joined_row n off starts.now i k) }
{
    let at = i * n;
    if k == NONE {
        fill(ws, at, w, NONE);
    } else {
        join_cells(ws, at, starts, at, event_row(off, k) * n, w);
    }
}

// The rows of an atom.
fn atom_rows(
    ws: &mut [u8],
    n: usize,
    e: usize,
    s: usize,
    off: usize,
    table: &[u8; 256],
    starts: &[u8],
)
    requires tabled { Tabled n e s off table.now (length starts.now) }
    requires fits { (e + 1) * n ≤ length ws.old }
    ensures { (i : ℕ) → i ≤ e → row_at n i ws.new ≡ atom_row n s off table.now starts.now i }
{
    let w = width(n, e, ws.len(), starts.len());
    for i in 0..=e {
        let k = table[usize::from(starts[i * n + s])];
        atom_row(ws, i, n, w, off, k, starts);
    }
}

// An atom, either sign, from its table: one set, no bars, dropped if it is empty. The table goes by the counts of station s, and
// names events of the station that off events stand before.
pub fn atom(
    ws: &mut [u8],
    bs: &mut [u8],
    n: usize,
    e: usize,
    s: usize,
    off: usize,
    table: &[u8; 256],
    starts: &[u8],
) -> usize
    requires tabled { Tabled n e s off table.now (length starts.now) }
    requires fits { ((e + 1) * n ≤ length ws.old) × (16 * n ≤ length bs.old) }
    ensures { (result ≤ 1) × (0 < result → get_or ws.new 0 0 ≡ 255 → ⊥)
        × ((x : Shape) (K : Computation) (f : Cut → Option Cut) → x.n ≡ n → x.e ≡ e → Laid K x starts.now → Leads n e s off table.now starts.now f
        → standing n (full K) result ws.new bs.new ≡ build K f []) }
{
    atom_rows(ws, n, e, s, off, table, starts);
    bs[0] = NONE;
    if ws[0] == NONE { 0 } else { 1 }
}

// 01 or 08, either sign: its table says which event of the station has the next value, or panel, that passes.
pub fn range(ws: &mut [u8], bs: &mut [u8], run: &Run<'_>, r: Interval, sign: bool) -> usize
    requires laid { (K : Computation) × Given K run.now }
    requires station_lt_n { (r.station < run.now.x.n) × ((run.now.x.e + 1) * run.now.x.n ≤ length ws.old) × (16 * run.now.x.n ≤ length bs.old) }
    ensures { (result ≤ 1) × (0 < result → get_or ws.new 0 0 ≡ 255 → ⊥)
        × ((K : Computation) → Given K run.now
        → standing run.now.x.n (full K) result ws.new bs.new ≡ build K (raise_atom K sign (in_range r.aspect r.station r.lo r.hi)) []) }
{
    let Run { x, starts, facts } = *run;
    let Shape { counts, offs, .. } = x;
    let s = r.station;
    let off = usize::from(offs[s]);
    let table = table_of(facts, aspect_at(r.aspect) + off + s, counts[s], r, sign);
    atom(ws, bs, x.n, x.e, s, off, &table, starts)
}

// 07: its table says by which event of the receiver all is received that the sender has sent.
pub fn clear(ws: &mut [u8], bs: &mut [u8], run: &Run<'_>, i: usize, j: usize) -> usize
    requires laid { (K : Computation) × Given K run.now }
    requires i_lt_n { (i < run.now.x.n) × (j < run.now.x.n) × ((run.now.x.e + 1) * run.now.x.n ≤ length ws.old) × (16 * run.now.x.n ≤ length bs.old) }
    ensures { (result ≤ 1) × (0 < result → get_or ws.new 0 0 ≡ 255 → ⊥)
        × ((K : Computation) → Given K run.now
        → standing run.now.x.n (full K) result ws.new bs.new ≡ build K (raise_atom K true (clear i j)) []) }
{
    let mut table = [0u8; 256];
    arrivals::fill(&mut table, run, i, j);
    let x = run.x;
    atom(
        ws,
        bs,
        x.n,
        x.e,
        i,
        usize::from(x.offs[j]),
        &table,
        run.starts,
    )
}

// The bars of structures in a bar space: those of two joined, and the test whether a structure's greatest cut is contained in one.
#![tactic(auto)]

ghost use Rattle.std.specs.Prelude.{◌≡◌, List, ℕ, ◌+◌, ◌*◌, ◌≤◌, ◌<◌, length, take, drop};
ghost use Rattle.model.specs.Cut.{inside_any};
ghost use Rattle.model.specs.Structure.{greatest};
ghost use Rattle.lattice.specs.Ascending.{RowsAscend};
ghost use Rattle.structure.specs.Layout.{bars_at, placed};
ghost use Rattle.bars.specs.Post.{BarsJoined};

use structure::Shape;

// The number of bars at a place.
fn count_bars(bs: &[u8], at: usize, n: usize) -> usize
    requires { (n ≤ 8) × (at + 16 * n ≤ length bs.now) × (0 < n) }
    ensures { result ≡ length (bars_at n 16 (drop at bs.now)) }
{
    for i in 0..16 {
        if bs[at + i * n] == cells::NONE {
            return i;
        }
    }
    16
}

// The bars at i and those at j, one after the other at o. By places: what is read and what is written lie in one slice.
pub fn join_bars(bs: &mut [u8], i: usize, j: usize, o: usize, n: usize)
    requires { (0 < n) × (n ≤ 8) × (i + 16 * n ≤ o) × (j + 16 * n ≤ o) × (o + 16 * n ≤ length bs.old) × (length (bars_at n 16 (drop i bs.old)) + length (bars_at n 16 (drop j bs.old)) ≤ 16) }
    ensures { BarsJoined n i j o bs.old bs.new }
{
    let k = count_bars(bs, i, n);
    let m = count_bars(bs, j, n);
    cells::shift(bs, i, o, k * n);
    cells::shift(bs, j, o + k * n, m * n);
    steps::end_bars(bs, o, k + m, n);
}

// Is the greatest cut of a structure contained in one of its bars? Where there are none, it is not worked out.
pub fn barred_out(ws: &[u8], at: usize, bs: &[u8], bar: usize, x: Shape) -> bool
    requires fits { (at + (x.e + 1) * x.n ≤ length ws.now) × (bar + 16 * x.n ≤ length bs.now) }
    ensures { (d : List ℕ) → RowsAscend (take x.n x.counts) (placed x.n x.counts ws.now at d)
        → result ≡ inside_any (greatest (placed x.n x.counts ws.now at d)) (bars_at x.n 16 (drop bar bs.now)) }
{
    if bs[bar] == cells::NONE {
        return false;
    }
    let g = tops::greatest(&ws[at..], x);
    structure::barred(&g, &bs[bar..], x.n)
}

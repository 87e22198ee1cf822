// The steps for possibly and not possibly.
#![tactic(auto)]

ghost use Rattle.std.specs.Prelude.{◌≡◌, ℕ, ◌+◌, ◌*◌, ◌≤◌, ◌<◌, length, get_or, take, drop, replicate};
ghost use Rattle.std.proofs.Math.Seq.{paste};
ghost use Rattle.tops.specs.Greatest.{GreatestAt};
ghost use Rattle.steps.specs.Rows.{row_at, below_row};
ghost use Rattle.modal.specs.Post.{Present, Lowered, Possible, Impossible};

use structure::Shape;

// Row i of all cuts that are contained in g.
fn below_row(ws: &mut [u8], i: usize, x: Shape, g: &[u8; 8], starts: &[u8])
    requires { (i ≤ x.e) × ((x.e + 1) * x.n ≤ length ws.old) × ((x.e + 1) * x.n ≤ length starts.now) }
    ensures { ws.new ≡ paste ws.old (i * x.n) (below_row x.n (take x.n g.now) starts.now i) x.n }
{
    let n = x.n;
    let at = i * n;
    if cells::contained(starts, at, g, 0, n) {
        cells::copy(ws, at, starts, at, n);
    } else {
        cells::fill(ws, at, n, cells::NONE);
    }
}

// The rows of all cuts that are contained in g.
fn below_rows(ws: &mut [u8], x: Shape, g: &[u8; 8], starts: &[u8])
    requires { ((x.e + 1) * x.n ≤ length ws.old) × ((x.e + 1) * x.n ≤ length starts.now) }
    ensures { ((i : ℕ) → i ≤ x.e → row_at x.n i ws.new ≡ below_row x.n (take x.n g.now) starts.now i)
        × (drop ((x.e + 1) * x.n) ws.new ≡ drop ((x.e + 1) * x.n) ws.old) }
{
    for i in 0..x.e + 1 {
        below_row(ws, i, x, g, starts);
    }
}

// The structure at the front becomes all cuts contained in its greatest, with no bars.
fn lower_one(ws: &mut [u8], bs: &mut [u8], x: Shape, starts: &[u8])
    requires { ((x.e + 1) * x.n ≤ length ws.old) × (16 * x.n ≤ length bs.old) × ((x.e + 1) * x.n ≤ length starts.now) × (row_at x.n 0 starts.now ≡ replicate x.n 0) }
    ensures { Lowered x starts.now ws.old ws.new bs.old bs.new }
{
    let g = tops::greatest(ws, x);
    below_rows(ws, x, &g, starts);
    bs[0] = cells::NONE;
}

// possibly: each of the count structures at the front becomes all cuts contained in its greatest.
pub fn lower(ws: &mut [u8], bs: &mut [u8], count: usize, x: Shape, starts: &[u8])
    requires fits { (count * ((x.e + 1) * x.n) ≤ length ws.old) × (count * (16 * x.n) ≤ length bs.old) × ((x.e + 1) * x.n ≤ length starts.now) × (row_at x.n 0 starts.now ≡ replicate x.n 0) }
    ensures { Possible x count starts.now ws.old ws.new bs.old bs.new }
{
    let size = (x.e + 1) * x.n;
    let slot = 16 * x.n;
    for i in 0..count {
        lower_one(&mut ws[i * size..], &mut bs[i * slot..], x, starts);
    }
}

// The greatest cut of structure i goes to bar i of the first slot.
fn bar_each(ws: &[u8], bs: &mut [u8], count: usize, x: Shape)
    requires { (count ≤ 16) × (count * ((x.e + 1) * x.n) ≤ length ws.now) × (16 * x.n ≤ length bs.old) }
    ensures { ((i : ℕ) → i < count → GreatestAt x ws.now (i * ((x.e + 1) * x.n)) (row_at x.n i bs.new))
        × (drop (count * x.n) bs.new ≡ drop (count * x.n) bs.old) }
{
    let size = (x.e + 1) * x.n;
    for i in 0..count {
        let g = tops::greatest(&ws[i * size..], x);
        cells::copy(bs, i * x.n, &g, 0, x.n);
    }
}

// not possibly: all cuts, a bar at each structure's greatest cut; dropped if the full cut is contained in a bar.
pub fn bar(ws: &mut [u8], bs: &mut [u8], count: usize, x: Shape, starts: &[u8]) -> usize
    requires fits { (count ≤ 16) × (count * ((x.e + 1) * x.n) ≤ length ws.old) × ((x.e + 1) * x.n ≤ length ws.old) × (16 * x.n ≤ length bs.old) × ((x.e + 1) * x.n ≤ length starts.now) × (get_or starts.now 0 0 ≡ 255 → ⊥) }
    requires present { Present ((x.e + 1) * x.n) count ws.old }
    ensures { Impossible x count result starts.now ws.old ws.new bs.old bs.new }
{
    let Shape { n, e, .. } = x;
    bar_each(ws, bs, count, x);
    steps::end_bars(bs, 0, count, n);
    cells::copy(ws, 0, starts, 0, (e + 1) * n);
    let g = tops::greatest(ws, x);
    if structure::barred(&g, bs, n) { 0 } else { 1 }
}

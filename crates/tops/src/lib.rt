// The greatest cut of a structure in a workspace, from the last row of each station.
#![tactic(auto)]

ghost use Rattle.std.specs.Prelude.{◌≡◌, List, ℕ, ◌+◌, ◌*◌, ◌≤◌, ◌<◌, length, get_or, take, drop};
ghost use Rattle.lattice.specs.Ascending.{LastRow};
ghost use Rattle.structure.specs.Layout.{structure_at};
ghost use Rattle.tops.specs.Greatest.{GreatestAt};

use cells::{NONE, join_at};
use structure::Shape;

// The place of the last row of station j that is there, or else of the least cut.
fn last_row(ws: &[u8], x: Shape, j: usize) -> usize
    requires { (j < x.n) × ((x.e + 1) * x.n ≤ length ws.now) }
    ensures { (result + x.n ≤ length ws.now)
        × ((bs : List ℕ) → LastRow (structure_at x.n (take x.n x.counts) ws.now bs) j (get_or x.counts j 0) (take x.n (drop result ws.now))) }
{
    let Shape {
        n,
        counts,
        offs,
        ..
    } = x;
    let before = usize::from(offs[j]);
    for k in (1..=usize::from(counts[j])).rev() {
        let p = (before + k) * n;
        if ws[p] != NONE {
            return p;
        }
    }
    0
}

// The greatest cut of a set whose rows ascend: the least cut joined with the last row of each station.
pub fn greatest(ws: &[u8], x: Shape) -> [u8; 8]
    requires { (x.e + 1) * x.n ≤ length ws.now }
    ensures { GreatestAt x ws.now 0 (take x.n result) }
{
    let mut acc = [0u8; 8];
    join_at(&mut acc, ws, 0, x.n);
    for j in 0..x.n {
        join_at(&mut acc, ws, last_row(ws, x, j), x.n);
    }
    acc
}

// One pair of structures of two bases: its intersection, and whether it is kept.
#![tactic(auto)]

ghost use Rattle.std.specs.Prelude.{◌≡◌, ◌+◌, ◌*◌, ◌≤◌, length};
ghost use Rattle.model.specs.Basis.{intersect};
ghost use Rattle.model.specs.Rounds.{rounds_of_pair};
ghost use Rattle.pair.specs.Post.{structure_of, Put, Placed, OnePair, OneReady, IntersectedAt};

use slots::Table;
use structure::Shape;

// How many pairs were kept, and the rounds of all.
#[derive(Clone, Copy)]
pub struct Pairs {
    pub count: usize,
    pub rounds: u32,
}

// Which structures make a pair, and where it goes: the left, the right and the new one; and the stations of the first two, where they are marked.
#[derive(Clone, Copy)]
pub struct Pair {
    pub left: usize,
    pub right: usize,
    pub to: usize,
    pub leftmark: Option<u8>,
    pub rightmark: Option<u8>,
}

// The intersection of a pair whose left structure stands in a table, and its rounds: the right one is put into a table too, and the left set goes by
// its station if it is marked.
fn by_tables(
    ws: &mut [u8],
    left: &Table,
    right: &mut Table,
    first: &Table,
    p: Pair,
    x: Shape,
) -> u32
    requires { Placed x p ws.old }
    ensures { IntersectedAt x p left.now first.now ws.old ws.new result }
{
    let Shape { n, e, offs, .. } = x;
    let size = (e + 1) * n;
    let at = p.to * size;
    let code = slots::coding(n, &offs);
    slots::put_rows(right, ws, p.right * size, n, e, &code);
    match p.leftmark {
        None => rounds::intersect(&mut ws[at..], left, right, first, n, e, &code),
        Some(s) => chains::intersect_left(&mut ws[at..], left, right, first, x, usize::from(s)),
    }
}

// The same; a right set that is marked goes by its station, from the workspace.
fn intersect_at(
    ws: &mut [u8],
    left: &Table,
    right: &mut Table,
    first: &Table,
    p: Pair,
    x: Shape,
) -> u32
    requires { Placed x p ws.old }
    ensures { IntersectedAt x p left.now first.now ws.old ws.new result }
{
    match p.rightmark {
        None => by_tables(ws, left, right, first, p, x),
        Some(s) => {
            let size = (x.e + 1) * x.n;
            chains::intersect_right(
                ws,
                p.right * size,
                p.to * size,
                left,
                first,
                x,
                usize::from(s),
            )
        }
    }
}

// A pair whose left structure stands in a table: kept if its set is not empty and its greatest cut is contained in no bar.
pub fn pair_one(
    ws: &mut [u8],
    bs: &mut [u8],
    left: &Table,
    right: &mut Table,
    first: &Table,
    p: Pair,
    x: Shape,
) -> Pairs
    requires { OneReady x p ws.old bs.old }
    ensures one { result.count ≤ 1 }
    ensures rounds_few { result.rounds ≤ (x.e + 1) * (x.e + 5) }
    ensures put { Put x.n x.e p.to result.count (OnePair x p left.now first.now ws.old bs.old)
        ws.old ws.new bs.old bs.new
        (λ K. intersect K (structure_of x.n x.e K ws.old bs.old p.left) (structure_of x.n x.e K ws.old bs.old p.right))
        (λ K. rounds_of_pair K (structure_of x.n x.e K ws.old bs.old p.left) (structure_of x.n x.e K ws.old bs.old p.right)) result.rounds }
{
    let rounds = intersect_at(ws, left, right, first, p, x);
    let at = p.to * ((x.e + 1) * x.n);
    let slot = 16 * x.n;
    bars::join_bars(bs, p.left * slot, p.right * slot, p.to * slot, x.n);
    if ws[at] == cells::NONE {
        return Pairs { count: 0, rounds };
    }
    let kept = !bars::barred_out(ws, at, bs, p.to * slot, x);
    Pairs {
        count: usize::from(kept),
        rounds,
    }
}

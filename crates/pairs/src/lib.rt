// The pairs of two bases that stand one behind the other, row by row.
#![tactic(auto)]

ghost use Rattle.std.specs.Prelude.{◌≡◌, ◌+◌, ◌*◌, ◌≤◌, length};
ghost use Rattle.model.specs.Lists.{sum};
ghost use Rattle.model.specs.Basis.{intersect, each};
ghost use Rattle.model.specs.Rounds.{rounds_of_pair};
ghost use Rattle.model.specs.Computation.{full};
ghost use Rattle.structure.specs.Layout.{standing};
ghost use Rattle.pair.specs.Post.{structure_of, standing_from, Put};
ghost use Rattle.pairs.specs.Post.{RowPair, AllPairs, RowReady, PairsReady};

use pair::{Pair, Pairs};
use slots::Table;
use structure::{Sets, Shape};

// A row of pairs and where it goes: one left structure with `many` from the right one on, and the first new one; and the stations of the first two, where they are marked.
#[derive(Clone, Copy)]
pub struct Row {
    pub left: usize,
    pub right: usize,
    pub many: usize,
    pub to: usize,
    pub leftmark: Option<u8>,
    pub marks: [Option<u8>; 16],
}

// A row of pairs, left to right: those kept go one behind the other.
fn pair_row(
    ws: &mut [u8],
    bs: &mut [u8],
    left: &mut Table,
    right: &mut Table,
    first: &Table,
    q: Row,
    x: Shape,
) -> Pairs
    requires { RowReady x q ws.old bs.old }
    ensures few { result.count ≤ q.many }
    ensures rounds_few { result.rounds ≤ q.many * ((x.e + 1) * (x.e + 5)) }
    ensures put { Put x.n x.e q.to result.count (RowPair x q first.now ws.old bs.old)
        ws.old ws.new bs.old bs.new
        (λ K. each (intersect K (structure_of x.n x.e K ws.old bs.old q.left)) (standing_from x.n x.e K ws.old bs.old q.right q.many))
        (λ K. sum (rounds_of_pair K (structure_of x.n x.e K ws.old bs.old q.left)) (standing_from x.n x.e K ws.old bs.old q.right q.many)) result.rounds }
{
    let Shape { n, e, offs, .. } = x;
    let Row {
        left: i,
        right: l,
        many,
        to: o,
        leftmark,
        marks,
    } = q;
    let code = slots::coding(n, &offs);
    slots::put_rows(left, ws, i * ((e + 1) * n), n, e, &code);
    let mut kept = 0;
    let mut rounds: u32 = 0;
    for j in 0..many {
        let p = Pair {
            left: i,
            right: l + j,
            to: o + kept,
            leftmark,
            rightmark: marks[j],
        };
        let one = pair::pair_one(ws, bs, left, right, first, p, x);
        kept += one.count;
        rounds += one.rounds;
    }
    Pairs {
        count: kept,
        rounds,
    }
}

// All pairs of the l structures at the front and the r behind them, left outer: those kept go behind both.
pub fn pair_rows(ws: &mut [u8], bs: &mut [u8], first: &Table, l: Sets, r: Sets, x: Shape) -> Pairs
    requires { PairsReady x l r ws.old bs.old }
    ensures few { result.count ≤ l.count * r.count }
    ensures rounds_few { result.rounds ≤ l.count * r.count * ((x.e + 1) * (x.e + 5)) }
    ensures put { Put x.n x.e (l.count + r.count) result.count (AllPairs x l r first.now ws.old bs.old)
        ws.old ws.new bs.old bs.new
        (λ K. each (λ S. each (intersect K S) (standing_from x.n x.e K ws.old bs.old l.count r.count)) (standing x.n (full K) l.count ws.old bs.old))
        (λ K. sum (λ S. sum (rounds_of_pair K S) (standing_from x.n x.e K ws.old bs.old l.count r.count)) (standing x.n (full K) l.count ws.old bs.old)) result.rounds }
{
    let Sets {
        count: many,
        stations: lefts,
    } = l;
    let marks = r.stations;
    let o = many + r.count;
    let mut left = [0u8; 2048];
    let mut right = [0u8; 2048];
    let mut kept = 0;
    let mut rounds: u32 = 0;
    for i in 0..many {
        let q = Row {
            left: i,
            right: many,
            many: r.count,
            to: o + kept,
            leftmark: lefts[i],
            marks,
        };
        let row = pair_row(ws, bs, &mut left, &mut right, first, q, x);
        kept += row.count;
        rounds += row.rounds;
    }
    Pairs {
        count: kept,
        rounds,
    }
}

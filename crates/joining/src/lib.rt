// The step for "and" and "or": two bases that stand one behind the other are joined, as their pairs, moved to the front, or as they stand.
#![tactic(auto)]

ghost use Rattle.std.specs.Prelude.{◌≡◌, true, ◌+◌, ◌-◌, ◌*◌, ◌≤◌, length, drop};
ghost use Rattle.std.proofs.Math.Seq.{paste};
ghost use Rattle.structure.specs.Marks.{Within};
ghost use Rattle.modal.specs.Post.{Present};
ghost use Rattle.pairs.specs.Post.{PairsReady, Paired};
ghost use Rattle.token.specs.Contract.{rounds_most};
ghost use Rattle.joining.specs.Combined.{Combined};

use pair::Pairs;
use structure::{Sets, Shape};
use token::{Basis, unmarked};

// The c structures from structure o on, moved to the front.
fn to_front(ws: &mut [u8], bs: &mut [u8], o: usize, c: usize, x: Shape)
    requires { (o * ((x.e + 1) * x.n) + c * ((x.e + 1) * x.n) ≤ length ws.old) × (o * (16 * x.n) + c * (16 * x.n) ≤ length bs.old) }
    ensures { (ws.new ≡ paste ws.old 0 (drop (o * ((x.e + 1) * x.n)) ws.old) (c * ((x.e + 1) * x.n)))
        × (bs.new ≡ paste bs.old 0 (drop (o * (16 * x.n)) bs.old) (c * (16 * x.n))) }
{
    let size = (x.e + 1) * x.n;
    let slot = 16 * x.n;
    cells::shift(ws, o * size, 0, c * size);
    cells::shift(bs, o * slot, 0, c * slot);
}

// The pairs of the l structures at the front and the r behind them, moved to the front.
fn pair_all(ws: &mut [u8], bs: &mut [u8], l: Sets, r: Sets, x: Shape, starts: &[u8]) -> Pairs
    requires starts_there { (x.e + 1) * x.n ≤ length starts.now }
    requires pairs_ready { PairsReady x l r ws.old bs.old }
    ensures { Paired x l r starts.now ws.old ws.new bs.old bs.new result.count result.rounds }
{
    let Shape { n, e, offs, .. } = x;
    let code = slots::coding(n, &offs);
    let mut first = [0u8; 2048];
    slots::put_rows(&mut first, starts, 0, n, e, &code);
    let p = pairs::pair_rows(ws, bs, &first, l, r, x);
    to_front(ws, bs, l.count + r.count, p.count, x);
    p
}

// The rounds of two operands: the right one is worked out also where the left basis is empty.
fn rounds_of(l: Basis, r: Basis) -> u32
    requires { (l.rounds ≤ rounds_most) × (r.rounds ≤ rounds_most) }
    ensures { result ≡ l.rounds + r.rounds }
{
    l.rounds + r.rounds
}

// Structures one behind the other, with their marks as far as there is room for them.
fn both(l: Sets, r: Sets) -> Sets
    requires { (l.count ≤ 16) × (r.count ≤ 16) }
    ensures { (result.count ≡ l.count + r.count) × (result.stations ≡ paste l.stations l.count r.stations (16 - l.count)) }
{
    let k = l.count;
    let mut stations = l.stations;
    stations[k..].copy_from_slice(&r.stations[..16 - k]);
    Sets {
        count: k + r.count,
        stations,
    }
}

// Two bases that stand one behind the other: their pairs, or both.
// By a flag: the contract goes by it, and a closure for either step would need one of its own.
pub fn combine(
    ws: &mut [u8],
    bs: &mut [u8],
    pair: bool,
    l: Basis,
    r: Basis,
    x: Shape,
    starts: &[u8],
) -> Basis
    requires starts_there { (x.e + 1) * x.n ≤ length starts.now }
    requires short { (l.used ≤ 192) × (r.used ≤ 192) }
    requires small { (l.rounds ≤ rounds_most) × (r.rounds ≤ rounds_most) }
    requires few { (l.sets.count ≤ 16) × (r.sets.count ≤ 16) }
    requires present { Present ((x.e + 1) * x.n) (l.sets.count + r.sets.count) ws.old }
    requires within { Within x.n l.sets.stations × Within x.n r.sets.stations }
    requires pairs_ready { pair ≡ true → PairsReady x l.sets r.sets ws.old bs.old }
    ensures { (result.used ≡ l.used + 1 + r.used) × Combined pair x l.sets r.sets l.rounds r.rounds starts.now ws.old ws.new bs.old bs.new result.sets result.rounds }
{
    let used = l.used + 1 + r.used;
    let rounds = rounds_of(l, r);
    if pair {
        let p = pair_all(ws, bs, l.sets, r.sets, x, starts);
        return unmarked(p.count, used, rounds + p.rounds);
    }
    Basis {
        sets: both(l.sets, r.sets),
        used,
        rounds,
    }
}

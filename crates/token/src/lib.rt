// The steps for tokens of at most one operand: an atom at the front of a question, not, possibly and not possibly.
#![tactic(auto)]

ghost use Rattle.std.specs.Prelude.{◌≡◌, true, Some, None, ◌∷◌, ◌+◌, ◌*◌, ◌≤◌, ◌<◌, length, get_or, replicate};
ghost use Rattle.model.specs.Atom.{range_token};
ghost use Rattle.steps.specs.Rows.{row_at};
ghost use Rattle.modal.specs.Post.{Present};
ghost use Rattle.token.specs.Contract.{Ready, Made, Lifted};

use model::{Aspect, Token};
use structure::{Run, Sets, Shape};

// A basis at the front of the workspace: its structures, the bytes of the question that it took, its rounds.
#[derive(Clone, Copy)]
pub struct Basis {
    pub sets: Sets,
    pub used: usize,
    pub rounds: u32,
}

// A basis of which no structure is marked.
pub fn unmarked(count: usize, used: usize, rounds: u32) -> Basis
    ensures { (result.sets.count ≡ count) × (result.sets.stations ≡ replicate 16 None) × (result.used ≡ used) × (result.rounds ≡ rounds) }
{
    let sets = Sets {
        count,
        stations: [None; 16],
    };
    Basis { sets, used, rounds }
}

// At most one structure, of station s.
fn of_station(count: usize, s: u8) -> Sets
    ensures { (result.count ≡ count) × (result.stations ≡ Some s ∷ replicate 15 None) }
{
    let mut stations = [None; 16];
    stations[0] = Some(s);
    Sets { count, stations }
}

// 01 or 08 at the front of q, by what it looks at, under the sign given.
fn range(q: &[u8], ws: &mut [u8], bs: &mut [u8], run: &Run<'_>, aspect: Aspect, sign: bool) -> Basis
    requires ready { Ready sign run.now q.now (length ws.old) (length bs.old) }
    requires range_there { get_or q.now 0 0 ≡ range_token aspect }
    ensures { Made sign run.now q.now result.sets result.used result.rounds ws.new bs.new }
{
    let station = q[1];
    let r = steps::Interval {
        aspect,
        station: usize::from(station),
        lo: u16::from_be_bytes([q[2], q[3]]),
        hi: u16::from_be_bytes([q[4], q[5]]),
    };
    let count = steps::range(ws, bs, run, r, sign);
    Basis {
        sets: of_station(count, station),
        used: 6,
        rounds: 0,
    }
}

// 07 at the front of q, which is worked out as true alone.
fn clear(q: &[u8], ws: &mut [u8], bs: &mut [u8], run: &Run<'_>) -> Basis
    requires ready { Ready true run.now q.now (length ws.old) (length bs.old) }
    requires clear_there { get_or q.now 0 0 ≡ 7 }
    ensures { Made true run.now q.now result.sets result.used result.rounds ws.new bs.new }
{
    let count = steps::clear(ws, bs, run, usize::from(q[1]), usize::from(q[2]));
    unmarked(count, 3, 0)
}

// The atom at the front of q, under the sign given.
pub fn leaf(q: &[u8], ws: &mut [u8], bs: &mut [u8], run: &Run<'_>, sign: bool) -> Basis
    requires ready { Ready sign run.now q.now (length ws.old) (length bs.old) }
    requires not_sign { 1 < get_or q.now 0 0 → get_or q.now 0 0 < 7 → ⊥ }
    ensures { Made sign run.now q.now result.sets result.used result.rounds ws.new bs.new }
{
    let Ok(token) = Token::try_from(q[0]) else {
        return unmarked(0, 0, 0);
    };
    match token {
        Token::Range(aspect) => range(q, ws, bs, run, aspect, sign),
        Token::Clear => clear(q, ws, bs, run),
        _ => unmarked(0, 0, 0),
    }
}

// A basis of an operand, with the token before it.
pub fn passed(p: Basis) -> Basis
    requires { p.used ≤ 192 }
    ensures { (result.sets ≡ p.sets) × (result.used ≡ p.used + 1) × (result.rounds ≡ p.rounds) }
{
    Basis {
        used: p.used + 1,
        ..p
    }
}

// Possibly, or not possibly, of the basis at the front.
// By a flag: the contract goes by it, and a closure for either step would need one of its own.
pub fn lift(ws: &mut [u8], bs: &mut [u8], wide: bool, p: Basis, x: Shape, starts: &[u8]) -> Basis
    requires few { (p.sets.count ≤ 16) × (p.used ≤ 192) }
    requires fits { (p.sets.count * ((x.e + 1) * x.n) ≤ length ws.old) × (p.sets.count * (16 * x.n) ≤ length bs.old) × ((x.e + 1) * x.n ≤ length ws.old) × (16 * x.n ≤ length bs.old) }
    requires starts_there { ((x.e + 1) * x.n ≤ length starts.now) × (row_at x.n 0 starts.now ≡ replicate x.n 0) × (get_or starts.now 0 0 ≡ 255 → ⊥) }
    requires present { Present ((x.e + 1) * x.n) p.sets.count ws.old }
    ensures { (result.used ≡ p.used + 1) × (result.rounds ≡ p.rounds) × Lifted wide x p.sets.count starts.now ws.old ws.new bs.old bs.new result.sets }
{
    let k = p.sets.count;
    let count = if wide {
        modal::lower(ws, bs, k, x, starts);
        k
    } else {
        modal::bar(ws, bs, k, x, starts)
    };
    unmarked(count, p.used + 1, p.rounds)
}

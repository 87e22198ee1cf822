// The starts of a pair of which one set raises cuts by an event of one station, each looked up in tables over that station's events. The cuts are
// joined in passes of their own, tables to tables, so that the compiler makes each join one operation on eight cells; the last pass compares,
// counts and writes the rows.
#![tactic(auto)]

ghost use Rattle.std.specs.Prelude.{◌≡◌, ℕ, ◌+◌, ◌*◌, ◌≤◌, ◌<◌, length, get_or};
ghost use Rattle.model.specs.Computation.{Computation, clock};
ghost use Rattle.model.specs.Structure.{Structure};
ghost use Rattle.model.specs.Basis.{start};
ghost use Rattle.slots.specs.Pair.{Intersected};
ghost use Rattle.picking.specs.Formed.{Formed};
ghost use Rattle.picking.specs.Rows.{row_of};
ghost use Rattle.chaining.specs.Table.{Low};
ghost use Rattle.lookups.specs.Found.{place_of, Joined, Found, AtEvent, Looked};

use cells::NONE;
use chaining::Chain;
use picking::Station;
use slots::{Code, Table};

// A start: the cut that it came to, or none, and its rounds. The cut stays in its table, since the compiler takes apart eight cells handed back.
#[derive(Clone, Copy)]
struct Step<'a> {
    cut: Option<&'a [u8; 8]>,
    rounds: u32,
}

// The tables of a pair: the clocks of its starts, their first cuts of the other set, which entries these look up, the entries, what the starts come to, and what
// that was a round before.
#[derive(Clone, Copy)]
struct Tables<'a> {
    first: &'a Table,
    cuts: &'a Table,
    picks: &'a [u8; 256],
    chain: &'a Chain,
    out: &'a Table,
    last: &'a Table,
    // A table's type says its length, but of one behind a reference in a struct a proof does not know it.
    ghost long: { (length cuts.now ≡ 2048) × (length out.now ≡ 2048) × (length first.now ≡ 2048) × (length last.now ≡ 2048) },
}

// The entry that row i of `cuts` looks up.
fn place_of(picks: &[u8; 256], cuts: &Table, s: usize, i: usize) -> usize
    requires { (i < 256) × (s < 8) }
    ensures { (result ≡ place_of picks.now cuts.now s i) × (result < 256) }
{
    usize::from(picks[usize::from(cuts[i * 8 + s])])
}

// Each of the first e + 1 rows of `cuts` joined with the row of `rows` that it looks up.
fn join_all(out: &mut Table, cuts: &Table, rows: &Table, picks: &[u8; 256], e: usize, s: usize)
    requires { (e ≤ 254) × (s < 8) }
    ensures { Joined e s picks.now cuts.now rows.now out.new }
{
    let mut row = [0u8; 8];
    for i in 0..e + 1 {
        picking::join_row(&mut row, cuts, i, rows, place_of(picks, cuts, s, i));
        picking::put_row(out, i, &row);
    }
}

// The rounds of a start that comes to none: one where it has no first cut of the other set, else those of the entry that this cut looks up.
fn lost_rounds(t: &Tables, i: usize, s: usize) -> u32
    requires { (i < 256) × (s < 8) }
    ensures value { (K : Computation) (S T : Structure) (j k : ℕ) → AtEvent K S T s t.now.out.now t.now.last.now t.now.cuts.now t.now.first.now t.now.picks.now t.now.chain.now i j k
        → get_or t.now.out.now (i * 8) 0 ≡ 255 → result ≡ (start K S T (clock K j k)).rounds }
    ensures few_rounds { (m : ℕ) → Low m t.now.chain.now → result ≤ m + 2 }
{
    if t.cuts[i * 8] == NONE {
        return 1;
    }
    1 + u32::from(t.chain.rounds[place_of(t.picks, t.cuts, s, i)])
}

// The rounds of a start that comes to a cut: those of the entry that it looks up, and one more if it was at another cut a round before; where it looks
// nothing up, that is its clock.
fn raised_rounds(t: &Tables, cut: &[u8; 8], i: usize, s: usize) -> u32
    requires { (i < 256) × (s < 8) × (cut.now ≡ row_of t.now.out.now i) }
    ensures value { (K : Computation) (S T : Structure) (j k : ℕ) → AtEvent K S T s t.now.out.now t.now.last.now t.now.cuts.now t.now.first.now t.now.picks.now t.now.chain.now i j k
        → get_or cut.now 0 0 < 255 → result ≡ (start K S T (clock K j k)).rounds }
    ensures few_rounds { (m : ℕ) → Low m t.now.chain.now → result ≤ m + 2 }
{
    let p = place_of(t.picks, t.cuts, s, i);
    let before = picking::row_at(if p == 0 { t.first } else { t.last }, i);
    let same = slots::same(cut, before);
    u32::from(t.chain.rounds[p]) + 1 + u32::from(!same)
}

// The start from event i, which the first cell of its row in `out` tells to be raised or not.
fn look_up<'a>(t: &Tables<'a>, i: usize, s: usize) -> Step<'a>
    requires { (i < 256) × (s < 8) }
    ensures looked { (K : Computation) (S T : Structure) (j k : ℕ) → AtEvent K S T s t.now.out.now t.now.last.now t.now.cuts.now t.now.first.now t.now.picks.now t.now.chain.now i j k
        → Looked K (start K S T (clock K j k)) result }
    ensures few_rounds { (m : ℕ) → Low m t.now.chain.now → result.rounds ≤ m + 2 }
{
    let cut = picking::row_at(t.out, i);
    if cut[0] == NONE {
        return Step {
            cut: None,
            rounds: lost_rounds(t, i, s),
        };
    }
    Step {
        cut: Some(cut),
        rounds: raised_rounds(t, cut, i, s),
    }
}

// The rows of all starts go to the front of ws, and their rounds are counted.
fn put_all(ws: &mut [u8], t: &Tables, q: Station) -> u32
    requires fits { (q.x.e + 1) * q.x.n ≤ length ws.old }
    requires few_rounds { Low (q.x.e + 1) t.now.chain.now }
    ensures intersected { (K : Computation) (S T : Structure) → Formed K q.x → Found K S T q.s t.now.cuts.now t.now.first.now t.now.picks.now t.now.chain.now
        → Joined q.x.e q.s t.now.picks.now t.now.cuts.now t.now.chain.now.above t.now.out.now → Joined q.x.e q.s t.now.picks.now t.now.cuts.now t.now.chain.now.under t.now.last.now
        → Intersected K S T q.x.n ws.new result }
    ensures upper_bound { result ≤ (q.x.e + 1) * (q.x.e + 5) }
{
    let n = q.x.n;
    let code = slots::coding(n, &q.x.offs);
    let mut rounds: u32 = 0;
    for i in 0..q.x.e + 1 {
        let step = look_up(t, i, q.s);
        slots::put_start(ws, i * n, n, step.cut, &code);
        rounds += step.rounds;
    }
    rounds
}

// All starts: their rows go to the front of ws.
pub fn all_starts(
    ws: &mut [u8],
    cuts: &Table,
    first: &Table,
    picks: &[u8; 256],
    chain: &Chain,
    q: Station,
) -> u32
    requires fits { (q.x.e + 1) * q.x.n ≤ length ws.old }
    requires few_rounds { Low (q.x.e + 1) chain.now }
    ensures intersected { (K : Computation) (S T : Structure) → Formed K q.x → Found K S T q.s cuts.now first.now picks.now chain.now → Intersected K S T q.x.n ws.new result }
    ensures upper_bound { result ≤ (q.x.e + 1) * (q.x.e + 5) }
{
    let mut out = [0u8; 2048];
    let mut last = [0u8; 2048];
    join_all(&mut out, cuts, &chain.above, picks, q.x.e, q.s);
    join_all(&mut last, cuts, &chain.under, picks, q.x.e, q.s);
    let tables = Tables {
        first,
        cuts,
        picks,
        chain,
        out: &out,
        last: &last,
    };
    put_all(ws, &tables, q)
}

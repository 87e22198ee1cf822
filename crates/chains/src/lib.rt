// Pairs of structures of which one set raises cuts by an event of one station: a start is looked up in tables over that station's events,
// which is proved to come to the same in as many rounds.
#![tactic(auto)]

ghost use Rattle.std.specs.Prelude.{◌≡◌, ℕ, ◌+◌, ◌*◌, ◌≤◌, ◌<◌, length, take, drop};
ghost use Rattle.model.specs.Computation.{Computation, count, event_count};
ghost use Rattle.model.specs.Structure.{Structure, row};
ghost use Rattle.lattice.specs.Chains.{outcome_of_first_round};
ghost use Rattle.slots.specs.Slots.{number, Small, Says, Slots};
ghost use Rattle.slots.specs.Pair.{Intersected};
ghost use Rattle.chains.specs.Known.{RightKnown, LeftKnown};

use cells::NONE;
use chaining::Chain;
use picking::Station;
use slots::Table;
use structure::Shape;

// The cut of the right set that the first round from event i comes to, or none, if the left one is of station s.
fn first_cut(out: &mut [u8; 8], left: &Table, right: &Table, i: usize, s: usize)
    requires { (i < 256) × (s < 8) }
    ensures { (K : Computation) (S T : Structure) (j k : ℕ) → Small K → Slots K (row S) left.now → Slots K (row T) right.now → k ≤ count K j → i ≡ number K j k
        → Says K (outcome_of_first_round T s j k (row S j k)) out.new }
{
    if left[i * 8] == NONE {
        *out = [NONE; 8];
    } else {
        picking::join_row(out, right, i, right, usize::from(left[i * 8 + s]));
    }
}

// These cuts as a table.
fn first_cuts(cuts: &mut Table, left: &Table, right: &Table, e: usize, s: usize)
    requires { (e ≤ 254) × (s < 8) }
    ensures { (K : Computation) (S T : Structure) → Small K → event_count K ≡ e → Slots K (row S) left.now → Slots K (row T) right.now
        → Slots K (λ j k. outcome_of_first_round T s j k (row S j k)) cuts.new }
{
    let mut cut = [0u8; 8];
    for i in 0..e + 1 {
        first_cut(&mut cut, left, right, i, s);
        picking::put_row(cuts, i, &cut);
    }
}

// All starts of a pair whose right set is of station s and stands at `from`, the left one in a table: their rows go to `at`.
pub fn intersect_right(
    ws: &mut [u8],
    from: usize,
    at: usize,
    left: &Table,
    first: &Table,
    x: Shape,
    s: usize,
) -> u32
    requires there { s < x.n }
    requires fits { (from + (x.e + 1) * x.n ≤ at) × (at + (x.e + 1) * x.n ≤ length ws.old) }
    ensures intersected { (K : Computation) (S T : Structure) → RightKnown K S T x s from ws.old left.now first.now → Intersected K S T x.n (drop at ws.new) result }
    ensures few_rounds { result ≤ (x.e + 1) * (x.e + 5) }
    ensures ws_unchanged { take at ws.new ≡ take at ws.old }
{
    let q = Station { x, s, right: true };
    let picks = picking::pick_counts(ws, from, q);
    // Cleared to unlike values: the compiler then clears each table by itself, at once.
    let mut chain = Chain {
        under: [0; 2048],
        above: [NONE; 2048],
        rounds: [0; 256],
    };
    chaining::fill(&mut chain, &picks, left, first, q);
    lookups::all_starts(&mut ws[at..], left, first, &picks, &chain, q)
}

// All starts of a pair whose left set is of station s: their rows go to the front of ws.
pub fn intersect_left(
    ws: &mut [u8],
    left: &Table,
    right: &Table,
    first: &Table,
    x: Shape,
    s: usize,
) -> u32
    requires there { s < x.n }
    requires fits { (x.e + 1) * x.n ≤ length ws.old }
    ensures intersected { (K : Computation) (S T : Structure) → LeftKnown K S T x s left.now right.now first.now → Intersected K S T x.n ws.new result }
    ensures few_rounds { result ≤ (x.e + 1) * (x.e + 5) }
{
    let q = Station { x, s, right: false };
    let picks = picking::pick_numbers(left, q);
    // Cleared to unlike values: the compiler then clears each table by itself, at once.
    let mut chain = Chain {
        under: [0; 2048],
        above: [NONE; 2048],
        rounds: [0; 256],
    };
    chaining::fill(&mut chain, &picks, right, first, q);
    let mut cuts = [0u8; 2048];
    first_cuts(&mut cuts, left, right, x.e, s);
    lookups::all_starts(ws, &cuts, first, &picks, &chain, q)
}

// Cuts that stand one after another in cells, in order, none contained in another: one more cut added to them.
#![tactic(auto)]

ghost use Rattle.std.specs.Prelude.{◌≡◌, ◌∷◌, ◌++◌, ◌+◌, ◌*◌, ◌-◌, ◌≤◌, ◌<◌, length, take, drop};
ghost use Rattle.model.specs.Cut.{inside_any};
ghost use Rattle.model.specs.Answer.{not_inside, precedes, insert};
ghost use Rattle.structure.specs.Layout.{cuts_at};
ghost use Rattle.cuts.specs.Cuts.{added};

// Is a cut contained in one of the cuts?
fn in_one(cut: &[u8], cuts: &[u8], count: usize, n: usize) -> bool
    requires { (n ≤ length cut.now) × (count * n ≤ length cuts.now) }
    ensures { result ≡ inside_any (take n cut.now) (cuts_at n count cuts.now) }
{
    for i in 0..count {
        if cells::contained(cut, 0, cuts, i * n, n) {
            return true;
        }
    }
    false
}

// The cuts that are contained in a cut go, and the others close up.
fn take_out(cut: &[u8], cuts: &mut [u8], count: usize, n: usize) -> usize
    requires { (n ≤ length cut.now) × (count * n ≤ length cuts.old) }
    ensures { (result ≤ count) × (cuts_at n result cuts.new ≡ not_inside (take n cut.now) (cuts_at n count cuts.old)) }
{
    let mut left = 0;
    for i in 0..count {
        if !cells::contained(cuts, i * n, cut, 0, n) {
            cells::shift(cuts, i * n, left * n, n);
            left += 1;
        }
    }
    left
}

// Does a cut stand before the cut at a place? Station 0 decides first.
fn precedes(cut: &[u8], cuts: &[u8], at: usize, n: usize) -> bool
    requires { (n ≤ length cut.now) × (at + n ≤ length cuts.now) }
    ensures { result ≡ precedes (take n cut.now) (take n (drop at cuts.now)) }
{
    cut[..n] < cuts[at..at + n]
}

// The number of cuts that a cut stands behind.
fn place(cut: &[u8], cuts: &[u8], count: usize, n: usize) -> usize
    requires { (n ≤ length cut.now) × (count * n ≤ length cuts.now) }
    ensures { (result ≤ count) × (insert (take n cut.now) (cuts_at n count cuts.now) ≡ cuts_at n result cuts.now ++ (take n cut.now ∷ cuts_at n (count - result) (drop (result * n) cuts.now))) }
{
    for i in 0..count {
        if precedes(cut, cuts, i * n, n) {
            return i;
        }
    }
    count
}

// One more cut, at the place of one of them or behind the last.
fn insert_at(cuts: &mut [u8], cut: &[u8], place: usize, count: usize, n: usize)
    requires { (n ≤ length cut.now) × (place ≤ count) × ((count + 1) * n ≤ length cuts.old) }
    ensures { cuts_at n (count + 1) cuts.new ≡ cuts_at n place cuts.old ++ (take n cut.now ∷ cuts_at n (count - place) (drop (place * n) cuts.old)) }
{
    let at = place * n;
    cells::shift(cuts, at, at + n, (count - place) * n);
    cells::copy(cuts, at, cut, 0, n);
}

// One more cut among cuts none of which contains another: no change if one contains it, else those that it contains go.
// A count beside the cells: those behind the counted cuts are room for one more.
pub fn add_cut(cuts: &mut [u8], count: usize, n: usize, cut: &[u8]) -> usize
    requires { (0 < n) × (n ≤ length cut.now) × ((count + 1) * n ≤ length cuts.old) }
    ensures { (result ≤ count + 1) × (cuts_at n result cuts.new ≡ added (take n cut.now) (cuts_at n count cuts.old)) }
{
    if in_one(cut, cuts, count, n) {
        return count;
    }
    let left = take_out(cut, cuts, count, n);
    let at = place(cut, cuts, left, n);
    insert_at(cuts, cut, at, left, n);
    left + 1
}

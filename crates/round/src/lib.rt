// One round of an intersection: the left half, then the right half, each a raising in a table of rows. Two short ways are proved to come to
// the same: the first left half of a start is a row of the left structure; where a later left half changes nothing, so does its right half.
#![tactic(auto)]

ghost use Rattle.std.specs.Prelude.{◌≡◌, ℕ, ◌≤◌, ◌<◌};
ghost use Rattle.std.proofs.Math.Option as maybe;
ghost use Rattle.model.specs.Cut.{Cut};
ghost use Rattle.model.specs.Computation.{Computation, count, clock};
ghost use Rattle.model.specs.Structure.{Structure, row, raise};
ghost use Rattle.lattice.proofs.Bases.{In, Good};
ghost use Rattle.lattice.proofs.Shortcuts.{after_left, next_left};
ghost use Rattle.slots.specs.Slots.{number, Small, Coded, Says, Slots};
ghost use Rattle.round.specs.Said.{Answers};
ghost use Rattle.slots.specs.Pair.{Above, Both};

use slots::Table;

// A round that is not lost: whether it changed the cut that it began at, whether its right half changed nothing, and the cut that it came to.
#[derive(Clone, Copy)]
pub struct Round {
    pub changed: bool,
    pub settled: bool,
    pub cut: [u8; 8],
}

// The right half of a round that began at a cut and came to `middle` in the left set.
fn right_half(right: &Table, cut: &[u8; 8], middle: &[u8; 8]) -> Option<Round>
    ensures { (K : Computation) (T : Structure) (x : Cut) (o : maybe.Option Cut) → Small K → Good K T → Slots K (row T) right.now → Coded K x cut.now → Says K o middle.now → Above x o
        → Answers K T (λ go. after_left go T x o) result }
{
    let last = slots::raise(right, middle)?;
    Some(Round {
        changed: !slots::same(&last, cut),
        settled: slots::same(&last, middle),
        cut: last,
    })
}

// A round from a cut of the right set.
pub fn next_round(left: &Table, right: &Table, cut: &[u8; 8]) -> Option<Round>
    ensures { (K : Computation) (S T : Structure) (x : Cut) → Both K S T left.now right.now → Coded K x cut.now → In K T x → Answers K T (λ go. next_left go T x (raise S x)) result }
{
    let middle = slots::raise(left, cut)?;
    if slots::same(&middle, cut) {
        return Some(Round {
            changed: false,
            settled: true,
            cut: middle,
        });
    }
    right_half(right, cut, &middle)
}

// The first round of the start from event i, whose clock is `cut`.
pub fn first_round(left: &Table, right: &Table, i: usize, cut: &[u8; 8]) -> Option<Round>
    requires { i < 256 }
    ensures { (K : Computation) (S T : Structure) (j k : ℕ) → Both K S T left.now right.now → k ≤ count K j → i ≡ number K j k → Coded K (clock K j k) cut.now
        → Answers K T (λ go. after_left go T (clock K j k) (raise S (clock K j k))) result }
{
    let middle = cells::cut_at(left, i * 8, 8);
    right_half(right, cut, &middle)
}

// One start of an intersection: all its rounds, counted. Where the right half of a round changed nothing, the next round changes nothing: it is
// counted and not run.
#![tactic(auto)]

ghost use Rattle.std.specs.Prelude.{◌≡◌, ℕ, suc, ◌+◌, ◌≤◌};
ghost use Rattle.model.specs.Cut.{Cut};
ghost use Rattle.model.specs.Computation.{Computation, event_count, count, clock};
ghost use Rattle.model.specs.Structure.{Structure};
ghost use Rattle.model.specs.Basis.{run};
ghost use Rattle.lattice.proofs.Bases.{In};
ghost use Rattle.lattice.proofs.Shortcuts.{later, quick_on};
ghost use Rattle.slots.specs.Slots.{number, Coded};
ghost use Rattle.slots.specs.Pair.{Both, Clocks};
ghost use Rattle.start.specs.Ended.{Ended};

use round::{first_round, next_round};
use slots::Table;

// What a start came to, a cut or none, and its rounds.
#[derive(Clone, Copy)]
pub struct Start {
    pub cut: Option<[u8; 8]>,
    pub rounds: u32,
}

// The rounds of a start after the first, which came to a cut of the right set; at most e + 1 are run in all.
fn more_rounds(left: &Table, right: &Table, e: usize, mut cut: [u8; 8]) -> Start
    requires { e ≤ 254 }
    ensures ended { (K : Computation) (S T : Structure) (x : Cut) → Both K S T left.now right.now → Coded K x cut → In K T x → Ended K (later (quick_on S T e x)) result }
    ensures rounds_bound { result.rounds ≤ e + 2 }
{
    let most = e as u32 + 1;
    for rounds in 1..most {
        let Some(round) = next_round(left, right, &cut) else {
            return Start {
                cut: None,
                rounds: rounds + 1,
            };
        };
        cut = round.cut;
        if !round.changed {
            return Start {
                cut: Some(cut),
                rounds: rounds + 1,
            };
        }
        if round.settled {
            return Start {
                cut: Some(cut),
                rounds: rounds + 2,
            };
        }
    }
    Start {
        cut: None,
        rounds: most,
    }
}

// One start: all rounds from the clock of event i.
pub fn one_start(left: &Table, right: &Table, first: &Table, e: usize, i: usize) -> Start
    requires { (e ≤ 254) × (i ≤ e) }
    ensures ended { (K : Computation) (S T : Structure) (j k : ℕ) → Both K S T left.now right.now → Clocks K first.now → event_count K ≡ e → k ≤ count K j → i ≡ number K j k
        → Ended K (run S T (suc e) (clock K j k)) result }
    ensures rounds_bound { result.rounds ≤ e + 2 }
{
    let start = cells::cut_at(first, i * 8, 8);
    let Some(round) = first_round(left, right, i, &start) else {
        return Start {
            cut: None,
            rounds: 1,
        };
    };
    let cut = round.cut;
    if !round.changed {
        return Start {
            cut: Some(cut),
            rounds: 1,
        };
    }
    if round.settled {
        return Start {
            cut: Some(cut),
            rounds: 2,
        };
    }
    more_rounds(left, right, e, cut)
}

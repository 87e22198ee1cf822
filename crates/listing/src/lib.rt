// From a basis that stands in a workspace to start and listed cuts: whether a cut belongs, the greatest cuts in order.
#![tactic(auto)]

ghost use Rattle.std.specs.Prelude.{◌≡◌, List, map, ℕ, ◌+◌, ◌*◌, ◌≤◌, length, take};
ghost use Rattle.model.specs.Limits.{limits};
ghost use Rattle.model.specs.Formula.{Formula};
ghost use Rattle.model.specs.Cut.{empty};
ghost use Rattle.model.specs.Computation.{Computation};
ghost use Rattle.model.specs.Structure.{greatest, belongs_any};
ghost use Rattle.model.specs.Answer.{tops, sort, answer};
ghost use Rattle.lattice.specs.Ascending.{RowsAscend};
ghost use Rattle.lattice.proofs.Lists.{All};
ghost use Rattle.structure.specs.Layout.{cuts_at, standing};
ghost use Rattle.listing.specs.Stands.{Stands};
ghost use Rattle.listing.specs.Worked.{Worked, answer_of};

use model::Log;
use structure::Shape;

// The greatest cuts of the structures, the last first: those contained in no other, in order.
fn list_cuts(ws: &[u8], count: usize, x: Shape, cuts: &mut [u8]) -> usize
    requires { (count * ((x.e + 1) * x.n) ≤ length ws.now) × (count * x.n ≤ length cuts.old) }
    ensures { (result ≤ count) × ((bs : List ℕ) → All (RowsAscend (take x.n x.counts)) (standing x.n (take x.n x.counts) count ws.now bs)
        → cuts_at x.n result cuts.new ≡ sort (tops (map greatest (standing x.n (take x.n x.counts) count ws.now bs)))) }
{
    let size = (x.e + 1) * x.n;
    let mut listed = 0;
    for i in (0..count).rev() {
        let cut = tops::greatest(&ws[i * size..], x);
        listed = cuts::add_cut(cuts, listed, x.n, &cut);
    }
    listed
}

// Does a cut belong to one of the structures?
pub fn belongs_any(ws: &[u8], bs: &[u8], count: usize, x: Shape, cut: &[u8; 8]) -> bool
    requires stands { Stands x count ws.now bs.now }
    ensures { result ≡ belongs_any (standing x.n (take x.n x.counts) count ws.now bs.now) (take x.n cut.now) }
{
    let size = (x.e + 1) * x.n;
    let slot = 16 * x.n;
    for i in 0..count {
        if structure::belongs(&ws[i * size..], &bs[i * slot..], x, cut) {
            return true;
        }
    }
    false
}

// Does the cut that holds no event belong to one of the structures?
fn starts(ws: &[u8], bs: &[u8], count: usize, x: Shape) -> bool
    requires { Stands x count ws.now bs.now }
    ensures { result ≡ belongs_any (standing x.n (take x.n x.counts) count ws.now bs.now) (empty x.n) }
{
    belongs_any(ws, bs, count, x, &Log::empty_cut())
}

// What is listed of a basis: whether its question is true at the cut that holds no event, the number of cuts listed, and the rounds.
#[derive(Clone, Copy)]
pub struct Listing {
    pub start: bool,
    pub count: usize,
    pub rounds: u32,
}

// The listing of the basis that stands in the workspace; its cuts go to the front of `cuts`, lent by the caller, since there is no heap.
pub fn list(ws: &[u8], bs: &[u8], count: usize, x: Shape, rounds: u32, cuts: &mut [u8]) -> Listing
    requires worked { (K : Computation) × (f : Formula) × Worked K f x count rounds ws.now bs.now }
    requires stations_in_bounds { 16 * limits.stations ≤ length cuts.old }
    ensures { (result.count ≤ 16) × ((K : Computation) (f : Formula) → Worked K f x count rounds ws.now bs.now → answer_of x.n result cuts.new ≡ answer K f) }
{
    let start = starts(ws, bs, count, x);
    let listed = list_cuts(ws, count, x, cuts);
    Listing {
        start,
        count: listed,
        rounds,
    }
}

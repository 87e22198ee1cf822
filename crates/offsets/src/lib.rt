// The offsets of stations: how many events all stations before each of them have.
#![tactic(auto)]

ghost use Rattle.std.specs.Prelude.{◌≡◌, ℕ, ◌≤◌, ◌<◌, get_or, take};
ghost use Rattle.model.specs.Limits.{limits};
ghost use Rattle.model.specs.Lists.{total};

// For each of n stations the events of all stations before it.
#[tactic(auto, using(crate::proofs::Totals::sum_next, crate::proofs::Totals::sum_few), unfolding(model::specs::Lists::sum))]
pub fn offsets(counts: [u8; 8], n: usize) -> [u8; 8]
    requires { (n ≤ limits.stations) × (total (take n counts) ≤ limits.events) }
    ensures { (j : ℕ) → j < n → get_or result j 0 ≡ total (take j (take n counts)) }
{
    let mut offs = [0u8; 8];
    let mut sum = 0;
    for j in 0..n {
        offs[j] = sum;
        sum += counts[j];
    }
    offs
}

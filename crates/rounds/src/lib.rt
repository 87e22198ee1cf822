// The rounds of an intersection: all starts of a pair of structures, each as a table of rows.
#![tactic(auto)]

ghost use Rattle.std.specs.Prelude.{◌≡◌, ◌+◌, ◌*◌, ◌≤◌, ◌<◌, length};
ghost use Rattle.model.specs.Computation.{Computation};
ghost use Rattle.model.specs.Structure.{Structure};
ghost use Rattle.rounds.specs.Pair.{Known};
ghost use Rattle.slots.specs.Pair.{Intersected};

use slots::{Code, Table};
use start::one_start;

// All starts of a pair, the empty cut and each event's clock: their rows go to the front of ws.
pub fn intersect(
    ws: &mut [u8],
    left: &Table,
    right: &Table,
    first: &Table,
    n: usize,
    e: usize,
    code: &Code,
) -> u32
    requires { (0 < n) × (n ≤ 8) × (e ≤ 254) × ((e + 1) * n ≤ length ws.old) }
    ensures intersected { (K : Computation) (S T : Structure) → Known K S T n e left.now right.now first.now code.now → Intersected K S T n ws.new result }
    ensures upper_bound { result ≤ (e + 1) * (e + 2) }
{
    let mut rounds: u32 = 0;
    for i in 0..e + 1 {
        let start = one_start(left, right, first, e, i);
        slots::put_start(ws, i * n, n, start.cut.as_ref(), code);
        rounds += start.rounds;
    }
    rounds
}

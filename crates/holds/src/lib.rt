// The operation Holds.
#![tactic(auto)]

ghost use Rattle.std.specs.Prelude.{◌≡◌, ◌≤◌, length};
ghost use Rattle.model.specs.Limits.{limits, barspace_size};
ghost use Rattle.model.specs.Formula.{Formula};
ghost use Rattle.model.specs.Computation.{Computation, Consistent};
ghost use Rattle.model.specs.Forecast.{forecast};
ghost use Rattle.model.specs.Reply.{holds_reply};
ghost use Rattle.model.specs.Operations.{Kept, holds_op};
ghost use Rattle.model.specs.Promise.{Asked, Tested};

use frame::State;
use layout::consistent::consistent;
use model::{Fault, Log, Refusal};
use opened::test_cut;
use opening::{cramped, open_log};

// Holds: whether a question of a log is true at a cut.
pub fn holds(
    log: &[u8],
    question: usize,
    cut: &[u8],
    ws: &mut [u8],
    bs: &mut [u8],
) -> Result<bool, Refusal>
    ensures result_value { holds_reply result ≡ holds_op limits log.now question cut.now (length ws.old) (length bs.old) }
    ensures kept { Kept (holds_reply result) ws.old ws.new × Kept (holds_reply result) bs.old bs.new }
    ensures tested { (K : Computation) (f : Formula) → Asked limits log.now question K f → Consistent K cut.now → (forecast K f).cells ≤ length ws.old → barspace_size ≤ length bs.old → Tested K f cut.now (holds_reply result) }
{
    let mut list = [0u8; Log::LIST];
    let mut store = [0u8; Log::STORE];
    let loaded = open_log(limits::limits(), log, question, &mut list, &mut store)?;
    let State {
        stations,
        counts,
        ..
    } = loaded.state;
    let inside = consistent(cut, &store, stations, &counts);
    let small = cramped(&list, loaded, question, ws.len(), bs.len());
    if !inside {
        return Err(Fault::Cut.into());
    }
    if small {
        return Err(Fault::Workspace.into());
    }
    Ok(test_cut(&list, &store, loaded, question, cut, ws, bs))
}

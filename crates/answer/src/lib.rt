// The operation Answer.
#![tactic(auto)]

ghost use Rattle.std.specs.Prelude.{◌≡◌, [], ◌∷◌, ℕ, ◌<◌, length, take};
ghost use Rattle.model.specs.Limits.{limits};
ghost use Rattle.model.specs.Formula.{Formula};
ghost use Rattle.model.specs.Computation.{Computation};
ghost use Rattle.model.specs.Reply.{gives, line_reply};
ghost use Rattle.model.specs.Operations.{Kept, answer_op};
ghost use Rattle.model.specs.Promise.{Asked, Answered};

use model::{Fault, Log, Refusal};
use opened::answer_one;
use opening::{cramped, open_log};

// Answer: the line that answers a question of a log, at the front of `out`; hands back its length.
pub fn answer(
    log: &[u8],
    question: usize,
    ws: &mut [u8],
    bs: &mut [u8],
    out: &mut [u8],
) -> Result<usize, Refusal>
    ensures result_value { line_reply result ≡ (answer_op limits log.now question (length ws.old) (length bs.old) out.old).reply }
    ensures out_after { out.new ≡ (answer_op limits log.now question (length ws.old) (length bs.old) out.old).output }
    ensures kept { Kept (line_reply result) ws.old ws.new × Kept (line_reply result) bs.old bs.new }
    ensures answered { (K : Computation) (f : Formula) → Asked limits log.now question K f → (m : ℕ) → line_reply result ≡ gives (m ∷ []) → Answered K f (take m out.new) }
{
    let mut list = [0u8; Log::LIST];
    let mut store = [0u8; Log::STORE];
    let loaded = open_log(limits::limits(), log, question, &mut list, &mut store)?;
    let tight = cramped(&list, loaded, question, ws.len(), bs.len());
    let short = out.len() < Log::LINE;
    if tight {
        return Err(Fault::Workspace.into());
    }
    if short {
        return Err(Fault::Output.into());
    }
    Ok(answer_one(&list, &store, loaded, question, ws, bs, out))
}

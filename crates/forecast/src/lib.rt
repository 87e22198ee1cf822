// The operation Forecast.
#![tactic(auto)]

ghost use Rattle.std.specs.Prelude.{◌≡◌};
ghost use Rattle.model.specs.Limits.{limits};
ghost use Rattle.model.specs.Formula.{Formula};
ghost use Rattle.model.specs.Computation.{Computation};
ghost use Rattle.model.specs.Reply.{forecast_reply};
ghost use Rattle.model.specs.Operations.{forecast_op};
ghost use Rattle.model.specs.Promise.{Asked, Foretold};

use model::{Forecast, Log, Refusal};
use opening::{foresee, open_log};

// Forecast: what a question of a log can cost.
pub fn forecast(log: &[u8], question: usize) -> Result<Forecast, Refusal>
    ensures result_value { forecast_reply result ≡ forecast_op limits log.now question }
    ensures foretold { (K : Computation) (f : Formula) → Asked limits log.now question K f → Foretold limits log.now question K f (forecast_reply result) }
{
    let mut list = [0u8; Log::LIST];
    let mut store = [0u8; Log::STORE];
    let loaded = open_log(limits::limits(), log, question, &mut list, &mut store)?;
    Ok(foresee(&list, loaded, question))
}

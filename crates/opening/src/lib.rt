// What every operation that asks about a question begins with: a log is loaded, has the question, and there is room for what it can cost.
#![tactic(auto)]

ghost use Rattle.std.specs.Prelude.{◌≡◌, List, ℕ, ◌≤◌, ◌<◌, length};
ghost use Rattle.std.proofs.Math.Option.{some};
ghost use Rattle.std.proofs.Math.ListN.{get_elem?};
ghost use Rattle.model.specs.declared.Limits.{Limits};
ghost use Rattle.model.specs.Limits.{limits, starts_size, facts_size};
ghost use Rattle.model.specs.Formula.{Formula, prefix};
ghost use Rattle.model.specs.Forecast.{forecast};
ghost use Rattle.model.specs.Operations.{cramped};
ghost use Rattle.codec.specs.Limits.{NoLarger};
ghost use Rattle.structure.specs.Laid.{Laid, Facts};
ghost use Rattle.load.specs.Loading.{Left, Accepts, written};
ghost use Rattle.opening.specs.Opening.{Holding, Opens};

use frame::State;
use frames::question_at;
use load::{List, Loaded, Unread};
use model::{Fault, Forecast, Limits, Log};
use query::figures;
use structure::Shape;
use table::Store;

// Loads a log within the limits m, and looks whether it has a question of this number: the refusals of Read, then 10.
#[tactic(auto, using(crate::proofs::Openings::opens_posed, crate::proofs::Openings::opens_without, crate::proofs::Openings::opens_refused))]
pub fn open_log(
    m: Limits,
    log: &[u8],
    question: usize,
    list: &mut List,
    store: &mut Store,
) -> Result<Loaded, Unread>
    requires no_larger { NoLarger m limits }
    ensures opens { Opens m log.now question result list.new store.new }
    ensures left { Left (written result) list.old list.new }
{
    let loaded = load::load(m, log, list, store)?;
    if question < loaded.state.questions {
        Ok(loaded)
    } else {
        Err(Unread {
            refusal: Fault::NoQuestion.into(),
            length: loaded.length,
        })
    }
}

// The bytes of a question of a loaded log.
pub fn asked(list: &[u8], loaded: Loaded, question: usize) -> &[u8]
    requires question_lt_questions { (question < loaded.state.questions) × (loaded.length ≤ length list.now) }
    requires held { (t : List ℕ) × Holding loaded list.now t }
    ensures { (m : Limits) (log t : List ℕ) (a : Accepts m log loaded.state loaded.length list.now t) (f : Formula) → get_elem? a.reading.questions question ≡ some f → result.now ≡ prefix f }
{
    let Loaded { state, length } = loaded;
    question_at(list, length, state.first_question() + question)
}

// Lays a loaded log out in starts and facts, and gives its shape.
pub fn lay(store: &Store, loaded: Loaded, starts: &mut [u8], facts: &mut [u16]) -> Shape
    requires sizes { (starts_size ≤ length starts.old) × (facts_size ≤ length facts.old) }
    requires held { (list : List ℕ) × Holding loaded list store.now }
    ensures { (result.n ≡ loaded.state.stations) × ((m : Limits) (log list : List ℕ) (a : Accepts m log loaded.state loaded.length list store.now) → Laid a.reading.computation result starts.new × Facts a.reading.computation result facts.new) }
{
    let State {
        stations,
        events,
        messages,
        counts,
        ..
    } = loaded.state;
    layout::lay(store, stations, events, messages, counts, starts, facts)
}

// What a question of a loaded log can cost.
pub fn foresee(list: &[u8], loaded: Loaded, question: usize) -> Forecast
    requires question_lt_questions { (question < loaded.state.questions) × (loaded.length ≤ length list.now) }
    requires held { (t : List ℕ) × Holding loaded list.now t }
    ensures { (m : Limits) (log t : List ℕ) (a : Accepts m log loaded.state loaded.length list.now t) (f : Formula) → get_elem? a.reading.questions question ≡ some f → result ≡ forecast a.reading.computation f }
{
    let State {
        stations,
        events,
        ..
    } = loaded.state;
    let costs = figures(asked(list, loaded, question), stations);
    let held = usize::from(costs.held);
    let starts = events + 1;
    Forecast {
        width: usize::from(costs.width),
        bars: usize::from(costs.most),
        held,
        cells: held * stations * starts,
        ceiling: usize::from(costs.pairs) * (starts * starts),
    }
}

// Has the workspace fewer cells than are forecast of the question, or is the bar space too small?
pub fn cramped(list: &[u8], loaded: Loaded, question: usize, ws: usize, bs: usize) -> bool
    requires question_lt_questions { (question < loaded.state.questions) × (loaded.length ≤ length list.now) }
    requires held { (t : List ℕ) × Holding loaded list.now t }
    ensures { (m : Limits) (log t : List ℕ) (a : Accepts m log loaded.state loaded.length list.now t) (f : Formula) → get_elem? a.reading.questions question ≡ some f → result ≡ cramped a.reading.computation f ws bs }
{
    let Forecast { cells, .. } = foresee(list, loaded, question);
    ws < cells || bs < Log::BARSPACE
}

// A log that was opened for a question, or loaded for all of them: it is laid out, and they are answered, or one is tested at a cut.
#![tactic(auto)]

ghost use Rattle.std.specs.Prelude.{◌≡◌, List, ℕ, ◌≤◌, length};
ghost use Rattle.model.specs.Limits.{limits, print_limits, barspace_size, line_size, printed_size};
ghost use Rattle.model.specs.Forecast.{forecast};
ghost use Rattle.model.specs.Answer.{answer, answer_line, true_at};
ghost use Rattle.model.specs.Operations.{answer_lines};
ghost use Rattle.line.specs.AtFront.{AtFront};
ghost use Rattle.load.specs.Loading.{Accepts};
ghost use Rattle.opening.specs.Opening.{Poses};
ghost use Rattle.opening.specs.Prepared.{Prepared};

use load::Loaded;
use model::Log;
use opening::{asked, lay};
use question::{put_line, true_at};
use structure::Run;
use table::Store;

// Writes the answer line to the question of an opened log at the front of `out`; hands back its length.
pub fn answer_one(
    list: &[u8],
    store: &Store,
    loaded: Loaded,
    question: usize,
    ws: &mut [u8],
    bs: &mut [u8],
    out: &mut [u8],
) -> usize
    requires length_in_bounds { (loaded.length ≤ length list.now) × (barspace_size ≤ length bs.old) × (line_size ≤ length out.old) }
    requires poses { (log : List ℕ) × (p : Poses limits log question loaded list.now store.now) × ((forecast p.accepts.reading.computation p.question).cells ≤ length ws.old) }
    ensures { (log : List ℕ) (p : Poses limits log question loaded list.now store.now) → AtFront (answer_line (answer p.accepts.reading.computation p.question)) result out.old out.new }
{
    let mut starts = [0u8; Log::STARTS];
    let mut facts = [0u16; Log::FACTS];
    let x = lay(store, loaded, &mut starts, &mut facts);
    let run = Run {
        x,
        starts: &starts,
        facts: &facts,
    };
    let q = asked(list, loaded, question);
    put_line(q, &run, ws, bs, out)
}

// Tells whether the question of an opened log is true at a cut.
pub fn test_cut(
    list: &[u8],
    store: &Store,
    loaded: Loaded,
    question: usize,
    cut: &[u8],
    ws: &mut [u8],
    bs: &mut [u8],
) -> bool
    requires length_in_bounds { (loaded.length ≤ length list.now) × (length cut.now ≡ loaded.state.stations) × (barspace_size ≤ length bs.old) }
    requires poses { (log : List ℕ) × (p : Poses limits log question loaded list.now store.now) × ((forecast p.accepts.reading.computation p.question).cells ≤ length ws.old) }
    ensures { (log : List ℕ) (p : Poses limits log question loaded list.now store.now) → result ≡ true_at p.accepts.reading.computation p.question cut.now }
{
    let mut starts = [0u8; Log::STARTS];
    let mut facts = [0u16; Log::FACTS];
    let x = lay(store, loaded, &mut starts, &mut facts);
    let run = Run {
        x,
        starts: &starts,
        facts: &facts,
    };
    let q = asked(list, loaded, question);
    true_at(q, &run, cut, ws, bs)
}

// The answer lines to all questions of a log that is laid out, one after another; hands back where the last ends.
fn put_lines(list: &[u8], loaded: Loaded, run: &Run<'_>, out: &mut [u8]) -> usize
    requires length_in_bounds { (loaded.length ≤ length list.now) × (printed_size ≤ length out.old) }
    requires prepared { Prepared print_limits loaded list.now run.now }
    ensures { (p : Prepared print_limits loaded list.now run.now) → AtFront (answer_lines p.accepts.reading.computation p.accepts.reading.questions) result out.old out.new }
{
    let mut ws = [0u8; Log::WORKSPACE];
    let mut bs = [0u8; Log::BARSPACE];
    let mut end = 0;
    for i in 0..loaded.state.questions {
        let q = asked(list, loaded, i);
        end += put_line(q, run, &mut ws, &mut bs, &mut out[end..]);
    }
    end
}

// Writes the answer lines to all questions of a loaded log; hands back where the last ends.
pub fn answer_all(list: &[u8], store: &Store, loaded: Loaded, out: &mut [u8]) -> usize
    requires length_in_bounds { (loaded.length ≤ length list.now) × (printed_size ≤ length out.old) }
    requires accepts { (log : List ℕ) × Accepts print_limits log loaded.state loaded.length list.now store.now }
    ensures { (log : List ℕ) (a : Accepts print_limits log loaded.state loaded.length list.now store.now) → AtFront (answer_lines a.reading.computation a.reading.questions) result out.old out.new }
{
    let mut starts = [0u8; Log::STARTS];
    let mut facts = [0u16; Log::FACTS];
    let x = lay(store, loaded, &mut starts, &mut facts);
    let run = Run {
        x,
        starts: &starts,
        facts: &facts,
    };
    put_lines(list, loaded, &run, out)
}

// One question of a log that is laid out: its basis worked out, asked at a cut, its answer's line.
#![tactic(auto)]

ghost use Rattle.std.specs.Prelude.{◌≡◌, ◌≤◌, length};
ghost use Rattle.model.specs.Limits.{barspace_size, line_size};
ghost use Rattle.model.specs.Formula.{Formula};
ghost use Rattle.model.specs.Computation.{Computation};
ghost use Rattle.model.specs.Forecast.{forecast};
ghost use Rattle.model.specs.Answer.{true_at, answer, answer_line};
ghost use Rattle.listing.specs.Worked.{Worked};
ghost use Rattle.line.specs.AtFront.{AtFront};
ghost use Rattle.question.specs.Questions.{Question};

use model::Log;
use structure::{Run, Shape};

// Works the question's basis out, which then stands at the front of the workspace and the bar space.
pub fn work_out(q: &[u8], run: &Run<'_>, ws: &mut [u8], bs: &mut [u8]) -> token::Basis
    requires question { (K : Computation) × (f : Formula) × Question K f run.now q.now × ((forecast K f).cells ≤ length ws.old) }
    requires barspace_size_in_bounds { barspace_size ≤ length bs.old }
    ensures { (K : Computation) (f : Formula) → Question K f run.now q.now → Worked K f run.now.x result.sets.count result.rounds ws.new bs.new }
{
    basis::basis_true(q, ws, bs, run)
}

// Is the question whose basis was worked out true at a cut of n counts?
pub fn belongs(ws: &[u8], bs: &[u8], basis: token::Basis, x: Shape, cut: &[u8]) -> bool
    requires worked { (K : Computation) × (f : Formula) × Worked K f x basis.sets.count basis.rounds ws.now bs.now }
    requires cut_len { length cut.now ≡ x.n }
    ensures { (K : Computation) (f : Formula) → Worked K f x basis.sets.count basis.rounds ws.now bs.now → result ≡ true_at K f cut.now }
{
    let at = cells::cut_at(cut, 0, x.n);
    listing::belongs_any(ws, bs, basis.sets.count, x, &at)
}

// The answer's line at the front of `out`; hands back its length.
pub fn put_line(q: &[u8], run: &Run<'_>, ws: &mut [u8], bs: &mut [u8], out: &mut [u8]) -> usize
    requires question { (K : Computation) × (f : Formula) × Question K f run.now q.now × ((forecast K f).cells ≤ length ws.old) }
    requires bars_fit { barspace_size ≤ length bs.old }
    requires line_fits { line_size ≤ length out.old }
    ensures { (K : Computation) (f : Formula) → Question K f run.now q.now → AtFront (answer_line (answer K f)) result out.old out.new }
{
    let basis = work_out(q, run, ws, bs);
    let x = run.x;
    let mut cuts = [0u8; Log::CUTS];
    let listed = listing::list(ws, bs, basis.sets.count, x, basis.rounds, &mut cuts);
    line::put_answer(listed.start, &cuts, listed.count, x.n, listed.rounds, out)
}

// Is the question true at a cut of n counts?
pub fn true_at(q: &[u8], run: &Run<'_>, cut: &[u8], ws: &mut [u8], bs: &mut [u8]) -> bool
    requires question { (K : Computation) × (f : Formula) × Question K f run.now q.now × ((forecast K f).cells ≤ length ws.old) }
    requires cut_len { length cut.now ≡ run.now.x.n }
    requires bars_fit { barspace_size ≤ length bs.old }
    ensures { (K : Computation) (f : Formula) → Question K f run.now q.now → result ≡ true_at K f cut.now }
{
    let basis = work_out(q, run, ws, bs);
    belongs(ws, bs, basis, run.x, cut)
}

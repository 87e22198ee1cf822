// Prints, for the test program, the basis of each question of a log: for each structure its least cut, its greatest cut and its bars.
#![tactic(auto)]

ghost use Rattle.std.specs.Prelude.{◌≡◌, List, ℕ, ◌+◌, ◌*◌, ◌≤◌, ◌<◌, length};
ghost use Rattle.model.specs.Limits.{limits, print_limits, workspace_size, barspace_size};
ghost use Rattle.model.specs.Formula.{Formula};
ghost use Rattle.model.specs.Computation.{Computation};
ghost use Rattle.model.specs.Forecast.{forecast};
ghost use Rattle.load.specs.Loading.{Accepts};
ghost use Rattle.question.specs.Questions.{Question};
ghost use Rattle.opening.specs.Prepared.{Prepared};

use load::Loaded;
use model::Log;
use std::io;
use structure::{Run, Shape};
use table::Store;
use trial::Shown;

// The bars of a structure, up to the first that is none.
fn print_bars(rt: &HostRuntime, bars: &[u8], n: usize) -> io::Result<()>
    requires { (0 < n) × (n ≤ limits.stations) × (16 * n ≤ length bars.now) }
{
    for bar in bars[..16 * n].chunks_exact(n) {
        if bar.first() == Some(&cells::NONE) {
            break;
        }
        println!(rt; "bar{}", Shown(bar))?;
    }
    Ok(())
}

// The structure at the front of the workspace, with its bars.
fn print_structure(rt: &HostRuntime, ws: &[u8], bars: &[u8], x: Shape) -> io::Result<()>
    requires { ((x.e + 1) * x.n ≤ length ws.now) × (16 * x.n ≤ length bars.now) }
{
    let n = x.n;
    println!(rt; "least{}", Shown(&ws[..n]))?;
    let greatest = tops::greatest(ws, x);
    println!(rt; "greatest{}", Shown(&greatest[..n]))?;
    print_bars(rt, bars, n)
}

// The structures at the front of the workspace.
fn print_structures(
    rt: &HostRuntime,
    ws: &[u8],
    bs: &[u8],
    count: usize,
    x: Shape,
) -> io::Result<()>
    requires count_bound { (count ≤ 16) × (count * ((x.e + 1) * x.n) ≤ length ws.now) × (count * (16 * x.n) ≤ length bs.now) }
{
    let size = (x.e + 1) * x.n;
    let slot = 16 * x.n;
    // By an index: two tables are read at one place.
    for i in 0..count {
        print_structure(rt, &ws[i * size..], &bs[i * slot..], x)?;
    }
    Ok(())
}

// The basis of one question, and its rounds.
fn print_basis(
    rt: &HostRuntime,
    q: &[u8],
    run: &Run<'_>,
    ws: &mut [u8],
    bs: &mut [u8],
) -> io::Result<()>
    requires question { (K : Computation) × (f : Formula) × Question K f run.now q.now × ((forecast K f).cells ≤ length ws.old) }
    requires barspace_size_in_bounds { barspace_size ≤ length bs.old }
{
    let basis = question::work_out(q, run, ws, bs);
    let count = basis.sets.count;
    println!(rt; "structures {count}")?;
    print_structures(rt, ws, bs, count, run.x)?;
    println!(rt; "rounds {}", basis.rounds)
}

// The bases of all questions of a log that is laid out.
fn print_questions(
    rt: &HostRuntime,
    list: &[u8],
    loaded: Loaded,
    run: &Run<'_>,
    ws: &mut [u8],
    bs: &mut [u8],
) -> io::Result<()>
    requires length_in_bounds { (loaded.length ≤ length list.now) × (workspace_size ≤ length ws.old) × (barspace_size ≤ length bs.old) }
    requires prepared { Prepared print_limits loaded list.now run.now }
{
    for i in 0..loaded.state.questions {
        let q = opening::asked(list, loaded, i);
        print_basis(rt, q, run, ws, bs)?;
    }
    Ok(())
}

// The same for a log that is loaded.
fn print_loaded(rt: &HostRuntime, list: &[u8], store: &Store, loaded: Loaded) -> io::Result<()>
    requires length_in_bounds { loaded.length ≤ length list.now }
    requires accepts { (log : List ℕ) × Accepts print_limits log loaded.state loaded.length list.now store.now }
{
    let mut starts = [0u8; Log::STARTS];
    let mut facts = [0u16; Log::FACTS];
    let x = opening::lay(store, loaded, &mut starts, &mut facts);
    let run = Run {
        x,
        starts: &starts,
        facts: &facts,
    };
    let mut ws = [0u8; Log::WORKSPACE];
    let mut bs = [0u8; Log::BARSPACE];
    print_questions(rt, list, loaded, &run, &mut ws, &mut bs)
}

// The bases of a log, or its refusal.
pub fn print_case(rt: &HostRuntime, log: &[u8]) -> io::Result<()> {
    println!(rt)?;
    let mut list = [0u8; Log::LIST];
    let mut store = [0u8; Log::STORE];
    match load::load(limits::print_limits(), log, &mut list, &mut store) {
        Ok(loaded) => print_loaded(rt, &list, &store, loaded),
        Err(unread) => println!(rt; "{}", Shown(unread.refusal)),
    }
}

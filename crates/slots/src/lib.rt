// A structure as a table of rows of eight cells, in which a cut is raised without a branch, and what a start of a pair came to, put as a row.
#![tactic(auto)]

ghost use Rattle.std.specs.Prelude.{◌≡◌, true, ◌+◌, ◌≤◌, ◌<◌, length, take, drop, option_copied};
ghost use Rattle.std.proofs.Math.Option as maybe;
ghost use Rattle.model.specs.Cut.{Cut};
ghost use Rattle.model.specs.Computation.{Computation, stations};
ghost use Rattle.model.specs.Structure.{Structure, row};
ghost use Rattle.model.specs.Basis.{then_right};
ghost use Rattle.structure.specs.Layout.{decoded};
ghost use Rattle.slots.specs.Slots.{Small, Says, Slots, Offsets};
ghost use Rattle.slots.specs.Reached.{Reached};

use cells::NONE;
pub use numbering::{Code, Table, coding, put_rows};

// Raises a cut, or none, in the structure of a table, into `out`.
// Not inlined, and the cells are copied to their place: only so does the compiler join eight at once.
#[inline(never)]
fn raise_into(table: &Table, cut: &[u8; 8], out: &mut [u8; 8])
    ensures { (K : Computation) (S : Structure) (o : maybe.Option Cut) → Small K → Slots K (row S) table.now → Says K o cut.now → Says K (then_right S o) out.new }
{
    if cut[0] == NONE {
        out[0] = NONE;
        return;
    }
    let mut acc = [0u8; 8];
    cells::join_eight(&mut acc, table, 0);
    for k in cut {
        cells::join_eight(&mut acc, table, usize::from(*k) * 8);
    }
    cells::copy(out, 0, &acc, 0, 8);
}

// Raises a cut, or none, in the structure of a table.
pub fn raise(table: &Table, cut: &[u8; 8]) -> Option<[u8; 8]>
    ensures { (K : Computation) (S : Structure) (o : maybe.Option Cut) → Small K → Slots K (row S) table.now → Says K o cut.now → Reached K result (then_right S o) }
{
    let mut out = [0u8; 8];
    raise_into(table, cut, &mut out);
    if out[0] == NONE { None } else { Some(out) }
}

// Are two cuts the same? As numbers, since eight cells are then compared at once, which `==` on arrays does not come to.
pub fn same(a: &[u8; 8], b: &[u8; 8]) -> bool
    ensures { (result ≡ true → a.now ≡ b.now) × (a.now ≡ b.now → result ≡ true) }
{
    u64::from_le_bytes(*a) == u64::from_le_bytes(*b)
}

// The row of a start: its cut, or none. By reference, since the compiler takes apart a cut that is passed by value.
pub fn put_start(ws: &mut [u8], at: usize, n: usize, cut: Option<&[u8; 8]>, code: &Code)
    requires { (0 < n) × (n ≤ 8) × (at + n ≤ length ws.old) }
    ensures ws_after { (K : Computation) (o : maybe.Option Cut) → Small K → stations K ≡ n → Offsets K code.now → Reached K (option_copied cut.entry) o → decoded (take n (drop at ws.new)) ≡ o }
    ensures ws_unchanged { take at ws.new ≡ take at ws.old }
{
    match cut {
        Some(cut) => numbering::put_counts(ws, at, n, cut, code),
        None => ws[at] = NONE,
    }
}

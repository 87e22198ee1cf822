// Counts as numbers of events, and back. Events are numbered from 1 on, station by station; a cut has for each station the number of its last
// event, and the cells past the stations are 0. The rows of a structure stand in a table of rows of eight cells: row 0 is the least cut and row
// i that of event i, so that each cell of a cut names the row to join, and a 0 the least cut again. The table has a row for every byte.
#![tactic(auto)]

ghost use Rattle.std.specs.Prelude.{◌≡◌, ℕ, ◌+◌, ◌*◌, ◌-◌, ◌≤◌, ◌<◌, length, get_or, take, drop};
ghost use Rattle.std.proofs.Math.Option.{Option};
ghost use Rattle.model.specs.Cut.{Cut};
ghost use Rattle.model.specs.Computation.{Computation, stations, event_count};
ghost use Rattle.structure.specs.Layout.{decoded};
ghost use Rattle.numbering.specs.Rows.{Small, Says, Slots, Rows, Coding, Offsets, Fits, Put, Copied};

// Rows of eight cells, one for every byte.
pub type Table = [u8; 2048];

// How counts become numbers: the events before each station, and what is left up to 255.
#[derive(Clone, Copy)]
pub struct Code {
    pub room: [u8; 8],
    pub before: [u8; 8],
}

// How counts become numbers, from the events before each of n stations.
pub fn coding(n: usize, offs: &[u8; 8]) -> Code
    requires { n ≤ 8 }
    ensures { Coding n result × ((i : ℕ) → i < n → get_or result.before i 0 ≡ get_or offs.now i 0) }
{
    let mut room = [0u8; 8];
    let mut before = [0u8; 8];
    for i in 0..n {
        room[i] = 255 - offs[i];
        before[i] = offs[i];
    }
    Code { room, before }
}

// Eight counts, numbered, as row k.
fn put_row(table: &mut Table, k: usize, row: &[u8; 8], code: &Code)
    requires { (k < 256) × Fits code.now }
    ensures { Put code.now (k * 8) row.now table.old table.new }
{
    let mut t = [0u8; 8];
    for i in 0..8 {
        let y = row[i].min(code.room[i]);
        t[i] = y + code.before[i].min(255 * y.min(1));
    }
    cells::copy(table, k * 8, &t, 0, 8);
}

// Eight cells at a place.
fn eight(ws: &[u8], at: usize) -> &[u8; 8]
    requires { at + 8 ≤ length ws.now }
    ensures { result.now ≡ take 8 (drop at ws.now) }
{
    ws[at..at + 8].first_chunk::<8>().unwrap()
}

// Rows that may have no eight cells from their first on.
fn put_few(table: &mut Table, ws: &[u8], at: usize, n: usize, e: usize, code: &Code)
    requires { (n ≤ 8) × (e ≤ 254) × (at + (e + 1) * n ≤ length ws.now) × Coding n code.now }
    ensures { Copied code.now n ws.now at (e + 1) table.new }
{
    for k in 0..e + 1 {
        put_row(table, k, &cells::cut_at(ws, at + k * n, n), code);
    }
}

// Rows that have them: past n cells a row is not looked at.
fn put_many(table: &mut Table, ws: &[u8], at: usize, n: usize, e: usize, code: &Code)
    requires { (n ≤ 8) × (e ≤ 254) × (at + e * n + 8 ≤ length ws.now) × Coding n code.now }
    ensures { Copied code.now n ws.now at (e + 1) table.new }
{
    for k in 0..e + 1 {
        put_row(table, k, eight(ws, at + k * n), code);
    }
}

// The e + 1 rows at a place of ws, as a table. Which of the two it is, is asked once a table and not once a row.
pub fn put_rows(table: &mut Table, ws: &[u8], at: usize, n: usize, e: usize, code: &Code)
    requires { (n ≤ 8) × (e ≤ 254) × (at + (e + 1) * n ≤ length ws.now) × Coding n code.now }
    ensures { (K : Computation) (R : ℕ → ℕ → Option Cut) → Small K → stations K ≡ n → event_count K ≡ e → Offsets K code.now → Rows K R n at ws.now → Slots K R table.new }
{
    if ws.len() - (at + e * n) < 8 {
        put_few(table, ws, at, n, e, code);
    } else {
        put_many(table, ws, at, n, e, code);
    }
}

// A cut as n counts, or none, at a place of ws. Eight cells are written at once where there are as many.
pub fn put_counts(ws: &mut [u8], at: usize, n: usize, cut: &[u8; 8], code: &Code)
    requires { (n ≤ 8) × (at + n ≤ length ws.old) }
    ensures ws_after { (K : Computation) (o : Option Cut) → Small K → stations K ≡ n → Offsets K code.now → Says K o cut.now → decoded (take n (drop at ws.new)) ≡ o }
    ensures ws_unchanged { take at ws.new ≡ take at ws.old }
{
    let mut t = [0u8; 8];
    for i in 0..8 {
        t[i] = cut[i].saturating_sub(code.before[i]);
    }
    if ws.len() - at < 8 {
        cells::copy(ws, at, &t, 0, n);
    } else {
        cells::copy(ws, at, &t, 0, 8);
    }
}

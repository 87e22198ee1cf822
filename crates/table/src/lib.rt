// The store: where the slots of its event table stand, the first of each station, and where its messages do; the rules for clocks and for messages.
#![tactic(auto)]

pub mod clock;
pub mod message;

ghost use Rattle.std.specs.Prelude.{◌≡◌, ◌+◌, ◌*◌, ◌≤◌, ◌<◌, ◌++◌, length, drop};
ghost use Rattle.model.specs.Limits.{limits, stored_report, slot_size, table_size, message_size, store_size};
ghost use Rattle.model.specs.Reading.{report_size};
ghost use Rattle.cells.specs.Put.{put_of};
ghost use Rattle.table.specs.Table.{slot, report_bytes, message_slot};
ghost use Rattle.table.specs.Opening.{opening, Open};

// The store.
pub type Store = [u8; model::Log::STORE];

// Where event k of station j stands.
pub fn slot(j: usize, k: usize) -> usize
    requires { (j < limits.stations) × (k ≤ limits.events) }
    ensures { (result ≡ slot j k) × (result + slot_size ≤ table_size) }
{
    (j * (model::Log::EVENTS + 1) + k) * model::Log::SLOT
}

// Where message q stands.
pub fn message_slot(q: usize) -> usize
    requires { q < limits.messages }
    ensures { (result ≡ message_slot q) × (result + message_size ≤ store_size) }
{
    model::Log::TABLE + q * model::Log::MESSAGE
}

// The bytes of a report in a frame: a value's two, and a panel's where it is carried.
#[tactic(auto, unfolding(model::specs::Reading::report_size))]
pub fn report_size(panelled: bool) -> usize
    ensures { (result ≡ report_size panelled) × (2 ≤ result) × (result ≤ 4) }
{
    if panelled { 4 } else { 2 }
}

// The report at `from` of a frame, as the store has it: a panel that is not carried is 0.
fn report(frame: &[u8], from: usize, panelled: bool) -> [u8; 4]
    requires { from + report_size panelled ≤ length frame.now }
    ensures { result ≡ report_bytes panelled (drop from frame.now) }
{
    let mut r = [0u8; model::Log::REPORT];
    // Two copies, each of a length that is written out: one of either length would be a call.
    if panelled {
        r.copy_from_slice(&frame[from..from + 4]);
    } else {
        r[..2].copy_from_slice(&frame[from..from + 2]);
    }
    r
}

// Puts the report at `from` of a frame, and a clock behind it, into the store from `at` on.
pub fn put_slot(
    frame: &[u8],
    from: usize,
    panelled: bool,
    clock: &[u8],
    store: &mut [u8],
    at: usize,
)
    requires { (from + report_size panelled ≤ length frame.now) × (at + stored_report + length clock.now ≤ length store.old) }
    ensures { store.new ≡ put_of store.old at (report_bytes panelled (drop from frame.now) ++ clock.now) }
{
    let r = report(frame, from, panelled);
    cells::put(&r, store, at);
    cells::put(clock, store, at + model::Log::REPORT);
}

// Puts the first slot of station j into the store.
fn open_station(frame: &[u8], panelled: bool, j: usize, store: &mut Store)
    requires { (j < limits.stations) × (j * report_size panelled + 2 + report_size panelled ≤ length frame.now) }
    ensures { store.new ≡ put_of store.old (slot j 0) (opening panelled frame.now j) }
{
    let from = j * report_size(panelled) + 2;
    let none = [0u8; model::Log::STATIONS];
    put_slot(frame, from, panelled, &none, store, slot(j, 0));
}

// Puts the first slots of n stations into the store, their reports from a header.
pub fn open_stations(frame: &[u8], panelled: bool, n: usize, store: &mut Store)
    requires { (n ≤ limits.stations) × (length frame.now ≡ n * report_size panelled + 2) }
    ensures { Open panelled frame.now n store.new }
{
    for j in 0..n {
        open_station(frame, panelled, j, store);
    }
}

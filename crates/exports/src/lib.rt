// The operations for C and Rust: numbers and byte slices in, a reply packed in one number out.
#![tactic(auto)]

ghost use Rattle.std.specs.Prelude.{◌≡◌, length};
ghost use Rattle.model.specs.Limits.{limits};
ghost use Rattle.model.specs.Operations.{read_op, write_op, merge_op, forecast_op, answer_op, holds_op, Kept};
ghost use Rattle.packing.specs.Packed.{packed, read_widths, write_widths, forecast_widths, answer_widths, holds_widths};

use packing::packed;

// Read: the counts of stations, events and questions and the list's length, or a refusal.
#[unsafe(no_mangle)]
pub extern "C" fn moment_read(log: &[u8], out: &mut [u8]) -> u64
    ensures value { result ≡ packed read_widths (read_op limits log.now out.old).reply }
    ensures out_after { out.new ≡ (read_op limits log.now out.old).output }
{
    packed(op_read_write::read(log, out))
}

// Write: the log's length, or a refusal.
#[unsafe(no_mangle)]
pub extern "C" fn moment_write(list: &[u8], out: &mut [u8]) -> u64
    ensures value { result ≡ packed write_widths (write_op limits list.now out.old).reply }
    ensures out_after { out.new ≡ (write_op limits list.now out.old).output }
{
    packed(op_read_write::write(list, out))
}

// Merge: the merged log's length, or a refusal.
#[unsafe(no_mangle)]
pub extern "C" fn moment_merge(log: &[u8], second: &[u8], out: &mut [u8]) -> u64
    ensures value { result ≡ packed write_widths (merge_op limits log.now second.now out.old).reply }
    ensures out_after { out.new ≡ (merge_op limits log.now second.now out.old).output }
{
    packed(op_merge::merge(log, second, out))
}

// Forecast: width, largest bar count, structures held, cells and ceiling for the rounds, or a refusal.
#[unsafe(no_mangle)]
pub extern "C" fn moment_forecast(log: &[u8], question: usize) -> u64
    ensures { result ≡ packed forecast_widths (forecast_op limits log.now question) }
{
    packed(forecast::forecast(log, question))
}

// Answer: the line's length, or a refusal.
#[unsafe(no_mangle)]
pub extern "C" fn moment_answer(
    log: &[u8],
    question: usize,
    ws: &mut [u8],
    bs: &mut [u8],
    out: &mut [u8],
) -> u64
    ensures value { result ≡ packed answer_widths (answer_op limits log.now question (length ws.old) (length bs.old) out.old).reply }
    ensures out_after { out.new ≡ (answer_op limits log.now question (length ws.old) (length bs.old) out.old).output }
    ensures kept { Kept (answer_op limits log.now question (length ws.old) (length bs.old) out.old).reply ws.old ws.new }
    ensures kept_bars { Kept (answer_op limits log.now question (length ws.old) (length bs.old) out.old).reply bs.old bs.new }
{
    packed(answer::answer(log, question, ws, bs, out))
}

// Holds: 1 for yes, 0 for no, or a refusal.
#[unsafe(no_mangle)]
pub extern "C" fn moment_holds(
    log: &[u8],
    question: usize,
    cut: &[u8],
    ws: &mut [u8],
    bs: &mut [u8],
) -> u64
    ensures value { result ≡ packed holds_widths (holds_op limits log.now question cut.now (length ws.old) (length bs.old)) }
    ensures kept { Kept (holds_op limits log.now question cut.now (length ws.old) (length bs.old)) ws.old ws.new }
    ensures kept_bars { Kept (holds_op limits log.now question cut.now (length ws.old) (length bs.old)) bs.old bs.new }
{
    packed(holds::holds(log, question, cut, ws, bs))
}

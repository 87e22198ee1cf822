// An answer's line, from its start, cuts and rounds; a refusal's line.
#![tactic(auto)]

ghost use Rattle.std.specs.Prelude.{◌∷◌, ◌++◌, ◌≡◌, ◌+◌, ◌*◌, ◌≤◌, length, take};
ghost use Rattle.model.specs.Limits.{limits, frame_size, line_size};
ghost use Rattle.model.specs.Answer.{yes_no, four_bytes, answer_line, refusal_line};
ghost use Rattle.structure.specs.Layout.{cuts_at};
ghost use Rattle.line.specs.AtFront.{AtFront};

use model::Log;

// The answer's frame into an array; hands back its length.
fn put_frame(
    start: bool,
    cuts: &[u8],
    count: usize,
    n: usize,
    rounds: u32,
    frame: &mut [u8; Log::FRAME],
) -> usize
    requires { (count ≤ 16) × (n ≤ limits.stations) × (count * n ≤ length cuts.now) }
    ensures { (result ≤ frame_size) × (take result frame.new ≡ 0x40 ∷ yes_no start ∷ count ∷ (take (count * n) cuts.now ++ four_bytes rounds)) }
{
    let end = count * n;
    cells::put(&[0x40, u8::from(start), count as u8], frame, 0);
    cells::put(&cuts[..end], frame, 3);
    cells::put(&rounds.to_be_bytes(), frame, end + 3);
    end + 7
}

// The answer's line at the front of `out`; hands back its length. The number of cuts stands beside them, since the line says it.
pub fn put_answer(
    start: bool,
    cuts: &[u8],
    count: usize,
    n: usize,
    rounds: u32,
    out: &mut [u8],
) -> usize
    requires { (count ≤ 16) × (n ≤ limits.stations) × (count * n ≤ length cuts.now) × (line_size ≤ length out.old) }
    ensures { AtFront (answer_line (record { start = start; cuts = cuts_at n count cuts.now; rounds = rounds })) result out.old out.new }
{
    let mut frame = [0u8; Log::FRAME];
    let end = put_frame(start, cuts, count, n, rounds, &mut frame);
    wire::put_line(&frame[..end], out, 0)
}

// The refusal's line at the front of `out`; hands back its length.
pub fn put_refusal(number: u8, line: usize, out: &mut [u8]) -> usize
    requires { (line ≤ limits.bytes + 1) × (11 ≤ length out.old) }
    ensures { AtFront (refusal_line number line) result out.old out.new }
{
    let [high, low] = (line as u16).to_be_bytes();
    wire::put_line(&[0x50, number, high, low], out, 0)
}

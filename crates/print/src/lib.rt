// All that the program prints.
#![tactic(auto)]

ghost use Rattle.std.specs.Prelude.{◌≡◌, List, ◌++◌, ℕ, ◌≤◌, length, take, drop};
ghost use Rattle.model.specs.Operations.{printed};

use model::{Log, Refusal};
use opened::answer_all;

// What the program asks for: one byte more than a log may have, so that it sees a log that is too long.
pub const INPUT: usize = Log::PRINT_BYTES + 1;

// The most that is printed: an answer line for each question.
pub const PRINTED: usize = Log::PRINTED;

// What is printed for a log, at the front of `out`; hands back its length.
pub fn print_log(log: &[u8], out: &mut [u8; PRINTED]) -> usize
    ensures value { (result ≡ length (printed log.now)) × (result ≤ length out.new) }
    ensures out_after { out.new ≡ printed log.now ++ drop result out.old }
{
    let mut list = [0u8; Log::LIST];
    let mut store = [0u8; Log::STORE];
    match load::load(limits::print_limits(), log, &mut list, &mut store) {
        Ok(loaded) => answer_all(&list, &store, loaded, out),
        Err(unread) => {
            let Refusal { fault, line } = unread.refusal;
            line::put_refusal(u8::from(fault), line, out)
        }
    }
}

// What is printed for a file, at the front of `out`; hands back its length. The first `got` bytes of `input` are the file's, all of
// them or as many as `input` holds.
pub fn run(input: &[u8; INPUT], got: usize, out: &mut [u8; PRINTED]) -> usize
    ensures value { (result ≡ length (printed (take got input.now))) × (result ≤ length out.new) }
    ensures out_after { out.new ≡ printed (take got input.now) ++ drop result out.old }
    ensures whole_file { (file : List ℕ) → take got input.now ≡ take (length input.now) file → (result ≡ length (printed file)) × (out.new ≡ printed file ++ drop result out.old) }
{
    let n = if got < INPUT { got } else { INPUT };
    print_log(&input[..n], out)
}

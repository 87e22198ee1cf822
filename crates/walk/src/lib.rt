// A line of hexadecimal read in one walk, each look at the log counted.
#![tactic(auto)]

ghost use Rattle.std.specs.Prelude.{◌≡◌, ◌+◌, ◌<◌, ◌≤◌, length, drop, slice_index};
ghost use Rattle.model.specs.Bytes.{lines_of, digit};
ghost use Rattle.model.specs.Looks.{Looks};
ghost use Rattle.cells.specs.Put.{put_of};
ghost use Rattle.walk.specs.Pairs.{digit_of, pair_of, to_tell};
ghost use Rattle.walk.specs.Walked.{Walked, looked, lead, looks_of};

// What stands at an even place of a line.
// An own enum: an Option says only one way to be no byte, and a line's end is no fault, as a Result's error would be.
#[derive(Clone, Copy)]
enum Pair {
    Byte(u8),
    End,
    Broken,
}

// A line's bytes: how many they are, their sum, and how many bytes of the log were looked at.
#[derive(Clone, Copy)]
pub struct Frame {
    pub length: usize,
    pub sum: u8,
    pub looks: usize,
}

// A line whose form is wrong, and how many bytes of the log were looked at.
#[derive(Clone, Copy)]
pub struct Malformed {
    pub looks: usize,
}

// The digit 0-9 A-F that a byte is.
// By ranges: the library's digits are of a char, and take small letters too.
#[tactic(auto, unfolding(model::specs::Bytes::digit, model::specs::Lists::between))]
fn read_digit(b: u8) -> Option<u8>
    ensures { digit_of result ≡ digit b }
{
    match b {
        b'0'..=b'9' => Some(b - b'0'),
        b'A'..=b'F' => Some(b - b'A' + 10),
        _ => None,
    }
}

// The byte at `i`, and the look at it counted. Nothing else here reads the log.
fn look(log: &[u8], i: usize, looks: &mut usize) -> u8
    requires { (i < length log.now) × (looks.old ≤ i) }
    ensures { (looks.new ≡ looks.old + 1) × (result ≡ slice_index log.now i) }
{
    *looks += 1;
    log[i]
}

// The pair of digits at `i`, or the line's end there.
fn read_pair(log: &[u8], i: usize, looks: &mut usize) -> Pair
    requires { (i < length log.now) × (looks.old ≤ i) }
    ensures looks_after { looks.new ≡ looks.old + to_tell (drop i log.now) }
    ensures value { result ≡ pair_of (drop i log.now) }
{
    let a = look(log, i, looks);
    let Some(high) = read_digit(a) else {
        return if a == b'\n' { Pair::End } else { Pair::Broken };
    };
    let j = i + 1;
    if log.len() <= j {
        return Pair::Broken;
    }
    let b = look(log, j, looks);
    match read_digit(b) {
        Some(low) => Pair::Byte(16 * high + low),
        None => Pair::Broken,
    }
}

// The line that starts at `at`: its bytes go to the front of `out` and into the sum, pair by pair.
pub fn walk_line(log: &[u8], at: usize, out: &mut [u8]) -> Result<Frame, Malformed>
    requires { (at < length log.now) × (length out.old ≡ 100) }
    ensures result_value { looked result ≡ looks_of (drop at log.now) }
    ensures looks { Looks (lines_of (drop at log.now)) (looked result) }
    ensures walked { Walked log.now at result out.new }
    ensures out_after { out.new ≡ put_of out.old 0 (lead 100 (drop at log.now)) }
{
    let mut sum: u8 = 0;
    let mut looks = 0;
    for k in 0..=100 {
        let i = at + 2 * k;
        if log.len() <= i {
            break;
        }
        match read_pair(log, i, &mut looks) {
            Pair::Byte(b) if k < 100 => {
                out[k] = b;
                sum = sum.wrapping_add(b);
            }
            Pair::End if 2 <= k => {
                return Ok(Frame {
                    length: k,
                    sum,
                    looks,
                });
            }
            _ => break,
        }
    }
    Err(Malformed { looks })
}

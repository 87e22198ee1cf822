// A line of hexadecimal written.
#![tactic(auto)]

ghost use Rattle.std.specs.Prelude.{◌≡◌, ◌+◌, ◌*◌, ◌%◌, ◌<◌, ◌≤◌, [], ◌∷◌, length};
ghost use Rattle.model.specs.Lists.{total};
ghost use Rattle.model.specs.Bytes.{hex_digit, hex, check_byte, line};
ghost use Rattle.cells.specs.Put.{put_of};

// The digit of a number below 16.
// By cases: the library's digits are chars, with small letters.
#[tactic(auto, unfolding(model::specs::Bytes::hex_digit))]
fn hex_digit(d: u8) -> u8
    requires { d < 16 }
    ensures { result ≡ hex_digit d }
{
    if d < 10 { b'0' + d } else { b'A' + (d - 10) }
}

// The two digits of a byte.
#[tactic(auto, using(cells::proofs::Puts::put_two), unfolding(model::specs::Bytes::hex))]
fn put_byte(b: u8, out: &mut [u8], at: usize)
    requires { at + 2 ≤ length out.old }
    ensures { out.new ≡ put_of out.old at (hex (b ∷ [])) }
{
    out[at] = hex_digit(b / 16);
    out[at + 1] = hex_digit(b % 16);
}

// The digits of bytes.
fn put_hex(src: &[u8], out: &mut [u8], at: usize)
    requires { at + 2 * length src.now ≤ length out.old }
    ensures { out.new ≡ put_of out.old at (hex src.now) }
{
    for (k, b) in src.iter().enumerate() {
        put_byte(*b, out, at + 2 * k);
    }
}

// The sum of bytes modulo 256.
fn sum(s: &[u8]) -> u8
    ensures { result ≡ total s.now % 256 }
{
    s.iter().fold(0, |t: u8, b| t.wrapping_add(*b))
}

// The byte that brings a frame's sum to zero.
#[tactic(auto, unfolding(model::specs::Bytes::check_byte))]
fn check_byte(frame: &[u8]) -> u8
    ensures { result ≡ check_byte frame.now }
{
    0u8.wrapping_sub(sum(frame))
}

// A frame's line into `out` from `at` on; hands back where it ends.
pub fn put_line(frame: &[u8], out: &mut [u8], at: usize) -> usize
    requires { at + 2 * length frame.now + 3 ≤ length out.old }
    ensures { (result ≡ at + length (line frame.now)) × (out.new ≡ put_of out.old at (line frame.now)) }
{
    let check = check_byte(frame);
    put_hex(frame, out, at);
    let end = at + 2 * frame.len();
    put_byte(check, out, end);
    out[end + 2] = b'\n';
    end + 3
}

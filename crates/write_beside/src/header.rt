// The header of a merged log.
ghost use Rattle.std.specs.Prelude.{◌≡◌, length, take};
ghost use Rattle.write_beside.specs.Moved.{header_of, Headers};

use crate::report::put_reports;
use crate::{HEADER, Side};
use model::Kind;

// Makes the header of both logs at the front of `frame`; hands back its length.
pub(crate) fn merged_header(
    one: Side,
    first: &[u8],
    two: Side,
    second: &[u8],
    frame: &mut [u8; HEADER],
) -> usize
    requires { Headers one first.now two second.now }
    ensures { (result ≡ length (header_of one first.now two second.now)) × (take result frame.new ≡ header_of one first.now two second.now) }
{
    let n = two.before;
    let k = one.behind;
    frame[0] = u8::from(Kind::Header {
        panelled: one.carried,
    });
    frame[1] = (n + k) as u8;
    let middle = put_reports(one, n, &first[2..], frame, 2);
    put_reports(two, k, &second[2..], frame, middle)
}

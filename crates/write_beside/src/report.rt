// Bytes of a merged log's frames, put one after the other.
ghost use Rattle.std.specs.Prelude.{◌≡◌, ◌+◌, ◌*◌, ◌≤◌, length};
ghost use Rattle.model.specs.Cut.{empty};
ghost use Rattle.model.specs.Reading.{report_size};
ghost use Rattle.model.specs.Merge.{report_bytes, reports_bytes};
ghost use Rattle.cells.specs.Put.{put_of};
ghost use Rattle.write_beside.specs.Moved.{Covered};

use crate::Side;
use table::report_size;

// Puts k zeros into a frame from `at` on; hands back where they end.
pub(crate) fn put_zeros(k: usize, frame: &mut [u8], at: usize) -> usize
    requires { at + k ≤ length frame.old }
    ensures { (result ≡ at + k) × (frame.new ≡ put_of frame.old at (empty k)) }
{
    cells::fill(frame, at, k, 0);
    at + k
}

// Puts bytes into a frame from `at` on; hands back where they end.
pub(crate) fn put_bytes(bytes: &[u8], frame: &mut [u8], at: usize) -> usize
    requires { at + length bytes.now ≤ length frame.old }
    ensures { (result ≡ at + length bytes.now) × (frame.new ≡ put_of frame.old at bytes.now) }
{
    cells::put(bytes, frame, at);
    at + bytes.len()
}

// Puts the report at the front of a source; a panel that it does not carry is 0. Hands back where it ends.
pub(crate) fn put_report(side: Side, source: &[u8], frame: &mut [u8], at: usize) -> usize
    requires covered { Covered side }
    requires panelled_in_bounds { (report_size side.panelled ≤ length source.now) × (at + report_size side.carried ≤ length frame.old) }
    ensures { (result ≡ at + report_size side.carried) × (frame.new ≡ put_of frame.old at (report_bytes side.panelled side.carried source.now)) }
{
    let own = report_size(side.panelled);
    let size = report_size(side.carried);
    let end = put_bytes(&source[..own], frame, at);
    put_zeros(size - own, frame, end)
}

// Puts the n reports at the front of a source; hands back where they end.
pub(crate) fn put_reports(side: Side, n: usize, source: &[u8], frame: &mut [u8], at: usize) -> usize
    requires covered { Covered side }
    requires panelled_in_bounds { (n * report_size side.panelled ≤ length source.now) × (at + n * report_size side.carried ≤ length frame.old) }
    ensures { (result ≡ at + n * report_size side.carried) × (frame.new ≡ put_of frame.old at (reports_bytes side.panelled side.carried n source.now)) }
{
    let size = report_size(side.panelled);
    let mut rest = source;
    let mut end = at;
    for _ in 0..n {
        end = put_report(side, rest, frame, end);
        rest = &rest[size..];
    }
    end
}

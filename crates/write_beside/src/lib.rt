// The frames of two logs written as the lines of one: those of each log beside the other's.
#![tactic(auto)]

mod frames;
mod header;
mod report;

ghost use Rattle.std.specs.Prelude.{◌≡◌, ◌+◌, ◌≤◌, length};
ghost use Rattle.model.specs.Bytes.{line};
ghost use Rattle.model.specs.Codes.{kind_byte};
ghost use Rattle.model.specs.Merge.{of_kind};
ghost use Rattle.lattice.proofs.Lists.{All};
ghost use Rattle.cells.specs.Put.{put_of};
ghost use Rattle.codec.specs.Entries.{Formed, entries};
ghost use Rattle.write_beside.specs.Moved.{Covered, kind, part_of, Fits, header_of, Headers};

use model::{Kind, Log};

// The bytes of the largest header, and of the largest event: kind, stations or station, reports, and the event's clock.
const HEADER: usize = 2 + Log::STATIONS * Log::REPORT;

const EVENT: usize = 2 + Log::REPORT + Log::STATIONS;

// One of the two logs: whether its reports carry a panel, and whether those of the merged log do; how many stations stand before its own,
// and how many behind them.
#[derive(Clone, Copy)]
pub struct Side {
    pub panelled: bool,
    pub carried: bool,
    pub before: usize,
    pub behind: usize,
}

// The frames of a log that stand together.
#[derive(Clone, Copy)]
pub enum Part {
    Events,
    Messages,
    Questions,
}

// The kind of a part's frames.
impl From<Part> for Kind {
    ghost from_gives = { λ part own. kind_byte own ≡ kind part };

    fn from(part: Part) -> Kind {
        match part {
            Part::Events => Kind::Event,
            Part::Messages => Kind::Message,
            Part::Questions => Kind::Question,
        }
    }
}

// Writes the header of both logs, from the header of each; hands back where its line ends.
pub fn put_header(one: Side, first: &[u8], two: Side, second: &[u8], out: &mut [u8]) -> usize
    requires headers { Headers one first.now two second.now }
    requires second_in_bounds { length (line (header_of one first.now two second.now)) ≤ length out.old }
    ensures value { result ≡ length (line (header_of one first.now two second.now)) }
    ensures out_after { out.new ≡ put_of out.old 0 (line (header_of one first.now two second.now)) }
{
    let mut frame = [0u8; HEADER];
    let k = header::merged_header(one, first, two, second, &mut frame);
    wire::put_line(&frame[..k], out, 0)
}

// Writes the lines of a part of a frame list from `at` on; hands back where they end.
pub fn put_part(part: Part, side: Side, list: &[u8], out: &mut [u8], at: usize) -> usize
    requires covered { Covered side × Formed list.now }
    requires all { All (Fits part side) (of_kind (kind part) (entries list.now)) }
    requires list_in_bounds { at + length (part_of part side list.now) ≤ length out.old }
    ensures value { result ≡ at + length (part_of part side list.now) }
    ensures out_after { out.new ≡ put_of out.old at (part_of part side list.now) }
{
    let own = u8::from(Kind::from(part));
    let mut rest = list;
    let mut end = at;
    // By what is left: each entry's first byte tells its end. No iterator of the library steps so, and a closure that does is no plainer.
    while let Some((size, behind)) = rest.split_first() {
        let (frame, after) = behind.split_at(usize::from(*size));
        if frame[0] == own {
            end = frames::put_moved(part, side, frame, out, end);
        }
        rest = after;
    }
    end
}

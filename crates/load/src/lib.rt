// A log read frame by frame into a frame list and a store.
#![tactic(auto)]

mod lines;

ghost use Rattle.std.specs.Prelude.{◌≡◌};
ghost use Rattle.model.specs.Limits.{limits};
ghost use Rattle.codec.specs.Limits.{NoLarger};
ghost use Rattle.load.specs.Loading.{first, unread_at, Left, Loads, written, refusal_of};

use frame::State;
use model::{Fault, Limits, Log, Refusal};
use table::Store;

// A frame list, as long as the longest.
pub type List = [u8; Log::LIST];

// Where the next line starts, its number, the length of the frame list so far, and the state.
#[derive(Clone, Copy)]
pub struct Position {
    pub at: usize,
    pub line: usize,
    pub length: usize,
    pub state: State,
}

impl Position {
    // The first line.
    pub fn first() -> Position
        ensures { result ≡ first }
    {
        Position {
            at: 0,
            line: 1,
            length: 0,
            state: State::fresh(),
        }
    }

    // A fault of the line here.
    pub(crate) fn unread(self, fault: Fault) -> Unread
        ensures { result ≡ unread_at self fault }
    {
        Unread {
            refusal: Refusal {
                fault,
                line: self.line,
            },
            length: self.length,
        }
    }
}

// An accepted log: the state after its last line, and the length of its frame list.
#[derive(Clone, Copy)]
pub struct Loaded {
    pub state: State,
    pub length: usize,
}

// Why a log is refused, and the length of the frame list as far as it was read.
#[derive(Clone, Copy)]
pub struct Unread {
    pub refusal: Refusal,
    pub length: usize,
}

impl From<Unread> for Refusal {
    ghost from_gives = { refusal_of };

    fn from(unread: Unread) -> Refusal {
        unread.refusal
    }
}

// Reads a log into the frame list and the store, within the limits m.
pub fn load(m: Limits, log: &[u8], list: &mut List, store: &mut Store) -> Result<Loaded, Unread>
    requires no_larger { NoLarger m limits }
    ensures loads { Loads m log.now result list.new store.new }
    ensures left { Left (written result) list.old list.new }
{
    if m.bytes < log.len() {
        return Err(Unread {
            refusal: Fault::LongLog.into(),
            length: 0,
        });
    }
    lines::load_lines(m, log, list, store)
}

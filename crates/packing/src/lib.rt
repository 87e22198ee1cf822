// The operations' replies, each packed in one number.
#![tactic(auto)]

ghost use Rattle.std.specs.Prelude.{◌≡◌, ℕ, List, Result, Ok, Err, refl};
ghost use Rattle.model.specs.declared.Refusal.{Refusal};
ghost use Rattle.model.specs.Reply.{Reply, refusal, read_reply, write_reply, forecast_reply, holds_reply};
ghost use Rattle.packing.specs.Packed.{packed, read_widths, write_widths, forecast_widths, holds_widths, Fair};

use model::{Forecast, Log, Refusal};

// One in the highest five bits.
const HIGHEST: u64 = 0x0800_0000_0000_0000;

// What an operation hands back besides refusals: values that are packed one after another, the first in the lowest bits.
pub trait Pack {
    ghost widths: { List ℕ };

    ghost reply: { Result Self Refusal → Reply };

    fn pack(self) -> u64
        requires { Fair widths (reply (Ok self)) }
        ensures { result ≡ packed widths (reply (Ok self)) };

    ghost refuses: { (r : Refusal) → reply (Err r) ≡ refusal r };
}

// Read: the counts of stations, events and questions and the list's length.
impl Pack for Log {
    ghost widths = { read_widths };

    ghost reply = { read_reply };

    #[tactic(auto, unfolding(crate::specs::Packed::packed, crate::specs::Packed::pack))]
    fn pack(self) -> u64 {
        let above = self.events as u64 + 256 * (self.questions as u64 + 256 * (self.list as u64));
        self.stations as u64 + 256 * above
    }

    ghost refuses = { λ r. refl };
}

// Write, Merge and Answer: the length of what was written.
impl Pack for usize {
    ghost widths = { write_widths };

    ghost reply = { write_reply };

    #[tactic(auto, unfolding(crate::specs::Packed::packed, crate::specs::Packed::pack))]
    fn pack(self) -> u64 {
        self as u64
    }

    ghost refuses = { λ r. refl };
}

// Forecast: five figures.
impl Pack for Forecast {
    ghost widths = { forecast_widths };

    ghost reply = { forecast_reply };

    #[tactic(auto, unfolding(crate::specs::Packed::packed, crate::specs::Packed::pack))]
    fn pack(self) -> u64 {
        let room = self.cells as u64 + 0x0002_0000 * (self.ceiling as u64);
        self.width as u64 + 32 * (self.bars as u64 + 32 * (self.held as u64 + 64 * room))
    }

    ghost refuses = { λ r. refl };
}

// Holds: 1 for yes, 0 for no.
impl Pack for bool {
    ghost widths = { holds_widths };

    ghost reply = { holds_reply };

    #[tactic(auto, unfolding(crate::specs::Packed::packed, crate::specs::Packed::pack))]
    fn pack(self) -> u64 {
        u64::from(self)
    }

    ghost refuses = { λ r. refl };
}

// A reply as one number: its values, or a refusal's number in the highest five bits and its line below.
#[tactic(auto, unfolding(crate::specs::Packed::packed))]
pub fn packed<T: Pack>(reply: Result<T, Refusal>) -> u64
    requires { Fair T.widths (T.reply reply) }
    ensures { result ≡ packed T.widths (T.reply reply) }
{
    match reply {
        Ok(values) => values.pack(),
        Err(refusal) => u64::from(u8::from(refusal.fault)) * HIGHEST + refusal.line as u64,
    }
}

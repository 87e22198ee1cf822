// The question frame.
ghost use Rattle.std.specs.Prelude.{◌≡◌, ◌≤◌, ◌<◌, List, ℕ, length, get_or};
ghost use Rattle.model.specs.Limits.{limits};
ghost use Rattle.model.specs.Codes.{kind_byte};
ghost use Rattle.model.specs.declared.Kind.TheVariants.{Question};
ghost use Rattle.codec.specs.Limits.{NoLarger};
ghost use Rattle.frame.specs.State.{Bounded, Admits};

use crate::State;
use model::{Fault, Limits};

// Admits a question, within the limits m.
pub fn question(m: Limits, s: State, frame: &[u8]) -> Result<State, Fault>
    requires no_larger { NoLarger m limits × Bounded m s }
    requires in_bounds { (1 ≤ length frame.now) × (length frame.now ≤ 99) × (get_or frame.now 0 0 ≡ kind_byte Question) }
    ensures { (t : List ℕ) → Admits m s frame.now t result t }
{
    if s.stations == 0 || m.questions <= s.questions {
        return Err(Fault::Kind);
    }
    query::judge(&frame[1..], s.stations)?;
    Ok(s.with_question())
}

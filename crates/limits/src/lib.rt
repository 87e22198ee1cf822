// The limits of the operations and of the printing program, as values: those of the definitions are those of the type.
#![tactic(auto)]

ghost use Rattle.std.specs.Prelude.{◌≡◌};
ghost use Rattle.model.specs.Limits.{limits, print_limits};

use model::{Limits, Log};

pub fn limits() -> Limits
    ensures { result ≡ limits }
{
    Limits {
        stations: Log::STATIONS,
        events: Log::EVENTS,
        messages: Log::MESSAGES,
        questions: Log::QUESTIONS,
        bytes: Log::BYTES,
        list: Log::LIST,
    }
}

pub fn print_limits() -> Limits
    ensures { result ≡ print_limits }
{
    Limits {
        events: Log::PRINT_EVENTS,
        bytes: Log::PRINT_BYTES,
        list: Log::PRINT_LIST,
        ..limits()
    }
}

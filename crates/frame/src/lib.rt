// What has been read, as a state, and the header and the question, tried after it.
#![tactic(auto)]

pub mod header;
pub mod question;

ghost use Rattle.std.specs.Prelude.{◌≡◌, ◌≤◌, ◌<◌};
ghost use Rattle.model.specs.Limits.{limits};
ghost use Rattle.frame.specs.State.{fresh, after_header, after_event, after_message, after_question, is_open, first_question, Bounded};

// What has been read, in numbers: counts has the events of each station. panelled: the header says that reports carry a panel.
#[derive(Clone, Copy)]
pub struct State {
    pub panelled: bool,
    pub stations: usize,
    pub events: usize,
    pub messages: usize,
    pub questions: usize,
    pub counts: [u8; 8],
}

impl State {
    // Nothing has been read.
    pub fn fresh() -> State
        ensures { result ≡ fresh }
    {
        State {
            panelled: false,
            stations: 0,
            events: 0,
            messages: 0,
            questions: 0,
            counts: [0u8; model::Log::STATIONS],
        }
    }

    // A header of n stations has been read.
    pub(crate) fn with_header(self, panelled: bool, n: usize) -> State
        ensures { result ≡ after_header self panelled n }
    {
        State {
            panelled,
            stations: n,
            questions: self.questions,
            ..State::fresh()
        }
    }

    // One more event of station j has been read.
    pub fn with_event(self, j: usize) -> State
        requires bounded { Bounded limits self }
        requires j_lt_stations { (j < self.stations) × (self.events < limits.events) }
        ensures { result ≡ after_event self j }
    {
        let mut counts = self.counts;
        counts[j] += 1;
        State {
            events: self.events + 1,
            counts,
            ..self
        }
    }

    // One more message has been read.
    pub fn with_message(self) -> State
        requires { self.messages < limits.messages }
        ensures { result ≡ after_message self }
    {
        State {
            messages: self.messages + 1,
            ..self
        }
    }

    // One more question has been read.
    pub(crate) fn with_question(self) -> State
        requires { self.questions < limits.questions }
        ensures { result ≡ after_question self }
    {
        State {
            questions: self.questions + 1,
            ..self
        }
    }

    // May events and messages come: after the header, and before any question?
    pub fn is_open(self) -> bool
        ensures { result ≡ is_open self }
    {
        self.stations != 0 && self.questions == 0
    }

    // Where the first question stands among the frames.
    pub fn first_question(self) -> usize
        requires { (self.events ≤ limits.events) × (self.messages ≤ limits.messages) }
        ensures { result ≡ first_question self }
    {
        self.events + self.messages + 1
    }
}

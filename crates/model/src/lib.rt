// A log's limits, and the answers that the operations hand back.
#![tactic(auto)]

ghost use Rattle.std.specs.Prelude.{◌≡◌};
ghost use Rattle.model.specs.Limits.{limits};
ghost use Rattle.model.specs.Cut.{empty};
ghost use Rattle.model.specs.Reply.{number};
ghost use Rattle.model.specs.Codes.{whole, kind_byte, KindOf, TokenOf};

// The limits of a log, as one value.
#[derive(Clone, Copy)]
pub struct Limits {
    pub stations: usize,
    pub events: usize,
    pub messages: usize,
    pub questions: usize,
    pub bytes: usize,
    pub list: usize,
}

// An accepted log: its counts, and the length of its frame list.
#[derive(Clone, Copy)]
pub struct Log {
    pub stations: usize,
    pub events: usize,
    pub questions: usize,
    pub list: usize,
}

impl Log {
    pub const STATIONS: usize = 8;

    pub const EVENTS: usize = 254;

    pub const MESSAGES: usize = 64;

    pub const QUESTIONS: usize = 16;

    pub const BYTES: usize = 16384;

    pub const LIST: usize = 8192;

    // Of the printing program.
    pub const PRINT_EVENTS: usize = 127;

    pub const PRINT_BYTES: usize = 8192;

    pub const PRINT_LIST: usize = 4096;

    // The cells of the bar space, and the bytes of the longest answer line.
    pub const BARSPACE: usize = 8192;

    pub const LINE: usize = 273;

    // The structures that are held at a time for a question: never more. The program's workspace, in which any question of a log within
    // its limits can be worked out.
    pub const HELD: usize = 54;

    pub const WORKSPACE: usize = Log::HELD * Log::STATIONS * (Log::PRINT_EVENTS + 1);

    // The most that is printed: an answer line for each question.
    pub const PRINTED: usize = Log::QUESTIONS * Log::LINE;

    // The bytes of an event's report in the store, its value in two and its panel in two; and of its slot, with its clock in one for
    // each station.
    pub const REPORT: usize = 4;

    pub const SLOT: usize = Log::STATIONS + Log::REPORT;

    // The event table: for each station a slot before its first event and one for each event.
    pub const TABLE: usize = Log::STATIONS * (Log::EVENTS + 1) * Log::SLOT;

    // The bytes of a message: sender, number of its event, receiver, number of its event.
    pub const MESSAGE: usize = 4;

    // What is read of a log: the event table, and behind it the messages.
    pub const STORE: usize = Log::TABLE + Log::MESSAGES * Log::MESSAGE;

    // The starts: the empty cut and the clock of each event.
    pub const STARTS: usize = (Log::EVENTS + 1) * Log::STATIONS;

    // What atoms look at: a report for each station and for each event, all values and then all panels; then the number of messages, and
    // three numbers for each.
    pub const REPORTS: usize = Log::STATIONS + Log::EVENTS;

    pub const VALUES: usize = 2 * Log::REPORTS;

    pub const FACTS: usize = Log::VALUES + 1 + 3 * Log::MESSAGES;

    // The longest answer: its listed cuts, and its frame.
    pub const CUTS: usize = 16 * Log::STATIONS;

    pub const FRAME: usize = 3 + Log::CUTS + 4;

    // The empty cut: it holds no event of any station.
    pub fn empty_cut() -> [u8; 8]
        ensures { result ≡ empty limits.stations }
    {
        [0u8; Log::STATIONS]
    }
}

// What a range looks at: 01 at a station's value, 08 at its panel.
#[derive(Clone, Copy)]
pub enum Aspect {
    Value,
    Panel,
}

// What the test of one value by a range says.
#[derive(Clone, Copy)]
pub enum Finding {
    Inside,
    Outside,
    Silent,
}

// What can be wrong.
#[derive(Clone, Copy)]
pub enum Fault {
    LongLog,
    LineForm,
    CheckByte,
    Kind,
    Header,
    Event,
    Clock,
    Formula,
    Size,
    NoQuestion,
    Workspace,
    Output,
    Cut,
    FrameList,
    Message,
    Unworkable,
    TooWide,
    TooMany,
}

// The number in document 01.
impl From<Fault> for u8 {
    ghost from_gives = { λ fault n. n ≡ number fault };

    fn from(fault: Fault) -> u8 {
        match fault {
            Fault::LongLog => 1,
            Fault::LineForm => 2,
            Fault::CheckByte => 3,
            Fault::Kind => 4,
            Fault::Header => 5,
            Fault::Event => 6,
            Fault::Clock => 7,
            Fault::Formula => 8,
            Fault::Size => 9,
            Fault::NoQuestion => 10,
            Fault::Workspace => 11,
            Fault::Output => 12,
            Fault::Cut => 13,
            Fault::FrameList => 14,
            Fault::Message => 15,
            Fault::Unworkable => 16,
            Fault::TooWide => 17,
            Fault::TooMany => 18,
        }
    }
}

// A fault, and the line where it stands, or 0.
#[derive(Clone, Copy)]
pub struct Refusal {
    pub fault: Fault,
    pub line: usize,
}

// A fault where no one line is at fault.
impl From<Fault> for Refusal {
    ghost from_gives = { whole };

    fn from(fault: Fault) -> Refusal {
        Refusal { fault, line: 0 }
    }
}

// The kind of a frame; panelled: its header says that reports carry a panel.
#[derive(Clone, Copy)]
pub enum Kind {
    Header { panelled: bool },
    Event,
    Message,
    Question,
}

// Its first byte.
impl From<Kind> for u8 {
    ghost from_gives = { λ kind b. b ≡ kind_byte kind };

    #[tactic(auto, unfolding(crate::specs::Reading::header_kind))]
    fn from(kind: Kind) -> u8 {
        match kind {
            Kind::Header { panelled: false } => 0x10,
            Kind::Header { panelled: true } => 0x11,
            Kind::Event => 0x20,
            Kind::Message => 0x25,
            Kind::Question => 0x30,
        }
    }
}

// The kind that a frame's first byte says.
impl TryFrom<u8> for Kind {
    type Error = Fault;

    ghost try_from_gives = { KindOf };

    #[tactic(auto, unfolding(crate::specs::Reading::header_kind))]
    fn try_from(byte: u8) -> Result<Kind, Fault> {
        match byte {
            0x10 => Ok(Kind::Header { panelled: false }),
            0x11 => Ok(Kind::Header { panelled: true }),
            0x20 => Ok(Kind::Event),
            0x25 => Ok(Kind::Message),
            0x30 => Ok(Kind::Question),
            0x00..=0x0F | 0x12..=0x1F | 0x21..=0x24 | 0x26..=0x2F | 0x31..=0xFF => Err(Fault::Kind),
        }
    }
}

// The tokens of a formula: those of atoms, and signs.
#[derive(Clone, Copy)]
pub enum Token {
    Range(Aspect),
    Clear,
    Not,
    And,
    Or,
    Possibly,
    Always,
}

// The token that a byte of a question is.
impl TryFrom<u8> for Token {
    type Error = Fault;

    ghost try_from_gives = { TokenOf };

    #[tactic(auto, unfolding(crate::specs::Atom::range_token))]
    fn try_from(byte: u8) -> Result<Token, Fault> {
        match byte {
            1 => Ok(Token::Range(Aspect::Value)),
            2 => Ok(Token::Not),
            3 => Ok(Token::And),
            4 => Ok(Token::Or),
            5 => Ok(Token::Possibly),
            6 => Ok(Token::Always),
            7 => Ok(Token::Clear),
            8 => Ok(Token::Range(Aspect::Panel)),
            0 | 9..=255 => Err(Fault::Formula),
        }
    }
}

// What a question can cost: its width, the largest bar count at any token, the structures held, the cells of the workspace that these
// take, and a ceiling for the rounds.
#[derive(Clone, Copy)]
pub struct Forecast {
    pub width: usize,
    pub bars: usize,
    pub held: usize,
    pub cells: usize,
    pub ceiling: usize,
}

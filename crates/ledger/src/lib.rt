// What every layer shares: the reasons of a refusal with their numbers, strands, positions, rows, parts of a text, and the limits by name.
#![tactic(auto)]

ghost use Rattle.std.specs.Prelude.{◌≡◌};
ghost use Rattle.ledger.specs.Reasons.{reason_number};
ghost use Rattle.ledger.specs.Refusals.{refusal_at, without_text};
ghost use Rattle.ledger.specs.Strands.{strand_opposite, strand_letter, strand_of, strand_is, is_told};
ghost use Rattle.ledger.specs.Parts.{part_at};
ghost use Rattle.ledger.specs.Limits.{in_coordinates};

// A text has at most so many bytes.
pub const TEXT_LIMIT: usize = 65536;

// A name has 1 to so many bytes.
pub const NAME_LIMIT: usize = 64;

// A record holds 1 to so many blocks.
pub const BLOCK_LIMIT: u64 = 512;

// The score of a chain is at most this.
pub const CHAIN_SCORE_LIMIT: u64 = 999999999999999999;

// The id of a chain is at most this.
pub const CHAIN_ID_LIMIT: u64 = 4294967295;

// The score of a BED line is at most this.
pub const BED_SCORE_LIMIT: u64 = 1000;

// Each of the three numbers of a colour is at most this.
pub const COLOUR_LIMIT: u64 = 255;

// Each field of a tally is at most this.
pub const TALLY_LIMIT: u64 = 9223372036854775807;

// The largest place that a word of the machine holds.
pub const LARGEST_PLACE: usize = 18446744073709551615;

// The largest number that a word of the machine holds.
pub const LARGEST_NUMBER: u64 = 18446744073709551615;

// A position in a sequence, a size or a count: 01's coordinate.
#[derive(Clone, Copy)]
pub struct Position {
    pub base: u64,
}

impl Position {
    // The largest coordinate.
    pub const LARGEST: u64 = 2147483647;

    // Whether the position is a coordinate at all.
    pub fn in_range(self) -> bool
        ensures { result ≡ in_coordinates self.base }
    {
        self.base <= Position::LARGEST
    }
}

// Why a call is refused, in the order of 01's refusal ledger.
#[derive(Clone, Copy)]
pub enum Reason {
    TextTooLong,
    WrongCount,
    ByteNotAllowed,
    NumberMisspelt,
    NumberOutOfRange,
    BadWord,
    SpanDisagrees,
    ListLength,
    BlockRules,
    CountsDisagree,
    NoRoom,
    NoPair,
    OutsideTarget,
}

impl Reason {
    // The reason's number in 01's refusal ledger.
    pub fn number(self) -> u64
        ensures { result ≡ reason_number self }
    {
        match self {
            Reason::TextTooLong => 1,
            Reason::WrongCount => 2,
            Reason::ByteNotAllowed => 3,
            Reason::NumberMisspelt => 4,
            Reason::NumberOutOfRange => 5,
            Reason::BadWord => 6,
            Reason::SpanDisagrees => 7,
            Reason::ListLength => 8,
            Reason::BlockRules => 9,
            Reason::CountsDisagree => 10,
            Reason::NoRoom => 11,
            Reason::NoPair => 12,
            Reason::OutsideTarget => 13,
        }
    }
}

// What is wrong with a text, or with a word of one, inside the library: why, and the byte offset in it.
#[derive(Clone, Copy)]
pub struct Fault {
    pub reason: Reason,
    pub place: usize,
}

// What a caller is told: why, and the place: a byte offset in the text, 0 for a call without a text. Made in the
// outermost functions alone, and only by the two functions below; `?` calls `from`, which makes one of a fault.
#[derive(Clone, Copy)]
pub struct Refusal {
    pub reason: Reason,
    pub place: usize,
}

impl Refusal {
    // A refusal of a call without a text.
    pub fn without_text(reason: Reason) -> Refusal
        ensures { result ≡ without_text reason }
    {
        Refusal { reason, place: 0 }
    }
}

// A fault of a text, as its caller is told.
impl From<Fault> for Refusal {
    ghost from_gives = { λ x r. r ≡ refusal_at x };

    fn from(x: Fault) -> Refusal {
        Refusal {
            reason: x.reason,
            place: x.place,
        }
    }
}

// The strand kind of 01: `+`, `-`, or `.` where none is told.
#[derive(Clone, Copy)]
pub enum Strand {
    Plus,
    Minus,
    Dot,
}

impl Strand {
    // `+` and `-` change places; `.` is its own opposite.
    pub fn opposite(self) -> Strand
        ensures { result ≡ strand_opposite self }
    {
        match self {
            Strand::Plus => Strand::Minus,
            Strand::Minus => Strand::Plus,
            Strand::Dot => Strand::Dot,
        }
    }

    // Whether it is `+` or `-`, as a PSL line and a chain ask.
    pub fn is_told(self) -> bool
        ensures { result ≡ is_told self }
    {
        match self {
            Strand::Plus => true,
            Strand::Minus => true,
            Strand::Dot => false,
        }
    }

    pub fn letter(self) -> u8
        ensures { result ≡ strand_letter self }
    {
        match self {
            Strand::Plus => b'+',
            Strand::Minus => b'-',
            Strand::Dot => b'.',
        }
    }

    pub fn of_letter(b: u8) -> Option<Strand>
        ensures { result ≡ strand_of b }
    {
        match b {
            b'+' => Some(Strand::Plus),
            b'-' => Some(Strand::Minus),
            b'.' => Some(Strand::Dot),
            _ => None,
        }
    }

    // The strand of a letter that a column holds; `.` where it is none.
    pub fn of_value(v: u64) -> Strand
        ensures { result ≡ strand_is (strand_of v) }
    {
        if v == 43 {
            return Strand::Plus;
        }
        if v == 45 {
            return Strand::Minus;
        }
        Strand::Dot
    }
}

// A row of a lent table, one block: where it starts on the target and on the query (with `-`, on the reversed query), and its size.
#[derive(Clone, Copy)]
pub struct Row {
    pub target: u64,
    pub query: u64,
    pub size: u64,
}

// Where a name stands in a text: its first byte and its length.
#[derive(Clone, Copy)]
pub struct Part {
    pub start: usize,
    pub length: usize,
}

impl Part {
    // From the two numbers of a column: where its word starts, and a name's length.
    pub fn of_values(start: u64, length: u64) -> Part
        ensures { result ≡ part_at start length }
    {
        Part {
            start: start as usize,
            length: length as usize,
        }
    }
}

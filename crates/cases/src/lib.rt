// What the sample programs share: the lines of cases, escaped payloads, the words of a record, lent rooms with marks in them, and
// answers spelt as bytes.
#![tactic(auto)]

mod escape;
mod input;
mod puts;
mod rooms;
mod words;

ghost use Rattle.std.specs.Prelude.{◌≡◌, min, length, get_or};
ghost use Rattle.cases.specs.Lines.{is_case, case_letter};

pub use escape::unescape;
pub use input::read_full;
pub use puts::{
    put_check, put_kept, put_labelled, put_part, put_refusal, put_rows, put_shown, put_spaced,
    put_strand, put_text,
};
pub use rooms::{
    bytes_kept, length_of, marked_bytes, marked_rows, name_room, page, row_mark, row_numbers,
    rows_kept, table_rows,
};
pub use words::{name_at, number_at, row_numbers_at, strand_at};

// A table has room for so many rows, which are more than a record's blocks.
pub const TABLE: usize = 600;

// The byte at a place, or 0 past the end.
pub fn byte_at(s: &[u8], i: usize) -> u8
    ensures { result ≡ get_or s.now i 0 }
{
    if i < s.len() { s[i] } else { 0 }
}

// Whether a line is a case: it has a byte, and does not begin with `#`.
pub fn is_case(line: &[u8]) -> bool
    ensures { result ≡ is_case line.now }
{
    (0 < line.len()) & (byte_at(line, 0) != b'#')
}

// The letter of a case, if a space or nothing follows it, else 0.
pub fn letter_of(line: &[u8]) -> u8
    ensures { result ≡ case_letter line.now }
{
    if (line.len() < 2) | (byte_at(line, 1) == b' ') {
        return byte_at(line, 0);
    }
    0
}

// Where a case's payload starts. A line of one byte has an empty payload.
pub fn payload_start(line: &[u8]) -> usize
    ensures { result ≡ min 2 (length line.now) }
{
    2.min(line.len())
}

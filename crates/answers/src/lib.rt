// How an entry for another language answers (docs/DESK.md): one number, and bytes at the front of what was lent.
#![tactic(auto)]

ghost use Rattle.std.specs.Prelude.{◌≡◌, ◌+◌, ◌*◌, ◌≤◌, min, leb, length, take};
ghost use Rattle.blocks.specs.Blocks.{rows_of};
ghost use Rattle.blocks.specs.Rows.{table_of};
ghost use Rattle.writing.specs.Puts.{Put};
ghost use Rattle.binary.specs.Bytes.{word_size};
ghost use Rattle.answers.specs.Answers.{told, refusal_code, no_room_at, Answered, numbered, record_bytes, recorded};
ghost use Rattle.ledger.specs.Refusals.{fault_at, refusal_at, without_text};
ghost use Rattle.ledger.specs.declared.Reason.TheVariants.{NoRoom};

use ledger::{Fault, Reason, Refusal};

// Places and counts over this are told as this.
const MOST_TOLD: u64 = 1152921504606846975;

// 16 × value: what an accepted call answers with a count.
pub fn told_as(value: u64) -> u64
    ensures { result ≡ told value }
{
    if MOST_TOLD < value {
        return 16 * MOST_TOLD;
    }
    16 * value
}

// A refusal's place and reason.
pub fn refusal_code(x: Refusal) -> u64
    ensures { result ≡ refusal_code x }
{
    let reason = x.reason;
    told_as(x.place as u64) + reason.number()
}

// The refusal of a text's fault.
pub fn refused_at(reason: Reason, place: usize) -> u64
    ensures { result ≡ refusal_code (refusal_at (fault_at reason place)) }
{
    refusal_code(Refusal::from(Fault { reason, place }))
}

// The refusal of an entry's own arguments.
pub fn refused_by(reason: Reason) -> u64
    ensures { result ≡ refusal_code (without_text reason) }
{
    refusal_code(Refusal::without_text(reason))
}

// Numbers, 8 bytes each, to the front of the lent bytes, or 11 at a text's end.
pub fn answer_numbers(end: usize, vs: &[u64], out: &mut [u8]) -> u64
    ensures { Answered (numbered (no_room_at end) (length out.old) vs.now)
        out.old out.new result }
{
    if out.len() / binary::WORD_SIZE < vs.len() {
        return refused_at(Reason::NoRoom, end);
    }
    binary::put_words(out, 0, vs);
    told_as(vs.len() as u64)
}

// The same of an entry without a text.
pub fn answer_without_text(vs: &[u64], out: &mut [u8]) -> u64
    ensures { Answered (numbered (without_text NoRoom) (length out.old) vs.now)
        out.old out.new result }
{
    if out.len() / binary::WORD_SIZE < vs.len() {
        return refused_by(Reason::NoRoom);
    }
    binary::put_words(out, 0, vs);
    told_as(vs.len() as u64)
}

// How many of the first so many rows three slices have.
fn first_rows(n: usize, targets: &[u64], queries: &[u64], sizes: &[u64]) -> usize
    ensures { result ≡ min n (rows_of targets.now queries.now sizes.now) }
{
    n.min(blocks::rows_of(targets, queries, sizes))
}

// Whether a record of so many numbers and rows fits into so many bytes.
fn record_fits(fields: usize, rows: usize, room: usize) -> bool
    ensures { result ≡ leb (word_size * (fields + 3 * rows)) room }
{
    let words = room / binary::WORD_SIZE;
    if words < fields {
        return false;
    }
    rows <= (words - fields) / 3
}

// Stores a record's numbers and its first so many rows.
fn put_record(
    fields: &[u64],
    targets: &[u64],
    queries: &[u64],
    sizes: &[u64],
    rows: usize,
    out: &mut [u8],
) -> usize
    requires { (rows ≤ length targets.now) × (rows ≤ length queries.now) × (rows ≤ length sizes.now) }
    ensures { Put (record_bytes fields.now (take rows (table_of targets.now queries.now
        sizes.now))) 0 out.old out.new result }
{
    let p = binary::put_words(out, 0, fields);
    binary::put_rows(out, p, &targets[..rows], &queries[..rows], &sizes[..rows])
}

// A record's numbers and its first so many rows, a word for each number, to the front of the lent bytes, or 11 at a text's end.
pub fn answer_record(
    end: usize,
    fields: &[u64],
    targets: &[u64],
    queries: &[u64],
    sizes: &[u64],
    n: usize,
    out: &mut [u8],
) -> u64
    ensures { Answered (recorded (no_room_at end) (length out.old) fields.now (take n (table_of targets.now
        queries.now sizes.now))) out.old out.new result }
{
    let rows = first_rows(n, targets, queries, sizes);
    if record_fits(fields.len(), rows, out.len()) {
        put_record(fields, targets, queries, sizes, rows, out);
        return told_as((fields.len() + 3 * rows) as u64);
    }
    refused_at(Reason::NoRoom, end)
}

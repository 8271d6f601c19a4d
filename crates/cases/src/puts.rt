// Answers spelt as bytes, in a buffer from a place on; each function answers the place after (writing).
ghost use Rattle.std.specs.Prelude.{◌≡◌, [], ◌∷◌, ◌++◌, length};
ghost use Rattle.writing.specs.Puts.{Put};
ghost use Rattle.cases.specs.Texts.{labelled, reason_text, refusal_text, check_text, kept_text, part_text, strand_text, row_text, rows_text, spaced_text, shown_byte, shown_text, written_text};

use ledger::{Part, Refusal, Strand};

// A label and a number.
pub fn put_labelled(out: &mut [u8], at: usize, label: &[u8], v: u64) -> usize
    ensures { Put (labelled label.now v) at out.old out.new result }
{
    let a = writing::put_bytes(out, at, label);
    writing::put_number(out, a, v)
}

// The reason's number.
fn put_reason(out: &mut [u8], at: usize, x: Refusal) -> usize
    ensures { Put (reason_text x) at out.old out.new result }
{
    let reason = x.reason;
    put_labelled(out, at, b"refused ", reason.number())
}

// The reason's number and the place.
pub fn put_refusal(out: &mut [u8], at: usize, x: Refusal) -> usize
    ensures { Put (refusal_text x) at out.old out.new result }
{
    let a = put_reason(out, at, x);
    put_labelled(out, a, b" at ", x.place as u64)
}

// What a checker without a text answers.
pub fn put_check(out: &mut [u8], at: usize, check: Result<(), Refusal>) -> usize
    ensures { Put (check_text check) at out.old out.new result }
{
    match check {
        Ok(()) => writing::put_bytes(out, at, b"ok"),
        Err(x) => put_refusal(out, at, x),
    }
}

// Tells that what was lent was changed where it must not be.
pub fn put_kept(out: &mut [u8], at: usize, kept: bool) -> usize
    ensures { Put (kept_text kept) at out.old out.new result }
{
    if kept {
        return writing::put_bytes(out, at, b"");
    }
    writing::put_bytes(out, at, b" touched")
}

// A space, where a name stands, and its length.
pub fn put_part(out: &mut [u8], at: usize, part: Part) -> usize
    ensures { Put (part_text part) at out.old out.new result }
{
    let a = put_labelled(out, at, b" ", part.start as u64);
    put_labelled(out, a, b"+", part.length as u64)
}

// A space and the strand's letter.
pub fn put_strand(out: &mut [u8], at: usize, strand: Strand) -> usize
    ensures { Put (strand_text strand) at out.old out.new result }
{
    let a = writing::put_byte(out, at, b' ');
    writing::put_byte(out, a, strand.letter())
}

// Numbers, a space before each.
pub fn put_spaced(out: &mut [u8], at: usize, vs: &[u64]) -> usize
    ensures { Put (spaced_text vs.now) at out.old out.new result }
{
    let mut p = at;
    for v in vs {
        p = put_labelled(out, p, b" ", *v);
    }
    p
}

fn put_row(out: &mut [u8], at: usize, target: u64, query: u64, size: u64) -> usize
    ensures { Put (row_text target query size) at out.old out.new result }
{
    let a = put_labelled(out, at, b" ", target);
    let b = put_labelled(out, a, b",", query);
    put_labelled(out, b, b",", size)
}

// The first rows of three tables.
pub fn put_rows(
    out: &mut [u8],
    at: usize,
    targets: &[u64],
    queries: &[u64],
    sizes: &[u64],
    n: usize,
) -> usize
    ensures { Put (rows_text n 0 targets.now queries.now sizes.now) at out.old
        out.new result }
{
    let mut p = at;
    for i in 0..n {
        let target = columns::value_at(targets, i);
        let query = columns::value_at(queries, i);
        let size = columns::value_at(sizes, i);
        p = put_row(out, p, target, query, size);
    }
    p
}

// One byte of a text, a tab or a line feed by its escape.
fn put_shown_byte(out: &mut [u8], at: usize, b: u8) -> usize
    ensures { Put (shown_byte b) at out.old out.new result }
{
    if b == b'\t' {
        return writing::put_bytes(out, at, b"\\t");
    }
    if b == b'\n' {
        return writing::put_bytes(out, at, b"\\n");
    }
    writing::put_byte(out, at, b)
}

// A text's bytes, tabs and line feeds by their escapes.
pub fn put_shown(out: &mut [u8], at: usize, bytes: &[u8]) -> usize
    ensures { Put (shown_text bytes.now) at out.old out.new result }
{
    let mut p = at;
    for b in bytes {
        p = put_shown_byte(out, p, *b);
    }
    p
}

// The text that a writer left at the front of a buffer, or why it left none.
pub fn put_text(out: &mut [u8], at: usize, buf: &[u8], written: Result<usize, Refusal>) -> usize
    ensures { Put (written_text buf.now written) at out.old out.new result }
{
    match written {
        Err(x) => put_refusal(out, at, x),
        Ok(n) => {
            let m = n.min(buf.len());
            put_shown(out, at, &buf[..m])
        }
    }
}

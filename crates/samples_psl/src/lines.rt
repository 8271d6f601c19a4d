// A text read as a PSL line.
use ledger::Refusal;
use psl::{Counts, Psl, Side};

fn put_counts(out: &mut [u8], at: usize, c: Counts) -> usize {
    cases::put_spaced(
        out,
        at,
        &[
            c.matches,
            c.misMatches,
            c.repMatches,
            c.nCount,
            c.qNumInsert,
            c.qBaseInsert,
            c.tNumInsert,
            c.tBaseInsert,
        ],
    )
}

fn put_side(out: &mut [u8], at: usize, x: Side) -> usize {
    let a = cases::put_part(out, at, x.name);
    cases::put_spaced(out, a, &[x.size, x.start, x.end])
}

fn put_sides(out: &mut [u8], at: usize, r: Psl) -> usize {
    let query = r.query;
    let target = r.target;
    let a = put_side(out, at, query);
    let b = put_side(out, a, target);
    cases::put_labelled(out, b, b" ", r.blockCount)
}

// A record's columns; a name by its place and length.
fn put_psl(out: &mut [u8], at: usize, r: Psl) -> usize {
    let counts = r.counts;
    let strand = r.strand;
    let a = writing::put_bytes(out, at, b"psl");
    let b = put_counts(out, a, counts);
    let c = cases::put_strand(out, b, strand);
    put_sides(out, c, r)
}

// What the text checker answers.
fn put_text_check(out: &mut [u8], at: usize, s: &[u8]) -> usize {
    let a = writing::put_bytes(out, at, b" checker ");
    match psl::check_psl_text(s) {
        Ok(r) => put_psl(out, a, r),
        Err(x) => cases::put_refusal(out, a, x),
    }
}

// The standard text of a record whose names stand in a text.
fn put_standard(
    out: &mut [u8],
    at: usize,
    s: &[u8],
    r: Psl,
    targets: &[u64],
    queries: &[u64],
    sizes: &[u64],
) -> usize {
    let query = r.query;
    let target = r.target;
    let q = text::name_in(s, query.name);
    let t = text::name_in(s, target.name);
    let mut buf = cases::marked_bytes();
    let written = psl::write_psl(r, q, t, targets, queries, sizes, &mut buf);
    let a = writing::put_bytes(out, at, b" text ");
    cases::put_text(out, a, &buf, written)
}

// What the record checker answers of a record that was read.
fn put_record_check(
    out: &mut [u8],
    at: usize,
    r: Psl,
    targets: &[u64],
    queries: &[u64],
    sizes: &[u64],
) -> usize {
    let a = writing::put_bytes(out, at, b" check ");
    cases::put_check(out, a, psl::check_psl(r, targets, queries, sizes))
}

// A record's columns, and its rows; whether the rows past them were kept.
fn put_record(
    out: &mut [u8],
    at: usize,
    r: Psl,
    targets: &[u64],
    queries: &[u64],
    sizes: &[u64],
) -> usize {
    let count = r.blockCount as usize;
    let a = put_psl(out, at, r);
    let b = writing::put_bytes(out, a, b" rows");
    let c = cases::put_rows(out, b, targets, queries, sizes, count);
    cases::put_kept(out, c, cases::rows_kept(targets, queries, sizes, count))
}

// An accepted line: its record, its standard text, and what the record checker says.
fn put_accepted(
    out: &mut [u8],
    at: usize,
    s: &[u8],
    r: Psl,
    targets: &[u64],
    queries: &[u64],
    sizes: &[u64],
) -> usize {
    let a = put_record(out, at, r, targets, queries, sizes);
    let b = put_standard(out, a, s, r, targets, queries, sizes);
    put_record_check(out, b, r, targets, queries, sizes)
}

// What the reader answers of a text, and what it left in the tables.
fn put_read(
    out: &mut [u8],
    at: usize,
    s: &[u8],
    answer: Result<Psl, Refusal>,
    targets: &[u64],
    queries: &[u64],
    sizes: &[u64],
) -> usize {
    match answer {
        Ok(r) => put_accepted(out, at, s, r, targets, queries, sizes),
        Err(x) => {
            let a = cases::put_refusal(out, at, x);
            cases::put_kept(out, a, cases::rows_kept(targets, queries, sizes, 0))
        }
    }
}

// A record's blocks.
const ROWS: usize = ledger::BLOCK_LIMIT as usize;

// A text read with room for so many blocks, or for as many as the slices have.
fn read_with(
    s: &[u8],
    room: usize,
    targets: &mut [u64],
    queries: &mut [u64],
    sizes: &mut [u64],
) -> Result<Psl, Refusal> {
    let t = room.min(targets.len());
    let q = room.min(queries.len());
    let z = room.min(sizes.len());
    psl::read_psl(s, &mut targets[..t], &mut queries[..q], &mut sizes[..z])
}

// The same of marked slices.
fn read_case(s: &[u8], room: usize, out: &mut [u8], at: usize) -> usize {
    let mut targets = cases::marked_rows();
    let mut queries = cases::marked_rows();
    let mut sizes = cases::marked_rows();
    let answer = read_with(s, room, &mut targets, &mut queries, &mut sizes);
    put_read(out, at, s, answer, &targets, &queries, &sizes)
}

// A text read with room for 512 blocks; then the text checker.
pub(crate) fn line_case(s: &[u8], out: &mut [u8], at: usize) -> usize {
    let a = read_case(s, ROWS, out, at);
    put_text_check(out, a, s)
}

// A text read with room for two blocks.
pub(crate) fn narrow_case(s: &[u8], out: &mut [u8], at: usize) -> usize {
    read_case(s, 2, out, at)
}

// A text read as a chain.
use chain::Chain;
use ledger::Refusal;

fn put_target(out: &mut [u8], at: usize, r: Chain) -> usize {
    let a = cases::put_part(out, at, r.tName);
    cases::put_spaced(out, a, &[r.tSize, r.tStart, r.tEnd])
}

fn put_query(out: &mut [u8], at: usize, r: Chain) -> usize {
    let strand = r.qStrand;
    let a = cases::put_part(out, at, r.qName);
    let b = cases::put_labelled(out, a, b" ", r.qSize);
    let c = cases::put_strand(out, b, strand);
    cases::put_spaced(out, c, &[r.qStart, r.qEnd, r.id, r.blockCount])
}

// A record's columns; a name by its place and length.
fn put_chain(out: &mut [u8], at: usize, r: Chain) -> usize {
    let a = cases::put_labelled(out, at, b"chain ", r.score);
    let b = put_target(out, a, r);
    put_query(out, b, r)
}

// What the text checker answers.
fn put_text_check(out: &mut [u8], at: usize, s: &[u8]) -> usize {
    let a = writing::put_bytes(out, at, b" checker ");
    match chain::check_chain_text(s) {
        Ok(r) => put_chain(out, a, r),
        Err(x) => cases::put_refusal(out, a, x),
    }
}

// The standard text of a record whose names stand in a text.
fn put_standard(
    out: &mut [u8],
    at: usize,
    s: &[u8],
    r: Chain,
    targets: &[u64],
    queries: &[u64],
    sizes: &[u64],
) -> usize {
    let t = text::name_in(s, r.tName);
    let q = text::name_in(s, r.qName);
    let mut buf = cases::marked_bytes();
    let written = cases_chain::write_chain(r, t, q, targets, queries, sizes, &mut buf);
    let a = writing::put_bytes(out, at, b" text ");
    cases::put_text(out, a, &buf, written)
}

// What the record checker answers of a record that was read.
fn put_record_check(
    out: &mut [u8],
    at: usize,
    r: Chain,
    targets: &[u64],
    queries: &[u64],
    sizes: &[u64],
) -> usize {
    let a = writing::put_bytes(out, at, b" check ");
    cases::put_check(out, a, cases_chain::check_chain(r, targets, queries, sizes))
}

// A record's columns, and its rows; whether the rows past them were kept.
fn put_record(
    out: &mut [u8],
    at: usize,
    r: Chain,
    targets: &[u64],
    queries: &[u64],
    sizes: &[u64],
) -> usize {
    let count = r.blockCount as usize;
    let a = put_chain(out, at, r);
    let b = writing::put_bytes(out, a, b" rows");
    let c = cases::put_rows(out, b, targets, queries, sizes, count);
    cases::put_kept(out, c, cases::rows_kept(targets, queries, sizes, count))
}

// An accepted chain: its record, its standard text, and what the record checker says.
fn put_accepted(
    out: &mut [u8],
    at: usize,
    s: &[u8],
    r: Chain,
    targets: &[u64],
    queries: &[u64],
    sizes: &[u64],
) -> usize {
    let a = put_record(out, at, r, targets, queries, sizes);
    let b = put_standard(out, a, s, r, targets, queries, sizes);
    put_record_check(out, b, r, targets, queries, sizes)
}

// What the reader answers of a text, and what it left in the tables.
fn put_read(
    out: &mut [u8],
    at: usize,
    s: &[u8],
    answer: Result<Chain, Refusal>,
    targets: &[u64],
    queries: &[u64],
    sizes: &[u64],
) -> usize {
    match answer {
        Ok(r) => put_accepted(out, at, s, r, targets, queries, sizes),
        Err(x) => {
            let a = cases::put_refusal(out, at, x);
            cases::put_kept(out, a, cases::rows_kept(targets, queries, sizes, 0))
        }
    }
}

// A text read into a table of so many rows.
fn read_case(s: &[u8], room: usize, out: &mut [u8], at: usize) -> usize {
    let mut targets = cases::marked_rows();
    let mut queries = cases::marked_rows();
    let mut sizes = cases::marked_rows();
    let answer = cases_chain::read_chain(s, room, &mut targets, &mut queries, &mut sizes);
    put_read(out, at, s, answer, &targets, &queries, &sizes)
}

// A text read with room for 512 blocks; then the text checker.
pub(crate) fn chain_case(s: &[u8], out: &mut [u8], at: usize) -> usize {
    let a = read_case(s, rows::ROOM, out, at);
    put_text_check(out, a, s)
}

// A text read with room for two blocks.
pub(crate) fn narrow_case(s: &[u8], out: &mut [u8], at: usize) -> usize {
    read_case(s, 2, out, at)
}

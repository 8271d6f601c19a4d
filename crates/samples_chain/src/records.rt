// A record handed to the record checker and the writer. The line's words are score, tSize, tStart, tEnd, qSize, qStrand, qStart, qEnd, id,
// blockCount, the room of the buffer, `=` and a name twice (the target's, the query's), and the rows of the table, three numbers each.
// Only the names are escaped.
use chain::Chain;
use ledger::{Part, Refusal};

// The record of a line's words, with names of two lengths.
fn record_at(line: &[u8], target: usize, query: usize) -> Chain {
    Chain {
        score: cases::number_at(line, 0),
        tName: Part {
            start: 0,
            length: target,
        },
        tSize: cases::number_at(line, 1),
        tStart: cases::number_at(line, 2),
        tEnd: cases::number_at(line, 3),
        qName: Part {
            start: 0,
            length: query,
        },
        qSize: cases::number_at(line, 4),
        qStrand: cases::strand_at(line, 5),
        qStart: cases::number_at(line, 6),
        qEnd: cases::number_at(line, 7),
        id: cases::number_at(line, 8),
        blockCount: cases::number_at(line, 9),
    }
}

// Writes a record's text to the front of a buffer, of which so much is lent.
fn write_within(
    r: Chain,
    target: &[u8],
    query: &[u8],
    targets: &[u64],
    queries: &[u64],
    sizes: &[u64],
    buf: &mut [u8],
    room: usize,
) -> Result<usize, Refusal> {
    let m = room.min(buf.len());
    cases_chain::write_chain(r, target, query, targets, queries, sizes, &mut buf[0..m])
}

// What the writer answers.
fn put_writing(
    out: &mut [u8],
    at: usize,
    r: Chain,
    target: &[u8],
    query: &[u8],
    targets: &[u64],
    queries: &[u64],
    sizes: &[u64],
    room: usize,
) -> usize {
    let mut buf = cases::marked_bytes();
    let written = write_within(r, target, query, targets, queries, sizes, &mut buf, room);
    let a = writing::put_bytes(out, at, b" write ");
    let b = cases::put_text(out, a, &buf, written);
    cases::put_kept(out, b, cases::bytes_kept(&buf, cases::length_of(written)))
}

// The record checker, then the writer.
fn put_answers(
    out: &mut [u8],
    at: usize,
    line: &[u8],
    target: &[u8],
    query: &[u8],
    targets: &[u64],
    queries: &[u64],
    sizes: &[u64],
) -> usize {
    let r = record_at(line, target.len(), query.len());
    let a = writing::put_bytes(out, at, b"check ");
    let b = cases::put_check(out, a, cases_chain::check_chain(r, targets, queries, sizes));
    let room = cases::number_at(line, 10) as usize;
    put_writing(out, b, r, target, query, targets, queries, sizes, room)
}

// Reads a line's rows into tables.
fn rows_case(
    line: &[u8],
    target: &[u8],
    query: &[u8],
    targets: &mut [u64],
    queries: &mut [u64],
    sizes: &mut [u64],
    out: &mut [u8],
    at: usize,
) -> usize {
    let t = cases::row_numbers_at(line, 13, 0, targets);
    let q = cases::row_numbers_at(line, 13, 1, queries);
    let z = cases::row_numbers_at(line, 13, 2, sizes);
    put_answers(
        out,
        at,
        line,
        target,
        query,
        &targets[0..t],
        &queries[0..q],
        &sizes[0..z],
    )
}

fn tables_case(line: &[u8], target: &[u8], query: &[u8], out: &mut [u8], at: usize) -> usize {
    let mut targets = cases::row_numbers();
    let mut queries = cases::row_numbers();
    let mut sizes = cases::row_numbers();
    rows_case(
        line,
        target,
        query,
        &mut targets,
        &mut queries,
        &mut sizes,
        out,
        at,
    )
}

// Reads a line's names into buffers.
fn names_case(
    line: &[u8],
    target: &mut [u8],
    query: &mut [u8],
    out: &mut [u8],
    at: usize,
) -> usize {
    let t = cases::name_at(line, 11, target);
    let q = cases::name_at(line, 12, query);
    tables_case(line, &target[0..t], &query[0..q], out, at)
}

pub(crate) fn record_case(line: &[u8], out: &mut [u8], at: usize) -> usize {
    let mut target = cases::name_room();
    let mut query = cases::name_room();
    names_case(line, &mut target, &mut query, out, at)
}

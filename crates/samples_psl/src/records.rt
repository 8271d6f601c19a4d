// A record handed to the record checker and the writer. The line's words are the eight counts, the strand, qSize, qStart, qEnd, tSize,
// tStart, tEnd, blockCount, the room of the buffer, `=` and a name twice (the query's, the target's), and the rows of the table, three
// numbers each. Only the names are escaped.
use ledger::{Part, Refusal};
use psl::{Counts, Psl, Side};

fn counts_at(line: &[u8]) -> Counts {
    Counts {
        matches: cases::number_at(line, 0),
        misMatches: cases::number_at(line, 1),
        repMatches: cases::number_at(line, 2),
        nCount: cases::number_at(line, 3),
        qNumInsert: cases::number_at(line, 4),
        qBaseInsert: cases::number_at(line, 5),
        tNumInsert: cases::number_at(line, 6),
        tBaseInsert: cases::number_at(line, 7),
    }
}

// The side whose size, start and end stand in these words, with a name of so many bytes.
fn side_at(line: &[u8], size: usize, start: usize, end: usize, length: usize) -> Side {
    Side {
        name: Part { start: 0, length },
        size: cases::number_at(line, size),
        start: cases::number_at(line, start),
        end: cases::number_at(line, end),
    }
}

// The record of a line's words, with names of two lengths.
fn record_at(line: &[u8], query: usize, target: usize) -> Psl {
    let counts = counts_at(line);
    let strand = cases::strand_at(line, 8);
    let query = side_at(line, 9, 10, 11, query);
    let target = side_at(line, 12, 13, 14, target);
    Psl {
        counts,
        strand,
        query,
        target,
        blockCount: cases::number_at(line, 15),
    }
}

// Writes a record's text to the front of a buffer, of which so much is lent.
fn write_within(
    r: Psl,
    query: &[u8],
    target: &[u8],
    targets: &[u64],
    queries: &[u64],
    sizes: &[u64],
    buf: &mut [u8],
    room: usize,
) -> Result<usize, Refusal> {
    let m = room.min(buf.len());
    psl::write_psl(r, query, target, targets, queries, sizes, &mut buf[0..m])
}

// What the writer answers.
fn put_writing(
    out: &mut [u8],
    at: usize,
    r: Psl,
    query: &[u8],
    target: &[u8],
    targets: &[u64],
    queries: &[u64],
    sizes: &[u64],
    room: usize,
) -> usize {
    let mut buf = cases::marked_bytes();
    let written = write_within(r, query, target, targets, queries, sizes, &mut buf, room);
    let a = writing::put_bytes(out, at, b" write ");
    let b = cases::put_text(out, a, &buf, written);
    cases::put_kept(out, b, cases::bytes_kept(&buf, cases::length_of(written)))
}

// The record checker, then the writer.
fn put_answers(
    out: &mut [u8],
    at: usize,
    line: &[u8],
    query: &[u8],
    target: &[u8],
    targets: &[u64],
    queries: &[u64],
    sizes: &[u64],
) -> usize {
    let r = record_at(line, query.len(), target.len());
    let a = writing::put_bytes(out, at, b"check ");
    let b = cases::put_check(out, a, psl::check_psl(r, targets, queries, sizes));
    let room = cases::number_at(line, 16) as usize;
    put_writing(out, b, r, query, target, targets, queries, sizes, room)
}

// Reads a line's rows into tables.
fn rows_case(
    line: &[u8],
    query: &[u8],
    target: &[u8],
    targets: &mut [u64],
    queries: &mut [u64],
    sizes: &mut [u64],
    out: &mut [u8],
    at: usize,
) -> usize {
    let t = cases::row_numbers_at(line, 19, 0, targets);
    let q = cases::row_numbers_at(line, 19, 1, queries);
    let z = cases::row_numbers_at(line, 19, 2, sizes);
    put_answers(
        out,
        at,
        line,
        query,
        target,
        &targets[0..t],
        &queries[0..q],
        &sizes[0..z],
    )
}

fn tables_case(line: &[u8], query: &[u8], target: &[u8], out: &mut [u8], at: usize) -> usize {
    let mut targets = cases::row_numbers();
    let mut queries = cases::row_numbers();
    let mut sizes = cases::row_numbers();
    rows_case(
        line,
        query,
        target,
        &mut targets,
        &mut queries,
        &mut sizes,
        out,
        at,
    )
}

// Reads a line's names into buffers.
fn names_case(
    line: &[u8],
    query: &mut [u8],
    target: &mut [u8],
    out: &mut [u8],
    at: usize,
) -> usize {
    let q = cases::name_at(line, 17, query);
    let t = cases::name_at(line, 18, target);
    tables_case(line, &query[0..q], &target[0..t], out, at)
}

pub(crate) fn record_case(line: &[u8], out: &mut [u8], at: usize) -> usize {
    let mut query = cases::name_room();
    let mut target = cases::name_room();
    names_case(line, &mut query, &mut target, out, at)
}

// A record handed to the record checker and the writer. The line's words are the word count, chromStart, chromEnd, score, strand,
// thickStart, thickEnd, itemRgb as one number, blockCount, the room of the buffer, `=` and a name twice (chrom, name), and the rows of
// the table, three numbers each. Only the names are escaped.
use bed::Bed;
use ledger::{Part, Refusal};

// The record of a line's words, with names of two lengths.
fn record_at(line: &[u8], chrom: usize, name: usize) -> Bed {
    Bed {
        words: cases::number_at(line, 0),
        chrom: Part {
            start: 0,
            length: chrom,
        },
        chromStart: cases::number_at(line, 1),
        chromEnd: cases::number_at(line, 2),
        name: Part {
            start: 0,
            length: name,
        },
        score: cases::number_at(line, 3),
        strand: cases::strand_at(line, 4),
        thickStart: cases::number_at(line, 5),
        thickEnd: cases::number_at(line, 6),
        itemRgb: cases::number_at(line, 7),
        blockCount: cases::number_at(line, 8),
    }
}

// Writes a record's text to the front of a buffer, of which so much is lent.
fn write_within(
    r: Bed,
    chrom: &[u8],
    name: &[u8],
    targets: &[u64],
    queries: &[u64],
    sizes: &[u64],
    buf: &mut [u8],
    room: usize,
) -> Result<usize, Refusal> {
    let m = room.min(buf.len());
    bed::write_bed(r, chrom, name, targets, queries, sizes, &mut buf[0..m])
}

// What the writer answers.
fn put_writing(
    out: &mut [u8],
    at: usize,
    r: Bed,
    chrom: &[u8],
    name: &[u8],
    targets: &[u64],
    queries: &[u64],
    sizes: &[u64],
    room: usize,
) -> usize {
    let mut buf = cases::marked_bytes();
    let written = write_within(r, chrom, name, targets, queries, sizes, &mut buf, room);
    let a = writing::put_bytes(out, at, b" write ");
    let b = cases::put_text(out, a, &buf, written);
    cases::put_kept(out, b, cases::bytes_kept(&buf, cases::length_of(written)))
}

// The record checker, then the writer.
fn put_answers(
    out: &mut [u8],
    at: usize,
    line: &[u8],
    chrom: &[u8],
    name: &[u8],
    targets: &[u64],
    queries: &[u64],
    sizes: &[u64],
) -> usize {
    let r = record_at(line, chrom.len(), name.len());
    let a = writing::put_bytes(out, at, b"check ");
    let b = cases::put_check(out, a, bed::check_bed(r, targets, queries, sizes));
    let room = cases::number_at(line, 9) as usize;
    put_writing(out, b, r, chrom, name, targets, queries, sizes, room)
}

// Reads a line's rows into tables.
fn rows_case(
    line: &[u8],
    chrom: &[u8],
    name: &[u8],
    targets: &mut [u64],
    queries: &mut [u64],
    sizes: &mut [u64],
    out: &mut [u8],
    at: usize,
) -> usize {
    let t = cases::row_numbers_at(line, 12, 0, targets);
    let q = cases::row_numbers_at(line, 12, 1, queries);
    let z = cases::row_numbers_at(line, 12, 2, sizes);
    put_answers(
        out,
        at,
        line,
        chrom,
        name,
        &targets[0..t],
        &queries[0..q],
        &sizes[0..z],
    )
}

fn tables_case(line: &[u8], chrom: &[u8], name: &[u8], out: &mut [u8], at: usize) -> usize {
    let mut targets = cases::row_numbers();
    let mut queries = cases::row_numbers();
    let mut sizes = cases::row_numbers();
    rows_case(
        line,
        chrom,
        name,
        &mut targets,
        &mut queries,
        &mut sizes,
        out,
        at,
    )
}

// Reads a line's names into buffers.
fn names_case(line: &[u8], chrom: &mut [u8], name: &mut [u8], out: &mut [u8], at: usize) -> usize {
    let c = cases::name_at(line, 10, chrom);
    let n = cases::name_at(line, 11, name);
    tables_case(line, &chrom[0..c], &name[0..n], out, at)
}

pub(crate) fn record_case(line: &[u8], out: &mut [u8], at: usize) -> usize {
    let mut chrom = cases::name_room();
    let mut name = cases::name_room();
    names_case(line, &mut chrom, &mut name, out, at)
}

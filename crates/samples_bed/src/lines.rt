// A text read as a BED line.
use bed::Bed;
use ledger::Refusal;

// A record's columns up to the name; a name by its place and length.
fn put_place(out: &mut [u8], at: usize, r: Bed) -> usize {
    let a = cases::put_labelled(out, at, b"bed ", r.words);
    let b = cases::put_part(out, a, r.chrom);
    let c = cases::put_spaced(out, b, &[r.chromStart, r.chromEnd]);
    cases::put_part(out, c, r.name)
}

// A record's columns; a colour as one number.
fn put_bed(out: &mut [u8], at: usize, r: Bed) -> usize {
    let strand = r.strand;
    let a = put_place(out, at, r);
    let b = cases::put_labelled(out, a, b" ", r.score);
    let c = cases::put_strand(out, b, strand);
    cases::put_spaced(out, c, &[r.thickStart, r.thickEnd, r.itemRgb, r.blockCount])
}

// What the text checker answers.
fn put_text_check(out: &mut [u8], at: usize, s: &[u8]) -> usize {
    let a = writing::put_bytes(out, at, b" checker ");
    match bed::check_bed_text(s) {
        Ok(r) => put_bed(out, a, r),
        Err(x) => cases::put_refusal(out, a, x),
    }
}

// The standard text of a record whose names stand in a text.
fn put_standard(
    out: &mut [u8],
    at: usize,
    s: &[u8],
    r: Bed,
    targets: &[u64],
    queries: &[u64],
    sizes: &[u64],
) -> usize {
    let chrom = text::name_in(s, r.chrom);
    let name = text::name_in(s, r.name);
    let mut buf = cases::marked_bytes();
    let written = bed::write_bed(r, chrom, name, targets, queries, sizes, &mut buf);
    let a = writing::put_bytes(out, at, b" text ");
    cases::put_text(out, a, &buf, written)
}

// What the record checker answers of a record that was read.
fn put_record_check(
    out: &mut [u8],
    at: usize,
    r: Bed,
    targets: &[u64],
    queries: &[u64],
    sizes: &[u64],
) -> usize {
    let a = writing::put_bytes(out, at, b" check ");
    cases::put_check(out, a, bed::check_bed(r, targets, queries, sizes))
}

// A record's columns, and its rows; whether the rows past them were kept.
fn put_record(
    out: &mut [u8],
    at: usize,
    r: Bed,
    targets: &[u64],
    queries: &[u64],
    sizes: &[u64],
) -> usize {
    let count = r.blockCount as usize;
    let a = put_bed(out, at, r);
    let b = writing::put_bytes(out, a, b" rows");
    let c = cases::put_rows(out, b, targets, queries, sizes, count);
    cases::put_kept(out, c, cases::rows_kept(targets, queries, sizes, count))
}

// An accepted line: its record, its standard text, and what the record checker says.
fn put_accepted(
    out: &mut [u8],
    at: usize,
    s: &[u8],
    r: Bed,
    targets: &[u64],
    queries: &[u64],
    sizes: &[u64],
) -> usize {
    let a = put_record(out, at, r, targets, queries, sizes);
    let b = put_standard(out, a, s, r, targets, queries, sizes);
    put_record_check(out, b, r, targets, queries, sizes)
}

// What the reader answers of a text, and what it left in the tables.
fn put_read(
    out: &mut [u8],
    at: usize,
    s: &[u8],
    answer: Result<Bed, Refusal>,
    targets: &[u64],
    queries: &[u64],
    sizes: &[u64],
) -> usize {
    match answer {
        Ok(r) => put_accepted(out, at, s, r, targets, queries, sizes),
        Err(x) => {
            let a = cases::put_refusal(out, at, x);
            cases::put_kept(out, a, cases::rows_kept(targets, queries, sizes, 0))
        }
    }
}

// A record's blocks.
const ROWS: usize = ledger::BLOCK_LIMIT as usize;

// A text read with room for so many blocks, or for as many as the slices have.
fn read_with(
    s: &[u8],
    room: usize,
    targets: &mut [u64],
    queries: &mut [u64],
    sizes: &mut [u64],
) -> Result<Bed, Refusal> {
    let t = room.min(targets.len());
    let q = room.min(queries.len());
    let z = room.min(sizes.len());
    bed::read_bed(s, &mut targets[..t], &mut queries[..q], &mut sizes[..z])
}

// The same of marked slices.
fn read_case(s: &[u8], room: usize, out: &mut [u8], at: usize) -> usize {
    let mut targets = cases::marked_rows();
    let mut queries = cases::marked_rows();
    let mut sizes = cases::marked_rows();
    let answer = read_with(s, room, &mut targets, &mut queries, &mut sizes);
    put_read(out, at, s, answer, &targets, &queries, &sizes)
}

// A text read with room for 512 blocks; then the text checker.
pub(crate) fn line_case(s: &[u8], out: &mut [u8], at: usize) -> usize {
    let a = read_case(s, ROWS, out, at);
    put_text_check(out, a, s)
}

// A text read with room for one block.
pub(crate) fn narrow_case(s: &[u8], out: &mut [u8], at: usize) -> usize {
    read_case(s, 1, out, at)
}

// The questions about a chain handed in, and their answers as bytes.
use crate::{batches, drifts, tallies};
use chain::Chain;
use ledger::{Part, Refusal};
use region::Region;

fn put_position(out: &mut [u8], at: usize, answer: Result<(u64, i64), Refusal>) -> usize {
    match answer {
        Ok((partner, drift)) => {
            let a = cases::put_labelled(out, at, b"lifted ", partner);
            drifts::put_drift(out, a, drift)
        }
        Err(x) => cases::put_refusal(out, at, x),
    }
}

fn put_region(out: &mut [u8], at: usize, answer: Result<Region, Refusal>) -> usize {
    match answer {
        Ok(r) => {
            let a = cases::put_labelled(out, at, b"kept ", r.kept);
            let b = cases::put_labelled(out, a, b" dropped ", r.dropped);
            let c = writing::put_bytes(out, b, b" query");
            cases::put_spaced(out, c, &[r.start, r.end])
        }
        Err(x) => cases::put_refusal(out, at, x),
    }
}

// A region with a tally: its answer, and the tally that it leaves.
fn tally_case(
    start: u64,
    end: u64,
    c: Chain,
    targets: &[u64],
    queries: &[u64],
    sizes: &[u64],
    tally: &mut [u64],
    out: &mut [u8],
    at: usize,
) -> usize {
    let before = tallies::tally_in(tally);
    let done = cases_chain::tally_region(before, c, targets, queries, sizes, start, end);
    let answer = done.answer;
    let after = done.tally;
    tallies::keep_tally(tally, after.asked, after.kept, after.dropped);
    let a = put_region(out, at, answer);
    tallies::put_tally(out, a, after)
}

// The same with a tally that the case hands in.
fn new_tally_case(
    line: &[u8],
    c: Chain,
    targets: &[u64],
    queries: &[u64],
    sizes: &[u64],
    tally: &mut [u64],
    out: &mut [u8],
    at: usize,
) -> usize {
    let asked = cases::number_at(line, 0);
    let kept = cases::number_at(line, 1);
    tallies::keep_tally(tally, asked, kept, cases::number_at(line, 2));
    let start = cases::number_at(line, 3);
    let end = cases::number_at(line, 4);
    tally_case(start, end, c, targets, queries, sizes, tally, out, at)
}

// One side of a record: its name by place and length, its size and its span.
fn put_side(out: &mut [u8], at: usize, name: Part, size: u64, start: u64, end: u64) -> usize {
    let a = cases::put_part(out, at, name);
    cases::put_spaced(out, a, &[size, start, end])
}

fn put_record(out: &mut [u8], at: usize, d: Chain) -> usize {
    let tName = d.tName;
    let qName = d.qName;
    let strand = d.qStrand;
    let a = cases::put_labelled(out, at, b"turned ", d.score);
    let b = put_side(out, a, tName, d.tSize, d.tStart, d.tEnd);
    let c = put_side(out, b, qName, d.qSize, d.qStart, d.qEnd);
    let e = cases::put_strand(out, c, strand);
    cases::put_spaced(out, e, &[d.id, d.blockCount])
}

// The standard text of a turned chain, and what the record checker says.
fn put_standard(
    out: &mut [u8],
    at: usize,
    d: Chain,
    page: &[u8],
    targets: &[u64],
    queries: &[u64],
    sizes: &[u64],
) -> usize {
    let t = text::name_in(page, d.tName);
    let q = text::name_in(page, d.qName);
    let mut buf = cases::marked_bytes();
    let written = cases_chain::write_chain(d, t, q, targets, queries, sizes, &mut buf);
    let a = writing::put_bytes(out, at, b" text ");
    let b = cases::put_text(out, a, &buf, written);
    let c = writing::put_bytes(out, b, b" check ");
    cases::put_check(out, c, cases_chain::check_chain(d, targets, queries, sizes))
}

// What a turn answers, and what it left in the tables.
fn put_turn(
    out: &mut [u8],
    at: usize,
    answer: Result<Chain, Refusal>,
    page: &[u8],
    targets: &[u64],
    queries: &[u64],
    sizes: &[u64],
) -> usize {
    match answer {
        Ok(d) => {
            let count = d.blockCount as usize;
            let a = put_record(out, at, d);
            let b = writing::put_bytes(out, a, b" rows");
            let c = cases::put_rows(out, b, targets, queries, sizes, count);
            let e = cases::put_kept(out, c, cases::rows_kept(targets, queries, sizes, count));
            put_standard(out, e, d, page, targets, queries, sizes)
        }
        Err(x) => {
            let a = cases::put_refusal(out, at, x);
            cases::put_kept(out, a, cases::rows_kept(targets, queries, sizes, 0))
        }
    }
}

// A turn into a table of so many rows.
fn turn_case(
    line: &[u8],
    c: Chain,
    page: &[u8],
    targets: &[u64],
    queries: &[u64],
    sizes: &[u64],
    out: &mut [u8],
    at: usize,
) -> usize {
    let room = cases::number_at(line, 0) as usize;
    let mut t = cases::marked_rows();
    let mut q = cases::marked_rows();
    let mut z = cases::marked_rows();
    let answer = cases_chain::turn_chain(c, targets, queries, sizes, room, &mut t, &mut q, &mut z);
    put_turn(out, at, answer, page, &t, &q, &z)
}

// The answer to a case's question about a chain.
pub(crate) fn answer(
    letter: u8,
    line: &[u8],
    c: Chain,
    page: &[u8],
    targets: &[u64],
    queries: &[u64],
    sizes: &[u64],
    tally: &mut [u64],
    out: &mut [u8],
    at: usize,
) -> usize {
    let first = cases::number_at(line, 0);
    let second = cases::number_at(line, 1);
    match letter {
        b'p' => put_position(
            out,
            at,
            cases_chain::lift_position(c, targets, queries, sizes, first),
        ),
        b'g' => put_region(
            out,
            at,
            cases_chain::lift_region(c, targets, queries, sizes, first, second),
        ),
        b'u' => turn_case(line, c, page, targets, queries, sizes, out, at),
        b'm' => tally_case(first, second, c, targets, queries, sizes, tally, out, at),
        b'R' => batches::batch_case(line, c, targets, queries, sizes, tally, out, at),
        _ => new_tally_case(line, c, targets, queries, sizes, tally, out, at),
    }
}

// A span converted to the other strand.
pub(crate) fn convert_case(line: &[u8], out: &mut [u8], at: usize) -> usize {
    let start = cases::number_at(line, 0);
    let end = cases::number_at(line, 1);
    match lift::convert(start, end, cases::number_at(line, 2)) {
        Ok(span) => {
            let a = writing::put_bytes(out, at, b"span");
            cases::put_spaced(out, a, &[span.start, span.end])
        }
        Err(x) => cases::put_refusal(out, at, x),
    }
}

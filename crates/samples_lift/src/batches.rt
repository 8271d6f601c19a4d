// A batch of regions, with the tally as the last case left it. Its question is how many rows are lent for the answers, how many regions
// there are, and the start and end of each.
ghost use Rattle.std.specs.Prelude.{◌≤◌};

use crate::tallies;
use chain::Chain;
use ledger::Refusal;

// A case has at most so many regions and rows for their answers.
const MOST_REGIONS: usize = 16;

const MOST_ANSWERS: usize = 20;

const MARK: u64 = 7;

fn region_count(line: &[u8]) -> usize
    ensures { result ≤ 16 }
{
    (cases::number_at(line, 1) as usize).min(MOST_REGIONS)
}

fn answer_room(line: &[u8]) -> usize
    ensures { result ≤ 20 }
{
    (cases::number_at(line, 0) as usize).min(MOST_ANSWERS)
}

// How many words the question has.
pub(crate) fn question_words(line: &[u8]) -> usize {
    2 + 2 * region_count(line)
}

// The regions of a question; those past its own are never lent.
fn regions_of(line: &[u8]) -> [[u64; 2]; MOST_REGIONS] {
    let none = [0u64; 2];
    let mut regions = [none; MOST_REGIONS];
    for i in 0..MOST_REGIONS {
        let start = cases::number_at(line, 2 + 2 * i);
        let end = cases::number_at(line, 3 + 2 * i);
        regions[i] = [start, end];
    }
    regions
}

// Rows for the answers, with a mark in every place.
fn marked_answers() -> [[u64; 5]; MOST_ANSWERS] {
    let mark = [MARK; 5];
    [mark; MOST_ANSWERS]
}

fn row_kept(row: [u64; 5]) -> bool {
    (row[0] == MARK) & (row[1] == MARK) & (row[2] == MARK) & (row[3] == MARK) & (row[4] == MARK)
}

// Whether rows are as they were before the call.
fn answers_kept(answers: &[[u64; 5]]) -> bool {
    answers.iter().all(|row| row_kept(*row))
}

// How many rows a batch of so many regions fills.
fn answered(check: Result<(), Refusal>, count: usize) -> usize
    ensures { result ≤ count }
{
    match check {
        Ok(()) => count,
        Err(_) => 0,
    }
}

// A row of five numbers.
fn put_row(out: &mut [u8], at: usize, row: [u64; 5]) -> usize {
    let a = writing::put_bytes(out, at, b" |");
    cases::put_spaced(out, a, &[row[0], row[1], row[2], row[3], row[4]])
}

fn put_answers(out: &mut [u8], at: usize, answers: &[[u64; 5]]) -> usize {
    let mut p = at;
    for row in answers {
        p = put_row(out, p, *row);
    }
    p
}

// The row of each region, or the refusal; and whether the other rows are as they were.
fn put_batch(
    out: &mut [u8],
    at: usize,
    check: Result<(), Refusal>,
    count: usize,
    answers: &[[u64; 5]],
) -> usize {
    let n = answered(check, count.min(answers.len()));
    let a = cases::put_check(out, at, check);
    let b = put_answers(out, a, &answers[..n]);
    cases::put_kept(out, b, answers_kept(&answers[n..]))
}

// A batch and what it answers, and the tally that it leaves.
fn send_batch(
    c: Chain,
    targets: &[u64],
    queries: &[u64],
    sizes: &[u64],
    regions: &[[u64; 2]],
    answers: &mut [[u64; 5]],
    tally: &mut [u64],
    out: &mut [u8],
    at: usize,
) -> usize {
    let before = tallies::tally_in(tally);
    let done = cases_chain::lift_batch(before, c, targets, queries, sizes, regions, answers);
    let check = done.check;
    let after = done.tally;
    tallies::keep_tally(tally, after.asked, after.kept, after.dropped);
    let a = put_batch(out, at, check, regions.len(), answers);
    tallies::put_tally(out, a, after)
}

pub(crate) fn batch_case(
    line: &[u8],
    c: Chain,
    targets: &[u64],
    queries: &[u64],
    sizes: &[u64],
    tally: &mut [u64],
    out: &mut [u8],
    at: usize,
) -> usize {
    let count = region_count(line);
    let room = answer_room(line);
    let regions = regions_of(line);
    let mut answers = marked_answers();
    send_batch(
        c,
        targets,
        queries,
        sizes,
        &regions[..count],
        &mut answers[..room],
        tally,
        out,
        at,
    )
}

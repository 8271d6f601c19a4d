// The samples of lifts, turns, tallies, batches and conversions: one case a line on standard input, one answer a line on standard output.
// Every answer comes from the library. A case is its letter, its question, and the chain it is asked of (chains):
// `p` a position; `g` a region's start and end; `u` how many rows are lent for the turned chain; `a` a tally's three numbers, then a
// region's start and end; `m` a region's start and end, with the tally as the last case left it; `R` a batch of regions with that tally
// (batches). `v` has no chain: it is a span's start and end, to be converted, and the sequence's size.
#![tactic(auto)]

mod answers;
mod batches;
mod chains;
mod drifts;
mod tallies;

use chain::Chain;
use ledger::Refusal;
use std::io;
use std::io::Write;

// How many words a case's question has.
fn question_words(letter: u8, line: &[u8]) -> usize {
    match letter {
        b'p' | b'u' => 1,
        b'g' | b'm' => 2,
        b'a' => 5,
        b'R' => batches::question_words(line),
        _ => 0,
    }
}

// The answer to a question about a chain handed in, of whose tables so many rows are lent.
fn ask(
    letter: u8,
    line: &[u8],
    given: Result<(Chain, usize), Refusal>,
    page: &[u8],
    targets: &[u64],
    queries: &[u64],
    sizes: &[u64],
    tally: &mut [u64],
    out: &mut [u8],
    at: usize,
) -> usize {
    match given {
        Err(x) => {
            let a = writing::put_bytes(out, at, b"text ");
            cases::put_refusal(out, a, x)
        }
        Ok((c, rows)) => {
            let t = rows.min(targets.len());
            let q = rows.min(queries.len());
            let z = rows.min(sizes.len());
            answers::answer(
                letter,
                line,
                c,
                page,
                &targets[0..t],
                &queries[0..q],
                &sizes[0..z],
                tally,
                out,
                at,
            )
        }
    }
}

// A case whose question is about a chain.
fn chain_case(letter: u8, line: &[u8], tally: &mut [u64], out: &mut [u8], at: usize) -> usize {
    let mut page = cases::page();
    let mut targets = cases::row_numbers();
    let mut queries = cases::row_numbers();
    let mut sizes = cases::row_numbers();
    let given = chains::chain_at(
        line,
        question_words(letter, line),
        &mut page,
        &mut targets,
        &mut queries,
        &mut sizes,
    );
    ask(
        letter, line, given, &page, &targets, &queries, &sizes, tally, out, at,
    )
}

fn answer_case(letter: u8, line: &[u8], tally: &mut [u64], out: &mut [u8], at: usize) -> usize {
    match letter {
        b'v' => answers::convert_case(line, out, at),
        b'p' | b'g' | b'u' | b'a' | b'm' | b'R' => chain_case(letter, line, tally, out, at),
        _ => writing::put_bytes(out, at, b"unknown case"),
    }
}

// The answer to one line of the input: its letter again, a space, the answer and a line feed.
fn answer_line(line: &[u8], tally: &mut [u64], out: &mut [u8], at: usize) -> usize {
    if !cases::is_case(line) {
        return at;
    }
    let start = cases::payload_start(line);
    let a = writing::put_byte(out, at, cases::byte_at(line, 0));
    let b = writing::put_byte(out, a, b' ');
    let c = answer_case(cases::letter_of(line), &line[start..], tally, out, b);
    writing::put_byte(out, c, b'\n')
}

fn answer_lines(input: &[u8], tally: &mut [u64], out: &mut [u8]) -> usize {
    let mut p = 0;
    let mut line = 0;
    while line < input.len() {
        let e = text::line_end(input, line);
        p = answer_line(&input[line..e], tally, out, p);
        line = text::next_line(input, line);
    }
    p
}

fn main(rt: HostRuntime) -> io::Result<()> {
    let mut input = cases::page();
    let n = cases::read_full(&mut rt.stdin(), &mut input)?;
    let mut out = cases::page();
    let mut tally = [0u64; 3];
    let m = answer_lines(&input[..n], &mut tally, &mut out).min(out.len());
    rt.stdout().write_all(&out[0..m])
}

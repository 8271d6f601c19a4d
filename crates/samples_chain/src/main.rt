// The samples of chains: one case a line on standard input, one answer a line on standard output. Every answer comes from the library.
// Case `H` is a text, read with room for 512 blocks; `I` a text, read with room for two; `Y` a record with its names and rows.
#![tactic(auto)]

mod chains;
mod records;

use std::io;
use std::io::Write;

// The answer of a case by its letter, from its payload as it stands and unescaped.
fn answer(letter: u8, escaped: &[u8], payload: &[u8], out: &mut [u8], at: usize) -> usize {
    match letter {
        b'H' => chains::chain_case(payload, out, at),
        b'I' => chains::narrow_case(payload, out, at),
        b'Y' => records::record_case(escaped, out, at),
        _ => writing::put_bytes(out, at, b"unknown case"),
    }
}

fn answer_case(line: &[u8], out: &mut [u8], at: usize) -> usize {
    let start = cases::payload_start(line);
    let mut space = cases::page();
    let n = cases::unescape(&line[start..], &mut space);
    answer(
        cases::letter_of(line),
        &line[start..],
        &space[0..n],
        out,
        at,
    )
}

// The answer to one line of the input: its letter again, a space, the answer and a line feed.
fn answer_line(line: &[u8], out: &mut [u8], at: usize) -> usize {
    if !cases::is_case(line) {
        return at;
    }
    let a = writing::put_byte(out, at, cases::byte_at(line, 0));
    let b = writing::put_byte(out, a, b' ');
    let c = answer_case(line, out, b);
    writing::put_byte(out, c, b'\n')
}

fn answer_lines(input: &[u8], out: &mut [u8]) -> usize {
    let mut p = 0;
    let mut line = 0;
    while line < input.len() {
        let e = text::line_end(input, line);
        p = answer_line(&input[line..e], out, p);
        line = text::next_line(input, line);
    }
    p
}

fn main(rt: HostRuntime) -> io::Result<()> {
    let mut input = cases::page();
    let n = cases::read_full(&mut rt.stdin(), &mut input)?;
    let mut out = cases::page();
    let m = answer_lines(&input[..n], &mut out).min(out.len());
    rt.stdout().write_all(&out[0..m])
}

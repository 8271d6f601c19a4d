// The samples program: one case a line on standard input, one answer a line on standard output. A case is its letter, a space and an
// escaped payload; empty lines and lines that begin with `#` have no answer. Every answer comes from the libraries. Here are the cases of
// texts, words, lists, numbers and columns; each format has a program of its own.
#![tactic(auto)]

ghost use Rattle.std.specs.Prelude.{◌≡◌, length, ◌*◌};
ghost use Rattle.ledger.specs.Limits.{block_limit};

use kinds::{Fixed, Kind, Range};
use ledger::{Fault, Position, Refusal};
use std::io;
use std::io::Write;

// The columns of a BED line, a PSL line and a chain's header, by their kinds.
const BED: [Kind; 12] = [
    Kind::Name,
    Kind::Number(Range::Coordinate),
    Kind::Number(Range::Coordinate),
    Kind::Name,
    Kind::Number(Range::BedScore),
    Kind::Stranded(true),
    Kind::Number(Range::Coordinate),
    Kind::Number(Range::Coordinate),
    Kind::Colour,
    Kind::Count,
    Kind::Items(Range::Size),
    Kind::Items(Range::Coordinate),
];

const PSL: [Kind; 21] = [
    Kind::Number(Range::Coordinate),
    Kind::Number(Range::Coordinate),
    Kind::Number(Range::Coordinate),
    Kind::Number(Range::Coordinate),
    Kind::Number(Range::Coordinate),
    Kind::Number(Range::Coordinate),
    Kind::Number(Range::Coordinate),
    Kind::Number(Range::Coordinate),
    Kind::Stranded(false),
    Kind::Name,
    Kind::Number(Range::Size),
    Kind::Number(Range::Coordinate),
    Kind::Number(Range::Coordinate),
    Kind::Name,
    Kind::Number(Range::Size),
    Kind::Number(Range::Coordinate),
    Kind::Number(Range::Coordinate),
    Kind::Count,
    Kind::Items(Range::Size),
    Kind::Items(Range::Coordinate),
    Kind::Items(Range::Coordinate),
];

const CHAIN: [Kind; 13] = [
    Kind::Word(Fixed::Chain),
    Kind::Number(Range::ChainScore),
    Kind::Name,
    Kind::Number(Range::Size),
    Kind::Word(Fixed::Plus),
    Kind::Number(Range::Coordinate),
    Kind::Number(Range::Coordinate),
    Kind::Name,
    Kind::Number(Range::Size),
    Kind::Stranded(false),
    Kind::Number(Range::Coordinate),
    Kind::Number(Range::Coordinate),
    Kind::Number(Range::ChainId),
];

// Room for the values of a line's columns, two numbers each, and for three lists of blocks. The contracts tell only the lengths.
const VALUES: usize = 64;

fn value_table() -> [u64; VALUES]
    ensures { 64 ≡ length result }
{
    [0; VALUES]
}

fn list_table() -> [u64; blocks::ROOM]
    ensures { 3 * block_limit ≡ length result }
{
    [0; blocks::ROOM]
}

// What was written to the front of a buffer.
fn put_written(out: &mut [u8], at: usize, buf: &[u8], written: Result<usize, Refusal>) -> usize {
    match written {
        Err(x) => cases::put_refusal(out, at, x),
        Ok(n) => {
            let m = n.min(buf.len());
            writing::put_bytes(out, at, &buf[0..m])
        }
    }
}

// A fault at its place in a text or a word.
fn put_fault(out: &mut [u8], at: usize, x: Fault) -> usize {
    cases::put_refusal(out, at, Refusal::from(x))
}

// Case `t`: the checks of a text.
fn text_case(s: &[u8], out: &mut [u8], at: usize) -> usize {
    match text::check_text(s) {
        Ok(()) => writing::put_bytes(out, at, b"fine"),
        Err(x) => put_fault(out, at, x),
    }
}

// Where a line or a word stands.
fn put_extent(out: &mut [u8], at: usize, start: usize, end: usize) -> usize {
    let a = writing::put_number(out, at, start as u64);
    let b = writing::put_byte(out, a, b'-');
    writing::put_number(out, b, end as u64)
}

fn put_word_place(out: &mut [u8], at: usize, start: usize, end: usize) -> usize {
    let a = writing::put_byte(out, at, b' ');
    put_extent(out, a, start, end)
}

// The words of one line.
fn put_words(out: &mut [u8], at: usize, s: &[u8], line: usize) -> usize {
    let mut p = at;
    let mut w = text::next_word(s, line);
    while w.start < w.end {
        p = put_word_place(out, p, w.start, w.end);
        w = text::next_word(s, w.end);
    }
    p
}

// What stands before a line: nothing before the first.
fn put_bar(out: &mut [u8], at: usize, line: usize) -> usize {
    if line == 0 {
        return at;
    }
    writing::put_bytes(out, at, b" | ")
}

// Where a line stands, and its words.
fn put_line_place(out: &mut [u8], at: usize, s: &[u8], line: usize) -> usize {
    let a = put_bar(out, at, line);
    let b = put_extent(out, a, line, text::line_end(s, line));
    let c = writing::put_byte(out, b, b':');
    put_words(out, c, s, line)
}

// Case `l`: where the lines of a text stand, and their words.
fn lines_case(s: &[u8], out: &mut [u8], at: usize) -> usize {
    if s.len() == 0 {
        return writing::put_bytes(out, at, b"none");
    }
    let mut p = at;
    let mut line = 0;
    while line < s.len() {
        p = put_line_place(out, p, s, line);
        line = text::next_line(s, line);
    }
    p
}

// The kind of word that a case reads, by its letter.
fn kind_of(letter: u8) -> Option<Kind> {
    match letter {
        b'n' => Some(Kind::Name),
        b'c' => Some(Kind::Number(Range::Coordinate)),
        b'z' => Some(Kind::Number(Range::Size)),
        b'e' => Some(Kind::Number(Range::BedScore)),
        b's' => Some(Kind::Number(Range::ChainScore)),
        b'i' => Some(Kind::Number(Range::ChainId)),
        b'b' => Some(Kind::Count),
        b'+' => Some(Kind::Stranded(false)),
        b'.' => Some(Kind::Stranded(true)),
        b'k' => Some(Kind::Word(Fixed::Chain)),
        b'r' => Some(Kind::Colour),
        _ => None,
    }
}

fn put_strand(out: &mut [u8], at: usize, v: u64) -> usize {
    let a = writing::put_bytes(out, at, b"strand ");
    writing::put_byte(out, a, (v % 256) as u8)
}

fn put_colour(out: &mut [u8], at: usize, v: u64) -> usize {
    let a = cases::put_labelled(out, at, b"colour ", v / 256 / 256);
    let b = cases::put_labelled(out, a, b" ", v / 256 % 256);
    cases::put_labelled(out, b, b" ", v % 256)
}

// What a word means, by its case.
fn put_meaning(out: &mut [u8], at: usize, letter: u8, v: u64) -> usize {
    match letter {
        b'n' => cases::put_labelled(out, at, b"name ", v),
        b'+' => put_strand(out, at, v),
        b'.' => put_strand(out, at, v),
        b'k' => writing::put_bytes(out, at, b"chain"),
        b'r' => put_colour(out, at, v),
        _ => cases::put_labelled(out, at, b"value ", v),
    }
}

// The cases of one word: its kind, and what it means.
fn word_case(letter: u8, word: &[u8], out: &mut [u8], at: usize) -> usize {
    let Some(kind) = kind_of(letter) else {
        return writing::put_bytes(out, at, b"unknown case");
    };
    let mut none = [0u64; 0];
    match kinds::spell(kind, 0, word, 0, &mut none) {
        Ok(v) => put_meaning(out, at, letter, v),
        Err(x) => put_fault(out, at, x),
    }
}

// The number of items that a list's case asks for: two, or as many as there are.
fn items_wanted(letter: u8, word: &[u8], low: u64) -> u64 {
    if letter == b'2' {
        return 2;
    }
    let mut none = [0u64; 0];
    numbers::store_items(word, low, Position::LARGEST, &mut none).unwrap_or(0)
}

fn put_items(out: &mut [u8], at: usize, vs: &[u64], n: u64) -> usize {
    let a = cases::put_labelled(out, at, b"count ", n);
    let b = writing::put_byte(out, a, b':');
    let m = (n as usize).min(vs.len());
    cases::put_spaced(out, b, &vs[0..m])
}

// Cases `L`, `Z` and `2`: a comma list of coordinates, of sizes, of two coordinates.
fn list_case(letter: u8, word: &[u8], out: &mut [u8], at: usize) -> usize {
    let low = if letter == b'Z' { 1 } else { 0 };
    let wanted = items_wanted(letter, word, low);
    let mut items = list_table();
    match numbers::read_list(word, low, Position::LARGEST, true, wanted, &mut items) {
        Ok(n) => put_items(out, at, &items, n),
        Err(x) => put_fault(out, at, x),
    }
}

fn put_digits(out: &mut [u8], at: usize, v: u64) -> usize {
    let mut space = [0u8; 32];
    let a = writing::put_bytes(out, at, b"digits ");
    let written = writing::write_number(&mut space, v);
    put_written(out, a, &space, written)
}

fn put_one_item(out: &mut [u8], at: usize, v: u64) -> usize {
    let mut space = [0u8; 32];
    let a = writing::put_bytes(out, at, b" list ");
    let written = writing::write_list(&mut space, &[v]);
    put_written(out, a, &space, written)
}

// Case `d`: a number of the machine, written alone and as a list of one item.
fn digits_case(word: &[u8], out: &mut [u8], at: usize) -> usize {
    match numbers::read_number(word, 0, ledger::LARGEST_NUMBER) {
        Err(_) => writing::put_bytes(out, at, b"no number"),
        Ok(v) => {
            let a = put_digits(out, at, v);
            put_one_item(out, a, v)
        }
    }
}

// Case `U`: a number of the machine.
fn number_case(word: &[u8], out: &mut [u8], at: usize) -> usize {
    match numbers::read_number(word, 0, ledger::LARGEST_NUMBER) {
        Ok(v) => cases::put_labelled(out, at, b"value ", v),
        Err(x) => put_fault(out, at, x),
    }
}

// Room for the numbers of a text.
const LISTED: usize = 32;

fn listed_room() -> [u8; 8 * LISTED]
    ensures { 256 ≡ length result }
{
    [0; 8 * LISTED]
}

// The first numbers of a buffer, 8 bytes each.
fn put_listed(out: &mut [u8], at: usize, bytes: &[u8], n: usize) -> usize {
    let m = n.min(LISTED);
    let a = cases::put_labelled(out, at, b"count ", n as u64);
    let mut p = writing::put_byte(out, a, b':');
    for i in 0..m {
        p = cases::put_labelled(out, p, b" ", binary::word_at(bytes, binary::WORD_SIZE * i));
    }
    p
}

// Case `N`: the numbers of a text of one line.
fn numbers_case(s: &[u8], out: &mut [u8], at: usize) -> usize {
    let mut bytes = listed_room();
    match number_line::read_numbers(s, &mut bytes) {
        Err(x) => cases::put_refusal(out, at, x),
        Ok(n) => put_listed(out, at, &bytes, n),
    }
}

// The first line of a buffer, without its line feed.
fn put_first_line(out: &mut [u8], at: usize, buf: &[u8], n: usize) -> usize {
    let m = n.min(buf.len());
    let e = text::line_end(&buf[0..m], 0);
    cases::put_shown(out, at, &buf[0..e])
}

// Room for a line.
fn line_room() -> [u8; 65536]
    ensures { 65536 ≡ length result }
{
    [0; 65536]
}

// The standard line of what was read.
fn put_standard(
    out: &mut [u8],
    at: usize,
    table: &[Kind],
    sep: u8,
    line: &[u8],
    values: &[u64],
    lists: &[u64],
) -> usize {
    let mut space = line_room();
    match columns::write_line(&mut space, table, sep, line, values, lists) {
        Err(x) => cases::put_refusal(out, at, x),
        Ok(n) => put_first_line(out, at, &space, n),
    }
}

// Cases `B`, `P` and `C`: a line read by its table of columns and written back.
fn columns_case(line: &[u8], table: &[Kind], sep: u8, out: &mut [u8], at: usize) -> usize {
    let mut values = value_table();
    let mut lists = list_table();
    match columns::read_columns(line, 0, table, &mut values, &mut lists) {
        Err(x) => put_fault(out, at, x),
        Ok(_) => put_standard(out, at, table, sep, line, &values, &lists),
    }
}

// The answer of a case, by its letter.
fn answer(letter: u8, payload: &[u8], out: &mut [u8], at: usize) -> usize {
    match letter {
        b't' => text_case(payload, out, at),
        b'l' => lines_case(payload, out, at),
        b'L' => list_case(letter, payload, out, at),
        b'Z' => list_case(letter, payload, out, at),
        b'2' => list_case(letter, payload, out, at),
        b'd' => digits_case(payload, out, at),
        b'U' => number_case(payload, out, at),
        b'N' => numbers_case(payload, out, at),
        b'B' => columns_case(payload, &BED, b'\t', out, at),
        b'P' => columns_case(payload, &PSL, b'\t', out, at),
        b'C' => columns_case(payload, &CHAIN, b' ', out, at),
        _ => word_case(letter, payload, out, at),
    }
}

fn answer_case(line: &[u8], out: &mut [u8], at: usize) -> usize {
    let start = cases::payload_start(line);
    let mut space = cases::page();
    let n = cases::unescape(&line[start..], &mut space);
    answer(cases::letter_of(line), &space[0..n], out, at)
}

// The answer to one line of the input: its letter again, a space, the answer and a line feed.
fn answer_line(line: &[u8], out: &mut [u8], at: usize) -> usize {
    if !cases::is_case(line) {
        return at;
    }
    let a = writing::put_byte(out, at, cases::byte_at(line, 0));
    let b = writing::put_byte(out, a, b' ');
    let c = answer_case(line, out, b);
    writing::put_byte(out, c, b'\n')
}

fn answer_lines(input: &[u8], out: &mut [u8]) -> usize {
    let mut p = 0;
    let mut line = 0;
    while line < input.len() {
        let e = text::line_end(input, line);
        p = answer_line(&input[line..e], out, p);
        line = text::next_line(input, line);
    }
    p
}

fn main(rt: HostRuntime) -> io::Result<()> {
    let mut input = cases::page();
    let n = cases::read_full(&mut rt.stdin(), &mut input)?;
    let mut out = cases::page();
    let m = answer_lines(&input[..n], &mut out).min(out.len());
    rt.stdout().write_all(&out[0..m])
}

// A text of one line of numbers, any number of words: for lists of positions (docs/DESK.md, `tenderchock_numbers`).
#![tactic(auto)]

ghost use Rattle.std.specs.Prelude.{◌≡◌, ◌*◌, leb, length};
ghost use Rattle.binary.specs.Bytes.{word_size};
ghost use Rattle.number_line.specs.Numbers.{numbers_stages, numbers_check, NumbersStored};
ghost use Rattle.number_line.specs.Walks.{Walked, line_check, feedless, is_gap, QuickRead, QuickText, Handed, NumbersHeld};

use ledger::{Fault, Reason, Refusal};
use text::Class;

// The greatest number, and how many digits it has.
const LARGEST: u64 = 999999999999999999;

const DIGITS: usize = 18;

// The words from the left, each a number; the good ones are stored, 8 bytes each, as far as the bytes reach.
fn walk_numbers(text: &[u8], out: &mut [u8]) -> Result<usize, Fault>
    ensures { Walked text.now out.old out.new result }
{
    let mut w = text::next_word(text, 0);
    let mut n = 0;
    let mut p = 0;
    while w.start < w.end {
        let a = w.start;
        let e = w.end;
        match numbers::read_number(&text[a..e], 0, LARGEST) {
            Ok(v) => {
                p = binary::put_low(out, p, v, binary::WORD_SIZE);
            }
            Err(bad) => {
                return Err(Fault {
                    reason: bad.reason,
                    place: a,
                });
            }
        }
        w = text::next_word(text, e);
        n += 1;
    }
    Ok(n)
}

// The words, then a surplus line.
fn check_line(text: &[u8]) -> Result<usize, Fault>
    ensures { result ≡ line_check text.now }
{
    let mut none = [0u8; 0];
    let n = walk_numbers(text, &mut none)?;
    text::check_last_line(text, 0)?;
    Ok(n)
}

// The length and the bytes, then the line.
fn stage(text: &[u8]) -> Result<usize, Fault>
    ensures { result ≡ numbers_stages text.now }
{
    text::check_text(text)?;
    check_line(text)
}

// How many numbers a text has, or its first refusal: 1, 3, the words from the left (4, 5), a surplus line (2).
pub fn check_numbers(text: &[u8]) -> Result<usize, Refusal>
    ensures { result ≡ numbers_check text.now }
{
    Ok(stage(text)?)
}

fn numbers_fit(n: usize, room: usize) -> bool
    ensures { result ≡ leb (word_size * n) room }
{
    n <= room / binary::WORD_SIZE
}

// All is tested in a first walk, so that a refusal leaves the lent bytes as they were.
fn read_tested(text: &[u8], out: &mut [u8]) -> Result<usize, Fault>
    ensures { NumbersHeld text.now out.old out.new result }
{
    let n = stage(text)?;
    if numbers_fit(n, out.len()) {
        return walk_numbers(text, out);
    }
    Err(Fault {
        reason: Reason::NoRoom,
        place: text.len(),
    })
}

// Whether a word ends at a place: by a blank, or with the line.
fn is_gap(line: &[u8], i: usize) -> bool
    ensures { result ≡ is_gap line.now i }
{
    if line.len() <= i {
        return true;
    }
    text::is_in(Class::Blank, line[i])
}

// The quick way: numbers parted by single blanks, in one pass; how many there are. Where it answers `None`, the line has to be
// read with more care. The room is tested before a number is read: the test costs less there than after that of the gap.
fn quick_line(line: &[u8], room: &mut [u64]) -> Option<usize>
    ensures { QuickRead line.now room.new result }
{
    let mut at = 0;
    let mut n = 0;
    while at < line.len() {
        if room.len() <= n {
            return None;
        }
        let d = numbers::digits_at(line, at, DIGITS);
        let end = d.end;
        if !numbers::leads(end - at, line[at]) {
            return None;
        }
        if !is_gap(line, end) {
            return None;
        }
        room[n] = d.value;
        n += 1;
        at = end + 1;
    }
    Some(n)
}

// The length of a text without a line feed at its end.
fn feedless_length(text: &[u8]) -> usize
    ensures { result ≡ feedless text.now }
{
    let n = text.len();
    if n == 0 {
        return 0;
    }
    if text[n - 1] == b'\n' { n - 1 } else { n }
}

fn quick_text(text: &[u8], room: &mut [u64]) -> Option<usize>
    ensures { QuickText text.now room.new result }
{
    if ledger::TEXT_LIMIT < text.len() {
        return None;
    }
    let n = feedless_length(text);
    quick_line(&text[..n], room)
}

// Stores numbers, or 11 at the text's end.
fn hand_over(end: usize, vs: &[u64], out: &mut [u8]) -> Result<usize, Fault>
    ensures { Handed end vs.now out.old out.new result }
{
    if numbers_fit(vs.len(), out.len()) {
        binary::put_words(out, 0, vs);
        return Ok(vs.len());
    }
    Err(Fault {
        reason: Reason::NoRoom,
        place: end,
    })
}

// The numbers of a text by way of working room: the quick way if they fit there, else with more care.
fn read_by(text: &[u8], room: &mut [u64], out: &mut [u8]) -> Result<usize, Fault>
    ensures { NumbersHeld text.now out.old out.new result }
{
    match quick_text(text, room) {
        Some(n) => hand_over(text.len(), &room[..n], out),
        None => read_tested(text, out),
    }
}

// A text of at most so many bytes has at most half as many numbers.
const SHORT: usize = 512;

const FEW: usize = SHORT / 2;

fn read_short(text: &[u8], out: &mut [u8]) -> Result<usize, Fault>
    ensures { NumbersHeld text.now out.old out.new result }
{
    let mut room = [0u64; FEW];
    read_by(text, &mut room, out)
}

// The quick way has room for so many numbers of a longer text. It is filled with ones, since that is done by stores of two
// numbers each; zeros are left to the C library, which stores as fast but is counted by the byte (docs/BENCHMARKS.md).
const ROOM: usize = 4096;

fn read_long(text: &[u8], out: &mut [u8]) -> Result<usize, Fault>
    ensures { NumbersHeld text.now out.old out.new result }
{
    let mut room = [1u64; ROOM];
    read_by(text, &mut room, out)
}

// All ways answer alike; which is the quickest depends on the length.
fn read_any(text: &[u8], out: &mut [u8]) -> Result<usize, Fault>
    ensures { NumbersHeld text.now out.old out.new result }
{
    if SHORT < text.len() {
        return read_long(text, out);
    }
    read_short(text, out)
}

// The numbers of a text to the front of the lent bytes, 8 bytes each, the lowest first; too little room is 11 at the text's end, last.
pub fn read_numbers(text: &[u8], out: &mut [u8]) -> Result<usize, Refusal>
    ensures { NumbersStored text.now out.old out.new result }
{
    Ok(read_any(text, out)?)
}

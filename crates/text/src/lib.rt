// Bytes by class, one scan over them, and the lines, words and parts of a text by their places.
#![tactic(auto)]

ghost use Rattle.std.specs.Prelude.{◌≡◌, true, ◌+◌, min, length, leb};
ghost use Rattle.text.specs.declared.Class.TheVariants.{Allowed, Word};
ghost use Rattle.text.specs.Scan.{is_in, end_of, Scanned, Passed};
ghost use Rattle.text.specs.Pieces.{Plain};
ghost use Rattle.text.specs.Words.{next_line, next_word, word_at, word_count, LineEnd, Found};
ghost use Rattle.text.specs.Parts.{part_in, part_bytes, PartIn};
ghost use Rattle.ledger.specs.Refusals.{require};
ghost use Rattle.text.specs.Checks.{fault, refused, text_check, last_line_check, words_check};

use ledger::{Fault, Part, Reason, Refusal};

// The classes of bytes that a scan passes over.
#[derive(Clone, Copy)]
pub enum Class {
    Blank,
    Word,
    Line,
    Allowed,
    Digit,
    Item,
    Graphic,
}

pub fn is_in(class: Class, b: u8) -> bool
    ensures { result ≡ is_in class b }
{
    match class {
        Class::Blank => (b == b' ') | (b == b'\t'),
        Class::Word => !((b == b' ') | (b == b'\t') | (b == b'\n')),
        Class::Line => b != b'\n',
        Class::Allowed => (b == b'\t') | (b == b'\n') | ((b' ' <= b) & (b <= b'~')),
        Class::Digit => (b'0' <= b) & (b <= b'9'),
        Class::Item => b != b',',
        Class::Graphic => (b'!' <= b) & (b <= b'~'),
    }
}

// The first place at or after `from` whose byte is not of the class, or the end.
pub fn scan(text: &[u8], from: usize, class: Class) -> usize
    ensures { Scanned class text.now from result }
{
    for i in from..text.len() {
        if !is_in(class, text[i]) {
            return i;
        }
    }
    from.max(text.len())
}

// Whether all bytes are of a class. The loop has no early way out, so that many bytes are tested at once.
fn all_in(part: &[u8], class: Class) -> bool
    ensures { result ≡ leb (length part.now) (end_of class part.now 0) }
{
    let mut good = true;
    for b in part {
        good &= is_in(class, *b);
    }
    good
}

// So many bytes are tested one by one before so many are tested at once.
const STRIDE: usize = 32;

fn stride_end(n: usize, from: usize) -> usize
    ensures { result ≡ min n (from + 32) }
{
    if n < from {
        return n;
    }
    if n - from < STRIDE { n } else { from + STRIDE }
}

// A place that a scan passes: after as many whole strides of the class as there are.
fn leap(text: &[u8], from: usize, class: Class) -> usize
    ensures { Passed class text.now from result }
{
    let n = text.len();
    let mut i = from;
    while i < n {
        if n - i < STRIDE {
            return i;
        }
        let e = i + STRIDE;
        if !all_in(&text[i..e], class) {
            return i;
        }
        i = e;
    }
    i
}

// The same place as a scan's, where it is likely to be far.
fn scan_far(text: &[u8], from: usize, class: Class) -> usize
    ensures { Scanned class text.now from result }
{
    let i = leap(text, from, class);
    scan(text, i, class)
}

// The end of the word that a place is in: most words are short, and lists are long.
fn word_end(text: &[u8], from: usize) -> usize
    ensures { Scanned Word text.now from result }
{
    let stop = stride_end(text.len(), from);
    for i in from..stop {
        if !is_in(Class::Word, text[i]) {
            return i;
        }
    }
    scan_far(text, from.max(stop), Class::Word)
}

// Whether a text may hold all its bytes. The loop has no early way out, so that many bytes are tested at once.
fn all_allowed(text: &[u8]) -> bool
    ensures { result ≡ leb (length text.now) (end_of Allowed text.now 0) }
{
    let mut good = true;
    for b in text {
        good &= is_in(Class::Allowed, *b);
    }
    good
}

// The length of a text (1), then its first byte that is not allowed (3).
pub fn check_text(text: &[u8]) -> Result<(), Fault>
    ensures { result ≡ text_check text.now }
{
    if ledger::TEXT_LIMIT < text.len() {
        return Err(Fault {
            reason: Reason::TextTooLong,
            place: 0,
        });
    }
    if all_allowed(text) {
        return Ok(());
    }
    let bad = scan(text, 0, Class::Allowed);
    Err(Fault {
        reason: Reason::ByteNotAllowed,
        place: bad,
    })
}

// Where the test holds, the rest; else a fault.
pub fn require(
    test: bool,
    reason: Reason,
    place: usize,
    rest: Result<(), Fault>,
) -> Result<(), Fault>
    ensures { result ≡ require test (fault reason place) rest }
{
    if test {
        return rest;
    }
    Err(Fault { reason, place })
}

// The same of a call without a text: where the test holds, the rest; else a refusal.
pub fn demand(test: bool, reason: Reason, rest: Result<(), Refusal>) -> Result<(), Refusal>
    ensures { result ≡ require test (refused reason) rest }
{
    if test {
        return rest;
    }
    Err(Refusal::without_text(reason))
}

// The end of the line that begins at a place: its line feed, or the text's length.
pub fn line_end(text: &[u8], line: usize) -> usize
    ensures { LineEnd text.now line result }
{
    scan_far(text, line, Class::Line)
}

// Where the next line would begin; there is one exactly when that is inside the text.
pub fn next_line(text: &[u8], line: usize) -> usize
    ensures { result ≡ next_line text.now line }
{
    let e = line_end(text, line);
    if e < text.len() { e + 1 } else { e }
}

// A word's place: its first byte, and past its last.
#[derive(Clone, Copy)]
pub struct Extent {
    pub start: usize,
    pub end: usize,
}

// The word at or after a place, on its line; an empty one at the line's end where there is none.
pub fn next_word(text: &[u8], from: usize) -> Extent
    ensures { Found (next_word text.now from) text.now from result }
{
    let a = scan(text, from, Class::Blank);
    let e = word_end(text, a);
    Extent { start: a, end: e }
}

// Word k, counted from 0, of the line that begins at a place: for k the number of words wanted, the first surplus word.
// Past the last word there is nothing to look for.
pub fn word_at(text: &[u8], line: usize, k: usize) -> Extent
    ensures { Found (word_at text.now line k) text.now line result }
{
    let mut w = next_word(text, line);
    for _ in 0..k {
        if w.start == w.end {
            return w;
        }
        w = next_word(text, w.end);
    }
    w
}

// The number of words from a place to the end of its line.
pub fn count_words(text: &[u8], line: usize) -> usize
    ensures { result ≡ word_count text.now line }
{
    let mut w = next_word(text, line);
    let mut n = 0;
    while w.start < w.end {
        w = next_word(text, w.end);
        n += 1;
    }
    n
}

// Whether a text's line is in standard form: words that show, with a single tab between each two. A quick way that may say yes.
pub fn is_plain(text: &[u8]) -> bool
    ensures { result ≡ true → Plain text.now }
{
    let mut at = 0;
    while at < text.len() {
        let e = scan(text, at, Class::Graphic);
        if e <= at {
            return false;
        }
        if text.len() <= e {
            return true;
        }
        if text[e] != b'\t' {
            return text[e] == b'\n';
        }
        at = e + 1;
    }
    false
}

// The number of words n of the line that begins at a place (2): at most so many, and a good one.
pub fn check_words(text: &[u8], line: usize, n: usize, most: usize, good: bool) -> Result<(), Fault>
    ensures { result ≡ words_check text.now line n most good }
{
    if most < n {
        let w = word_at(text, line, most);
        return Err(Fault {
            reason: Reason::WrongCount,
            place: w.start,
        });
    }
    if good {
        return Ok(());
    }
    let e = line_end(text, line);
    Err(Fault {
        reason: Reason::WrongCount,
        place: e,
    })
}

// Whether the line that begins at a place is the text's last: else the line after it is surplus (2).
pub fn check_last_line(text: &[u8], line: usize) -> Result<(), Fault>
    ensures { result ≡ last_line_check text.now line }
{
    let next = next_line(text, line);
    if next < text.len() {
        let w = next_word(text, next);
        return Err(Fault {
            reason: Reason::WrongCount,
            place: w.start,
        });
    }
    Ok(())
}

// The part itself where it lies in the text, else the empty part at the text's end.
pub fn part_in(text: &[u8], part: Part) -> Part
    ensures { PartIn text.now part result }
{
    let n = text.len();
    if n < part.start {
        return Part {
            start: n,
            length: 0,
        };
    }
    if n - part.start < part.length {
        return Part {
            start: n,
            length: 0,
        };
    }
    part
}

// Hands back the part of the text that a name stands in.
pub fn name_in(text: &[u8], part: Part) -> &[u8]
    ensures { result.now ≡ part_bytes text.now (part_in text.now part) }
{
    let p = part_in(text, part);
    let a = p.start;
    let e = p.start + p.length;
    &text[a..e]
}

// Numbers and comma lists: what a word spells, or its first fault with the place in the word.
#![tactic(auto)]

ghost use Rattle.std.specs.Prelude.{◌≡◌, ◌+◌, ◌-◌, ◌*◌, ◌≤◌, min, length, set, get_or};
ghost use Rattle.text.specs.declared.Class.TheVariants.{Digit};
ghost use Rattle.text.specs.Scan.{is_in};
ghost use Rattle.numbers.specs.Numbers.{short_limit, well_spelt, is_led, is_word_end, NumberRead, NumberTaken, Judged, DigitsRead};
ghost use Rattle.numbers.specs.Lists.{is_item_end, last_byte, open_end, PieceRead, ItemsStored, ListEnded, ListRead};

use ledger::{Fault, Reason};
use text::Class;

// So many digits have a value below 2^64, whatever they are.
const SHORT: usize = 19;

fn is_digit(b: u64) -> bool
    ensures { result ≡ is_in Digit b }
{
    (48 <= b) & (b <= 57)
}

// The value of some digits and one digit more.
fn one_more(sum: u64, b: u64) -> u64
    requires { (sum ≤ 999999999999999999) × (48 ≤ b) × (b ≤ 57) }
    ensures { result ≡ sum * 10 + (b - 48) }
{
    sum * 10 + (b - 48)
}

// Digits in a text: their value, and the place past them.
#[derive(Clone, Copy)]
pub struct Digits {
    pub value: u64,
    pub end: usize,
}

// The digits from a place on, where so many bytes are there: each is tested and counted in one pass, with no test of the value
// or of the text's end.
fn digits_in(text: &[u8], from: usize, most: usize) -> Digits
    requires { (from + most ≤ length text.now) × (most ≤ short_limit) }
    ensures { DigitsRead text.now from most result }
{
    let mut value: u64 = 0;
    for k in 0..most {
        let b = u64::from(text[from + k]);
        if !is_digit(b) {
            return Digits {
                value,
                end: from + k,
            };
        }
        value = one_more(value, b);
    }
    Digits {
        value,
        end: from + most,
    }
}

// The digits from a place on, at most so many and at most nineteen.
pub fn digits_at(text: &[u8], from: usize, most: usize) -> Digits
    ensures { DigitsRead text.now from most result }
{
    if text.len() <= from {
        return Digits {
            value: 0,
            end: from,
        };
    }
    let left = text.len() - from;
    let short = most.min(SHORT);
    if short <= left {
        return digits_in(text, from, short);
    }
    digits_in(text, from, left)
}

// Whether so many digits, the first of them given, are a number's: some, and no leading zero but in `0` itself.
pub fn leads(n: usize, first: u8) -> bool
    ensures { result ≡ is_led n first }
{
    if n == 0 {
        return false;
    }
    (n == 1) | (first != b'0')
}

// A value that so many digits spell, the first of them given: its spelling, then its range.
fn judge(n: usize, first: u8, v: u64, least: u64, most: u64) -> Result<u64, Fault>
    ensures { Judged n first v least most result }
{
    if !leads(n, first) {
        return Err(Fault {
            reason: Reason::NumberMisspelt,
            place: 0,
        });
    }
    if (least <= v) & (v <= most) {
        return Ok(v);
    }
    Err(Fault {
        reason: Reason::NumberOutOfRange,
        place: 0,
    })
}

// The byte at a place, or 0 past the end.
fn byte_at(word: &[u8], i: usize) -> u8
    ensures { result ≡ get_or word.now i 0 }
{
    if i < word.len() { word[i] } else { 0 }
}

fn digit(b: u8) -> u64
    ensures { result ≡ b - 48 }
{
    if b < b'0' { 0 } else { (b - b'0') as u64 }
}

// Digits only, and no leading zero but in `0` itself.
fn well_spelt(word: &[u8]) -> bool
    ensures { result ≡ well_spelt word.now }
{
    let n = word.len();
    if n == 0 {
        return false;
    }
    let e = text::scan(word, 0, Class::Digit);
    (e == n) & ((n == 1) | (word[0] != b'0'))
}

// The number that a word of any length spells: each digit is tested against the greatest value.
fn read_long(word: &[u8], least: u64, most: u64) -> Result<u64, Fault>
    ensures { NumberRead least most word.now result }
{
    if !well_spelt(word) {
        return Err(Fault {
            reason: Reason::NumberMisspelt,
            place: 0,
        });
    }
    let tens = most / 10;
    let mut acc: u64 = 0;
    for b in word {
        let d = digit(*b);
        if tens < acc {
            return Err(Fault {
                reason: Reason::NumberOutOfRange,
                place: 0,
            });
        }
        if most - acc * 10 < d {
            return Err(Fault {
                reason: Reason::NumberOutOfRange,
                place: 0,
            });
        }
        acc = acc * 10 + d;
    }
    if acc < least {
        return Err(Fault {
            reason: Reason::NumberOutOfRange,
            place: 0,
        });
    }
    Ok(acc)
}

// The number that a word spells, from a least to a greatest value; a fault's place counts from the word's first byte. A word of any length is told apart: misspelt, or out of range.
pub fn read_number(word: &[u8], least: u64, most: u64) -> Result<u64, Fault>
    ensures { NumberRead least most word.now result }
{
    let n = word.len();
    if SHORT < n {
        return read_long(word, least, most);
    }
    let d = digits_in(word, 0, n);
    if d.end < n {
        return Err(Fault {
            reason: Reason::NumberMisspelt,
            place: 0,
        });
    }
    judge(n, byte_at(word, 0), d.value, least, most)
}

// Whether an item of a list ends at a place: there is a comma, or the word's end.
fn is_item_end(word: &[u8], i: usize) -> bool
    ensures { result ≡ is_item_end word.now i }
{
    (word.len() <= i) | (byte_at(word, i) == b',')
}

// An item of a list: what it spells, and the place past it.
#[derive(Clone, Copy)]
struct Piece {
    spelt: Result<u64, Fault>,
    end: usize,
}

// The item at a place, found before it is read.
fn read_long_item(word: &[u8], from: usize, least: u64, most: u64) -> Piece
    requires { from ≤ length word.now }
    ensures { PieceRead least most word.now from result }
{
    let end = text::scan(word, from, Class::Item);
    let spelt = read_number(&word[from..end], least, most);
    Piece { spelt, end }
}

// The item at a place: in one pass where it is at most nineteen digits.
fn read_item(word: &[u8], from: usize, least: u64, most: u64) -> Piece
    requires { from ≤ length word.now }
    ensures { PieceRead least most word.now from result }
{
    let d = digits_at(word, from, SHORT);
    let end = d.end;
    if !is_item_end(word, end) {
        return read_long_item(word, from, least, most);
    }
    let spelt = judge(end - from, byte_at(word, from), d.value, least, most);
    Piece { spelt, end }
}

// A number taken from a text, and where its word ends.
#[derive(Clone, Copy)]
pub struct Taken {
    pub value: u64,
    pub end: usize,
}

// Whether a word ends at a place: there is a byte of no word, or the text's end.
fn is_word_end(text: &[u8], i: usize) -> bool
    ensures { result ≡ is_word_end text.now i }
{
    (text.len() <= i) | !text::is_in(Class::Word, byte_at(text, i))
}

// The digits from a place on, at most nineteen. The number of bytes that are looked at is not a fixed one, which keeps the loop
// short enough to be put into each place that takes a number (docs/BENCHMARKS.md has both ways' times).
fn short_digits(text: &[u8], from: usize) -> Digits
    ensures { DigitsRead text.now from short_limit result }
{
    if text.len() <= from {
        return Digits {
            value: 0,
            end: from,
        };
    }
    digits_in(text, from, SHORT.min(text.len() - from))
}

// The number that the word at a place spells, and the word's end, in one pass over its digits. Where none is taken, a word
// that is no number may stand there, or one that has to be read with more care.
pub fn number_at(text: &[u8], from: usize, least: u64, most: u64) -> Option<Taken>
    ensures { NumberTaken least most text.now from result }
{
    let d = short_digits(text, from);
    let end = d.end;
    let value = d.value;
    let fits = (least <= value) & (value <= most);
    let led = leads(end - from, byte_at(text, from));
    let ended = is_word_end(text, end);
    let good = ended & (led & fits);
    good.then_some(Taken { value, end })
}

// Stores a number at a place of a table, where the table has that place.
pub fn store(out: &mut [u64], n: usize, v: u64)
    ensures { out.new ≡ set out.old n v }
{
    if n < out.len() {
        out[n] = v;
    }
}

// Tests the items from the left and stores their values as far as the table reaches: the number of items, or the first bad one.
// The table is the caller's working room: where an item is bad, it holds the values before it.
pub fn store_items(word: &[u8], least: u64, most: u64, out: &mut [u64]) -> Result<u64, Fault>
    ensures { ItemsStored least most word.now out.old out.new result }
{
    let mut i = 0;
    let mut n = 0;
    while i < word.len() {
        let x = read_item(word, i, least, most);
        match x.spelt {
            Ok(v) => {
                store(out, n, v);
            }
            Err(bad) => {
                return Err(Fault {
                    reason: bad.reason,
                    place: i,
                });
            }
        }
        n += 1;
        i = x.end + 1;
    }
    Ok(n as u64)
}

fn last_byte(word: &[u8]) -> u8
    ensures { result ≡ last_byte 0 word.now }
{
    let n = word.len();
    if n == 0 {
        return 0;
    }
    word[n - 1]
}

// Whether an empty item stands at the end.
fn open_end(word: &[u8], comma: bool) -> bool
    ensures { result ≡ open_end comma word.now }
{
    (word.len() == 0) | (!comma & (last_byte(word) == b','))
}

// Ends a list whose items were found good or bad: an empty item at the end, then the number of items against a count.
// `comma`: whether one further comma may stand at the end.
pub fn end_list(
    found: Result<u64, Fault>,
    word: &[u8],
    comma: bool,
    count: u64,
) -> Result<u64, Fault>
    ensures { ListEnded comma count word.now found result }
{
    let m = found?;
    if open_end(word, comma) {
        return Err(Fault {
            reason: Reason::NumberMisspelt,
            place: word.len(),
        });
    }
    if m != count {
        return Err(Fault {
            reason: Reason::ListLength,
            place: 0,
        });
    }
    Ok(m)
}

// Reads a comma list of so many numbers into a table. All is tested before a number is stored, so a refusal leaves the table as it was.
pub fn read_list(
    word: &[u8],
    least: u64,
    most: u64,
    comma: bool,
    count: u64,
    out: &mut [u64],
) -> Result<u64, Fault>
    ensures { ListRead least most comma count word.now out.old out.new result }
{
    let mut none = [0u64; 0];
    let found = store_items(word, least, most, &mut none);
    end_list(found, word, comma, count)?;
    store_items(word, least, most, out)
}

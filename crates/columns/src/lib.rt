// A line by its table of columns: one loop reads a line by any table, and one writes it.
#![tactic(auto)]

ghost use Rattle.std.specs.Prelude.{◌≡◌, ◌+◌, ◌*◌, ◌≤◌, min, length, set, get_or, Err};
ghost use Rattle.ledger.specs.Limits.{name_limit, block_limit};
ghost use Rattle.text.specs.declared.Class.TheVariants.{Blank};
ghost use Rattle.text.specs.Scan.{end_of};
ghost use Rattle.text.specs.Words.{bytes_of};
ghost use Rattle.text.specs.Checks.{then_check};
ghost use Rattle.writing.specs.Puts.{Put};
ghost use Rattle.writing.specs.Answers.{Wrote};
ghost use Rattle.kinds.specs.declared.Kind.TheVariants.{Number};
ghost use Rattle.kinds.specs.Kinds.{spelt, items_in, base_by, base_after, Spelled};
ghost use Rattle.columns.specs.Columns.{column_limit, table_of, value_of, place_of, FieldRead, FieldTaken, ColumnsWalked, ColumnsRead, few_blocks, is_line_end, WordTaken, QuickWalked};
ghost use Rattle.columns.specs.OneLine.{count_check, WordsWalked, LineWalked};
ghost use Rattle.columns.specs.Names.{names_in, length_fits, all_graphic};
ghost use Rattle.columns.specs.Lines.{gap_of, line_text, fed_line};

use kinds::{Kind, Range};
use ledger::{Fault, Reason, Refusal};
use numbers::Taken;
use text::{Class, Extent};

// A table has at most so many columns.
pub const COLUMN_LIMIT: usize = 64;

// What an extent of a text spells. What lies outside the text holds no bytes.
fn spell_in(
    kind: Kind,
    count: u64,
    text: &[u8],
    word: Extent,
    base: usize,
    lists: &mut [u64],
) -> Result<u64, Fault>
    ensures { Spelled (spelt kind count (bytes_of text.now word)) (bytes_of
        text.now word) (items_in kind (bytes_of text.now word)) base lists.old
        lists.new result }
{
    let e = word.end.min(text.len());
    let a = word.start.min(e);
    kinds::spell(kind, count, &text[a..e], base, lists)
}

// The word at or after a place, read as a column of a kind.
fn read_field(
    kind: Kind,
    count: u64,
    text: &[u8],
    at: usize,
    base: usize,
    lists: &mut [u64],
) -> Result<(u64, Extent), Fault>
    ensures { FieldRead kind count text.now at base lists.old lists.new result }
{
    let w = text::next_word(text, at);
    match spell_in(kind, count, text, w, base, lists) {
        Ok(v) => Ok((v, w)),
        Err(x) => Err(Fault {
            reason: x.reason,
            place: w.start + x.place,
        }),
    }
}

// The word at or after a place, read as a column that is no list.
#[inline]
pub fn take_field(kind: Kind, text: &[u8], at: usize) -> Option<(u64, Extent)>
    ensures { FieldTaken kind text.now at result }
{
    read_field(kind, 0, text, at, 0, &mut []).ok()
}

// The same of a number, in one pass over its digits. Where none is taken, the word may be one that has to be read with more
// care. A header takes most of its columns so, one after the other.
#[inline(always)]
pub fn take_number(range: Range, text: &[u8], at: usize) -> Option<(u64, Extent)>
    ensures { FieldTaken (Number range) text.now at result }
{
    let start = text::scan(text, at, Class::Blank);
    let x = numbers::number_at(text, start, kinds::least_of(range), kinds::most_of(range))?;
    Some((x.value, Extent { start, end: x.end }))
}

// Where the next list is stored.
fn base_after(kind: Kind, base: usize) -> usize
    requires { base ≤ column_limit * block_limit }
    ensures { (result ≡ base_after kind base) × (result ≤ base + block_limit) }
{
    if kinds::is_list(kind) {
        base + ledger::BLOCK_LIMIT as usize
    } else {
        base
    }
}

fn store_pair(out: &mut [u64], k: usize, v: u64, p: u64)
    requires { k ≤ column_limit }
    ensures { out.new ≡ set (set out.old (2 * k) v) (2 * k + 1) p }
{
    numbers::store(out, 2 * k, v);
    numbers::store(out, 2 * k + 1, p);
}

// One walk over the columns, storing values and lists as it goes.
fn walk_columns(
    text: &[u8],
    from: usize,
    table: &[Kind],
    out: &mut [u64],
    lists: &mut [u64],
) -> Result<usize, Fault>
    requires { length table.now ≤ column_limit }
    ensures { ColumnsWalked table.now text.now from out.old out.new
        lists.old lists.new result }
{
    let mut at = from;
    let mut count = 0;
    let mut base = 0;
    for (k, &kind) in table.iter().enumerate() {
        let (v, w) = read_field(kind, count, text, at, base, lists)?;
        store_pair(out, k, v, w.start as u64);
        count = kinds::count_after(kind, v, count);
        base = base_after(kind, base);
        at = w.end;
    }
    Ok(at)
}

// Reads the words of a line from a place on by a table of columns, in order: for each its value and where its word starts, and the
// lists, room for a record's blocks each. The first walk stores nothing, so a refusal leaves both tables as they were.
pub fn read_columns(
    text: &[u8],
    from: usize,
    table: &[Kind],
    out: &mut [u64],
    lists: &mut [u64],
) -> Result<usize, Fault>
    ensures { ColumnsRead (table_of table.now) text.now from out.old out.new
        lists.old lists.new result }
{
    let n = COLUMN_LIMIT.min(table.len());
    let mut no_values = [0u64; 0];
    let mut no_lists = [0u64; 0];
    walk_columns(text, from, &table[..n], &mut no_values, &mut no_lists)?;
    walk_columns(text, from, &table[..n], out, lists)
}

// The same in one walk, for a caller's own working room: a refusal may leave anything in both tables.
pub fn walk_line(
    text: &[u8],
    from: usize,
    table: &[Kind],
    out: &mut [u64],
    lists: &mut [u64],
) -> Result<usize, Fault>
    ensures { ColumnsWalked (table_of table.now) text.now from out.old out.new
        lists.old lists.new result }
{
    let n = COLUMN_LIMIT.min(table.len());
    walk_columns(text, from, &table[..n], out, lists)
}

// What stands before column k: nothing before the first, then the separator.
fn put_gap(buf: &mut [u8], at: usize, k: usize, sep: u8) -> usize
    ensures { Put (gap_of k sep) at buf.old buf.new result }
{
    if k == 0 {
        return at;
    }
    writing::put_byte(buf, at, sep)
}

// The number at a place of a table; 0 past its end.
pub fn value_at(values: &[u64], i: usize) -> u64
    ensures { result ≡ get_or values.now i 0 }
{
    if i < values.len() { values[i] } else { 0 }
}

// The value of column k, of the two numbers that a column has; 0 where there is no such column.
pub fn value_of(values: &[u64], k: usize) -> u64
    ensures { result ≡ value_of values.now k }
{
    let n = values.len();
    if n <= k {
        return 0;
    }
    if n - k <= k {
        return 0;
    }
    value_at(values, k + k)
}

// Where the word of column k starts.
pub fn place_of(values: &[u64], k: usize) -> u64
    ensures { result ≡ place_of values.now k }
{
    let n = values.len();
    if n <= k {
        return 0;
    }
    if n - k <= k + 1 {
        return 0;
    }
    value_at(values, k + k + 1)
}

// Stores the words of a line by a table of columns, from the values and lists as a reader leaves them and the text that the names stand in.
fn put_columns(
    buf: &mut [u8],
    at: usize,
    table: &[Kind],
    sep: u8,
    text: &[u8],
    values: &[u64],
    lists: &[u64],
) -> usize
    requires { length table.now ≤ column_limit }
    ensures { Put (line_text table.now sep text.now values.now
        lists.now) at buf.old buf.new result }
{
    let mut p = at;
    let mut base = 0;
    for (k, &kind) in table.iter().enumerate() {
        let v = value_of(values, k);
        let start = place_of(values, k);
        let q = put_gap(buf, p, k, sep);
        p = kinds::put_word(buf, q, kind, text, lists, base, v, start);
        base = base_after(kind, base);
    }
    p
}

// Stores a whole line, its line feed too.
pub fn put_line(
    buf: &mut [u8],
    at: usize,
    table: &[Kind],
    sep: u8,
    text: &[u8],
    values: &[u64],
    lists: &[u64],
) -> usize
    ensures { Put (fed_line (table_of table.now) sep text.now values.now
        lists.now) at buf.old buf.new result }
{
    let n = COLUMN_LIMIT.min(table.len());
    let p = put_columns(buf, at, &table[..n], sep, text, values, lists);
    writing::put_byte(buf, p, b'\n')
}

// Writes a whole line to the front of a buffer: a line over the text limit is refused (1), then one over the room (11).
pub fn write_line(
    buf: &mut [u8],
    table: &[Kind],
    sep: u8,
    text: &[u8],
    values: &[u64],
    lists: &[u64],
) -> Result<usize, Refusal>
    ensures { Wrote (fed_line (table_of table.now) sep text.now values.now
        lists.now) buf.old buf.new result }
{
    let mut none = [0u8; 0];
    let n = put_line(&mut none, 0, table, sep, text, values, lists);
    writing::room_for(n, buf.len())?;
    Ok(put_line(buf, 0, table, sep, text, values, lists))
}

// The number of words of the line that begins at a place (2).
pub fn check_count(text: &[u8], line: usize, n: usize) -> Result<(), Fault>
    ensures { result ≡ count_check text.now line n }
{
    let count = text::count_words(text, line);
    text::check_words(text, line, count, n, n <= count)
}

// What was found of the columns, where the number of words is good.
fn count_first(text: &[u8], n: usize, found: Result<usize, Fault>) -> Result<usize, Fault>
    ensures { result ≡ then_check Err (count_check text.now 0 n) found }
{
    check_count(text, 0, n)?;
    found
}

// The number of words and the columns of a text's first line in one walk, for a caller's own working room. A good walk
// that no word follows has passed as many words as there are columns, so the words are counted in other cases only.
pub fn walk_words(
    text: &[u8],
    table: &[Kind],
    out: &mut [u64],
    lists: &mut [u64],
) -> Result<usize, Fault>
    ensures { WordsWalked (table_of table.now) text.now out.old out.new
        lists.old lists.new result }
{
    let n = COLUMN_LIMIT.min(table.len());
    match walk_line(text, 0, table, out, lists) {
        Err(x) => count_first(text, n, Err(x)),
        Ok(e) => {
            let w = text::next_word(text, e);
            if w.start == w.end {
                return Ok(e);
            }
            count_first(text, n, Ok(e))
        }
    }
}

// Reads a text of one line by its table in one walk, for a caller's own working room: a refusal may leave anything in
// both tables.
pub fn walk_text(
    text: &[u8],
    table: &[Kind],
    out: &mut [u64],
    lists: &mut [u64],
) -> Result<usize, Fault>
    ensures { LineWalked (table_of table.now) text.now out.old out.new
        lists.old lists.new result }
{
    text::check_text(text)?;
    let e = walk_words(text, table, out, lists)?;
    text::check_last_line(text, e)?;
    Ok(e)
}

// A line's words taken in one walk: how many there are, where the last of them ends, and where the line does.
#[derive(Clone, Copy)]
pub struct Quick {
    pub count: usize,
    pub last: usize,
    pub end: usize,
}

// A short line's lists have room for so many numbers each.
pub const FEW: usize = 64;

// The word at or after a place, read as a column of a kind.
fn quick_word(
    kind: Kind,
    count: u64,
    text: &[u8],
    at: usize,
    base: usize,
    lists: &mut [u64],
) -> Option<Taken>
    ensures { WordTaken kind count text.now (end_of Blank text.now at) base lists.old
        lists.new result }
{
    let (value, w) = read_field(kind, count, text, at, base, lists).ok()?;
    Some(Taken { value, end: w.end })
}

// The same, a number in one pass over its digits; the word begins at a place.
fn quick_field(
    kind: Kind,
    count: u64,
    text: &[u8],
    at: usize,
    start: usize,
    base: usize,
    lists: &mut [u64],
) -> Option<Taken>
    requires { start ≡ end_of Blank text.now at }
    ensures { WordTaken kind count text.now start base lists.old lists.new result }
{
    match kind {
        Kind::Number(r) => {
            numbers::number_at(text, start, kinds::least_of(r), kinds::most_of(r))
        }
        _ => quick_word(kind, count, text, at, base, lists),
    }
}

// Whether a line ends at a place: there is a line feed, or the text's end.
fn is_line_end(text: &[u8], at: usize) -> bool
    ensures { result ≡ is_line_end text.now at }
{
    if text.len() <= at {
        return true;
    }
    text[at] == b'\n'
}

// Where the next list of a short line is stored.
fn few_after(kind: Kind, base: usize) -> usize
    requires { base ≤ column_limit * few_blocks }
    ensures { (result ≡ base_by few_blocks kind base) × (result ≤ base + few_blocks) }
{
    if kinds::is_list(kind) {
        base + FEW
    } else {
        base
    }
}

// The words of a line by the first of so many columns, as many as there are, storing values and lists as it goes.
fn quick_columns(
    text: &[u8],
    from: usize,
    table: &[Kind],
    out: &mut [u64],
    lists: &mut [u64],
) -> Option<Quick>
    requires { length table.now ≤ column_limit }
    ensures { QuickWalked table.now text.now from out.old out.new
        lists.old lists.new result }
{
    let mut at = from;
    let mut count = 0;
    let mut base = 0;
    for (k, &kind) in table.iter().enumerate() {
        let start = text::scan(text, at, Class::Blank);
        if is_line_end(text, start) {
            return Some(Quick {
                count: k,
                last: at,
                end: start,
            });
        }
        let x = quick_field(kind, count, text, at, start, base, lists)?;
        let v = x.value;
        store_pair(out, k, v, start as u64);
        count = kinds::count_after(kind, v, count);
        base = few_after(kind, base);
        at = x.end;
    }
    let end = text::scan(text, at, Class::Blank);
    is_line_end(text, end).then_some(Quick {
        count: table.len(),
        last: at,
        end,
    })
}

// THE QUICK WAY through a line by a table of columns, of which the last may be left out: it may answer, and then all of its words
// are good. For a caller's own working room, lists of few numbers.
pub fn quick_words(
    text: &[u8],
    from: usize,
    table: &[Kind],
    out: &mut [u64],
    lists: &mut [u64],
) -> Option<Quick>
    ensures { QuickWalked (table_of table.now) text.now from out.old out.new
        lists.old lists.new result }
{
    let n = COLUMN_LIMIT.min(table.len());
    quick_columns(text, from, &table[..n], out, lists)
}

// Room for two names.
pub const NAMES: usize = 2 * ledger::NAME_LIMIT;

pub fn name_room() -> [u8; NAMES]
    ensures { length result ≡ 2 * name_limit }
{
    [0; NAMES]
}

// Puts two names into a text of their own, as far as it reaches.
pub fn put_names(first: &[u8], second: &[u8], names: &mut [u8])
    ensures { names.new ≡ names_in first.now second.now names.old }
{
    writing::put_bytes(names, 0, first);
    writing::put_bytes(names, ledger::NAME_LIMIT, second);
}

// Whether a name may have so many bytes.
pub fn length_fits(n: usize) -> bool
    ensures { result ≡ length_fits n }
{
    (1 <= n) & (n <= ledger::NAME_LIMIT)
}

// Whether all bytes of a name show.
pub fn all_graphic(name: &[u8]) -> bool
    ensures { result ≡ all_graphic name.now }
{
    name.len() <= text::scan(name, 0, Class::Graphic)
}

// The kinds of column: what a word of a kind spells, and how it is written.
#![tactic(auto)]

ghost use Rattle.std.specs.Prelude.{◌≡◌, true, suc, ◌+◌, ◌*◌, ◌%◌, ◌≤◌, min, [], ◌∷◌, get_or, take, drop};
ghost use Rattle.ledger.specs.Limits.{colour_limit};
ghost use Rattle.numbers.specs.Lists.{items_of, good_values, list_of};
ghost use Rattle.numbers.specs.Numbers.{number_of};
ghost use Rattle.writing.specs.Puts.{Put};
ghost use Rattle.writing.specs.Digits.{list_text};
ghost use Rattle.kinds.specs.Words.{colour_text, word_of};
ghost use Rattle.kinds.specs.Kinds.{least_of, most_of, is_strand, same_bytes, fixed_text, name_of, strand_of, fixed_of, colour_of, whole_of, packed, spelt, items_in, count_after, is_list, WordRead, Spelled};

use ledger::{Fault, Reason};

// The ranges of numbers; least and greatest are in specs/Kinds.antt.
#[derive(Clone, Copy)]
pub enum Range {
    Coordinate,
    Size,
    BedScore,
    ChainScore,
    ChainId,
    BlockCount,
}

// The words that a format fixes.
#[derive(Clone, Copy)]
pub enum Fixed {
    Chain,
    Plus,
}

// The kinds of column. A strand's flag tells whether `.` is one.
#[derive(Clone, Copy)]
pub enum Kind {
    Name,
    Number(Range),
    Count,
    Items(Range),
    Stranded(bool),
    Word(Fixed),
    Colour,
}

pub fn least_of(r: Range) -> u64
    ensures { result ≡ least_of r }
{
    match r {
        Range::Coordinate => 0,
        Range::Size => 1,
        Range::BedScore => 0,
        Range::ChainScore => 0,
        Range::ChainId => 0,
        Range::BlockCount => 1,
    }
}

pub fn most_of(r: Range) -> u64
    ensures { result ≡ most_of r }
{
    match r {
        Range::Coordinate => ledger::Position::LARGEST,
        Range::Size => ledger::Position::LARGEST,
        Range::BedScore => ledger::BED_SCORE_LIMIT,
        Range::ChainScore => ledger::CHAIN_SCORE_LIMIT,
        Range::ChainId => ledger::CHAIN_ID_LIMIT,
        Range::BlockCount => ledger::BLOCK_LIMIT,
    }
}

fn first(word: &[u8]) -> u64
    ensures { result ≡ get_or word.now 0 0 }
{
    if 0 < word.len() {
        u64::from(word[0])
    } else {
        0
    }
}

// The letters of the strands.
const PLUS: u64 = b'+' as u64;

const MINUS: u64 = b'-' as u64;

const DOT: u64 = b'.' as u64;

fn is_strand(dot: bool, word: &[u8]) -> bool
    ensures { result ≡ is_strand dot word.now }
{
    let b = first(word);
    (word.len() == 1) & ((b == PLUS) | ((b == MINUS) | (dot & (b == DOT))))
}

fn same_bytes(a: &[u8], b: &[u8]) -> bool
    ensures { result ≡ same_bytes a.now b.now }
{
    a == b
}

fn is_fixed(f: Fixed, word: &[u8]) -> bool
    ensures { result ≡ same_bytes word.now (fixed_text f) }
{
    match f {
        Fixed::Chain => same_bytes(word, b"chain"),
        Fixed::Plus => same_bytes(word, b"+"),
    }
}

// A word that is good or not as a whole.
fn whole(good: bool, v: u64) -> Result<u64, Fault>
    ensures { result ≡ whole_of good v }
{
    if good {
        Ok(v)
    } else {
        Err(Fault {
            reason: Reason::BadWord,
            place: 0,
        })
    }
}

// A name of 1 to 64 bytes; it means its length.
pub fn read_name(word: &[u8]) -> Result<u64, Fault>
    ensures { WordRead (name_of word.now) word.now result }
{
    let n = word.len();
    whole((1 <= n) & (n <= ledger::NAME_LIMIT), n as u64)
}

// A strand, `.` too where three letters are allowed; it means its letter.
pub fn read_strand(dot: bool, word: &[u8]) -> Result<u64, Fault>
    ensures { WordRead (strand_of dot word.now) word.now result }
{
    whole(is_strand(dot, word), first(word))
}

// A word that the format fixes.
pub fn read_fixed(f: Fixed, word: &[u8]) -> Result<u64, Fault>
    ensures { WordRead (fixed_of f word.now) word.now result }
{
    whole(is_fixed(f, word), 0)
}

// A number in its range.
pub fn read_ranged(r: Range, word: &[u8]) -> Result<u64, Fault>
    ensures { WordRead (number_of (least_of r) (most_of r) word.now) word.now result }
{
    numbers::read_number(word, least_of(r), most_of(r))
}

// The number of values that each number of a colour has.
const SHADES: u64 = ledger::COLOUR_LIMIT + 1;

// Three numbers of a colour as one; each is taken as a byte.
fn pack(r: u64, g: u64, b: u64) -> u64
    ensures { result ≡ packed (r % suc colour_limit) (g % suc colour_limit) (b % suc colour_limit) }
{
    (r % SHADES * SHADES + g % SHADES) * SHADES + b % SHADES
}

// A colour: `0`, or three numbers with no comma at the end.
pub fn read_colour(word: &[u8]) -> Result<u64, Fault>
    ensures { WordRead (colour_of word.now) word.now result }
{
    if same_bytes(word, b"0") {
        return Ok(0);
    }
    let mut v = [0u64; 3];
    numbers::read_list(word, 0, ledger::COLOUR_LIMIT, false, 3, &mut v)?;
    Ok(pack(v[0], v[1], v[2]))
}

// A comma list of so many numbers, stored in a table from a base on.
fn list_word(
    r: Range,
    count: u64,
    word: &[u8],
    base: usize,
    lists: &mut [u64],
) -> Result<u64, Fault>
    ensures { Spelled (list_of (least_of r) (most_of r) true count word.now)
        word.now (good_values (least_of r) (most_of r) (items_of word.now)) base lists.old
        lists.new result }
{
    let b = base.min(lists.len());
    let found = numbers::store_items(word, least_of(r), most_of(r), &mut lists[b..]);
    numbers::end_list(found, word, true, count)
}

// What a word of a kind spells; the numbers of a list are stored from a base on, up to its first bad item.
pub fn spell(
    kind: Kind,
    count: u64,
    word: &[u8],
    base: usize,
    lists: &mut [u64],
) -> Result<u64, Fault>
    ensures { Spelled (spelt kind count word.now) word.now (items_in kind word.now) base
        lists.old lists.new result }
{
    match kind {
        Kind::Name => read_name(word),
        Kind::Number(r) => read_ranged(r, word),
        Kind::Count => read_ranged(Range::BlockCount, word),
        Kind::Items(r) => list_word(r, count, word, base, lists),
        Kind::Stranded(dot) => read_strand(dot, word),
        Kind::Word(f) => read_fixed(f, word),
        Kind::Colour => read_colour(word),
    }
}

// The count that lists after a column answer to.
pub fn count_after(kind: Kind, v: u64, n: u64) -> u64
    ensures { result ≡ count_after kind v n }
{
    match kind {
        Kind::Name => n,
        Kind::Number(_) => n,
        Kind::Count => v,
        Kind::Items(_) => n,
        Kind::Stranded(_) => n,
        Kind::Word(_) => n,
        Kind::Colour => n,
    }
}

// Whether a column is a list.
pub fn is_list(kind: Kind) -> bool
    ensures { result ≡ is_list kind }
{
    match kind {
        Kind::Name => false,
        Kind::Number(_) => false,
        Kind::Count => false,
        Kind::Items(_) => true,
        Kind::Stranded(_) => false,
        Kind::Word(_) => false,
        Kind::Colour => false,
    }
}

// The bytes of a part of a text, by its start and length, as far as the text reaches.
fn put_name(buf: &mut [u8], at: usize, text: &[u8], start: usize, n: usize) -> usize
    ensures { Put (take n (drop start text.now)) at buf.old buf.new result }
{
    let a = start.min(text.len());
    let m = n.min(text.len() - a);
    writing::put_bytes(buf, at, &text[a..a + m])
}

fn put_fixed(buf: &mut [u8], at: usize, f: Fixed) -> usize
    ensures { Put (fixed_text f) at buf.old buf.new result }
{
    match f {
        Fixed::Chain => writing::put_bytes(buf, at, b"chain"),
        Fixed::Plus => writing::put_bytes(buf, at, b"+"),
    }
}

// So many numbers of a table from a base on, as far as it reaches.
fn put_items(buf: &mut [u8], at: usize, lists: &[u64], base: usize, n: usize) -> usize
    ensures { Put (list_text (take n (drop base lists.now))) at buf.old buf.new result }
{
    let a = base.min(lists.len());
    let m = n.min(lists.len() - a);
    writing::put_list(buf, at, &lists[a..a + m])
}

fn put_colour(buf: &mut [u8], at: usize, v: u64) -> usize
    ensures { Put (colour_text v) at buf.old buf.new result }
{
    if v == 0 {
        return writing::put_byte(buf, at, b'0');
    }
    let a = writing::put_number(buf, at, v / SHADES / SHADES);
    let b = writing::put_byte(buf, a, b',');
    let c = writing::put_number(buf, b, v / SHADES % SHADES);
    let d = writing::put_byte(buf, c, b',');
    writing::put_number(buf, d, v % SHADES)
}

// The word of a column: its value, a name by its start in a text, a list by its base in a table.
pub fn put_word(
    buf: &mut [u8],
    at: usize,
    kind: Kind,
    text: &[u8],
    lists: &[u64],
    base: usize,
    v: u64,
    start: u64,
) -> usize
    ensures { Put (word_of kind text.now lists.now base v start) at buf.old buf.new result }
{
    match kind {
        Kind::Name => put_name(buf, at, text, start as usize, v as usize),
        Kind::Number(_) => writing::put_number(buf, at, v),
        Kind::Count => writing::put_number(buf, at, v),
        Kind::Items(_) => put_items(buf, at, lists, base, v as usize),
        Kind::Stranded(_) => writing::put_byte(buf, at, (v % 256) as u8),
        Kind::Word(f) => put_fixed(buf, at, f),
        Kind::Colour => put_colour(buf, at, v),
    }
}

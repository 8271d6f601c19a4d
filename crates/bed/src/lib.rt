// One BED line: reader, text checker, record checker, writer, over three flat slices of blocks.
#![tactic(auto)]

ghost use Rattle.std.specs.Prelude.{◌≡◌, true, false, ◌*◌, length, take, Ok};
ghost use Rattle.ledger.specs.Limits.{block_limit};
ghost use Rattle.writing.specs.Answers.{Wrote};
ghost use Rattle.text.specs.Words.{line_end, bytes_of};
ghost use Rattle.text.specs.Steps.{Staged};
ghost use Rattle.numbers.specs.Lists.{last_byte};
ghost use Rattle.columns.specs.Columns.{few_blocks};
ghost use Rattle.bed.specs.Records.{is_word_count, value_or, place_or, bed_record};
ghost use Rattle.bed.specs.Tests.{if_there, names_fit, is_dot, strand_fits, fields_fit, spans_fit, rows_fit, bed_valid};
ghost use Rattle.bed.specs.Standard.{Standard};
ghost use Rattle.bed.specs.Write.{names_show, write_check, bed_text, BedWrote, record_check};
ghost use Rattle.bed.specs.Read.{thick_fits, thick_place, span_check, block_check};
ghost use Rattle.bed.specs.Read.{after_spans, after_columns, after_words, after_text, bed_stages, bed_check, BedRead};
ghost use Rattle.bed.specs.Steps.{with_default, Counted, Listed, Blocked, is_few, QuickStaged, Stored, RowsStored};
ghost use Rattle.bed.specs.Steps.{Tidied, bed_values, RowsThere, ListsPut, Writable};

use kinds::{Kind, Range};
use ledger::{Fault, Part, Reason, Refusal, Strand};
use text::Extent;

// The record of a BED line. A name is a part of the text; a colour is one number, (red × 256 + green) × 256 + blue.
#[derive(Clone, Copy)]
pub struct Bed {
    pub words: u64,
    pub chrom: Part,
    pub chromStart: u64,
    pub chromEnd: u64,
    pub name: Part,
    pub score: u64,
    pub strand: Strand,
    pub thickStart: u64,
    pub thickEnd: u64,
    pub itemRgb: u64,
    pub blockCount: u64,
}

// The columns by their number.
const CHROM: usize = 0;

const CHROM_START: usize = 1;

const CHROM_END: usize = 2;

const NAME: usize = 3;

const SCORE: usize = 4;

const STRAND: usize = 5;

const THICK_START: usize = 6;

const THICK_END: usize = 7;

const ITEM_RGB: usize = 8;

const BLOCK_COUNT: usize = 9;

// How many there are.
const COLUMNS: usize = 12;

// The columns of specs/Table.antt.
const BED: [Kind; COLUMNS] = [
    Kind::Name,
    Kind::Number(Range::Coordinate),
    Kind::Number(Range::Coordinate),
    Kind::Name,
    Kind::Number(Range::BedScore),
    Kind::Stranded(true),
    Kind::Number(Range::Coordinate),
    Kind::Number(Range::Coordinate),
    Kind::Colour,
    Kind::Count,
    Kind::Items(Range::Size),
    Kind::Items(Range::Coordinate),
];

// Two numbers a column: its value, and where its word starts.
const VALUES: usize = 2 * COLUMNS;

// The strand of a line without one.
const DOT: u64 = b'.' as u64;

// The number of colours.
const COLOURS: u64 = (ledger::COLOUR_LIMIT + 1)
    * (ledger::COLOUR_LIMIT + 1)
    * (ledger::COLOUR_LIMIT + 1);

// Whether a line may have so many words.
fn is_word_count(n: u64) -> bool
    ensures { result ≡ is_word_count n }
{
    (3 <= n) & ((n <= 9) | (n == COLUMNS as u64))
}

// A column's value, or a default where the column is left out.
fn value_or(values: &[u64], n: u64, k: usize, d: u64) -> u64
    ensures { result ≡ value_or n values.now k d }
{
    if (k as u64) < n {
        return columns::value_of(values, k);
    }
    d
}

// Where a column's word starts, or a default.
fn place_or(values: &[u64], n: u64, k: usize, d: u64) -> u64
    ensures { result ≡ place_or n values.now k d }
{
    if (k as u64) < n {
        return columns::place_of(values, k);
    }
    d
}

// The record of a line of n words, from its columns' values.
fn record_of(values: &[u64], n: u64, len: usize) -> Bed
    ensures { result ≡ bed_record n len values.now }
{
    let start = columns::value_of(values, CHROM_START);
    let end = columns::value_of(values, CHROM_END);
    Bed {
        words: n,
        chrom: Part::of_values(
            columns::place_of(values, CHROM),
            columns::value_of(values, CHROM),
        ),
        chromStart: start,
        chromEnd: end,
        name: Part::of_values(
            place_or(values, n, NAME, len as u64),
            value_or(values, n, NAME, 0),
        ),
        score: value_or(values, n, SCORE, 0),
        strand: Strand::of_value(value_or(values, n, STRAND, DOT)),
        thickStart: value_or(values, n, THICK_START, start),
        thickEnd: value_or(values, n, THICK_END, end),
        itemRgb: value_or(values, n, ITEM_RGB, 0),
        blockCount: value_or(values, n, BLOCK_COUNT, 1),
    }
}

fn thick_fits(r: Bed) -> bool
    ensures { result ≡ thick_fits r }
{
    (r.chromStart <= r.thickStart) & ((r.thickStart <= r.thickEnd) & (r.thickEnd <= r.chromEnd))
}

// Where a breach of the thick span stands.
fn thick_place(values: &[u64], n: u64) -> usize
    ensures { result ≡ thick_place n values.now }
{
    if (THICK_END as u64) < n {
        return columns::place_of(values, THICK_END) as usize;
    }
    columns::place_of(values, THICK_START) as usize
}

// The spans (7).
fn check_spans(r: Bed, values: &[u64]) -> Result<(), Fault>
    ensures { result ≡ span_check r values.now }
{
    let end = columns::place_of(values, CHROM_END) as usize;
    let thick = text::require(
        thick_fits(r),
        Reason::SpanDisagrees,
        thick_place(values, r.words),
        Ok(()),
    );
    text::require(r.chromStart < r.chromEnd, Reason::SpanDisagrees, end, thick)
}

// The one block of a line without block columns.
fn default_block(r: Bed, b: usize, lists: &mut [u64])
    ensures { lists.new ≡ with_default b r lists.old }
{
    if r.words == COLUMNS as u64 {
        return;
    }
    numbers::store(lists, 0, r.chromEnd.saturating_sub(r.chromStart));
    numbers::store(lists, b, 0);
}

// The blocks (9).
fn check_blocks(text: &[u8], r: Bed, b: usize, lists: &[u64]) -> Result<(), Fault>
    requires { Blocked b text.now r lists.now }
    ensures { result ≡ block_check text.now r }
{
    let span = r.chromEnd.saturating_sub(r.chromStart);
    text::require(
        blocks::blocks_fill(&lists[b..], lists, r.blockCount as usize, 0, span),
        Reason::BlockRules,
        text.len(),
        Ok(()),
    )
}

// The default block, then the blocks.
fn after_spans(text: &[u8], r: Bed, b: usize, lists: &mut [u64]) -> Result<Bed, Fault>
    requires { Listed b text.now r lists.old }
    ensures { Staged Ok (Blocked b text.now) (after_spans text.now r) lists.new result }
{
    default_block(r, b, lists);
    check_blocks(text, r, b, lists)?;
    Ok(r)
}

// A surplus line, the spans, and on; the columns end on the line of a place.
fn after_columns(
    text: &[u8],
    end: usize,
    n: u64,
    values: &[u64],
    b: usize,
    lists: &mut [u64],
) -> Result<Bed, Fault>
    requires { Listed b text.now (bed_record n (length text.now) values.now) lists.old
        × (line_end text.now end ≡ line_end text.now 0) }
    ensures { Staged Ok (Blocked b text.now) (after_columns text.now n values.now) lists.new result }
{
    text::check_last_line(text, end)?;
    let r = record_of(values, n, text.len());
    check_spans(r, values)?;
    after_spans(text, r, b, lists)
}

// Room for a record's blocks.
const BLOCKS: usize = ledger::BLOCK_LIMIT as usize;

// The columns from the left, and on.
fn after_words(text: &[u8], n: usize, lists: &mut [u64]) -> Result<Bed, Fault>
    requires { Counted text.now n lists.old }
    ensures { Staged Ok (Blocked block_limit text.now) (after_words text.now n) lists.new result }
{
    let table = BED;
    let mut values = [0u64; VALUES];
    let e = columns::walk_line(text, 0, &table[..n], &mut values, lists)?;
    after_columns(text, e, n as u64, &values, BLOCKS, lists)
}

// A text of more bytes is likely to have all 12 columns.
pub const LONG: usize = 256;

// The number of words, and on.
fn after_text(text: &[u8], lists: &mut [u64]) -> Result<Bed, Fault>
    requires { length lists.old ≡ 2 * block_limit }
    ensures { Staged Ok (Blocked block_limit text.now) (after_text text.now) lists.new result }
{
    let n = text::count_words(text, 0);
    text::check_words(text, 0, n, COLUMNS, is_word_count(n as u64))?;
    after_words(text, n, lists)
}

// The same of a text that is likely to have all 12 columns: a good walk over them that no word follows needs no count.
fn after_long(text: &[u8], lists: &mut [u64]) -> Result<Bed, Fault>
    requires { length lists.old ≡ 2 * block_limit }
    ensures { Staged Ok (Blocked block_limit text.now) (after_text text.now) lists.new result }
{
    let table = BED;
    let mut values = [0u64; VALUES];
    match columns::walk_words(text, &table, &mut values, lists) {
        Ok(e) => after_columns(text, e, COLUMNS as u64, &values, BLOCKS, lists),
        Err(x) => {
            if text::count_words(text, 0) == COLUMNS {
                return Err(x);
            }
            after_text(text, lists)
        }
    }
}

// All checks of a text, the blocks of an accepted line in the working room.
fn stage(text: &[u8], lists: &mut [u64]) -> Result<Bed, Fault>
    requires { length lists.old ≡ 2 * block_limit }
    ensures { Staged Ok (Blocked block_limit text.now) (bed_stages text.now) lists.new result }
{
    text::check_text(text)?;
    if LONG < text.len() {
        return after_long(text, lists);
    }
    after_text(text, lists)
}

// Working room for the sizes and the starts of a record's blocks.
const ROOM: usize = 2 * BLOCKS;

fn working_room() -> [u64; ROOM]
    ensures { length result ≡ 2 * block_limit }
{
    [0; ROOM]
}

// All checks of a text, with room for any record's blocks.
fn check_long(text: &[u8]) -> Result<Bed, Fault>
    ensures { result ≡ bed_stages text.now }
{
    let mut lists = working_room();
    stage(text, &mut lists)
}

// Whether a line of n good words is one that the quick way goes on with: a good number of words, and few blocks.
fn is_few(values: &[u64], n: u64) -> bool
    ensures { result ≡ is_few n values.now }
{
    let count = value_or(values, n, BLOCK_COUNT, 1);
    is_word_count(n) & (count <= columns::FEW as u64)
}

// The quick way of a line: its words in one walk, and on.
fn quick_line(text: &[u8], lists: &mut [u64]) -> Option<Result<Bed, Fault>>
    requires { length lists.old ≡ 2 * few_blocks }
    ensures { QuickStaged text.now (after_text text.now) lists.new result }
{
    let table = BED;
    let mut values = [0u64; VALUES];
    let w = columns::quick_words(text, 0, &table, &mut values, lists)?;
    let n = w.count as u64;
    if !is_few(&values, n) {
        return None;
    }
    Some(after_columns(text, w.last, n, &values, columns::FEW, lists))
}

// The quick way of a short text: what the stages find, where it finds anything.
fn quick(text: &[u8], lists: &mut [u64]) -> Option<Result<Bed, Fault>>
    requires { length lists.old ≡ 2 * few_blocks }
    ensures { QuickStaged text.now (bed_stages text.now) lists.new result }
{
    if LONG < text.len() {
        return None;
    }
    text::check_text(text).ok()?;
    quick_line(text, lists)
}

// Working room for the lists of a short line.
const FEW_ROOM: usize = 2 * columns::FEW;

fn few_room() -> [u64; FEW_ROOM]
    ensures { length result ≡ 2 * few_blocks }
{
    [0; FEW_ROOM]
}

// All checks of a text; both ways answer alike.
fn check_any(text: &[u8]) -> Result<Bed, Fault>
    ensures { result ≡ bed_stages text.now }
{
    let mut lists = few_room();
    match quick(text, &mut lists) {
        Some(found) => found,
        None => check_long(text),
    }
}

// THE TEXT CHECKER: what the reader answers, given room.
pub fn check_bed_text(text: &[u8]) -> Result<Bed, Refusal>
    ensures { result ≡ bed_check text.now }
{
    Ok(check_any(text)?)
}

// Whether a word ends with a comma.
fn ends_with_comma(text: &[u8], word: Extent) -> bool
    ensures { result ≡ true → last_byte 0 (bytes_of text.now word) ≡ 44 }
{
    if word.end <= word.start {
        return false;
    }
    if text.len() < word.end {
        return false;
    }
    text[word.end - 1] == b','
}

// The words between the name and the colour.
const AFTER_NAME: usize = ITEM_RGB - NAME - 1;

// Whether the words of a line with more than one spelling have the standard one: black is one digit, and lists end with a comma.
fn is_tidy(text: &[u8], r: Bed) -> bool
    requires { bed_check text.now ≡ Ok r }
    ensures { result ≡ true → Tidied text.now r }
{
    if r.words <= ITEM_RGB as u64 {
        return true;
    }
    let name_end = r.name.start + r.name.length;
    let rgb = text::word_at(text, name_end, AFTER_NAME);
    let black = (r.itemRgb != 0) | (rgb.end - rgb.start == 1);
    if r.words < COLUMNS as u64 {
        return black;
    }
    let count = text::next_word(text, rgb.end);
    let sizes = text::next_word(text, count.end);
    let starts = text::next_word(text, sizes.end);
    black & (ends_with_comma(text, sizes) & ends_with_comma(text, starts))
}

// Whether a text is the standard text of its own record, with or without the line feed: a quick way that may say yes.
pub fn is_standard(text: &[u8]) -> bool
    ensures { result ≡ true → Standard text.now }
{
    match check_bed_text(text) {
        Err(_) => false,
        Ok(r) => is_tidy(text, r) & text::is_plain(text),
    }
}

// The room (11), then the rows into the lent slices.
fn store_rows(
    text: &[u8],
    r: Bed,
    b: usize,
    lists: &[u64],
    targets: &mut [u64],
    queries: &mut [u64],
    sizes: &mut [u64],
) -> Result<Bed, Fault>
    requires { Stored b text.now r lists.now }
    ensures { RowsStored (Ok r) text.now targets.old targets.new queries.old
        queries.new sizes.old sizes.new result }
{
    let room = blocks::rows_of(targets, queries, sizes);
    let count = r.blockCount as usize;
    if room < count {
        return Err(Fault {
            reason: Reason::NoRoom,
            place: text.len(),
        });
    }
    blocks::put_shifted(&lists[b..], count, r.chromStart, targets);
    blocks::put_sums(lists, count, queries);
    blocks::copy_numbers(lists, count, sizes);
    Ok(r)
}

// The rows of a line that was read, from the working room to the lent slices.
fn hand_over(
    text: &[u8],
    reading: Result<Bed, Fault>,
    b: usize,
    lists: &[u64],
    targets: &mut [u64],
    queries: &mut [u64],
    sizes: &mut [u64],
) -> Result<Bed, Fault>
    requires { Staged Ok (Blocked b text.now) (bed_stages text.now) lists.now reading }
    ensures { RowsStored (bed_stages text.now) text.now targets.old targets.new
        queries.old queries.new sizes.old sizes.new result }
{
    let r = reading?;
    store_rows(text, r, b, lists, targets, queries, sizes)
}

// The reader with room for any record's blocks.
fn read_long(
    text: &[u8],
    targets: &mut [u64],
    queries: &mut [u64],
    sizes: &mut [u64],
) -> Result<Bed, Fault>
    ensures { RowsStored (bed_stages text.now) text.now targets.old targets.new
        queries.old queries.new sizes.old sizes.new result }
{
    let mut lists = working_room();
    let reading = stage(text, &mut lists);
    hand_over(text, reading, BLOCKS, &lists, targets, queries, sizes)
}

// The reader; both ways answer alike.
fn read_any(
    text: &[u8],
    targets: &mut [u64],
    queries: &mut [u64],
    sizes: &mut [u64],
) -> Result<Bed, Fault>
    ensures { RowsStored (bed_stages text.now) text.now targets.old targets.new
        queries.old queries.new sizes.old sizes.new result }
{
    let mut lists = few_room();
    match quick(text, &mut lists) {
        Some(found) => hand_over(text, found, columns::FEW, &lists, targets, queries, sizes),
        None => read_long(text, targets, queries, sizes),
    }
}

// THE READER: one BED line, its blocks to the front of three lent slices. A refusal leaves them as they were, and rows past the
// blocks stay.
pub fn read_bed(
    text: &[u8],
    targets: &mut [u64],
    queries: &mut [u64],
    sizes: &mut [u64],
) -> Result<Bed, Refusal>
    ensures { BedRead text.now targets.old targets.new queries.old
        queries.new sizes.old sizes.new result }
{
    Ok(read_any(text, targets, queries, sizes)?)
}

// Of column k: a test where it is there, and another where it is left out.
fn if_there(n: u64, k: usize, there: bool, left: bool) -> bool
    ensures { result ≡ if_there n k there left }
{
    if (k as u64) < n { there } else { left }
}

// The two names by their lengths.
fn names_fit(n: u64, chrom: usize, name: usize) -> bool
    ensures { result ≡ names_fit n chrom name }
{
    columns::length_fits(chrom) & if_there(n, NAME, columns::length_fits(name), name == 0)
}

fn is_dot(s: Strand) -> bool
    ensures { result ≡ is_dot s }
{
    match s {
        Strand::Plus => false,
        Strand::Minus => false,
        Strand::Dot => true,
    }
}

fn strand_fits(r: Bed) -> bool
    ensures { result ≡ strand_fits r }
{
    let strand = r.strand;
    if_there(r.words, STRAND, true, is_dot(strand))
}

// The number of words, and the numbers of the record: in range, or left out.
fn fields_fit(r: Bed) -> bool
    ensures { result ≡ fields_fit r }
{
    let most = ledger::Position::LARGEST;
    let score = if_there(
        r.words,
        SCORE,
        r.score <= ledger::BED_SCORE_LIMIT,
        r.score == 0,
    );
    let start = if_there(
        r.words,
        THICK_START,
        r.thickStart <= most,
        r.thickStart == r.chromStart,
    );
    let end = if_there(
        r.words,
        THICK_END,
        r.thickEnd <= most,
        r.thickEnd == r.chromEnd,
    );
    let colour = if_there(r.words, ITEM_RGB, r.itemRgb < COLOURS, r.itemRgb == 0);
    is_word_count(r.words)
        & ((r.chromStart <= most) & ((r.chromEnd <= most) & (score & (start & (end & colour)))))
}

fn spans_fit(r: Bed) -> bool
    ensures { result ≡ spans_fit r }
{
    (r.chromStart < r.chromEnd) & thick_fits(r)
}

// The blocks of the used rows.
fn rows_fit(r: Bed, targets: &[u64], queries: &[u64], sizes: &[u64], count: usize) -> bool
    ensures { result ≡ rows_fit r (take count targets.now) (take count queries.now) (take count sizes.now) }
{
    if_there(r.words, BLOCK_COUNT, true, r.blockCount == 1)
        & (blocks::blocks_fill(targets, sizes, count, r.chromStart, r.chromEnd)
            & blocks::are_sums(queries, sizes, count))
}

// All rules of a record with its rows.
fn record_fits(r: Bed, targets: &[u64], queries: &[u64], sizes: &[u64]) -> bool
    ensures { result ≡ bed_valid r targets.now queries.now sizes.now }
{
    let rows = blocks::rows_of(targets, queries, sizes);
    let count = r.blockCount as usize;
    blocks::count_fits(r.blockCount, rows)
        & (names_fit(r.words, r.chrom.length, r.name.length)
            & (strand_fits(r)
                & (fields_fit(r)
                    & (blocks::row_numbers_fit(targets, queries, sizes, count)
                        & (spans_fit(r) & rows_fit(r, targets, queries, sizes, count))))))
}

// THE RECORD CHECKER: a record with the first blockCount rows of three slices; any breach is 9.
pub fn check_bed(r: Bed, targets: &[u64], queries: &[u64], sizes: &[u64]) -> Result<(), Refusal>
    ensures { result ≡ record_check r targets.now queries.now sizes.now }
{
    text::demand(
        record_fits(r, targets, queries, sizes),
        Reason::BlockRules,
        Ok(()),
    )
}

// The names that are handed in.
fn names_show(r: Bed, chrom: &[u8], name: &[u8]) -> bool
    ensures { result ≡ names_show r chrom.now name.now }
{
    names_fit(r.words, chrom.len(), name.len())
        & (columns::all_graphic(chrom) & columns::all_graphic(name))
}

// The writers' refusals in their order.
fn check_write(
    r: Bed,
    chrom: &[u8],
    name: &[u8],
    targets: &[u64],
    queries: &[u64],
    sizes: &[u64],
) -> Result<(), Refusal>
    ensures { result ≡ write_check r chrom.now name.now targets.now queries.now sizes.now }
{
    let count = r.blockCount as usize;
    let rows = blocks::rows_of(targets, queries, sizes);
    let blocks = text::demand(
        rows_fit(r, targets, queries, sizes, count),
        Reason::BlockRules,
        Ok(()),
    );
    let spans = text::demand(spans_fit(r), Reason::SpanDisagrees, blocks);
    let numbers = text::demand(
        fields_fit(r) & blocks::row_numbers_fit(targets, queries, sizes, count),
        Reason::NumberOutOfRange,
        spans,
    );
    let words = text::demand(
        names_show(r, chrom, name) & strand_fits(r),
        Reason::BadWord,
        numbers,
    );
    text::demand(
        blocks::count_fits(r.blockCount, rows),
        Reason::BlockRules,
        words,
    )
}

// A record's columns as the line writer takes them: the names stand one after the other in their own text.
fn values_of(r: Bed, chrom: usize, name: usize) -> [u64; VALUES]
    ensures { result ≡ bed_values r chrom name }
{
    let strand = r.strand;
    let letter = strand.letter() as u64;
    [
        chrom as u64,
        0,
        r.chromStart,
        0,
        r.chromEnd,
        0,
        name as u64,
        ledger::NAME_LIMIT as u64,
        r.score,
        0,
        letter,
        0,
        r.thickStart,
        0,
        r.thickEnd,
        0,
        r.itemRgb,
        0,
        r.blockCount,
        0,
        r.blockCount,
        0,
        r.blockCount,
        0,
    ]
}

// The sizes, and the starts from chromStart on.
fn put_lists(r: Bed, targets: &[u64], sizes: &[u64], lists: &mut [u64])
    requires { RowsThere r targets.now sizes.now lists.old }
    ensures { ListsPut r targets.now sizes.now lists.new }
{
    let count = r.blockCount as usize;
    let b = BLOCKS;
    blocks::copy_numbers(sizes, count, lists);
    blocks::put_subtracted(targets, count, r.chromStart, &mut lists[b..]);
}

// Writes the standard text of a record that passed the checks.
fn write_text(
    r: Bed,
    chrom: &[u8],
    name: &[u8],
    targets: &[u64],
    sizes: &[u64],
    buf: &mut [u8],
) -> Result<usize, Refusal>
    requires { Writable r chrom.now name.now targets.now sizes.now }
    ensures { Wrote (bed_text r chrom.now name.now targets.now sizes.now)
        buf.old buf.new result }
{
    let mut names = columns::name_room();
    columns::put_names(chrom, name, &mut names);
    let mut lists = working_room();
    put_lists(r, targets, sizes, &mut lists);
    let values = values_of(r, chrom.len(), name.len());
    let table = BED;
    let n = r.words as usize;
    columns::write_line(buf, &table[..n], b'\t', &names, &values, &lists)
}

// THE WRITER: a record with its names and rows to the front of a buffer, or the first refusal in the writers' order, which
// leaves the buffer.
pub fn write_bed(
    r: Bed,
    chrom: &[u8],
    name: &[u8],
    targets: &[u64],
    queries: &[u64],
    sizes: &[u64],
    buf: &mut [u8],
) -> Result<usize, Refusal>
    ensures { BedWrote r chrom.now name.now targets.now queries.now
        sizes.now buf.old buf.new result }
{
    check_write(r, chrom, name, targets, queries, sizes)?;
    write_text(r, chrom, name, targets, sizes, buf)
}

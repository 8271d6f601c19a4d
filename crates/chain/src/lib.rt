// One chain: reader, text checker, record checker, writer, over three flat slices of blocks.
#![tactic(auto)]

ghost use Rattle.std.specs.Prelude.{◌≡◌, [], ◌∷◌, ◌+◌, ◌-◌, ◌*◌, ◌≤◌, ◌<◌, length, set, take, Ok, Err};
ghost use Rattle.ledger.specs.Limits.{block_limit};
ghost use Rattle.text.specs.Checks.{then_check};
ghost use Rattle.text.specs.Steps.{Staged};
ghost use Rattle.writing.specs.Puts.{Put};
ghost use Rattle.writing.specs.Answers.{Wrote};
ghost use Rattle.columns.specs.Lines.{fed_line};
ghost use Rattle.blocks.specs.Rules.{RowsInUse};
ghost use Rattle.chain.specs.Columns as column;
ghost use Rattle.chain.specs.Table.{block_columns};
ghost use Rattle.chain.specs.Records.{name_of, chain_record};
ghost use Rattle.chain.specs.Read.{
  span_check,
  is_block_count,
  limit_check,
  block_is,
  fill_check,
  after_last,
  after_lines,
  after_spans,
  after_columns,
  after_text,
  chain_stages,
  chain_check,
  Held,
  InRoom,
  ChainRead,
};
ghost use Rattle.chain.specs.Tests.{names_fit, size_fits, fields_fit, spans_fit, rows_fit, chain_valid};
ghost use Rattle.chain.specs.Write.{names_show, write_check, fed_words, gap_words, block_text, chain_text, ChainWrote, record_check};
ghost use Rattle.chain.specs.Steps.{
  line_check,
  LineCounted,
  NumbersRead,
  BlockRead,
  WordTaken,
  RestSeen,
  GapTaken,
  LastTaken,
  StepRead,
  Begins,
  Walked,
  Headed,
  HeadTaken,
  RowsStored,
  BlocksRead,
  chain_values,
  text_of,
  Writable,
};

use kinds::{Fixed, Kind, Range};
use ledger::{Fault, Part, Reason, Refusal, Strand};
use numbers::Taken;
use text::Class;

// The record of a chain. A name is a part of the text; with `-`, qStart and qEnd count on the reversed query.
#[derive(Clone, Copy)]
pub struct Chain {
    pub score: u64,
    pub tName: Part,
    pub tSize: u64,
    pub tStart: u64,
    pub tEnd: u64,
    pub qName: Part,
    pub qSize: u64,
    pub qStrand: Strand,
    pub qStart: u64,
    pub qEnd: u64,
    pub id: u64,
    pub blockCount: u64,
}

// One block line: the last one's size; or a size and the gaps after it on the target and on the query.
#[derive(Clone, Copy)]
pub enum BlockLine {
    Last(u64),
    Gap(u64, u64, u64),
}

// Where the block lines end: the last line's place, the number of blocks, and where the last block ends on either side.
#[derive(Clone, Copy)]
pub struct Ending {
    pub line: usize,
    pub count: u64,
    pub target: u64,
    pub query: u64,
}

// The columns of a header by number; specs/Columns.antt names the same.
const SCORE: usize = 1;

const T_NAME: usize = 2;

const T_SIZE: usize = 3;

const T_START: usize = 5;

const T_END: usize = 6;

const Q_NAME: usize = 7;

const Q_SIZE: usize = 8;

const Q_STRAND: usize = 9;

const Q_START: usize = 10;

const Q_END: usize = 11;

const ID: usize = 12;

const COLUMNS: usize = 13;

// The columns of a block line, of which the last one has the size alone.
const SIZE: usize = 0;

const DT: usize = 1;

const DQ: usize = 2;

const GAP_COLUMNS: usize = 3;

const LAST_COLUMNS: usize = 1;

// The kinds of specs/Table.antt's columns.
const CHAIN: [Kind; COLUMNS] = [
    Kind::Word(Fixed::Chain),
    Kind::Number(Range::ChainScore),
    Kind::Name,
    Kind::Number(Range::Size),
    Kind::Word(Fixed::Plus),
    Kind::Number(Range::Coordinate),
    Kind::Number(Range::Coordinate),
    Kind::Name,
    Kind::Number(Range::Size),
    Kind::Stranded(false),
    Kind::Number(Range::Coordinate),
    Kind::Number(Range::Coordinate),
    Kind::Number(Range::ChainId),
];

const BLOCK: [Kind; GAP_COLUMNS] = [
    Kind::Number(Range::Size),
    Kind::Number(Range::Coordinate),
    Kind::Number(Range::Coordinate),
];

// The name that column k says: where its word starts, and its length.
fn name_of(values: &[u64], k: usize) -> Part
    ensures { result ≡ name_of values.now k }
{
    Part::of_values(columns::place_of(values, k), columns::value_of(values, k))
}

// The record of a header, from its columns' values, with so many blocks.
fn record_of(values: &[u64], count: u64) -> Chain
    ensures { result ≡ chain_record values.now count }
{
    Chain {
        score: columns::value_of(values, SCORE),
        tName: name_of(values, T_NAME),
        tSize: columns::value_of(values, T_SIZE),
        tStart: columns::value_of(values, T_START),
        tEnd: columns::value_of(values, T_END),
        qName: name_of(values, Q_NAME),
        qSize: columns::value_of(values, Q_SIZE),
        qStrand: Strand::of_value(columns::value_of(values, Q_STRAND)),
        qStart: columns::value_of(values, Q_START),
        qEnd: columns::value_of(values, Q_END),
        id: columns::value_of(values, ID),
        blockCount: count,
    }
}

// The spans (7).
fn check_spans(r: Chain, values: &[u64]) -> Result<(), Fault>
    ensures { result ≡ span_check r values.now }
{
    let query = text::require(
        blocks::span_fits(r.qStart, r.qEnd, r.qSize),
        Reason::SpanDisagrees,
        columns::place_of(values, Q_END) as usize,
        Ok(()),
    );
    text::require(
        blocks::span_fits(r.tStart, r.tEnd, r.tSize),
        Reason::SpanDisagrees,
        columns::place_of(values, T_END) as usize,
        query,
    )
}

// Whether a block line may have so many words.
fn is_block_count(n: usize) -> bool
    ensures { result ≡ is_block_count n }
{
    (n == LAST_COLUMNS) | (n == GAP_COLUMNS)
}

// The limit (11), where so many blocks may still come.
fn check_limit(line: usize, left: u64) -> Result<(), Fault>
    ensures { result ≡ limit_check line left }
{
    if left == 0 {
        return Err(Fault {
            reason: Reason::NoRoom,
            place: line,
        });
    }
    Ok(())
}

// The first fault of two stages.
fn first_of(first: Result<(), Fault>, second: Result<(), Fault>) -> Result<(), Fault>
    ensures { result ≡ then_check Err first second }
{
    first?;
    second
}

// Before a block line is read: the limit (11), and only then its number of words (2).
fn check_line(text: &[u8], line: usize, n: usize, left: u64) -> Result<(), Fault>
    ensures { result ≡ line_check text.now line n left }
{
    let limit = check_limit(line, left);
    let words = text::check_words(text, line, n, GAP_COLUMNS, is_block_count(n));
    first_of(limit, words)
}

// The block that the values of a line of n words say.
fn block_of(values: &[u64], n: usize) -> Result<BlockLine, Fault>
    ensures { result ≡ block_is n values.now }
{
    let size = columns::value_of(values, SIZE);
    if n == LAST_COLUMNS {
        return Ok(BlockLine::Last(size));
    }
    Ok(BlockLine::Gap(
        size,
        columns::value_of(values, DT),
        columns::value_of(values, DQ),
    ))
}

// The columns of a block line of n words.
fn read_numbers(text: &[u8], line: usize, n: usize) -> Result<BlockLine, Fault>
    requires { LineCounted text.now line n }
    ensures { NumbersRead text.now line n result }
{
    let table = BLOCK;
    let mut values = [0u64; 2 * GAP_COLUMNS];
    let mut none = [0u64; 0];
    columns::walk_line(text, line, &table[..n], &mut values, &mut none)?;
    block_of(&values, n)
}

// The block line at a place, where so many blocks may still come.
fn read_block(text: &[u8], line: usize, left: u64) -> Result<BlockLine, Fault>
    ensures { BlockRead text.now line left result }
{
    let n = text::count_words(text, line);
    check_line(text, line, n, left)?;
    read_numbers(text, line, n)
}

// A number of at least so much, and at most a coordinate, in the word at or after a place.
fn take_number(text: &[u8], at: usize, least: u64) -> Option<Taken>
    ensures { WordTaken least text.now at result }
{
    let a = text::scan(text, at, Class::Blank);
    numbers::number_at(text, a, least, ledger::Position::LARGEST)
}

// Where the next line begins, if no word follows a place on its line.
fn rest_of(text: &[u8], at: usize) -> Option<usize>
    ensures { RestSeen text.now at result }
{
    let e = text::scan(text, at, Class::Blank);
    if text.len() <= e {
        return Some(e);
    }
    (text[e] == b'\n').then_some(e + 1)
}

// A block line with gaps, taken in one pass, and where the next line begins. Where none is taken, the line has to be read with
// more care.
#[derive(Clone, Copy)]
pub struct Quick {
    pub size: u64,
    pub dt: u64,
    pub dq: u64,
    pub next: usize,
}

fn quick_gap(text: &[u8], line: usize) -> Option<Quick>
    ensures { GapTaken text.now line result }
{
    let a = take_number(text, line, 1)?;
    let b = take_number(text, a.end, 0)?;
    let c = take_number(text, b.end, 0)?;
    let next = rest_of(text, c.end)?;
    Some(Quick {
        size: a.value,
        dt: b.value,
        dq: c.value,
        next,
    })
}

// The size of the last block line, taken in one pass.
fn quick_last(text: &[u8], line: usize) -> Option<u64>
    ensures { LastTaken text.now line result }
{
    let a = take_number(text, line, 1)?;
    rest_of(text, a.end)?;
    Some(a.value)
}

// A block line, and where the next line begins if one has to.
#[derive(Clone, Copy)]
pub struct Step {
    pub block: Result<BlockLine, Fault>,
    pub next: usize,
}

fn read_step(text: &[u8], line: usize, left: u64) -> Step
    ensures { StepRead text.now line left result }
{
    let block = read_block(text, line, left);
    let next = text::next_line(text, line);
    Step { block, next }
}

// The block line at a place, where so many blocks may still come: in one pass if it is a plain one.
fn take_step(text: &[u8], line: usize, left: u64) -> Step
    ensures { StepRead text.now line left result }
{
    if left < 1 {
        return read_step(text, line, left);
    }
    if let Some(x) = quick_gap(text, line) {
        let block = Ok(BlockLine::Gap(x.size, x.dt, x.dq));
        return Step {
            block,
            next: x.next,
        };
    }
    if let Some(size) = quick_last(text, line) {
        let block = Ok(BlockLine::Last(size));
        return Step { block, next: line };
    }
    read_step(text, line, left)
}

// Stores row i in the working room.
fn put_row(rows: &mut [u64], i: u64, t: u64, q: u64, z: u64)
    requires { i < block_limit }
    ensures { rows.new ≡ set (set (set rows.old i t) (block_limit + i) q) (2 * block_limit + i) z }
{
    let b = ledger::BLOCK_LIMIT as usize;
    let at = i as usize;
    numbers::store(rows, at, t);
    numbers::store(rows, b + at, q);
    numbers::store(rows, 2 * b + at, z);
}

// The block lines from the one at a place on, the first block starting at target and query: their rows to the working room.
fn walk_lines(
    text: &[u8],
    from: usize,
    target: u64,
    query: u64,
    rows: &mut [u64],
) -> Result<Ending, Fault>
    requires { Begins target query rows.old }
    ensures { Walked text.now from target query rows.old rows.new result }
{
    let mut line = from;
    let mut t = target;
    let mut q = query;
    let mut left = ledger::BLOCK_LIMIT;
    while line < text.len() {
        let step = take_step(text, line, left);
        let block = step.block?;
        match block {
            BlockLine::Last(z) => {
                put_row(rows, ledger::BLOCK_LIMIT - left, t, q, z);
                return Ok(Ending {
                    line,
                    count: ledger::BLOCK_LIMIT - (left - 1),
                    target: t + z,
                    query: q + z,
                });
            }
            BlockLine::Gap(z, dt, dq) => {
                put_row(rows, ledger::BLOCK_LIMIT - left, t, q, z);
                t = t + z + dt;
                q = q + z + dq;
                line = step.next;
            }
        }
        left -= 1;
    }
    Err(Fault {
        reason: Reason::WrongCount,
        place: text.len(),
    })
}

// The blocks (9).
fn check_fill(text: &[u8], r: Chain, e: Ending) -> Result<(), Fault>
    ensures { result ≡ fill_check text.now r e }
{
    let ends = (e.target == r.tEnd) & (e.query == r.qEnd);
    text::require(ends, Reason::BlockRules, text.len(), Ok(()))
}

// The record, and the blocks.
fn after_last(text: &[u8], values: &[u64], e: Ending) -> Result<Chain, Fault>
    ensures { result ≡ after_last text.now values.now e }
{
    let r = record_of(values, e.count);
    check_fill(text, r, e)?;
    Ok(r)
}

// A surplus line, and on.
fn after_lines(text: &[u8], values: &[u64], e: Ending) -> Result<Chain, Fault>
    ensures { result ≡ after_lines text.now values.now e }
{
    text::check_last_line(text, e.line)?;
    after_last(text, values, e)
}

// The block lines from the top, and on; the header ends on the line of a place.
fn after_spans(text: &[u8], end: usize, values: &[u64], rows: &mut [u64]) -> Result<Chain, Fault>
    requires { Headed text.now end values.now rows.old }
    ensures { Staged Ok (Held text.now) (after_spans text.now values.now) rows.new result }
{
    let first = text::next_line(text, end);
    let target = columns::value_of(values, T_START);
    let query = columns::value_of(values, Q_START);
    let e = walk_lines(text, first, target, query, rows)?;
    after_lines(text, values, e)
}

// The spans, and on.
fn after_columns(text: &[u8], end: usize, values: &[u64], rows: &mut [u64]) -> Result<Chain, Fault>
    requires { Headed text.now end values.now rows.old }
    ensures { Staged Ok (Held text.now) (after_columns text.now values.now) rows.new result }
{
    check_spans(record_of(values, 0), values)?;
    after_spans(text, end, values, rows)
}

// A header taken in one pass: its columns' values and places, and where its last word ends. Where none is taken, the header
// has to be read with more care.
#[derive(Clone, Copy)]
pub struct Head {
    pub values: [u64; 2 * COLUMNS],
    pub end: usize,
}

// The header in one pass; its words stand at w0 to w12.
fn quick_head(text: &[u8]) -> Option<Head>
    ensures { HeadTaken text.now result }
{
    let (word, w0) = columns::take_field(Kind::Word(Fixed::Chain), text, 0)?;
    let (score, w1) = columns::take_number(Range::ChainScore, text, w0.end)?;
    let (tName, w2) = columns::take_field(Kind::Name, text, w1.end)?;
    let (tSize, w3) = columns::take_number(Range::Size, text, w2.end)?;
    let (tStrand, w4) = columns::take_field(Kind::Word(Fixed::Plus), text, w3.end)?;
    let (tStart, w5) = columns::take_number(Range::Coordinate, text, w4.end)?;
    let (tEnd, w6) = columns::take_number(Range::Coordinate, text, w5.end)?;
    let (qName, w7) = columns::take_field(Kind::Name, text, w6.end)?;
    let (qSize, w8) = columns::take_number(Range::Size, text, w7.end)?;
    let (qStrand, w9) = columns::take_field(Kind::Stranded(false), text, w8.end)?;
    let (qStart, w10) = columns::take_number(Range::Coordinate, text, w9.end)?;
    let (qEnd, w11) = columns::take_number(Range::Coordinate, text, w10.end)?;
    let (id, w12) = columns::take_number(Range::ChainId, text, w11.end)?;
    rest_of(text, w12.end)?;
    let values = [
        word,
        w0.start as u64,
        score,
        w1.start as u64,
        tName,
        w2.start as u64,
        tSize,
        w3.start as u64,
        tStrand,
        w4.start as u64,
        tStart,
        w5.start as u64,
        tEnd,
        w6.start as u64,
        qName,
        w7.start as u64,
        qSize,
        w8.start as u64,
        qStrand,
        w9.start as u64,
        qStart,
        w10.start as u64,
        qEnd,
        w11.start as u64,
        id,
        w12.start as u64,
    ];
    Some(Head {
        values,
        end: w12.end,
    })
}

// The header's number of words, its columns from the left, and on.
fn after_text(text: &[u8], rows: &mut [u64]) -> Result<Chain, Fault>
    requires { length rows.old ≡ 3 * block_limit }
    ensures { Staged Ok (Held text.now) (after_text text.now) rows.new result }
{
    if let Some(q) = quick_head(text) {
        return after_columns(text, q.end, &q.values, rows);
    }
    let table = CHAIN;
    let mut values = [0u64; 2 * COLUMNS];
    let mut none = [0u64; 0];
    let e = columns::walk_words(text, &table, &mut values, &mut none)?;
    after_columns(text, e, &values, rows)
}

// All checks of a text, the rows of an accepted chain in the working room.
fn stage(text: &[u8], rows: &mut [u64]) -> Result<Chain, Fault>
    requires { length rows.old ≡ 3 * block_limit }
    ensures { Staged Ok (Held text.now) (chain_stages text.now) rows.new result }
{
    text::check_text(text)?;
    after_text(text, rows)
}

// THE TEXT CHECKER: what the reader answers, given room.
pub fn check_chain_text(text: &[u8]) -> Result<Chain, Refusal>
    ensures { result ≡ chain_check text.now }
{
    let mut rows = blocks::working_room();
    Ok(stage(text, &mut rows)?)
}

// The reader into working room for any record's blocks: targets, queries and sizes, each after the room for a record's
// blocks. In room of another length nothing is stored.
pub fn read_rows(text: &[u8], rows: &mut [u64]) -> Result<Chain, Refusal>
    ensures { InRoom text.now rows.old rows.new result }
{
    if rows.len() != blocks::ROOM {
        return check_chain_text(text);
    }
    Ok(stage(text, rows)?)
}

// The room (11), then the rows into the lent slices.
fn store_rows(
    text: &[u8],
    r: Chain,
    rows: &[u64],
    targets: &mut [u64],
    queries: &mut [u64],
    sizes: &mut [u64],
) -> Result<Chain, Fault>
    requires { Held text.now r rows.now }
    ensures { RowsStored text.now r targets.old targets.new queries.old
        queries.new sizes.old sizes.new result }
{
    let room = blocks::rows_of(targets, queries, sizes);
    let count = r.blockCount as usize;
    if room < count {
        return Err(Fault {
            reason: Reason::NoRoom,
            place: text.len(),
        });
    }
    let b = ledger::BLOCK_LIMIT as usize;
    let c = 2 * b;
    blocks::copy_numbers(rows, count, targets);
    blocks::copy_numbers(&rows[b..], count, queries);
    blocks::copy_numbers(&rows[c..], count, sizes);
    Ok(r)
}

// The checks, and the rows of a chain that passes them into the lent slices.
fn read_blocks(
    text: &[u8],
    targets: &mut [u64],
    queries: &mut [u64],
    sizes: &mut [u64],
) -> Result<Chain, Fault>
    ensures { BlocksRead text.now targets.old targets.new queries.old
        queries.new sizes.old sizes.new result }
{
    let mut rows = blocks::working_room();
    let r = stage(text, &mut rows)?;
    store_rows(text, r, &rows, targets, queries, sizes)
}

// THE READER: one chain, its blocks to the front of three lent slices. A refusal leaves them as they were, and rows past the
// blocks stay.
pub fn read_chain(
    text: &[u8],
    targets: &mut [u64],
    queries: &mut [u64],
    sizes: &mut [u64],
) -> Result<Chain, Refusal>
    ensures { ChainRead text.now targets.old targets.new queries.old
        queries.new sizes.old sizes.new result }
{
    Ok(read_blocks(text, targets, queries, sizes)?)
}

// The two names by their lengths.
fn names_fit(t: usize, q: usize) -> bool
    ensures { result ≡ names_fit t q }
{
    columns::length_fits(t) & columns::length_fits(q)
}

fn size_fits(n: u64) -> bool
    ensures { result ≡ size_fits n }
{
    (1 <= n) & (n <= ledger::Position::LARGEST)
}

// The numbers of the record.
fn fields_fit(r: Chain) -> bool
    ensures { result ≡ fields_fit r }
{
    let most = ledger::Position::LARGEST;
    (r.score <= ledger::CHAIN_SCORE_LIMIT)
        & (size_fits(r.tSize)
            & ((r.tStart <= most)
                & ((r.tEnd <= most)
                    & (size_fits(r.qSize)
                        & ((r.qStart <= most)
                            & ((r.qEnd <= most) & (r.id <= ledger::CHAIN_ID_LIMIT)))))))
}

fn spans_fit(r: Chain) -> bool
    ensures { result ≡ spans_fit r }
{
    blocks::span_fits(r.tStart, r.tEnd, r.tSize) & blocks::span_fits(r.qStart, r.qEnd, r.qSize)
}

// The blocks of the used rows.
fn rows_fit(r: Chain, targets: &[u64], queries: &[u64], sizes: &[u64], count: usize) -> bool
    ensures { result ≡ rows_fit r (take count targets.now) (take count queries.now) (take count sizes.now) }
{
    blocks::blocks_fill(targets, sizes, count, r.tStart, r.tEnd)
        & blocks::blocks_fill(queries, sizes, count, r.qStart, r.qEnd)
}

// All rules of a record with its rows.
fn record_fits(r: Chain, targets: &[u64], queries: &[u64], sizes: &[u64]) -> bool
    ensures { result ≡ chain_valid r targets.now queries.now sizes.now }
{
    let rows = blocks::rows_of(targets, queries, sizes);
    let count = r.blockCount as usize;
    let strand = r.qStrand;
    blocks::count_fits(r.blockCount, rows)
        & (names_fit(r.tName.length, r.qName.length)
            & (strand.is_told()
                & (fields_fit(r)
                    & (blocks::row_numbers_fit(targets, queries, sizes, count)
                        & (spans_fit(r) & rows_fit(r, targets, queries, sizes, count))))))
}

// THE RECORD CHECKER: a record with the first blockCount rows of three slices; any breach is 9.
pub fn check_chain(r: Chain, targets: &[u64], queries: &[u64], sizes: &[u64]) -> Result<(), Refusal>
    ensures { result ≡ record_check r targets.now queries.now sizes.now }
{
    text::demand(
        record_fits(r, targets, queries, sizes),
        Reason::BlockRules,
        Ok(()),
    )
}

// The names that are handed in.
fn names_show(tName: &[u8], qName: &[u8]) -> bool
    ensures { result ≡ names_show tName.now qName.now }
{
    names_fit(tName.len(), qName.len())
        & (columns::all_graphic(tName) & columns::all_graphic(qName))
}

// The writers' refusals in their order.
fn check_write(
    r: Chain,
    tName: &[u8],
    qName: &[u8],
    targets: &[u64],
    queries: &[u64],
    sizes: &[u64],
) -> Result<(), Refusal>
    ensures { result ≡ write_check r tName.now qName.now targets.now queries.now
        sizes.now }
{
    let count = r.blockCount as usize;
    let rows = blocks::rows_of(targets, queries, sizes);
    let strand = r.qStrand;
    let blocks = text::demand(
        rows_fit(r, targets, queries, sizes, count),
        Reason::BlockRules,
        Ok(()),
    );
    let spans = text::demand(spans_fit(r), Reason::SpanDisagrees, blocks);
    let numbers = text::demand(
        fields_fit(r) & blocks::row_numbers_fit(targets, queries, sizes, count),
        Reason::NumberOutOfRange,
        spans,
    );
    let words = text::demand(
        names_show(tName, qName) & strand.is_told(),
        Reason::BadWord,
        numbers,
    );
    text::demand(
        blocks::count_fits(r.blockCount, rows),
        Reason::BlockRules,
        words,
    )
}

// A header's columns as the line writer takes them: the names stand one after the other in their own text.
fn values_of(r: Chain, tName: usize, qName: usize) -> [u64; 2 * COLUMNS]
    ensures { result ≡ chain_values r tName qName }
{
    let strand = r.qStrand;
    let letter = strand.letter() as u64;
    [
        0,
        0,
        r.score,
        0,
        tName as u64,
        0,
        r.tSize,
        0,
        0,
        0,
        r.tStart,
        0,
        r.tEnd,
        0,
        qName as u64,
        ledger::NAME_LIMIT as u64,
        r.qSize,
        0,
        letter,
        0,
        r.qStart,
        0,
        r.qEnd,
        0,
        r.id,
        0,
    ]
}

// A block line of 3 words, or of 1.
fn put_block(buf: &mut [u8], at: usize, n: usize, z: u64, dt: u64, dq: u64) -> usize
    requires { n ≤ column.gap_count }
    ensures { Put (fed_line (take n block_columns) 32 [] (z ∷ 0 ∷ dt ∷ 0 ∷ dq ∷ 0 ∷ []) []) at buf.old
        buf.new result }
{
    let table = BLOCK;
    let values = [z, 0, dt, 0, dq, 0];
    let names = [0u8; 0];
    let lists = [0u64; 0];
    columns::put_line(buf, at, &table[..n], b' ', &names, &values, &lists)
}

// The line of row i, before another.
fn put_gap(
    buf: &mut [u8],
    at: usize,
    i: usize,
    targets: &[u64],
    queries: &[u64],
    sizes: &[u64],
) -> usize
    requires { i < block_limit }
    ensures { Put (fed_words (gap_words i targets.now queries.now sizes.now)) at buf.old
        buf.new result }
{
    let z = columns::value_at(sizes, i);
    let dt = blocks::gap_after(
        columns::value_at(targets, i),
        z,
        columns::value_at(targets, i + 1),
    );
    let dq = blocks::gap_after(
        columns::value_at(queries, i),
        z,
        columns::value_at(queries, i + 1),
    );
    put_block(buf, at, GAP_COLUMNS, z, dt, dq)
}

// The lines of the first so many rows.
fn put_blocks(
    buf: &mut [u8],
    at: usize,
    count: usize,
    targets: &[u64],
    queries: &[u64],
    sizes: &[u64],
) -> usize
    requires { RowsInUse count targets.now queries.now sizes.now }
    ensures { Put (block_text (count - 1) 0 targets.now queries.now sizes.now) at buf.old
        buf.new result }
{
    let last = count - 1;
    let mut p = at;
    for i in 0..last {
        p = put_gap(buf, p, i, targets, queries, sizes);
    }
    put_block(buf, p, LAST_COLUMNS, columns::value_at(sizes, last), 0, 0)
}

// The header's line, then the block lines.
fn put_text(
    buf: &mut [u8],
    names: &[u8],
    values: &[u64],
    count: usize,
    targets: &[u64],
    queries: &[u64],
    sizes: &[u64],
) -> usize
    requires { RowsInUse count targets.now queries.now sizes.now }
    ensures { Put (text_of names.now values.now count targets.now queries.now
        sizes.now) 0 buf.old buf.new result }
{
    let table = CHAIN;
    let lists = [0u64; 0];
    let p = columns::put_line(buf, 0, &table, b' ', names, values, &lists);
    put_blocks(buf, p, count, targets, queries, sizes)
}

// Writes the lines to the front of a buffer: a text over the text limit is refused (1), then one over the room (11).
fn write_lines(
    buf: &mut [u8],
    names: &[u8],
    values: &[u64],
    count: usize,
    targets: &[u64],
    queries: &[u64],
    sizes: &[u64],
) -> Result<usize, Refusal>
    requires { RowsInUse count targets.now queries.now sizes.now }
    ensures { Wrote (text_of names.now values.now count targets.now queries.now
        sizes.now) buf.old buf.new result }
{
    let mut none = [0u8; 0];
    let n = put_text(&mut none, names, values, count, targets, queries, sizes);
    writing::room_for(n, buf.len())?;
    Ok(put_text(buf, names, values, count, targets, queries, sizes))
}

// Writes the standard text of a record that passed the checks.
fn write_text(
    r: Chain,
    tName: &[u8],
    qName: &[u8],
    targets: &[u64],
    queries: &[u64],
    sizes: &[u64],
    buf: &mut [u8],
) -> Result<usize, Refusal>
    requires { Writable r tName.now qName.now targets.now queries.now sizes.now }
    ensures { Wrote (chain_text r tName.now qName.now targets.now queries.now
        sizes.now) buf.old buf.new result }
{
    let mut names = columns::name_room();
    columns::put_names(tName, qName, &mut names);
    let values = values_of(r, tName.len(), qName.len());
    let count = r.blockCount as usize;
    write_lines(buf, &names, &values, count, targets, queries, sizes)
}

// THE WRITER: a record with its names and rows to the front of a buffer, or the first refusal in the writers' order, which
// leaves the buffer.
pub fn write_chain(
    r: Chain,
    tName: &[u8],
    qName: &[u8],
    targets: &[u64],
    queries: &[u64],
    sizes: &[u64],
    buf: &mut [u8],
) -> Result<usize, Refusal>
    ensures { ChainWrote r tName.now qName.now targets.now queries.now
        sizes.now buf.old buf.new result }
{
    check_write(r, tName, qName, targets, queries, sizes)?;
    write_text(r, tName, qName, targets, queries, sizes, buf)
}

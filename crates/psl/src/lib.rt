// One PSL line: reader, text checker, record checker, writer, over three flat slices of blocks.
#![tactic(auto)]

ghost use Rattle.std.specs.Prelude.{◌≡◌, ◌*◌, ◌≤◌, length, take, Ok, Err};
ghost use Rattle.ledger.specs.Limits.{block_limit};
ghost use Rattle.text.specs.Checks.{then_check, room_check};
ghost use Rattle.text.specs.Steps.{Staged};
ghost use Rattle.writing.specs.Answers.{Wrote};
ghost use Rattle.columns.specs.Columns.{column_limit};
ghost use Rattle.blocks.specs.Blocks.{rows_of};
ghost use Rattle.psl.specs.Records.{counts_of, side_of, psl_record};
ghost use Rattle.psl.specs.Rows.{rows_fit, counts_fit};
ghost use Rattle.psl.specs.Tests.{side_fits, count_numbers_fit, fields_fit, spans_fit, psl_valid};
ghost use Rattle.psl.specs.Write.{words_show, numbers_check, write_check, psl_text, PslWrote, record_check};
ghost use Rattle.psl.specs.Read.{span_check, row_check, after_line, psl_stages, room_stages, psl_check, Listed, InRoom, PslRead};
ghost use Rattle.psl.specs.Steps.{CountsRange, Ready, RowsStored, head_fits, values_put, psl_values, RowsThere, ListsPut, Writable};

use kinds::{Kind, Range};
use ledger::{Fault, Part, Reason, Refusal, Strand};

// The eight counts of a PSL line.
#[derive(Clone, Copy)]
pub struct Counts {
    pub matches: u64,
    pub misMatches: u64,
    pub repMatches: u64,
    pub nCount: u64,
    pub qNumInsert: u64,
    pub qBaseInsert: u64,
    pub tNumInsert: u64,
    pub tBaseInsert: u64,
}

// One side: its sequence's name and size, and the span, which counts on the forward strand.
#[derive(Clone, Copy)]
pub struct Side {
    pub name: Part,
    pub size: u64,
    pub start: u64,
    pub end: u64,
}

// The record of a PSL line. A name is a part of the text; the strand is the query's.
#[derive(Clone, Copy)]
pub struct Psl {
    pub counts: Counts,
    pub strand: Strand,
    pub query: Side,
    pub target: Side,
    pub blockCount: u64,
}

// The columns by their numbers, as specs/Columns.antt has them.
const MATCHES: usize = 0;

const MIS_MATCHES: usize = 1;

const REP_MATCHES: usize = 2;

const N_COUNT: usize = 3;

const Q_NUM_INSERT: usize = 4;

const Q_BASE_INSERT: usize = 5;

const T_NUM_INSERT: usize = 6;

const T_BASE_INSERT: usize = 7;

const STRAND: usize = 8;

const Q_NAME: usize = 9;

const Q_END: usize = 12;

const T_NAME: usize = 13;

const T_END: usize = 16;

const BLOCK_COUNT: usize = 17;

// So many columns.
const COLUMNS: usize = 21;

// Their kinds, as specs/Table.antt has them.
const PSL: [Kind; COLUMNS] = [
    Kind::Number(Range::Coordinate),
    Kind::Number(Range::Coordinate),
    Kind::Number(Range::Coordinate),
    Kind::Number(Range::Coordinate),
    Kind::Number(Range::Coordinate),
    Kind::Number(Range::Coordinate),
    Kind::Number(Range::Coordinate),
    Kind::Number(Range::Coordinate),
    Kind::Stranded(false),
    Kind::Name,
    Kind::Number(Range::Size),
    Kind::Number(Range::Coordinate),
    Kind::Number(Range::Coordinate),
    Kind::Name,
    Kind::Number(Range::Size),
    Kind::Number(Range::Coordinate),
    Kind::Number(Range::Coordinate),
    Kind::Count,
    Kind::Items(Range::Size),
    Kind::Items(Range::Coordinate),
    Kind::Items(Range::Coordinate),
];

// The eight counts, from the columns' values.
fn counts_of(values: &[u64]) -> Counts
    ensures { result ≡ counts_of values.now }
{
    Counts {
        matches: columns::value_of(values, MATCHES),
        misMatches: columns::value_of(values, MIS_MATCHES),
        repMatches: columns::value_of(values, REP_MATCHES),
        nCount: columns::value_of(values, N_COUNT),
        qNumInsert: columns::value_of(values, Q_NUM_INSERT),
        qBaseInsert: columns::value_of(values, Q_BASE_INSERT),
        tNumInsert: columns::value_of(values, T_NUM_INSERT),
        tBaseInsert: columns::value_of(values, T_BASE_INSERT),
    }
}

// One side, from its name's column on: name, size, start, end.
fn side_of(values: &[u64], k: usize) -> Side
    requires { k ≤ column_limit }
    ensures { result ≡ side_of values.now k }
{
    Side {
        name: Part::of_values(columns::place_of(values, k), columns::value_of(values, k)),
        size: columns::value_of(values, k + 1),
        start: columns::value_of(values, k + 2),
        end: columns::value_of(values, k + 3),
    }
}

// The record, from the columns' values.
fn record_of(values: &[u64]) -> Psl
    ensures { result ≡ psl_record values.now }
{
    let counts = counts_of(values);
    let strand = Strand::of_value(columns::value_of(values, STRAND));
    let query = side_of(values, Q_NAME);
    let target = side_of(values, T_NAME);
    Psl {
        counts,
        strand,
        query,
        target,
        blockCount: columns::value_of(values, BLOCK_COUNT),
    }
}

// The spans (7): the query's, then the target's.
fn check_spans(r: Psl, values: &[u64]) -> Result<(), Fault>
    ensures { result ≡ span_check r values.now }
{
    let query = r.query;
    let target = r.target;
    let query_end = columns::place_of(values, Q_END) as usize;
    let target_end = columns::place_of(values, T_END) as usize;
    let last = text::require(
        blocks::span_fits(target.start, target.end, target.size),
        Reason::SpanDisagrees,
        target_end,
        Ok(()),
    );
    text::require(
        blocks::span_fits(query.start, query.end, query.size),
        Reason::SpanDisagrees,
        query_end,
        last,
    )
}

// The blocks of both sides, the query's as its strand counts.
fn rows_fit(r: Psl, targets: &[u64], queries: &[u64], sizes: &[u64], count: usize) -> bool
    ensures { result ≡ rows_fit r (take count targets.now) (take count queries.now)
        (take count sizes.now) }
{
    let strand = r.strand;
    let query = r.query;
    let target = r.target;
    let first = blocks::strand_start(strand, query.size, query.start, query.end);
    let last = blocks::strand_end(strand, query.size, query.start, query.end);
    blocks::blocks_fill(targets, sizes, count, target.start, target.end)
        & blocks::blocks_fill(queries, sizes, count, first, last)
}

// The house counts of the used rows.
fn counts_fit(c: Counts, targets: &[u64], queries: &[u64], sizes: &[u64], count: usize) -> bool
    requires { CountsRange c }
    ensures { result ≡ counts_fit c (take count targets.now) (take count queries.now)
        (take count sizes.now) }
{
    let bases = c.matches + c.misMatches + c.repMatches + c.nCount;
    (blocks::sum_of(sizes, count) == bases)
        & ((blocks::gap_count(queries, sizes, count) == c.qNumInsert)
            & ((blocks::gap_bases(queries, sizes, count) == c.qBaseInsert)
                & ((blocks::gap_count(targets, sizes, count) == c.tNumInsert)
                    & (blocks::gap_bases(targets, sizes, count) == c.tBaseInsert))))
}

// The blocks (9), then the counts (10), in the working room.
fn check_rows(text: &[u8], r: Psl, lists: &[u64]) -> Result<(), Fault>
    requires { Ready text.now r lists.now }
    ensures { result ≡ row_check text.now r }
{
    let b = ledger::BLOCK_LIMIT as usize;
    let d = 2 * b;
    let count = r.blockCount as usize;
    let counts = r.counts;
    let targets = &lists[d..];
    let queries = &lists[b..];
    let last = text::require(
        counts_fit(counts, targets, queries, lists, count),
        Reason::CountsDisagree,
        text.len(),
        Ok(()),
    );
    text::require(
        rows_fit(r, targets, queries, lists, count),
        Reason::BlockRules,
        text.len(),
        last,
    )
}

// The spans, the blocks and the counts, and the record.
fn after_line(text: &[u8], values: &[u64], lists: &[u64]) -> Result<Psl, Fault>
    requires { Ready text.now (psl_record values.now) lists.now }
    ensures { result ≡ after_line text.now values.now }
{
    let r = record_of(values);
    check_spans(r, values)?;
    check_rows(text, r, lists)?;
    Ok(r)
}

// All checks of a text, the blocks of a good line in the working room.
fn stage(text: &[u8], lists: &mut [u64]) -> Result<Psl, Fault>
    requires { length lists.old ≡ 3 * block_limit }
    ensures { Staged Ok (Listed text.now) (psl_stages text.now) lists.new result }
{
    let table = PSL;
    let mut values = [0u64; 2 * COLUMNS];
    columns::walk_text(text, &table, &mut values, lists)?;
    after_line(text, &values, lists)
}

// THE TEXT CHECKER: what the reader answers, given room.
pub fn check_psl_text(text: &[u8]) -> Result<Psl, Refusal>
    ensures { result ≡ psl_check text.now }
{
    let mut lists = blocks::working_room();
    Ok(stage(text, &mut lists)?)
}

// The reader into working room for any record's blocks: sizes, queries and targets, each after the room for a record's
// blocks. In room of another length nothing is stored.
pub fn read_lists(text: &[u8], lists: &mut [u64]) -> Result<Psl, Refusal>
    ensures { InRoom text.now lists.old lists.new result }
{
    if lists.len() != blocks::ROOM {
        return check_psl_text(text);
    }
    Ok(stage(text, lists)?)
}

// The room (11), then the rows into the lent slices.
fn store_rows(
    text: &[u8],
    r: Psl,
    lists: &[u64],
    targets: &mut [u64],
    queries: &mut [u64],
    sizes: &mut [u64],
) -> Result<Psl, Fault>
    requires { Listed text.now r lists.now }
    ensures { RowsStored (then_check Err (room_check text.now r.blockCount (rows_of
        targets.old queries.old sizes.old)) (Ok r)) text.now
        targets.old targets.new queries.old queries.new sizes.old
        sizes.new result }
{
    let room = blocks::rows_of(targets, queries, sizes);
    let count = r.blockCount as usize;
    if room < count {
        return Err(Fault {
            reason: Reason::NoRoom,
            place: text.len(),
        });
    }
    let b = ledger::BLOCK_LIMIT as usize;
    let d = 2 * b;
    blocks::copy_numbers(&lists[d..], count, targets);
    blocks::copy_numbers(&lists[b..], count, queries);
    blocks::copy_numbers(lists, count, sizes);
    Ok(r)
}

// All checks of a text, the room last, and the rows of a good line.
fn read_rows(
    text: &[u8],
    targets: &mut [u64],
    queries: &mut [u64],
    sizes: &mut [u64],
) -> Result<Psl, Fault>
    ensures { RowsStored (room_stages text.now (rows_of targets.old
        queries.old sizes.old)) text.now
        targets.old targets.new queries.old queries.new sizes.old
        sizes.new result }
{
    let mut lists = blocks::working_room();
    let r = stage(text, &mut lists)?;
    store_rows(text, r, &lists, targets, queries, sizes)
}

// THE READER: one PSL line, its blocks to the front of three lent slices. A refusal leaves them as they were, and rows past the
// blocks stay.
pub fn read_psl(
    text: &[u8],
    targets: &mut [u64],
    queries: &mut [u64],
    sizes: &mut [u64],
) -> Result<Psl, Refusal>
    ensures { PslRead text.now targets.old targets.new queries.old
        queries.new sizes.old sizes.new result }
{
    Ok(read_rows(text, targets, queries, sizes)?)
}

// The numbers of a side.
fn side_fits(x: Side) -> bool
    ensures { result ≡ side_fits x }
{
    let most = ledger::Position::LARGEST;
    ((1 <= x.size) & (x.size <= most)) & ((x.start <= most) & (x.end <= most))
}

// The counts as numbers.
fn count_numbers_fit(c: Counts) -> bool
    ensures { result ≡ count_numbers_fit c }
{
    let most = ledger::Position::LARGEST;
    (c.matches <= most)
        & ((c.misMatches <= most)
            & ((c.repMatches <= most)
                & ((c.nCount <= most)
                    & ((c.qNumInsert <= most)
                        & ((c.qBaseInsert <= most)
                            & ((c.tNumInsert <= most) & (c.tBaseInsert <= most)))))))
}

// The numbers of the record.
fn fields_fit(r: Psl) -> bool
    ensures { result ≡ fields_fit r }
{
    let counts = r.counts;
    let query = r.query;
    let target = r.target;
    count_numbers_fit(counts) & (side_fits(query) & side_fits(target))
}

fn spans_fit(r: Psl) -> bool
    ensures { result ≡ spans_fit r }
{
    let query = r.query;
    let target = r.target;
    blocks::span_fits(query.start, query.end, query.size)
        & blocks::span_fits(target.start, target.end, target.size)
}

// The count of blocks, the names by length, the strand, and the numbers of the record.
fn head_fits(r: Psl, rows: usize) -> bool
    ensures { result ≡ head_fits r rows }
{
    let query = r.query;
    let target = r.target;
    let strand = r.strand;
    let q = query.name;
    let t = target.name;
    blocks::count_fits(r.blockCount, rows)
        & ((columns::length_fits(q.length) & (columns::length_fits(t.length) & strand.is_told()))
            & fields_fit(r))
}

// All rules of a record with its rows.
fn record_fits(r: Psl, targets: &[u64], queries: &[u64], sizes: &[u64]) -> bool
    ensures { result ≡ psl_valid r targets.now queries.now sizes.now }
{
    let rows = blocks::rows_of(targets, queries, sizes);
    if !head_fits(r, rows) {
        return false;
    }
    let count = r.blockCount as usize;
    let counts = r.counts;
    blocks::row_numbers_fit(targets, queries, sizes, count)
        & (spans_fit(r)
            & (rows_fit(r, targets, queries, sizes, count)
                & counts_fit(counts, targets, queries, sizes, count)))
}

// THE RECORD CHECKER: a record with the first blockCount rows of three slices; any breach is 9.
pub fn check_psl(r: Psl, targets: &[u64], queries: &[u64], sizes: &[u64]) -> Result<(), Refusal>
    ensures { result ≡ record_check r targets.now queries.now sizes.now }
{
    text::demand(
        record_fits(r, targets, queries, sizes),
        Reason::BlockRules,
        Ok(()),
    )
}

// The names that are handed in, and the strand.
fn words_show(r: Psl, query: &[u8], target: &[u8]) -> bool
    ensures { result ≡ words_show r query.now target.now }
{
    let strand = r.strand;
    (columns::length_fits(query.len()) & (columns::length_fits(target.len()) & strand.is_told()))
        & (columns::all_graphic(query) & columns::all_graphic(target))
}

// The numbers (5), a row's too, then the spans (7), the blocks (9) and the counts (10).
fn check_numbers(r: Psl, targets: &[u64], queries: &[u64], sizes: &[u64]) -> Result<(), Refusal>
    ensures { result ≡ numbers_check r targets.now queries.now sizes.now }
{
    if !fields_fit(r) {
        return Err(Refusal::without_text(Reason::NumberOutOfRange));
    }
    let count = r.blockCount as usize;
    let counts = r.counts;
    let last = text::demand(
        counts_fit(counts, targets, queries, sizes, count),
        Reason::CountsDisagree,
        Ok(()),
    );
    let blocks = text::demand(
        rows_fit(r, targets, queries, sizes, count),
        Reason::BlockRules,
        last,
    );
    let spans = text::demand(spans_fit(r), Reason::SpanDisagrees, blocks);
    text::demand(
        blocks::row_numbers_fit(targets, queries, sizes, count),
        Reason::NumberOutOfRange,
        spans,
    )
}

// The writers' refusals in their order.
fn check_write(
    r: Psl,
    query: &[u8],
    target: &[u8],
    targets: &[u64],
    queries: &[u64],
    sizes: &[u64],
) -> Result<(), Refusal>
    ensures { result ≡ write_check r query.now target.now targets.now
        queries.now sizes.now }
{
    let rows = blocks::rows_of(targets, queries, sizes);
    let numbers = check_numbers(r, targets, queries, sizes);
    let words = text::demand(words_show(r, query, target), Reason::BadWord, numbers);
    text::demand(
        blocks::count_fits(r.blockCount, rows),
        Reason::BlockRules,
        words,
    )
}

// The sizes, the query starts and the target starts, as the line writer takes them.
fn put_lists(count: usize, targets: &[u64], queries: &[u64], sizes: &[u64], lists: &mut [u64])
    requires { RowsThere count targets.now queries.now sizes.now lists.old }
    ensures { ListsPut count targets.now queries.now sizes.now lists.new }
{
    let b = ledger::BLOCK_LIMIT as usize;
    let d = 2 * b;
    blocks::copy_numbers(sizes, count, lists);
    blocks::copy_numbers(queries, count, &mut lists[b..]);
    blocks::copy_numbers(targets, count, &mut lists[d..]);
}

// The columns' values, each at its column's place of two numbers.
fn put_values(values: &[u64], out: &mut [u64])
    requires { length values.now ≤ column_limit }
    ensures { out.new ≡ values_put out.old 0 values.now }
{
    for (k, v) in values.iter().enumerate() {
        numbers::store(out, 2 * k, *v);
    }
}

// A record's columns as the line writer takes them: the names stand one after the other in their own text.
fn values_of(r: Psl, query: usize, target: usize) -> [u64; 2 * COLUMNS]
    ensures { result ≡ psl_values r query target }
{
    let c = r.counts;
    let q = r.query;
    let t = r.target;
    let strand = r.strand;
    let n = r.blockCount;
    let by_column = [
        c.matches,
        c.misMatches,
        c.repMatches,
        c.nCount,
        c.qNumInsert,
        c.qBaseInsert,
        c.tNumInsert,
        c.tBaseInsert,
        strand.letter() as u64,
        query as u64,
        q.size,
        q.start,
        q.end,
        target as u64,
        t.size,
        t.start,
        t.end,
        n,
        n,
        n,
        n,
    ];
    let mut values = [0u64; 2 * COLUMNS];
    put_values(&by_column, &mut values);
    values[2 * T_NAME + 1] = ledger::NAME_LIMIT as u64;
    values
}

// Writes the standard text of a record that passed the checks.
fn write_text(
    r: Psl,
    query: &[u8],
    target: &[u8],
    targets: &[u64],
    queries: &[u64],
    sizes: &[u64],
    buf: &mut [u8],
) -> Result<usize, Refusal>
    requires { Writable r query.now target.now targets.now queries.now sizes.now }
    ensures { Wrote (psl_text r query.now target.now targets.now
        queries.now sizes.now) buf.old buf.new result }
{
    let mut names = columns::name_room();
    columns::put_names(query, target, &mut names);
    let mut lists = blocks::working_room();
    put_lists(r.blockCount as usize, targets, queries, sizes, &mut lists);
    let values = values_of(r, query.len(), target.len());
    let table = PSL;
    columns::write_line(buf, &table, b'\t', &names, &values, &lists)
}

// THE WRITER: a record with its names and rows to the front of a buffer, or the first refusal in the writers' order, which
// leaves the buffer.
pub fn write_psl(
    r: Psl,
    query: &[u8],
    target: &[u8],
    targets: &[u64],
    queries: &[u64],
    sizes: &[u64],
    buf: &mut [u8],
) -> Result<usize, Refusal>
    ensures { PslWrote r query.now target.now targets.now queries.now
        sizes.now buf.old buf.new result }
{
    check_write(r, query, target, targets, queries, sizes)?;
    write_text(r, query, target, targets, queries, sizes, buf)
}

// The desk's entries (docs/DESK.md): the library for a program in another language, on numbers and byte slices.
#![tactic(auto)]

ghost use Rattle.std.specs.Prelude.{◌≡◌, List, ◌++◌, ℕ, ◌+◌, ◌*◌, ◌≤◌, pos, ◌-ℤ◌, length, take, drop};
ghost use Rattle.ledger.specs.Limits.{block_limit};
ghost use Rattle.blocks.specs.Rows.{table_of};
ghost use Rattle.columns.specs.Columns.{few_blocks};
ghost use Rattle.lift.specs.Accepted.{Wide};
ghost use Rattle.region.specs.Tallies.{tally_step};
ghost use Rattle.writing.specs.Puts.{Put};
ghost use Rattle.answers.specs.Answers.{no_room_at, refusal_code, Answered, recorded};
ghost use Rattle.entries.specs.Records.{bed_numbers, psl_numbers, chain_numbers, Staging, BedStaged, PslStaged, ChainStaged, TurnStaged};
ghost use Rattle.entries.specs.Entries.{checked_bed, checked_psl, checked_chain, checked, parsed_bed, parsed_psl, parsed_chain, parsed, converted_numbers, at_end, written, copied, bed_written, psl_written, chain_written, formatted_bed, formatted_psl, formatted_chain, formatted, in_word, position_lifted, region_lifted, tally_in, tally_bytes, of_tallied, tally_outcome, TallyRoom, tallied, tally_kept, BatchTold, turn_written, turned_text, numbers_given};

use bed::Bed;
use chain::Chain;
use ledger::{Reason, Refusal};
use psl::Psl;
use region::{Region, Tally};

// Room for one number of each of a record's blocks.
const ROWS: usize = ledger::BLOCK_LIMIT as usize;

fn row_room() -> [u64; ROWS]
    ensures { length result ≡ block_limit }
{
    [0; ROWS]
}

fn few_rows() -> [u64; columns::FEW]
    ensures { length result ≡ few_blocks }
{
    [0; columns::FEW]
}

// The readers into room for any record's blocks.
fn stage_bed(
    text: &[u8],
    targets: &mut [u64],
    queries: &mut [u64],
    sizes: &mut [u64],
) -> Result<Bed, Refusal>
    requires { Staging targets.old queries.old sizes.old }
    ensures { BedStaged text.now targets.new queries.new sizes.new result }
{
    bed::read_bed(text, targets, queries, sizes)
}

fn stage_psl(
    text: &[u8],
    targets: &mut [u64],
    queries: &mut [u64],
    sizes: &mut [u64],
) -> Result<Psl, Refusal>
    requires { Staging targets.old queries.old sizes.old }
    ensures { PslStaged text.now targets.new queries.new sizes.new result }
{
    psl::read_psl(text, targets, queries, sizes)
}

fn stage_chain(
    text: &[u8],
    targets: &mut [u64],
    queries: &mut [u64],
    sizes: &mut [u64],
) -> Result<Chain, Refusal>
    requires { Staging targets.old queries.old sizes.old }
    ensures { ChainStaged text.now targets.new queries.new sizes.new result }
{
    chain::read_chain(text, targets, queries, sizes)
}

// The numbers of a record before its rows.
fn bed_fields(r: Bed) -> [u64; 13]
    ensures { result ≡ bed_numbers r }
{
    let strand = r.strand;
    let letter = strand.letter() as u64;
    [
        r.words,
        r.chrom.start as u64,
        r.chrom.length as u64,
        r.chromStart,
        r.chromEnd,
        r.name.start as u64,
        r.name.length as u64,
        r.score,
        letter,
        r.thickStart,
        r.thickEnd,
        r.itemRgb,
        r.blockCount,
    ]
}

fn psl_fields(r: Psl) -> [u64; 20]
    ensures { result ≡ psl_numbers r }
{
    let strand = r.strand;
    let letter = strand.letter() as u64;
    [
        r.counts.matches,
        r.counts.misMatches,
        r.counts.repMatches,
        r.counts.nCount,
        r.counts.qNumInsert,
        r.counts.qBaseInsert,
        r.counts.tNumInsert,
        r.counts.tBaseInsert,
        letter,
        r.query.name.start as u64,
        r.query.name.length as u64,
        r.query.size,
        r.query.start,
        r.query.end,
        r.target.name.start as u64,
        r.target.name.length as u64,
        r.target.size,
        r.target.start,
        r.target.end,
        r.blockCount,
    ]
}

fn chain_fields(r: Chain) -> [u64; 14]
    ensures { result ≡ chain_numbers r }
{
    let strand = r.qStrand;
    let letter = strand.letter() as u64;
    [
        r.score,
        r.tName.start as u64,
        r.tName.length as u64,
        r.tSize,
        r.tStart,
        r.tEnd,
        r.qName.start as u64,
        r.qName.length as u64,
        r.qSize,
        letter,
        r.qStart,
        r.qEnd,
        r.id,
        r.blockCount,
    ]
}

// Whether a text of a kind is accepted.
fn check_bed(text: &[u8]) -> u64
    ensures { result ≡ (checked_bed text.now).answer }
{
    match bed::check_bed_text(text) {
        Err(x) => answers::refusal_code(x),
        Ok(r) => answers::told_as(r.blockCount),
    }
}

fn check_psl(text: &[u8]) -> u64
    ensures { result ≡ (checked_psl text.now).answer }
{
    match psl::check_psl_text(text) {
        Err(x) => answers::refusal_code(x),
        Ok(r) => answers::told_as(r.blockCount),
    }
}

fn check_chain(text: &[u8]) -> u64
    ensures { result ≡ (checked_chain text.now).answer }
{
    match chain::check_chain_text(text) {
        Err(x) => answers::refusal_code(x),
        Ok(r) => answers::told_as(r.blockCount),
    }
}

// Whether a text is accepted.
pub fn check(kind: u64, text: &[u8]) -> u64
    ensures { result ≡ (checked kind text.now).answer }
{
    match kind {
        1 => check_bed(text),
        2 => check_psl(text),
        3 => check_chain(text),
        _ => answers::refused_by(Reason::BadWord),
    }
}

// The numbers of a text of one line.
pub fn numbers(text: &[u8], out: &mut [u8]) -> u64
    ensures { Answered (numbers_given text.now (length out.old))
        out.old out.new result }
{
    match number_line::read_numbers(text, out) {
        Err(x) => answers::refusal_code(x),
        Ok(count) => answers::told_as(count as u64),
    }
}

// Start and end on the other strand.
pub fn convert(start: u64, end: u64, size: u64, out: &mut [u8]) -> u64
    ensures { Answered (converted_numbers start end size (length out.old))
        out.old out.new result }
{
    match lift::convert(start, end, size) {
        Err(x) => answers::refusal_code(x),
        Ok(x) => {
            let numbers = [x.start, x.end];
            answers::answer_without_text(&numbers, out)
        }
    }
}

// A record's numbers and its rows, from the working room of a chain's reader, and from that of PSL's, whose lists stand
// the other way round.
fn answer_rows(end: usize, fields: &[u64], rows: &[u64], n: usize, out: &mut [u8]) -> u64
    requires { length rows.now ≡ 3 * block_limit }
    ensures { Answered (recorded (no_room_at end) (length out.old) fields.now (take n (table_of (take block_limit
        rows.now) (take block_limit (drop block_limit rows.now)) (take block_limit (drop (2 * block_limit)
        rows.now))))) out.old out.new result }
{
    let b = ROWS;
    let d = 2 * ROWS;
    let e = 3 * ROWS;
    answers::answer_record(end, fields, &rows[..b], &rows[b..d], &rows[d..e], n, out)
}

fn answer_lists(end: usize, fields: &[u64], lists: &[u64], n: usize, out: &mut [u8]) -> u64
    requires { length lists.now ≡ 3 * block_limit }
    ensures { Answered (recorded (no_room_at end) (length out.old) fields.now (take n (table_of (take block_limit
        (drop (2 * block_limit) lists.now)) (take block_limit (drop block_limit lists.now)) (take block_limit
        lists.now)))) out.old out.new result }
{
    let b = ROWS;
    let d = 2 * ROWS;
    let e = 3 * ROWS;
    answers::answer_record(end, fields, &lists[d..e], &lists[b..d], &lists[..b], n, out)
}

// The record of a BED text and its rows, as numbers, by way of room for any record's blocks.
fn parse_long_bed(text: &[u8], out: &mut [u8]) -> u64
    ensures { Answered (parsed_bed text.now (length out.old))
        out.old out.new result }
{
    let mut targets = row_room();
    let mut queries = row_room();
    let mut sizes = row_room();
    match stage_bed(text, &mut targets, &mut queries, &mut sizes) {
        Err(x) => answers::refusal_code(x),
        Ok(r) => {
            let fields = bed_fields(r);
            let n = r.blockCount as usize;
            answers::answer_record(text.len(), &fields, &targets, &queries, &sizes, n, out)
        }
    }
}

// The same by way of room for few blocks: a text that does not fit there, or is refused, goes the long way.
fn parse_short_bed(text: &[u8], out: &mut [u8]) -> u64
    ensures { Answered (parsed_bed text.now (length out.old))
        out.old out.new result }
{
    let mut targets = few_rows();
    let mut queries = few_rows();
    let mut sizes = few_rows();
    match bed::read_bed(text, &mut targets, &mut queries, &mut sizes) {
        Err(_) => parse_long_bed(text, out),
        Ok(r) => {
            let fields = bed_fields(r);
            let n = r.blockCount as usize;
            answers::answer_record(text.len(), &fields, &targets, &queries, &sizes, n, out)
        }
    }
}

// The record of a text of a kind and its rows, as numbers.
fn parse_bed(text: &[u8], out: &mut [u8]) -> u64
    ensures { Answered (parsed_bed text.now (length out.old))
        out.old out.new result }
{
    if bed::LONG < text.len() {
        return parse_long_bed(text, out);
    }
    parse_short_bed(text, out)
}

fn parse_psl(text: &[u8], out: &mut [u8]) -> u64
    ensures { Answered (parsed_psl text.now (length out.old))
        out.old out.new result }
{
    let mut lists = blocks::working_room();
    match psl::read_lists(text, &mut lists) {
        Err(x) => answers::refusal_code(x),
        Ok(r) => {
            let fields = psl_fields(r);
            let n = r.blockCount as usize;
            answer_lists(text.len(), &fields, &lists, n, out)
        }
    }
}

fn parse_chain(text: &[u8], out: &mut [u8]) -> u64
    ensures { Answered (parsed_chain text.now (length out.old))
        out.old out.new result }
{
    let mut rows = blocks::working_room();
    match chain::read_rows(text, &mut rows) {
        Err(x) => answers::refusal_code(x),
        Ok(r) => {
            let fields = chain_fields(r);
            let n = r.blockCount as usize;
            answer_rows(text.len(), &fields, &rows, n, out)
        }
    }
}

// The record of a text and its rows, as numbers.
pub fn parse(kind: u64, text: &[u8], out: &mut [u8]) -> u64
    ensures { Answered (parsed kind text.now (length out.old))
        out.old out.new result }
{
    match kind {
        1 => parse_bed(text, out),
        2 => parse_psl(text, out),
        3 => parse_chain(text, out),
        _ => answers::refused_by(Reason::BadWord),
    }
}

// A writer's refusal: its want of room stands at the text's end.
fn refused_at_end(end: usize, x: Refusal) -> u64
    ensures { result ≡ refusal_code (at_end end x) }
{
    let reason = x.reason;
    let room = Reason::NoRoom;
    if reason.number() == room.number() {
        return answers::refused_at(Reason::NoRoom, end);
    }
    answers::refusal_code(x)
}

// A writer's answer: its want of room stands at the text's end.
fn written_code(end: usize, answer: Result<usize, Refusal>) -> u64
    ensures { (bytes : List ℕ) → result ≡ (written end answer bytes).answer }
{
    match answer {
        Ok(n) => answers::told_as(n as u64),
        Err(x) => refused_at_end(end, x),
    }
}

// The standard text of a record with its first blockCount rows; the names stand in the text that was read.
fn write_bed(
    text: &[u8],
    r: Bed,
    targets: &[u64],
    queries: &[u64],
    sizes: &[u64],
    out: &mut [u8],
) -> u64
    requires { Wide r.blockCount targets.now queries.now sizes.now }
    ensures { Answered (bed_written text.now r (take r.blockCount targets.now) (take r.blockCount
        queries.now) (take r.blockCount sizes.now) (length out.old))
        out.old out.new result }
{
    let n = r.blockCount as usize;
    let chrom = text::name_in(text, r.chrom);
    let name = text::name_in(text, r.name);
    let answer = bed::write_bed(
        r,
        chrom,
        name,
        &targets[..n],
        &queries[..n],
        &sizes[..n],
        out,
    );
    written_code(text.len(), answer)
}

// The standard text of a BED text, from its record and rows.
fn format_long_bed(text: &[u8], out: &mut [u8]) -> u64
    ensures { Answered (formatted_bed text.now (length out.old))
        out.old out.new result }
{
    let mut targets = row_room();
    let mut queries = row_room();
    let mut sizes = row_room();
    match stage_bed(text, &mut targets, &mut queries, &mut sizes) {
        Err(x) => answers::refusal_code(x),
        Ok(r) => write_bed(text, r, &targets, &queries, &sizes, out),
    }
}

// A text's line as it stands, and a feed.
fn copy_line(text: &[u8], out: &mut [u8]) -> u64
    ensures { Answered (copied text.now (length out.old))
        out.old out.new result }
{
    let e = text::line_end(text, 0);
    let answer = writing::write_fed(out, &text[..e]);
    written_code(text.len(), answer)
}

// The standard text of a text of a kind.
fn format_bed(text: &[u8], out: &mut [u8]) -> u64
    ensures { Answered (formatted_bed text.now (length out.old))
        out.old out.new result }
{
    if bed::is_standard(text) {
        return copy_line(text, out);
    }
    format_long_bed(text, out)
}

fn write_psl(
    text: &[u8],
    r: Psl,
    targets: &[u64],
    queries: &[u64],
    sizes: &[u64],
    out: &mut [u8],
) -> u64
    requires { Wide r.blockCount targets.now queries.now sizes.now }
    ensures { Answered (psl_written text.now r (take r.blockCount targets.now) (take r.blockCount
        queries.now) (take r.blockCount sizes.now) (length out.old))
        out.old out.new result }
{
    let n = r.blockCount as usize;
    let query = text::name_in(text, r.query.name);
    let target = text::name_in(text, r.target.name);
    let answer = psl::write_psl(
        r,
        query,
        target,
        &targets[..n],
        &queries[..n],
        &sizes[..n],
        out,
    );
    written_code(text.len(), answer)
}

fn format_psl(text: &[u8], out: &mut [u8]) -> u64
    ensures { Answered (formatted_psl text.now (length out.old))
        out.old out.new result }
{
    let mut targets = row_room();
    let mut queries = row_room();
    let mut sizes = row_room();
    match stage_psl(text, &mut targets, &mut queries, &mut sizes) {
        Err(x) => answers::refusal_code(x),
        Ok(r) => write_psl(text, r, &targets, &queries, &sizes, out),
    }
}

fn write_chain(
    text: &[u8],
    r: Chain,
    targets: &[u64],
    queries: &[u64],
    sizes: &[u64],
    out: &mut [u8],
) -> u64
    requires { Wide r.blockCount targets.now queries.now sizes.now }
    ensures { Answered (chain_written text.now r (take r.blockCount targets.now) (take r.blockCount
        queries.now) (take r.blockCount sizes.now) (length out.old))
        out.old out.new result }
{
    let n = r.blockCount as usize;
    let target = text::name_in(text, r.tName);
    let query = text::name_in(text, r.qName);
    let answer = chain::write_chain(
        r,
        target,
        query,
        &targets[..n],
        &queries[..n],
        &sizes[..n],
        out,
    );
    written_code(text.len(), answer)
}

fn format_chain(text: &[u8], out: &mut [u8]) -> u64
    ensures { Answered (formatted_chain text.now (length out.old))
        out.old out.new result }
{
    let mut targets = row_room();
    let mut queries = row_room();
    let mut sizes = row_room();
    match stage_chain(text, &mut targets, &mut queries, &mut sizes) {
        Err(x) => answers::refusal_code(x),
        Ok(r) => write_chain(text, r, &targets, &queries, &sizes, out),
    }
}

// The standard text of what was read.
pub fn format(kind: u64, text: &[u8], out: &mut [u8]) -> u64
    ensures { Answered (formatted kind text.now (length out.old))
        out.old out.new result }
{
    match kind {
        1 => format_bed(text, out),
        2 => format_psl(text, out),
        3 => format_chain(text, out),
        _ => answers::refused_by(Reason::BadWord),
    }
}

// Partner minus position in a word; a negative number as its two's complement.
fn drift_word(position: u64, partner: u64) -> u64
    ensures { result ≡ in_word (pos partner -ℤ pos position) }
{
    if partner < position {
        return ledger::LARGEST_NUMBER - (position - partner) + 1;
    }
    partner - position
}

// The partner and the drift of a position.
pub fn lift_position(text: &[u8], position: u64, out: &mut [u8]) -> u64
    ensures { Answered (position_lifted text.now position (length out.old))
        out.old out.new result }
{
    match lift::position_text(text, position) {
        Err(x) => answers::refusal_code(x),
        Ok((partner, _)) => {
            let numbers = [partner, drift_word(position, partner)];
            answers::answer_numbers(text.len(), &numbers, out)
        }
    }
}

// The bases of a region that are kept and dropped, and its query region.
pub fn lift_region(text: &[u8], start: u64, end: u64, out: &mut [u8]) -> u64
    ensures { Answered (region_lifted text.now start end (length out.old))
        out.old out.new result }
{
    match region::lift_text(text, start, end) {
        Err(x) => answers::refusal_code(x),
        Ok(x) => {
            let numbers = [x.kept, x.dropped, x.start, x.end];
            answers::answer_numbers(text.len(), &numbers, out)
        }
    }
}

// The tally in the lent bytes; of fewer than three numbers it is a bad one.
fn tally_of(lent: &[u8]) -> Tally
    ensures { result ≡ tally_in lent.now }
{
    if lent.len() < 3 * binary::WORD_SIZE {
        return Tally {
            asked: 0,
            kept: 1,
            dropped: 0,
        };
    }
    let asked = binary::word_at(lent, 0);
    let kept = binary::word_at(lent, binary::WORD_SIZE);
    let dropped = binary::word_at(lent, 2 * binary::WORD_SIZE);
    Tally {
        asked,
        kept,
        dropped,
    }
}

// Stores a tally's three numbers.
fn put_tally(lent: &mut [u8], t: Tally) -> usize
    ensures { Put (tally_bytes t) 0 lent.old lent.new result }
{
    let numbers = [t.asked, t.kept, t.dropped];
    binary::put_words(lent, 0, &numbers)
}

// The tally after a region and the region's answer. It is written where the region was lifted or has no pair (12).
fn answer_tallied(answer: Result<Region, Refusal>, t: Tally, lent: &mut [u8]) -> u64
    requires { TallyRoom answer lent.old }
    ensures { Answered (of_tallied answer t) lent.old lent.new result }
{
    match answer {
        Ok(x) => {
            put_tally(lent, t);
            answers::told_as(x.kept)
        }
        Err(x) => {
            let reason = x.reason;
            let alone = Reason::NoPair;
            if reason.number() == alone.number() {
                put_tally(lent, t);
                return answers::refusal_code(x);
            }
            answers::refusal_code(x)
        }
    }
}

// The tally's step through the first blockCount rows.
fn answer_tally(
    c: Chain,
    targets: &[u64],
    queries: &[u64],
    sizes: &[u64],
    start: u64,
    end: u64,
    lent: &mut [u8],
) -> u64
    requires { Wide c.blockCount targets.now queries.now sizes.now }
    ensures { Answered (tally_outcome (tally_step (tally_in lent.old) c (table_of (take c.blockCount
        targets.now)
        (take c.blockCount queries.now) (take c.blockCount sizes.now)) start end))
        lent.old lent.new result }
{
    let n = c.blockCount as usize;
    let before = tally_of(lent);
    let done = region::tally_step(
        before,
        c,
        &targets[..n],
        &queries[..n],
        &sizes[..n],
        start,
        end,
    );
    let answer = done.answer;
    let after = done.tally;
    answer_tallied(answer, after, lent)
}

// One region of a batch.
pub fn tally(text: &[u8], start: u64, end: u64, tally: &mut [u8]) -> u64
    ensures { Answered (tallied text.now start end tally.old)
        tally.old tally.new result }
{
    let mut targets = row_room();
    let mut queries = row_room();
    let mut sizes = row_room();
    match stage_chain(text, &mut targets, &mut queries, &mut sizes) {
        Err(x) => answers::refusal_code(x),
        Ok(c) => answer_tally(c, &targets, &queries, &sizes, start, end, tally),
    }
}

// Leaves a tally in the lent bytes where they hold one.
fn keep_tally(lent: &mut [u8], t: Tally)
    ensures { lent.new ≡ tally_kept t lent.old }
{
    if lent.len() < 3 * binary::WORD_SIZE {
        return;
    }
    put_tally(lent, t);
}

// Many regions at once: a row of answers for each, and the tally after them. Room for the rows is asked for before the
// text is read.
pub fn lift_batch(text: &[u8], regions: &[u8], tally: &mut [u8], out: &mut [u8]) -> u64
    ensures { BatchTold text.now regions.now tally.old tally.new
        out.old out.new result }
{
    let before = tally_of(tally);
    let done = region::batch_text(text, before, regions, out);
    let check = done.check;
    let after = done.tally;
    match check {
        Err(x) => answers::refusal_code(x),
        Ok(()) => {
            keep_tally(tally, after);
            answers::told_as((regions.len() / region::REGION_SIZE) as u64)
        }
    }
}

// The turn into room for any record's blocks.
fn stage_turned(
    c: Chain,
    targets: &[u64],
    queries: &[u64],
    sizes: &[u64],
    newTargets: &mut [u64],
    newQueries: &mut [u64],
    newSizes: &mut [u64],
) -> Result<Chain, Refusal>
    requires { Wide c.blockCount targets.now queries.now sizes.now × Staging newTargets.old newQueries.old newSizes.old }
    ensures { TurnStaged c (table_of (take c.blockCount targets.now) (take c.blockCount queries.now)
        (take c.blockCount sizes.now)) newTargets.new newQueries.new newSizes.new result }
{
    let n = c.blockCount as usize;
    turn::turn_chain(
        c,
        &targets[..n],
        &queries[..n],
        &sizes[..n],
        newTargets,
        newQueries,
        newSizes,
    )
}

// The turned chain of the first blockCount rows, as its standard text.
fn write_turned(
    text: &[u8],
    c: Chain,
    targets: &[u64],
    queries: &[u64],
    sizes: &[u64],
    out: &mut [u8],
) -> u64
    requires { Wide c.blockCount targets.now queries.now sizes.now }
    ensures { Answered (turn_written text.now c (table_of (take c.blockCount targets.now) (take
        c.blockCount queries.now) (take c.blockCount sizes.now)) (length out.old))
        out.old out.new result }
{
    let mut newTargets = row_room();
    let mut newQueries = row_room();
    let mut newSizes = row_room();
    match stage_turned(
        c,
        targets,
        queries,
        sizes,
        &mut newTargets,
        &mut newQueries,
        &mut newSizes,
    ) {
        Err(x) => answers::refusal_code(x),
        Ok(d) => write_chain(text, d, &newTargets, &newQueries, &newSizes, out),
    }
}

// The standard text of the turned chain.
pub fn turn(text: &[u8], out: &mut [u8]) -> u64
    ensures { Answered (turned_text text.now (length out.old))
        out.old out.new result }
{
    let mut targets = row_room();
    let mut queries = row_room();
    let mut sizes = row_room();
    match stage_chain(text, &mut targets, &mut queries, &mut sizes) {
        Err(x) => answers::refusal_code(x),
        Ok(c) => write_turned(text, c, &targets, &queries, &sizes, out),
    }
}

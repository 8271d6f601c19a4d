// Lifting a region through a chain, and the tally of a batch of regions.
#![tactic(auto)]

ghost use Rattle.std.specs.Prelude.{◌≡◌, not, ◌&&◌, [], ◌∷◌, ◌++◌, ◌+◌, ◌-◌, ◌*◌, ◌/◌, ◌≤◌, ◌<◌, min, max, length, drop, leb, ltb, Ok};
ghost use Rattle.std.proofs.lemmas.List.Edits.{sets};
ghost use Rattle.ledger.specs.Limits.{largest_position, block_limit};
ghost use Rattle.blocks.specs.Rows.{table_of};
ghost use Rattle.chain.specs.Records.{chain_rows};
ghost use Rattle.lift.specs.Accepted.{Ready};
ghost use Rattle.lift.specs.Pairs.{pairs};
ghost use Rattle.lift.specs.Texts.{ChainHeld};
ghost use Rattle.binary.specs.Bytes.{word_size, words_bytes, low_at};
ghost use Rattle.region.specs.Regions.{one, not_lifted, lift_region, text_lifted};
ghost use Rattle.region.specs.Reaches.{Reached, no_reach, Found, answer_of};
ghost use Rattle.region.specs.Searches.{Rising, LastBelow, BlockPast, Meets, SizesFrom, Summable, Summed, Layable, Laid, Indexed};
ghost use Rattle.region.specs.Tallies.{good_tally, tally_step};
ghost use Rattle.region.specs.Steps.{admission, Growable, grown_by, step_ready, refused_rows, AnsweredAll, no_room, RowsPut};
ghost use Rattle.region.specs.Batches.{answer_row, BatchDone, region_size, row_size, room_in_bytes, TextBatch};

use chain::Chain;
use ledger::{Reason, Refusal, Strand};

// What a region lifts to: its bases in a pair and in none, and the smallest query region that holds all partners.
#[derive(Clone, Copy)]
pub struct Region {
    pub kept: u64,
    pub dropped: u64,
    pub start: u64,
    pub end: u64,
}

// How far a region reaches in the blocks passed so far: kept bases, and the query region.
#[derive(Clone, Copy)]
pub struct Reach {
    pub kept: u64,
    pub low: u64,
    pub high: u64,
}

// The sums of a batch: bases asked for, kept and dropped.
#[derive(Clone, Copy)]
pub struct Tally {
    pub asked: u64,
    pub kept: u64,
    pub dropped: u64,
}

// The tally after a region, and the region's answer.
#[derive(Clone, Copy)]
pub struct Tallied {
    pub tally: Tally,
    pub answer: Result<Region, Refusal>,
}

// The tally after a batch, and whether there was room for its answers.
#[derive(Clone, Copy)]
pub struct Batched {
    pub tally: Tally,
    pub check: Result<(), Refusal>,
}

// A column has room for one number of each of a record's blocks.
const ROOM: usize = ledger::BLOCK_LIMIT as usize;

// Whether a region isn't inside a target of so many bases.
fn outside(size: u64, start: u64, end: u64) -> bool
    ensures { result ≡ not (ltb start end && leb end size) }
{
    (end <= start) | (size < end)
}

// 1 where a block starts below a base, else 0. A division in place of a branch, which halving would guess wrong half the
// time; by the remainder the compiler knows that there is no third number.
fn starts_below(t: u64, p: u64) -> u64
    requires { (t ≤ largest_position) × (p ≤ largest_position) }
    ensures { result ≡ one (ltb t p) }
{
    (p + ledger::Position::LARGEST - t) / (ledger::Position::LARGEST + 1) % 2
}

// The last of the first n blocks that starts below a base, or the first block, by halving.
fn last_below(starts: &[u64], n: usize, p: u64) -> usize
    requires { Rising starts.now n × (p ≤ largest_position) }
    ensures { LastBelow starts.now n p result }
{
    let mut low = 0;
    let mut width = n;
    while 1 < width {
        let half = width / 2;
        low += half * (starts_below(starts[low + half], p) as usize);
        width -= half;
    }
    low
}

// Block h where it ends past a base, else the next.
fn block_past(h: usize, end: u64, p: u64) -> usize
    requires { h < block_limit }
    ensures { BlockPast h end p result }
{
    if end <= p { h + 1 } else { h }
}

// The reach of a region that blocks i to j meet, from its first kept base to its last; `inner` is the sum of the sizes
// from block i to the one before j.
fn reach_across(
    c: Chain,
    targets: &[u64],
    queries: &[u64],
    sizes: &[u64],
    i: usize,
    j: usize,
    inner: u64,
    start: u64,
    end: u64,
) -> Reach
    requires { Ready c targets.now queries.now sizes.now × Meets c.blockCount targets.now sizes.now start end i j
        × SizesFrom sizes.now i j inner × (start < end) × (end ≤ c.tSize) }
    ensures { Reached c.qSize start end (pairs c (table_of targets.now queries.now
        sizes.now)) result }
{
    let from = start.max(targets[i]) - targets[i];
    let to = (end - targets[j]).min(sizes[j]);
    let first = queries[i] + from;
    let last = queries[j] + to;
    let k = c.qStrand;
    let low = blocks::strand_start(k, c.qSize, first, last);
    let high = blocks::strand_end(k, c.qSize, first, last);
    Reach {
        kept: inner + to - from,
        low,
        high,
    }
}

// A region that no block meets.
fn no_reach(size: u64) -> Reach
    ensures { result ≡ no_reach size }
{
    Reach {
        kept: 0,
        low: size,
        high: 0,
    }
}

// The sizes of blocks i to j − 1, summed.
fn sizes_between(sizes: &[u64], i: usize, j: usize) -> u64
    requires { Summable j sizes.now × (i ≤ j) }
    ensures { SizesFrom sizes.now i j result }
{
    let mut sum = 0;
    for k in i..j {
        sum += sizes[k];
    }
    sum
}

// The reach of a region inside the target of an accepted chain; of any other region, none.
fn region_reach(
    c: Chain,
    targets: &[u64],
    queries: &[u64],
    sizes: &[u64],
    start: u64,
    end: u64,
) -> Reach
    requires { Ready c targets.now queries.now sizes.now }
    ensures { Found c (table_of targets.now queries.now sizes.now) start end result }
{
    if outside(c.tSize, start, end) {
        return no_reach(c.qSize);
    }
    let n = c.blockCount as usize;
    let h = last_below(targets, n, start + 1);
    let first = block_past(h, targets[h] + sizes[h], start);
    let last = last_below(targets, n, end);
    if (last < first) | (end <= targets[last]) {
        return no_reach(c.qSize);
    }
    let inner = sizes_between(sizes, first, last);
    reach_across(c, targets, queries, sizes, first, last, inner, start, end)
}

fn not_lifted(reason: Reason) -> Result<Region, Refusal>
    ensures { result ≡ not_lifted reason }
{
    Err(Refusal::without_text(reason))
}

// The answer that a reach gives, for a region of so many bases.
fn answer_of(r: Reach, len: u64) -> Result<Region, Refusal>
    requires { r.kept ≤ len }
    ensures { result ≡ answer_of r len }
{
    if r.kept == 0 {
        return not_lifted(Reason::NoPair);
    }
    Ok(Region {
        kept: r.kept,
        dropped: len - r.kept,
        start: r.low,
        end: r.high,
    })
}

// The lift of a region through rows of an accepted chain.
fn lift_ready(
    c: Chain,
    targets: &[u64],
    queries: &[u64],
    sizes: &[u64],
    start: u64,
    end: u64,
) -> Result<Region, Refusal>
    requires { Ready c targets.now queries.now sizes.now }
    ensures { result ≡ lift_region c (table_of targets.now queries.now sizes.now) start end }
{
    if outside(c.tSize, start, end) {
        return not_lifted(Reason::OutsideTarget);
    }
    let r = region_reach(c, targets, queries, sizes, start, end);
    answer_of(r, end - start)
}

// THE LIFT OF A REGION, its bases start to end − 1, through a chain: record and rows are tested again, as they may be anything.
pub fn lift_region(
    c: Chain,
    targets: &[u64],
    queries: &[u64],
    sizes: &[u64],
    start: u64,
    end: u64,
) -> Result<Region, Refusal>
    ensures { result ≡ lift_region c (table_of targets.now queries.now sizes.now) start end }
{
    if !lift::is_accepted(c, targets, queries, sizes) {
        return not_lifted(Reason::BlockRules);
    }
    lift_ready(c, targets, queries, sizes, start, end)
}

// The same through the rows that reading a chain's text left in its working room.
fn lift_rows(text: &[u8], c: Chain, rows: &[u64], start: u64, end: u64) -> Result<Region, Refusal>
    requires { ChainHeld text.now c rows.now }
    ensures { result ≡ lift_region c (chain_rows text.now c) start end }
{
    let n = c.blockCount as usize;
    let b = ledger::BLOCK_LIMIT as usize;
    let d = 2 * b;
    let e = b + n;
    let f = d + n;
    lift_ready(c, &rows[..n], &rows[b..e], &rows[d..f], start, end)
}

// THE LIFT OF A REGION through a chain's text: what a text that is read says is an accepted chain, so it is not tested
// again.
pub fn lift_text(text: &[u8], start: u64, end: u64) -> Result<Region, Refusal>
    ensures { result ≡ text_lifted text.now start end }
{
    let mut rows = blocks::working_room();
    let c = chain::read_rows(text, &mut rows)?;
    lift_rows(text, c, &rows, start, end)
}

// Whether a tally is one: each field to its limit, and kept and dropped make up asked, with no wrapping.
fn is_good(t: Tally) -> bool
    ensures { result ≡ good_tally t }
{
    let most = ledger::TALLY_LIMIT;
    if most < t.kept {
        return false;
    }
    if most < t.dropped {
        return false;
    }
    (t.asked <= most) & (t.kept + t.dropped == t.asked)
}

// Why a region is not added to a tally: it isn't inside the target (13), the tally is bad (10), or asked would pass its
// limit (5).
fn admit(tally: Tally, size: u64, start: u64, end: u64) -> Result<(), Reason>
    ensures { result ≡ admission tally size start end }
{
    if outside(size, start, end) {
        return Err(Reason::OutsideTarget);
    }
    if !is_good(tally) {
        return Err(Reason::CountsDisagree);
    }
    let len = end - start;
    if ledger::TALLY_LIMIT - tally.asked < len {
        return Err(Reason::NumberOutOfRange);
    }
    Ok(())
}

// A refusal that leaves the tally.
fn stay(tally: Tally, reason: Reason) -> Tallied
    ensures { (result.tally ≡ tally) × (result.answer ≡ not_lifted reason) }
{
    let answer = not_lifted(reason);
    Tallied { tally, answer }
}

// The tally grown by a region of so many bases, with the answer that its reach gives.
fn grow(tally: Tally, r: Reach, len: u64) -> Tallied
    requires { Growable tally r len }
    ensures { result ≡ grown_by tally r len }
{
    let grown = Tally {
        asked: tally.asked + len,
        kept: tally.kept + r.kept,
        dropped: tally.dropped + (len - r.kept),
    };
    let answer = answer_of(r, len);
    Tallied {
        tally: grown,
        answer,
    }
}

// The step of a region through an accepted chain, whose target has so many bases and which the region reaches so far.
fn step_ready(tally: Tally, size: u64, r: Reach, start: u64, end: u64) -> Tallied
    requires { r.kept ≤ end - start }
    ensures { result ≡ step_ready tally size r start end }
{
    match admit(tally, size, start, end) {
        Err(reason) => stay(tally, reason),
        Ok(()) => grow(tally, r, end - start),
    }
}

// THE STEP OF A TALLY: one region, the tally after it and the region's answer.
pub fn tally_step(
    tally: Tally,
    c: Chain,
    targets: &[u64],
    queries: &[u64],
    sizes: &[u64],
    start: u64,
    end: u64,
) -> Tallied
    ensures { result ≡ tally_step tally c (table_of targets.now queries.now sizes.now) start end }
{
    if !lift::is_accepted(c, targets, queries, sizes) {
        return stay(tally, Reason::BlockRules);
    }
    let r = region_reach(c, targets, queries, sizes, start, end);
    step_ready(tally, c.tSize, r, start, end)
}

// A column with the largest position in each place.
fn last_positions() -> [u64; ROOM]
    ensures { Laid 0 [] result }
{
    [ledger::Position::LARGEST; ROOM]
}

// The starts of the first n blocks at the front of such a column.
fn lay_starts(targets: &[u64], n: usize, starts: &mut [u64])
    requires { Layable n targets.now × Laid 0 [] starts.old }
    ensures { Laid n targets.now starts.new }
{
    starts[..n].copy_from_slice(&targets[..n]);
}

fn no_sums() -> [u64; ROOM]
    ensures { length result ≡ block_limit }
{
    [0; ROOM]
}

// The sizes summed before each of the first n blocks.
fn sum_sizes(sizes: &[u64], n: usize, before: &mut [u64])
    requires { Summable n sizes.now × (length before.old ≡ block_limit) }
    ensures { Summed n sizes.now before.new }
{
    let mut sum = 0;
    for i in 0..n {
        before[i] = sum;
        sum += sizes[i];
    }
}

// The same reach by two columns that are made once for a batch: the search goes over the whole column of starts, so that
// the number of its steps is known and no branch is left to guess, and no size is summed.
fn quick_reach(
    c: Chain,
    targets: &[u64],
    queries: &[u64],
    sizes: &[u64],
    starts: &[u64],
    before: &[u64],
    start: u64,
    end: u64,
) -> Reach
    requires { Indexed c targets.now queries.now sizes.now starts.now before.now }
    ensures { Found c (table_of targets.now queries.now sizes.now) start end result }
{
    if outside(c.tSize, start, end) {
        return no_reach(c.qSize);
    }
    let h = last_below(starts, ROOM, start + 1);
    let i = block_past(h, targets[h] + sizes[h], start);
    let j = last_below(starts, ROOM, end);
    if (j < i) | (end <= targets[j]) {
        return no_reach(c.qSize);
    }
    let inner = before[j] - before[i];
    reach_across(c, targets, queries, sizes, i, j, inner, start, end)
}

// An answer as five numbers: 0 and the region, or the refusal's number and four zeros.
fn answer_row(answer: Result<Region, Refusal>) -> [u64; 5]
    ensures { result ≡ answer_row answer }
{
    match answer {
        Ok(x) => [0, x.kept, x.dropped, x.start, x.end],
        Err(x) => {
            let reason = x.reason;
            [reason.number(), 0, 0, 0, 0]
        }
    }
}

// The rows of all regions through an accepted chain, in order, and the tally after them.
fn answer_all(
    tally: Tally,
    c: Chain,
    targets: &[u64],
    queries: &[u64],
    sizes: &[u64],
    starts: &[u64],
    before: &[u64],
    regions: &[[u64; 2]],
    answers: &mut [[u64; 5]],
) -> Tally
    requires { Indexed c targets.now queries.now sizes.now starts.now before.now
        × (length regions.now ≤ length answers.old) }
    ensures { AnsweredAll tally c (table_of targets.now queries.now sizes.now)
        regions.now answers.old answers.new result }
{
    let mut t = tally;
    for (i, region) in regions.iter().enumerate() {
        let start = region[0];
        let end = region[1];
        let r = quick_reach(c, targets, queries, sizes, starts, before, start, end);
        let done = step_ready(t, c.tSize, r, start, end);
        t = done.tally;
        let answer = done.answer;
        answers[i] = answer_row(answer);
    }
    t
}

// The same, with the two columns made first.
fn answer_ready(
    tally: Tally,
    c: Chain,
    targets: &[u64],
    queries: &[u64],
    sizes: &[u64],
    regions: &[[u64; 2]],
    answers: &mut [[u64; 5]],
) -> Tally
    requires { Ready c targets.now queries.now sizes.now × (length regions.now ≤ length answers.old) }
    ensures { AnsweredAll tally c (table_of targets.now queries.now sizes.now)
        regions.now answers.old answers.new result }
{
    let n = c.blockCount as usize;
    let mut starts = last_positions();
    let mut before = no_sums();
    lay_starts(targets, n, &mut starts);
    sum_sizes(sizes, n, &mut before);
    answer_all(
        tally, c, targets, queries, sizes, &starts, &before, regions, answers,
    )
}

// The rows of so many regions through no accepted chain (9).
fn refuse_all(count: usize, answers: &mut [[u64; 5]])
    requires { count ≤ length answers.old }
    ensures { answers.new ≡ refused_rows count ++ drop count answers.old }
{
    for i in 0..count {
        let answer = not_lifted(Reason::BlockRules);
        answers[i] = answer_row(answer);
    }
}

// Too few rows for the answers (11): the tally stays.
fn no_room(tally: Tally) -> Batched
    ensures { result ≡ no_room tally }
{
    let check = Err(Refusal::without_text(Reason::NoRoom));
    Batched { tally, check }
}

fn answered(tally: Tally) -> Batched
    ensures { (result.tally ≡ tally) × (result.check ≡ Ok tt) }
{
    let check = Ok(());
    Batched { tally, check }
}

// THE BATCH: each region, a start and an end, gets its row of answers, in order; record and rows are tested once. Fewer
// answer rows than regions is 11, before all else: it leaves the tally and every row.
pub fn tally_batch(
    tally: Tally,
    c: Chain,
    targets: &[u64],
    queries: &[u64],
    sizes: &[u64],
    regions: &[[u64; 2]],
    answers: &mut [[u64; 5]],
) -> Batched
    ensures { BatchDone tally c (table_of targets.now queries.now sizes.now)
        regions.now answers.old answers.new result }
{
    if answers.len() < regions.len() {
        return no_room(tally);
    }
    if !lift::is_accepted(c, targets, queries, sizes) {
        refuse_all(regions.len(), answers);
        return answered(tally);
    }
    let after = answer_ready(tally, c, targets, queries, sizes, regions, answers);
    answered(after)
}

// Bytes of a region, two words, and of a row of answers, five.
pub const REGION_SIZE: usize = 16;

const ROW_SIZE: usize = 40;

// Whether no region is cut short, and each has a row in so many bytes.
fn rows_fit(regions: &[u8], room: usize) -> bool
    ensures { result ≡ room_in_bytes regions.now room }
{
    let whole = regions.len() % REGION_SIZE == 0;
    whole & (regions.len() / REGION_SIZE <= room / ROW_SIZE)
}

// Region i of the bytes, its start and its end.
fn region_at(regions: &[u8], i: usize) -> [u64; 2]
    requires { region_size * i + region_size ≤ length regions.now }
    ensures { result ≡ low_at word_size regions.now (region_size * i)
        ∷ low_at word_size regions.now (region_size * i + word_size) ∷ [] }
{
    let a = REGION_SIZE * i;
    let e = a + REGION_SIZE;
    binary::two_words(&regions[a..e])
}

// Stores row i, which there is room for.
fn put_row(out: &mut [u8], i: usize, row: [u64; 5])
    requires { row_size * i + row_size ≤ length out.old }
    ensures { out.new ≡ sets out.old (row_size * i) (words_bytes row) }
{
    let a = ROW_SIZE * i;
    let e = a + ROW_SIZE;
    binary::put_five(&mut out[a..e], row);
}

// The rows of all regions, in order, to the front of the lent bytes, and the tally after them.
fn put_rows(
    tally: Tally,
    c: Chain,
    targets: &[u64],
    queries: &[u64],
    sizes: &[u64],
    starts: &[u64],
    before: &[u64],
    regions: &[u8],
    out: &mut [u8],
) -> Tally
    requires { Indexed c targets.now queries.now sizes.now starts.now before.now
        × (row_size * (length regions.now / region_size) ≤ length out.old) }
    ensures { RowsPut tally c (table_of targets.now queries.now sizes.now)
        regions.now out.old out.new result }
{
    let m = regions.len() / REGION_SIZE;
    let mut t = tally;
    for i in 0..m {
        let region = region_at(regions, i);
        let start = region[0];
        let end = region[1];
        let r = quick_reach(c, targets, queries, sizes, starts, before, start, end);
        let done = step_ready(t, c.tSize, r, start, end);
        t = done.tally;
        let answer = done.answer;
        let row = answer_row(answer);
        put_row(out, i, row);
    }
    t
}

// The same, with the two columns made first.
fn put_ready(
    tally: Tally,
    c: Chain,
    targets: &[u64],
    queries: &[u64],
    sizes: &[u64],
    regions: &[u8],
    out: &mut [u8],
) -> Tally
    requires { Ready c targets.now queries.now sizes.now
        × (row_size * (length regions.now / region_size) ≤ length out.old) }
    ensures { RowsPut tally c (table_of targets.now queries.now sizes.now)
        regions.now out.old out.new result }
{
    let n = c.blockCount as usize;
    let mut starts = last_positions();
    let mut before = no_sums();
    lay_starts(targets, n, &mut starts);
    sum_sizes(sizes, n, &mut before);
    put_rows(
        tally, c, targets, queries, sizes, &starts, &before, regions, out,
    )
}

// And through the rows that reading a chain's text left in its working room.
fn put_text(
    text: &[u8],
    tally: Tally,
    c: Chain,
    rows: &[u64],
    regions: &[u8],
    out: &mut [u8],
) -> Tally
    requires { ChainHeld text.now c rows.now × (row_size * (length regions.now / region_size) ≤ length out.old) }
    ensures { RowsPut tally c (chain_rows text.now c) regions.now out.old out.new result }
{
    let n = c.blockCount as usize;
    let b = ledger::BLOCK_LIMIT as usize;
    let d = 2 * b;
    let e = b + n;
    let f = d + n;
    put_ready(tally, c, &rows[..n], &rows[b..e], &rows[d..f], regions, out)
}

// THE BATCH THROUGH A CHAIN'S TEXT, regions and rows being words in bytes: too few rows, or a region cut short, is 11
// before the text is read; then the text's refusals. Both leave the tally and the bytes.
pub fn batch_text(text: &[u8], before: Tally, regions: &[u8], out: &mut [u8]) -> Batched
    ensures { TextBatch text.now before regions.now out.old out.new result }
{
    if !rows_fit(regions, out.len()) {
        return no_room(before);
    }
    let mut rows = blocks::working_room();
    match chain::read_rows(text, &mut rows) {
        Err(x) => {
            let check = Err(x);
            Batched {
                tally: before,
                check,
            }
        }
        Ok(c) => {
            let after = put_text(text, before, c, &rows, regions, out);
            answered(after)
        }
    }
}

// The sample programs' calls over lent tables of rows: chains read, checked and written; lifted, tallied and turned; batches. Each table
// is made here with a mark in every row, and its rows are filled from three columns before a call, or copied out to them after it.
#![tactic(auto)]

ghost use Rattle.std.specs.Prelude.{◌≡◌};
ghost use Rattle.cases_chain.specs.Lifts.{PositionLifted, RegionLifted, RegionCounted, BatchCounted, TableTurned};
ghost use Rattle.cases_chain.specs.Tables.{TableRead, TableChecked, TableWrote};

use chain::Chain;
use ledger::Refusal;
use region::{Region, Tallied, Tally};

// A text read into a table of so many rows, at most 512; then all 512 rows to columns.
pub fn read_chain(
    text: &[u8],
    room: usize,
    targets: &mut [u64],
    queries: &mut [u64],
    sizes: &mut [u64],
) -> Result<Chain, Refusal>
    ensures { TableRead text.now room targets.old targets.new queries.old
        queries.new sizes.old sizes.new result }
{
    let mark = cases::row_mark();
    let n = rows::staged_rows(room);
    let mut table = [mark; rows::ROOM];
    let answer = table_chain::read_chain(text, &mut table[..n]);
    rows::load_rows(&table, targets, queries, sizes);
    answer
}

// A record checked with the rows of three columns.
pub fn check_chain(r: Chain, targets: &[u64], queries: &[u64], sizes: &[u64]) -> Result<(), Refusal>
    ensures { TableChecked r targets.now queries.now sizes.now result }
{
    let mark = cases::row_mark();
    let n = cases::table_rows(targets);
    let mut table = [mark; cases::TABLE];
    rows::store_rows(&mut table, n, targets, queries, sizes);
    table_chain::check_chain(r, &table[..n])
}

// And written with them.
pub fn write_chain(
    r: Chain,
    tName: &[u8],
    qName: &[u8],
    targets: &[u64],
    queries: &[u64],
    sizes: &[u64],
    buf: &mut [u8],
) -> Result<usize, Refusal>
    ensures { TableWrote r tName.now qName.now targets.now queries.now sizes.now buf.old buf.new result }
{
    let mark = cases::row_mark();
    let n = cases::table_rows(targets);
    let mut table = [mark; cases::TABLE];
    rows::store_rows(&mut table, n, targets, queries, sizes);
    table_chain::write_chain(r, tName, qName, &table[..n], buf)
}

// A position lifted through a chain whose blocks stand in three columns.
pub fn lift_position(
    c: Chain,
    targets: &[u64],
    queries: &[u64],
    sizes: &[u64],
    p: u64,
) -> Result<(u64, i64), Refusal>
    ensures { PositionLifted c targets.now queries.now sizes.now p result }
{
    let mark = cases::row_mark();
    let n = cases::table_rows(targets);
    let mut table = [mark; cases::TABLE];
    rows::store_rows(&mut table, n, targets, queries, sizes);
    table_lift::lift_position(c, &table[..n], p)
}

// And a region.
pub fn lift_region(
    c: Chain,
    targets: &[u64],
    queries: &[u64],
    sizes: &[u64],
    start: u64,
    end: u64,
) -> Result<Region, Refusal>
    ensures { RegionLifted c targets.now queries.now sizes.now start end result }
{
    let mark = cases::row_mark();
    let n = cases::table_rows(targets);
    let mut table = [mark; cases::TABLE];
    rows::store_rows(&mut table, n, targets, queries, sizes);
    table_lift::lift_region(c, &table[..n], start, end)
}

// A turn into a table of so many rows, at most 512; then all 512 rows to columns.
pub fn turn_chain(
    c: Chain,
    targets: &[u64],
    queries: &[u64],
    sizes: &[u64],
    room: usize,
    newTargets: &mut [u64],
    newQueries: &mut [u64],
    newSizes: &mut [u64],
) -> Result<Chain, Refusal>
    ensures { TableTurned c targets.now queries.now sizes.now room newTargets.old
        newTargets.new newQueries.old newQueries.new newSizes.old newSizes.new result }
{
    let mark = cases::row_mark();
    let n = cases::table_rows(targets);
    let m = rows::staged_rows(room);
    let mut table = [mark; cases::TABLE];
    let mut turned = [mark; rows::ROOM];
    rows::store_rows(&mut table, n, targets, queries, sizes);
    let answer = table_turn::turn_chain(c, &table[..n], &mut turned[..m]);
    rows::load_rows(&turned, newTargets, newQueries, newSizes);
    answer
}

fn tallied(tally: Tally, answer: Result<Region, Refusal>) -> Tallied
    ensures { (result.tally ≡ tally) × (result.answer ≡ answer) }
{
    Tallied { tally, answer }
}

// A region with a tally, which is lent and updated in place: the tally then, and the answer.
pub fn tally_region(
    tally: Tally,
    c: Chain,
    targets: &[u64],
    queries: &[u64],
    sizes: &[u64],
    start: u64,
    end: u64,
) -> Tallied
    ensures { RegionCounted tally c targets.now queries.now sizes.now start end result }
{
    let mark = cases::row_mark();
    let n = cases::table_rows(targets);
    let mut table = [mark; cases::TABLE];
    rows::store_rows(&mut table, n, targets, queries, sizes);
    let mut sums = tally;
    let answer = table_lift::tally_region(&mut sums, c, &table[..n], start, end);
    tallied(sums, answer)
}

// The tally after a batch of regions, and whether the batch was answered.
#[derive(Clone, Copy)]
pub struct BatchAnswer {
    pub tally: Tally,
    pub check: Result<(), Refusal>,
}

fn batched(tally: Tally, check: Result<(), Refusal>) -> BatchAnswer
    ensures { (result.tally ≡ tally) × (result.check ≡ check) }
{
    BatchAnswer { tally, check }
}

// A batch of regions with a tally, which is lent and updated in place; the row of each region goes to the answers.
pub fn lift_batch(
    tally: Tally,
    c: Chain,
    targets: &[u64],
    queries: &[u64],
    sizes: &[u64],
    regions: &[[u64; 2]],
    answers: &mut [[u64; 5]],
) -> BatchAnswer
    ensures { BatchCounted tally c targets.now queries.now sizes.now regions.now
        answers.old answers.new result }
{
    let mark = cases::row_mark();
    let n = cases::table_rows(targets);
    let mut table = [mark; cases::TABLE];
    rows::store_rows(&mut table, n, targets, queries, sizes);
    let mut sums = tally;
    let check = table_lift::lift_batch(&mut sums, c, &table[..n], regions, answers);
    batched(sums, check)
}

// Lifts through a chain whose blocks stand in a lent table of row structs, and the tally lent for regions, one by one or a
// batch of them. Each stages
// the rows in three columns and calls the function of `lift` or `region` over flat slices.
#![tactic(auto)]

ghost use Rattle.std.specs.Prelude.{◌≡◌};
ghost use Rattle.rows.specs.Staging.{Columns, staged_rows};
ghost use Rattle.lift.specs.Positions.{lift_position};
ghost use Rattle.region.specs.Regions.{lift_region};
ghost use Rattle.region.specs.Tallies.{tally_step};
ghost use Rattle.region.specs.Batches.{BatchDone};
ghost use Rattle.table_lift.specs.Lifts.{RegionTallied, BatchLifted};

use chain::Chain;
use ledger::{Refusal, Row};
use region::{Batched, Region, Tallied, Tally};

// Lifts a position through a chain whose blocks stand in three columns, for a table of so many rows.
fn position_columns(
    c: Chain,
    rows: usize,
    targets: &[u64],
    queries: &[u64],
    sizes: &[u64],
    p: u64,
) -> Result<(u64, i64), Refusal>
    requires { Columns targets.now queries.now sizes.now }
    ensures { result ≡ lift_position c (staged_rows rows targets.now queries.now sizes.now) p }
{
    let n = rows::staged_rows(rows);
    lift::lift_position(c, &targets[..n], &queries[..n], &sizes[..n], p)
}

// THE LIFT OF A POSITION through a record with the first blockCount rows of a table.
pub fn lift_position(c: Chain, table: &[Row], p: u64) -> Result<(u64, i64), Refusal>
    ensures { result ≡ lift_position c table.now p }
{
    let mut targets: [u64; rows::ROOM] = [0; rows::ROOM];
    let mut queries: [u64; rows::ROOM] = [0; rows::ROOM];
    let mut sizes: [u64; rows::ROOM] = [0; rows::ROOM];
    rows::load_rows(table, &mut targets, &mut queries, &mut sizes);
    position_columns(c, table.len(), &targets, &queries, &sizes, p)
}

// Lifts a region through a chain whose blocks stand in three columns, for a table of so many rows.
fn region_columns(
    c: Chain,
    rows: usize,
    targets: &[u64],
    queries: &[u64],
    sizes: &[u64],
    start: u64,
    end: u64,
) -> Result<Region, Refusal>
    requires { Columns targets.now queries.now sizes.now }
    ensures { result ≡ lift_region c (staged_rows rows targets.now queries.now sizes.now) start end }
{
    let n = rows::staged_rows(rows);
    region::lift_region(c, &targets[..n], &queries[..n], &sizes[..n], start, end)
}

// THE LIFT OF A REGION, its bases start to end − 1, through a record with the first blockCount rows of a table.
pub fn lift_region(c: Chain, table: &[Row], start: u64, end: u64) -> Result<Region, Refusal>
    ensures { result ≡ lift_region c table.now start end }
{
    let mut targets: [u64; rows::ROOM] = [0; rows::ROOM];
    let mut queries: [u64; rows::ROOM] = [0; rows::ROOM];
    let mut sizes: [u64; rows::ROOM] = [0; rows::ROOM];
    rows::load_rows(table, &mut targets, &mut queries, &mut sizes);
    region_columns(c, table.len(), &targets, &queries, &sizes, start, end)
}

// The step of a tally by a chain whose blocks stand in three columns, for a table of so many rows.
fn tally_columns(
    tally: Tally,
    c: Chain,
    rows: usize,
    targets: &[u64],
    queries: &[u64],
    sizes: &[u64],
    start: u64,
    end: u64,
) -> Tallied
    requires { Columns targets.now queries.now sizes.now }
    ensures { result ≡ tally_step tally c (staged_rows rows targets.now queries.now sizes.now)
        start end }
{
    let n = rows::staged_rows(rows);
    region::tally_step(
        tally,
        c,
        &targets[..n],
        &queries[..n],
        &sizes[..n],
        start,
        end,
    )
}

// THE TALLY: one region of a batch, the lent tally updated in place. A refusal leaves it, but for a region that has no pair.
pub fn tally_region(
    tally: &mut Tally,
    c: Chain,
    table: &[Row],
    start: u64,
    end: u64,
) -> Result<Region, Refusal>
    ensures { RegionTallied tally.old c table.now start end tally.new result }
{
    let mut targets: [u64; rows::ROOM] = [0; rows::ROOM];
    let mut queries: [u64; rows::ROOM] = [0; rows::ROOM];
    let mut sizes: [u64; rows::ROOM] = [0; rows::ROOM];
    rows::load_rows(table, &mut targets, &mut queries, &mut sizes);
    let done = tally_columns(
        *tally,
        c,
        table.len(),
        &targets,
        &queries,
        &sizes,
        start,
        end,
    );
    *tally = done.tally;
    done.answer
}

// A batch through a chain whose blocks stand in three columns, for a table of so many rows.
fn batch_columns(
    before: Tally,
    c: Chain,
    rows: usize,
    targets: &[u64],
    queries: &[u64],
    sizes: &[u64],
    regions: &[[u64; 2]],
    answers: &mut [[u64; 5]],
) -> Batched
    requires { Columns targets.now queries.now sizes.now }
    ensures { BatchDone before c (staged_rows rows targets.now queries.now sizes.now)
        regions.now answers.old answers.new result }
{
    let n = rows::staged_rows(rows);
    region::tally_batch(
        before,
        c,
        &targets[..n],
        &queries[..n],
        &sizes[..n],
        regions,
        answers,
    )
}

// THE BATCH: each region, a start and an end, gets its row of answers, and the lent tally is updated in place. Fewer rows than regions
// is 11, which leaves both.
pub fn lift_batch(
    tally: &mut Tally,
    c: Chain,
    table: &[Row],
    regions: &[[u64; 2]],
    answers: &mut [[u64; 5]],
) -> Result<(), Refusal>
    ensures { BatchLifted tally.old c table.now regions.now answers.old
        tally.new answers.new result }
{
    let mut targets: [u64; rows::ROOM] = [0; rows::ROOM];
    let mut queries: [u64; rows::ROOM] = [0; rows::ROOM];
    let mut sizes: [u64; rows::ROOM] = [0; rows::ROOM];
    rows::load_rows(table, &mut targets, &mut queries, &mut sizes);
    let done = batch_columns(
        *tally,
        c,
        table.len(),
        &targets,
        &queries,
        &sizes,
        regions,
        answers,
    );
    *tally = done.tally;
    done.check
}

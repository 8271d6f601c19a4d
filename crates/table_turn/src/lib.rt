// The turn of a chain whose blocks stand in a lent table of row structs, into another lent table. It stages both tables in three
// columns each and calls the function of `turn` over flat slices.
#![tactic(auto)]

ghost use Rattle.std.specs.Prelude.{◌≡◌};
ghost use Rattle.rows.specs.Staging.{Columns, staged_rows};
ghost use Rattle.table_turn.specs.Turns.{RowsTurned, rows_filled, ColumnsTurned};

use chain::Chain;
use ledger::{Refusal, Row};

// Turns a chain whose blocks stand in three columns, for a table of so many rows, into three other columns, for a table of so much
// room.
fn turn_columns(
    c: Chain,
    rows: usize,
    room: usize,
    targets: &[u64],
    queries: &[u64],
    sizes: &[u64],
    newTargets: &mut [u64],
    newQueries: &mut [u64],
    newSizes: &mut [u64],
) -> Result<Chain, Refusal>
    requires { Columns targets.now queries.now sizes.now × Columns newTargets.old newQueries.old newSizes.old }
    ensures { ColumnsTurned c (staged_rows rows targets.now queries.now sizes.now) room
        newTargets.new newQueries.new newSizes.new result }
{
    let n = rows::staged_rows(rows);
    let m = rows::staged_rows(room);
    turn::turn_chain(
        c,
        &targets[..n],
        &queries[..n],
        &sizes[..n],
        &mut newTargets[..m],
        &mut newQueries[..m],
        &mut newSizes[..m],
    )
}

// How many rows an answer fills.
fn rows_filled(answer: Result<Chain, Refusal>) -> usize
    ensures { result ≡ rows_filled answer }
{
    match answer {
        Ok(d) => d.blockCount as usize,
        Err(_) => 0,
    }
}

// THE TURN of a record with the first blockCount rows of a table; the turned rows go to the first rows of another. A refusal leaves
// that as it was, and rows past the turned ones stay.
pub fn turn_chain(c: Chain, table: &[Row], turned: &mut [Row]) -> Result<Chain, Refusal>
    ensures { RowsTurned c table.now turned.old turned.new result }
{
    let mut targets: [u64; rows::ROOM] = [0; rows::ROOM];
    let mut queries: [u64; rows::ROOM] = [0; rows::ROOM];
    let mut sizes: [u64; rows::ROOM] = [0; rows::ROOM];
    let mut newTargets: [u64; rows::ROOM] = [0; rows::ROOM];
    let mut newQueries: [u64; rows::ROOM] = [0; rows::ROOM];
    let mut newSizes: [u64; rows::ROOM] = [0; rows::ROOM];
    rows::load_rows(table, &mut targets, &mut queries, &mut sizes);
    let answer = turn_columns(
        c,
        table.len(),
        turned.len(),
        &targets,
        &queries,
        &sizes,
        &mut newTargets,
        &mut newQueries,
        &mut newSizes,
    );
    let count = rows_filled(answer);
    rows::store_rows(turned, count, &newTargets, &newQueries, &newSizes);
    answer
}

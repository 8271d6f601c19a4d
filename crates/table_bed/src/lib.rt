// BED lines over a lent table of row structs: reader, record checker, writer. Each stages the rows in three columns and calls the
// function of the same name over flat slices.
#![tactic(auto)]

ghost use Rattle.std.specs.Prelude.{◌≡◌, min, take};
ghost use Rattle.ledger.specs.Limits.{block_limit};
ghost use Rattle.blocks.specs.Rows.{targets_of, queries_of, sizes_of};
ghost use Rattle.rows.specs.Staging.{Columns};
ghost use Rattle.bed.specs.Write.{record_check, BedWrote};
ghost use Rattle.table_bed.specs.Rows.{RowsRead, rows_filled, ColumnsRead};

use bed::Bed;
use ledger::{Refusal, Row};

// Reads into three columns, for a table of so many rows.
fn read_columns(
    text: &[u8],
    rows: usize,
    targets: &mut [u64],
    queries: &mut [u64],
    sizes: &mut [u64],
) -> Result<Bed, Refusal>
    requires { Columns targets.old queries.old sizes.old }
    ensures { ColumnsRead text.now rows targets.new queries.new sizes.new result }
{
    let n = rows::staged_rows(rows);
    bed::read_bed(text, &mut targets[..n], &mut queries[..n], &mut sizes[..n])
}

// How many rows an answer fills.
fn rows_filled(answer: Result<Bed, Refusal>) -> usize
    ensures { result ≡ rows_filled answer }
{
    match answer {
        Ok(r) => r.blockCount as usize,
        Err(_) => 0,
    }
}

// THE READER: a BED line, its blocks to the first rows of a lent table. A refusal leaves the table as it was, and rows past the
// blocks stay.
pub fn read_bed(text: &[u8], table: &mut [Row]) -> Result<Bed, Refusal>
    ensures { RowsRead text.now table.old table.new result }
{
    let mut targets: [u64; rows::ROOM] = [0; rows::ROOM];
    let mut queries: [u64; rows::ROOM] = [0; rows::ROOM];
    let mut sizes: [u64; rows::ROOM] = [0; rows::ROOM];
    let answer = read_columns(text, table.len(), &mut targets, &mut queries, &mut sizes);
    let count = rows_filled(answer);
    rows::store_rows(table, count, &targets, &queries, &sizes);
    answer
}

// Checks a record with the blocks that stand in three columns, for a table of so many rows.
fn check_columns(
    r: Bed,
    rows: usize,
    targets: &[u64],
    queries: &[u64],
    sizes: &[u64],
) -> Result<(), Refusal>
    requires { Columns targets.now queries.now sizes.now }
    ensures { result ≡ record_check r (take (min rows block_limit) targets.now) (take (min rows block_limit) queries.now) (take (min rows block_limit) sizes.now) }
{
    let n = rows::staged_rows(rows);
    bed::check_bed(r, &targets[..n], &queries[..n], &sizes[..n])
}

// THE RECORD CHECKER: a record with the first blockCount rows of a table; any breach is 9.
pub fn check_bed(r: Bed, table: &[Row]) -> Result<(), Refusal>
    ensures { result ≡ record_check r (targets_of table.now) (queries_of table.now) (sizes_of table.now) }
{
    let mut targets: [u64; rows::ROOM] = [0; rows::ROOM];
    let mut queries: [u64; rows::ROOM] = [0; rows::ROOM];
    let mut sizes: [u64; rows::ROOM] = [0; rows::ROOM];
    rows::load_rows(table, &mut targets, &mut queries, &mut sizes);
    check_columns(r, table.len(), &targets, &queries, &sizes)
}

// Writes a record with the blocks that stand in three columns, for a table of so many rows.
fn write_columns(
    r: Bed,
    chrom: &[u8],
    name: &[u8],
    rows: usize,
    targets: &[u64],
    queries: &[u64],
    sizes: &[u64],
    buf: &mut [u8],
) -> Result<usize, Refusal>
    requires { Columns targets.now queries.now sizes.now }
    ensures { BedWrote r chrom.now name.now (take (min rows block_limit) targets.now)
        (take (min rows block_limit) queries.now) (take (min rows block_limit) sizes.now) buf.old
        buf.new result }
{
    let n = rows::staged_rows(rows);
    bed::write_bed(
        r,
        chrom,
        name,
        &targets[..n],
        &queries[..n],
        &sizes[..n],
        buf,
    )
}

// THE WRITER: a record with its names and its rows to the front of a buffer, or the first refusal in the writers' order, which
// leaves the buffer.
pub fn write_bed(
    r: Bed,
    chrom: &[u8],
    name: &[u8],
    table: &[Row],
    buf: &mut [u8],
) -> Result<usize, Refusal>
    ensures { BedWrote r chrom.now name.now (targets_of table.now) (queries_of table.now) (sizes_of table.now) buf.old buf.new result }
{
    let mut targets: [u64; rows::ROOM] = [0; rows::ROOM];
    let mut queries: [u64; rows::ROOM] = [0; rows::ROOM];
    let mut sizes: [u64; rows::ROOM] = [0; rows::ROOM];
    rows::load_rows(table, &mut targets, &mut queries, &mut sizes);
    write_columns(r, chrom, name, table.len(), &targets, &queries, &sizes, buf)
}

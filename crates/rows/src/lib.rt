// Rows of a lent table to three columns of numbers, and back. Every function over a table stages its rows in three columns, calls a
// function over flat slices, and stores the rows that it made.
#![tactic(auto)]

ghost use Rattle.std.specs.Prelude.{◌≡◌, ◌≤◌, min, length};
ghost use Rattle.ledger.specs.Limits.{block_limit};
ghost use Rattle.rows.specs.Staging.{all_reach, Loaded, front_stored, stored_rows};

use ledger::Row;

// A column has room for so many rows: no record has more blocks.
pub const ROOM: usize = ledger::BLOCK_LIMIT as usize;

// How many rows of a table of so many rows are staged.
pub fn staged_rows(rows: usize) -> usize
    ensures { result ≡ min rows block_limit }
{
    rows.min(ROOM)
}

// How many rows a table and three columns all have.
fn reach(rows: usize, targets: usize, queries: usize, sizes: usize) -> usize
    ensures { result ≡ min rows (min targets (min queries sizes)) }
{
    rows.min(targets.min(queries.min(sizes)))
}

// The first n rows into the fronts of three columns.
fn load(rows: &[Row], n: usize, t: &mut [u64], q: &mut [u64], s: &mut [u64])
    requires { (n ≤ length rows.now) × (n ≤ length t.old) × (n ≤ length q.old) × (n ≤ length s.old) }
    ensures { Loaded n rows.now t.old t.new q.old q.new s.old
        s.new }
{
    for (i, r) in rows[..n].iter().enumerate() {
        t[i] = r.target;
        q[i] = r.query;
        s[i] = r.size;
    }
}

// The first n numbers of three columns into the first rows.
fn store(rows: &mut [Row], n: usize, t: &[u64], q: &[u64], s: &[u64])
    requires { (n ≤ length rows.old) × (n ≤ length t.now) × (n ≤ length q.now) × (n ≤ length s.now) }
    ensures { rows.new ≡ front_stored n t.now q.now s.now rows.old }
{
    for (i, row) in rows[..n].iter_mut().enumerate() {
        *row = Row {
            target: t[i],
            query: q[i],
            size: s[i],
        };
    }
}

// Puts the rows of a table into three columns, as many as all four have.
pub fn load_rows(rows: &[Row], targets: &mut [u64], queries: &mut [u64], sizes: &mut [u64])
    ensures { Loaded (all_reach (length rows.now) targets.old queries.old sizes.old)
        rows.now targets.old targets.new queries.old queries.new
        sizes.old sizes.new }
{
    let n = reach(rows.len(), targets.len(), queries.len(), sizes.len());
    load(rows, n, targets, queries, sizes)
}

// Stores the first so many rows of three columns in a table, as far as all four reach. Rows past them stay.
pub fn store_rows(rows: &mut [Row], count: usize, targets: &[u64], queries: &[u64], sizes: &[u64])
    ensures { rows.new ≡ stored_rows count targets.now queries.now sizes.now
        rows.old }
{
    let n = count.min(reach(rows.len(), targets.len(), queries.len(), sizes.len()));
    store(rows, n, targets, queries, sizes)
}

// Turning a chain: its sides exchanged, its blocks stored into lent slices.
#![tactic(auto)]

ghost use Rattle.std.specs.Prelude.{◌≡◌, ◌≤◌, ◌<◌, length};
ghost use Rattle.std.proofs.lemmas.List.Edits.{sets};
ghost use Rattle.blocks.specs.Strands.{strand_start, strand_end};
ghost use Rattle.blocks.specs.Rows.{table_of};
ghost use Rattle.turn.specs.Turns.{source_of, list_of, start_at, size_at, Fillable, SpansFit, turned, not_turned, TurnedInto};

use chain::Chain;
use ledger::{Reason, Refusal, Strand};

// The row that a turned row comes from.
fn source_of(k: Strand, n: usize, i: usize) -> usize
    requires { i < n }
    ensures { (result ≡ source_of k n i) × (result < n) }
{
    match k {
        Strand::Plus => i,
        Strand::Minus => n - 1 - i,
        Strand::Dot => i,
    }
}

// A side's starts after the turn, from the other side's: one pass.
fn fill_starts(k: Strand, size: u64, n: usize, starts: &[u64], sizes: &[u64], out: &mut [u64])
    requires { Fillable size n starts.now sizes.now out.old }
    ensures { out.new
        ≡ sets out.old 0 (list_of (start_at k size n starts.now sizes.now) 0 n) }
{
    for (i, y) in out[..n].iter_mut().enumerate() {
        let j = source_of(k, n, i);
        let x = starts[j];
        let z = sizes[j];
        *y = blocks::strand_start(k, size, x, x + z);
    }
}

// The sizes after the turn: one pass.
fn fill_sizes(k: Strand, n: usize, sizes: &[u64], out: &mut [u64])
    requires { (n ≤ length sizes.now) × (n ≤ length out.old) }
    ensures { out.new ≡ sets out.old 0 (list_of (size_at k n sizes.now) 0 n) }
{
    for (i, y) in out[..n].iter_mut().enumerate() {
        let j = source_of(k, n, i);
        *y = sizes[j];
    }
}

// The record after the turn.
fn turn_record(c: Chain) -> Chain
    requires { SpansFit c }
    ensures { result ≡ turned c }
{
    let k = c.qStrand;
    let tName = c.qName;
    let qName = c.tName;
    let tStart = blocks::strand_start(k, c.qSize, c.qStart, c.qEnd);
    let tEnd = blocks::strand_end(k, c.qSize, c.qStart, c.qEnd);
    let qStart = blocks::strand_start(k, c.tSize, c.tStart, c.tEnd);
    let qEnd = blocks::strand_end(k, c.tSize, c.tStart, c.tEnd);
    Chain {
        score: c.score,
        tName,
        tSize: c.qSize,
        tStart,
        tEnd,
        qName,
        qSize: c.tSize,
        qStrand: k,
        qStart,
        qEnd,
        id: c.id,
        blockCount: c.blockCount,
    }
}

fn not_turned(reason: Reason) -> Result<Chain, Refusal>
    ensures { result ≡ not_turned reason }
{
    Err(Refusal::without_text(reason))
}

// THE TURN of a chain: record and rows are tested again, as they may be anything; the turned blocks go to the front of three lent
// slices. A refusal leaves them as they were, and rows past the answer stay.
pub fn turn_chain(
    c: Chain,
    targets: &[u64],
    queries: &[u64],
    sizes: &[u64],
    newTargets: &mut [u64],
    newQueries: &mut [u64],
    newSizes: &mut [u64],
) -> Result<Chain, Refusal>
    ensures { TurnedInto c (table_of targets.now queries.now sizes.now)
        newTargets.old newQueries.old newSizes.old
        newTargets.new newQueries.new newSizes.new result }
{
    if !lift::is_accepted(c, targets, queries, sizes) {
        return not_turned(Reason::BlockRules);
    }
    let n = c.blockCount as usize;
    let room = blocks::rows_of(newTargets, newQueries, newSizes);
    if room < n {
        return not_turned(Reason::NoRoom);
    }
    let k = c.qStrand;
    fill_starts(k, c.qSize, n, queries, sizes, newTargets);
    fill_starts(k, c.tSize, n, targets, sizes, newQueries);
    fill_sizes(k, n, sizes, newSizes);
    let d = turn_record(c);
    Ok(d)
}

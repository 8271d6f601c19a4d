// Pairs of a chain, lifting a position through it, and converting a span to the other strand.
#![tactic(auto)]

ghost use Rattle.std.specs.Prelude.{◌≡◌, ◌+◌, ◌-◌, ◌≤◌, ◌<◌, pos, ◌-ℤ◌};
ghost use Rattle.ledger.specs.Limits.{largest_position};
ghost use Rattle.blocks.specs.Rows.{table_of};
ghost use Rattle.chain.specs.Records.{chain_rows};
ghost use Rattle.lift.specs.Accepted.{accepted, Ready};
ghost use Rattle.lift.specs.Conversion.{not_converted, converted};
ghost use Rattle.lift.specs.Pairs.{forward_on, pairs, partner_of, InBlock};
ghost use Rattle.lift.specs.Positions.{not_lifted, lift_position};
ghost use Rattle.lift.specs.Texts.{text_position, ChainHeld};

use chain::Chain;
use ledger::{Position, Reason, Refusal, Strand};

// A span of a sequence: its first base, and the base after its last.
#[derive(Clone, Copy)]
pub struct Span {
    pub start: u64,
    pub end: u64,
}

fn not_converted(reason: Reason) -> Result<Span, Refusal>
    ensures { result ≡ not_converted reason }
{
    Err(Refusal::without_text(reason))
}

// THE CONVERSION of a span to the other strand of a sequence of so many bases.
pub fn convert(start: u64, end: u64, size: u64) -> Result<Span, Refusal>
    ensures { result ≡ converted start end size }
{
    let most = Position::LARGEST;
    if !((start <= most) & ((end <= most) & (size <= most))) {
        return not_converted(Reason::NumberOutOfRange);
    }
    if end <= start {
        return not_converted(Reason::SpanDisagrees);
    }
    if size < end {
        return not_converted(Reason::SpanDisagrees);
    }
    Ok(Span {
        start: size - end,
        end: size - start,
    })
}

// Whether record and rows are an accepted chain.
pub fn is_accepted(c: Chain, targets: &[u64], queries: &[u64], sizes: &[u64]) -> bool
    ensures { result ≡ accepted c (table_of targets.now queries.now sizes.now) }
{
    chain::check_chain(c, targets, queries, sizes).is_ok()
}

// The forward number of a query base.
fn forward_base(k: Strand, size: u64, s: u64) -> u64
    requires { s < size }
    ensures { result ≡ forward_on k size s }
{
    blocks::strand_start(k, size, s, s + 1)
}

// Whether a base lies in a block.
fn in_block(start: u64, size: u64, p: u64) -> bool
    ensures { InBlock result start size p }
{
    if p < start {
        return false;
    }
    p - start < size
}

// The partner of a target base, if it has one, in an accepted chain: one pass over the blocks.
fn find_partner(c: Chain, targets: &[u64], queries: &[u64], sizes: &[u64], p: u64) -> Option<u64>
    requires { Ready c targets.now queries.now sizes.now }
    ensures { result ≡ partner_of p (pairs c (table_of targets.now queries.now sizes.now)) }
{
    let n = c.blockCount as usize;
    let k = c.qStrand;
    let size = c.qSize;
    for i in 0..n {
        let t = targets[i];
        let z = sizes[i];
        if in_block(t, z, p) {
            let s = queries[i] + (p - t);
            return Some(forward_base(k, size, s));
        }
    }
    None
}

// The drift: partner minus position.
fn drift_of(p: u64, q: u64) -> i64
    requires { (p ≤ largest_position) × (q ≤ largest_position) }
    ensures { result ≡ pos q -ℤ pos p }
{
    (q as i64) - (p as i64)
}

fn not_lifted(reason: Reason) -> Result<(u64, i64), Refusal>
    ensures { result ≡ not_lifted reason }
{
    Err(Refusal::without_text(reason))
}

// The lift of a position through rows of an accepted chain: its partner and the drift.
fn position_ready(
    c: Chain,
    targets: &[u64],
    queries: &[u64],
    sizes: &[u64],
    p: u64,
) -> Result<(u64, i64), Refusal>
    requires { Ready c targets.now queries.now sizes.now }
    ensures { result ≡ lift_position c (table_of targets.now queries.now sizes.now) p }
{
    if c.tSize <= p {
        return not_lifted(Reason::OutsideTarget);
    }
    match find_partner(c, targets, queries, sizes, p) {
        Some(q) => Ok((q, drift_of(p, q))),
        None => not_lifted(Reason::NoPair),
    }
}

// THE LIFT OF A POSITION through a chain: record and rows are tested again, as they may be anything.
pub fn lift_position(
    c: Chain,
    targets: &[u64],
    queries: &[u64],
    sizes: &[u64],
    p: u64,
) -> Result<(u64, i64), Refusal>
    ensures { result ≡ lift_position c (table_of targets.now queries.now sizes.now) p }
{
    if !is_accepted(c, targets, queries, sizes) {
        return not_lifted(Reason::BlockRules);
    }
    position_ready(c, targets, queries, sizes, p)
}

// The same through the rows that reading a chain's text left in its working room.
fn position_rows(text: &[u8], c: Chain, rows: &[u64], p: u64) -> Result<(u64, i64), Refusal>
    requires { ChainHeld text.now c rows.now }
    ensures { result ≡ lift_position c (chain_rows text.now c) p }
{
    let n = c.blockCount as usize;
    let b = ledger::BLOCK_LIMIT as usize;
    let d = 2 * b;
    let e = b + n;
    let f = d + n;
    position_ready(c, &rows[..n], &rows[b..e], &rows[d..f], p)
}

// THE LIFT OF A POSITION through a chain's text: what a text that is read says is an accepted chain, so it is not tested
// again.
pub fn position_text(text: &[u8], p: u64) -> Result<(u64, i64), Refusal>
    ensures { result ≡ text_position text.now p }
{
    let mut rows = blocks::working_room();
    let c = chain::read_rows(text, &mut rows)?;
    position_rows(text, c, &rows, p)
}

// The rules of blocks over flat slices: order, span, sums and ranges; and moving blocks between tables.
#![tactic(auto)]

ghost use Rattle.std.specs.Prelude.{◌≡◌, ◌+◌, ◌-◌, ◌*◌, length, take};
ghost use Rattle.std.proofs.lemmas.List.Edits.{sets};
ghost use Rattle.ledger.specs.Limits.{block_limit, largest_number};
ghost use Rattle.blocks.specs.Blocks.{blocks_fill, are_sums, sums_within, shifted_within, subtracted, capped, sum_of, gap_count, gap_bases, all_between, row_numbers_fit, span_fits, count_fits, rows_of};
ghost use Rattle.blocks.specs.Strands.{strand_start, strand_end};

use ledger::Strand;

// Whether the first so many blocks fill the span from first to last: in order, touching allowed. Where one slice ends before
// the other, they do not.
pub fn blocks_fill(starts: &[u64], sizes: &[u64], count: usize, first: u64, last: u64) -> bool
    ensures { result ≡ blocks_fill first last (take count starts.now) (take count sizes.now) }
{
    let n = count.min(starts.len());
    if count.min(sizes.len()) != n {
        return false;
    }
    if n == 0 {
        return false;
    }
    let mut s = starts[0];
    let mut z = sizes[0];
    if s != first {
        return false;
    }
    for (&x, &y) in starts[1..n].iter().zip(&sizes[1..n]) {
        if x < s {
            return false;
        }
        if x - s < z {
            return false;
        }
        s = x;
        z = y;
    }
    if last < s {
        return false;
    }
    last - s == z
}

// Whether the first so many numbers are the sums of the earlier sizes. Where one slice ends before the other, they are not.
pub fn are_sums(queries: &[u64], sizes: &[u64], count: usize) -> bool
    ensures { result ≡ are_sums 0 (take count queries.now) (take count sizes.now) }
{
    let n = count.min(queries.len());
    if count.min(sizes.len()) != n {
        return false;
    }
    if n == 0 {
        return true;
    }
    let mut q = queries[0];
    let mut z = sizes[0];
    if q != 0 {
        return false;
    }
    for (&x, &y) in queries[1..n].iter().zip(&sizes[1..n]) {
        if x < q {
            return false;
        }
        if x - q != z {
            return false;
        }
        q = x;
        z = y;
    }
    true
}

// Whether the first so many numbers lie in a range.
pub fn all_between(values: &[u64], count: usize, least: u64, most: u64) -> bool
    ensures { result ≡ all_between least most (take count values.now) }
{
    values.iter().take(count).all(|v| least <= *v && *v <= most)
}

// Whether the numbers of the first so many rows are in their ranges: starts from 0, sizes from 1.
pub fn row_numbers_fit(targets: &[u64], queries: &[u64], sizes: &[u64], count: usize) -> bool
    ensures { result ≡ row_numbers_fit (take count targets.now) (take count queries.now)
        (take count sizes.now) }
{
    let most = ledger::Position::LARGEST;
    all_between(targets, count, 0, most)
        & (all_between(queries, count, 0, most) & all_between(sizes, count, 1, most))
}

// Whether a span lies within its sequence: start < end ≤ size.
pub fn span_fits(start: u64, end: u64, size: u64) -> bool
    ensures { result ≡ span_fits start end size }
{
    (start < end) & (end <= size)
}

// Copies the first so many numbers to the front of a table, as far as both reach.
pub fn copy_numbers(from: &[u64], count: usize, to: &mut [u64])
    ensures { to.new ≡ sets to.old 0 (take count from.now) }
{
    let n = count.min(from.len()).min(to.len());
    to[..n].copy_from_slice(&from[..n]);
}

// Puts the sums of the earlier sizes at the front of a table, as far as it reaches, for the first so many sizes. A sum that 64
// bits do not hold ends them.
pub fn put_sums(sizes: &[u64], count: usize, to: &mut [u64])
    ensures { to.new ≡ sets to.old 0 (sums_within largest_number 0 (take count sizes.now)) }
{
    let n = count.min(sizes.len());
    let mut sum: u64 = 0;
    for (i, &z) in sizes[..n].iter().enumerate() {
        numbers::store(to, i, sum);
        if ledger::LARGEST_NUMBER - sum < z {
            return;
        }
        sum += z;
    }
}

// Puts the first so many numbers, moved up, at the front of a table, as far as it reaches. A sum that 64 bits do not hold ends them.
pub fn put_shifted(from: &[u64], count: usize, by: u64, to: &mut [u64])
    ensures { to.new ≡ sets to.old 0 (shifted_within largest_number by (take count from.now)) }
{
    let n = count.min(from.len());
    for (i, &x) in from[..n].iter().enumerate() {
        if ledger::LARGEST_NUMBER - by < x {
            return;
        }
        numbers::store(to, i, by + x);
    }
}

// Where a span starts, and ends, that is told on a strand of a sequence of some size: on the forward strand it is told as
// it is, on the other by its distance from the far end. The same conversion leads back.
pub fn strand_start(strand: Strand, size: u64, start: u64, end: u64) -> u64
    ensures { result ≡ strand_start strand size start end }
{
    match strand {
        Strand::Plus => start,
        Strand::Minus => size.saturating_sub(end),
        Strand::Dot => start,
    }
}

pub fn strand_end(strand: Strand, size: u64, start: u64, end: u64) -> u64
    ensures { result ≡ strand_end strand size start end }
{
    match strand {
        Strand::Plus => end,
        Strand::Minus => size.saturating_sub(start),
        Strand::Dot => end,
    }
}

// Puts the first so many numbers, moved down, at the front of a table, as far as it reaches; none goes below 0.
pub fn put_subtracted(from: &[u64], count: usize, by: u64, to: &mut [u64])
    ensures { to.new ≡ sets to.old 0 (subtracted by (take count from.now)) }
{
    let n = count.min(from.len());
    for (i, &x) in from[..n].iter().enumerate() {
        numbers::store(to, i, x.saturating_sub(by));
    }
}

// The number of rows of a table of three slices.
pub fn rows_of(targets: &[u64], queries: &[u64], sizes: &[u64]) -> usize
    ensures { result ≡ rows_of targets.now queries.now sizes.now }
{
    targets.len().min(queries.len()).min(sizes.len())
}

// Working room for three lists of a record's blocks.
pub const ROOM: usize = 3 * ledger::BLOCK_LIMIT as usize;

pub fn working_room() -> [u64; ROOM]
    ensures { length result ≡ 3 * block_limit }
{
    [0; ROOM]
}

// Whether a count of blocks is one: 1 to the limit, and not past the table.
pub fn count_fits(count: u64, rows: usize) -> bool
    ensures { result ≡ count_fits count rows }
{
    (1 <= count) & ((count <= ledger::BLOCK_LIMIT) & (count <= rows as u64))
}

// The sum of the first so many numbers, or the largest number.
pub fn sum_of(values: &[u64], count: usize) -> u64
    ensures { result ≡ capped (sum_of (take count values.now)) }
{
    values
        .iter()
        .take(count)
        .fold(0, |sum, v| sum.saturating_add(*v))
}

// The bases between the end of a block and the next start; 0 where they touch or overlap.
pub fn gap_after(s: u64, z: u64, x: u64) -> u64
    ensures { result ≡ x - (s + z) }
{
    x.saturating_sub(s).saturating_sub(z)
}

// The nonempty gaps between the first so many blocks.
pub fn gap_count(starts: &[u64], sizes: &[u64], count: usize) -> u64
    ensures { result ≡ gap_count (take count starts.now) (take count sizes.now) }
{
    let n = count.min(sizes.len()).min(starts.len());
    if n == 0 {
        return 0;
    }
    let mut gaps: u64 = 0;
    let mut s = starts[0];
    let mut z = sizes[0];
    for (&x, &y) in starts[1..n].iter().zip(&sizes[1..n]) {
        gaps += gap_after(s, z, x).min(1);
        s = x;
        z = y;
    }
    gaps
}

// Their bases, or the largest number.
pub fn gap_bases(starts: &[u64], sizes: &[u64], count: usize) -> u64
    ensures { result ≡ capped (gap_bases (take count starts.now) (take count sizes.now)) }
{
    let n = count.min(sizes.len()).min(starts.len());
    if n == 0 {
        return 0;
    }
    let mut bases: u64 = 0;
    let mut s = starts[0];
    let mut z = sizes[0];
    for (&x, &y) in starts[1..n].iter().zip(&sizes[1..n]) {
        bases = bases.saturating_add(gap_after(s, z, x));
        s = x;
        z = y;
    }
    bases
}

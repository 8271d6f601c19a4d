// The tally between two cases, three numbers in a lent table.
use region::Tally;

pub(crate) fn tally_in(tally: &[u64]) -> Tally {
    Tally {
        asked: columns::value_at(tally, 0),
        kept: columns::value_at(tally, 1),
        dropped: columns::value_at(tally, 2),
    }
}

pub(crate) fn keep_tally(tally: &mut [u64], asked: u64, kept: u64, dropped: u64) {
    numbers::store(tally, 0, asked);
    numbers::store(tally, 1, kept);
    numbers::store(tally, 2, dropped);
}

pub(crate) fn put_tally(out: &mut [u8], at: usize, t: Tally) -> usize {
    let a = writing::put_bytes(out, at, b" tally");
    cases::put_spaced(out, a, &[t.asked, t.kept, t.dropped])
}

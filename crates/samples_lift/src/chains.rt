// The chain that a case hands in, after the words of its question: an escaped text, which begins with `c`; or a record's words. These
// are score, tSize, tStart, tEnd, qSize, qStrand, qStart, qEnd, id, blockCount, `=` and a name twice (the target's, the query's), and the
// rows of the table, three numbers each; only the names are escaped.
use chain::Chain;
use ledger::{Part, Refusal};

// Puts the name that a word spells into a page: its length.
fn put_name(words: &[u8], k: usize, page: &mut [u8], at: usize) -> usize {
    let mut name = cases::name_room();
    let n = cases::name_at(words, k, &mut name);
    writing::put_bytes(page, at, &name[0..n]);
    n
}

// The record of a line's words; its names go to a page one after the other, the target's first.
fn record_at(words: &[u8], page: &mut [u8]) -> Chain {
    let target = put_name(words, 10, page, 0);
    let query = put_name(words, 11, page, target);
    Chain {
        score: cases::number_at(words, 0),
        tName: Part {
            start: 0,
            length: target,
        },
        tSize: cases::number_at(words, 1),
        tStart: cases::number_at(words, 2),
        tEnd: cases::number_at(words, 3),
        qName: Part {
            start: target,
            length: query,
        },
        qSize: cases::number_at(words, 4),
        qStrand: cases::strand_at(words, 5),
        qStart: cases::number_at(words, 6),
        qEnd: cases::number_at(words, 7),
        id: cases::number_at(words, 8),
        blockCount: cases::number_at(words, 9),
    }
}

// A record's words, its names to a page and its rows to tables: the record, and how many rows its table has.
fn from_words(
    words: &[u8],
    page: &mut [u8],
    targets: &mut [u64],
    queries: &mut [u64],
    sizes: &mut [u64],
) -> (Chain, usize) {
    let c = record_at(words, page);
    let rows = cases::row_numbers_at(words, 12, 0, targets);
    cases::row_numbers_at(words, 12, 1, queries);
    cases::row_numbers_at(words, 12, 2, sizes);
    (c, rows)
}

// A text, unescaped to a page and read into a table of 512 rows.
fn from_text(
    escaped: &[u8],
    page: &mut [u8],
    targets: &mut [u64],
    queries: &mut [u64],
    sizes: &mut [u64],
) -> Result<(Chain, usize), Refusal> {
    let n = cases::unescape(escaped, page);
    let c = cases_chain::read_chain(&page[0..n], rows::ROOM, targets, queries, sizes)?;
    Ok((c, rows::ROOM))
}

// The chain from a word of a line on, or why its text is refused.
pub(crate) fn chain_at(
    line: &[u8],
    k: usize,
    page: &mut [u8],
    targets: &mut [u64],
    queries: &mut [u64],
    sizes: &mut [u64],
) -> Result<(Chain, usize), Refusal> {
    let w = text::word_at(line, 0, k);
    let a = w.start.min(line.len());
    if cases::byte_at(line, a) == b'c' {
        return from_text(&line[a..], page, targets, queries, sizes);
    }
    Ok(from_words(&line[a..], page, targets, queries, sizes))
}

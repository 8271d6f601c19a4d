// Numbers as bytes, the lowest first: stored in a lent buffer and read back. `put_` functions are as those of `writing`.
#![tactic(auto)]

ghost use Rattle.std.specs.Prelude.{◌≡◌, [], ◌∷◌, ◌+◌, ◌*◌, ◌≤◌, min, leb, length};
ghost use Rattle.std.proofs.lemmas.List.Edits.{sets};
ghost use Rattle.blocks.specs.Blocks.{rows_of};
ghost use Rattle.blocks.specs.Rows.{row_as, table_of};
ghost use Rattle.writing.specs.Puts.{Put};
ghost use Rattle.binary.specs.Bytes.{low_bytes, word_size, words_bytes, low_at, rows_numbers, ByteRead};

// A number takes so many bytes where nothing else is said.
pub const WORD_SIZE: usize = 8;

// Stores the lowest so many bytes of a number.
pub fn put_low(buf: &mut [u8], at: usize, n: u64, count: usize) -> usize
    ensures { Put (low_bytes count n) at buf.old buf.new result }
{
    let mut p = at;
    let mut rest = n;
    for _ in 0..count {
        p = writing::put_byte(buf, p, (rest % 256) as u8);
        rest /= 256;
    }
    p
}

// Stores the bytes of a number, which there is room for, all at once.
fn store_word(buf: &mut [u8], at: usize, n: u64)
    requires { at + word_size ≤ length buf.old }
    ensures { buf.new ≡ sets buf.old at (low_bytes word_size n) }
{
    buf[at..at + WORD_SIZE].copy_from_slice(&n.to_le_bytes());
}

// Stores numbers, a word each, which there is room for.
fn store_words(buf: &mut [u8], at: usize, vs: &[u64])
    requires { at + word_size * length vs.now ≤ length buf.old }
    ensures { buf.new ≡ sets buf.old at (words_bytes vs.now) }
{
    for (i, v) in vs.iter().enumerate() {
        store_word(buf, at + WORD_SIZE * i, *v);
    }
}

// Whether so many bytes have room for so many words from a place on.
// Words are counted by a quotient: their bytes may be more than a place can hold, so `writing`'s `has_room` won't do.
fn has_room(n: usize, at: usize, words: usize) -> bool
    ensures { result ≡ leb (at + word_size * words) n }
{
    if n < at {
        return false;
    }
    words <= (n - at) / WORD_SIZE
}

// Stores numbers, a word each, byte by byte as far as the buffer reaches.
fn put_each(buf: &mut [u8], at: usize, vs: &[u64]) -> usize
    ensures { Put (words_bytes vs.now) at buf.old buf.new result }
{
    let mut p = at;
    for v in vs {
        p = put_low(buf, p, *v, WORD_SIZE);
    }
    p
}

// Stores numbers, a word each. Where there is room for all of them no byte is tested by itself.
pub fn put_words(buf: &mut [u8], at: usize, vs: &[u64]) -> usize
    ensures { Put (words_bytes vs.now) at buf.old buf.new result }
{
    if has_room(buf.len(), at, vs.len()) {
        store_words(buf, at, vs);
        return at + WORD_SIZE * vs.len();
    }
    put_each(buf, at, vs)
}

// Stores five numbers at the front of a buffer, as far as it reaches. Their number is known, so that no loop is left of it.
pub fn put_five(buf: &mut [u8], vs: [u64; 5])
    ensures { buf.new ≡ sets buf.old 0 (words_bytes vs) }
{
    if buf.len() < 5 * WORD_SIZE {
        put_each(buf, 0, &vs);
        return;
    }
    store_words(buf, 0, &vs);
}

// Stores the three numbers of a row.
fn put_row(buf: &mut [u8], at: usize, target: u64, query: u64, size: u64) -> usize
    ensures { Put (words_bytes (rows_numbers (row_as target query size ∷ []))) at buf.old buf.new result }
{
    let p = put_low(buf, at, target, WORD_SIZE);
    let q = put_low(buf, p, query, WORD_SIZE);
    put_low(buf, q, size, WORD_SIZE)
}

// Stores the three numbers of a row, which there is room for.
fn store_row(buf: &mut [u8], at: usize, target: u64, query: u64, size: u64)
    requires { at + 3 * word_size ≤ length buf.old }
    ensures { buf.new ≡ sets buf.old at (words_bytes (rows_numbers (row_as target query size ∷ []))) }
{
    store_word(buf, at, target);
    store_word(buf, at + WORD_SIZE, query);
    store_word(buf, at + 2 * WORD_SIZE, size);
}

// Stores the rows of three flat slices, so many as the shortest has, which there is room for.
fn store_rows(buf: &mut [u8], at: usize, targets: &[u64], queries: &[u64], sizes: &[u64], n: usize)
    requires { (n ≡ rows_of targets.now queries.now sizes.now) × (at + word_size * (3 * n) ≤ length buf.old) }
    ensures { buf.new ≡ sets buf.old at
        (words_bytes (rows_numbers (table_of targets.now queries.now sizes.now))) }
{
    for i in 0..n {
        store_row(
            buf,
            at + 3 * WORD_SIZE * i,
            targets[i],
            queries[i],
            sizes[i],
        );
    }
}

// The same byte by byte, as far as the buffer reaches.
fn put_each_row(
    buf: &mut [u8],
    at: usize,
    targets: &[u64],
    queries: &[u64],
    sizes: &[u64],
    n: usize,
) -> usize
    requires { n ≡ rows_of targets.now queries.now sizes.now }
    ensures { Put (words_bytes (rows_numbers (table_of targets.now queries.now sizes.now))) at
        buf.old buf.new result }
{
    let mut p = at;
    for i in 0..n {
        p = put_row(buf, p, targets[i], queries[i], sizes[i]);
    }
    p
}

// Stores the rows of three flat slices, as many as the shortest has. Where there is room for all of them no byte is
// tested by itself.
pub fn put_rows(buf: &mut [u8], at: usize, targets: &[u64], queries: &[u64], sizes: &[u64]) -> usize
    ensures { Put (words_bytes (rows_numbers (table_of targets.now queries.now sizes.now))) at
        buf.old buf.new result }
{
    let n = blocks::rows_of(targets, queries, sizes);
    if has_room(buf.len(), at, 3 * n) {
        store_rows(buf, at, targets, queries, sizes, n);
        return at + 3 * WORD_SIZE * n;
    }
    put_each_row(buf, at, targets, queries, sizes, n)
}

// The byte so many places on, as a number; 0 past the end.
fn byte_at(bytes: &[u8], at: usize, on: usize) -> u64
    ensures { ByteRead bytes.now (at + on) result }
{
    if bytes.len() <= at {
        return 0;
    }
    if bytes.len() - at <= on {
        return 0;
    }
    u64::from(bytes[at + on])
}

// The number that so many bytes from a place on make, at most a word's.
pub fn low_at(bytes: &[u8], at: usize, count: usize) -> u64
    ensures { result ≡ low_at (min count word_size) bytes.now at }
{
    let most = count.min(WORD_SIZE);
    let mut n = 0;
    for left in (0..most).rev() {
        n = byte_at(bytes, at, left) + 256 * n;
    }
    n
}

// The eight bytes from a place on, where they are there.
fn load_word(bytes: &[u8], at: usize) -> u64
    requires { at + word_size ≤ length bytes.now }
    ensures { result ≡ low_at word_size bytes.now at }
{
    u64::from_le_bytes([
        bytes[at],
        bytes[at + 1],
        bytes[at + 2],
        bytes[at + 3],
        bytes[at + 4],
        bytes[at + 5],
        bytes[at + 6],
        bytes[at + 7],
    ])
}

// The word at a place.
pub fn word_at(bytes: &[u8], at: usize) -> u64
    ensures { result ≡ low_at word_size bytes.now at }
{
    if bytes.len() < WORD_SIZE {
        return low_at(bytes, at, WORD_SIZE);
    }
    if bytes.len() - WORD_SIZE < at {
        return low_at(bytes, at, WORD_SIZE);
    }
    load_word(bytes, at)
}

// The first two words.
pub fn two_words(bytes: &[u8]) -> [u64; 2]
    ensures { result ≡ low_at word_size bytes.now 0 ∷ low_at word_size bytes.now word_size ∷ [] }
{
    if bytes.len() < 2 * WORD_SIZE {
        return [word_at(bytes, 0), word_at(bytes, WORD_SIZE)];
    }
    [load_word(bytes, 0), load_word(bytes, WORD_SIZE)]
}

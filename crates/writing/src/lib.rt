// Writing bytes, a number's digits and comma lists into a lent buffer.
// `put_` functions store from a place on as far as the buffer reaches and answer the place after; `write_` functions test the room first.
#![tactic(auto)]

ghost use Rattle.std.specs.Prelude.{◌≡◌, [], ◌∷◌, ◌++◌, ◌+◌, ◌≤◌, leb, length};
ghost use Rattle.std.proofs.lemmas.List.Edits.{sets};
ghost use Rattle.writing.specs.Digits.{digits, list_text};
ghost use Rattle.writing.specs.Puts.{Put};
ghost use Rattle.writing.specs.Answers.{room_answer, Wrote};

use ledger::{Reason, Refusal};

// Stores one byte.
pub fn put_byte(buf: &mut [u8], at: usize, b: u8) -> usize
    ensures { Put (b ∷ []) at buf.old buf.new result }
{
    if at < buf.len() {
        buf[at] = b;
        return at + 1;
    }
    at.saturating_add(1)
}

// Stores bytes that there is room for. By a loop: a copy of slices would have programs that link the archive supply `memmove`.
fn store_bytes(buf: &mut [u8], at: usize, bytes: &[u8])
    requires { at + length bytes.now ≤ length buf.old }
    ensures { buf.new ≡ sets buf.old at bytes.now }
{
    for (i, b) in bytes.iter().enumerate() {
        buf[at + i] = *b;
    }
}

// Stores bytes one by one, as far as the buffer reaches.
fn put_each(buf: &mut [u8], at: usize, bytes: &[u8]) -> usize
    ensures { Put bytes.now at buf.old buf.new result }
{
    let mut p = at;
    for b in bytes {
        p = put_byte(buf, p, *b);
    }
    p
}

// Whether so many bytes of room have room for n from a place on.
fn has_room(room: usize, at: usize, n: usize) -> bool
    ensures { result ≡ leb (at + n) room }
{
    if room < at {
        return false;
    }
    n <= room - at
}

// Stores bytes. Where there is room for all of them none is tested by itself.
pub fn put_bytes(buf: &mut [u8], at: usize, bytes: &[u8]) -> usize
    ensures { Put bytes.now at buf.old buf.new result }
{
    if has_room(buf.len(), at, bytes.len()) {
        store_bytes(buf, at, bytes);
        return at + bytes.len();
    }
    put_each(buf, at, bytes)
}

// Stores a number's digits.
pub fn put_number(buf: &mut [u8], at: usize, n: u64) -> usize
    ensures { Put (digits n) at buf.old buf.new result }
{
    if n < 10 {
        return put_byte(buf, at, (48 + n) as u8);
    }
    let p = put_number(buf, at, n / 10);
    put_byte(buf, p, (48 + n % 10) as u8)
}

// Stores a number's digits and a comma.
fn put_item(buf: &mut [u8], at: usize, n: u64) -> usize
    ensures { Put (list_text (n ∷ [])) at buf.old buf.new result }
{
    let p = put_number(buf, at, n);
    put_byte(buf, p, b',')
}

// Stores a comma list, a comma after each number.
pub fn put_list(buf: &mut [u8], at: usize, vs: &[u64]) -> usize
    ensures { Put (list_text vs.now) at buf.old buf.new result }
{
    let mut p = at;
    for v in vs {
        p = put_item(buf, p, *v);
    }
    p
}

// Whether a standard text of so many bytes can be written: its length (1), then the room (11).
pub fn room_for(n: usize, room: usize) -> Result<usize, Refusal>
    ensures { result ≡ room_answer n room }
{
    if ledger::TEXT_LIMIT < n {
        return Err(Refusal::without_text(Reason::TextTooLong));
    }
    if room < n {
        return Err(Refusal::without_text(Reason::NoRoom));
    }
    Ok(n)
}

// Writes bytes to the front of a buffer.
pub fn write_bytes(buf: &mut [u8], bytes: &[u8]) -> Result<usize, Refusal>
    ensures { Wrote bytes.now buf.old buf.new result }
{
    room_for(bytes.len(), buf.len())?;
    Ok(put_bytes(buf, 0, bytes))
}

// Writes bytes and a line feed to the front of a buffer.
pub fn write_fed(buf: &mut [u8], bytes: &[u8]) -> Result<usize, Refusal>
    ensures { Wrote (bytes.now ++ (10 ∷ [])) buf.old buf.new result }
{
    room_for(bytes.len().saturating_add(1), buf.len())?;
    let p = put_bytes(buf, 0, bytes);
    Ok(put_byte(buf, p, b'\n'))
}

// Writes a number's digits to the front of a buffer. Putting them into no buffer at all measures them first.
pub fn write_number(buf: &mut [u8], n: u64) -> Result<usize, Refusal>
    ensures { Wrote (digits n) buf.old buf.new result }
{
    let mut none = [0u8; 0];
    room_for(put_number(&mut none, 0, n), buf.len())?;
    Ok(put_number(buf, 0, n))
}

// Writes a comma list to the front of a buffer.
pub fn write_list(buf: &mut [u8], vs: &[u64]) -> Result<usize, Refusal>
    ensures { Wrote (list_text vs.now) buf.old buf.new result }
{
    let mut none = [0u8; 0];
    room_for(put_list(&mut none, 0, vs), buf.len())?;
    Ok(put_list(buf, 0, vs))
}

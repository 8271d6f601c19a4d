// Escaped payloads: `\n`, `\t`, `\s`, `\\`, `\xHH`, and `\*NNNNNc`, which stands for NNNNN times the byte c.
ghost use Rattle.std.specs.Prelude.{◌≡◌, ◌≤◌, max, length};

use crate::byte_at;
use text::Class;

// What the front of an escaped text stands for: a byte, how many times, and how many bytes spell that.
#[derive(Clone, Copy)]
struct Unescaped {
    byte: u8,
    times: usize,
    width: usize,
}

fn once(byte: u8, width: usize) -> Unescaped
    ensures { result.width ≡ width }
{
    Unescaped {
        byte,
        times: 1,
        width,
    }
}

// A lowercase hexadecimal digit, else 16.
fn hex_digit(b: u8) -> u8
    ensures { result ≤ 16 }
{
    match b {
        b'0'..=b'9' => b - b'0',
        b'a'..=b'f' => b - b'a' + 10,
        _ => 16,
    }
}

// The byte that a letter after a backslash stands for, else 0.
fn short_escape(b: u8) -> u8 {
    match b {
        b'n' => b'\n',
        b't' => b'\t',
        b's' => b' ',
        b'\\' => b'\\',
        _ => 0,
    }
}

// A text that begins with a backslash and `x`.
fn coded(s: &[u8]) -> Unescaped
    ensures { (1 ≤ result.width) × (result.width ≤ max 1 (length s.now)) }
{
    let high = hex_digit(byte_at(s, 2));
    let low = hex_digit(byte_at(s, 3));
    if s.len() < 4 {
        return once(b'\\', 1);
    }
    if 15 < high {
        return once(b'\\', 1);
    }
    if 15 < low {
        return once(b'\\', 1);
    }
    once(high * 16 + low, 4)
}

// The value of a few digits, leading zeros among them.
fn times_of(digits: &[u8]) -> usize {
    let mut n: usize = 0;
    for digit in digits {
        n = n % 10000 * 10 + hex_digit(*digit) as usize;
    }
    n
}

// A text that begins with a backslash and `*`.
fn repeated(s: &[u8]) -> Unescaped
    ensures { (1 ≤ result.width) × (result.width ≤ max 1 (length s.now)) }
{
    if s.len() < 8 {
        return once(b'\\', 1);
    }
    if text::scan(s, 2, Class::Digit) < 7 {
        return once(b'\\', 1);
    }
    Unescaped {
        byte: s[7],
        times: times_of(&s[2..7]),
        width: 8,
    }
}

// The front of an escaped text. A backslash that begins no escape stands for itself.
fn front_of(s: &[u8]) -> Unescaped
    ensures { (1 ≤ result.width) × (result.width ≤ max 1 (length s.now)) }
{
    let first = byte_at(s, 0);
    if first != b'\\' {
        return once(first, 1);
    }
    if s.len() < 2 {
        return once(first, 1);
    }
    if s[1] == b'x' {
        return coded(s);
    }
    if s[1] == b'*' {
        return repeated(s);
    }
    let byte = short_escape(s[1]);
    if byte == 0 {
        return once(first, 1);
    }
    once(byte, 2)
}

// Stores a byte so many times.
fn put_times(buf: &mut [u8], at: usize, b: u8, times: usize) -> usize {
    let mut p = at;
    for _ in 0..times {
        p = writing::put_byte(buf, p, b);
    }
    p
}

// Stores what an escaped text stands for at the front of a buffer, as far as it reaches: the number of bytes there.
pub fn unescape(s: &[u8], buf: &mut [u8]) -> usize
    ensures { result ≤ length buf.new }
{
    let mut n = 0;
    let mut i = 0;
    while i < s.len() {
        let u = front_of(&s[i..]);
        n = put_times(buf, n, u.byte, u.times);
        i += u.width;
    }
    n.min(buf.len())
}

// A drift as bytes: a signed number.
ghost use Rattle.std.specs.Prelude.{◌≤◌, pos, ◌≤ℤ◌};

// A signed number that is not negative.
fn natural(x: i64) -> u64
    requires { pos 0 ≤ℤ x }
    ensures { result ≤ 9223372036854775808 }
{
    x as u64
}

// A signed number without its sign.
fn magnitude(x: i64) -> u64 {
    if 0 <= x {
        return natural(x);
    }
    natural(-1 - x) + 1
}

pub(crate) fn put_drift(out: &mut [u8], at: usize, drift: i64) -> usize {
    let size = magnitude(drift);
    if drift < 0 {
        return cases::put_labelled(out, at, b" drift -", size);
    }
    cases::put_labelled(out, at, b" drift ", size)
}

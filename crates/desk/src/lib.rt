// The entries for programs in other languages (docs/DESK.md), on numbers and slices of bytes. Each is a function of `entries`,
// under the name that a linker finds; the static library of this crate is what a program links.
#![tactic(auto)]

ghost use Rattle.std.specs.Prelude.{◌≡◌, length};
ghost use Rattle.answers.specs.Answers.{Answered};
ghost use Rattle.entries.specs.Entries.{checked, numbers_given, converted_numbers, parsed, formatted, position_lifted, region_lifted, tallied, BatchTold, turned_text};

// Whether a text is accepted.
#[unsafe(no_mangle)]
pub extern "C" fn tenderchock_check(kind: u64, text: &[u8]) -> u64
    ensures { result ≡ (checked kind text.now).answer }
{
    entries::check(kind, text)
}

// The numbers of a text of one line.
#[unsafe(no_mangle)]
pub extern "C" fn tenderchock_numbers(text: &[u8], out: &mut [u8]) -> u64
    ensures { Answered (numbers_given text.now (length out.old))
        out.old out.new result }
{
    entries::numbers(text, out)
}

// Start and end on the other strand.
#[unsafe(no_mangle)]
pub extern "C" fn tenderchock_convert(start: u64, end: u64, size: u64, out: &mut [u8]) -> u64
    ensures { Answered (converted_numbers start end size (length out.old))
        out.old out.new result }
{
    entries::convert(start, end, size, out)
}

// The record of a text and its rows, as numbers.
#[unsafe(no_mangle)]
pub extern "C" fn tenderchock_parse(kind: u64, text: &[u8], out: &mut [u8]) -> u64
    ensures { Answered (parsed kind text.now (length out.old))
        out.old out.new result }
{
    entries::parse(kind, text, out)
}

// The standard text of what was read.
#[unsafe(no_mangle)]
pub extern "C" fn tenderchock_format(kind: u64, text: &[u8], out: &mut [u8]) -> u64
    ensures { Answered (formatted kind text.now (length out.old))
        out.old out.new result }
{
    entries::format(kind, text, out)
}

// The partner and the drift of a position.
#[unsafe(no_mangle)]
pub extern "C" fn tenderchock_lift_position(text: &[u8], position: u64, out: &mut [u8]) -> u64
    ensures { Answered (position_lifted text.now position (length out.old))
        out.old out.new result }
{
    entries::lift_position(text, position, out)
}

// The bases of a region that are kept and dropped, and its query region.
#[unsafe(no_mangle)]
pub extern "C" fn tenderchock_lift_region(text: &[u8], start: u64, end: u64, out: &mut [u8]) -> u64
    ensures { Answered (region_lifted text.now start end (length out.old))
        out.old out.new result }
{
    entries::lift_region(text, start, end, out)
}

// One region of a batch.
#[unsafe(no_mangle)]
pub extern "C" fn tenderchock_tally(text: &[u8], start: u64, end: u64, tally: &mut [u8]) -> u64
    ensures { Answered (tallied text.now start end tally.old)
        tally.old tally.new result }
{
    entries::tally(text, start, end, tally)
}

// Many regions at once: a row of answers for each, and the tally after them. Room for the rows is asked for before the
// text is read.
#[unsafe(no_mangle)]
pub extern "C" fn tenderchock_lift_batch(
    text: &[u8],
    regions: &[u8],
    tally: &mut [u8],
    out: &mut [u8],
) -> u64
    ensures { BatchTold text.now regions.now tally.old tally.new
        out.old out.new result }
{
    entries::lift_batch(text, regions, tally, out)
}

// The standard text of the turned chain.
#[unsafe(no_mangle)]
pub extern "C" fn tenderchock_turn(text: &[u8], out: &mut [u8]) -> u64
    ensures { Answered (turned_text text.now (length out.old))
        out.old out.new result }
{
    entries::turn(text, out)
}

//! A bracket class, byte by byte.
ghost use Rattle.std.specs.Prelude.{◌≡◌, ◌≤◌, length, IfSome};
ghost use Rattle.syntax.specs.Class.{item_mode, range_mode, advanced, is_done, given, close_at, listed, holds, remains};

pub mod mode;

use mode::Mode;

/// The mode after a byte where an item may begin.
fn item(b: u8) -> Mode
    ensures { result ≡ item_mode b }
{
    match b {
        b'\\' => Mode::Escape,
        b'^' | b'-' => Mode::Broken,
        _ => Mode::Single(b),
    }
}

/// The mode after the end of a range.
fn range(low: u8, high: u8) -> Mode
    ensures { result ≡ range_mode low high }
{
    if low <= high {
        Mode::Item(low, high)
    } else {
        Mode::Broken
    }
}

/// The mode after one byte more of a class.
pub fn advance(mode: Mode, b: u8) -> Mode
    ensures { result ≡ advanced mode b }
{
    match mode {
        Mode::Fresh => match b {
            b'^' => Mode::Inverted,
            b']' => Mode::Broken,
            _ => item(b),
        },
        Mode::Inverted => match b {
            b']' => Mode::Broken,
            _ => item(b),
        },
        Mode::Escape => Mode::Single(b),
        Mode::Single(low) => match b {
            b'-' => Mode::Range(low),
            b']' => Mode::Done,
            _ => item(b),
        },
        Mode::Range(low) => match b {
            b'\\' => Mode::RangeEscape(low),
            b']' | b'^' | b'-' => Mode::Broken,
            _ => range(low, b),
        },
        Mode::RangeEscape(low) => range(low, b),
        Mode::Item(_, _) => match b {
            b']' => Mode::Done,
            _ => item(b),
        },
        Mode::Done => Mode::Done,
        Mode::Broken => Mode::Broken,
    }
}

/// Whether the closing bracket was read.
fn is_done(mode: Mode) -> bool
    ensures { result ≡ is_done mode }
{
    match mode {
        Mode::Done => true,
        _ => false,
    }
}

/// Where the class ends, whose text follows the opening bracket: the bytes up to the closing
/// bracket and with it.
pub fn close_at(text: &[u8]) -> Option<usize>
    ensures is { result ≡ close_at Mode.Fresh 0 text.now }
    ensures within { IfSome result (λ n. (1 ≤ n) × (n ≤ length text.now)) }
{
    let mut mode = Mode::Fresh;
    for (i, b) in text.iter().enumerate() {
        if is_done(mode) {
            return Some(i);
        }
        mode = advance(mode, *b);
    }
    if is_done(mode) {
        Some(text.len())
    } else {
        None
    }
}

/// Whether the byte or the range that was just read has x.
fn gives(mode: Mode, x: u8) -> bool
    ensures { result ≡ given mode x }
{
    match mode {
        Mode::Single(b) => x == b,
        Mode::Item(low, high) => low <= x && x <= high,
        _ => false,
    }
}

/// Whether the text of a class, without its brackets, lists x.
fn lists(text: &[u8], x: u8) -> bool
    ensures { result ≡ listed Mode.Fresh text.now x }
{
    let mut mode = Mode::Fresh;
    for b in text {
        mode = advance(mode, *b);
        if gives(mode, x) {
            return true;
        }
    }
    false
}

/// Whether the class, whose text stands between brackets, has the byte x.
pub fn class_holds(text: &[u8], x: u8) -> bool
    ensures { result ≡ holds text.now x }
{
    match text {
        [b'^', ..] => !lists(text, x),
        _ => lists(text, x),
    }
}

/// Whether the class has a byte at all.
pub fn class_remains(text: &[u8]) -> bool
    ensures { result ≡ remains text.now }
{
    for x in 0..256u16 {
        if class_holds(text, x as u8) {
            return true;
        }
    }
    false
}

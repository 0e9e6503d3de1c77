// The line as it was read.
ghost use Rattle.std.specs.Prelude.{◌≡◌};
ghost use Rattle.numbers.specs.Promise.{Gives1};
ghost use Rattle.trace_text.specs.Answers.{put_of};
ghost use Rattle.trace_words.specs.Words.{shown_byte, shown, dots};

use trace_text::answer::{put_byte, put_text};

// What can't be shown is a dot.
fn seen(b: u8) -> u8
    ensures { result ≡ shown_byte b }
{
    match b {
        32..127 => b,
        _ => b'.',
    }
}

pub fn put_line(out: &mut [u8], at: usize, line: &[u8]) -> usize
    ensures { Gives1 result out.new (put_of at (shown line.now) out.old) }
{
    let mut at = at;
    for b in line {
        at = put_byte(out, at, seen(*b));
    }
    at
}

// Dots for the rest of a line that is too long.
pub fn put_rest(out: &mut [u8], at: usize, long: bool) -> usize
    ensures { Gives1 result out.new (put_of at (dots long) out.old) }
{
    if long { put_text(out, at, b"...") } else { at }
}

// A set in a line: rising numbers with commas between them, up to the line's end, put into a lent room.
ghost use Rattle.std.specs.Prelude.{◌≡◌, length};
ghost use Rattle.trace_lines.specs.Sets.{Listing, set_from, listed_in};

use crate::number;

// At least one number.
fn numbers(s: &[u8], least: u64, room: &mut [u64]) -> Option<usize>
    ensures { Listing (listed_in (length room.old) least s.now) result room.new }
{
    let mut left = s;
    let mut low = least;
    for (n, place) in room.iter_mut().enumerate() {
        let (value, after) = number(left)?;
        if value < low {
            return None;
        }
        *place = value;
        match after {
            [] => return Some(n + 1),
            [b',', next @ ..] => left = next,
            _ => return None,
        }
        low = value + 1;
    }
    None
}

// Rising numbers, each at least `least`, at the start of the room: how many.
pub(crate) fn set(s: &[u8], least: u64, room: &mut [u64]) -> Option<usize>
    ensures { Listing (set_from (length room.old) least s.now) result room.new }
{
    if s.is_empty() {
        return Some(0);
    }
    numbers(s, least, room)
}

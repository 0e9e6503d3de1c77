// The input cut into lines, whatever the pieces are in which it comes.
ghost use Rattle.std.specs.Prelude.{◌≡◌, ◌+◌, min, length, drop, set};
ghost use Rattle.numbers.specs.Promise.{Gives1};
ghost use Rattle.trace_text.specs.Cuts.{cut_of, held1};

// How far a piece was taken, how many bytes of the line have come, and whether it has ended. Both numbers stand in either case: no Option.
#[derive(Clone, Copy, Default)]
pub struct Cut {
    pub at: usize,
    pub held: usize,
    pub ended: bool,
}

// The line with one byte more. Past the room only the count shows that the line is too long.
pub fn put(line: &mut [u8], held: usize, b: u8) -> usize
    ensures { Gives1 result line.new (held1 held b line.old) }
{
    if held < line.len() {
        line[held] = b;
        held + 1
    } else {
        line.len() + 1
    }
}

// From a place of the piece on, up to the line's end or the piece's.
pub fn take_line(piece: &[u8], from: usize, line: &mut [u8], held: usize) -> Cut
    ensures { Gives1 result line.new (cut_of from (drop from piece.now) held line.old) }
{
    let mut held = held;
    for i in from..piece.len() {
        let b = piece[i];
        if b == b'\n' {
            return Cut {
                at: i + 1,
                held,
                ended: true,
            };
        }
        held = put(line, held, b);
    }
    Cut {
        at: from.max(piece.len()),
        held,
        ended: false,
    }
}

// What each number returned means.
ghost use Rattle.std.specs.Prelude.{◌≡◌};
ghost use Rattle.numbers.specs.Promise.{Gives1};
ghost use Rattle.trace_text.specs.Answers.{put_of};
ghost use Rattle.trace_words.specs.Words.{meaning};

use trace_text::answer::put_text;

// By the number, which is what an answer holds, as C sees it: to match by name, a table from numbers to names would come first.
fn meaning(number: u32) -> &'static [u8]
    ensures { result.now ≡ meaning number }
{
    match number {
        0 => b"done",
        1 => b"refused: a record or buffer isn't coherent",
        2 => b"refused: a number is out of its range",
        3 => b"refused: the set spans more than 256 numbers",
        4 => b"refused: the payload is longer than a slot of 16 bytes",
        5 => b"refused: the sequence numbers are used up",
        6 => b"refused: the write would block, since the window or the backlog is full",
        7 => b"refused: the store is full",
        8 => b"refused: the reader list is full, it has room for two",
        9 => b"refused: the gap set is full",
        10 => b"refused: fragments of 16 samples are asked for already",
        11 => b"refused: the reader id is 0, unknown, or already there",
        12 => b"ignored: the acknowledgement is ahead of what was written",
        13 => b"refused: a capacity or limit isn't allowed",
        14 => b"refused: there is nothing there",
        _ => b"refused: the line isn't understood, or can't come here",
    }
}

pub fn put_meaning(out: &mut [u8], at: usize, number: u32) -> usize
    ensures { Gives1 result out.new (put_of at (meaning number) out.old) }
{
    put_text(out, at, meaning(number))
}

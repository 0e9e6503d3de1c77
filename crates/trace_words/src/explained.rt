// The three lines: the line that was read, what its answer means, and the figures.
ghost use Rattle.numbers.specs.Promise.{Gives1};
ghost use Rattle.trace_text.specs.Answers.{put_of};
ghost use Rattle.trace_words.specs.Words.{heading, answer_words, explained};

use crate::figures::put_figures;
use crate::meaning::put_meaning;
use crate::shown::{put_line, put_rest};
use trace_text::Figures;
use trace_text::answer::{put_byte, put_field, put_text};

fn put_heading(out: &mut [u8], at: usize, lines: u64, line: &[u8], long: bool) -> usize
    ensures { Gives1 result out.new (put_of at (heading lines line.now long) out.old) }
{
    let k = put_field(out, at, b"line ", lines);
    let k = put_text(out, k, b": ");
    let k = put_line(out, k, line);
    put_rest(out, k, long)
}

fn put_numbered(out: &mut [u8], at: usize, number: u32) -> usize
    ensures { Gives1 result out.new (put_of at (answer_words number) out.old) }
{
    let k = put_field(out, at, b"\n    answer ", u64::from(number));
    let k = put_text(out, k, b", ");
    put_meaning(out, k, number)
}

pub fn put_explained(
    out: &mut [u8],
    at: usize,
    lines: u64,
    line: &[u8],
    long: bool,
    answer: u32,
    told: Figures,
) -> usize
    ensures { Gives1 result out.new (put_of at (explained lines line.now long answer told.last told.first told.acked) out.old) }
{
    let k = put_heading(out, at, lines, line, long);
    let k = put_numbered(out, k, answer);
    let k = put_text(out, k, b"\n    ");
    let k = put_figures(out, k, told);
    put_byte(out, k, b'\n')
}

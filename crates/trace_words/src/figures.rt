// What is written, kept and acknowledged.
ghost use Rattle.numbers.specs.Promise.{Gives1};
ghost use Rattle.trace_text.specs.Answers.{put_of};
ghost use Rattle.trace_words.specs.Words.{kept, figures};

use trace_text::Figures;
use trace_text::answer::{put_field, put_text};

// What is kept.
fn put_kept(out: &mut [u8], at: usize, first: u64, last: u64) -> usize
    ensures { Gives1 result out.new (put_of at (kept first last) out.old) }
{
    if last < first {
        return put_text(out, at, b"; none kept");
    }
    let k = put_field(out, at, b"; kept ", first);
    put_field(out, k, b" to ", last)
}

pub fn put_figures(out: &mut [u8], at: usize, told: Figures) -> usize
    ensures { Gives1 result out.new (put_of at (figures told.last told.first told.acked) out.old) }
{
    if told.first == 0 {
        return put_text(out, at, b"no writer yet");
    }
    let k = put_field(out, at, b"written through ", told.last);
    let k = put_kept(out, k, told.first, told.last);
    let k = put_field(out, k, b"; all before ", told.acked);
    put_text(out, k, b" acknowledged")
}

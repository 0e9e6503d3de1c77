// A line of a trace answered: what it is answered and leaves, as far as it was held, and the text that says so.
#![tactic(auto)]

ghost use Rattle.std.specs.Prelude.{◌≡◌};
ghost use Rattle.numbers.specs.Promise.{Gives1, Gives3};
ghost use Rattle.trace_text.specs.Answers.{put_of};
ghost use Rattle.trace_answers.specs.Shown.{follow_held, figures_in, shown_text};

pub mod input;

pub use input::Answering;
use trace_readers::{Followed, Trace};
use trace_run::follow::follow;
use trace_text::{Figures, put_answer};

// A line of which `held` bytes have come. More than its room has: it is too long, and isn't understood.
pub fn follow_held(
    trace: Trace,
    line: &[u8],
    held: usize,
    store: &mut [u8],
    large: &mut [u64],
    small: &mut [u64],
) -> Followed
    ensures { Gives3 result store.new large.new small.new (follow_held held line.now trace store.old large.old small.old) }
{
    let Some(line) = line.get(..held) else {
        return trace.not_understood();
    };
    follow(trace, line, store, large, small)
}

// The writer's figures, zeros until there is a writer.
pub fn figures(trace: Trace) -> Figures
    ensures { result ≡ figures_in trace }
{
    let flow = trace.flow;
    Figures {
        last: flow.last.rank(),
        first: flow.first.rank(),
        acked: flow.acked.rank(),
    }
}

// The answer to the line of this number, with the writer's figures after it.
pub fn put_followed(out: &mut [u8], at: usize, number: u64, f: Followed) -> usize
    ensures { Gives1 result out.new (put_of at (shown_text number f) out.old) }
{
    let answer = u64::from(f.answer.number);
    put_answer(out, at, number, answer, figures(f.trace))
}

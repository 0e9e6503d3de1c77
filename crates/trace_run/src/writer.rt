// The lines about the writer and the list of its readers: they need no room.
ghost use Rattle.std.specs.Prelude.{◌≡◌};
ghost use Rattle.trace_run.specs.Writer.{new_step, matched_step, evict_step};

use numbers::SequenceNumber;
use reader_list::Match;
use trace_readers::{Followed, Trace};
use writer_send_buffer::{Kind, Limits, WriterSendBuffer};
use writer_steps::readers::match_reader;

// op=new: a reliable volatile writer with 16-byte slots.
pub fn new_step(trace: Trace, window: u64, backlog: u64, retain: u64, slots: u64) -> Followed
    ensures { result ≡ new_step window backlog retain slots trace }
{
    let kind = Kind {
        reliable: true,
        builtin: false,
        volatile: true,
    };
    let limits = Limits {
        window,
        backlog,
        retain,
        slots,
        slot_bytes: Trace::SLOT_BYTES as u64,
    };
    let made = WriterSendBuffer::new(kind, limits);
    if !made.answer.is_done() {
        return trace.refused(made.answer);
    }
    Followed {
        answer: made.answer,
        trace: Trace {
            started: true,
            flow: made.flow,
            ..trace
        },
    }
}

// op=match: a reliable reader.
pub fn match_step(mut trace: Trace, id: u64) -> Followed
    ensures { result ≡ matched_step id trace }
{
    let m = Match {
        id,
        reliable: true,
        cap: Match::MOST_CAP,
    };
    let told = match_reader(&mut trace.heads, &mut trace.flow, m);
    trace.started = true;
    Followed {
        answer: told.answer,
        trace,
    }
}

// op=evict.
pub fn evict_step(mut trace: Trace, before: u64) -> Followed
    ensures { result ≡ evict_step before trace }
{
    let before = SequenceNumber::from_rank(before);
    let answer = trace.flow.remove_changes_before(before);
    trace.started = true;
    Followed { answer, trace }
}

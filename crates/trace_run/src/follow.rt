// One line: what it says is done, or refused.
ghost use Rattle.std.specs.Prelude.{◌≡◌};
ghost use Rattle.numbers.specs.Promise.{Gives3};
ghost use Rattle.trace_run.specs.Follow.{first_by, later_by, follow_of};

use crate::write::write_step;
use crate::writer::{evict_step, match_step, new_step};
use trace_lines::{Command, read_line};
use trace_readers::{Followed, Trace};

// Before a line has made the writer.
fn first_line(trace: Trace, command: Command) -> Followed
    ensures { result ≡ first_by command trace }
{
    let Command::New {
        window,
        backlog,
        retain,
        slots,
    } = command
    else {
        return trace.not_understood();
    };
    new_step(trace, window, backlog, retain, slots)
}

// From then on.
fn later_line(
    trace: Trace,
    command: Command,
    numbers: &[u64],
    store: &mut [u8],
    large: &mut [u64],
    small: &mut [u64],
) -> Followed
    ensures { Gives3 result store.new large.new small.new (later_by command numbers.now trace store.old large.old small.old) }
{
    match command {
        Command::New { .. } => trace.not_understood(),
        Command::Match { reader } => match_step(trace, reader),
        Command::Write { len } => write_step(trace, len, store, large),
        Command::Ack {
            reader,
            base,
            count,
        } => {
            let n = count.min(numbers.len());
            trace.ack_step(reader, base, &numbers[..n], large, small)
        }
        Command::Sent { reader, seq } => trace.sent_step(reader, seq, large),
        Command::Frag { reader, seq, count } => {
            let n = count.min(numbers.len());
            trace.frag_step(reader, seq, &numbers[..n], large, small)
        }
        Command::Evict { before } => evict_step(trace, before),
    }
}

// The line is answered, and the trace goes on from what comes back.
pub fn follow(
    trace: Trace,
    line: &[u8],
    store: &mut [u8],
    large: &mut [u64],
    small: &mut [u64],
) -> Followed
    ensures { Gives3 result store.new large.new small.new (follow_of line.now trace store.old large.old small.old) }
{
    let mut numbers = [0; 256];
    let Some(command) = read_line(line, &mut numbers) else {
        return trace.not_understood();
    };
    if trace.started {
        later_line(trace, command, &numbers, store, large, small)
    } else {
        first_line(trace, command)
    }
}

// The trace program: lines from standard input, one answer line for each on standard output. With --explain the answers are in words.
#![tactic(auto)]

ghost use Rattle.std.specs.Prelude.{◌≤◌, length};

use std::env::{Env, FillError};
use std::io;
use std::io::{Input, Read};
use trace_answers::{Answering, figures};
use trace_readers::Trace;
use trace_words::put_explained;

// A read that fails is told, and ends the input.
fn read_piece(rt: &(impl Input + Eprint), piece: &mut [u8]) -> usize {
    match rt.reader().read(piece) {
        Ok(bytes) => bytes,
        Err(why) => {
            let _ = eprintln!(rt; "trace: standard input: {why}");
            0
        }
    }
}

// The input's end ends a line that has begun.
fn end_line(open: bool, piece: &mut [u8]) -> usize {
    match piece.first_mut() {
        Some(first) if open => {
            *first = b'\n';
            1
        }
        _ => 0,
    }
}

// How many bytes the next piece has. What is read no more has ended.
fn next_piece(
    rt: &(impl Input + Eprint),
    reading: &mut bool,
    open: bool,
    piece: &mut [u8],
) -> usize {
    if *reading {
        let bytes = read_piece(rt, piece);
        if 0 < bytes {
            return bytes;
        }
        *reading = false;
    }
    end_line(open, piece)
}

// How far the piece goes that is to be answered: in words, one line is answered at a time. `explain` is the program's
// option, asked in two places: a closure for each would be lent the same rooms.
fn reach(explain: bool, piece: &[u8], from: usize, bytes: usize) -> usize
    ensures { result ≤ length piece.now }
{
    let bytes = bytes.min(piece.len());
    if !explain {
        return bytes;
    }
    match piece.iter().skip(from).position(|b| *b == b'\n') {
        Some(i) => bytes.min(from.saturating_add(i).saturating_add(1)),
        None => bytes,
    }
}

// With --explain, the line's answer in words in place of its figures; how far the output then goes.
fn in_words(explain: bool, a: Answering, line: &[u8], out: &mut [u8]) -> usize {
    if !explain || a.filled == 0 {
        return a.filled;
    }
    let held = a.cut.held.min(line.len());
    put_explained(
        out,
        0,
        a.lines,
        &line[..held],
        line.len() < a.cut.held,
        a.followed.answer.number,
        figures(a.followed.trace),
    )
}

// What was put is written.
fn write_out(
    rt: &impl Print,
    explain: bool,
    a: Answering,
    line: &[u8],
    out: &mut [u8],
) -> io::Result<()> {
    let filled = in_words(explain, a, line, out).min(out.len());
    rt.write_all(&out[..filled])
}

// To the end of the input, or until the answers can't be written. (The count of turns ends it after 2 ^ 64 turns.)
fn to_the_end(
    rt: &(impl Input + Print + Eprint),
    explain: bool,
    piece: &mut [u8],
    line: &mut [u8],
    out: &mut [u8],
    store: &mut [u8],
    large: &mut [u64],
    small: &mut [u64],
) -> io::Result<()> {
    let mut answering = Answering::start();
    let mut bytes = 0;
    let mut reading = true;
    for _ in 0..u64::MAX {
        if bytes <= answering.cut.at {
            bytes = next_piece(rt, &mut reading, answering.is_open(), piece);
            answering = answering.at_next_piece();
        }
        if bytes == 0 {
            break;
        }
        let n = reach(explain, piece, answering.cut.at, bytes);
        answering = answering.answer_piece(&piece[..n], line, out, store, large, small);
        write_out(rt, explain, answering, line, out)?;
        answering = answering.with_nothing_waiting();
    }
    Ok(())
}

// The rooms are of fixed sizes: no program allocates.
fn run(rt: &(impl Input + Print + Eprint), explain: bool) {
    let mut piece = [0u8; 65536];
    let mut line = [0u8; 512];
    let mut out = [0u8; 65536];
    let mut store = [0u8; Trace::STORE];
    let mut large = [0u64; Trace::LARGE];
    let mut small = [0u64; Trace::SMALL];
    let written = to_the_end(
        rt, explain, &mut piece, &mut line, &mut out, &mut store, &mut large, &mut small,
    );
    if written.is_err() {
        let _ = eprintln!(rt; "trace: can't write the answers");
    }
}

// Whether the program was given so many arguments, or more.
fn is_given(rt: &impl Env, count: usize) -> bool {
    let mut start = [0u8; 1];
    !matches!(rt.arg(count, &mut start), Err(FillError::NotPresent))
}

// The first argument, as it stands in the room; nothing where it is longer.
fn first_argument<'a>(rt: &impl Env, room: &'a mut [u8]) -> &'a [u8] {
    match rt.arg(1, room) {
        Ok(bytes) => &room[..bytes],
        Err(_) => &[],
    }
}

fn main(rt: HostRuntime) {
    if !is_given(&rt, 1) {
        run(&rt, false);
        return;
    }
    let mut word = [0u8; 16];
    if !is_given(&rt, 2) && first_argument(&rt, &mut word) == b"--explain".as_slice() {
        run(&rt, true);
        return;
    }
    let _ = eprintln!(rt; "usage: trace [--explain] <TRACE");
}

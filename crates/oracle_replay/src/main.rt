// The crate's own answers, replayed on the proved calls, with no Rust at hand.
//
// `stdin` is a fixed list of what the two files of rustdds 0.15.1 did: calls inside document 01's compared range, drawn by fixed
// pseudo-random numbers, each with all that the crate showed after it. `write_replay` (host/runs) made the calls on the crate and
// wrote the list; host/check holds the committed list to what it writes today. Here each call is made on the library, and what the
// library then shows is compared with the list: a line for each reader and each writer, and the first call that differs, if one does.
#![tactic(auto)]

ghost use Rattle.std.specs.Prelude.{◌≡◌, length};

mod block;
mod input;
mod line;
mod reader;
mod reader_shown;
mod writer;
mod writer_shown;

use block::replay_calls;
use input::{read_full, read_numbers};
use line::Lines;
use reader::Reader;
use std::io;
use writer::Writer;

// All the calls of a block, or the first that differs.
fn tell(rt: &impl Print, same: u64, calls: u64) -> io::Result<()> {
    if same == calls {
        return println!(rt; "{calls} calls, as the crate");
    }
    let first = same.saturating_add(1);
    println!(rt; "call {first} is not as the crate")
}

// A reader or a writer, with its calls: how many are as the crate's.
fn replay_block(rt: &impl Print, lines: &mut Lines) -> io::Result<u64> {
    let mut head = lines.head();
    let is_reader = head.next_or_0() == 0;
    let id = head.next_or_0();
    let calls = head.next_or_0();
    let same = if is_reader {
        print!(rt; "reader ")?;
        replay_calls(Reader::told(&mut head), lines, calls)
    } else {
        print!(rt; "writer ")?;
        replay_calls(Writer::told(&mut head), lines, calls)
    };
    print!(rt; "{id}: ")?;
    tell(rt, same, calls)?;
    Ok(same)
}

fn run(rt: &impl Print, all: &[u64]) -> io::Result<()> {
    let mut lines = Lines { all, place: 0 };
    let mut head = lines.head();
    let blocks = head.next_or_0();
    let calls = head.next_or_0();
    let mut same: u64 = 0;
    for _ in 0..blocks {
        same = same.wrapping_add(replay_block(rt, &mut lines)?);
    }
    println!(rt; "{same} of {calls} calls are as the crate's")
}

// Room for the bytes of the list: no program allocates. A function of its own, since of so long an array the check can't compute the length.
fn bytes_room() -> [u8; 524288]
    ensures { 524288 ≡ length result }
{
    [0; 524288]
}

// Room for its numbers.
fn numbers_room() -> [u64; 65536]
    ensures { 65536 ≡ length result }
{
    [0; 65536]
}

fn main(rt: HostRuntime) -> io::Result<()> {
    let mut bytes = bytes_room();
    let mut all = numbers_room();
    read_full(&mut rt.stdin(), &mut bytes)?;
    read_numbers(&bytes, &mut all);
    run(&rt, &all)
}

// The one command that a line says. The numbers of its set stand in a lent room.
ghost use Rattle.std.specs.Prelude.{◌≡◌, length};
ghost use Rattle.numbers.specs.Promise.{Gives1};
ghost use Rattle.trace_lines.specs.Lines.{command_of, new_said, match_said, write_said, ack_said, sent_said, frag_said, evict_said};
ghost use Rattle.trace_lines.specs.Lines.{plain_said, line_said, said, Says, count_in, command_left};

use crate::set::set;
use crate::{field, past_key};

// `count` numbers of the set stand in the room: a slice here would borrow it, and `read_line` promises what the room then holds.
#[derive(Clone, Copy)]
pub enum Command {
    New {
        window: u64,
        backlog: u64,
        retain: u64,
        slots: u64,
    },
    Match {
        reader: u64,
    },
    Write {
        len: u64,
    },
    Ack {
        reader: u64,
        base: u64,
        count: usize,
    },
    Sent {
        reader: u64,
        seq: u64,
    },
    Frag {
        reader: u64,
        seq: u64,
        count: usize,
    },
    Evict {
        before: u64,
    },
}

fn new_line(s: &[u8]) -> Option<Command>
    ensures { result ≡ command_of (new_said s.now) }
{
    let (window, s) = field(s, b"op=new window=")?;
    let (backlog, s) = field(s, b" backlog=")?;
    let (retain, s) = field(s, b" retain=")?;
    let (slots, s) = field(s, b" slots=")?;
    s.is_empty().then_some(Command::New {
        window,
        backlog,
        retain,
        slots,
    })
}

fn match_line(s: &[u8]) -> Option<Command>
    ensures { result ≡ command_of (match_said s.now) }
{
    let (reader, s) = field(s, b"op=match reader=")?;
    s.is_empty().then_some(Command::Match { reader })
}

fn write_line(s: &[u8]) -> Option<Command>
    ensures { result ≡ command_of (write_said s.now) }
{
    let (len, s) = field(s, b"op=write len=")?;
    s.is_empty().then_some(Command::Write { len })
}

fn sent_line(s: &[u8]) -> Option<Command>
    ensures { result ≡ command_of (sent_said s.now) }
{
    let (reader, s) = field(s, b"op=sent reader=")?;
    let (seq, s) = field(s, b" seq=")?;
    s.is_empty().then_some(Command::Sent { reader, seq })
}

fn evict_line(s: &[u8]) -> Option<Command>
    ensures { result ≡ command_of (evict_said s.now) }
{
    let (before, s) = field(s, b"op=evict before=")?;
    s.is_empty().then_some(Command::Evict { before })
}

fn ack_line(s: &[u8], room: &mut [u64]) -> Option<Command>
    ensures { Says (ack_said (length room.old) s.now) result room.new }
{
    let (reader, s) = field(s, b"op=ack reader=")?;
    let (base, s) = field(s, b" base=")?;
    let count = set(past_key(s, b" set=")?, base, room)?;
    Some(Command::Ack {
        reader,
        base,
        count,
    })
}

fn frag_line(s: &[u8], room: &mut [u64]) -> Option<Command>
    ensures { Says (frag_said (length room.old) s.now) result room.new }
{
    let (reader, s) = field(s, b"op=frag reader=")?;
    let (seq, s) = field(s, b" seq=")?;
    let count = set(past_key(s, b" set=")?, 0, room)?;
    Some(Command::Frag { reader, seq, count })
}

// A line without a set.
fn plain_line(s: &[u8]) -> Option<Command>
    ensures { result ≡ command_of (plain_said s.now) }
{
    new_line(s)
        .or_else(|| match_line(s))
        .or_else(|| write_line(s))
        .or_else(|| sent_line(s))
        .or_else(|| evict_line(s))
}

// A line of any length.
fn line(s: &[u8], room: &mut [u64]) -> Option<Command>
    ensures { Says (line_said (length room.old) s.now) result room.new }
{
    if let Some(command) = plain_line(s) {
        return Some(command);
    }
    if let Some(command) = ack_line(s, room) {
        return Some(command);
    }
    frag_line(s, room)
}

// How many numbers stand in the room.
fn count(command: Option<Command>) -> usize
    ensures { result ≡ count_in command }
{
    match command {
        Some(Command::Ack { count, .. } | Command::Frag { count, .. }) => count,
        _ => 0,
    }
}

// What the line says; the numbers of its set at the start of the room, and zero in the rest of it.
pub fn read_line(s: &[u8], room: &mut [u64]) -> Option<Command>
    ensures { Gives1 result room.new (command_left (length room.old) (said (length room.old) s.now)) }
{
    if 512 < s.len() {
        room.fill(0);
        return None;
    }
    let command = line(s, room);
    let held = count(command);
    room[held..].fill(0);
    command
}

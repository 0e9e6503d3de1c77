// The input as numbers: each line is the place where the next one begins, and then its numbers. All else in it is for people.
ghost use Rattle.std.specs.Prelude.{◌<◌, IfSome};

use std::io;
use std::io::Read;

// Reads until the room is full or the input ends.
pub(crate) fn read_full<R: Read>(input: &mut R, room: &mut [u8]) -> io::Result<()> {
    let mut done = 0;
    while done < room.len() {
        let n = input.read(&mut room[done..])?;
        if n == 0 {
            break;
        }
        done += n;
    }
    Ok(())
}

// The list that is made: where its last line begins, and where that line's next number goes.
#[derive(Drop)]
struct List<'a> {
    all: &'a mut [u64],
    start: usize,
    next: usize,
}

// How a number is written.
#[derive(Clone, Copy)]
enum Form {
    Plain,
    Negative,
    Hex,
}

// A number that is being read: its form, and what its digits say so far, if one has come.
#[derive(Clone, Copy)]
struct Token {
    form: Form,
    value: Option<u64>,
}

impl List<'_> {
    // One number more, if there is room.
    fn push(&mut self, n: u64) {
        if self.next < self.all.len() {
            self.all[self.next] = n;
            self.next += 1;
        }
    }

    // The line ends, and the next one begins.
    fn end_line(&mut self) {
        if self.start < self.all.len() {
            self.all[self.start] = self.next as u64;
        }
        self.start = self.next;
        self.next = self.next.saturating_add(1);
    }
}

impl Form {
    // The worth of a digit; None for a byte that is none.
    fn digit(self, b: u8) -> Option<u64>
        ensures { IfSome result (λ d. d < 16) }
    {
        match (self, b) {
            (_, b'0'..=b'9') => Some(u64::from(b - b'0')),
            (Form::Hex, b'a'..=b'f') => Some(u64::from(b - b'a') + 10),
            _ => None,
        }
    }

    // The number with one digit more; one that has too many is left as it is.
    fn grown(self, value: u64, digit: u64) -> u64
        requires { digit < 16 }
    {
        if 1 << 60 <= value {
            return value;
        }
        match self {
            Form::Hex => value * 16 + digit,
            _ => value * 10 + digit,
        }
    }
}

impl Token {
    // A number that would begin after this byte.
    fn after(b: u8) -> Token {
        let form = match b {
            b'-' => Form::Negative,
            b'#' => Form::Hex,
            _ => Form::Plain,
        };
        Token { form, value: None }
    }

    // The number read. One below 0 is its two's complement.
    fn number(self) -> Option<u64> {
        match self.form {
            Form::Negative => self.value.map(|n| n.wrapping_neg()),
            _ => self.value,
        }
    }
}

pub(crate) fn read_numbers(bytes: &[u8], all: &mut [u64]) {
    let mut list = List {
        all,
        start: 0,
        next: 1,
    };
    let mut token = Token::after(b'\n');
    for &b in bytes {
        if let Some(digit) = token.form.digit(b) {
            token.value = Some(token.form.grown(token.value.unwrap_or(0), digit));
            continue;
        }
        if let Some(n) = token.number() {
            list.push(n);
        }
        if b == b'\n' {
            list.end_line();
        }
        token = Token::after(b);
    }
}

// Bytes put into a lent room from a place on, as far as it reaches; the place after them. The room and the place stay two parameters: of a
// struct that holds the `&mut` each function has to promise, beside what it puts, that it is the same reference still. That is no plainer.
ghost use Rattle.std.specs.Prelude.{◌≡◌, [], ◌∷◌, ◌++◌, ◌+◌, ◌<◌};
ghost use Rattle.numbers.specs.Promise.{Gives1};
ghost use Rattle.trace_text.specs.Answers.{put_of, decimal, digits, answer_text};

pub fn put_byte(out: &mut [u8], at: usize, b: u8) -> usize
    ensures { Gives1 result out.new (put_of at (b ∷ []) out.old) }
{
    if at < out.len() {
        out[at] = b;
        at + 1
    } else {
        at
    }
}

pub fn put_text(out: &mut [u8], at: usize, text: &[u8]) -> usize
    ensures { Gives1 result out.new (put_of at text.now out.old) }
{
    let mut at = at;
    for b in text {
        at = put_byte(out, at, *b);
    }
    at
}

fn digit(d: u64) -> u8
    requires { d < 10 }
    ensures { result ≡ 48 + d }
{
    b'0' + d as u8
}

// By hand and no `write!`: what the room has no place for is left out, and std's clauses say little of a writer that is full. At most `most` digits, the
// highest first.
fn put_digits(out: &mut [u8], at: usize, n: u64, most: usize) -> usize
    ensures { Gives1 result out.new (put_of at (digits most n) out.old) }
{
    if most == 0 {
        return at;
    }
    if n < 10 {
        return put_byte(out, at, digit(n));
    }
    let k = put_digits(out, at, n / 10, most - 1);
    put_byte(out, k, digit(n % 10))
}

pub fn put_number(out: &mut [u8], at: usize, n: u64) -> usize
    ensures { Gives1 result out.new (put_of at (decimal n) out.old) }
{
    put_digits(out, at, n, 20)
}

pub fn put_field(out: &mut [u8], at: usize, key: &[u8], n: u64) -> usize
    ensures { Gives1 result out.new (put_of at (key.now ++ decimal n) out.old) }
{
    let k = put_text(out, at, key);
    put_number(out, k, n)
}

// The writer's figures: the newest number written, the oldest kept, and the first not acknowledged by all. Zeros until there is a writer.
#[derive(Clone, Copy, Default)]
pub struct Figures {
    pub last: u64,
    pub first: u64,
    pub acked: u64,
}

// The line's number, its answer and the three figures, with the newline.
pub fn put_answer(out: &mut [u8], at: usize, line: u64, answer: u64, figures: Figures) -> usize
    ensures { Gives1 result out.new (put_of at (answer_text line answer figures.last figures.first figures.acked) out.old) }
{
    let k = put_number(out, at, line);
    let k = put_field(out, k, b" answer=", answer);
    let k = put_field(out, k, b" last=", figures.last);
    let k = put_field(out, k, b" first=", figures.first);
    let k = put_field(out, k, b" acked=", figures.acked);
    put_byte(out, k, b'\n')
}

// The lines of a trace: one line in, the one command that it says out.
// Here the words of a line, keys and numbers: each is read at the front of what is left of the line, and gives what is left after it.
#![tactic(auto)]

ghost use Rattle.std.specs.Prelude.{◌≡◌, ◌<◌, IfSome};
ghost use Rattle.std.specs.List.{prefix_len};
ghost use Rattle.trace_lines.specs.Words.{is_digit, rest, past_key, number_in, field, rest_of, read_of};

pub mod command;
mod set;

pub use command::{Command, read_line};

// How many digits stand here.
fn digits(s: &[u8]) -> usize
    ensures { result ≡ prefix_len is_digit s.now }
{
    s.iter().take_while(|b| b.is_ascii_digit()).count()
}

// A number of 1 to 19 digits, up to 2^63 - 1.
fn number(s: &[u8]) -> Option<(u64, &[u8])>
    ensures read { read_of result ≡ number_in s.now }
    ensures small { IfSome result (λ p. p.0 < 9223372036854775808) }
{
    let len = digits(s);
    if len == 0 || 19 < len {
        return None;
    }
    let (digits, after) = s.split_at(len);
    let mut value = 0;
    for b in digits {
        value = value * 10 + u64::from(b - b'0');
    }
    if 1 << 63 <= value {
        return None;
    }
    Some((value, after))
}

// Past the bytes of a key, which must stand here.
fn past_key<'a>(s: &'a [u8], key: &[u8]) -> Option<&'a [u8]>
    ensures { rest_of result ≡ past_key key.now s.now }
{
    s.strip_prefix(key)
}

// A key, and the number behind it.
fn field<'a>(s: &'a [u8], key: &[u8]) -> Option<(u64, &'a [u8])>
    ensures read { read_of result ≡ field key.now (rest s.now) }
    ensures small { IfSome result (λ p. p.0 < 9223372036854775808) }
{
    number(past_key(s, key)?)
}

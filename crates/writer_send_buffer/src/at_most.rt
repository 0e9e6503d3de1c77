// Whether no number of a plain slice is above another.
ghost use Rattle.std.specs.Prelude.{◌≡◌, true, ℕ, ◌<◌, ◌≤◌, ◌&&◌, [], leb, bit_or, fold, length, slice_index_or};
ghost use Rattle.writer_send_buffer.specs.Samples.{all_at_most};

// A number that none of them is above: all of them or-ed, four side by side and with no early exit, so that this becomes vector code.
fn or_of_fours(fours: &[[u64; 4]]) -> u64
    ensures { (m : ℕ) → result ≤ m → (k : ℕ) → k < length fours.now → all_at_most m (slice_index_or fours.now k []) ≡ true }
{
    let mut a = 0;
    let mut b = 0;
    let mut c = 0;
    let mut d = 0;
    for four in fours {
        a |= four[0];
        b |= four[1];
        c |= four[2];
        d |= four[3];
    }
    a | b | (c | d)
}

// The same, of the few that are left.
fn or_of(s: &[u64]) -> u64
    ensures { result ≡ fold bit_or 0 s.now }
{
    s.iter().fold(0, |or, x| or | x)
}

// Each compared.
fn each_at_most(s: &[u64], most: u64) -> bool
    ensures { result ≡ fold (λ fit x. fit && leb x most) true s.now }
{
    s.iter().fold(true, |fit, x| fit & (*x <= most))
}

// Whether none is above `most`. Mostly the or of them isn't either, and that is soon seen; where it is, each is compared.
pub(crate) fn all_at_most(s: &[u64], most: u64) -> bool
    ensures { result ≡ all_at_most most s.now }
{
    let (fours, rest) = s.as_chunks::<4>();
    (or_of_fours(fours) | or_of(rest)) <= most || each_at_most(s, most)
}

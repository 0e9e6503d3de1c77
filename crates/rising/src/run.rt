// Work on a run of numbers over plain slices: no count, and nothing required.
ghost use Rattle.std.specs.Prelude.{◌≡◌, ◌-◌, min, ◌++◌, length, take, drop, replicate};
ghost use Rattle.sets.specs.Sets.{has};
ghost use Rattle.rising.specs.Runs.{rises_above, zeros, run_coherent, place_of, holds_at, filled};

use numbers::SequenceNumber;

// The first number with the top bit.
pub const TOP: u64 = 1 << 63;

// Whether the numbers rise strictly, all above `above` and none above 2 ^ 63 - 2. Of numbers below 2 ^ 63 the smaller is seen by the top bit of a difference
// that wraps: nothing is tested in a turn, and this becomes vector code. Both are read by an index, since a zip of two slices takes a tenth longer.
pub fn rises(s: &[u64], above: u64) -> bool
    ensures { result ≡ rises_above above s.now }
{
    let (Some(first), Some(last)) = (s.first(), s.last()) else {
        return true;
    };
    if *first <= above || SequenceNumber::LAST < *last {
        return false;
    }
    let mut high = 0;
    let mut up = u64::MAX;
    for i in 1..s.len() {
        high |= s[i - 1];
        up &= s[i - 1].wrapping_sub(s[i]);
    }
    (high < TOP) & (TOP <= up)
}

// All numbers are or-ed, with no early exit: this becomes vector code.
pub fn all_zero(s: &[u64]) -> bool
    ensures { result ≡ zeros s.now }
{
    s.iter().fold(0, |all, x| all | *x) == 0
}

// Whether a room holds `count` rising numbers above `above`, and zeros after them.
pub fn run_coherent(s: &[u64], count: usize, above: u64) -> bool
    ensures { result ≡ run_coherent above count s.now }
{
    count <= s.len() && rises(&s[..count], above) && all_zero(&s[count..])
}

// Whether n is among the numbers. All are compared, with no early exit: this becomes vector code, the rule for scans of rooms; a slice's own `contains` takes four times as long.
pub fn contains(s: &[u64], n: u64) -> bool
    ensures { result ≡ has s.now n }
{
    let mut found = false;
    for x in s {
        found |= *x == n;
    }
    found
}

// How many numbers at the start are below n. Four are compared in a turn: 11 instructions, where `position` takes 20 and an ACKNACK with 256 unsent misses its bar (docs/SPEED.md).
pub fn place(s: &[u64], n: u64) -> usize
    ensures { result ≡ place_of n s.now }
{
    let fours = s.len() / 4;
    for j in 0..fours {
        for i in 4 * j..4 * j + 4 {
            if n <= s[i] {
                return i;
            }
        }
    }
    for i in 4 * fours..s.len() {
        if n <= s[i] {
            return i;
        }
    }
    s.len()
}

pub fn holds_at(s: &[u64], i: usize, n: u64) -> bool
    ensures { result ≡ holds_at n s.now i }
{
    s.get(i).is_some_and(|x| *x == n)
}

// The first k go, and zeros come in at the end. What stays moves down over itself.
pub fn drop_front(s: &mut [u64], k: usize)
    ensures { s.new ≡ drop k s.old ++ replicate (min k (length s.old)) 0 }
{
    if k == 0 {
        return;
    }
    let gone = k.min(s.len());
    let stay = s.len() - gone;
    s.copy_within(gone.., 0);
    s[stay..].fill(0);
}

// k zeros come in at the front, and the last k fall out.
pub fn lift(s: &mut [u64], k: usize)
    ensures { s.new ≡ replicate (min k (length s.old)) 0 ++ take (length s.old - k) s.old }
{
    if k == 0 {
        return;
    }
    let gone = k.min(s.len());
    let stay = s.len() - gone;
    s.copy_within(..stay, gone);
    s[..gone].fill(0);
}

// The numbers of `from` go to `to`, as many as fit.
pub fn copy(from: &[u64], to: &mut [u64])
    ensures { to.new ≡ filled from.now to.old }
{
    let n = from.len().min(to.len());
    to[..n].copy_from_slice(&from[..n]);
}

// A set of either kind in natural numbers: what both do is done here. Bit i of the words, the first bit highest, stands for base + i.
ghost use Rattle.std.specs.Prelude.{◌≡◌, ◌-◌, ◌*◌, ◌/◌, ◌^◌, ◌≤◌, ◌<◌, ◌+◌, min};
ghost use Rattle.std.specs.Int.Bits.{bit_or};
ghost use Rattle.numbers.specs.Refusals.{answer_of};
ghost use Rattle.numbers.specs.Cursor.{or_none};
ghost use Rattle.number_sets.specs.Words.{BitsKept};
ghost use Rattle.number_sets.specs.Calls.{set_rows, some_below, some_from};

use crate::sequence_number_set::Listed;
use numbers::{Answer, Refusal};
use rising::run::TOP;

#[derive(Clone, Copy, Debug, PartialEq, Eq)]
pub struct NumberSet {
    pub base: u64,
    pub count: u32,
    pub words: [u32; 8],
}

// The answer of a call on a set: 3, 2, 14 or done.
pub(crate) fn set_answer(bits: bool, range: bool, none: bool) -> Answer
    ensures { result ≡ answer_of (or_none (set_rows bits range) none) }
{
    Answer::done()
        .unless(none, Refusal::Nothing)
        .unless(range, Refusal::Range)
        .unless(bits, Refusal::Bits)
}

// Whether any number is below b, and whether any is b or more. For a b below 2 ^ 63 every number is looked at, with no exit, and nothing is tested in a turn: this
// becomes vector code, by the top bit of a difference that wraps; a plain or of comparisons takes a third longer.
pub(crate) fn any_below(b: u64, numbers: &[u64]) -> bool
    ensures { result ≡ some_below b numbers.now }
{
    if TOP <= b {
        return numbers.iter().any(|n| *n < b);
    }
    let mut low = 0;
    for n in numbers {
        low |= !*n & n.wrapping_sub(b);
    }
    TOP <= low
}

pub(crate) fn any_from(b: u64, numbers: &[u64]) -> bool
    ensures { result ≡ some_from b numbers.now }
{
    if TOP <= b {
        return numbers.iter().any(|n| b <= *n);
    }
    let mut high = 0;
    let mut low = u64::MAX;
    for n in numbers {
        high |= *n;
        low &= n.wrapping_sub(b);
    }
    TOP <= high | !low
}

// How much of word j stands before the bit at `place`: 0 to 32 bits.
fn part(place: usize, j: usize) -> usize
    requires { j ≤ 8 }
    ensures { result ≡ min (place - 32 * j) 32 }
{
    place.saturating_sub(32 * j).min(32)
}

// A word with its bits from place a up to place e alone.
fn kept(w: u32, a: usize, e: usize) -> u32
    requires { e ≤ 32 }
    ensures { BitsKept w a e result }
{
    if e <= a {
        return 0;
    }
    let low = (w << a) >> a;
    (low >> (32 - e)) << (32 - e)
}

// How many of the words, from the first on, hold the bits before the one at `end`.
fn words_to(end: usize) -> usize
    ensures { (result ≡ (min end 256 + 31) / 32) × (result ≤ 8) }
{
    (end.min(256) + 31) / 32
}

// A word with the bit at place i set.
fn marked(w: u32, i: usize) -> u32
    requires { i < 32 }
    ensures { result ≡ bit_or w (2 ^ (31 - i)) }
{
    w | (1u32 << (31 - i))
}

impl NumberSet {
    ghost use Rattle.std.specs.Prelude.{◌&&◌, leb, ltb, length};
    ghost use Rattle.sets.specs.Sets.{between};
    ghost use Rattle.numbers.specs.Promise.{Gives1};
    ghost use Rattle.numbers.specs.Answers.{answered};
    ghost use Rattle.rising.specs.Runs.{filled};
    ghost use Rattle.number_sets.specs.Bits.{bit_at, next_bit, eight_words, words_for, members};
    ghost use Rattle.number_sets.specs.Words.{place_in, joined};
    ghost use Rattle.number_sets.specs.Calls.{next_rank, not_listed, all_listed};

    // The words with their bits from place lo up to place hi alone.
    fn cut_bits(&self, lo: usize, hi: usize) -> [u32; 8]
        ensures { result ≡ eight_words (λ i. (leb lo i && ltb i hi) && bit_at self.now.words i) }
    {
        let mut out = [0; 8];
        for j in 0..words_to(hi) {
            out[j] = kept(self.words[j], part(lo, j), part(hi, j));
        }
        out
    }

    // The first set bit at or after `from` and below the count. A word with no bit left is passed over at once, and a bit is found by the zeros above it.
    fn next_bit(&self, from: usize) -> Option<usize>
        ensures { result ≡ next_bit self.now.words self.now.count from }
    {
        let count = self.count as usize;
        let mut place = from;
        for j in from / 32..words_to(count) {
            let left = self.words[j] << (place % 32);
            if left != 0 {
                let at = place + left.leading_zeros() as usize;
                return (at < count).then_some(at);
            }
            place = 32 * (j + 1);
        }
        None
    }

    // The smallest member from `from` through `top`, whatever these are. Where no bit is left, i is the count, which is no place.
    pub(crate) fn next_rank(&self, from: u64, top: u64) -> Option<u64>
        ensures { result ≡ next_rank self.now from top }
    {
        let count = self.count as usize;
        let found = self.next_bit(from.saturating_sub(self.base) as usize);
        let i = found.unwrap_or(count);
        let n = self.base.checked_add(i as u64)?;
        ((i < count) & (n <= top)).then_some(n)
    }

    // The members, rising, in a room from its start, as far as they fit; how many they are in all.
    fn list(&self, out: &mut [u64]) -> usize
        requires { self.now.base < 2 ^ 63 }
        ensures { Gives1 result out.new (record { result = length (members self.now); first = filled (members self.now) out.old }) }
    {
        let mut listed = 0;
        let mut from = 0;
        // Each turn goes on from the bit that the last one found.
        while let Some(i) = self.next_bit(from) {
            if listed < out.len() {
                out[listed] = self.base + i as u64;
            }
            listed += 1;
            from = i + 1;
        }
        listed
    }

    // The same, unless the call is refused.
    pub(crate) fn list_members(&self, answer: Answer, out: &mut [u64]) -> Listed
        requires { self.now.base < 2 ^ 63 }
        ensures { Gives1 result out.new (answered answer (not_listed out.old) (all_listed (members self.now) out.old)) }
    {
        if !answer.is_done() {
            return Listed { answer, count: 0 };
        }
        Listed {
            answer: Answer::done(),
            count: self.list(out),
        }
    }

    // How many members there are.
    pub(crate) fn size(&self) -> usize
        ensures { result ≡ length (members self.now) }
    {
        let count = self.count as usize;
        let mut n = 0;
        for j in 0..words_to(count) {
            n += kept(self.words[j], 0, part(count, j)).count_ones() as usize;
        }
        n
    }

    // The words with the members from lo through hi alone.
    pub(crate) fn cut(&self, lo: u64, hi: u64) -> [u32; 8]
        ensures { result ≡ words_for self.now.base (between lo hi (members self.now)) }
    {
        let from = lo.saturating_sub(self.base) as usize;
        let to = match hi.checked_sub(self.base) {
            Some(d) => d.min(255) as usize + 1,
            None => 0,
        };
        self.cut_bits(from, to.min(self.count as usize))
    }

    // The place of n, if the set can have it.
    fn place_of(&self, n: u64) -> Option<usize>
        ensures { result ≡ place_in self.now.base n }
    {
        let d = n.checked_sub(self.base)?;
        (d < 256).then_some(d as usize)
    }

    // The members, and those of the numbers that the set can have, from the base to base + 255; and a count that holds them all.
    pub(crate) fn joined(self, numbers: &[u64]) -> NumberSet
        ensures { result ≡ joined self numbers.now }
    {
        let mut count = self.count;
        let mut words = self.cut_bits(0, count as usize);
        for n in numbers {
            if let Some(i) = self.place_of(*n) {
                words[i / 32] = marked(words[i / 32], i % 32);
                count = count.max(i as u32 + 1);
            }
        }
        NumberSet {
            count,
            words,
            ..self
        }
    }
}

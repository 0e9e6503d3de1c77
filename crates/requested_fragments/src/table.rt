// The table of requested fragments in two rooms: sample numbers, and 64 words of bits for each. Each call answers for any rooms and any count. C lends both rooms and keeps the count in the reader's record, so the three stay apart.
ghost use Rattle.std.specs.Prelude.{◌≡◌, ◌==◌, not, ◌++◌, ◌+◌, ◌*◌, ◌≤◌, length, take, drop, position};
ghost use Rattle.sets.specs.Sets.{empty};
ghost use Rattle.numbers.specs.Promise.{Gives2};
ghost use Rattle.requested_fragments.specs.Words.{fragments_of, not_asking};
ghost use Rattle.requested_fragments.specs.Table.{frag_rooms_coherent, all_hold, table_of, entries_of, mark_t, rooms_hold, marked_in, kept_from, next_piece_of};

use crate::bits;
use numbers::FragmentNumber;

// The most samples with requested fragments.
pub const MOST_SAMPLES: usize = 16;

// A fragment of a sample.
#[derive(Clone, Copy, Debug, PartialEq, Eq)]
pub struct SampleFragment {
    pub sample: u64,
    pub fragment: u64,
}

// Whether each of the first count blocks asks for something.
fn all_hold(words: &[u64], count: usize) -> bool
    requires { (64 * count ≤ length words.now) × (count ≤ 16) }
    ensures { result ≡ all_hold count words.now }
{
    let mut held = true;
    for i in 0..count {
        let a = i * FragmentNumber::WORDS;
        let e = a + FragmentNumber::WORDS;
        held &= bits::any(&words[a..e]);
    }
    held
}

// Whether the rooms are what a reader record's are, as far as they are lent: up to 16 samples, and 64 words for each.
pub fn coherent(samples: &[u64], words: &[u64], count: usize) -> bool
    ensures { result ≡ frag_rooms_coherent count samples.now words.now }
{
    if MOST_SAMPLES < samples.len() || words.len() != samples.len() * FragmentNumber::WORDS {
        return false;
    }
    if !rising::run::run_coherent(samples, count, 0) {
        return false;
    }
    all_hold(words, count) & rising::run::all_zero(&words[count * FragmentNumber::WORDS..])
}

// The place of n.
fn find(s: &[u64], n: u64) -> Option<usize>
    ensures { result ≡ position (λ m. m == n) s.now }
{
    s.iter().position(|m| *m == n)
}

// Whether `count` samples, with their words, are in the rooms.
pub(crate) fn rooms_hold(samples: &[u64], words: &[u64], count: usize) -> bool
    ensures { result ≡ rooms_hold count samples.now words.now }
{
    count <= samples.len() && count <= words.len() / FragmentNumber::WORDS
}

// Fragment f of the block at a is no more asked for; whether the block still asks for something.
fn clear_at(words: &mut [u64], a: usize, f: u64) -> bool
    requires { a + 64 ≤ length words.old }
    ensures { (result ≡ not (empty (fragments_of (not_asking f (take 64 (drop a words.old))))))
        × (words.new ≡ take a words.old ++ (not_asking f (take 64 (drop a words.old)) ++ drop (a + 64) words.old)) }
{
    let e = a + FragmentNumber::WORDS;
    bits::unask(&mut words[a..e], f);
    bits::any(&words[a..e])
}

// Fragment f of sample n is sent: its bit is cleared, and a block left empty goes. How many blocks there are.
pub fn mark_sent(samples: &mut [u64], words: &mut [u64], count: usize, n: u64, f: u64) -> usize
    ensures { Gives2 result samples.new words.new (marked_in n f count samples.old words.old) }
{
    if !rooms_hold(samples, words, count) {
        return count;
    }
    let Some(e) = find(&samples[..count], n) else {
        return count;
    };
    let a = e * FragmentNumber::WORDS;
    if clear_at(words, a, f) {
        return count;
    }
    let end = count * FragmentNumber::WORDS;
    rising::room::cut(words, end, a, FragmentNumber::WORDS);
    rising::room::cut(samples, count, e, 1)
}

// The blocks of the samples before n go. How many blocks there are.
pub fn keep_from(samples: &mut [u64], words: &mut [u64], count: usize, n: u64) -> usize
    ensures { Gives2 result samples.new words.new (kept_from n count samples.old words.old) }
{
    if !rooms_hold(samples, words, count) {
        return count;
    }
    let k = rising::run::place(&samples[..count], n);
    let end = count * FragmentNumber::WORDS;
    rising::room::cut(words, end, 0, k * FragmentNumber::WORDS);
    rising::room::cut(samples, count, 0, k)
}

// The next fragment at or after f: the smallest of the smallest sample.
pub fn next(samples: &[u64], words: &[u64], count: usize, f: u64) -> Option<SampleFragment>
    ensures { result ≡ next_piece_of f (entries_of count samples.now words.now) }
{
    if count == 0 {
        return None;
    }
    let sample = *samples.first()?;
    let fragment = bits::next(words, f)?;
    Some(SampleFragment { sample, fragment })
}

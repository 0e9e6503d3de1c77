// Fragments are asked for.
ghost use Rattle.std.specs.Prelude.{◌≡◌, ◌++◌, false, ◌+◌, ◌*◌, ◌≤◌, length, take, drop, replicate};
ghost use Rattle.sets.specs.Sets.{empty};
ghost use Rattle.numbers.specs.Promise.{Gives2};
ghost use Rattle.rising.specs.Runs.{over};
ghost use Rattle.requested_fragments.specs.Table.{ask_all, askable, asked_in};

use crate::{bits, table};
use number_sets::FragmentNumberSet;
use numbers::FragmentNumber;

// All members of the set that can be asked for, in one block.
fn ask_all(words: &mut [u64], set: FragmentNumberSet)
    ensures { words.new ≡ ask_all (askable set) words.old }
{
    let mut from: u64 = 1;
    // Each turn goes on from the fragment that the last one found.
    while let Some(f) = set.next_rank(from, FragmentNumber::TOP) {
        bits::ask(words, f);
        from = f + 1;
    }
}

// In the block at a.
fn ask_block(words: &mut [u64], a: usize, set: FragmentNumberSet)
    requires { a + 64 ≤ length words.old }
    ensures { words.new ≡ take a words.old ++ (ask_all (askable set) (take 64 (drop a words.old)) ++ drop (a + 64) words.old) }
{
    let e = a + FragmentNumber::WORDS;
    ask_all(&mut words[a..e], set);
}

// In a new block at a, of the run of the first end words.
fn new_block(words: &mut [u64], end: usize, a: usize, set: FragmentNumberSet)
    requires { (a ≤ end) × (end + 64 ≤ length words.old) }
    ensures { words.new ≡ over words.old end (take a (take end words.old) ++ (ask_all (askable set) (replicate 64 0) ++ drop a (take end words.old))) }
{
    rising::room::open(words, end, a, FragmentNumber::WORDS);
    ask_block(words, a, set);
}

// The members of the set are asked for, where the blocks are in their room and something is asked for.
fn request_some(
    samples: &mut [u64],
    words: &mut [u64],
    count: usize,
    n: u64,
    set: FragmentNumberSet,
) -> usize
    requires { (count ≤ length samples.old) × (64 * count ≤ length words.old) × (empty (askable set) ≡ false) }
    ensures { Gives2 result samples.new words.new (asked_in n (askable set) count samples.old words.old) }
{
    let e = rising::run::place(&samples[..count], n);
    let a = e * FragmentNumber::WORDS;
    if rising::run::holds_at(&samples[..count], e, n) {
        ask_block(words, a, set);
        return count;
    }
    if !table::rooms_hold(samples, words, count + 1) {
        return count;
    }
    let end = count * FragmentNumber::WORDS;
    new_block(words, end, a, set);
    rising::room::insert(samples, count, n)
}

// The members of the set are asked for, of sample n: in its block, or in a new one in its place. How many blocks there are.
pub fn request(
    samples: &mut [u64],
    words: &mut [u64],
    count: usize,
    n: u64,
    set: FragmentNumberSet,
) -> usize
    ensures { Gives2 result samples.new words.new (asked_in n (askable set) count samples.old words.old) }
{
    if !table::rooms_hold(samples, words, count)
        || set.next_rank(1, FragmentNumber::TOP).is_none()
    {
        return count;
    }
    request_some(samples, words, count, n, set)
}

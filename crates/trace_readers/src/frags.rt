// op=frag: the fragments of a sample that a reader asks for.
ghost use Rattle.std.specs.Prelude.{◌≡◌, ◌<◌, ◌-◌};
ghost use Rattle.numbers.specs.Promise.{Gives2};
ghost use Rattle.trace_readers.specs.Fragments.{frag_set_with, frag_set_of, asked_of, frag_line};

use crate::state::{Followed, Trace};
use crate::{reader_of, samples_at, words_at};
use number_sets::FragmentNumberSet;
use numbers::{FragmentNumber, SequenceNumber};
use reader_list::calls::matched_reader_lookup;
use rtps_reader_proxy::ReaderProxy;
use writer_steps::frags::take_nack_frag;

// One with no member.
fn pieces_with(base: u32, count: u32) -> FragmentNumberSet
    ensures { result ≡ frag_set_with base count }
{
    FragmentNumberSet {
        base: FragmentNumber(base),
        count,
        words: [0; 8],
    }
}

// The set of a line; what is to be refused with 3 or 2 is a set that is, in its turn.
fn pieces(numbers: &[u64]) -> FragmentNumberSet
    ensures { result ≡ frag_set_of numbers.now }
{
    let (Some(first), Some(last)) = (numbers.first(), numbers.last()) else {
        return pieces_with(1, 0);
    };
    if 255 < last.saturating_sub(*first) {
        return pieces_with(1, 257);
    }
    if FragmentNumber::TOP < *last {
        return pieces_with(0, 0);
    }
    FragmentNumberSet::of_numbers(FragmentNumber::from_rank(*first), numbers).set
}

impl Trace {
    // For reader i.
    fn asked_of(
        mut self,
        i: usize,
        id: u64,
        n: SequenceNumber,
        set: FragmentNumberSet,
        samples: &mut [u64],
        words: &mut [u64],
    ) -> Followed
        requires { i < 2 }
        ensures { Gives2 result samples.new words.new (asked_of i id n set self samples.old words.old) }
    {
        let proxy = self.reader(i);
        let asked = take_nack_frag(&self.heads, proxy, samples, words, id, n, set);
        self.readers[i] = asked.proxy;
        Followed {
            answer: asked.answer,
            trace: self,
        }
    }

    // op=frag.
    pub fn frag_step(
        self,
        id: u64,
        seq: u64,
        numbers: &[u64],
        large: &mut [u64],
        small: &mut [u64],
    ) -> Followed
        ensures { Gives2 result large.new small.new (frag_line id seq numbers.now self large.old small.old) }
    {
        if large.len() != Trace::LARGE {
            return self.incoherent();
        }
        if small.len() != Trace::SMALL {
            return self.incoherent();
        }
        let n = SequenceNumber::from_rank(seq);
        let set = pieces(numbers);
        let i = reader_of(matched_reader_lookup(&self.heads, id));
        let a = samples_at(i);
        let b = a + ReaderProxy::FRAG_SAMPLES;
        let d = words_at(i);
        let e = d + ReaderProxy::FRAG_WORDS;
        self.asked_of(i, id, n, set, &mut small[a..b], &mut large[d..e])
    }
}

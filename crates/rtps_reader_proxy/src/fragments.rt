// The requested fragments: samples, and 64 words of bits for each.
ghost use Rattle.std.specs.Prelude.{◌≡◌, refl, [], ◌∷◌, not, ◌&&◌, ltb};
ghost use Rattle.numbers.specs.Number.{rank_of};
ghost use Rattle.numbers.specs.Promise.{Gives2};
ghost use Rattle.numbers.specs.Refusals.{row, answer_of};
ghost use Rattle.rtps_reader_proxy.specs.Fragments.{frags_coherent, cannot_ask, no_slot, frags_requested_of, frag_sent_of, next_frag_of, repair_of};
ghost use Rattle.rtps_reader_proxy.specs.Record.{room_for};

use crate::proxy::{Changed, ReaderProxy, room_for};
use number_sets::{FragmentNumberSet, SequenceNumberSet};
pub use numbers::Told;
use numbers::{Answer, FragmentCursor, FragmentNumber, Refusal, SequenceNumber};
use requested_fragments::{ask, table};
use rising::room;

// A fragment of a sample, and the cursor past it. A C struct, so that the answer stands beside what is found.
#[repr(C)]
#[derive(Clone, Copy, Default)]
pub struct NextFragRequested {
    pub answer: Answer,
    pub sample: SequenceNumber,
    pub fragment: FragmentNumber,
    pub cursor: FragmentCursor,
}

// Whether a sample number or a set is such that nothing can be asked for by it.
fn cannot_ask(n: SequenceNumber, set: FragmentNumberSet) -> bool
    ensures { result ≡ cannot_ask n set }
{
    !n.is_sample() | (set.base.rank() == 0) | set.reaches(FragmentNumber::PAST)
}

impl ReaderProxy {
    // Whether the proxy and the rooms of the fragments are coherent.
    pub fn frags_coherent(self, samples: &[u64], words: &[u64]) -> bool
        ensures { result ≡ frags_coherent self samples.now words.now }
    {
        self.is_coherent() & table::coherent(samples, words, self.frag_count)
    }

    // The answer of a call that is lent the rooms of the fragments, where `fits` says whether what joins has room: 1, 3, 2, 10 or done.
    fn check_frags(
        self,
        samples: &[u64],
        words: &[u64],
        fits: bool,
        bits: bool,
        range: bool,
        full: bool,
    ) -> Answer
        ensures { result ≡ answer_of (row 1 refl (not (fits && frags_coherent self samples.now words.now)) ∷ row 3 refl bits ∷ row 2 refl range ∷ row 10 refl full ∷ []) }
    {
        let coherent = fits & self.frags_coherent(samples, words);
        Answer::done()
            .unless(full, Refusal::FragsFull)
            .unless(range, Refusal::Range)
            .unless(bits, Refusal::Bits)
            .unless(!coherent, Refusal::Incoherent)
    }

    // Whether a request needs a slot and finds none.
    fn no_slot(self, samples: &[u64], words: &[u64], n: u64, set: FragmentNumberSet) -> bool
        ensures { result ≡ no_slot n set self samples.now words.now }
    {
        (ReaderProxy::FRAG_SAMPLES <= self.frag_count)
            & (set.size() != 0)
            & !room::holds(samples, self.frag_count, n)
    }

    // The answer of a request, with nothing changed: 1, 3, 2, 10 or done. A step that can't take it tells it beside its own.
    pub fn check_request(
        self,
        samples: &[u64],
        words: &[u64],
        n: SequenceNumber,
        set: FragmentNumberSet,
    ) -> Answer
        ensures { result ≡ answer_of (row 1 refl (not (room_for 1 16 self.frag_count samples.now && frags_coherent self samples.now words.now)) ∷ row 3 refl (ltb 256 set.count) ∷ row 2 refl (cannot_ask n set) ∷ row 10 refl (no_slot (rank_of n) set self samples.now words.now) ∷ []) }
    {
        let fits = room_for(samples, self.frag_count, ReaderProxy::FRAG_SAMPLES, 1);
        let bits = SequenceNumberSet::MOST_BITS < set.count;
        let range = cannot_ask(n, set);
        let full = self.no_slot(samples, words, n.rank(), set);
        self.check_frags(samples, words, fits, bits, range, full)
    }

    // The reader asks for fragments of one sample.
    pub fn mark_frags_requested(
        self,
        samples: &mut [u64],
        words: &mut [u64],
        n: SequenceNumber,
        set: FragmentNumberSet,
    ) -> Changed
        ensures { Gives2 result samples.new words.new (frags_requested_of n set self samples.old words.old) }
    {
        let answer = self.check_request(samples, words, n, set);
        if !answer.is_done() {
            return self.unchanged(answer);
        }
        let frag_count = ask::request(samples, words, self.frag_count, n.rank(), set);
        Changed {
            answer,
            proxy: ReaderProxy { frag_count, ..self },
        }
    }

    // A fragment was sent. (Not by a closure, as the calls on unsent numbers: std has words for what a closure leaves of one lent room, and none for two.)
    pub fn mark_frag_sent(
        self,
        samples: &mut [u64],
        words: &mut [u64],
        n: SequenceNumber,
        f: FragmentNumber,
    ) -> Changed
        ensures { Gives2 result samples.new words.new (frag_sent_of n f self samples.old words.old) }
    {
        let answer = self.check_frags(samples, words, true, false, false, false);
        if !answer.is_done() {
            return self.unchanged(answer);
        }
        let frag_count = table::mark_sent(samples, words, self.frag_count, n.rank(), f.rank());
        Changed {
            answer,
            proxy: ReaderProxy { frag_count, ..self },
        }
    }

    // The first requested fragment at or after the cursor, of the smallest sample held, and the cursor past it.
    pub fn next_frag_requested(
        self,
        samples: &[u64],
        words: &[u64],
        at: FragmentCursor,
    ) -> NextFragRequested
        ensures { result ≡ next_frag_of at self samples.now words.now }
    {
        let next = table::next(samples, words, self.frag_count, at.from);
        let answer = Answer::found(self.frags_coherent(samples, words), next.is_none());
        match next {
            Some(next) if answer.is_done() => NextFragRequested {
                answer,
                sample: SequenceNumber::from_rank(next.sample),
                fragment: FragmentNumber::from_rank(next.fragment),
                cursor: FragmentCursor::past(next.fragment),
            },
            _ => NextFragRequested {
                answer,
                ..NextFragRequested::default()
            },
        }
    }

    // Whether any fragment is requested.
    pub fn repair_frags_requested(self, samples: &[u64], words: &[u64]) -> Told
        ensures { result ≡ repair_of self samples.now words.now }
    {
        let answer = self.check_frags(samples, words, true, false, false, false);
        Told {
            answer,
            yes: answer.is_done() & (self.frag_count != 0),
        }
    }
}

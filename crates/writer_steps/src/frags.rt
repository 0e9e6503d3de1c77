// A NACK_FRAG taken by reader id: the list is looked at, and nothing of it changes. The reader's record takes the request, unless the reader isn't
// there. Its head's acked isn't asked: a request of fragments doesn't look at acked.
ghost use Rattle.std.specs.Prelude.{◌≡◌};
ghost use Rattle.numbers.specs.Promise.{Gives2};
ghost use Rattle.writer_steps.specs.Frags.{nack_frag_of, nack_frag_step};

use number_sets::FragmentNumberSet;
use numbers::SequenceNumber;
use numbers::answers::earlier;
use reader_list::calls::matched_reader_lookup;
use reader_list::{Found, ReaderHead};
use rtps_reader_proxy::ReaderProxy;
use rtps_reader_proxy::proxy::Changed;

// What a NACK_FRAG decides of the reader that was found.
fn frags_settled(
    found: Found,
    proxy: ReaderProxy,
    samples: &mut [u64],
    words: &mut [u64],
    n: SequenceNumber,
    set: FragmentNumberSet,
) -> Changed
    ensures { Gives2 result samples.new words.new (nack_frag_of found n set proxy samples.old words.old) }
{
    if !found.answer.is_done() {
        let own = proxy.check_request(samples, words, n, set);
        let answer = earlier(own, found.answer);
        return Changed { answer, proxy };
    }
    proxy.mark_frags_requested(samples, words, n, set)
}

pub fn take_nack_frag(
    list: &[ReaderHead],
    proxy: ReaderProxy,
    samples: &mut [u64],
    words: &mut [u64],
    id: u64,
    n: SequenceNumber,
    set: FragmentNumberSet,
) -> Changed
    ensures { Gives2 result samples.new words.new (nack_frag_step list.now id n set proxy samples.old words.old) }
{
    let found = matched_reader_lookup(list, id);
    frags_settled(found, proxy, samples, words, n, set)
}

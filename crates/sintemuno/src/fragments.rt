// The reader record: the requested fragments, in a room of samples and a room of 64 words of bits for each.
ghost use Rattle.std.specs.Prelude.{◌≡◌};
ghost use Rattle.numbers.specs.Promise.{Gives2};
ghost use Rattle.rtps_reader_proxy.specs.Fragments.{frags_requested_of, frag_sent_of, next_frag_of, repair_of};

use number_sets::FragmentNumberSet;
use numbers::{FragmentCursor, FragmentNumber, SequenceNumber};
use rtps_reader_proxy::ReaderProxy;
use rtps_reader_proxy::fragments::{NextFragRequested, Told};
use rtps_reader_proxy::proxy::Changed;

#[unsafe(no_mangle)]
pub extern "C" fn sintemuno_reader_mark_frags_requested(
    proxy: ReaderProxy,
    samples: &mut [u64],
    words: &mut [u64],
    number: SequenceNumber,
    set: FragmentNumberSet,
) -> Changed
    ensures { Gives2 result samples.new words.new (frags_requested_of number set proxy samples.old words.old) }
{
    proxy.mark_frags_requested(samples, words, number, set)
}

#[unsafe(no_mangle)]
pub extern "C" fn sintemuno_reader_mark_frag_sent(
    proxy: ReaderProxy,
    samples: &mut [u64],
    words: &mut [u64],
    number: SequenceNumber,
    fragment: FragmentNumber,
) -> Changed
    ensures { Gives2 result samples.new words.new (frag_sent_of number fragment proxy samples.old words.old) }
{
    proxy.mark_frag_sent(samples, words, number, fragment)
}

#[unsafe(no_mangle)]
pub extern "C" fn sintemuno_reader_next_frag_requested(
    proxy: ReaderProxy,
    samples: &[u64],
    words: &[u64],
    at: FragmentCursor,
) -> NextFragRequested
    ensures { result ≡ next_frag_of at proxy samples.now words.now }
{
    proxy.next_frag_requested(samples, words, at)
}

#[unsafe(no_mangle)]
pub extern "C" fn sintemuno_reader_repair_frags_requested(
    proxy: ReaderProxy,
    samples: &[u64],
    words: &[u64],
) -> Told
    ensures { result ≡ repair_of proxy samples.now words.now }
{
    proxy.repair_frags_requested(samples, words)
}

// What the calls look for in a lent list, each by one pass over its slots.
ghost use Rattle.std.specs.Prelude.{◌≡◌, ◌<◌, IfSome, length};
ghost use Rattle.reader_list.specs.Readers.{slots_coherent, frontier};
ghost use Rattle.reader_list.specs.Slots.{readers, list_coherent};
ghost use Rattle.reader_list.specs.Ahead.{place_found, others, front_joined};

use crate::heads::ReaderHead;
use crate::ids::are_different;

// Whether it is 1 to 64 slots, each a reader's or all zeros, with ids all different. (Not inlined: measured, in the ACKNACK step the loops take a tenth more
// instructions where it is.)
#[inline(never)]
#[tactic(auto, using(crate::proofs::Gather::length_readers))]
pub(crate) fn is_coherent(list: &[ReaderHead]) -> bool
    ensures { result ≡ list_coherent list.now }
{
    let n = list.len();
    1 <= n && n <= ReaderHead::MOST && are_clean(list) && are_different(list)
}

// Every slot is looked at, without a branch.
fn are_clean(list: &[ReaderHead]) -> bool
    ensures { result ≡ slots_coherent (readers list.now) }
{
    list.iter().fold(true, |clean, h| clean & h.is_coherent())
}

// The first place of an id; of id 0: of a free slot.
pub(crate) fn place_of(list: &[ReaderHead], id: u64) -> Option<usize>
    ensures is { result ≡ place_found id (readers list.now) }
    ensures within { IfSome result (λ i. i < length list.now) }
{
    list.iter().position(|h| h.id == id)
}

// A frontier with one reader more; 0 stands for an absent one, as in the definitions.
pub(crate) fn joined(front: u64, h: ReaderHead) -> u64
    ensures { result ≡ front_joined front h }
{
    if !h.reliable {
        return front;
    }
    let raised = h.acked.rank().max(1);
    if front == 0 {
        raised
    } else {
        front.min(raised)
    }
}

// The smallest acked over the reliable readers, raised to 1 at least.
pub(crate) fn smallest(list: &[ReaderHead]) -> u64
    ensures { result ≡ frontier (readers list.now) }
{
    list.iter().fold(0, |front, h| joined(front, *h))
}

// And over those with another id.
pub(crate) fn smallest_of_others(list: &[ReaderHead], id: u64) -> u64
    ensures { result ≡ frontier (others id (readers list.now)) }
{
    list.iter()
        .filter(|h| h.id != id)
        .fold(0, |front, h| joined(front, *h))
}
